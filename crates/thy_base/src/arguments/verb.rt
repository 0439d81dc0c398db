//! The names of commands.
ghost use Rattle.std.specs.Prelude.{◌≡◌};
ghost use Rattle.thy_base.specs.Settings.{verb_of};

/// What a command does.
#[derive(Clone, Copy)]
pub(crate) enum Verb {
    /// Run a program file.
    Run,
    /// Resume an image.
    Resume,
    /// Run a program that is made from a number.
    Bench,
    /// Compare a program file's runs by each scheme.
    Compare,
    /// Run a program file on the plain machine.
    Plain,
    /// Put a program that is made from a number under a name.
    Make,
}

/// The command that has this name, if one has it.
pub(crate) fn verb_of(name: &str) -> Option<Verb>
    ensures { result ≡ verb_of name.now }
{
    if name == "run" {
        Some(Verb::Run)
    } else if name == "resume" {
        Some(Verb::Resume)
    } else if name == "bench" {
        Some(Verb::Bench)
    } else if name == "compare" {
        Some(Verb::Compare)
    } else if name == "plain" {
        Some(Verb::Plain)
    } else if name == "make" {
        Some(Verb::Make)
    } else {
        None
    }
}
