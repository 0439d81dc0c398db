//! Whether text can be put under OUT, and has what is asked for.
ghost use Rattle.std.specs.Prelude.{◌≡◌, option_map};
ghost use Rattle.std.specs.String.{string_bytes};
ghost use Rattle.thy_base.specs.Settings.{job_of, order_of};
ghost use Rattle.observe.specs.Observing.{is_name, is_of_job, is_refused, is_taken, is_untearable};

use crate::beginning::run_of;
use crate::options::Options;
use thy_base::{Command, Job};

/// Whether OUT is this name.
fn is_name(out: &str, name: &Option<String>) -> bool
    ensures { result ≡ is_name out.now (option_map string_bytes name.now) }
{
    match name {
        Some(name) => name.as_str() == out,
        None => false,
    }
}

/// Whether OUT is the name of a job's input or of what it saves.
fn is_of_job(out: &str, job: &Job) -> bool
    ensures { result ≡ is_of_job out.now (job_of job.now) }
{
    is_name(out, &job.input) || is_name(out, &job.save)
}

/// Whether OUT is the name of a file that a command reads or stores, or the command has nothing to observe.
pub(crate) fn is_taken(out: &str, command: &Command) -> bool
    ensures { result ≡ is_taken out.now (order_of command.now) }
{
    match command {
        Command::Run { file, job } | Command::Plain { file, job } => {
            file.as_str() == out || is_of_job(out, job)
        }
        Command::Resume { image, job } => image.as_str() == out || is_of_job(out, job),
        Command::Bench { job, .. } => is_of_job(out, job),
        Command::Compare { .. } | Command::Make { .. } => true,
    }
}

/// Whether a command runs no machine, or moves blocks of the NVM to level its wear, which asks for blocks that land whole.
fn is_untearable(command: &Command) -> bool
    ensures { result ≡ is_untearable (order_of command.now) }
{
    match command {
        Command::Run { job, .. } | Command::Resume { job, .. } | Command::Bench { job, .. } => {
            job.config.gap > 0
        }
        Command::Plain { .. } | Command::Compare { .. } | Command::Make { .. } => true,
    }
}

/// Whether a call is refused, because of OUT or of an option. That may bound a trace that is not asked for, or want what the
/// command does not have: a machine on which it could see something, or an NVM whose blocks may be torn.
pub fn is_refused(options: Options, out: &str, command: &Command) -> bool
    ensures { result ≡ is_refused options out.now (order_of command.now) }
{
    is_taken(out, command)
        || options.lacks_trace()
        || (options.needs_run() && run_of(command).is_none())
        || (options.torn && is_untearable(command))
}
