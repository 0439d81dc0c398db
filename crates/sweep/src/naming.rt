//! Whether a command can be swept, and text be put under OUT.
ghost use Rattle.std.specs.Prelude.{◌≡◌, option_map};
ghost use Rattle.std.specs.String.{string_bytes};
ghost use Rattle.thy_base.specs.Settings.{job_of, order_of};
ghost use Rattle.sweep.specs.Naming.{is_barred, is_cut, is_name, is_refused};

use thy_base::{Command, Job};

/// Whether OUT is this name.
fn is_name(out: &str, name: &Option<String>) -> bool
    ensures { result ≡ is_name out.now (option_map string_bytes name.now) }
{
    match name {
        Some(name) => name.as_str() == out,
        None => false,
    }
}

/// Whether a job has options that a sweep has not: cuts, picks, or a name to save under.
fn is_cut(job: &Job) -> bool
    ensures { result ≡ is_cut (job_of job.now) }
{
    job.config.cuts.len() > 0 || job.config.tears.len() > 0 || job.save.is_some()
}

/// Whether a job has such options, or OUT as the name of its input, or levelled wear if blocks may be torn.
fn is_barred(out: &str, torn: bool, job: &Job) -> bool
    ensures { result ≡ is_barred out.now torn (job_of job.now) }
{
    is_name(out, &job.input) || is_cut(job) || torn && job.config.gap > 0
}

/// Whether a command is not to be swept, with blocks that may be torn or not, or has the name OUT.
pub fn is_refused(out: &str, torn: bool, command: &Command) -> bool
    ensures { result ≡ is_refused out.now torn (order_of command.now) }
{
    match command {
        Command::Run { file, job } => file.as_str() == out || is_barred(out, torn, job),
        Command::Resume { image, job } => image.as_str() == out || is_barred(out, torn, job),
        Command::Bench { job, .. } => is_barred(out, torn, job),
        Command::Compare { .. } | Command::Plain { .. } | Command::Make { .. } => true,
    }
}
