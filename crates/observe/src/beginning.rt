//! What the observed run begins with.
ghost use Rattle.std.specs.Prelude.{◌≡◌, None, IfErr, IfOk, IfSome, OnOk, is_some, option_map};
ghost use Rattle.thy_base.specs.Config.{fault_of as range_fault};
ghost use Rattle.thy_block.specs.Outside.{HasNotFailed};
ghost use Rattle.thy_base.specs.Settings.{IsInRange, job_of, order_of};
ghost use Rattle.thy_outcome.specs.Kept.{named};
ghost use Rattle.thy_outcome.specs.Sources.{ProgramDue};
ghost use Rattle.observe.specs.Beginning.{IsBegun, IsBegunBy, IsUnreadBy, run_in, run_of};

use std::alloc::Global;
use thy_base::{Command, Geometry, Job, Shelf};
use thy_files::{Beginning, prepare};
use thy_layout::Start;
use thy_outcome::{ProgramSource, Refusal};

/// What a run begins with, and the numbers of its machine.
#[derive(Drop)]
pub struct Begun {
    pub start: Start,
    pub geometry: Geometry,
}

/// The source of a command's program and its job, if the command runs the machine once; else None.
pub fn run_of(command: &Command) -> Option<(ProgramSource<'_>, &Job)>
    ensures { option_map run_of result ≡ run_in (order_of command.now) }
{
    match command {
        Command::Run { file, job } => Some((ProgramSource::File(file.as_str()), job)),
        Command::Resume { image, job } => Some((ProgramSource::Image(image.as_str()), job)),
        Command::Bench { number, job } => Some((ProgramSource::Made(*number), job)),
        Command::Compare { .. } | Command::Plain { .. } | Command::Make { .. } => None,
    }
}

/// What a job's run begins with; or why there is no run.
fn begin_job<'a, H: Shelf>(
    alloc: Global,
    source: ProgramSource<'a>,
    job: &'a Job,
    shelf: &mut H,
) -> Result<Begun, Refusal<'a>>
    requires { range_fault job.now.config ≡ None }
    ensures refusal { let source = named source.entry in
        IfErr result (ProgramDue source (job_of job.now) (H.stock shelf.old) (H.stock shelf.new)) }
    ensures held { (H.stock shelf.new).held ≡ (H.stock shelf.old).held }
    ensures calm { OnOk result (HasNotFailed (H.stock shelf.old) (H.stock shelf.new)) }
    ensures begins { let source = named source.entry in
        IfOk result (IsBegun source (job_of job.now) (H.stock shelf.old)) }
{
    let geometry = Geometry::of(&job.config);
    match prepare(alloc, source, job.input.as_deref(), geometry, shelf) {
        Ok(Beginning { start, .. }) => Ok(Begun { start, geometry }),
        Err(refusal) => Err(refusal),
    }
}

/// What the run of a command begins with, if the command runs the machine once; or why there is no run.
pub fn begin<'a, H: Shelf>(
    alloc: Global,
    command: &'a Command,
    shelf: &mut H,
) -> Result<Option<Begun>, Refusal<'a>>
    requires { IsInRange (order_of command.now) }
    ensures refusal { let order = order_of command.now in
        IfErr result (IsUnreadBy order (H.stock shelf.old) (H.stock shelf.new)) }
    ensures held { (H.stock shelf.new).held ≡ (H.stock shelf.old).held }
    ensures calm { OnOk result (HasNotFailed (H.stock shelf.old) (H.stock shelf.new)) }
    ensures begins { let order = order_of command.now in
        IfOk result (λ o. IfSome o (IsBegunBy order (H.stock shelf.old))) }
    ensures wanted { IfOk result (λ o. is_some o ≡ is_some (run_in (order_of command.now))) }
{
    let Some((source, job)) = run_of(command) else {
        return Ok(None);
    };
    match begin_job(alloc, source, job, shelf) {
        Ok(begun) => Ok(Some(begun)),
        Err(refusal) => Err(refusal),
    }
}
