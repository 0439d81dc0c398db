//! The run that is made once more, over a device of its own, for the accesses of its cycles.
ghost use Rattle.std.specs.Prelude.{◌≡◌, ◌<◌, [], None, IfSome};
ghost use Rattle.thy_block.specs.declared.parameters.Parameters.{Parameters as Numbers};
ghost use Rattle.thy_block.specs.Device.{fitted};
ghost use Rattle.thy_base.specs.Config.{fault_of as range_fault, parameters_of};
ghost use Rattle.thy_base.specs.Settings.{IsInRange, job_of, order_of};
ghost use Rattle.thy_outcome.specs.Kept.{named};
ghost use Rattle.thy_outcome.specs.Machines.{by_scheme};
ghost use Rattle.thy_execute.specs.Planning.{CanRun, shape_of};
ghost use Rattle.thy_files.specs.Restoring.{ReadsFiles};
ghost use Rattle.thy_observe.specs.Accesses.{HasAccesses};
ghost use Rattle.observe.specs.Again.{IsUncut, MakesRows, MakesRowsOf};

use crate::top::{NO_MEMORY, close};
use std::alloc::Global;
use thy_base::{Block, Command, Geometry, Job, Nvm, SchemeName, Shape, Shelf, Sink};
use thy_cli::refuse;
use thy_computer::Computer;
use thy_files::{Beginning, prepare};
use thy_observe::{Accessed, Listing, Window, list_accesses};
use thy_outcome::ProgramSource;
use thy_run::Plan;
use thy_text::Closing;

/// The shape that the device of a plan's machine is fitted with.
fn shape_of<M: Computer>(plan: &Plan) -> Shape
    ensures shape { result ≡ shape_of M.kind plan.now }
    ensures queue { 0 < result.queue }
{
    Shape {
        blocks: M::nvm_blocks(&plan.geometry),
        queue: plan.geometry.numbers().nvmq,
        cuts: plan.config.cuts.len() as u64,
    }
}

/// The accesses in a window of a plan's run over a device that is made for it, with these first blocks; none if memory ran out.
fn rows_over<M: Computer, N: Nvm>(
    alloc: Global,
    plan: &Plan,
    blocks: Vec<Block>,
    window: Window,
    nvm: &mut Listing<N>,
) -> Option<Vec<Accessed>>
    requires can { CanRun plan.now blocks.items }
    requires reads { ReadsFiles M.kind plan.now.geometry }
    requires uncut { plan.now.config.cuts ≡ [] }
    ensures { let device = fitted (shape_of M.kind plan.now) blocks.items (N.device nvm.old.inner) in
        IfSome result (λ rows. HasAccesses M.kind plan.now device window rows.items) }
{
    let shape = shape_of::<M>(plan);
    match nvm.fit(alloc, &shape, blocks) {
        Ok(()) => list_accesses::<M, N>(alloc, plan, window, nvm),
        Err(_) => None,
    }
}

/// The accesses in a window of a job's run on a machine, from the source of its program.
///
/// # Errors
/// The exit status: the program could not be read, or memory ran out, and the report says so.
fn rows_of<M: Computer, H: Shelf, R: Sink, N: Nvm>(
    alloc: Global,
    source: ProgramSource,
    job: Job,
    window: Window,
    shelf: &mut H,
    report: &mut R,
    nvm: &mut Listing<N>,
) -> Result<Vec<Accessed>, u8>
    requires range { range_fault job.config ≡ None }
    requires reads { ReadsFiles M.kind (parameters_of job.config) }
    requires uncut { job.config.cuts ≡ [] }
    ensures { MakesRows M.kind (named source.entry) (job_of job) window (H.stock shelf.old) (H.stock shelf.new)
        (R.stream report.old) (R.stream report.new) result }
{
    let Job {
        config,
        input,
        save: _,
        digest,
    } = job;
    let geometry = Geometry::of(&config);
    let Beginning { start, blocks } = match prepare(
        alloc,
        source,
        input.as_deref(),
        geometry,
        shelf,
    ) {
        Ok(beginning) => beginning,
        Err(refusal) => return Err(refuse(alloc, refusal, report).status),
    };
    let plan = Plan {
        config,
        geometry,
        start,
        digest,
    };
    match rows_over::<M, N>(alloc, &plan, blocks, window, nvm) {
        Some(rows) => Ok(rows),
        None => {
            close(Closing::Memory, report);
            Err(NO_MEMORY)
        }
    }
}

/// The accesses in a window of a job's run on the machine of its scheme: `A` for `SchemeName::Thynvm`, `B` for
/// `SchemeName::Journal`, `C` for `SchemeName::Shadow`.
///
/// # Errors
/// As of `rows_of`.
fn rows_by_scheme<A: Computer, B: Computer, C: Computer, H: Shelf, R: Sink, N: Nvm>(
    alloc: Global,
    source: ProgramSource,
    job: Job,
    window: Window,
    shelf: &mut H,
    report: &mut R,
    nvm: &mut Listing<N>,
) -> Result<Vec<Accessed>, u8>
    requires range { range_fault job.config ≡ None }
    requires uncut { job.config.cuts ≡ [] }
    requires thynvm { (p : Numbers) → p.scheme ≡ SchemeName.Thynvm → ReadsFiles A.kind p }
    requires journal { (p : Numbers) → p.scheme ≡ SchemeName.Journal → ReadsFiles B.kind p }
    requires shadow { (p : Numbers) → p.scheme ≡ SchemeName.Shadow → ReadsFiles C.kind p }
    ensures { let K = (by_scheme A.kind B.kind C.kind job.config.scheme).kind in
        MakesRows K (named source.entry) (job_of job) window (H.stock shelf.old) (H.stock shelf.new)
        (R.stream report.old) (R.stream report.new) result }
{
    match job.config.scheme {
        SchemeName::Thynvm => {
            rows_of::<A, H, R, N>(alloc, source, job, window, shelf, report, nvm)
        }
        SchemeName::Journal => {
            rows_of::<B, H, R, N>(alloc, source, job, window, shelf, report, nvm)
        }
        SchemeName::Shadow => {
            rows_of::<C, H, R, N>(alloc, source, job, window, shelf, report, nvm)
        }
    }
}

/// The accesses in a window of the run that a command asks for.
///
/// # Errors
/// As of `rows_of`.
pub fn rows_for<A: Computer, B: Computer, C: Computer, H: Shelf, R: Sink, N: Nvm>(
    alloc: Global,
    command: Command,
    window: Window,
    shelf: &mut H,
    report: &mut R,
    nvm: &mut Listing<N>,
) -> Result<Vec<Accessed>, u8>
    requires range { IsInRange (order_of command) }
    requires uncut { IsUncut (order_of command) }
    requires thynvm { (p : Numbers) → p.scheme ≡ SchemeName.Thynvm → ReadsFiles A.kind p }
    requires journal { (p : Numbers) → p.scheme ≡ SchemeName.Journal → ReadsFiles B.kind p }
    requires shadow { (p : Numbers) → p.scheme ≡ SchemeName.Shadow → ReadsFiles C.kind p }
    ensures { let machines = by_scheme A.kind B.kind C.kind in
        MakesRowsOf machines (order_of command) window (H.stock shelf.old) (H.stock shelf.new)
        (R.stream report.old) (R.stream report.new) result }
{
    match command {
        Command::Run { file, job } => {
            let source = ProgramSource::File(file.as_str());
            rows_by_scheme::<A, B, C, H, R, N>(alloc, source, job, window, shelf, report, nvm)
        }
        Command::Resume { image, job } => {
            let source = ProgramSource::Image(image.as_str());
            rows_by_scheme::<A, B, C, H, R, N>(alloc, source, job, window, shelf, report, nvm)
        }
        Command::Bench { number, job } => {
            let source = ProgramSource::Made(number);
            rows_by_scheme::<A, B, C, H, R, N>(alloc, source, job, window, shelf, report, nvm)
        }
        Command::Compare { .. } | Command::Plain { .. } | Command::Make { .. } => unreachable!(),
    }
}
