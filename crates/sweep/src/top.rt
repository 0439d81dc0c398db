//! The call: the run with what is tried, and then OUT.
ghost use Rattle.std.specs.Prelude.{◌≡◌, ◌<◌, ◌^◌, [], None, length, map};
ghost use Rattle.std.specs.String.{string_bytes};
ghost use Rattle.thy_outcome.specs.Answering.{outside};
ghost use Rattle.thy_outcome.specs.Kept.{named};
ghost use Rattle.thy_outcome.specs.Machines.{by_scheme};
ghost use Rattle.thy_base.specs.Config.{fault_of as range_fault, parameters_of};
ghost use Rattle.thy_block.specs.declared.parameters.Parameters.{Parameters as Numbers};
ghost use Rattle.thy_execute.specs.Planning.{CanRun, HasStayed, shape_of};
ghost use Rattle.thy_files.specs.Restoring.{ReadsFiles};
ghost use Rattle.thy_run.specs.Going.{IsPlanned};
ghost use Rattle.thy_run.specs.Rounds.{IsFitted};
ghost use Rattle.thy_base.specs.Settings.{IsInRange, job_of, order_of};
ghost use Rattle.sweep.specs.Naming.{IsUncut};
ghost use Rattle.sweep.specs.Swept.{Sweeps, SweepsJob, SweepsOrder, SweepsOver, SweepsPlan, levels_of};
ghost use Rattle.thy_sweep.specs.Lying.{blocks_below};

use crate::asked::Asked;
use crate::concluding::{conclude, report_short};
use crate::naming::is_refused;
use crate::running::{Watch, sweep_run};
use std::alloc::Global;
use thy_base::{
    Block, Command, Geometry, Job, Nvm, SchemeName, Shape, Shelf, Sink, WordsError, settings,
};
use thy_computer::Computer;
use thy_core::Machine;
use thy_files::{Beginning, prepare};
use thy_gap::Gap;
use thy_nvm::MemNvm;
use thy_outcome::{ProgramSource, Refusal, refuse};
use thy_run::Plan;
use thy_schemes::{Journal, Shadow, Thynvm};
use thy_sweep::Tryable;

/// The shape that the device of a plan's machine is fitted with.
fn shape_of<M: Computer>(plan: &Plan) -> Shape
    ensures shape { result ≡ shape_of M.kind plan.now }
    ensures queue { 0 < result.queue }
{
    Shape {
        blocks: M::nvm_blocks(&plan.geometry),
        queue: plan.geometry.numbers().nvmq,
        cuts: plan.config.cuts.len() as u64,
    }
}

/// Makes the run of a plan over a device that was fitted for it, with what is tried, and writes OUT. The shape is of the device in
/// memory. Returns the exit status.
fn sweep_fitted<M: Computer, H: Shelf, T: Sink, R: Sink, N: Tryable>(
    alloc: Global,
    out: &str,
    asked: &Asked,
    source: ProgramSource,
    plan: &Plan,
    shape: &Shape,
    shelf: &mut H,
    terminal: &mut T,
    report: &mut R,
    nvm: &mut N,
) -> u8
    requires planned { IsPlanned plan.now }
    requires uncut { plan.now.config.cuts ≡ [] }
    requires levels { N.levels ≡ levels_of plan.now }
    requires fitted { IsFitted M.kind plan.now (N.device nvm.old) }
    requires sized { 0 < length (N.device nvm.old).image }
    requires blocks { shape.now.blocks ≡ blocks_below N.levels (length (N.device nvm.old).image) }
    requires queue { shape.now.queue ≡ (N.device nvm.old).queue_room }
    requires cuts { shape.now.cuts < 2 ^ 64 }
    requires some { 0 < shape.now.queue }
    ensures sweeps { let before = outside (H.stock shelf.old) (N.device nvm.old)
        (T.stream terminal.old) (R.stream report.old) in
        let after = outside (H.stock shelf.new) (N.device nvm.new)
        (T.stream terminal.new) (R.stream report.new) in
        SweepsOver M.kind out.now asked.now (named source.entry) plan.now before after result }
    ensures stays { HasStayed (N.device nvm.old) (N.device nvm.new) }
{
    let Ok(mut watch) = Watch::new(alloc, plan, asked.compared) else {
        return report_short(report);
    };
    let swept = sweep_run::<M, T, R, N>(
        alloc, plan, shape, asked, terminal, report, &mut watch, nvm,
    );
    let limit = plan.geometry.numbers().limit;
    let Watch { account, .. } = watch;
    conclude(
        alloc, out, source, asked, swept, account, limit, shelf, report,
    )
}

/// Makes the run of a plan without levelling over a device in memory that is made for it, with these first blocks, with what is tried,
/// and writes OUT. Returns the exit status.
fn sweep_direct<M: Computer, H: Shelf, T: Sink, R: Sink>(
    alloc: Global,
    out: &str,
    asked: &Asked,
    source: ProgramSource,
    plan: &Plan,
    blocks: Vec<Block>,
    shelf: &mut H,
    terminal: &mut T,
    report: &mut R,
    nvm: &mut MemNvm,
) -> u8
    requires direct { plan.now.config.gap ≡ 0 }
    requires can { CanRun plan.now blocks.items }
    requires reads { ReadsFiles M.kind plan.now.geometry }
    requires uncut { plan.now.config.cuts ≡ [] }
    ensures { let before = outside (H.stock shelf.old) nvm.old.device
        (T.stream terminal.old) (R.stream report.old) in
        let after = outside (H.stock shelf.new) nvm.new.device
        (T.stream terminal.new) (R.stream report.new) in
        SweepsPlan M.kind out.now asked.now (named source.entry) plan.now blocks.items before after result }
{
    let shape = shape_of::<M>(plan);
    match nvm.fit(alloc, &shape, blocks) {
        Ok(()) => sweep_fitted::<M, H, T, R, MemNvm>(
            alloc, out, asked, source, plan, &shape, shelf, terminal, report, nvm,
        ),
        Err(error) => refuse(alloc, Refusal::Device(error), report).status,
    }
}

/// Makes the run of a plan with wear levelling, over lines on a device in memory. They are made for it, with these first blocks. Writes
/// OUT, and returns the exit status.
fn sweep_levelled<M: Computer, H: Shelf, T: Sink, R: Sink>(
    alloc: Global,
    out: &str,
    asked: &Asked,
    source: ProgramSource,
    plan: &Plan,
    blocks: Vec<Block>,
    shelf: &mut H,
    terminal: &mut T,
    report: &mut R,
    nvm: &mut MemNvm,
) -> u8
    requires levelled { 0 < plan.now.config.gap }
    requires can { CanRun plan.now blocks.items }
    requires reads { ReadsFiles M.kind plan.now.geometry }
    requires uncut { plan.now.config.cuts ≡ [] }
    ensures { let before = outside (H.stock shelf.old) nvm.old.device
        (T.stream terminal.old) (R.stream report.old) in
        let after = outside (H.stock shelf.new) nvm.new.device
        (T.stream terminal.new) (R.stream report.new) in
        SweepsPlan M.kind out.now asked.now (named source.entry) plan.now blocks.items before after result }
{
    let shape = shape_of::<M>(plan);
    let mut lines = Gap::over(nvm, plan.config.gap);
    match lines.fit(alloc, &shape, blocks) {
        Ok(()) => {
            let below = Shape {
                blocks: lines.inner_blocks(),
                queue: shape.queue,
                cuts: shape.cuts,
            };
            let status = sweep_fitted::<M, H, T, R, Gap<&mut MemNvm>>(
                alloc, out, asked, source, plan, &below, shelf, terminal, report, &mut lines,
            );
            lines.recall_meaning();
            let _loan = lines.into_inner();
            status
        }
        Err(error) => {
            let _loan = lines.into_inner();
            refuse(alloc, Refusal::Device(error), report).status
        }
    }
}

/// Makes the run of a plan over a device that is made for it, with these first blocks, with what is tried, and writes OUT. Returns the
/// exit status.
fn sweep_plan<M: Computer, H: Shelf, T: Sink, R: Sink>(
    alloc: Global,
    out: &str,
    asked: &Asked,
    source: ProgramSource,
    plan: &Plan,
    blocks: Vec<Block>,
    shelf: &mut H,
    terminal: &mut T,
    report: &mut R,
    nvm: &mut MemNvm,
) -> u8
    requires can { CanRun plan.now blocks.items }
    requires reads { ReadsFiles M.kind plan.now.geometry }
    requires uncut { plan.now.config.cuts ≡ [] }
    ensures { let before = outside (H.stock shelf.old) nvm.old.device
        (T.stream terminal.old) (R.stream report.old) in
        let after = outside (H.stock shelf.new) nvm.new.device
        (T.stream terminal.new) (R.stream report.new) in
        SweepsPlan M.kind out.now asked.now (named source.entry) plan.now blocks.items before after result }
{
    if plan.config.gap == 0 {
        sweep_direct::<M, H, T, R>(
            alloc, out, asked, source, plan, blocks, shelf, terminal, report, nvm,
        )
    } else {
        sweep_levelled::<M, H, T, R>(
            alloc, out, asked, source, plan, blocks, shelf, terminal, report, nvm,
        )
    }
}

/// Makes the run of a job on a machine, from the source of its program, with what is tried, and writes OUT. Returns the exit status.
fn sweep_source<M: Computer, H: Shelf, T: Sink, R: Sink>(
    alloc: Global,
    out: &str,
    asked: &Asked,
    source: ProgramSource,
    job: Job,
    shelf: &mut H,
    terminal: &mut T,
    report: &mut R,
    nvm: &mut MemNvm,
) -> u8
    requires range { range_fault job.config ≡ None }
    requires reads { ReadsFiles M.kind (parameters_of job.config) }
    requires uncut { job.config.cuts ≡ [] }
    ensures { let before = outside (H.stock shelf.old) nvm.old.device
        (T.stream terminal.old) (R.stream report.old) in
        let after = outside (H.stock shelf.new) nvm.new.device
        (T.stream terminal.new) (R.stream report.new) in
        SweepsJob M.kind out.now asked.now (named source.entry) (job_of job) before after result }
{
    let Job {
        config,
        input,
        save: _,
        digest,
    } = job;
    let geometry = Geometry::of(&config);
    let Beginning { start, blocks } = match prepare(
        alloc,
        source,
        input.as_deref(),
        geometry,
        shelf,
    ) {
        Ok(beginning) => beginning,
        Err(refusal) => return refuse(alloc, refusal, report).status,
    };
    let plan = Plan {
        config,
        geometry,
        start,
        digest,
    };
    sweep_plan::<M, H, T, R>(
        alloc, out, asked, source, &plan, blocks, shelf, terminal, report, nvm,
    )
}

/// Makes the run of a job on the machine of its scheme, with what is tried, and writes OUT: `A` for `SchemeName::Thynvm`, `B` for
/// `SchemeName::Journal`, `C` for `SchemeName::Shadow`. Returns the exit status.
fn sweep_by_scheme<A: Computer, B: Computer, C: Computer, H: Shelf, T: Sink, R: Sink>(
    alloc: Global,
    out: &str,
    asked: &Asked,
    source: ProgramSource,
    job: Job,
    shelf: &mut H,
    terminal: &mut T,
    report: &mut R,
    nvm: &mut MemNvm,
) -> u8
    requires range { range_fault job.config ≡ None }
    requires uncut { job.config.cuts ≡ [] }
    requires thynvm { (p : Numbers) → p.scheme ≡ SchemeName.Thynvm → ReadsFiles A.kind p }
    requires journal { (p : Numbers) → p.scheme ≡ SchemeName.Journal → ReadsFiles B.kind p }
    requires shadow { (p : Numbers) → p.scheme ≡ SchemeName.Shadow → ReadsFiles C.kind p }
    ensures { let before = outside (H.stock shelf.old) nvm.old.device
        (T.stream terminal.old) (R.stream report.old) in
        let after = outside (H.stock shelf.new) nvm.new.device
        (T.stream terminal.new) (R.stream report.new) in
        let K = (by_scheme A.kind B.kind C.kind job.config.scheme).kind in
        SweepsJob K out.now asked.now (named source.entry) (job_of job) before after result }
{
    match job.config.scheme {
        SchemeName::Thynvm => sweep_source::<A, H, T, R>(
            alloc, out, asked, source, job, shelf, terminal, report, nvm,
        ),
        SchemeName::Journal => sweep_source::<B, H, T, R>(
            alloc, out, asked, source, job, shelf, terminal, report, nvm,
        ),
        SchemeName::Shadow => sweep_source::<C, H, T, R>(
            alloc, out, asked, source, job, shelf, terminal, report, nvm,
        ),
    }
}

/// Makes the run that a command asks for, with what is tried, and writes OUT. Returns the exit status.
fn sweep_command<A: Computer, B: Computer, C: Computer, H: Shelf, T: Sink, R: Sink>(
    alloc: Global,
    out: &str,
    asked: &Asked,
    command: Command,
    shelf: &mut H,
    terminal: &mut T,
    report: &mut R,
    nvm: &mut MemNvm,
) -> u8
    requires range { IsInRange (order_of command) }
    requires uncut { IsUncut (order_of command) }
    requires thynvm { (p : Numbers) → p.scheme ≡ SchemeName.Thynvm → ReadsFiles A.kind p }
    requires journal { (p : Numbers) → p.scheme ≡ SchemeName.Journal → ReadsFiles B.kind p }
    requires shadow { (p : Numbers) → p.scheme ≡ SchemeName.Shadow → ReadsFiles C.kind p }
    ensures { let before = outside (H.stock shelf.old) nvm.old.device
        (T.stream terminal.old) (R.stream report.old) in
        let after = outside (H.stock shelf.new) nvm.new.device
        (T.stream terminal.new) (R.stream report.new) in
        let machines = by_scheme A.kind B.kind C.kind in
        SweepsOrder machines out.now asked.now (order_of command) before after result }
{
    match command {
        Command::Run { file, job } => {
            let source = ProgramSource::File(file.as_str());
            sweep_by_scheme::<A, B, C, H, T, R>(
                alloc, out, asked, source, job, shelf, terminal, report, nvm,
            )
        }
        Command::Resume { image, job } => {
            let source = ProgramSource::Image(image.as_str());
            sweep_by_scheme::<A, B, C, H, T, R>(
                alloc, out, asked, source, job, shelf, terminal, report, nvm,
            )
        }
        Command::Bench { number, job } => {
            let source = ProgramSource::Made(number);
            sweep_by_scheme::<A, B, C, H, T, R>(
                alloc, out, asked, source, job, shelf, terminal, report, nvm,
            )
        }
        Command::Compare { .. } | Command::Plain { .. } | Command::Make { .. } => unreachable!(),
    }
}

/// Makes the run that the arguments ask for, the program's name first, with what is tried, and writes OUT. Returns the exit status.
fn sweep_words<A: Computer, B: Computer, C: Computer, H: Shelf, T: Sink, R: Sink>(
    alloc: Global,
    out: &str,
    asked: &Asked,
    words: &[String],
    shelf: &mut H,
    terminal: &mut T,
    report: &mut R,
    nvm: &mut MemNvm,
) -> u8
    requires thynvm { (p : Numbers) → p.scheme ≡ SchemeName.Thynvm → ReadsFiles A.kind p }
    requires journal { (p : Numbers) → p.scheme ≡ SchemeName.Journal → ReadsFiles B.kind p }
    requires shadow { (p : Numbers) → p.scheme ≡ SchemeName.Shadow → ReadsFiles C.kind p }
    ensures { let before = outside (H.stock shelf.old) nvm.old.device
        (T.stream terminal.old) (R.stream report.old) in
        let after = outside (H.stock shelf.new) nvm.new.device
        (T.stream terminal.new) (R.stream report.new) in
        let machines = by_scheme A.kind B.kind C.kind in
        Sweeps machines out.now asked.now (map string_bytes words.now) before after result }
{
    let command = match settings(alloc, words) {
        Ok(command) => command,
        Err(error) => return refuse(alloc, Refusal::Words(error), report).status,
    };
    let refused = is_refused(out, asked.torn, &command);
    if refused {
        return refuse(alloc, Refusal::Words(WordsError::Usage), report).status;
    }
    sweep_command::<A, B, C, H, T, R>(alloc, out, asked, command, shelf, terminal, report, nvm)
}

/// Makes the run that the arguments ask for, the program's name first, as thynvm makes it without cuts; tries after each cycle that
/// is asked for what a cut can leave then; and writes under OUT what this came to.
///
/// Returns the exit status: 0 if the sweep came to its last cycle, or the run to its end or its limit. It is 1 if a boot led to a
/// state that is not the plain machine's, which never happens. It is 2 if the arguments are refused, or the run ends before the first
/// cycle that is asked for, 3 if OUT could not be put, and else thynvm's.
pub fn sweep<H: Shelf, T: Sink, R: Sink>(
    alloc: Global,
    out: &str,
    asked: &Asked,
    words: &[String],
    shelf: &mut H,
    terminal: &mut T,
    report: &mut R,
    nvm: &mut MemNvm,
) -> u8
    ensures { let before = outside (H.stock shelf.old) nvm.old.device
        (T.stream terminal.old) (R.stream report.old) in
        let after = outside (H.stock shelf.new) nvm.new.device
        (T.stream terminal.new) (R.stream report.new) in
        let machines = by_scheme ⟦<Machine<Thynvm> as Computer>⟧.kind
        ⟦<Machine<Journal> as Computer>⟧.kind
        ⟦<Machine<Shadow> as Computer>⟧.kind in
        Sweeps machines out.now asked.now (map string_bytes words.now) before after result }
{
    sweep_words::<Machine<Thynvm>, Machine<Journal>, Machine<Shadow>, H, T, R>(
        alloc, out, asked, words, shelf, terminal, report, nvm,
    )
}
