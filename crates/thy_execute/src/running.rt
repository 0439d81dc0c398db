//! A run on the machine.
ghost use Rattle.std.specs.Prelude.{◌≡◌, ◌<◌, [], None, IfOk, IfErr, OnErr, option_map};
ghost use Rattle.thy_base.specs.Config.{fault_of as range_fault, parameters_of};
ghost use Rattle.thy_block.specs.declared.parameters.Parameters.{Parameters as Numbers};
ghost use Rattle.thy_base.specs.Settings.{job_of};
ghost use Rattle.thy_outcome.specs.Answering.{outside};
ghost use Rattle.thy_outcome.specs.Watching.{RunSeen};
ghost use Rattle.thy_outcome.specs.Machines.{by_scheme};
ghost use Rattle.thy_outcome.specs.Saving.{SavesUnder, saves};
ghost use Rattle.thy_execute.specs.Planning.{CanRun, HasRoom, HasStayed, IsUnfitted, RunsFitted, RunsPlan, shape_of};
ghost use Rattle.thy_outcome.specs.Kept.{named};
ghost use Rattle.thy_files.specs.Restoring.{ReadsFiles};
ghost use Rattle.thy_run.specs.Going.{IsPlanned};
ghost use Rattle.thy_run.specs.Rounds.{IsFitted};

use std::alloc::Global;
use thy_base::{Block, FitError, Geometry, Job, Nvm, PutError, SchemeName, Shape, Shelf, Sink};
use thy_computer::Computer;
use thy_files::{Beginning, cuts_in, is_saved, prepare, save, save_pick};
use thy_gap::Gap;
use thy_outcome::{Answer, ProgramSource, Ran, Refusal, refuse, stopped};
use thy_run::{Ending, Observer, Plan, run};

/// Saves a run that stopped, if it is to be saved; and returns why it was not, if it was to be and was not.
fn save_run<H: Shelf, N: Nvm>(
    alloc: Global,
    name: Option<&str>,
    plan: &Plan,
    blocks: u64,
    ending: &Ending,
    shelf: &mut H,
    nvm: &mut N,
) -> Option<PutError>
    requires { HasRoom (N.device nvm.old) ending.now.events blocks }
    ensures { let n = N.device nvm.old in
        let new = N.device nvm.new in
        SavesUnder (option_map (λ n. n.now) name.entry) (saves ending.now.stop) plan.now.config
        n new (H.stock shelf.old) (H.stock shelf.new) result }
{
    match name {
        Some(name) if is_saved(ending.stop) => {
            let kept = cuts_in(&ending.events);
            save(
                alloc,
                name,
                save_pick(&plan.config),
                kept,
                blocks,
                nvm,
                shelf,
            )
        }
        _ => None,
    }
}

/// The shape that the device of a plan's machine is fitted with.
fn shape_of<M: Computer>(plan: &Plan) -> Shape
    ensures shape { result ≡ shape_of M.kind plan.now }
    ensures queue { 0 < result.queue }
{
    Shape {
        blocks: M::nvm_blocks(&plan.geometry),
        queue: plan.geometry.numbers().nvmq,
        cuts: plan.config.cuts.len() as u64,
    }
}

/// Runs a plan over a device that was fitted for it, and saves the run.
fn run_fitted<M: Computer, H: Shelf, T: Sink, R: Sink, N: Nvm, O: Observer>(
    alloc: Global,
    source: ProgramSource,
    save: Option<&str>,
    plan: &Plan,
    shelf: &mut H,
    terminal: &mut T,
    report: &mut R,
    nvm: &mut N,
    observer: &mut O,
) -> Ran
    requires planned { IsPlanned plan.now }
    requires fitted { IsFitted M.kind plan.now (N.device nvm.old) }
    requires unseen { O.has_seen observer.old [] }
    ensures runs { let before = outside (H.stock shelf.old) (N.device nvm.old)
        (T.stream terminal.old) (R.stream report.old) in
        let after = outside (H.stock shelf.new) (N.device nvm.new)
        (T.stream terminal.new) (R.stream report.new) in
        let name = option_map (λ n. n.now) save.entry in
        RunsFitted M.kind O.has_seen (named source.entry) name plan.now before after result observer.new }
    ensures stays { HasStayed (N.device nvm.old) (N.device nvm.new) }
{
    let ending = run::<M, T, R, N, O>(alloc, plan, terminal, report, nvm, observer);
    let blocks = M::nvm_blocks(&plan.geometry);
    let why = save_run(alloc, save, plan, blocks, &ending, shelf, nvm);
    let limit = plan.geometry.numbers().limit;
    stopped(source, save, ending, why, limit, report)
}

/// Runs a plan without levelling over a device that is made for it, with these first blocks, and saves the run.
fn run_direct<M: Computer, H: Shelf, T: Sink, R: Sink, N: Nvm, O: Observer>(
    alloc: Global,
    source: ProgramSource,
    save: Option<&str>,
    plan: &Plan,
    blocks: Vec<Block>,
    shelf: &mut H,
    terminal: &mut T,
    report: &mut R,
    nvm: &mut N,
    observer: &mut O,
) -> Result<Ran, FitError>
    requires direct { plan.now.config.gap ≡ 0 }
    requires can { CanRun plan.now blocks.items }
    requires reads { ReadsFiles M.kind plan.now.geometry }
    requires unseen { O.has_seen observer.old [] }
    ensures runs { let before = outside (H.stock shelf.old) (N.device nvm.old)
        (T.stream terminal.old) (R.stream report.old) in
        let after = outside (H.stock shelf.new) (N.device nvm.new)
        (T.stream terminal.new) (R.stream report.new) in
        let name = option_map (λ n. n.now) save.entry in
        IfOk result (λ ran.
        RunsPlan M.kind O.has_seen (named source.entry) name plan.now blocks.items before after ran observer.new) }
    ensures unfitted { let before = outside (H.stock shelf.old) (N.device nvm.old)
        (T.stream terminal.old) (R.stream report.old) in
        let after = outside (H.stock shelf.new) (N.device nvm.new)
        (T.stream terminal.new) (R.stream report.new) in
        IfErr result (λ e. IsUnfitted e before after) }
    ensures unseen { OnErr result (O.has_seen observer.new []) }
{
    let shape = shape_of::<M>(plan);
    match nvm.fit(alloc, &shape, blocks) {
        Ok(()) => Ok(run_fitted::<M, H, T, R, N, O>(
            alloc, source, save, plan, shelf, terminal, report, nvm, observer,
        )),
        Err(error) => Err(error),
    }
}

/// Runs a plan with wear levelling, over lines that are moved on the device. They are made for it, with these first blocks.
/// Saves the run.
fn run_levelled<M: Computer, H: Shelf, T: Sink, R: Sink, N: Nvm, O: Observer>(
    alloc: Global,
    source: ProgramSource,
    save: Option<&str>,
    plan: &Plan,
    blocks: Vec<Block>,
    shelf: &mut H,
    terminal: &mut T,
    report: &mut R,
    nvm: &mut N,
    observer: &mut O,
) -> Result<Ran, FitError>
    requires levelled { 0 < plan.now.config.gap }
    requires can { CanRun plan.now blocks.items }
    requires reads { ReadsFiles M.kind plan.now.geometry }
    requires unseen { O.has_seen observer.old [] }
    ensures runs { let before = outside (H.stock shelf.old) (N.device nvm.old)
        (T.stream terminal.old) (R.stream report.old) in
        let after = outside (H.stock shelf.new) (N.device nvm.new)
        (T.stream terminal.new) (R.stream report.new) in
        let name = option_map (λ n. n.now) save.entry in
        IfOk result (λ ran.
        RunsPlan M.kind O.has_seen (named source.entry) name plan.now blocks.items before after ran observer.new) }
    ensures unfitted { let before = outside (H.stock shelf.old) (N.device nvm.old)
        (T.stream terminal.old) (R.stream report.old) in
        let after = outside (H.stock shelf.new) (N.device nvm.new)
        (T.stream terminal.new) (R.stream report.new) in
        IfErr result (λ e. IsUnfitted e before after) }
    ensures unseen { OnErr result (O.has_seen observer.new []) }
{
    let shape = shape_of::<M>(plan);
    let mut lines = Gap::over(nvm, plan.config.gap);
    match lines.fit(alloc, &shape, blocks) {
        Ok(()) => {
            let ran = run_fitted::<M, H, T, R, Gap<&mut N>, O>(
                alloc, source, save, plan, shelf, terminal, report, &mut lines, observer,
            );
            lines.recall_meaning();
            let _loan = lines.into_inner();
            Ok(ran)
        }
        Err(error) => {
            let _loan = lines.into_inner();
            Err(error)
        }
    }
}

/// Runs a plan over a device that is made for it, with these first blocks, and saves the run.
pub fn run_plan<M: Computer, H: Shelf, T: Sink, R: Sink, N: Nvm, O: Observer>(
    alloc: Global,
    source: ProgramSource,
    save: Option<&str>,
    plan: &Plan,
    blocks: Vec<Block>,
    shelf: &mut H,
    terminal: &mut T,
    report: &mut R,
    nvm: &mut N,
    observer: &mut O,
) -> Result<Ran, FitError>
    requires can { CanRun plan.now blocks.items }
    requires reads { ReadsFiles M.kind plan.now.geometry }
    requires unseen { O.has_seen observer.old [] }
    ensures runs { let before = outside (H.stock shelf.old) (N.device nvm.old)
        (T.stream terminal.old) (R.stream report.old) in
        let after = outside (H.stock shelf.new) (N.device nvm.new)
        (T.stream terminal.new) (R.stream report.new) in
        let name = option_map (λ n. n.now) save.entry in
        IfOk result (λ ran.
        RunsPlan M.kind O.has_seen (named source.entry) name plan.now blocks.items before after ran observer.new) }
    ensures unfitted { let before = outside (H.stock shelf.old) (N.device nvm.old)
        (T.stream terminal.old) (R.stream report.old) in
        let after = outside (H.stock shelf.new) (N.device nvm.new)
        (T.stream terminal.new) (R.stream report.new) in
        IfErr result (λ e. IsUnfitted e before after) }
    ensures unseen { OnErr result (O.has_seen observer.new []) }
{
    if plan.config.gap == 0 {
        run_direct::<M, H, T, R, N, O>(
            alloc, source, save, plan, blocks, shelf, terminal, report, nvm, observer,
        )
    } else {
        run_levelled::<M, H, T, R, N, O>(
            alloc, source, save, plan, blocks, shelf, terminal, report, nvm, observer,
        )
    }
}

/// Runs a job on a machine, from the source of its program.
fn run_source<M: Computer, H: Shelf, T: Sink, R: Sink, N: Nvm, O: Observer>(
    alloc: Global,
    source: ProgramSource,
    job: Job,
    shelf: &mut H,
    terminal: &mut T,
    report: &mut R,
    nvm: &mut N,
    observer: &mut O,
) -> Answer
    requires range { range_fault job.config ≡ None }
    requires reads { ReadsFiles M.kind (parameters_of job.config) }
    requires unseen { O.has_seen observer.old [] }
    ensures { let before = outside (H.stock shelf.old) (N.device nvm.old)
        (T.stream terminal.old) (R.stream report.old) in
        let after = outside (H.stock shelf.new) (N.device nvm.new)
        (T.stream terminal.new) (R.stream report.new) in
        RunSeen M.kind O.has_seen (named source.entry) (job_of job) before after result observer.new }
{
    let Job {
        config,
        input,
        save,
        digest,
    } = job;
    let geometry = Geometry::of(&config);
    let Beginning { start, blocks } = match prepare(
        alloc,
        source,
        input.as_deref(),
        geometry,
        shelf,
    ) {
        Ok(beginning) => beginning,
        Err(refusal) => return refuse(alloc, refusal, report),
    };
    let plan = Plan {
        config,
        geometry,
        start,
        digest,
    };
    match run_plan::<M, H, T, R, N, O>(
        alloc,
        source,
        save.as_deref(),
        &plan,
        blocks,
        shelf,
        terminal,
        report,
        nvm,
        observer,
    ) {
        Ok(ran) => ran.answer(alloc),
        Err(error) => refuse(alloc, Refusal::Device(error), report),
    }
}

/// Runs a job on the machine of its scheme: `A` for `SchemeName::Thynvm`, `B` for `SchemeName::Journal`, `C` for
/// `SchemeName::Shadow`. Each machine has to read the files of its own scheme alone.
pub fn run_by_scheme<
    A: Computer,
    B: Computer,
    C: Computer,
    H: Shelf,
    T: Sink,
    R: Sink,
    N: Nvm,
    O: Observer,
>(
    alloc: Global,
    source: ProgramSource,
    job: Job,
    shelf: &mut H,
    terminal: &mut T,
    report: &mut R,
    nvm: &mut N,
    observer: &mut O,
) -> Answer
    requires range { range_fault job.config ≡ None }
    requires thynvm { (p : Numbers) → p.scheme ≡ SchemeName.Thynvm → ReadsFiles A.kind p }
    requires journal { (p : Numbers) → p.scheme ≡ SchemeName.Journal → ReadsFiles B.kind p }
    requires shadow { (p : Numbers) → p.scheme ≡ SchemeName.Shadow → ReadsFiles C.kind p }
    requires unseen { O.has_seen observer.old [] }
    ensures { let before = outside (H.stock shelf.old) (N.device nvm.old)
        (T.stream terminal.old) (R.stream report.old) in
        let after = outside (H.stock shelf.new) (N.device nvm.new)
        (T.stream terminal.new) (R.stream report.new) in
        let machines = by_scheme A.kind B.kind C.kind in
        let K = (machines job.config.scheme).kind in
        RunSeen K O.has_seen (named source.entry) (job_of job) before after result observer.new }
{
    match job.config.scheme {
        SchemeName::Thynvm => {
            run_source::<A, H, T, R, N, O>(
                alloc, source, job, shelf, terminal, report, nvm, observer,
            )
        }
        SchemeName::Journal => {
            run_source::<B, H, T, R, N, O>(
                alloc, source, job, shelf, terminal, report, nvm, observer,
            )
        }
        SchemeName::Shadow => {
            run_source::<C, H, T, R, N, O>(
                alloc, source, job, shelf, terminal, report, nvm, observer,
            )
        }
    }
}
