//! A run without cuts that is made one cycle at a time: between two of them its caller may look at the machine and the device.
ghost use Rattle.std.specs.Prelude.{◌≡◌, ◌<◌, ℕ, List, [], IfOk};
ghost use Rattle.thy_block.specs.Device.{Device as DeviceValue};
ghost use Rattle.thy_run.specs.Going.{IsPlanned, GoesOn};
ghost use Rattle.thy_run.specs.Rounds.{ending_of, IsStarted};
ghost use Rattle.thy_run.specs.Sending.{sinks};
ghost use Rattle.thy_run.specs.Singles.{IsRunning, SinglesTo, StepsNext};

use crate::advance::{HartCycle, Outcome, advance, is_quiet, report_cycle, take_other};
use crate::cycles::{ended_by, started};
use crate::ending::{Ending, Stop};
use crate::observer::Silent;
use crate::plan::Plan;
use crate::progress::Progress;
use std::alloc::{AllocError, Global};
use thy_base::{Nvm, Sink};
use thy_computer::{Computer, Stepped};

/// What one cycle of a run came to.
#[derive(Drop)]
pub enum SingleCycle {
    /// The cycle is done, its step did this, and the run continues.
    Goes(Stepped),
    /// The cycle is done, and the run stops for this reason.
    Stops(Stop),
    /// The cycle is not done, and the run stops for this reason.
    Breaks(Stop),
}

/// A run that has done no cycle: a new machine, and a schedule at its start. Fails if memory runs out.
pub fn begin<M: Computer>(alloc: Global, plan: &Plan) -> Result<Progress<M>, AllocError>
    ensures { IfOk result (IsStarted M.kind plan.now) }
{
    started::<M>(alloc, plan)
}

/// The ending of a run that stops after this number of cycles.
pub fn end<M: Computer>(stop: Stop, progress: Progress<M>, cycles: u64) -> Ending
    ensures { result ≡ ending_of stop progress cycles }
{
    ended_by(stop, progress, cycles)
}

/// Takes the schedule's next step. `done` cycles were done before. Nothing is returned if it failed.
fn step_next<M: Computer, N: Nvm>(
    progress: &mut Progress<M>,
    plan: &Plan,
    done: u64,
    nvm: &mut N,
) -> Option<Stepped>
    requires planned { IsPlanned plan.now }
    requires goes { let n = N.device nvm.old in
        (fitted : DeviceValue) × (turns : List ℕ) × GoesOn M.kind plan.now fitted progress.old n done turns }
    requires few { done < plan.now.geometry.limit }
    ensures { let n = N.device nvm.old in
        StepsNext M.kind plan.now progress.old progress.new n (N.device nvm.new) done result }
{
    let pick = progress.mix.next(plan.geometry.harts());
    match advance(progress, plan, pick, done, nvm) {
        HartCycle::Advanced(advance) => Some(advance.stepped()),
        HartCycle::Left => match take_other(progress, plan, pick, done, nvm) {
            Ok(stepped) => Some(stepped),
            Err(_) => None,
        },
        HartCycle::Failed => None,
    }
}

/// Makes one cycle of a run without cuts, as `run` makes it. `done` cycles were done before.
pub fn single<M: Computer, T: Sink, R: Sink, N: Nvm>(
    alloc: Global,
    progress: &mut Progress<M>,
    plan: &Plan,
    done: u64,
    terminal: &mut T,
    report: &mut R,
    nvm: &mut N,
) -> SingleCycle
    requires planned { IsPlanned plan.now }
    requires uncut { plan.now.config.cuts ≡ [] }
    requires running { let now = sinks (T.stream terminal.old) (R.stream report.old) in
        IsRunning M.kind plan.now progress.old (N.device nvm.old) done now }
    requires few { done < plan.now.geometry.limit }
    ensures { let before = sinks (T.stream terminal.old) (R.stream report.old) in
        let after = sinks (T.stream terminal.new) (R.stream report.new) in
        let n = N.device nvm.old in
        SinglesTo M.kind plan.now progress.old progress.new n (N.device nvm.new) done before after result }
{
    let Some(stepped) = step_next(progress, plan, done, nvm) else {
        return SingleCycle::Breaks(Stop::Nvm);
    };
    if is_quiet(progress, plan, &stepped, done + 1) {
        return SingleCycle::Goes(stepped);
    }
    match report_cycle(
        alloc,
        progress,
        plan,
        stepped,
        done,
        terminal,
        report,
        nvm,
        &mut Silent,
    ) {
        Outcome::Goes => SingleCycle::Goes(stepped),
        Outcome::Stops(stop) => SingleCycle::Stops(stop),
        Outcome::Breaks(stop) => SingleCycle::Breaks(stop),
        Outcome::Cuts(_) => unreachable!(),
    }
}
