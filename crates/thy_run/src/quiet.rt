//! Cycles with nothing to report, one after another. Their loop knows of no sink, so it is made once for a machine, a
//! device and an observer, and what it calls becomes part of it. An instruction's cycles are taken in a row where the machine takes
//! them so.
ghost use Rattle.std.specs.Prelude.{◌≡◌, ◌≤◌, ◌<◌, ◌+◌, ℕ, List};
ghost use Rattle.thy_block.specs.Device.{Device as DeviceValue};
ghost use Rattle.thy_computer.specs.Advances.{IsOthersCycle};
ghost use Rattle.thy_run.specs.Going.{IsPlanned, HasDrawn};
ghost use Rattle.thy_run.specs.Quiet.{IsRowEnd, IsWatched, LeadsQuietly, PassesTo, RunsQuietly};
ghost use Rattle.thy_run.specs.Watching.{CanSee};

use crate::advance::{
    HartCycle, advance, is_quiet, list_hart, quiet_below, stays_quiet, take_other,
};
use crate::observer::Observer;
use crate::picks::pass_picks;
use crate::plan::Plan;
use crate::progress::Progress;
use thy_base::{Nvm, Pick};
use thy_computer::{Advance, Computer, Stepped};

/// Why a row of quiet cycles ended.
#[derive(Drop)]
pub enum Pause {
    /// The number of cycles that the limit allows is done.
    Limit,
    /// The next step is taken, and has something to report.
    Steps(Stepped),
    /// The next step failed.
    Stuck,
}

/// Takes the cycle of a pick that was drawn, if no hart advances in it. If it has nothing to report the observer sees it;
/// else this is why the quiet cycles end. Few cycles are of this kind: it is never made part of the loop.
#[inline(never)]
fn pass_other<M: Computer, N: Nvm, O: Observer>(
    progress: &mut Progress<M>,
    plan: &Plan,
    pick: Pick,
    now: u64,
    nvm: &mut N,
    observer: &mut O,
) -> Option<Pause>
    requires planned { IsPlanned plan.now }
    requires drawn { let n = N.device nvm.old in
        (fitted : DeviceValue) × (turns : List ℕ) × HasDrawn M.kind plan.now fitted progress.old n now turns pick }
    requires others { IsOthersCycle M.kind pick progress.old.machine (N.device nvm.old) }
    requires few { now < plan.now.geometry.limit }
    requires unseen { CanSee O.has_seen observer.old (now + 1) }
    ensures { let n = N.device nvm.old in
        let new = N.device nvm.new in
        let p = progress.old in
        let o = observer.old in
        PassesTo M.kind O.has_seen plan.now p progress.new n new now pick o observer.new result }
{
    let Ok(stepped) = take_other(progress, plan, pick, now, nvm) else {
        return Some(Pause::Stuck);
    };
    if !is_quiet(progress, plan, &stepped, now + 1) {
        return Some(Pause::Steps(stepped));
    }
    observer.see(&stepped, 0, now + 1);
    None
}

/// How many cycles a row has at most.
const ROW: u64 = 5;

/// Below which cycle a row can begin: its cycles are left before the limit, and all of them are below this cycle.
fn row_end(plan: &Plan, below: u64) -> u64
    ensures limit { (k : ℕ) → k < result → k + 5 ≤ plan.now.geometry.limit }
    ensures below { (k : ℕ) → k < result → k + 5 < below }
{
    let limit = plan.geometry.numbers().limit;
    let end = if limit < below { limit } else { below };
    end.saturating_sub(ROW)
}

/// Takes cycles in a row in which a hart advances, if the machine takes some so and none of them can have anything to report, as is
/// so below `end`. The observer sees each. It answers how many it took.
#[inline(always)]
fn pass_row<M: Computer, N: Nvm, O: Observer>(
    progress: &mut Progress<M>,
    plan: &Plan,
    end: u64,
    now: u64,
    nvm: &N,
    observer: &mut O,
) -> u64
    requires planned { IsPlanned plan.now }
    requires watched { IsWatched M.kind O.has_seen plan.now progress.old (N.device nvm.now) now observer.old }
    requires end { IsRowEnd plan.now progress.old end }
    requires few { now < plan.now.geometry.limit }
    ensures leads { let n = N.device nvm.now in
        let p = progress.old in
        LeadsQuietly M.kind O.has_seen plan.now p progress.new n now (now + result) observer.old observer.new }
    ensures few { now + result ≤ plan.now.geometry.limit }
{
    if now >= end {
        return 0;
    }
    let harts = plan.geometry.harts();
    let mut ahead = progress.mix;
    let pick = ahead.next(harts);
    let row = progress.machine.advance_on(pick, &plan.start, nvm);
    let moves = row.moved;
    for seen in 0..moves {
        observer.see(&Advance::Moved.stepped(), 0, now + seen + 1);
    }
    match row.retired {
        None => {
            pass_picks(&mut progress.mix, harts, moves);
            moves
        }
        Some(hart) => {
            pass_picks(&mut progress.mix, harts, moves + 1);
            list_hart(&mut progress.turns, harts, hart);
            observer.see(&Advance::Retired(hart).stepped(), 0, now + moves + 1);
            moves + 1
        }
    }
}

/// Runs cycles while they have nothing to report: no event, and no cut. `done` cycles were done before. It answers how
/// many are done then, and why no more are. The observer sees each.
pub fn run_quiet<M: Computer, N: Nvm, O: Observer>(
    progress: &mut Progress<M>,
    plan: &Plan,
    done: u64,
    nvm: &mut N,
    observer: &mut O,
) -> (u64, Pause)
    requires planned { IsPlanned plan.now }
    requires watched { IsWatched M.kind O.has_seen plan.now progress.old (N.device nvm.old) done observer.old }
    requires few { done ≤ plan.now.geometry.limit }
    ensures { let n = N.device nvm.old in
        let new = N.device nvm.new in
        let p = progress.old in
        let o = observer.old in
        RunsQuietly M.kind O.has_seen plan.now p progress.new n new done o observer.new result.0 result.1 }
{
    let harts = plan.geometry.harts();
    let limit = plan.geometry.numbers().limit;
    let below = quiet_below(progress, plan);
    let end = row_end(plan, below);
    let mut now = done;
    while now < limit {
        let taken = pass_row(progress, plan, end, now, nvm, observer);
        if taken > 0 {
            now += taken;
            continue;
        }
        let pick = progress.mix.next(harts);
        match advance(progress, plan, pick, now, nvm) {
            HartCycle::Advanced(advance) => {
                if !stays_quiet(progress, plan, below, now + 1) {
                    return (now, Pause::Steps(advance.stepped()));
                }
                observer.see(&advance.stepped(), 0, now + 1);
            }
            HartCycle::Left => {
                if let Some(pause) = pass_other(progress, plan, pick, now, nvm, observer) {
                    return (now, pause);
                }
            }
            HartCycle::Failed => return (now, Pause::Stuck),
        }
        now += 1;
    }
    (limit, Pause::Limit)
}
