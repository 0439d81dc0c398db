//! One cycle: a step of the machine, and if it has something to report, its events, what the sinks are due for them, and
//! the cut that is due after it.
ghost use Rattle.std.specs.Prelude.{◌≡◌, ◌↔◌, ◌<◌, ◌≤◌, ◌+◌, ◌^◌, ◌&&◌, ◌==◌, ◌⊎◌, ◌++◌, ◌∷◌, [], if◌then◌else◌, ℕ, List, true, nat_lt, length, slice_index, slice_index_or, IfOk, IfErr};
ghost use Rattle.thy_block.specs.Bytes.{bytes_of, room_of};
ghost use Rattle.thy_block.specs.Device.{Device as DeviceValue};
ghost use Rattle.thy_run.specs.declared.advance.HartCycle.TheVariants.{Left};
ghost use Rattle.thy_run.specs.Due.{is_reported, IsQuiet, AreQuietBelow};
ghost use Rattle.thy_run.specs.Going.{IsPlanned, HasDrawn, HasRoomToList, list_after, CanCut, IsCutOffTo};
ghost use Rattle.thy_run.specs.Promises.{AdvancesOn, StepsOn, HasStepped, CanConclude, Concludes};
ghost use Rattle.thy_run.specs.Seeing.{Reports};
ghost use Rattle.thy_run.specs.Sending.{sinks};
ghost use Rattle.thy_run.specs.Watching.{CanSee};
ghost use Rattle.thy_run.specs.World.{turns_after};
ghost use Rattle.thy_computer.specs.declared.did.Advance.{Advance as AdvanceValue};
ghost use Rattle.thy_computer.specs.declared.did.Did.TheVariants.{Retired};
ghost use Rattle.thy_computer.specs.Advances.{IsOthersCycle, did_of, stepped_of};

use crate::ending::Stop;
use crate::gather::{Readings, gather};
use crate::note::note;
use crate::observer::Observer;
use crate::plan::Plan;
use crate::progress::Progress;
use crate::write_report::{write_lines, write_report};
use std::alloc::Global;
use thy_base::{Bytes, Config, Nvm, NvmError, Pick, Sink};
use thy_computer::{Advance, Computer, Did, Stepped};
use thy_text::{Event, Events, Reporting};

/// What a cycle came to.
#[derive(Drop)]
pub enum Outcome {
    /// The cycle is done, and the run continues.
    Goes,
    /// The cycle is done once the power was cut after it. Then the terminal has to get these bytes.
    Cuts(Bytes),
    /// The cycle is done, and the run stops.
    Stops(Stop),
    /// The cycle is not done, and the run stops.
    Breaks(Stop),
}

/// What a pick's cycle came to, if it was asked for as a hart's.
#[derive(Clone, Copy, Debug, PartialEq, Eq)]
pub enum HartCycle {
    /// A hart has advanced its instruction, as this says.
    Advanced(Advance),
    /// Another actor has to take the cycle. Nothing is done yet.
    Left,
    /// The hart's step failed.
    Failed,
}

/// Adds a hart to the list of turns, if there are two harts. Allocates nothing.
#[inline(always)]
pub fn list_hart(turns: &mut Bytes, harts: u64, hart: u8)
    requires { (harts ≡ 1) ⊎ (length (bytes_of turns.old) < room_of turns.old) }
    ensures turns { let old = bytes_of turns.old in
        bytes_of turns.new ≡ (if harts == 1 then old else old ++ hart ∷ []) }
    ensures room { room_of turns.old ≤ room_of turns.new }
{
    if harts == 1 {
        return;
    }
    turns.push(hart);
}

/// Lists the hart that retired an instruction, if there are two harts. Allocates nothing.
#[inline(always)]
fn list_turn(turns: &mut Bytes, harts: u64, did: Did)
    requires room { HasRoomToList harts (bytes_of turns.old) (room_of turns.old) did }
    requires hart { (hart : ℕ) → did ≡ Retired hart → hart < 2 ^ 8 }
    ensures turns { bytes_of turns.new ≡ turns_after harts (bytes_of turns.old) did }
    ensures room { room_of turns.old ≤ room_of turns.new }
{
    match did {
        Did::Retired(hart) => list_hart(turns, harts, hart as u8),
        _ => {}
    }
}

/// Lists the hart that retired an instruction when it advanced, if there are two harts. Allocates nothing.
#[inline(always)]
fn list_advance(turns: &mut Bytes, harts: u64, advance: Advance)
    requires { HasRoomToList harts (bytes_of turns.old) (room_of turns.old) (did_of advance) }
    ensures turns { bytes_of turns.new ≡ turns_after harts (bytes_of turns.old) (did_of advance) }
    ensures room { room_of turns.old ≤ room_of turns.new }
{
    match advance {
        Advance::Moved => {}
        Advance::Retired(hart) => list_hart(turns, harts, hart),
    }
}

/// Takes the cycle of a pick that was drawn, if a hart advances in it, and lists that hart if an instruction retired.
/// `done` cycles were done before.
#[inline(always)]
pub fn advance<M: Computer, N: Nvm>(
    progress: &mut Progress<M>,
    plan: &Plan,
    pick: Pick,
    done: u64,
    nvm: &mut N,
) -> HartCycle
    requires planned { IsPlanned plan.now }
    requires drawn { let n = N.device nvm.old in
        (fitted : DeviceValue) × (turns : List ℕ) × HasDrawn M.kind plan.now fitted progress.old n done turns pick }
    requires few { done < 2 ^ 62 }
    ensures advances { let n = N.device nvm.old in
        AdvancesOn M.kind plan.now progress.old progress.new n (N.device nvm.new) done pick result }
    ensures others { result ≡ Left → IsOthersCycle M.kind pick progress.old.machine (N.device nvm.old) }
{
    match progress.machine.advance(pick, &plan.start, nvm) {
        Ok(Some(advance)) => {
            list_advance(&mut progress.turns, plan.geometry.harts(), advance);
            HartCycle::Advanced(advance)
        }
        Ok(None) => HartCycle::Left,
        Err(_) => HartCycle::Failed,
    }
}

/// Takes the cycle of a pick that was drawn, if no hart advances in it. `done` cycles were done before.
pub fn take_other<M: Computer, N: Nvm>(
    progress: &mut Progress<M>,
    plan: &Plan,
    pick: Pick,
    done: u64,
    nvm: &mut N,
) -> Result<Stepped, NvmError>
    requires planned { IsPlanned plan.now }
    requires drawn { let n = N.device nvm.old in
        (fitted : DeviceValue) × (turns : List ℕ) × HasDrawn M.kind plan.now fitted progress.old n done turns pick }
    requires others { IsOthersCycle M.kind pick progress.old.machine (N.device nvm.old) }
    requires few { done < 2 ^ 62 }
    ensures { let n = N.device nvm.old in
        StepsOn M.kind plan.now progress.old progress.new n (N.device nvm.new) done pick result }
{
    match progress.machine.take_other(pick, &plan.start, nvm) {
        Ok(stepped) => {
            list_turn(&mut progress.turns, plan.geometry.harts(), stepped.did);
            Ok(stepped)
        }
        Err(error) => Err(error),
    }
}

/// Whether a cut falls after this cycle: it is the next one in the list of cuts.
#[inline(always)]
fn is_due(config: &Config, passed: usize, cycle: u64) -> bool
    ensures { let cuts = config.now.cuts in
        result ≡ (nat_lt passed (length cuts) && slice_index cuts passed == cycle) }
{
    passed < config.cuts.len() && config.cuts.get(passed) == cycle
}

/// Whether a step that did this has an event.
#[inline(always)]
fn is_reported(did: Did) -> bool
    ensures { result ≡ is_reported did }
{
    matches!(
        did,
        Did::Loaded | Did::Restarted(..) | Did::Sealed(..) | Did::Committed { .. }
    )
}

/// Whether a step has no event, and no cut falls after it.
#[inline(always)]
pub fn is_quiet<M>(progress: &Progress<M>, plan: &Plan, stepped: &Stepped, cycle: u64) -> bool
    ensures { result ≡ true ↔ IsQuiet plan.now.config.cuts progress.now stepped.now cycle }
{
    !is_reported(stepped.did)
        && !stepped.ended
        && !progress.fresh
        && !is_due(&plan.config, progress.passed, cycle)
}

/// Whether a cycle in which a hart advanced has nothing to report: it is not the first one after a cut, and no cut is
/// listed after it.
fn advances_quietly<M>(progress: &Progress<M>, plan: &Plan, cycle: u64) -> bool
    ensures { (a : AdvanceValue) → (result ≡ true ↔ IsQuiet plan.now.config.cuts progress.now (stepped_of a) cycle) }
{
    !progress.fresh && !is_due(&plan.config, progress.passed, cycle)
}

/// The cycle below which no cycle in which a hart advances has anything to report, as long as no cut falls: the one of the next listed cut,
/// or `2^64 - 1` if none is left. It is 0 if no cycle was done since the last cut.
pub fn quiet_below<M>(progress: &Progress<M>, plan: &Plan) -> u64
    ensures { AreQuietBelow plan.now.config.cuts progress.now result }
{
    if progress.fresh {
        0
    } else if progress.passed < plan.config.cuts.len() {
        plan.config.cuts.get(progress.passed)
    } else {
        u64::MAX
    }
}

/// Whether a cycle in which a hart advanced has nothing to report, if none below a cycle has. Mostly one comparison shows that.
#[inline(always)]
pub fn stays_quiet<M>(progress: &Progress<M>, plan: &Plan, below: u64, cycle: u64) -> bool
    requires { AreQuietBelow plan.now.config.cuts progress.now below }
    ensures { (a : AdvanceValue) → (result ≡ true ↔ IsQuiet plan.now.config.cuts progress.now (stepped_of a) cycle) }
{
    cycle < below || advances_quietly(progress, plan, cycle)
}

/// The pick of the cut with this index in the list of cuts: 0, if the list of picks is shorter.
fn tear(config: &Config, index: usize) -> u64
    ensures { result ≡ slice_index_or config.now.tears index 0 }
{
    if index < config.tears.len() {
        config.tears.get(index)
    } else {
        0
    }
}

/// Cuts the power, and lets it come on again: a new machine over the DRAM of the old one.
///
/// # Errors
/// The events, if an allocation fails: nothing was cut.
pub fn cut<M: Computer, N: Nvm>(
    alloc: Global,
    progress: Progress<M>,
    plan: &Plan,
    cycle: u64,
    nvm: &mut N,
) -> Result<Progress<M>, Events>
    requires { CanCut M.kind plan.now progress (N.device nvm.old) }
    ensures ok { let n = N.device nvm.old in
        let new = N.device nvm.new in
        IfOk result (λ next. IsCutOffTo M.kind plan.now progress next n new cycle) }
    ensures events { IfErr result (λ events. events ≡ progress.events) }
    ensures same { IfErr result (λ events. N.device nvm.new ≡ N.device nvm.old) }
{
    let Progress {
        machine,
        mix,
        mut events,
        passed,
        released,
        fresh: _,
        mut turns,
        terminal_failed,
        report_failed,
    } = progress;
    let pick = tear(&plan.config, passed);
    let Ok(machine) = M::power_on(alloc, &plan.geometry, machine.cut(pick)) else {
        return Err(events);
    };
    let few = passed < plan.config.cuts.len();
    prove!(few);
    let index = passed as u64 + 1;
    if events.push(Event::Cut { index, cycle }).is_err() {
        return Err(events);
    }
    nvm.cut(pick);
    turns.clear();
    Ok(Progress {
        machine,
        mix,
        events,
        passed: passed + 1,
        released,
        fresh: true,
        turns,
        terminal_failed,
        report_failed,
    })
}

/// Forgets the turns of an epoch, if it was sealed. Allocates nothing.
fn end_list(turns: &mut Bytes, did: Did)
    ensures turns { bytes_of turns.new ≡ list_after did (bytes_of turns.old) }
    ensures room { room_of turns.new ≡ room_of turns.old }
{
    match did {
        Did::Sealed(..) => turns.clear(),
        _ => {}
    }
}

/// Makes the events of a step with what was read for them, shows the cycle to the observer, and gives the sinks what
/// they have to get. If a cut falls first, the observer keeps the step, and the sinks get nothing yet.
fn conclude<M: Computer, T: Sink, R: Sink, O: Observer>(
    alloc: Global,
    progress: &mut Progress<M>,
    plan: &Plan,
    stepped: &Stepped,
    readings: Readings,
    cycle: u64,
    terminal: &mut T,
    report: &mut R,
    observer: &mut O,
) -> Outcome
    requires planned { IsPlanned plan.now }
    requires gathered { CanConclude M.kind plan.now progress.old stepped.now readings cycle }
    requires unseen { CanSee O.has_seen observer.old cycle }
    ensures { let before = sinks (T.stream terminal.old) (R.stream report.old) in
        let after = sinks (T.stream terminal.new) (R.stream report.new) in
        let q = progress.old in
        let o = observer.old in
        let r = stepped.now in
        Concludes M.kind O.has_seen O.keeps plan.now q progress.new r readings cycle before after o observer.new result }
{
    let Readings {
        reload,
        restored,
        bytes,
        ended,
    } = readings;
    let first = progress.events.len();
    let turns = &progress.turns;
    let events = &mut progress.events;
    let reporting = Reporting {
        digest: plan.digest,
        harts: plan.config.harts,
    };
    let Ok(ended) = note(
        alloc,
        events,
        stepped.did,
        turns,
        reload,
        restored,
        ended,
        cycle,
    ) else {
        progress.report_failed = write_lines(&progress.events, first, reporting, report);
        return Outcome::Breaks(Stop::Memory);
    };
    progress.released += bytes.len() as u64;
    progress.fresh = false;
    end_list(&mut progress.turns, stepped.did);
    if ended.is_none() && is_due(&plan.config, progress.passed, cycle) {
        observer.keep(stepped);
        return Outcome::Cuts(bytes);
    }
    observer.see(stepped, progress.events.len() - first, cycle);
    let failures = write_report(
        bytes.as_slice(),
        &progress.events,
        first,
        reporting,
        terminal,
        report,
    );
    progress.terminal_failed = failures.terminal;
    progress.report_failed = failures.report;
    if let Some(stop) = failures.stop() {
        return Outcome::Stops(stop);
    }
    match ended {
        Some(status) => Outcome::Stops(Stop::Ended(status)),
        None => Outcome::Goes,
    }
}

/// Reports a cycle whose step is taken: what has to be read for its events, these events, and what the sinks have to
/// get for them. `done` cycles were done before. If a cut falls after it, the observer keeps the step, and the sinks
/// get nothing yet.
pub fn report_cycle<M: Computer, T: Sink, R: Sink, N: Nvm, O: Observer>(
    alloc: Global,
    progress: &mut Progress<M>,
    plan: &Plan,
    stepped: Stepped,
    done: u64,
    terminal: &mut T,
    report: &mut R,
    nvm: &mut N,
    observer: &mut O,
) -> Outcome
    requires planned { IsPlanned plan.now }
    requires stepped { HasStepped M.kind plan.now progress.old (N.device nvm.old) done stepped }
    requires few { done < plan.now.geometry.limit }
    requires unseen { CanSee O.has_seen observer.old (done + 1) }
    ensures { let before = sinks (T.stream terminal.old) (R.stream report.old) in
        let after = sinks (T.stream terminal.new) (R.stream report.new) in
        let n = N.device nvm.old in
        let new = N.device nvm.new in
        let q = progress.old in
        let o = observer.old in
        Reports M.kind O.has_seen O.keeps plan.now q progress.new n new done stepped before after o observer.new result }
{
    match gather(alloc, progress, &stepped, nvm) {
        Ok(readings) => conclude(
            alloc,
            progress,
            plan,
            &stepped,
            readings,
            done + 1,
            terminal,
            report,
            observer,
        ),
        Err(error) => Outcome::Breaks(Stop::from(error)),
    }
}
