//! The instructions of a run, executed again on the plain machine: how often each program counter retired, and the state in a
//! cycle, or at a count.
ghost use Rattle.std.specs.Prelude.{◌≡◌, [], List, length, take, IfOk, OnOk, option_map, true};
ghost use Rattle.thy_block.specs.Bytes.{bytes_of};
ghost use Rattle.thy_isa.specs.OnBlocks.{setting_for};
ghost use Rattle.thy_isa.specs.Step.{state_of};
ghost use Rattle.thy_plain.specs.Machine.{stepped_by};
ghost use Rattle.thy_run.specs.Watching.{Taken};
ghost use Rattle.thy_observe.specs.Changes.{changes_of, dated_of};
ghost use Rattle.thy_observe.specs.Following.{FollowsRuns, KnowsBoots};
ghost use Rattle.thy_observe.specs.Replaying.{AddsOne, AreCounts, Executed, IsPlainAt, IsReplay, executed_by, executed_of, is_by, listed_by, listed_of, nothing_executed, pc_in};
ghost use Rattle.thy_observe.specs.States.{state_at, state_by};

use crate::changes::{Change, Dated};
use std::alloc::{AllocError, Global};
use std::collections::BTreeMap;
use thy_base::Geometry;
use thy_computer::Computer;
use thy_layout::Start;
use thy_plain::Plain;

/// The states whose count is at least this are not executed further.
const MOST_COUNT: u64 = 1 << 62;

/// Why a run is not executed again.
#[derive(Clone, Copy, Debug, PartialEq, Eq, Drop)]
pub enum ReplayError {
    /// Memory ran out.
    Memory,
    /// There are more instructions than the replay can count.
    Count,
}

impl From<AllocError> for ReplayError {
    fn from(_error: AllocError) -> ReplayError {
        ReplayError::Memory
    }
}

/// A run that is executed again, up to a change of its state.
#[derive(Drop)]
pub(crate) struct Replay {
    /// The plain machine, in the state after the changes so far.
    pub(crate) plain: Plain,
    /// The harts that retired the instructions from the start up to there, those that were lost left out.
    pub(crate) harts: Vec<u32>,
    /// How often each program counter retired, lost instructions included.
    counts: BTreeMap<u64, u64>,
    /// The machine is up: in a boot it has no state.
    up: bool,
}

/// The program counter of a hart.
fn pc_of(hart: u32, plain: &Plain) -> u64
    ensures { result ≡ pc_in hart plain.now.state }
{
    if hart == 0 { plain.pc(0) } else { plain.pc(1) }
}

/// Counts a program counter once more.
fn count_one(counts: &mut BTreeMap<u64, u64>, pc: u64) -> Result<(), ReplayError>
    ensures { OnOk result (AddsOne counts.old counts.new pc) }
{
    let count = counts.get(&pc).copied().unwrap_or(0);
    let Some(next) = count.checked_add(1) else {
        return Err(ReplayError::Count);
    };
    match counts.insert(pc, next) {
        Ok(_) => Ok(()),
        Err(_) => Err(ReplayError::Memory),
    }
}

/// The plain machine at the start of a run.
fn at_start(alloc: Global, start: &Start, geometry: &Geometry) -> Result<Plain, AllocError>
    ensures { IfOk result (IsPlainAt geometry.now start.now []) }
{
    let input = start.input.duplicate(alloc)?;
    Plain::in_state(alloc, &start.state, geometry, input)
}

/// Executes the next instruction of a hart.
fn step(plain: &mut Plain, hart: u32) -> Result<(), ReplayError>
    ensures { OnOk result (plain.new ≡ stepped_by hart plain.old) }
{
    if plain.count() >= MOST_COUNT {
        return Err(ReplayError::Count);
    }
    if hart == 0 {
        plain.step_of(0);
    } else {
        plain.step_of(1);
    }
    Ok(())
}

/// The plain machine once these harts have retired an instruction each, in order, from the start on.
fn at_turns(
    alloc: Global,
    start: &Start,
    geometry: &Geometry,
    harts: &[u32],
) -> Result<Plain, ReplayError>
    ensures { IfOk result (IsPlainAt geometry.now start.now harts.now) }
{
    let mut plain = at_start(alloc, start, geometry)?;
    for i in 0..harts.len() {
        step(&mut plain, harts[i])?;
    }
    Ok(plain)
}

/// The first of these harts, if there are more than a number.
fn first_of(harts: &[u32], most: u64) -> &[u32]
    ensures { result.now ≡ take most harts.now }
{
    if most < harts.len() as u64 {
        &harts[..most as usize]
    } else {
        harts
    }
}

/// A replay of a run of this start, before its first change.
pub(crate) fn begin(
    alloc: Global,
    start: &Start,
    geometry: &Geometry,
) -> Result<Replay, ReplayError>
    ensures { IfOk result (IsReplay geometry.now start.now nothing_executed) }
{
    Ok(Replay {
        plain: at_start(alloc, start, geometry)?,
        harts: Vec::new(alloc),
        counts: BTreeMap::new(alloc),
        up: false,
    })
}

/// The replay where the machine is up again, with the harts that retired these instructions, and the same counts.
fn back_to(
    alloc: Global,
    start: &Start,
    geometry: &Geometry,
    replay: Replay,
    most: u64,
) -> Result<Replay, ReplayError>
    ensures { IfOk result (λ next. (e : Executed) → IsReplay geometry.now start.now e replay
        → IsReplay geometry.now start.now (record e { harts = take most e.harts; up = true }) next) }
{
    let Replay { harts, counts, .. } = replay;
    let harts = Vec::from_slice(alloc, first_of(harts.as_slice(), most))?;
    let plain = at_turns(alloc, start, geometry, harts.as_slice())?;
    Ok(Replay {
        plain,
        harts,
        counts,
        up: true,
    })
}

/// The replay after one more change.
pub(crate) fn follow(
    alloc: Global,
    start: &Start,
    geometry: &Geometry,
    replay: Replay,
    change: Change,
) -> Result<Replay, ReplayError>
    ensures { IfOk result (λ next. (e : Executed) → IsReplay geometry.now start.now e replay
        → IsReplay geometry.now start.now (executed_by geometry.now start.now e change) next) }
{
    match change {
        Change::Loaded => back_to(alloc, start, geometry, replay, 0),
        Change::Restored(count) => {
            let most = count.saturating_sub(start.state.count);
            back_to(alloc, start, geometry, replay, most)
        }
        Change::Retired(hart) => {
            let mut next = replay;
            count_one(&mut next.counts, pc_of(hart, &next.plain))?;
            if next.harts.push(hart).is_err() {
                return Err(ReplayError::Memory);
            }
            step(&mut next.plain, hart)?;
            Ok(next)
        }
        Change::Lost => {
            let mut next = replay;
            next.up = false;
            Ok(next)
        }
    }
}

/// Whether a change is in the cycles up to this one, or in any.
fn is_by(most: Option<u64>, dated: Dated) -> bool
    ensures { result ≡ is_by most dated }
{
    match most {
        Some(cycle) => dated.cycle <= cycle,
        None => true,
    }
}

/// The replay after one more change of a list, if that is in the cycles up to this one, or in any.
fn follow_listed(
    alloc: Global,
    start: &Start,
    geometry: &Geometry,
    most: Option<u64>,
    replay: Replay,
    dated: Dated,
) -> Result<Replay, ReplayError>
    ensures { IfOk result (λ next. (e : Executed) → IsReplay geometry.now start.now e replay
        → IsReplay geometry.now start.now (listed_by geometry.now start.now most e dated) next) }
{
    if is_by(most, dated) {
        follow(alloc, start, geometry, replay, dated.change)
    } else {
        Ok(replay)
    }
}

/// A run of this start whose cycles made these changes, executed again up to this cycle, or to its end.
fn execute(
    alloc: Global,
    start: &Start,
    geometry: &Geometry,
    most: Option<u64>,
    listed: &[Dated],
) -> Result<Replay, ReplayError>
    ensures { IfOk result (IsReplay geometry.now start.now (listed_of geometry.now start.now most listed.now)) }
{
    let mut replay = begin(alloc, start, geometry)?;
    for dated in listed {
        replay = follow_listed(alloc, start, geometry, most, replay, *dated)?;
    }
    Ok(replay)
}

/// How often each program counter retired in a run of this start whose cycles made these changes: an instruction that was
/// lost at a cut of power, and executed again, counts again.
///
/// # Errors
/// Memory ran out, or there are more instructions than can be counted.
pub fn count_pcs(
    alloc: Global,
    start: &Start,
    geometry: &Geometry,
    listed: &[Dated],
) -> Result<BTreeMap<u64, u64>, ReplayError>
    ensures { IfOk result (λ counts. (seen : List Taken) → listed.now ≡ dated_of seen
        → AreCounts counts.entries (executed_of geometry.now start.now (changes_of seen)).pcs) }
{
    match execute(alloc, start, geometry, None, listed) {
        Ok(replay) => Ok(replay.counts),
        Err(error) => Err(error),
    }
}

/// The plain machine in the state after this cycle of a run of this start, which had that number of cycles, and whose cycles made
/// these changes; none if the run had fewer cycles, or was in a boot then.
///
/// # Errors
/// Memory ran out, or there are more instructions than can be counted.
pub fn state_by(
    alloc: Global,
    start: &Start,
    geometry: &Geometry,
    listed: &[Dated],
    cycles: u64,
    cycle: u64,
) -> Result<Option<Plain>, ReplayError>
    ensures { IfOk result (λ state. (seen : List Taken) → listed.now ≡ dated_of seen → cycles ≡ length seen
        → option_map (λ m. m.state) state
        ≡ state_by (setting_for geometry.now (bytes_of start.now.input)) (state_of start.now.state) cycle seen) }
{
    if cycles < cycle {
        return Ok(None);
    }
    let replay = execute(alloc, start, geometry, Some(cycle), listed)?;
    if replay.up {
        Ok(Some(replay.plain))
    } else {
        Ok(None)
    }
}

/// The plain machine in the state at this count of a run of this start whose cycles made these changes; none if the start is
/// further, or if the run kept fewer instructions.
///
/// # Errors
/// Memory ran out, or there are more instructions than can be counted.
pub fn state_at(
    alloc: Global,
    start: &Start,
    geometry: &Geometry,
    listed: &[Dated],
    count: u64,
) -> Result<Option<Plain>, ReplayError>
    ensures { IfOk result (λ state. (seen : List Taken) → listed.now ≡ dated_of seen
        → option_map (λ m. m.state) state
        ≡ state_at (setting_for geometry.now (bytes_of start.now.input)) (state_of start.now.state) count seen) }
{
    if count < start.state.count {
        return Ok(None);
    }
    let most = count - start.state.count;
    let replay = execute(alloc, start, geometry, None, listed)?;
    if (replay.harts.len() as u64) < most {
        return Ok(None);
    }
    let plain = at_turns(
        alloc,
        start,
        geometry,
        first_of(replay.harts.as_slice(), most),
    )?;
    Ok(Some(plain))
}

/// What is executed again is what the run has executed: after each cycle outside a boot, its state is the plain machine's at the
/// machine's count, by the run's own turns. And it is known when the machine is in a boot.
pub fn what_is_executed_follows_the_run<M: Computer>()
    ensures states { FollowsRuns M.kind }
    ensures boots { KnowsBoots M.kind }
{}
