//! The instructions of a run, one by one, executed again on the plain machine.
ghost use Rattle.std.specs.Prelude.{◌≡◌, ◌+◌, List, IfOk, length};
ghost use Rattle.thy_block.specs.Bytes.{bytes_of};
ghost use Rattle.thy_isa.specs.OnBlocks.{setting_for};
ghost use Rattle.thy_isa.specs.Step.{cpu_of, fronted, state_of};
ghost use Rattle.thy_run.specs.Watching.{Taken};
ghost use Rattle.thy_observe.specs.Changes.{dated, dated_of};
ghost use Rattle.thy_observe.specs.Tracing.{IsTrace, ListsAll, Trace, access_at, fetched, is_up_to, is_within, moved, moved_by, trace_by, trace_of, traced};

use crate::changes::{Change, Dated};
use crate::replay::{Replay, ReplayError, begin, follow};
use crate::trap::fetched_word;
use std::alloc::Global;
use thy_base::{Geometry, is_inside};
use thy_isa::{CpuState, Effect, Regs, Width, bytes_in, is_running, number, word_effect};
use thy_layout::Start;
use thy_plain::Plain;

/// The bytes that an instruction loaded or stored.
#[derive(Clone, Copy, Debug, PartialEq, Eq, Drop)]
pub struct Access {
    /// The address of the first byte.
    pub at: u64,
    /// How many bytes were loaded or stored: 1, 2, 4 or 8.
    pub width: u64,
    /// The number in these bytes after the instruction, the lowest byte first.
    pub value: u64,
}

/// An instruction that retired.
#[derive(Clone, Copy, Debug, PartialEq, Eq, Drop)]
pub struct Traced {
    /// The number of the cycle in which the instruction retired.
    pub cycle: u64,
    /// The number, 0 or 1, of the hart that executed the instruction.
    pub hart: u32,
    /// The address of the instruction.
    pub pc: u64,
    /// The word of the instruction, if pc is aligned and the word is in memory.
    pub word: Option<u32>,
    /// The bytes that the instruction loaded or stored, if it did.
    pub access: Option<Access>,
}

/// The counts of the instructions that are asked for. The first instruction of a program has the count 1.
#[derive(Clone, Copy, Debug, PartialEq, Eq, Drop)]
pub struct Window {
    /// The count of the first instruction of the window.
    pub first: u64,
    /// The count of the last instruction of the window; None if the window has no end.
    pub last: Option<u64>,
}

/// An instruction that is to be executed.
#[derive(Clone, Copy, Debug, PartialEq, Eq, Drop)]
struct Fetched {
    pc: u64,
    word: Option<u32>,
    /// How many bytes it reads or writes, and at which address.
    moved: Option<(Width, u64)>,
}

/// A run that is executed again, up to a change of its state.
#[derive(Drop)]
struct Tracer {
    replay: Replay,
    /// The instructions up to there whose counts are asked for.
    rows: Vec<Traced>,
}

/// How many bytes an effect reads or writes, and at which address.
fn moved(effect: Effect) -> Option<(Width, u64)>
    ensures { result ≡ moved effect }
{
    match effect {
        Effect::Read { width, at, .. }
        | Effect::Write { width, at, .. }
        | Effect::Reserve { width, at, .. }
        | Effect::Conditional { width, at, .. }
        | Effect::Modify { width, at, .. } => Some((width, at)),
        _ => None,
    }
}

/// How many bytes the instruction of a word reads or writes, and at which address.
fn moved_by(word: Option<u32>, pc: u64, regs: &Regs) -> Option<(Width, u64)>
    ensures { result ≡ moved_by word pc regs.now }
{
    match word {
        Some(word) => moved(word_effect(word, pc, regs)),
        None => None,
    }
}

/// The number of these bytes, if they are in memory.
fn access_at(base: u64, memory: &[u8], moved: Option<(Width, u64)>) -> Option<Access>
    ensures { result ≡ access_at base memory.now moved }
{
    let Some((width, at)) = moved else {
        return None;
    };
    let bytes = bytes_in(width);
    if !is_inside(base, memory.len() as u64, at, bytes) {
        return None;
    }
    Some(Access {
        at,
        width: bytes,
        value: number(memory, (at - base) as usize, width),
    })
}

/// The processor with this hart in front.
fn cpu_of(hart: u32, plain: &Plain) -> CpuState
    ensures { result ≡ cpu_of (fronted hart plain.now.state) }
{
    if hart == 0 {
        plain.cpu(0)
    } else {
        plain.cpu(1)
    }
}

/// What a hart executes next.
fn fetch(base: u64, hart: u32, plain: &Plain) -> Fetched
    ensures { result ≡ fetched base (fronted hart plain.now.state) }
{
    let cpu = cpu_of(hart, plain);
    let word = fetched_word(base, cpu.pc, plain.memory().as_slice());
    Fetched {
        pc: cpu.pc,
        word,
        moved: moved_by(word, cpu.pc, &cpu.regs),
    }
}

/// The instruction that a hart fetched, in a cycle that leads to this state.
fn row_of(base: u64, cycle: u64, hart: u32, fetched: Fetched, next: &Plain) -> Traced
    ensures { result ≡ traced base cycle hart fetched next.now.state }
{
    let access = if is_running(next.status()) {
        access_at(base, next.memory().as_slice(), fetched.moved)
    } else {
        None
    };
    Traced {
        cycle,
        hart,
        pc: fetched.pc,
        word: fetched.word,
        access,
    }
}

/// Whether a count is not above the last one, if there is a last one.
fn is_up_to(last: Option<u64>, count: u64) -> bool
    ensures { result ≡ is_up_to last count }
{
    match last {
        Some(last) => count <= last,
        None => true,
    }
}

/// Whether a count is in a window.
pub(crate) fn is_within(window: Window, count: u64) -> bool
    ensures { result ≡ is_within window count }
{
    window.first <= count && is_up_to(window.last, count)
}

/// The count of the next instruction of a replay.
fn next_count(start: &Start, replay: &Replay) -> Result<u64, ReplayError>
    ensures { IfOk result (λ count. count ≡ start.now.state.count + (length replay.now.harts.items + 1)) }
{
    let since = replay.harts.len() as u64;
    match start.state.count.checked_add(since + 1) {
        Some(count) => Ok(count),
        None => Err(ReplayError::Count),
    }
}

/// The replay after one more instruction of a hart, and the rows, with this instruction if its count is in the window.
fn trace_retired(
    alloc: Global,
    start: &Start,
    geometry: &Geometry,
    window: Window,
    tracer: Tracer,
    cycle: u64,
    hart: u32,
) -> Result<Tracer, ReplayError>
    ensures { IfOk result (λ next. (t : Trace) → IsTrace geometry.now start.now t tracer
        → IsTrace geometry.now start.now (trace_by geometry.now start.now window t (dated cycle (Change.Retired hart))) next) }
{
    let Tracer { replay, mut rows } = tracer;
    let base = geometry.numbers().base;
    let count = next_count(start, &replay)?;
    let fetched = fetch(base, hart, &replay.plain);
    let replay = follow(alloc, start, geometry, replay, Change::Retired(hart))?;
    if is_within(window, count) {
        let row = row_of(base, cycle, hart, fetched, &replay.plain);
        if rows.push(row).is_err() {
            return Err(ReplayError::Memory);
        }
    }
    Ok(Tracer { replay, rows })
}

/// The replay after one more change of a list, and the rows, with the instruction that the change retires, if its count is in
/// the window.
fn trace_one(
    alloc: Global,
    start: &Start,
    geometry: &Geometry,
    window: Window,
    tracer: Tracer,
    dated: Dated,
) -> Result<Tracer, ReplayError>
    ensures { IfOk result (λ next. (t : Trace) → IsTrace geometry.now start.now t tracer
        → IsTrace geometry.now start.now (trace_by geometry.now start.now window t dated) next) }
{
    if let Change::Retired(hart) = dated.change {
        return trace_retired(alloc, start, geometry, window, tracer, dated.cycle, hart);
    }
    let Tracer { replay, rows } = tracer;
    let replay = follow(alloc, start, geometry, replay, dated.change)?;
    Ok(Tracer { replay, rows })
}

/// The instructions with counts in a window that retired in a run of this start whose cycles made these changes, in order: an
/// instruction that was lost at a cut of power, and executed again, is listed again.
///
/// # Errors
/// Memory ran out, or there are more instructions than can be counted.
pub fn trace(
    alloc: Global,
    start: &Start,
    geometry: &Geometry,
    window: Window,
    listed: &[Dated],
) -> Result<Vec<Traced>, ReplayError>
    ensures { IfOk result (λ rows. (seen : List Taken) → listed.now ≡ dated_of seen
        → rows.items ≡ trace_of (setting_for geometry.now (bytes_of start.now.input)) (state_of start.now.state) window seen) }
{
    let mut tracer = Tracer {
        replay: begin(alloc, start, geometry)?,
        rows: Vec::new(alloc),
    };
    for dated in listed {
        tracer = trace_one(alloc, start, geometry, window, tracer, *dated)?;
    }
    Ok(tracer.rows)
}

/// A trace without bounds lists all instructions that retired: its program counters are those that `count_pcs` counts, in order.
pub fn a_trace_without_bounds_lists_all()
    ensures { ListsAll }
{}
