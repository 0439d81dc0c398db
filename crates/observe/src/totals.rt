//! The totals of a run, and their lines.
ghost use Rattle.std.specs.Prelude.{◌≡◌, ◌++◌, List, OnOk, string_bytes};
ghost use Rattle.thy_run.specs.Watching.{Taken};
ghost use Rattle.thy_observe.specs.Tallied.{IsTally};
ghost use Rattle.observe.specs.TotalsText.{all_of_engine, all_of_hart, calls_lines, cycles_line, engine_cycles, engine_line, hart_cycles, hart_line, shares_part, sums_line, totals_of, totals_text};

use std::alloc::{AllocError, Global};
use thy_observe::{Calls, Kind, Shares, Tally};
use thy_out::MemSink;
use thy_text::{Events, write_summary};

/// Room for the line that sums a run up, in bytes. It is not as long.
const LINE: u64 = 256;

/// How many cycles the hart took, by what it did.
#[derive(Clone, Copy, Drop)]
pub struct HartCycles {
    pub moved: u64,
    pub retired: u64,
    pub flushed: u64,
    pub merged: u64,
    pub promoted: u64,
    pub sealed: u64,
}

/// How many cycles the checkpoint engine took, by what it did.
#[derive(Clone, Copy, Drop)]
pub struct EngineCycles {
    pub copied: u64,
    pub page: u64,
    pub state: u64,
    pub table: u64,
    pub barrier: u64,
    pub commit: u64,
    pub committed: u64,
}

/// The totals of a run's cycles.
#[derive(Clone, Copy, Drop)]
pub struct Totals {
    pub cycles: u64,
    pub boot: u64,
    pub nvm_drains: u64,
    pub dram_drains: u64,
    pub hart: HartCycles,
    pub engine: EngineCycles,
    /// How many cycles the engine took at the turn of the hart, which waited for it.
    pub waiting: u64,
    pub shares: Shares,
}

/// The hart's cycles.
fn hart_cycles(tally: &Tally) -> HartCycles
    ensures { (seen : List Taken) → IsTally tally.now seen → result ≡ hart_cycles seen }
{
    let moved = tally.of(Kind::Moved);
    let retired = tally.of(Kind::Retired);
    let flushed = tally.of(Kind::Flushed);
    let merged = tally.of(Kind::Merged);
    let promoted = tally.of(Kind::Promoted);
    let sealed = tally.of(Kind::Sealed);
    HartCycles {
        moved,
        retired,
        flushed,
        merged,
        promoted,
        sealed,
    }
}

/// The engine's cycles.
fn engine_cycles(tally: &Tally) -> EngineCycles
    ensures { (seen : List Taken) → IsTally tally.now seen → result ≡ engine_cycles seen }
{
    let copied = tally.of(Kind::Copied);
    let page = tally.of(Kind::Page);
    let state = tally.of(Kind::State);
    let table = tally.of(Kind::Table);
    let barrier = tally.of(Kind::Barrier);
    let commit = tally.of(Kind::Commit);
    let committed = tally.of(Kind::Committed);
    EngineCycles {
        copied,
        page,
        state,
        table,
        barrier,
        commit,
        committed,
    }
}

/// The totals of the cycles that a tally has.
pub fn totals_of(tally: &Tally) -> Totals
    ensures { (seen : List Taken) → IsTally tally.now seen → result ≡ totals_of seen }
{
    let cycles = tally.cycles();
    let boot = tally.of(Kind::Boot);
    let nvm_drains = tally.of(Kind::NvmDrain);
    let dram_drains = tally.of(Kind::DramDrain);
    let hart = hart_cycles(tally);
    let engine = engine_cycles(tally);
    let waiting = tally.waiting();
    let shares = tally.shares();
    Totals {
        cycles,
        boot,
        nvm_drains,
        dram_drains,
        hart,
        engine,
        waiting,
        shares,
    }
}

/// How many cycles the hart took.
fn all_of_hart(hart: &HartCycles) -> u64
    ensures { result ≡ all_of_hart hart.now }
{
    hart.moved
        .saturating_add(hart.retired)
        .saturating_add(hart.flushed)
        .saturating_add(hart.merged)
        .saturating_add(hart.promoted)
        .saturating_add(hart.sealed)
}

/// How many cycles the checkpoint engine took.
fn all_of_engine(engine: &EngineCycles) -> u64
    ensures { result ≡ all_of_engine engine.now }
{
    engine
        .copied
        .saturating_add(engine.page)
        .saturating_add(engine.state)
        .saturating_add(engine.table)
        .saturating_add(engine.barrier)
        .saturating_add(engine.commit)
        .saturating_add(engine.committed)
}

/// Adds the line of all cycles.
fn add_cycles(alloc: Global, text: &mut String, totals: &Totals) -> Result<(), AllocError>
    ensures { OnOk result (string_bytes text.new ≡ string_bytes text.old ++ cycles_line totals.now) }
{
    let line = format!(in alloc;
        "cycles {} boot {} hart {} engine {} nvmdrain {} dramdrain {}\n",
        totals.cycles,
        totals.boot,
        all_of_hart(&totals.hart),
        all_of_engine(&totals.engine),
        totals.nvm_drains,
        totals.dram_drains
    )?;
    text.push_str(line.as_str())
}

/// Adds the line of the hart's cycles.
fn add_hart(alloc: Global, text: &mut String, hart: &HartCycles) -> Result<(), AllocError>
    ensures { OnOk result (string_bytes text.new ≡ string_bytes text.old ++ hart_line hart.now) }
{
    let line = format!(in alloc;
        "hart moved {} retired {} flushed {} merged {} promoted {} sealed {}\n",
        hart.moved, hart.retired, hart.flushed, hart.merged, hart.promoted, hart.sealed
    )?;
    text.push_str(line.as_str())
}

/// Adds the lines of what each hart did, if there are two.
fn add_shares(
    alloc: Global,
    text: &mut String,
    harts: u64,
    shares: Shares,
) -> Result<(), AllocError>
    ensures { OnOk result (string_bytes text.new ≡ string_bytes text.old ++ shares_part harts shares) }
{
    if harts != 2 {
        return Ok(());
    }
    let line = format!(in alloc;
        "hart0 moved {} retired {}\nhart1 moved {} retired {}\n",
        shares.first.moved, shares.first.retired, shares.second.moved, shares.second.retired
    )?;
    text.push_str(line.as_str())
}

/// Adds the line of the checkpoint engine's cycles.
fn add_engine(alloc: Global, text: &mut String, engine: &EngineCycles) -> Result<(), AllocError>
    ensures { OnOk result (string_bytes text.new ≡ string_bytes text.old ++ engine_line engine.now) }
{
    let line = format!(in alloc;
        "engine copied {} page {} state {} table {} barrier {} commit {} committed {}\n",
        engine.copied,
        engine.page,
        engine.state,
        engine.table,
        engine.barrier,
        engine.commit,
        engine.committed
    )?;
    text.push_str(line.as_str())
}

/// Adds the lines of what the engine took while the hart waited, of the device's calls, and of what was lost.
fn add_calls(
    alloc: Global,
    text: &mut String,
    waiting: u64,
    calls: &Calls,
    lost: u64,
) -> Result<(), AllocError>
    ensures { OnOk result (string_bytes text.new ≡ string_bytes text.old ++ calls_lines waiting calls.now lost) }
{
    let line = format!(in alloc;
        "waiting {}\nnvm reads {} writes {} barriers {}\nlost {}\n",
        waiting, calls.reads, calls.writes, calls.barriers, lost
    )?;
    text.push_str(line.as_str())
}

/// Adds the sums of a run's events, as `bench` reports them. A line that has no room counts as memory that ran out.
fn add_sums(alloc: Global, text: &mut String, events: &Events) -> Result<(), AllocError>
    ensures { OnOk result (string_bytes text.new ≡ string_bytes text.old ++ sums_line events.now) }
{
    let mut sink = MemSink::new(alloc, LINE, Vec::new(alloc))?;
    let Ok(()) = write_summary(events, &mut sink) else {
        return Err(AllocError);
    };
    let Some(sums) = sink.taken().strip_prefix(b"summary ") else {
        return Err(AllocError);
    };
    let Ok(line) = std::str::from_utf8(sums) else {
        return Err(AllocError);
    };
    text.push_str(line)
}

/// Adds the lines of the totals: with two harts, also the totals of each.
///
/// # Errors
/// Memory ran out.
pub fn add_totals(
    alloc: Global,
    text: &mut String,
    harts: u64,
    totals: &Totals,
    calls: &Calls,
    lost: u64,
    events: &Events,
) -> Result<(), AllocError>
    ensures { OnOk result (string_bytes text.new
        ≡ string_bytes text.old ++ totals_text harts totals.now calls.now lost events.now) }
{
    add_cycles(alloc, text, totals)?;
    add_hart(alloc, text, &totals.hart)?;
    add_shares(alloc, text, harts, totals.shares)?;
    add_engine(alloc, text, &totals.engine)?;
    add_calls(alloc, text, totals.waiting, calls, lost)?;
    add_sums(alloc, text, events)
}
