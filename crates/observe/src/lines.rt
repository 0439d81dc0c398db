//! The lines of a run's events, each with its cycle and how many instructions were retired then.
ghost use Rattle.std.specs.Prelude.{◌≡◌, ◌++◌, ◌+◌, ◌-◌, ◌≤◌, List, min, length, take, drop, map, IfOk, OnOk, string_bytes};
ghost use Rattle.thy_run.specs.Watching.{Taken};
ghost use Rattle.thy_observe.specs.Tallied.{IsTally};
ghost use Rattle.thy_text.specs.Lines.{line_of};
ghost use Rattle.thy_text.specs.Seen.{event_of};
ghost use Rattle.observe.specs.EventText.{HasAdded, back_to, broken_after, count_at, count_in, cut_at, event_line, lines_of, losses_of, lost_by, lost_in, made_in, no_losses, stamp_cells, stamp_of, stamped};

use std::alloc::{AllocError, Global};
use thy_observe::{EventCycle, RetiredCount, Tally};
use thy_out::MemSink;
use thy_text::{Event, Events, Reporting, write_event};

/// Room for a line of the report without digests, in bytes. None is as long.
const LINE: u64 = 256;

/// How many instructions were lost at power cuts so far.
#[derive(Clone, Copy, Drop)]
pub struct Losses {
    /// The count when power went last outside a boot, until a checkpoint is restored or the file is loaded again.
    pub at: Option<u64>,
    pub lost: u64,
}

/// A cycle in which events were made, and the count after the cycle's step, or, if the cycle was broken off, before it.
#[derive(Clone, Copy, Drop)]
pub struct Stamp {
    pub cycle: u64,
    pub retired: Option<RetiredCount>,
}

/// What was lost before the first event.
fn no_losses() -> Losses
    ensures { result ≡ no_losses }
{
    Losses { at: None, lost: 0 }
}

impl Losses {
    /// The losses after a cut at this count; none in a boot.
    fn cut_at(self, count: Option<u64>) -> Losses
        ensures { result ≡ cut_at self count }
    {
        match count {
            None => self,
            Some(count) => Losses {
                at: Some(count),
                lost: self.lost,
            },
        }
    }

    /// The losses after a run goes on from this count.
    fn back_to(self, count: Option<u64>) -> Losses
        ensures { result ≡ back_to self.at self count }
    {
        match (self.at, count) {
            (Some(at), Some(count)) => Losses {
                at: None,
                lost: self.lost.saturating_add(at.saturating_sub(count)),
            },
            _ => self,
        }
    }

    /// The losses after an event of this count.
    fn after(self, event: &Event, count: Option<u64>) -> Losses
        ensures { result ≡ lost_by self (event_of event.now) count }
    {
        match event {
            Event::Cut { .. } => self.cut_at(count),
            Event::Restart { .. } | Event::Reload => self.back_to(count),
            Event::Scheme { .. }
            | Event::EpochEnd { .. }
            | Event::Commit { .. }
            | Event::Ended { .. } => self,
        }
    }
}

/// How many instructions a count has; none in a boot.
fn count_at(retired: Option<RetiredCount>) -> Option<u64>
    ensures { result ≡ count_at retired }
{
    match retired {
        Some(retired) => Some(retired.from.saturating_add(retired.since)),
        None => None,
    }
}

/// How many instructions are retired at an event of a cycle, with the count after the cycle's step, or, if the cycle was
/// broken off, before it. A restart has its own count, and what is loaded, also again, has none yet.
fn count_in(event: &Event, retired: Option<RetiredCount>) -> Option<u64>
    ensures { result ≡ count_in (event_of event.now) retired }
{
    match event {
        Event::Restart { count, .. } => Some(*count),
        Event::Scheme { .. } | Event::Reload => Some(0),
        Event::Cut { .. } => count_at(retired),
        Event::EpochEnd { .. } | Event::Commit { .. } | Event::Ended { .. } => {
            Some(count_at(retired).unwrap_or(0))
        }
    }
}

/// The cycle that was broken off, after all that a tally has, with the count before its step.
pub fn broken_after(tally: &Tally) -> Stamp
    ensures { (seen : List Taken) → IsTally tally.now seen → result ≡ broken_after seen }
{
    let done = tally.cycles();
    let cycle = done.saturating_add(1);
    let retired = tally.retired();
    Stamp { cycle, retired }
}

/// Adds a cycle and a count.
fn add_stamp(
    alloc: Global,
    text: &mut String,
    cycle: u64,
    count: Option<u64>,
) -> Result<(), AllocError>
    ensures { OnOk result (string_bytes text.new ≡ string_bytes text.old ++ stamp_cells cycle count) }
{
    match count {
        Some(count) => {
            let cells = format!(in alloc; "{cycle} {count} ")?;
            text.push_str(cells.as_str())
        }
        None => {
            let cells = format!(in alloc; "{cycle} - ")?;
            text.push_str(cells.as_str())
        }
    }
}

/// Adds the line of an event in the report. One that has no room counts as memory that ran out.
fn add_report(
    alloc: Global,
    text: &mut String,
    reporting: Reporting,
    event: &Event,
) -> Result<(), AllocError>
    ensures { OnOk result (string_bytes text.new ≡ string_bytes text.old ++ line_of reporting (event_of event.now)) }
{
    let mut sink = MemSink::new(alloc, LINE, Vec::new(alloc))?;
    let Ok(()) = write_event(event, reporting, &mut sink) else {
        return Err(AllocError);
    };
    let Ok(line) = std::str::from_utf8(sink.taken()) else {
        return Err(AllocError);
    };
    text.push_str(line)
}

/// Adds the line of an event, and what is lost by it.
fn add_event(
    alloc: Global,
    text: &mut String,
    losses: &mut Losses,
    stamp: Stamp,
    reporting: Reporting,
    event: &Event,
) -> Result<(), AllocError>
    ensures text { let made = made_in stamp (event_of event.now) in
        OnOk result (string_bytes text.new ≡ string_bytes text.old ++ event_line reporting made) }
    ensures losses { let made = made_in stamp (event_of event.now) in
        OnOk result (losses.new ≡ lost_in losses.old made) }
{
    let count = count_in(event, stamp.retired);
    add_stamp(alloc, text, stamp.cycle, count)?;
    add_report(alloc, text, reporting, event)?;
    let left = losses.after(event, count);
    *losses = left;
    Ok(())
}

/// Adds the lines of events of one cycle, from one to before another, and what is lost by them.
fn add_events(
    alloc: Global,
    text: &mut String,
    losses: &mut Losses,
    stamp: Stamp,
    reporting: Reporting,
    events: &Events,
    first: usize,
    end: usize,
) -> Result<(), AllocError>
    requires order { first ≤ end }
    requires inside { end ≤ length events.now }
    ensures { let made = map (made_in stamp) (take (end - first) (drop first events.now)) in
        OnOk result (HasAdded reporting made (string_bytes text.old) losses.old (string_bytes text.new) losses.new) }
{
    for i in first..end {
        add_event(alloc, text, losses, stamp, reporting, events.get(i))?;
    }
    Ok(())
}

/// Where the events of a cycle end, if it made this number of them, or those that there are.
fn end_of(first: usize, reported: usize, count: usize) -> usize
    requires { first ≤ count }
    ensures { result ≡ min (first + reported) count }
{
    if reported < count - first {
        first + reported
    } else {
        count
    }
}

/// The cycle of events.
fn stamp_of(cycle: &EventCycle) -> Stamp
    ensures { result ≡ stamp_of cycle.now }
{
    Stamp {
        cycle: cycle.cycle,
        retired: cycle.retired,
    }
}

/// Adds the lines of all events, by the cycles in which they were made, and what is lost by them. Those that are left were made
/// in the cycle that was broken off.
fn add_cycles(
    alloc: Global,
    text: &mut String,
    losses: &mut Losses,
    broken: Stamp,
    cycles: &[EventCycle],
    reporting: Reporting,
    events: &Events,
) -> Result<(), AllocError>
    ensures { let made = stamped broken cycles.now events.now in
        OnOk result (HasAdded reporting made (string_bytes text.old) losses.old (string_bytes text.new) losses.new) }
{
    let count = events.len();
    let mut next = 0;
    for cycle in cycles {
        let end = end_of(next, cycle.reported, count);
        add_events(
            alloc,
            text,
            losses,
            stamp_of(cycle),
            reporting,
            events,
            next,
            end,
        )?;
        next = end;
    }
    add_events(alloc, text, losses, broken, reporting, events, next, count)
}

/// Adds the lines of all events, by the cycles in which they were made, or by the one that was broken off. Returns how many
/// instructions were lost at power cuts.
///
/// # Errors
/// Memory ran out.
pub fn add_lines(
    alloc: Global,
    text: &mut String,
    broken: Stamp,
    cycles: &[EventCycle],
    reporting: Reporting,
    events: &Events,
) -> Result<u64, AllocError>
    ensures lines { let made = stamped broken cycles.now events.now in
        OnOk result (string_bytes text.new ≡ string_bytes text.old ++ lines_of reporting made) }
    ensures lost { let made = stamped broken cycles.now events.now in
        IfOk result (λ lost. lost ≡ (losses_of no_losses made).lost) }
{
    let mut losses = no_losses();
    add_cycles(alloc, text, &mut losses, broken, cycles, reporting, events)?;
    Ok(losses.lost)
}
