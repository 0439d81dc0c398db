//! What is added to the text that is put under OUT, if it is asked for.
ghost use Rattle.std.specs.Prelude.{◌≡◌, ◌++◌, IfSome, OnOk, option_map, string_bytes};
ghost use Rattle.std.specs.BTreeMap.{IsOrdered};
ghost use Rattle.std.specs.Ordering.{nat_cmp};
ghost use Rattle.std.specs.List.{flat_map};
ghost use Rattle.observe.specs.Sections.{GoesOn, HasSections, IsPcsPart, IsStateAtPart, IsStatePart, IsTextOf, IsTracePart, pcs_row, pcs_text};
ghost use Rattle.observe.specs.StateText.{state_section};

use crate::beginning::Begun;
use crate::options::Options;
use crate::states::add_section;
use crate::traces::add_trace;
use std::alloc::{AllocError, Global};
use std::collections::BTreeMap;
use thy_observe::{Changes, Window, count_pcs, state_at, state_by, trace};
use thy_plain::Plain;

/// Adds the line of a program counter.
fn add_row(alloc: Global, text: &mut String, pc: u64, count: u64) -> Result<(), AllocError>
    ensures { OnOk result (string_bytes text.new ≡ string_bytes text.old ++ pcs_row (pc, count)) }
{
    let line = format!(in alloc; "{pc:x} {count}\n")?;
    text.push_str(line.as_str())
}

/// Adds a line for each program counter.
fn add_rows(alloc: Global, text: &mut String, counts: &BTreeMap<u64, u64>) -> Result<(), AllocError>
    ensures { OnOk result (string_bytes text.new ≡ string_bytes text.old ++ flat_map pcs_row counts.now.entries) }
{
    for (pc, count) in counts.iter() {
        add_row(alloc, text, *pc, *count)?;
    }
    Ok(())
}

/// Adds how often each program counter retired.
fn add_pcs(alloc: Global, text: &mut String, counts: &BTreeMap<u64, u64>) -> Result<(), AllocError>
    ensures text { OnOk result (string_bytes text.new ≡ string_bytes text.old ++ pcs_text counts.now.entries) }
    ensures rising { OnOk result (IsOrdered nat_cmp counts.now) }
{
    text.push_str("pcs\n")?;
    if counts.len() == 0 {
        text.push_str("none\n")
    } else {
        add_rows(alloc, text, counts)
    }
}

/// A text with how often each program counter retired, if that is asked for; none if it was not seen, or if memory ran out.
fn with_pcs(
    alloc: Global,
    text: String,
    asked: bool,
    begun: &Begun,
    changes: &Changes,
) -> Option<String>
    ensures { let head = string_bytes text in
        IfSome result (λ whole. GoesOn (IsPcsPart asked begun.now changes.now) head (string_bytes whole)) }
{
    if !asked {
        return Some(text);
    }
    let listed = changes.listed()?;
    let Ok(counts) = count_pcs(alloc, &begun.start, &begun.geometry, listed) else {
        return None;
    };
    let mut whole = text;
    match add_pcs(alloc, &mut whole, &counts) {
        Ok(()) => Some(whole),
        Err(_) => None,
    }
}

/// A text with a state; none if memory ran out.
fn with_section(
    alloc: Global,
    text: String,
    head: &str,
    number: u64,
    base: u64,
    plain: Option<Plain>,
) -> Option<String>
    ensures { let before = string_bytes text in
        let state = option_map (λ m. m.state) plain in
        IfSome result (λ whole. string_bytes whole ≡ before ++ state_section head.now number base state) }
{
    let mut whole = text;
    match add_section(alloc, &mut whole, head, number, base, &plain) {
        Ok(()) => Some(whole),
        Err(_) => None,
    }
}

/// A text with the state after a cycle, if one is asked for; none if it was not seen, or if memory ran out.
fn with_state(
    alloc: Global,
    text: String,
    asked: Option<u64>,
    begun: &Begun,
    changes: &Changes,
) -> Option<String>
    ensures { let head = string_bytes text in
        IfSome result (λ whole. GoesOn (IsStatePart asked begun.now changes.now) head (string_bytes whole)) }
{
    let Some(cycle) = asked else {
        return Some(text);
    };
    let listed = changes.listed()?;
    let cycles = changes.cycles();
    let Begun { start, geometry } = begun;
    let Ok(plain) = state_by(alloc, start, geometry, listed, cycles, cycle) else {
        return None;
    };
    let base = geometry.numbers().base;
    with_section(alloc, text, "state", cycle, base, plain)
}

/// A text with the state at a count, if one is asked for; none if it was not seen, or if memory ran out.
fn with_state_at(
    alloc: Global,
    text: String,
    asked: Option<u64>,
    begun: &Begun,
    changes: &Changes,
) -> Option<String>
    ensures { let head = string_bytes text in
        IfSome result (λ whole. GoesOn (IsStateAtPart asked begun.now changes.now) head (string_bytes whole)) }
{
    let Some(count) = asked else {
        return Some(text);
    };
    let listed = changes.listed()?;
    let Begun { start, geometry } = begun;
    let Ok(plain) = state_at(alloc, start, geometry, listed, count) else {
        return None;
    };
    let base = geometry.numbers().base;
    with_section(alloc, text, "state-at", count, base, plain)
}

/// A text with the instructions in a window, if they are asked for; none if they were not seen, or if memory ran out.
fn with_trace(
    alloc: Global,
    text: String,
    asked: bool,
    window: Window,
    begun: &Begun,
    changes: &Changes,
) -> Option<String>
    ensures { let head = string_bytes text in
        IfSome result (λ whole. GoesOn (IsTracePart asked window begun.now changes.now) head (string_bytes whole)) }
{
    if !asked {
        return Some(text);
    }
    let listed = changes.listed()?;
    let Ok(rows) = trace(alloc, &begun.start, &begun.geometry, window, listed) else {
        return None;
    };
    let mut whole = text;
    match add_trace(alloc, &mut whole, rows.as_slice()) {
        Ok(()) => Some(whole),
        Err(_) => None,
    }
}

/// A text with all that is asked for, one after the other; none if something was not seen, or if memory ran out.
fn with_all(
    alloc: Global,
    text: String,
    options: Options,
    begun: &Begun,
    changes: &Changes,
) -> Option<String>
    ensures { let head = string_bytes text in
        IfSome result (λ whole. GoesOn (IsTextOf options begun.now changes.now) head (string_bytes whole)) }
{
    let text = with_pcs(alloc, text, options.pcs, begun, changes)?;
    let text = with_state(alloc, text, options.state, begun, changes)?;
    let text = with_state_at(alloc, text, options.state_at, begun, changes)?;
    with_trace(alloc, text, options.trace, options.window(), begun, changes)
}

/// A text with what is asked for in addition; none if that was not seen, or if memory ran out.
pub fn with_sections(
    alloc: Global,
    text: String,
    options: Options,
    begun: Option<Begun>,
    changes: &Changes,
) -> Option<String>
    ensures { let head = string_bytes text in
        IfSome result (λ whole. HasSections options begun changes.now head (string_bytes whole)) }
{
    if options.asks() {
        let begun = begun?;
        with_all(alloc, text, options, &begun, changes)
    } else {
        Some(text)
    }
}
