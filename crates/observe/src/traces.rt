//! The instructions of a run as text.
ghost use Rattle.std.specs.Prelude.{◌≡◌, ◌++◌, OnOk, string_bytes};
ghost use Rattle.std.specs.List.{flat_map};
ghost use Rattle.observe.specs.TraceText.{access_text, head_text, trace_row, trace_text, word_text};

use std::alloc::{AllocError, Global};
use thy_observe::{Access, Traced};

/// Adds the cycle in which an instruction retired, its hart, and its address.
fn add_head(alloc: Global, text: &mut String, row: &Traced) -> Result<(), AllocError>
    ensures { OnOk result (string_bytes text.new ≡ string_bytes text.old ++ head_text row.now) }
{
    let head = format!(in alloc; "{} {} {:x}", row.cycle, row.hart, row.pc)?;
    text.push_str(head.as_str())
}

/// Adds the word of an instruction, or that there is none.
fn add_word(alloc: Global, text: &mut String, word: Option<u32>) -> Result<(), AllocError>
    ensures { OnOk result (string_bytes text.new ≡ string_bytes text.old ++ word_text word) }
{
    let Some(word) = word else {
        return text.push_str(" -");
    };
    let piece = format!(in alloc; " {word:x}")?;
    text.push_str(piece.as_str())
}

/// Adds what an instruction loaded or stored, if it did.
fn add_access(alloc: Global, text: &mut String, access: Option<Access>) -> Result<(), AllocError>
    ensures { OnOk result (string_bytes text.new ≡ string_bytes text.old ++ access_text access) }
{
    let Some(Access { at, width, value }) = access else {
        return Ok(());
    };
    let piece = format!(in alloc; " {at:x} {width} {value:x}")?;
    text.push_str(piece.as_str())
}

/// Adds the line of an instruction.
fn add_row(alloc: Global, text: &mut String, row: &Traced) -> Result<(), AllocError>
    ensures { OnOk result (string_bytes text.new ≡ string_bytes text.old ++ trace_row row.now) }
{
    add_head(alloc, text, row)?;
    add_word(alloc, text, row.word)?;
    add_access(alloc, text, row.access)?;
    text.push_str("\n")
}

/// Adds a line for each instruction.
fn add_rows(alloc: Global, text: &mut String, rows: &[Traced]) -> Result<(), AllocError>
    ensures { OnOk result (string_bytes text.new ≡ string_bytes text.old ++ flat_map trace_row rows.now) }
{
    for row in rows {
        add_row(alloc, text, row)?;
    }
    Ok(())
}

/// Adds the instructions of a run: a head line, and a line for each, or for none.
///
/// # Errors
/// Memory ran out.
pub fn add_trace(alloc: Global, text: &mut String, rows: &[Traced]) -> Result<(), AllocError>
    ensures { OnOk result (string_bytes text.new ≡ string_bytes text.old ++ trace_text rows.now) }
{
    text.push_str("trace\n")?;
    if rows.is_empty() {
        text.push_str("none\n")
    } else {
        add_rows(alloc, text, rows)
    }
}
