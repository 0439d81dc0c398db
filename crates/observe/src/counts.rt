//! What is counted in a run's cycles, as text.
ghost use Rattle.std.specs.Prelude.{◌≡◌, ◌++◌, [], IfSome, OnOk, codes, string_bytes};
ghost use Rattle.std.specs.Fmt.{decimal};
ghost use Rattle.std.specs.List.{flat_map};
ghost use Rattle.thy_observe.specs.Epochs.{with_last};
ghost use Rattle.thy_observe.specs.Ledgers.{count_in};
ghost use Rattle.observe.specs.CountText.{AreCountsOf, AreOf, cause_name, causes_by, causes_part, count_row, end_name, epoch_cell, epoch_row, epochs_by, epochs_head, epochs_part, number_cells, span_cells, tab};
ghost use Rattle.observe.specs.Sections.{GoesOn};

use crate::options::Options;
use std::alloc::{AllocError, Global};
use thy_observe::{Cause, End, Ledger, Row, Watch};

/// The name of a cause, as tables print it.
pub(crate) fn name_of(cause: Cause) -> &'static str
    ensures { result.now ≡ cause_name cause }
{
    match cause {
        Cause::Boot => "boot",
        Cause::Instruction => "instructions",
        Cause::Meanwhile => "meanwhile",
        Cause::Flush => "flushes",
        Cause::Merge => "merges",
        Cause::Seal => "seals",
        Cause::Promotion => "promotions",
        Cause::Copy => "copies",
        Cause::Home => "homes",
        Cause::Page => "pages",
        Cause::Processor => "processor",
        Cause::Table => "tables",
        Cause::Commit => "commits",
        Cause::Barrier => "barriers",
        Cause::NvmDrain => "nvmdrains",
        Cause::DramDrain => "dramdrains",
        Cause::Nothing => "nothing",
    }
}

/// Adds a number and what it counts.
fn add_count(alloc: Global, text: &mut String, name: &str, count: u64) -> Result<(), AllocError>
    ensures { OnOk result (string_bytes text.new ≡ string_bytes text.old ++ count_row name.now count) }
{
    let line = format!(in alloc; "{name} {count}\n")?;
    text.push_str(line.as_str())
}

/// Adds the lines of some causes.
fn add_lines(
    alloc: Global,
    text: &mut String,
    ledger: &Ledger,
    causes: &[Cause],
) -> Result<(), AllocError>
    ensures { OnOk result (string_bytes text.new
        ≡ string_bytes text.old ++ flat_map (λ c. count_row (cause_name c) (count_in ledger.now c)) causes.now) }
{
    for cause in causes {
        add_count(alloc, text, name_of(*cause), ledger.of(*cause))?;
    }
    Ok(())
}

/// Adds how many cycles there were of each cause, and in how many the hart has waited.
fn add_causes(
    alloc: Global,
    text: &mut String,
    ledger: &Ledger,
    waiting: u64,
) -> Result<(), AllocError>
    ensures { OnOk result (string_bytes text.new ≡ string_bytes text.old ++ causes_by (count_in ledger.now) waiting) }
{
    text.push_str("causes\n")?;
    let causes = Cause::all();
    add_lines(alloc, text, ledger, &causes)?;
    add_count(alloc, text, "waiting", waiting)
}

/// Adds a number after a tab.
fn add_number(alloc: Global, text: &mut String, number: u64) -> Result<(), AllocError>
    ensures { OnOk result (string_bytes text.new ≡ string_bytes text.old ++ (tab ++ decimal number)) }
{
    let cell = format!(in alloc; "\t{number}")?;
    text.push_str(cell.as_str())
}

/// Adds numbers, each after a tab.
fn add_numbers(alloc: Global, text: &mut String, numbers: &[u64]) -> Result<(), AllocError>
    ensures { OnOk result (string_bytes text.new ≡ string_bytes text.old ++ number_cells numbers.now) }
{
    for number in numbers {
        add_number(alloc, text, *number)?;
    }
    Ok(())
}

/// How a stretch of cycles has ended.
fn end_of(end: End) -> &'static str
    ensures { result.now ≡ end_name end }
{
    match end {
        End::Boot => "boot",
        End::Seal => "seal",
        End::Cut => "cut",
        End::Run => "run",
    }
}

/// Adds the epoch that executes in a stretch.
fn add_epoch(alloc: Global, text: &mut String, epoch: Option<u64>) -> Result<(), AllocError>
    ensures { OnOk result (string_bytes text.new ≡ string_bytes text.old ++ epoch_cell epoch) }
{
    let Some(epoch) = epoch else {
        return text.push_str("-");
    };
    let cell = format!(in alloc; "{epoch}")?;
    text.push_str(cell.as_str())
}

/// Adds the first and the last cycle of a stretch, and how it has ended.
fn add_span(alloc: Global, text: &mut String, row: &Row) -> Result<(), AllocError>
    ensures { OnOk result (string_bytes text.new ≡ string_bytes text.old ++ span_cells row.now) }
{
    let from = row.before.saturating_add(1);
    let to = row.to;
    let end = end_of(row.end);
    let cells = format!(in alloc; "\t{from}\t{to}\t{end}")?;
    text.push_str(cells.as_str())
}

/// Adds in how many cycles of a stretch the hart has waited, and ends its row.
fn add_waiting(alloc: Global, text: &mut String, waiting: u64) -> Result<(), AllocError>
    ensures { OnOk result (string_bytes text.new ≡ string_bytes text.old ++ (tab ++ (decimal waiting ++ codes "\n"))) }
{
    let cell = format!(in alloc; "\t{waiting}\n")?;
    text.push_str(cell.as_str())
}

/// Adds the row of a stretch.
fn add_row(alloc: Global, text: &mut String, row: &Row) -> Result<(), AllocError>
    ensures { OnOk result (string_bytes text.new ≡ string_bytes text.old ++ epoch_row row.now) }
{
    add_epoch(alloc, text, row.epoch)?;
    add_span(alloc, text, row)?;
    add_numbers(alloc, text, &row.causes)?;
    add_waiting(alloc, text, row.waiting)
}

/// Adds the rows of stretches.
fn add_rows(alloc: Global, text: &mut String, rows: &[Row]) -> Result<(), AllocError>
    ensures { OnOk result (string_bytes text.new ≡ string_bytes text.old ++ flat_map epoch_row rows.now) }
{
    for row in rows {
        add_row(alloc, text, row)?;
    }
    Ok(())
}

/// Adds a name after a tab.
fn add_name(alloc: Global, text: &mut String, name: &str) -> Result<(), AllocError>
    ensures { OnOk result (string_bytes text.new ≡ string_bytes text.old ++ (tab ++ name.now)) }
{
    let cell = format!(in alloc; "\t{name}")?;
    text.push_str(cell.as_str())
}

/// Adds the names of some causes, each after a tab.
fn add_names(alloc: Global, text: &mut String, causes: &[Cause]) -> Result<(), AllocError>
    ensures { OnOk result (string_bytes text.new ≡ string_bytes text.old ++ flat_map (λ c. tab ++ cause_name c) causes.now) }
{
    for cause in causes {
        add_name(alloc, text, name_of(*cause))?;
    }
    Ok(())
}

/// Adds the head line, and the names of the columns.
fn add_head(alloc: Global, text: &mut String) -> Result<(), AllocError>
    ensures { OnOk result (string_bytes text.new ≡ string_bytes text.old ++ epochs_head) }
{
    text.push_str("epochs\nepoch\tfrom\tto\tend")?;
    let causes = Cause::all();
    add_names(alloc, text, &causes)?;
    text.push_str("\twaiting\n")
}

/// Adds the row of the stretch that has not ended, if there is one.
fn add_last(alloc: Global, text: &mut String, last: Option<Row>) -> Result<(), AllocError>
    ensures { OnOk result (string_bytes text.new ≡ string_bytes text.old ++ flat_map epoch_row (with_last [] last)) }
{
    match last {
        None => Ok(()),
        Some(row) => add_row(alloc, text, &row),
    }
}

/// Adds a row for each stretch.
fn add_epochs(
    alloc: Global,
    text: &mut String,
    rows: &[Row],
    last: Option<Row>,
) -> Result<(), AllocError>
    ensures { OnOk result (string_bytes text.new ≡ string_bytes text.old ++ epochs_by rows.now last) }
{
    add_head(alloc, text)?;
    add_rows(alloc, text, rows)?;
    add_last(alloc, text, last)
}

/// A text with the causes of all cycles, if they are asked for; none if memory ran out.
fn with_causes(alloc: Global, text: String, asked: bool, watch: &Watch) -> Option<String>
    ensures { let head = string_bytes text in
        IfSome result (λ whole. GoesOn (AreOf (causes_part asked) watch.now) head (string_bytes whole)) }
{
    if !asked {
        return Some(text);
    }
    let waiting = watch.tally.waiting();
    let mut whole = text;
    match add_causes(alloc, &mut whole, &watch.ledger, waiting) {
        Ok(()) => Some(whole),
        Err(_) => None,
    }
}

/// A text with the causes of the cycles of each stretch, if they are asked for; none if memory ran out.
fn with_epochs(alloc: Global, text: String, asked: bool, watch: &Watch) -> Option<String>
    ensures { let head = string_bytes text in
        IfSome result (λ whole. GoesOn (AreOf (epochs_part asked) watch.now) head (string_bytes whole)) }
{
    if !asked {
        return Some(text);
    }
    let rows = watch.epochs.rows()?;
    let last = watch.epochs.last();
    let mut whole = text;
    match add_epochs(alloc, &mut whole, rows, last) {
        Ok(()) => Some(whole),
        Err(_) => None,
    }
}

/// A text with what is counted and asked for; none if memory ran out.
pub fn with_counts(alloc: Global, text: String, options: Options, watch: &Watch) -> Option<String>
    ensures { let head = string_bytes text in
        IfSome result (λ whole. GoesOn (AreCountsOf options watch.now) head (string_bytes whole)) }
{
    let text = with_causes(alloc, text, options.causes, watch)?;
    with_epochs(alloc, text, options.epochs, watch)
}
