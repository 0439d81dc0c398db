//! The call with a table of accesses: the table is made and put, and then the run is observed.
ghost use Rattle.std.specs.Prelude.{◌≡◌, map, option_map};
ghost use Rattle.std.specs.String.{string_bytes};
ghost use Rattle.thy_outcome.specs.Answering.{around, nvm_of};
ghost use Rattle.thy_outcome.specs.Machines.{by_scheme};
ghost use Rattle.thy_base.specs.Settings.{job_of, order_of};
ghost use Rattle.observe.specs.CountText.{counts_of};
ghost use Rattle.observe.specs.Tabled.{ObservedBeside, Tabled, Unnamed, is_turned, is_uneven, is_unlisted, is_untabled};

use crate::accesses::{cycles_of, has_cycle, table_of};
use crate::again::rows_for;
use crate::naming::{is_refused, is_taken};
use crate::options::Options;
use crate::top::{NO_MEMORY, close, observe, put_text, write_report};
use std::alloc::Global;
use thy_base::{Command, Job, Nvm, Shelf, Sink, WordsError, settings};
use thy_cli::{Refusal, refuse};
use thy_computer::Computer;
use thy_core::Machine;
use thy_observe::{Counts, Listing};
use thy_schemes::{Journal, Shadow, Thynvm};
use thy_text::Closing;

/// Whether a job's run has cuts of power, or goes over a device that levels wear.
fn is_uneven(job: &Job) -> bool
    ensures { result ≡ is_uneven (job_of job.now) }
{
    job.config.cuts.len() > 0 || job.config.gap > 0
}

/// Whether no accesses are listed of a command: of such a run, or because it does not run the machine once.
fn is_unlisted(command: &Command) -> bool
    ensures { result ≡ is_unlisted (order_of command.now) }
{
    match command {
        Command::Run { job, .. } | Command::Resume { job, .. } | Command::Bench { job, .. } => {
            is_uneven(job)
        }
        Command::Plain { .. } | Command::Compare { .. } | Command::Make { .. } => true,
    }
}

/// Whether a command is refused because of the table: its name is OUT or one that the command has, or there are no accesses.
fn is_untabled(out: &str, name: &str, command: &Command) -> bool
    ensures { result ≡ is_untabled out.now name.now (order_of command.now) }
{
    name == out || is_taken(name, command) || is_unlisted(command)
}

/// Whether a command is refused, because of OUT, of an option or of the table.
fn is_turned(options: Options, out: &str, name: &str, command: &Command) -> bool
    ensures { result ≡ is_turned options out.now name.now (order_of command.now) }
{
    is_refused(options, out, command) || is_untabled(out, name, command)
}

/// Writes the table of the accesses in the window of the options under a name, and then does what `observe` does. The
/// table's run is made before over a device of its own, and nobody reads what it writes.
fn observe_named<H: Shelf, T: Sink, R: Sink, N: Nvm + Counts, A: Nvm>(
    alloc: Global,
    out: &str,
    name: &str,
    options: Options,
    words: &[String],
    shelf: &mut H,
    terminal: &mut T,
    report: &mut R,
    nvm: &mut N,
    again: &mut Listing<A>,
) -> u8
    ensures { let before = around (H.stock shelf.old) nvm.old
        (T.stream terminal.old) (R.stream report.old) in
        let after = around (H.stock shelf.new) nvm.new
        (T.stream terminal.new) (R.stream report.new) in
        let nvms = nvm_of N.device in
        let machines = by_scheme ⟦<Machine<Thynvm> as Computer>⟧.kind
        ⟦<Machine<Journal> as Computer>⟧.kind
        ⟦<Machine<Shadow> as Computer>⟧.kind in
        let counted = counts_of N.calls N.wear in
        Tabled machines nvms counted options out.now name.now (map string_bytes words.now) before after result }
{
    let command = match settings(alloc, words) {
        Ok(command) => command,
        Err(_) => return observe(alloc, out, options, words, shelf, terminal, report, nvm),
    };
    let turned = is_turned(options, out, name, &command);
    if turned {
        return refuse(alloc, Refusal::Words(WordsError::Usage), report).status;
    }
    let window = cycles_of(options);
    let rows = match rows_for::<Machine<Thynvm>, Machine<Journal>, Machine<Shadow>, H, R, A>(
        alloc, command, window, shelf, report, again,
    ) {
        Ok(rows) => rows,
        Err(status) => return status,
    };
    let Some(table) = table_of(alloc, rows.as_slice()) else {
        close(Closing::Memory, report);
        return NO_MEMORY;
    };
    let why = put_text(alloc, name, table.as_str(), shelf);
    let status = observe(alloc, out, options, words, shelf, terminal, report, nvm);
    write_report(name, why, status, report)
}

/// Observes a run as `observe` does. A bound of the cycles whose accesses are listed is refused.
fn observe_unnamed<H: Shelf, T: Sink, R: Sink, N: Nvm + Counts>(
    alloc: Global,
    out: &str,
    options: Options,
    words: &[String],
    shelf: &mut H,
    terminal: &mut T,
    report: &mut R,
    nvm: &mut N,
) -> u8
    ensures { let before = around (H.stock shelf.old) nvm.old
        (T.stream terminal.old) (R.stream report.old) in
        let after = around (H.stock shelf.new) nvm.new
        (T.stream terminal.new) (R.stream report.new) in
        let nvms = nvm_of N.device in
        let machines = by_scheme ⟦<Machine<Thynvm> as Computer>⟧.kind
        ⟦<Machine<Journal> as Computer>⟧.kind
        ⟦<Machine<Shadow> as Computer>⟧.kind in
        let counted = counts_of N.calls N.wear in
        Unnamed machines nvms counted options out.now (map string_bytes words.now) before after result }
{
    if has_cycle(options) {
        return refuse(alloc, Refusal::Words(WordsError::Usage), report).status;
    }
    observe(alloc, out, options, words, shelf, terminal, report, nvm)
}

/// Observes a run as `observe` does, and before that writes the table of the accesses in the window of the options, if there
/// is a name for it.
///
/// Returns the exit status. It is 2 if the name of the table is OUT or one that the arguments have, if the run has cuts of
/// power or levels wear, or if there is a window without a name. It is 9 if memory ran out for the table, and 3 if it could
/// not be written. Else `observe` returns it. If there is no table, nothing is written and no run is begun.
pub fn observe_beside<H: Shelf, T: Sink, R: Sink, N: Nvm + Counts, A: Nvm>(
    alloc: Global,
    out: &str,
    name: &Option<String>,
    options: Options,
    words: &[String],
    shelf: &mut H,
    terminal: &mut T,
    report: &mut R,
    nvm: &mut N,
    again: &mut Listing<A>,
) -> u8
    ensures { let before = around (H.stock shelf.old) nvm.old
        (T.stream terminal.old) (R.stream report.old) in
        let after = around (H.stock shelf.new) nvm.new
        (T.stream terminal.new) (R.stream report.new) in
        let nvms = nvm_of N.device in
        let machines = by_scheme ⟦<Machine<Thynvm> as Computer>⟧.kind
        ⟦<Machine<Journal> as Computer>⟧.kind
        ⟦<Machine<Shadow> as Computer>⟧.kind in
        let counted = counts_of N.calls N.wear in
        ObservedBeside machines nvms counted options out.now (option_map string_bytes name.now) (map string_bytes words.now) before after result }
{
    match name {
        Some(name) => observe_named(
            alloc,
            out,
            name.as_str(),
            options,
            words,
            shelf,
            terminal,
            report,
            nvm,
            again,
        ),
        None => observe_unnamed(alloc, out, options, words, shelf, terminal, report, nvm),
    }
}
