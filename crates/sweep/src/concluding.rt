//! The end of a sweep: the closing line of its run, and the text under OUT.
ghost use Rattle.std.specs.Prelude.{◌≡◌, IfOk, if◌then◌else◌};
ghost use Rattle.std.specs.String.{string_bytes};
ghost use Rattle.thy_outcome.specs.Kept.{named};
ghost use Rattle.thy_outcome.specs.Saving.{IsPut};
ghost use Rattle.thy_run.specs.Sending.{Sent};
ghost use Rattle.sweep.specs.Concluding.{ClosesSweep, ClosesStopped, IsConcluded, IsLineOf, ReportsOut, PutsOut, SaysShort, SaysWhy, closed_as, due_of, ends_before, has_ended, is_end};

use crate::account::{Account, Last};
use crate::asked::{Asked, Unasked};
use crate::running::{Swept, last_of};
use std::alloc::{AllocError, Global};
use thy_base::{PutError, Shelf, Sink};
use thy_outcome::{ProgramSource, close, stopped};
use thy_run::{Ending, Stop};
use thy_text::Closing;

/// The exit status of a difference.
const DIFFERS: u8 = 1;

/// The exit status if the arguments are refused.
const REFUSED: u8 = 2;

/// The exit status if OUT could not be put.
const NOT_PUT: u8 = 3;

/// The exit status if memory ran out.
const SHORT: u8 = 9;

/// Writes a line, and returns whether the report failed.
fn say<R: Sink>(line: &str, report: &mut R) -> bool
    ensures { Sent result (R.stream report.old) (R.stream report.new) line.now }
{
    let bytes = line.as_bytes();
    if bytes.is_empty() {
        return false;
    }
    report.write(bytes).is_err()
}

/// Writes that memory ran out, and returns the exit status.
pub fn report_short<R: Sink>(report: &mut R) -> u8
    ensures { SaysShort result (R.stream report.old) (R.stream report.new) }
{
    close(Closing::Memory, report);
    SHORT
}

/// The line of a refusal, if there is memory for it.
fn line_of(alloc: Global, why: Unasked) -> Result<String, AllocError>
    ensures { IfOk result (λ line. IsLineOf why (string_bytes line)) }
{
    match why {
        Unasked::Usage => String::from_str(alloc, "usage\n"),
        Unasked::Word(name) => format!(in alloc; "word {name}\n"),
        Unasked::Value(name, value) => format!(in alloc; "value {name} {value}\n"),
        Unasked::Memory(error) => Err(error),
    }
}

/// Refuses the options, and returns the exit status.
pub fn refuse_asked<R: Sink>(alloc: Global, why: Unasked, report: &mut R) -> u8
    ensures { SaysWhy why result (R.stream report.old) (R.stream report.new) }
{
    match line_of(alloc, why) {
        Ok(line) => {
            say(line.as_str(), report);
            REFUSED
        }
        Err(_) => report_short(report),
    }
}

/// Whether a run came to its end, or to its limit.
fn is_end(stop: Stop) -> bool
    ensures { result ≡ is_end stop }
{
    match stop {
        Stop::Ended(_) | Stop::Limit => true,
        Stop::Nvm | Stop::Memory | Stop::Terminal | Stop::Report => false,
    }
}

/// Whether the run of a sweep did.
fn has_ended(swept: &Swept) -> bool
    ensures { result ≡ has_ended swept.now }
{
    match swept {
        Swept::Stopped(ending) => is_end(ending.stop),
        Swept::Reached(_) | Swept::Short => false,
    }
}

/// Whether it ended before the first cycle that was asked for.
fn ends_before(swept: &Swept, account: &Account) -> bool
    ensures { result ≡ ends_before swept.now account.now }
{
    has_ended(swept) && account.is_empty()
}

/// The exit status of a run that stopped so, of which thynvm has this status.
fn closed_as(stop: Stop, status: u8) -> u8
    ensures { result ≡ closed_as stop status }
{
    if is_end(stop) { 0 } else { status }
}

/// Writes the closing line of a run that stopped, and returns the exit status.
fn close_stopped<R: Sink>(source: ProgramSource, ending: Ending, limit: u64, report: &mut R) -> u8
    ensures { ClosesStopped (named source.entry) limit ending result (R.stream report.old) (R.stream report.new) }
{
    let ran = stopped(source, None, ending, None, limit, report);
    closed_as(ran.stop, ran.status)
}

/// Writes the closing line of the run of a sweep, if it has one, and returns the exit status.
fn close_sweep<R: Sink>(source: ProgramSource, swept: Swept, limit: u64, report: &mut R) -> u8
    ensures { ClosesSweep (named source.entry) limit swept result (R.stream report.old) (R.stream report.new) }
{
    match swept {
        Swept::Reached(_) => 0,
        Swept::Short => report_short(report),
        Swept::Stopped(ending) => close_stopped(source, ending, limit, report),
    }
}

/// Stores text under OUT, and returns why it was not put there, if it was not.
fn put_text<H: Shelf>(alloc: Global, out: &str, text: &str, shelf: &mut H) -> Option<PutError>
    ensures { IsPut out.now text.now (H.stock shelf.old) (H.stock shelf.new) result }
{
    match shelf.put(alloc, out, text.as_bytes()) {
        Ok(()) => None,
        Err(error) => Some(error),
    }
}

/// Reports that OUT was not put, if so, and returns the exit status.
fn write_report<R: Sink>(out: &str, why: Option<PutError>, due: u8, report: &mut R) -> u8
    ensures { ReportsOut out.now why (R.stream report.old) (R.stream report.new) due result }
{
    match why {
        None => due,
        Some(_) => {
            close(Closing::Put(out), report);
            NOT_PUT
        }
    }
}

/// The exit status once OUT was put, if the run has this one.
fn due_of(account: &Account, closed: u8) -> u8
    ensures { result ≡ due_of account.now closed }
{
    if account.differs() { DIFFERS } else { closed }
}

/// Writes the text under OUT, and returns the exit status.
fn put_out<H: Shelf, R: Sink>(
    alloc: Global,
    out: &str,
    account: Account,
    last: Last,
    closed: u8,
    shelf: &mut H,
    report: &mut R,
) -> u8
    ensures { PutsOut out.now account closed (H.stock shelf.old) (H.stock shelf.new)
        (R.stream report.old) (R.stream report.new) result }
{
    let due = due_of(&account, closed);
    match account.into_text(alloc, last) {
        Ok(text) => {
            let why = put_text(alloc, out, text.as_str(), shelf);
            write_report(out, why, due, report)
        }
        Err(_) => report_short(report),
    }
}

/// Concludes a sweep: the closing line, and OUT; returns the exit status. Nothing is put if the run ended before the first cycle
/// that was asked for.
pub fn conclude<H: Shelf, R: Sink>(
    alloc: Global,
    out: &str,
    source: ProgramSource,
    asked: &Asked,
    swept: Swept,
    account: Account,
    limit: u64,
    shelf: &mut H,
    report: &mut R,
) -> u8
    ensures { IsConcluded out.now asked.now (named source.entry) limit account swept
        (H.stock shelf.old) (H.stock shelf.new) (R.stream report.old) (R.stream report.new) result }
{
    let last = last_of(&swept);
    let before = ends_before(&swept, &account);
    if before {
        return refuse_asked(alloc, Unasked::Value("from", asked.from), report);
    }
    let closed = close_sweep(source, swept, limit, report);
    put_out(alloc, out, account, last, closed, shelf, report)
}
