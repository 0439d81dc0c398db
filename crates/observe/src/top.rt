//! The call: what thynvm does, and then OUT.
ghost use Rattle.std.specs.Prelude.{◌≡◌, IfErr, IfOk, IfSome, OnOk, false, is_some, true, map, option_map};
ghost use Rattle.std.specs.String.{string_bytes};
ghost use Rattle.thy_block.specs.Outside.{HasNotFailed};
ghost use Rattle.thy_outcome.specs.Answering.{around, nvm_of};
ghost use Rattle.thy_outcome.specs.Machines.{by_scheme};
ghost use Rattle.thy_outcome.specs.Saving.{IsPut};
ghost use Rattle.thy_run.specs.Sending.{Sent};
ghost use Rattle.thy_text.specs.Closings.{closing_of};
ghost use Rattle.thy_base.specs.Settings.{IsInRange, order_of, settings_of};
ghost use Rattle.observe.specs.Beginning.{IsBegunOf, IsUnreadOf, has_run};
ghost use Rattle.observe.specs.CountText.{counts_of};
ghost use Rattle.observe.specs.HeadText.{asked_by, asked_in};
ghost use Rattle.observe.specs.Wanting.{asks};
ghost use Rattle.observe.specs.Observing.{IsAskedFor, IsLacking, IsRefusedFor, ReportsOut, Observed, is_refused_by};

use crate::beginning::{Begun, begin};
use crate::head::{Asked, was_begun};
use crate::naming::is_refused;
use crate::options::Options;
use crate::whole::whole_text;
use std::alloc::Global;
use thy_base::{Command, Nvm, PutError, Shelf, Sink, WordsError, settings};
use thy_cli::{Refusal, observed, refuse};
use thy_computer::Computer;
use thy_core::Machine;
use thy_observe::{Counts, Watch};
use thy_schemes::{Journal, Shadow, Thynvm};
use thy_text::{Closing, write_closing};

/// The exit status if OUT could not be put.
const NOT_PUT: u8 = 3;

/// The exit status, 9, if memory ran out for what was to be counted.
pub(crate) const NO_MEMORY: u8 = 9;

/// The command that the arguments ask for, if they do; or why the call is refused: because of OUT or of an option, or because
/// memory ran out.
fn command_of(
    alloc: Global,
    options: Options,
    out: &str,
    words: &[String],
) -> Result<Option<Command>, WordsError>
    ensures free { OnOk result
        (is_refused_by options out.now (settings_of (map string_bytes words.now)) ≡ false) }
    ensures asked { IfOk result (λ o. IfSome o (IsAskedFor (map string_bytes words.now))) }
    ensures known { IfOk result (λ o. asked_in (option_map order_of o)
        ≡ asked_by (settings_of (map string_bytes words.now))) }
    ensures refused { IfErr result (IsRefusedFor options out.now (map string_bytes words.now)) }
{
    match settings(alloc, words) {
        Ok(command) => {
            let refused = is_refused(options, out, &command);
            if refused {
                return Err(WordsError::Usage);
            }
            Ok(Some(command))
        }
        Err(WordsError::Memory(error)) => Err(WordsError::Memory(error)),
        Err(_) => Ok(None),
    }
}

/// What the run of a command begins with, if an option needs that, and there is a command; or why there is no run.
fn beginning<'a, H: Shelf>(
    alloc: Global,
    options: Options,
    command: Option<&'a Command>,
    shelf: &mut H,
) -> Result<Option<Begun>, Refusal<'a>>
    requires { IfSome command (λ c. IsInRange (order_of c.now)) }
    ensures refusal { IfErr result (λ why. (asks options ≡ true)
        × IsUnreadOf (option_map (λ c. order_of c.now) command.entry) (H.stock shelf.old) (H.stock shelf.new) why) }
    ensures held { (H.stock shelf.new).held ≡ (H.stock shelf.old).held }
    ensures calm { OnOk result (HasNotFailed (H.stock shelf.old) (H.stock shelf.new)) }
    ensures begins { IfOk result (λ o. IfSome o
        (IsBegunOf (option_map (λ c. order_of c.now) command.entry) (H.stock shelf.old))) }
    ensures wanted { asks options ≡ true
        → IfOk result (λ o. is_some o ≡ has_run (option_map (λ c. order_of c.now) command.entry)) }
{
    let asks = options.asks();
    match command {
        Some(command) if asks => begin(alloc, command, shelf),
        _ => Ok(None),
    }
}

/// Stores text under OUT, and returns why it was not put there, if it was not.
pub(crate) fn put_text<H: Shelf>(
    alloc: Global,
    out: &str,
    text: &str,
    shelf: &mut H,
) -> Option<PutError>
    ensures { IsPut out.now text.now (H.stock shelf.old) (H.stock shelf.new) result }
{
    match shelf.put(alloc, out, text.as_bytes()) {
        Ok(()) => None,
        Err(error) => Some(error),
    }
}

/// Writes a closing line, and returns whether the report failed.
pub(crate) fn close<R: Sink>(closing: Closing, report: &mut R) -> bool
    ensures { Sent result (R.stream report.old) (R.stream report.new) (closing_of closing.entry) }
{
    write_closing(closing, report).is_err()
}

/// Reports that OUT was not put, if so, and returns the exit status. If the report fails in the line, the status stays.
pub(crate) fn write_report<R: Sink>(
    out: &str,
    why: Option<PutError>,
    status: u8,
    report: &mut R,
) -> u8
    ensures { ReportsOut out.now why (R.stream report.old) (R.stream report.new) status result }
{
    match why {
        None => status,
        Some(_) => {
            close(Closing::Put(out), report);
            NOT_PUT
        }
    }
}

/// Reports that there is no text, if something was to be counted, and returns the exit status, which else stays.
fn lack<R: Sink>(options: Options, status: u8, report: &mut R) -> u8
    ensures { IsLacking options (R.stream report.old) (R.stream report.new) status result }
{
    if !options.counts() {
        return status;
    }
    close(Closing::Memory, report);
    NO_MEMORY
}

/// Does what thynvm does for the arguments, the program's name first, and stores under OUT what the run came to: a line
/// for each event, the trap, and the totals; and then what the options ask for. Of the plain machine it writes the
/// trap. If torn blocks are asked for, the caller has made the NVM so.
///
/// Returns the exit status: 2 if OUT is a name that the arguments have, or if the plain machine is to run with an option, or
/// wear is to be levelled over torn blocks. It is 3 if OUT could not be put, and else thynvm's, also if the program that is
/// read for an option has no run. Nothing is put if no run was begun, or if memory ran out for what was seen; then the status is
/// 9 if something was to be counted.
pub fn observe<H: Shelf, T: Sink, R: Sink, N: Nvm + Counts>(
    alloc: Global,
    out: &str,
    options: Options,
    words: &[String],
    shelf: &mut H,
    terminal: &mut T,
    report: &mut R,
    nvm: &mut N,
) -> u8
    ensures { let before = around (H.stock shelf.old) nvm.old
        (T.stream terminal.old) (R.stream report.old) in
        let after = around (H.stock shelf.new) nvm.new
        (T.stream terminal.new) (R.stream report.new) in
        let nvms = nvm_of N.device in
        let machines = by_scheme ⟦<Machine<Thynvm> as Computer>⟧.kind
        ⟦<Machine<Journal> as Computer>⟧.kind
        ⟦<Machine<Shadow> as Computer>⟧.kind in
        let counted = counts_of N.calls N.wear in
        Observed machines nvms counted options out.now (map string_bytes words.now) before after result }
{
    let command = match command_of(alloc, options, out, words) {
        Ok(command) => command,
        Err(why) => return refuse(alloc, Refusal::Words(why), report).status,
    };
    let begun = match beginning(alloc, options, command.as_ref(), shelf) {
        Ok(begun) => begun,
        Err(refusal) => return refuse(alloc, refusal, report).status,
    };
    let asked = Asked::of(command.as_ref());
    let mut watch = Watch::new(alloc, options.asks(), options.epochs);
    let answer = observed(alloc, words, shelf, terminal, report, nvm, &mut watch);
    let ran = was_begun(&answer);
    if !ran {
        return answer.status;
    }
    let Some(text) = whole_text(alloc, asked, &answer, options, begun, &watch, nvm) else {
        return lack(options, answer.status, report);
    };
    let why = put_text(alloc, out, text.as_str(), shelf);
    write_report(out, why, answer.status, report)
}
