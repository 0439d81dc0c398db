//! Reporting what happened: bytes to the terminal, lines to the report.
ghost use Rattle.std.specs.Prelude.{◌≡◌, ◌≤◌, false, length, []};
ghost use Rattle.thy_run.specs.Rounds.{sink_stop};
ghost use Rattle.thy_run.specs.Sending.{Sent, ReportsLines};

use crate::ending::Stop;
use thy_base::Sink;
use thy_text::{Events, Reporting, write_event};

/// Writes the lines of the events from `first` on, and returns whether the report failed.
pub fn write_lines<R: Sink>(
    events: &Events,
    first: usize,
    reporting: Reporting,
    report: &mut R,
) -> bool
    requires { first ≤ length events.now }
    ensures lines { ReportsLines reporting first events.now result (R.stream report.old) (R.stream report.new) }
    ensures none { first ≡ length events.now → result ≡ false }
{
    for i in first..events.len() {
        if write_event(events.get(i), reporting, report).is_err() {
            return true;
        }
    }
    false
}

/// Writes the bytes that the terminal has to get, if there are any, and returns whether it failed.
pub fn write_bytes<T: Sink>(bytes: &[u8], terminal: &mut T) -> bool
    ensures bytes { Sent result (T.stream terminal.old) (T.stream terminal.new) bytes.now }
    ensures none { bytes.now ≡ [] → result ≡ false }
{
    if bytes.is_empty() {
        return false;
    }
    terminal.write(bytes).is_err()
}

/// Which of the two sinks failed.
#[derive(Clone, Copy)]
pub struct Failures {
    pub terminal: bool,
    pub report: bool,
}

impl Failures {
    /// Why a run stops after a cycle that is done: a sink failed. None if neither did; if both did, the report is named.
    pub fn stop(self) -> Option<Stop>
        ensures { result ≡ sink_stop self.terminal self.report }
    {
        if self.report {
            return Some(Stop::Report);
        }
        if self.terminal {
            return Some(Stop::Terminal);
        }
        None
    }
}

/// Reports a cycle: the terminal's bytes first, and then the lines of the events from `first` on. If one of the two
/// fails, the other still gets all that it has to get. A sink that has nothing to get does not fail.
pub fn write_report<T: Sink, R: Sink>(
    bytes: &[u8],
    events: &Events,
    first: usize,
    reporting: Reporting,
    terminal: &mut T,
    report: &mut R,
) -> Failures
    requires { first ≤ length events.now }
    ensures terminal { Sent result.terminal (T.stream terminal.old) (T.stream terminal.new) bytes.now }
    ensures report { ReportsLines reporting first events.now result.report
        (R.stream report.old) (R.stream report.new) }
    ensures on_terminal { bytes.now ≡ [] → result.terminal ≡ false }
    ensures on_report { first ≡ length events.now → result.report ≡ false }
{
    let terminal = write_bytes(bytes, terminal);
    let report = write_lines(events, first, reporting, report);
    Failures { terminal, report }
}
