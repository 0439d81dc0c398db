//! The end of a report, and the result of a run.
ghost use Rattle.std.specs.Prelude.{◌≡◌, option_map};
ghost use Rattle.thy_text.specs.Closings.{closing_of};
ghost use Rattle.thy_outcome.specs.Answering.{ClosesAs, ClosesRun, SumsUp, run_line, stop_line, stop_summed, summary_for};
ghost use Rattle.thy_outcome.specs.Kept.{named};
ghost use Rattle.thy_run.specs.Sending.{Sent};

use crate::answer::{Ran, run_status};
use crate::source::ProgramSource;
use thy_base::{PutError, Sink};
use thy_isa::Status;
use thy_run::{Ending, Stop};
use thy_text::{Closing, write_closing, write_summary};

/// Writes a closing line, and returns whether the report failed.
pub fn close<R: Sink>(closing: Closing, report: &mut R) -> bool
    ensures { Sent result (R.stream report.old) (R.stream report.new) (closing_of closing.entry) }
{
    write_closing(closing, report).is_err()
}

/// Writes the summary of a made program that exited, unless the report failed before, and returns whether it failed in it.
fn sum_up<R: Sink>(source: ProgramSource, ending: &Ending, report: &mut R) -> bool
    ensures { SumsUp ending.now.report_failed result
        (summary_for (named source.entry) ending.now.stop ending.now.events)
        (R.stream report.old) (R.stream report.new) }
{
    if ending.report_failed {
        return false;
    }
    match (source, ending.stop) {
        (ProgramSource::Made(_), Stop::Ended(Status::Exited(_))) => {
            write_summary(&ending.events, report).is_err()
        }
        _ => false,
    }
}

/// Writes the closing line of a stop, and returns whether the report failed; at an end there is none.
pub fn close_stop<R: Sink>(stop: Stop, limit: u64, report: &mut R) -> bool
    ensures { Sent result (R.stream report.old) (R.stream report.new) (stop_line limit stop) }
{
    match stop {
        Stop::Ended(_) | Stop::Report => false,
        Stop::Nvm => close(Closing::Nvm, report),
        Stop::Memory => close(Closing::Memory, report),
        Stop::Terminal => close(Closing::Terminal, report),
        Stop::Limit => close(Closing::Limit(limit), report),
    }
}

/// Writes the closing line of a run, unless the report failed before. If the run was to be saved and was not, it is the
/// put's line.
fn close_run<R: Sink>(
    failed: bool,
    save: Option<&str>,
    stop: Stop,
    why: Option<PutError>,
    limit: u64,
    report: &mut R,
)
    ensures { ClosesRun failed (run_line limit (option_map (λ n. n.now) save.entry) stop why)
        (R.stream report.old) (R.stream report.new) }
{
    if failed {
        return;
    }
    match (why, save) {
        (Some(PutError::Memory(_)), _) => {
            close(Closing::Memory, report);
        }
        (Some(PutError::Failed), Some(name)) => {
            close(Closing::Put(name), report);
        }
        _ => {
            close_stop(stop, limit, report);
        }
    }
}

/// The stop of a run, if the report refused its summary or did not.
fn stop_summed(failed: bool, stop: Stop) -> Stop
    ensures { result ≡ stop_summed failed stop }
{
    if failed { Stop::Report } else { stop }
}

/// The outcome of a run that has stopped. A report that has not failed gets the summary, if the run has one, and then the
/// closing line. If it refuses the summary, the status says so; if it refuses the closing line, the status stays.
pub fn stopped<R: Sink>(
    source: ProgramSource,
    save: Option<&str>,
    ending: Ending,
    why: Option<PutError>,
    limit: u64,
    report: &mut R,
) -> Ran
    ensures stop { result.stop ≡ ending.stop }
    ensures closes { let name = option_map (λ n. n.now) save.entry in
        ClosesAs (named source.entry) limit name ending why result.status
        (R.stream report.old) (R.stream report.new) }
    ensures events { result.events ≡ ending.events }
    ensures cycles { result.cycles ≡ ending.cycles }
{
    let failed = sum_up(source, &ending, report);
    let is_deaf = ending.report_failed || failed;
    close_run(is_deaf, save, ending.stop, why, limit, report);
    Ran {
        stop: ending.stop,
        status: run_status(stop_summed(failed, ending.stop), why),
        events: ending.events,
        cycles: ending.cycles,
    }
}
