//! The lines that sum a run up.
ghost use Rattle.std.specs.Prelude.{◌≡◌, cond, count_by, sum_by};
ghost use Rattle.thy_block.specs.Schemes.{scheme_name};
ghost use Rattle.thy_text.specs.Seen.{event_of};
ghost use Rattle.thy_text.specs.Summary.{ends_early, ends_epoch, overlapped_by, scheme_line, summary_of};
ghost use Rattle.thy_text.specs.Writing.{Wrote};

use crate::piece::{Piece, write_pieces};
use crate::{Event, Events};
use thy_base::{EndCause, SchemeName, Sink, SinkError};

/// What a run's events sum up to.
#[derive(Clone, Copy)]
struct Sums {
    /// The epochs that were sealed.
    epochs: u64,
    /// The sealed epochs that were exhausted.
    early: u64,
    /// All instructions that retired while a checkpoint was under way.
    overlapped: u128,
}

/// 1 for an epoch's end.
fn epochs_in(event: &Event) -> u64
    ensures { result ≡ cond (ends_epoch (event_of event.now)) 1 0 }
{
    match event {
        Event::EpochEnd { .. } => 1,
        _ => 0,
    }
}

/// 1 for the end of an epoch that was exhausted.
fn early_in(event: &Event) -> u64
    ensures { result ≡ cond (ends_early (event_of event.now)) 1 0 }
{
    match event {
        Event::EpochEnd {
            cause: EndCause::Exhausted { .. },
            ..
        } => 1,
        _ => 0,
    }
}

/// The instructions that a commit overlapped.
fn overlapped_by(event: &Event) -> u64
    ensures { result ≡ overlapped_by (event_of event.now) }
{
    match event {
        Event::Commit { overlapped, .. } => *overlapped,
        _ => 0,
    }
}

/// What events sum up to.
fn sums_of(events: &Events) -> Sums
    ensures epochs { result.epochs ≡ count_by ends_epoch events.now }
    ensures early { result.early ≡ count_by ends_early events.now }
    ensures overlapped { result.overlapped ≡ sum_by overlapped_by events.now }
{
    let mut epochs = 0;
    let mut early = 0;
    let mut overlapped = 0;
    for i in 0..events.len() {
        let event = events.get(i);
        epochs += epochs_in(event);
        early += early_in(event);
        overlapped += overlapped_by(event) as u128;
    }
    Sums {
        epochs,
        early,
        overlapped,
    }
}

/// Writes the line that sums a run's events up: how many epochs were sealed, how many of them were
/// exhausted, and how many instructions retired while a checkpoint was under way. On an error the sink
/// has taken only the first part of the line. Allocates nothing.
pub fn write_summary<R: Sink>(events: &Events, report: &mut R) -> Result<(), SinkError>
    ensures { Wrote result (R.stream report.old) (R.stream report.new) (summary_of events.now) }
{
    let sums = sums_of(events);
    let pieces = [
        Piece::Text("summary epochs "),
        Piece::Number(sums.epochs),
        Piece::Text(" early "),
        Piece::Number(sums.early),
        Piece::Text(" overlapped "),
        Piece::Sum(sums.overlapped),
        Piece::Text("\n"),
    ];
    write_pieces(&pieces, report)
}

/// Writes the line that sums up a run by a scheme, whose device has taken `writes` writes. On an error the sink has
/// taken only the first part of the line. Allocates nothing.
pub fn write_scheme<R: Sink>(
    scheme: SchemeName,
    events: &Events,
    writes: u64,
    report: &mut R,
) -> Result<(), SinkError>
    ensures { Wrote result (R.stream report.old) (R.stream report.new)
        (scheme_line (scheme_name scheme) events.now writes) }
{
    let sums = sums_of(events);
    let pieces = [
        Piece::Text("scheme "),
        Piece::Text(scheme.name()),
        Piece::Text(" epochs "),
        Piece::Number(sums.epochs),
        Piece::Text(" early "),
        Piece::Number(sums.early),
        Piece::Text(" overlapped "),
        Piece::Sum(sums.overlapped),
        Piece::Text(" writes "),
        Piece::Number(writes),
        Piece::Text("\n"),
    ];
    write_pieces(&pieces, report)
}
