//! The lines of events.
ghost use Rattle.std.specs.Prelude.{◌≡◌, ◌∷◌, [], ◌≢◌, ◌==◌, cond, OnErr};
ghost use Rattle.std.specs.Fmt.{decimal};
ghost use Rattle.thy_block.specs.Bytes.{bytes_of};
ghost use Rattle.thy_text.specs.Lines.{joined, line_feed, line_of, state_lines, ended_lines, turns_by, harts_parts, epoch_end_parts, made_of};
ghost use Rattle.thy_text.specs.Pieces.{tail_of};
ghost use Rattle.thy_text.specs.Seen.{event_of};
ghost use Rattle.thy_text.specs.Writing.{Wrote};

use crate::memory_digest::write_digest;
use crate::piece::{Piece, write_pieces};
use crate::{Event, Reporting};
use thy_base::{EndCause, Sink, SinkError};
use thy_isa::{MachState, Status};

/// Writes the line of an event. If digests are reported, the line of a restart and the line of an end are each followed
/// by the line of memory's digest. On an error the sink has taken only the first part of these lines. Each line is
/// given to the sink at once (which is tested, and in no contract). Allocates nothing.
pub fn write_event<R: Sink>(
    event: &Event,
    reporting: Reporting,
    report: &mut R,
) -> Result<(), SinkError>
    ensures wrote { Wrote result (R.stream report.old) (R.stream report.new)
        (line_of reporting (event_of event.now)) }
    ensures due { OnErr result (line_of reporting (event_of event.now) ≢ []) }
{
    match event {
        Event::Scheme { .. } => Ok(()),
        Event::EpochEnd {
            epoch,
            count,
            cause,
            turns,
        } => write_epoch_end(
            *epoch,
            *count,
            *cause,
            reporting.harts,
            turns.as_slice(),
            report,
        ),
        Event::Commit {
            epoch,
            overlapped,
            ..
        } => write_numbers("commit ", *epoch, " overlapped ", *overlapped, report),
        Event::Cut { index, cycle } => write_numbers("cut ", *index, " at cycle ", *cycle, report),
        Event::Restart {
            epoch,
            count,
            state,
        } => write_state("restart ", *epoch, *count, state, reporting.digest, report),
        Event::Reload => write_pieces(&[Piece::Text("reload"), Piece::Text("\n")], report),
        Event::Ended {
            status,
            count,
            state,
            ..
        } => write_end(*status, *count, state, reporting.digest, report),
    }
}

/// Writes a line of two numbers, each after a text.
fn write_numbers<R: Sink>(
    first: &'static str,
    one: u64,
    then: &'static str,
    two: u64,
    report: &mut R,
) -> Result<(), SinkError>
    ensures { Wrote result (R.stream report.old) (R.stream report.new)
        (joined (first.now ∷ decimal one ∷ then.now ∷ decimal two ∷ line_feed ∷ [])) }
{
    let pieces = [
        Piece::Text(first),
        Piece::Number(one),
        Piece::Text(then),
        Piece::Number(two),
        Piece::Text("\n"),
    ];
    write_pieces(&pieces, report)
}

/// The parts that report how many instructions each of two harts retired in an epoch; with one hart all are empty.
#[derive(Clone, Copy)]
pub(crate) struct HartParts {
    word: Piece<'static>,
    zero: Piece<'static>,
    between: Piece<'static>,
    one: Piece<'static>,
}

/// 1 for a turn of this hart.
fn turn_in(turn: u8, hart: u8) -> u64
    ensures { result ≡ cond (turn == hart) 1 0 }
{
    if turn == hart { 1 } else { 0 }
}

/// How many of these turns are a hart's.
fn count_turns(turns: &[u8], hart: u8) -> u64
    ensures { result ≡ turns_by hart turns.now }
{
    let mut count = 0;
    for turn in turns {
        count += turn_in(*turn, hart);
    }
    count
}

/// The parts that report the harts of an epoch with these turns.
fn hart_parts(harts: u64, turns: &[u8]) -> HartParts
    ensures { joined (tail_of result) ≡ joined (harts_parts harts turns.now) }
{
    if harts == 1 {
        let none = Piece::Text("");
        return HartParts {
            word: none,
            zero: none,
            between: none,
            one: none,
        };
    }
    HartParts {
        word: Piece::Text(" harts "),
        zero: Piece::Number(count_turns(turns, 0)),
        between: Piece::Text(" "),
        one: Piece::Number(count_turns(turns, 1)),
    }
}

/// Writes the line of an epoch's end.
fn write_epoch_end<R: Sink>(
    epoch: u64,
    count: u64,
    cause: EndCause,
    harts: u64,
    turns: &[u8],
    report: &mut R,
) -> Result<(), SinkError>
    ensures { Wrote result (R.stream report.old) (R.stream report.new)
        (joined (epoch_end_parts harts epoch count cause turns.now)) }
{
    let first = Piece::Text("epoch ");
    let number = Piece::Number(epoch);
    let at = Piece::Text(" ends at ");
    let place = Piece::Number(count);
    let by = Piece::Text(" by ");
    let HartParts {
        word,
        zero,
        between,
        one,
    } = hart_parts(harts, turns);
    let end = Piece::Text("\n");
    match cause {
        EndCause::Length => {
            let why = Piece::Text("length");
            let pieces = [
                first, number, at, place, by, why, word, zero, between, one, end,
            ];
            write_pieces(&pieces, report)
        }
        EndCause::Exhausted { free, dirty, need } => {
            let pieces = [
                first,
                number,
                at,
                place,
                by,
                Piece::Text("exhausted "),
                Piece::Number(free),
                Piece::Text(" "),
                Piece::Number(dirty),
                Piece::Text(" "),
                Piece::Number(need),
                word,
                zero,
                between,
                one,
                end,
            ];
            write_pieces(&pieces, report)
        }
        EndCause::Ended => {
            let why = Piece::Text("end");
            let pieces = [
                first, number, at, place, by, why, word, zero, between, one, end,
            ];
            write_pieces(&pieces, report)
        }
    }
}

/// Writes the line of a state that has ended, and if `digest` is set its memory's digest after it; of a state that
/// still runs, nothing. On an error the sink has taken only the first part of these lines. Allocates nothing.
pub fn write_ended<R: Sink>(
    state: &MachState,
    digest: bool,
    report: &mut R,
) -> Result<(), SinkError>
    ensures wrote { let s = state.now in Wrote result (R.stream report.old) (R.stream report.new)
        (ended_lines digest s.status s.count (bytes_of s.memory)) }
    ensures due { let s = state.now in
        OnErr result (ended_lines digest s.status s.count (bytes_of s.memory) ≢ []) }
{
    write_end(state.status, state.count, state, digest, report)
}

/// Writes the lines of an end with this status and count, `state` being the last.
fn write_end<R: Sink>(
    status: Status,
    count: u64,
    state: &MachState,
    digest: bool,
    report: &mut R,
) -> Result<(), SinkError>
    ensures wrote { Wrote result (R.stream report.old) (R.stream report.new)
        (ended_lines digest status count (bytes_of state.now.memory)) }
    ensures due { OnErr result (ended_lines digest status count (bytes_of state.now.memory) ≢ []) }
{
    match status {
        Status::Running => Ok(()),
        Status::Exited(value) => { write_state("exit ", value, count, state, digest, report) }
        Status::Trapped(cause) => { write_state("trap ", cause, count, state, digest, report) }
    }
}

/// Writes the line of a state, a word and a number before its count, and if `digest` is set its memory's digest after
/// it.
fn write_state<R: Sink>(
    word: &'static str,
    number: u64,
    count: u64,
    state: &MachState,
    digest: bool,
    report: &mut R,
) -> Result<(), SinkError>
    ensures { Wrote result (R.stream report.old) (R.stream report.new)
        (state_lines digest word.now number count (bytes_of state.now.memory)) }
{
    write_numbers(word, number, " at ", count, report)?;
    write_digest(state, digest, report)
}

/// Writes the line of a made program: the number of which it is made, and its length in bytes. On an
/// error the sink has taken only the first part of the line. Allocates nothing.
pub fn write_made<R: Sink>(number: u64, length: u64, report: &mut R) -> Result<(), SinkError>
    ensures { Wrote result (R.stream report.old) (R.stream report.new) (made_of number length) }
{
    write_numbers("made ", number, " ", length, report)
}
