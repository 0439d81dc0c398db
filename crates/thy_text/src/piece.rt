//! The parts that lines are written in.
ghost use Rattle.std.specs.Prelude.{◌≡◌, ◌<◌, ◌+◌, ◌++◌, length, map, IfOk, OnOk, OnErr};
ghost use Rattle.thy_text.specs.Lines.{joined};
ghost use Rattle.thy_text.specs.Pieces.{bytes_of_piece};
ghost use Rattle.thy_text.specs.Writing.{Wrote};

use arrayvec::{ArrayVec, CapacityError};
use itoa::Buffer;
use thy_base::{Sink, SinkError};

/// Room for a line that is written at once, in bytes. The longest line of an event has 180: an epoch's end by
/// exhaustion with two harts, with seven numbers of twenty digits.
const ROOM: usize = 192;

/// A part of a line.
#[derive(Clone, Copy)]
pub(crate) enum Piece<'a> {
    Text(&'a str),
    /// A number in decimal digits.
    Number(u64),
    /// A sum of numbers, in decimal digits.
    Sum(u128),
    /// Digits, as characters.
    Digits(&'a [u8; 64]),
}

/// Writes a part, unless it is empty.
fn write_piece<R: Sink>(piece: &Piece, to: &mut R) -> Result<(), SinkError>
    ensures { Wrote result (R.stream to.old) (R.stream to.new) (bytes_of_piece piece.now) }
{
    match piece {
        Piece::Text(text) => {
            if text.is_empty() {
                return Ok(());
            }
            to.write(text.as_bytes())
        }
        Piece::Number(number) => {
            let mut buffer = Buffer::new();
            to.write(buffer.format(*number).as_bytes())
        }
        Piece::Sum(sum) => {
            let mut buffer = Buffer::new();
            to.write(buffer.format(*sum).as_bytes())
        }
        Piece::Digits(digits) => to.write(digits.as_slice()),
    }
}

/// Writes parts one after another, until one fails.
fn write_each<R: Sink>(pieces: &[Piece], to: &mut R) -> Result<(), SinkError>
    ensures { Wrote result (R.stream to.old) (R.stream to.new)
        (joined (map bytes_of_piece pieces.now)) }
{
    for piece in pieces {
        write_piece(piece, to)?;
    }
    Ok(())
}

/// Appends a part to a line, unless it has no room for it.
fn append(line: &mut ArrayVec<u8, ROOM>, piece: &Piece) -> Result<(), CapacityError>
    ensures ok { OnOk result (line.new.items ≡ line.old.items ++ bytes_of_piece piece.now) }
    ensures full { OnErr result (ROOM < length line.old.items + length (bytes_of_piece piece.now)) }
{
    match piece {
        Piece::Text(text) => line.try_extend_from_slice(text.as_bytes()),
        Piece::Number(number) => {
            let mut buffer = Buffer::new();
            line.try_extend_from_slice(buffer.format(*number).as_bytes())
        }
        Piece::Sum(sum) => {
            let mut buffer = Buffer::new();
            line.try_extend_from_slice(buffer.format(*sum).as_bytes())
        }
        Piece::Digits(digits) => line.try_extend_from_slice(digits.as_slice()),
    }
}

/// The line of these parts, unless it is longer than the room.
fn put_together(pieces: &[Piece]) -> Result<ArrayVec<u8, ROOM>, CapacityError>
    ensures line { IfOk result (λ line. line.items ≡ joined (map bytes_of_piece pieces.now)) }
    ensures full { OnErr result (ROOM < length (joined (map bytes_of_piece pieces.now))) }
{
    let mut line = ArrayVec::new();
    for piece in pieces {
        append(&mut line, piece)?;
    }
    Ok(line)
}

/// Writes parts one after another: at once if there is room for the line that they are, and otherwise each by
/// itself, until one fails.
pub(crate) fn write_pieces<R: Sink>(pieces: &[Piece], to: &mut R) -> Result<(), SinkError>
    ensures { Wrote result (R.stream to.old) (R.stream to.new)
        (joined (map bytes_of_piece pieces.now)) }
{
    match put_together(pieces) {
        Ok(line) => {
            if line.is_empty() {
                return Ok(());
            }
            to.write(line.as_slice())
        }
        Err(_) => write_each(pieces, to),
    }
}
