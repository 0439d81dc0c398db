//! The last line of a report.
ghost use Rattle.std.specs.Prelude.{◌≡◌, ◌∷◌, [], codes};
ghost use Rattle.std.specs.Fmt.{decimal};
ghost use Rattle.thy_base.specs.Options.{field_name};
ghost use Rattle.thy_text.specs.Closings.{closing_of, entries_of, fault_text, image_parts, numbers_of, refusal_parts};
ghost use Rattle.thy_text.specs.Lines.{joined, line_feed};
ghost use Rattle.thy_text.specs.Writing.{Wrote};

use crate::piece::{Piece, write_pieces};
use thy_base::{Field, Sink, SinkError};
use thy_layout::BadImage;

/// Why the bytes under a name could not be read.
#[derive(Clone, Copy, Debug, PartialEq, Eq)]
pub enum FetchFault {
    Failed,
    /// Nothing is stored under the name.
    Missing,
    /// More bytes are stored under the name than are accepted.
    TooLong,
}

/// How a run's report closes.
#[derive(Clone, Copy, Debug, PartialEq, Eq)]
pub enum Closing<'a> {
    /// The arguments are invalid usage.
    Usage,
    /// The value of an option can't be read.
    Word(Field),
    /// The value of an option is out of its range.
    Value(Field, u64),
    /// The bytes under a name could not be read.
    Fetch(&'a str, FetchFault),
    /// The bytes could not be stored under a name.
    Put(&'a str),
    /// The program file is refused: the refusal's number and name.
    File(u64, &'a str),
    /// The program file is refused: the refusal's number and name, and the index of the program header at fault.
    FileAt(u64, &'a str, u64),
    /// The saved image is refused, for this reason.
    Image(BadImage),
    /// The image has read more of its input than there is: its cursor, and the input's length, in bytes.
    Input { cursor: u64, length: u64 },
    /// The terminal failed.
    Terminal,
    /// The device failed.
    Nvm,
    /// The number of cycles that the limit allows is done, which is this, and the run has not ended.
    Limit(u64),
    /// An allocation failed.
    Memory,
}

/// The entries of an image's tables that are at fault.
#[derive(Clone, Copy)]
enum Entries {
    None,
    One(u64),
    Two(u64, u64),
}

/// Writes the closing line: at once (which is tested, and in no contract), unless it has a name that makes it longer than
/// the lines of events.
/// On an error the sink has taken only the first part of the line. Allocates nothing.
pub fn write_closing<R: Sink>(closing: Closing, report: &mut R) -> Result<(), SinkError>
    ensures { Wrote result (R.stream report.old) (R.stream report.new) (closing_of closing.entry) }
{
    let end = Piece::Text("\n");
    match closing {
        Closing::Usage => write_pieces(&[Piece::Text("usage"), end], report),
        Closing::Word(field) => write_pieces(
            &[Piece::Text("word "), Piece::Text(field.name()), end],
            report,
        ),
        Closing::Value(field, value) => write_value(field, value, report),
        Closing::Fetch(name, fault) => write_fetch(name, fault, report),
        Closing::Put(name) => write_pieces(
            &[
                Piece::Text("put "),
                Piece::Text(name),
                Piece::Text(" failed"),
                end,
            ],
            report,
        ),
        Closing::File(number, name) => write_refusal("file ", number, name, report),
        Closing::FileAt(number, name, k) => write_refusal_at("file ", number, name, k, report),
        Closing::Image(bad) => write_image(bad, report),
        Closing::Input { cursor, length } => write_input(cursor, length, report),
        Closing::Terminal => write_pieces(&[Piece::Text("terminal failed"), end], report),
        Closing::Nvm => write_pieces(&[Piece::Text("nvm failed"), end], report),
        Closing::Limit(limit) => write_pieces(
            &[Piece::Text("limit "), Piece::Number(limit), end],
            report,
        ),
        Closing::Memory => write_pieces(&[Piece::Text("memory"), end], report),
    }
}

/// Writes the line of a value out of its range.
fn write_value<R: Sink>(field: Field, value: u64, report: &mut R) -> Result<(), SinkError>
    ensures { Wrote result (R.stream report.old) (R.stream report.new)
        (joined (codes "value " ∷ field_name field ∷ codes " " ∷ decimal value ∷ line_feed ∷ [])) }
{
    let pieces = [
        Piece::Text("value "),
        Piece::Text(field.name()),
        Piece::Text(" "),
        Piece::Number(value),
        Piece::Text("\n"),
    ];
    write_pieces(&pieces, report)
}

/// Why bytes could not be read, in words.
fn fault_words(fault: FetchFault) -> &'static str
    ensures { result.now ≡ fault_text fault }
{
    match fault {
        FetchFault::Failed => " failed",
        FetchFault::Missing => " missing",
        FetchFault::TooLong => " too long",
    }
}

/// Writes the line for bytes that could not be read.
fn write_fetch<R: Sink>(name: &str, fault: FetchFault, report: &mut R) -> Result<(), SinkError>
    ensures { Wrote result (R.stream report.old) (R.stream report.new)
        (joined (codes "fetch " ∷ name.now ∷ fault_text fault ∷ line_feed ∷ [])) }
{
    let pieces = [
        Piece::Text("fetch "),
        Piece::Text(name),
        Piece::Text(fault_words(fault)),
        Piece::Text("\n"),
    ];
    write_pieces(&pieces, report)
}

/// Writes the line of a refusal: its number and its name.
fn write_refusal<R: Sink>(
    what: &'static str,
    number: u64,
    name: &str,
    report: &mut R,
) -> Result<(), SinkError>
    ensures { Wrote result (R.stream report.old) (R.stream report.new)
        (joined (refusal_parts what.now number name.now [])) }
{
    let pieces = [
        Piece::Text(what),
        Piece::Number(number),
        Piece::Text(" "),
        Piece::Text(name),
        Piece::Text("\n"),
    ];
    write_pieces(&pieces, report)
}

/// Writes the line of a refusal with the number of what is at fault.
fn write_refusal_at<R: Sink>(
    what: &'static str,
    number: u64,
    name: &str,
    k: u64,
    report: &mut R,
) -> Result<(), SinkError>
    ensures { Wrote result (R.stream report.old) (R.stream report.new)
        (joined (refusal_parts what.now number name.now (k ∷ []))) }
{
    let pieces = [
        Piece::Text(what),
        Piece::Number(number),
        Piece::Text(" "),
        Piece::Text(name),
        Piece::Text(" "),
        Piece::Number(k),
        Piece::Text("\n"),
    ];
    write_pieces(&pieces, report)
}

/// Writes the line of a refused image for two entries of its tables.
fn write_image_at_two<R: Sink>(
    number: u64,
    name: &str,
    i: u64,
    k: u64,
    report: &mut R,
) -> Result<(), SinkError>
    ensures { Wrote result (R.stream report.old) (R.stream report.new)
        (joined (refusal_parts (codes "image ") number name.now (i ∷ k ∷ []))) }
{
    let pieces = [
        Piece::Text("image "),
        Piece::Number(number),
        Piece::Text(" "),
        Piece::Text(name),
        Piece::Text(" "),
        Piece::Number(i),
        Piece::Text(" "),
        Piece::Number(k),
        Piece::Text("\n"),
    ];
    write_pieces(&pieces, report)
}

/// The entries of the tables for which an image is refused.
fn entries_of(bad: BadImage) -> Entries
    ensures { numbers_of result ≡ entries_of bad }
{
    match bad {
        BadImage::TableIndex(i) | BadImage::Count(i) => Entries::One(i),
        BadImage::TableTwice(i, k) => Entries::Two(i, k),
        BadImage::BlockUnderPage(i, j) => Entries::Two(i, j),
        _ => Entries::None,
    }
}

/// Writes the line of a refused image, with the entries of its tables that are at fault.
fn write_image<R: Sink>(bad: BadImage, report: &mut R) -> Result<(), SinkError>
    ensures { Wrote result (R.stream report.old) (R.stream report.new) (joined (image_parts bad)) }
{
    let place = bad.number();
    let called = bad.name();
    match entries_of(bad) {
        Entries::None => write_refusal("image ", place, called, report),
        Entries::One(i) => write_refusal_at("image ", place, called, i, report),
        Entries::Two(i, k) => write_image_at_two(place, called, i, k, report),
    }
}

/// Writes the line of an image that has read more than there is.
fn write_input<R: Sink>(cursor: u64, length: u64, report: &mut R) -> Result<(), SinkError>
    ensures { Wrote result (R.stream report.old) (R.stream report.new)
        (joined (codes "input " ∷ decimal cursor ∷ codes " " ∷ decimal length ∷ line_feed ∷ [])) }
{
    let pieces = [
        Piece::Text("input "),
        Piece::Number(cursor),
        Piece::Text(" "),
        Piece::Number(length),
        Piece::Text("\n"),
    ];
    write_pieces(&pieces, report)
}
