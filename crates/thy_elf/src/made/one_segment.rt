//! Program files of one segment.
ghost use Rattle.std.specs.Prelude.{◌≡◌, ◌<◌, ◌^◌, ◌++◌, length, IfOk, OnOk};
ghost use Rattle.std.specs.List.{flat_map};
ghost use Rattle.thy_block.specs.Bytes.{bytes_of};
ghost use Rattle.thy_block.specs.LittleEndian.{number_bytes};
ghost use Rattle.thy_elf.specs.MadeFile.{field_bytes, file_header as file_header_of, segment_header as segment_header_of, file_of};

use std::alloc::{AllocError, Global};
use thy_block::Bytes;

/// How many bytes precede the words.
const HEADERS: usize = 120;

/// The address at which the segment is loaded.
const BASE: u64 = 65536;

/// The address at which the program starts: its first word.
const ENTRY: u64 = BASE;

/// A field of a header, of one, two, four or eight bytes, the lowest first.
#[derive(Clone, Copy, Debug)]
pub enum HeaderField {
    U8(u8),
    U16(u16),
    U32(u32),
    U64(u64),
}

/// The file whose segment is these words.
pub(crate) fn small_file(alloc: Global, words: &[u32]) -> Result<Bytes, AllocError>
    requires { length words.now < 2 ^ 20 }
    ensures { IfOk result (λ file. bytes_of file ≡ file_of words.now) }
{
    let size = 4 * words.len();
    let mut file = Bytes::with_room(alloc, HEADERS + size)?;
    push_fields(&mut file, &file_header())?;
    push_fields(&mut file, &segment_header(size as u64))?;
    push_words(&mut file, words)?;
    Ok(file)
}

/// Adds the bytes of fields.
fn push_fields(file: &mut Bytes, fields: &[HeaderField]) -> Result<(), AllocError>
    ensures { OnOk result (bytes_of file.new ≡ bytes_of file.old ++ flat_map field_bytes fields.now) }
{
    for field in fields {
        push_field(file, field)?;
    }
    Ok(())
}

/// Adds the bytes of a field.
#[tactic(auto, unfolding(thy_block::specs::LittleEndian::number_bytes))]
fn push_field(file: &mut Bytes, field: &HeaderField) -> Result<(), AllocError>
    ensures { OnOk result (bytes_of file.new ≡ bytes_of file.old ++ field_bytes field.now) }
{
    match *field {
        HeaderField::U8(number) => file.extend(&[number]),
        HeaderField::U16(number) => file.extend(&number.to_le_bytes()),
        HeaderField::U32(number) => file.extend(&number.to_le_bytes()),
        HeaderField::U64(number) => file.extend(&number.to_le_bytes()),
    }
}

/// Adds the bytes of words.
#[tactic(auto, unfolding(thy_block::specs::LittleEndian::number_bytes))]
fn push_words(file: &mut Bytes, words: &[u32]) -> Result<(), AllocError>
    ensures { OnOk result (bytes_of file.new ≡ bytes_of file.old ++ flat_map (number_bytes 4) words.now) }
{
    for word in words {
        file.extend(&word.to_le_bytes())?;
    }
    Ok(())
}

/// The file's header: an executable for RISC-V, in 64 bits with the lowest byte first, with one program header.
fn file_header() -> [HeaderField; 19]
    ensures { result ≡ file_header_of }
{
    [
        HeaderField::U32(0x464C_457F),
        HeaderField::U8(2),
        HeaderField::U8(1),
        HeaderField::U8(1),
        HeaderField::U8(0),
        HeaderField::U64(0),
        HeaderField::U16(2),
        HeaderField::U16(243),
        HeaderField::U32(1),
        HeaderField::U64(ENTRY),
        HeaderField::U64(64),
        HeaderField::U64(0),
        HeaderField::U32(0),
        HeaderField::U16(64),
        HeaderField::U16(56),
        HeaderField::U16(1),
        HeaderField::U16(0),
        HeaderField::U16(0),
        HeaderField::U16(0),
    ]
}

/// The program header: a segment of `size` bytes after the headers, to be loaded, read, written and executed.
fn segment_header(size: u64) -> [HeaderField; 8]
    ensures { result ≡ segment_header_of size }
{
    [
        HeaderField::U32(1),
        HeaderField::U32(7),
        HeaderField::U64(HEADERS as u64),
        HeaderField::U64(BASE),
        HeaderField::U64(BASE),
        HeaderField::U64(size),
        HeaderField::U64(size),
        HeaderField::U64(4),
    ]
}
