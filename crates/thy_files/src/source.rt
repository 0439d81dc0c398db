//! How the source of a run's program is read.
ghost use Rattle.std.specs.Prelude.{◌≡◌, ℕ, List, length, IfOk, IfErr, OnOk, option_map};
ghost use Rattle.thy_block.specs.Bytes.{bytes_of};
ghost use Rattle.thy_block.specs.Geometry.{IsInRange, program_size};
ghost use Rattle.thy_block.specs.Outside.{HasNotFailed};
ghost use Rattle.thy_base.specs.Settings.{Job};
ghost use Rattle.thy_outcome.specs.Sources.{AreBytesOf, AreFetched, IsHeld, IsInput, ProgramDue, ProgramSource as SourceValue};
ghost use Rattle.thy_files.specs.Beginnings.{IsFetchRefusal, ReadsProgram, RefusesProgram};
ghost use Rattle.thy_outcome.specs.Kept.{named};

use std::alloc::Global;
use thy_base::{Bytes, Geometry, Shelf};
use thy_elf::{Image, read};
use thy_outcome::{ProgramSource, Refusal};
use thy_plain::recall_are_bytes;

/// The most bytes that a program file or an input may have.
const MOST_BYTES: u64 = 67_108_864;

/// The most bytes that a saved image may have.
const MOST_IMAGE_BYTES: u64 = 536_870_912;

/// The bytes of a source, and what its program reads.
#[derive(Drop)]
pub struct FetchedBytes {
    pub bytes: Bytes,
    pub input: Bytes,
}

/// A program as its file means it, in the numbers of its configuration, and its input.
#[derive(Drop)]
pub struct Program {
    pub geometry: Geometry,
    pub image: Image,
    pub input: Bytes,
}

/// Reads the file under a name, if it has at most `most` bytes.
fn fetch<'a, H: Shelf>(
    alloc: Global,
    name: &'a str,
    most: u64,
    shelf: &mut H,
) -> Result<Bytes, Refusal<'a>>
    ensures refusal { IfErr result (IsFetchRefusal most name.now (H.stock shelf.old) (H.stock shelf.new)) }
    ensures held { (H.stock shelf.new).held ≡ (H.stock shelf.old).held }
    ensures calm { OnOk result (HasNotFailed (H.stock shelf.old) (H.stock shelf.new)) }
    ensures bytes { IfOk result (λ b. IsHeld most (H.stock shelf.old) name.now (bytes_of b)) }
{
    match shelf.fetch(alloc, name, most) {
        Ok(bytes) => Ok(Bytes::from_vec(bytes)),
        Err(error) => Err(Refusal::Fetch(name, error)),
    }
}

/// The bytes of a source.
fn source_bytes<'a, H: Shelf>(
    alloc: Global,
    source: ProgramSource<'a>,
    shelf: &mut H,
) -> Result<Bytes, Refusal<'a>>
    ensures refusal { (job : Job) →
        IfErr result (ProgramDue (named source.entry) job (H.stock shelf.old) (H.stock shelf.new)) }
    ensures held { (H.stock shelf.new).held ≡ (H.stock shelf.old).held }
    ensures calm { OnOk result (HasNotFailed (H.stock shelf.old) (H.stock shelf.new)) }
    ensures bytes { IfOk result (λ b.
        AreBytesOf (named source.entry) (H.stock shelf.old) (bytes_of b)) }
{
    match source {
        ProgramSource::File(name) => fetch(alloc, name, MOST_BYTES, shelf),
        ProgramSource::Image(name) => fetch(alloc, name, MOST_IMAGE_BYTES, shelf),
        ProgramSource::Made(number) => match thy_elf::made::file(alloc, number) {
            Ok(bytes) => Ok(bytes),
            Err(error) => Err(Refusal::Memory(error)),
        },
    }
}

/// The bytes of a program's input, once its own were read; nothing is fetched if it has no input.
fn input_bytes<'a, H: Shelf>(
    alloc: Global,
    name: Option<&'a str>,
    shelf: &mut H,
) -> Result<Bytes, Refusal<'a>>
    ensures refusal { (source : SourceValue) (job : Job) (bytes : List ℕ)
        → job.input ≡ option_map (λ n. n.now) name.entry → AreBytesOf source (H.stock shelf.old) bytes
        → IfErr result (ProgramDue source job (H.stock shelf.old) (H.stock shelf.new)) }
    ensures held { (H.stock shelf.new).held ≡ (H.stock shelf.old).held }
    ensures calm { OnOk result (HasNotFailed (H.stock shelf.old) (H.stock shelf.new)) }
    ensures input { IfOk result (λ b.
        IsInput (H.stock shelf.old) (option_map (λ n. n.now) name.entry) (bytes_of b)) }
{
    match name {
        Some(name) => fetch(alloc, name, MOST_BYTES, shelf),
        None => Ok(Bytes::new(alloc)),
    }
}

/// Fetches the bytes of a source, and then what its program reads.
pub fn fetch_both<'a, H: Shelf>(
    alloc: Global,
    source: ProgramSource<'a>,
    input: Option<&'a str>,
    shelf: &mut H,
) -> Result<FetchedBytes, Refusal<'a>>
    ensures refusal { (job : Job) → job.input ≡ option_map (λ n. n.now) input.entry
        → IfErr result (ProgramDue (named source.entry) job (H.stock shelf.old) (H.stock shelf.new)) }
    ensures held { (H.stock shelf.new).held ≡ (H.stock shelf.old).held }
    ensures calm { OnOk result (HasNotFailed (H.stock shelf.old) (H.stock shelf.new)) }
    ensures fetched { (job : Job) → job.input ≡ option_map (λ n. n.now) input.entry
        → IfOk result (λ h. AreFetched (named source.entry) job (H.stock shelf.old) (bytes_of h.bytes) (bytes_of h.input)) }
{
    let bytes = match source_bytes(alloc, source, shelf) {
        Ok(bytes) => bytes,
        Err(refusal) => return Err(refusal),
    };
    let input = match input_bytes(alloc, input, shelf) {
        Ok(input) => input,
        Err(refusal) => return Err(refusal),
    };
    recall_are_bytes(bytes.as_slice());
    recall_are_bytes(input.as_slice());
    Ok(FetchedBytes { bytes, input })
}

/// Reads a program file, for a machine of these numbers.
pub fn program_of<'a>(
    alloc: Global,
    geometry: Geometry,
    fetched: FetchedBytes,
) -> Result<Program, Refusal<'a>>
    requires { IsInRange geometry }
    ensures refusal { RefusesProgram geometry fetched result }
    ensures program { ReadsProgram geometry fetched result }
    ensures size { IfOk result (λ p. length (bytes_of p.image.memory) ≡ program_size p.geometry) }
{
    let FetchedBytes { bytes, input } = fetched;
    let base = geometry.numbers().base;
    match read(alloc, bytes.as_slice(), base, geometry.program_size()) {
        Ok(image) => Ok(Program {
            geometry,
            image,
            input,
        }),
        Err(error) => Err(Refusal::File(error)),
    }
}
