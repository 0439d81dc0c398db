//! What a run begins with, for each source of its program.
ghost use Rattle.std.specs.Prelude.{◌≡◌, List, ℕ, IfOk, IfErr, OnOk, option_map};
ghost use Rattle.thy_block.specs.Geometry.{IsInRange};
ghost use Rattle.thy_block.specs.Outside.{HasNotFailed};
ghost use Rattle.thy_base.specs.Settings.{Job as JobValue};
ghost use Rattle.thy_outcome.specs.Kept.{named};
ghost use Rattle.thy_outcome.specs.Sources.{ProgramDue, ProgramSource as SourceValue, image};
ghost use Rattle.thy_files.specs.Beginnings.{Begins, BeginsAs, IsElf, IsPlannedFor, RefusesAs};

use crate::restoring::{Beginning, restore};
use crate::source::{FetchedBytes, fetch_both, program_of};
use std::alloc::Global;
use thy_base::{Geometry, Shelf};
use thy_layout::{BadImage, Found, Start};
use thy_outcome::{ProgramSource, Refusal, check};
use thy_plain::start_of;

/// The epochs and counts of a saved image are below this.
const SAVED_CEILING: u64 = 1 << 62;

/// A beginning from a program's entry, over a device of zeros.
fn from_entry<'a>(
    alloc: Global,
    geometry: Geometry,
    fetched: FetchedBytes,
) -> Result<Beginning, Refusal<'a>>
    requires { IsInRange geometry }
    ensures refusal { (source : SourceValue) → IsElf source → RefusesAs source geometry fetched result }
    ensures begins { (source : SourceValue) → IsElf source → BeginsAs source geometry fetched result }
{
    let program = match program_of(alloc, geometry, fetched) {
        Ok(program) => program,
        Err(refusal) => return Err(refusal),
    };
    let start = Start {
        state: start_of(alloc, program.image, &program.geometry),
        kept: None,
        input: program.input,
    };
    Ok(Beginning {
        start,
        blocks: Vec::new(alloc),
    })
}

/// From the checkpoint of a saved image, over that image.
fn from_image<'a>(
    alloc: Global,
    geometry: &Geometry,
    fetched: FetchedBytes,
) -> Result<Beginning, Refusal<'a>>
    ensures refusal { (name : List ℕ) → RefusesAs (image name) geometry.now fetched result }
    ensures begins { (name : List ℕ) → BeginsAs (image name) geometry.now fetched result }
{
    let FetchedBytes { bytes, input } = fetched;
    let epoch = match check(bytes.as_slice(), geometry, SAVED_CEILING) {
        Ok(Found::At(epoch)) => epoch,
        Ok(Found::Nothing) => return Err(Refusal::Image(BadImage::Empty)),
        Err(bad) => return Err(Refusal::Image(bad)),
    };
    let length = input.len() as u64;
    let beginning = match restore(alloc, bytes.as_slice(), geometry, epoch, input) {
        Ok(beginning) => beginning,
        Err(error) => return Err(Refusal::Memory(error)),
    };
    let cursor = beginning.start.state.cursor;
    if cursor > length {
        return Err(Refusal::Input { cursor, length });
    }
    Ok(beginning)
}

/// What a run begins with once its bytes and its input were read.
pub fn begin<'a>(
    alloc: Global,
    source: ProgramSource<'a>,
    geometry: Geometry,
    fetched: FetchedBytes,
) -> Result<Beginning, Refusal<'a>>
    requires { IsInRange geometry }
    ensures refusal { RefusesAs (named source.entry) geometry fetched result }
    ensures begins { BeginsAs (named source.entry) geometry fetched result }
{
    match source {
        ProgramSource::Image(_) => from_image(alloc, &geometry, fetched),
        ProgramSource::File(_) | ProgramSource::Made(_) => from_entry(alloc, geometry, fetched),
    }
}

/// What a job's run begins with; or why there is no run.
pub fn prepare<'a, H: Shelf>(
    alloc: Global,
    source: ProgramSource<'a>,
    input: Option<&'a str>,
    geometry: Geometry,
    shelf: &mut H,
) -> Result<Beginning, Refusal<'a>>
    requires { IsInRange geometry }
    ensures refusal { (job : JobValue) → IsPlannedFor job geometry (option_map (λ n. n.now) input.entry)
        → IfErr result (ProgramDue (named source.entry) job (H.stock shelf.old) (H.stock shelf.new)) }
    ensures held { (H.stock shelf.new).held ≡ (H.stock shelf.old).held }
    ensures calm { OnOk result (HasNotFailed (H.stock shelf.old) (H.stock shelf.new)) }
    ensures begins { (job : JobValue) → IsPlannedFor job geometry (option_map (λ n. n.now) input.entry)
        → IfOk result (λ b. Begins (named source.entry) job (H.stock shelf.old) b) }
{
    match fetch_both(alloc, source, input, shelf) {
        Ok(fetched) => begin(alloc, source, geometry, fetched),
        Err(refusal) => Err(refusal),
    }
}
