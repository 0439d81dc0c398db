//! The one reader of images that stand in files, for every layout.
ghost use Rattle.std.specs.Prelude.{◌≡◌, ◌*◌, ◌≤◌, true, length, IfOk};
ghost use Rattle.thy_block.specs.Device.{block_at};
ghost use Rattle.thy_block.specs.Places.{commit_place};
ghost use Rattle.thy_isa.specs.Step.{state_of};
ghost use Rattle.thy_layout.specs.Files.{blocks_of, found_in, is_long_file, file_fault, decode_file, HasCheckpointOf, HasState};
ghost use Rattle.thy_layout.specs.Layout.{is_length, header_bad, slot_in as slot_of_image};

use crate::bad_image::BadImage;
use crate::commit::{commit_fault, epoch_in, is_zero};
use crate::file_blocks::block_in;
use crate::found::Found;
use crate::header::header_fault_of;
use crate::image_layout::ImageLayout;
use crate::restored::state_at;
use crate::slot::cpu_in;
use std::alloc::{AllocError, Global};
use thy_block::{BLOCK_SIZE, Block, COMMIT_PLACE, Geometry, HEADER_PLACE};
use thy_isa::MachState;

/// The first fault of a header, for an image that has the layout's number of blocks or not, as `sized` says.
pub fn header_fault_in<L: ImageLayout>(
    geometry: &Geometry,
    header: &Block,
    sized: bool,
) -> Option<BadImage>
    ensures { result ≡ header_bad (L.layouts geometry.now) header.now sized }
{
    L::recall_laws();
    header_fault_of(L::scheme(geometry), header, geometry, sized)
}

// The bytes of the slot that the commit block names.
fn slot_in<'a, L: ImageLayout>(image: &'a [u8], commit: &Block, geometry: &Geometry) -> &'a [u8]
    requires long { is_long_file (L.layouts geometry.now) image.now ≡ true }
    requires commit { commit.now ≡ block_at (blocks_of image.now) commit_place }
    ensures length { length result.now ≡ 64 * (L.layouts geometry.now).slot_blocks commit.now }
    ensures slot { blocks_of result.now ≡ slot_of_image (L.layouts geometry.now) (blocks_of image.now) }
{
    L::recall_laws();
    let first = BLOCK_SIZE * L::slot_place(geometry, commit) as usize;
    let size = BLOCK_SIZE * L::slot_blocks(geometry, commit) as usize;
    &image[first..first + size]
}

// Whether so many blocks are an image, or one of an older form.
fn is_enough(count: u64, blocks: u64, older: Option<u64>) -> bool
    ensures { result ≡ is_length blocks older count }
{
    match older {
        Some(fewer) => count == blocks || count == fewer,
        None => count == blocks,
    }
}

// Whether a file has the whole blocks of an image.
fn is_long<L: ImageLayout>(image: &[u8], commit: &Block, geometry: &Geometry) -> bool
    requires commit { commit.now ≡ block_at (blocks_of image.now) commit_place }
    ensures { result ≡ is_long_file (L.layouts geometry.now) image.now }
{
    let size = image.len() as u64;
    let whole = size.is_multiple_of(BLOCK_SIZE as u64);
    let older = L::older_blocks(geometry, commit);
    let enough = is_enough(size / BLOCK_SIZE as u64, L::blocks(geometry), older);
    whole && enough
}

// The first fault of an image that has this commit block.
fn image_fault<L: ImageLayout>(
    image: &[u8],
    commit: &Block,
    geometry: &Geometry,
    ceiling: u64,
) -> Option<BadImage>
    requires some { 128 ≤ length image.now }
    requires commit { commit.now ≡ block_at (blocks_of image.now) commit_place }
    ensures { result ≡ file_fault (L.layouts geometry.now) ceiling image.now }
{
    let header = block_in(image, HEADER_PLACE as usize);
    if let Some(bad) = header_fault_in::<L>(
        geometry,
        &header,
        is_long::<L>(image, commit, geometry),
    ) {
        return Some(bad);
    }
    if let Some(bad) = commit_fault(&header, commit, ceiling) {
        return Some(bad);
    }
    L::slot_fault(
        geometry,
        commit,
        slot_in::<L>(image, commit, geometry),
        ceiling,
    )
}

/// What the bytes of a file have for a geometry: nothing, if there are at least 128 of them and the commit block is
/// all zero; else the first of the refusals; else the checkpoint of an epoch. Epochs and counts have to be
/// below the ceiling.
pub fn check_image<L: ImageLayout>(
    image: &[u8],
    geometry: &Geometry,
    ceiling: u64,
) -> Result<Found, BadImage>
    ensures { result ≡ found_in (decode_file (L.layouts geometry.now) ceiling image.now) }
{
    if image.len() < 2 * BLOCK_SIZE {
        return Err(BadImage::Empty);
    }
    let commit = block_in(image, COMMIT_PLACE as usize);
    if is_zero(&commit) {
        return Ok(Found::Nothing);
    }
    match image_fault::<L>(image, &commit, geometry, ceiling) {
        Some(bad) => Err(bad),
        None => Ok(Found::At(epoch_in(&commit))),
    }
}

/// The state of the checkpoint in the bytes of a file. A `check_image` of these bytes has found one.
pub fn state_of_image<L: ImageLayout>(
    alloc: Global,
    image: &[u8],
    geometry: &Geometry,
) -> Result<MachState, AllocError>
    requires { HasCheckpointOf (L.layouts geometry.now) image.now }
    ensures { IfOk result (λ m. HasState (L.layouts geometry.now) image.now (state_of m)) }
{
    L::recall_laws();
    let commit = block_in(image, COMMIT_PLACE as usize);
    let slot = slot_in::<L>(image, &commit, geometry);
    let places = L::memory_places(alloc, geometry, &commit, slot)?;
    state_at(alloc, image, cpu_in(slot, geometry), &places, geometry)
}
