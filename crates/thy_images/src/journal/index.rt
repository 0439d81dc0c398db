//! Where an image has each block of memory: one list of numbers, made from the table of its slot.
ghost use Rattle.std.specs.Prelude.{◌≡◌, ◌*◌, ◌<◌, ℕ, [], length, IfOk, IfSome};
ghost use Rattle.thy_block.specs.Geometry.{memory_blocks};
ghost use Rattle.thy_layout.specs.Files.{blocks_of};
ghost use Rattle.thy_images.specs.JournalIndex.{with_block};
ghost use Rattle.thy_images.specs.JournalCheckpointParts.{memory_places};
ghost use Rattle.thy_images.specs.JournalPlaces.{slot_blocks};
ghost use Rattle.thy_images.specs.JournalSlots.{IsTable, table_in};

use crate::journal::places::{home, journal};
use crate::journal::slot_faults::listed_block;
use std::alloc::{AllocError, Global};
use thy_block::Geometry;

// All of memory at home.
fn homes(alloc: Global, geometry: &Geometry) -> Result<Vec<u64>, AllocError>
    ensures { (s : ℕ) → IfOk result (λ v. v.items ≡ memory_places geometry.now s []) }
{
    let blocks = geometry.memory_blocks();
    let mut index = Vec::with_capacity(alloc, blocks as usize)?;
    for b in 0..blocks {
        index.push(home(geometry, b))?;
    }
    Ok(index)
}

// The block that an entry lists, if it lists one, in the journal of slot `s`, 0 or 1.
fn list_block(index: &mut [u64], s: u64, entry: usize, block: Option<u64>, geometry: &Geometry)
    requires slot { s < 2 }
    requires block { IfSome block (λ n. n < memory_blocks geometry.now) }
    requires entry { entry < geometry.now.btt }
    requires long { length index.old ≡ memory_blocks geometry.now }
    ensures { index.new ≡ with_block geometry.now s entry block index.old }
{
    match block {
        Some(block) => {
            index[block as usize] = journal(geometry, s, entry);
        }
        None => {}
    }
}

// The blocks that the table of slot `s` lists.
fn list_blocks(index: &mut [u64], slot: &[u8], s: u64, geometry: &Geometry)
    requires slot { length slot.now ≡ 64 * slot_blocks geometry.now }
    requires number { s < 2 }
    requires table { IsTable geometry.now (table_in geometry.now (blocks_of slot.now)) }
    requires homes { index.old ≡ memory_places geometry.now s [] }
    ensures { index.new ≡ memory_places geometry.now s (table_in geometry.now (blocks_of slot.now)) }
{
    let entries = geometry.numbers().btt as usize;
    for i in 0..entries {
        list_block(index, s, i, listed_block(slot, i, geometry), geometry);
    }
}

/// The numbers of the blocks in which the checkpoint of slot `s`, which has these bytes, has memory's blocks, in the
/// order of these.
pub(crate) fn places(
    alloc: Global,
    slot: &[u8],
    s: u64,
    geometry: &Geometry,
) -> Result<Vec<u64>, AllocError>
    requires slot { length slot.now ≡ 64 * slot_blocks geometry.now }
    requires number { s < 2 }
    requires table { IsTable geometry.now (table_in geometry.now (blocks_of slot.now)) }
    ensures { IfOk result (λ v.
        v.items ≡ memory_places geometry.now s (table_in geometry.now (blocks_of slot.now))) }
{
    let mut index = homes(alloc, geometry)?;
    list_blocks(index.as_mut_slice(), slot, s, geometry);
    Ok(index)
}
