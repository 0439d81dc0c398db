//! Where an image has each block of memory: one list of numbers, made from the map of its slot.
ghost use Rattle.std.specs.Prelude.{◌≡◌, ◌*◌, ◌<◌, length, IfOk};
ghost use Rattle.thy_block.specs.Geometry.{memory_blocks};
ghost use Rattle.thy_layout.specs.Files.{blocks_of};
ghost use Rattle.thy_images.specs.ShadowCheckpointParts.{memory_places};
ghost use Rattle.thy_images.specs.ShadowPlaces.{slot_blocks, place_of};
ghost use Rattle.thy_images.specs.ShadowSlots.{IsMap, table_in};

use crate::shadow::map::mapped_page;
use crate::shadow::places::pool;
use std::alloc::{AllocError, Global};
use thy_block::Geometry;

// The number of the block in which the checkpoint of the slot with these bytes has block `b` of memory.
fn place(slot: &[u8], b: u64, geometry: &Geometry) -> u64
    requires slot { length slot.now ≡ 64 * slot_blocks geometry.now }
    requires block { b < memory_blocks geometry.now }
    requires map { IsMap geometry.now (table_in geometry.now (blocks_of slot.now)) }
    ensures { result ≡ place_of geometry.now (table_in geometry.now (blocks_of slot.now)) b }
{
    let _numbers = geometry.numbers();
    let page = mapped_page(slot, (b / 64) as usize, geometry);
    pool(geometry, page, b % 64)
}

/// The numbers of the blocks in which the checkpoint of the slot with these bytes has memory's blocks, in the order
/// of these.
pub(crate) fn places(
    alloc: Global,
    slot: &[u8],
    geometry: &Geometry,
) -> Result<Vec<u64>, AllocError>
    requires slot { length slot.now ≡ 64 * slot_blocks geometry.now }
    requires map { IsMap geometry.now (table_in geometry.now (blocks_of slot.now)) }
    ensures { IfOk result (λ v. v.items ≡ memory_places geometry.now (table_in geometry.now (blocks_of slot.now))) }
{
    let blocks = geometry.memory_blocks();
    let mut index = Vec::with_capacity(alloc, blocks as usize)?;
    for b in 0..blocks {
        index.push(place(slot, b, geometry))?;
    }
    Ok(index)
}
