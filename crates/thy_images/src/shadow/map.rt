//! The map in the bytes of a slot, after the processor's record, eight bytes an entry.
ghost use Rattle.std.specs.Prelude.{◌≡◌, ◌*◌, ◌<◌, length};
ghost use Rattle.thy_layout.specs.Files.{blocks_of, table_in as entries_of};
ghost use Rattle.thy_layout.specs.Entries.{entry_at};
ghost use Rattle.thy_images.specs.ShadowPlaces.{map_blocks as blocks_of_map, slot_blocks, pool_page, pool_pages as pages_of_pool};
ghost use Rattle.thy_images.specs.ShadowSlots.{IsMap, table_in, stray as stray_at, index_fault as fault_of_index};

use crate::shadow::places::{map_blocks, pool_pages};
use thy_block::Geometry;
use thy_layout::{BadImage, entry, table_behind};

// The map of a slot.
pub(crate) fn map_in<'a>(slot: &'a [u8], geometry: &Geometry) -> &'a [u8]
    requires { length slot.now ≡ 64 * slot_blocks geometry.now }
    ensures { entries_of result.now ≡ table_in geometry.now (blocks_of slot.now) }
{
    table_behind(slot, 8 * map_blocks(geometry) as usize, geometry)
}

/// The page of the pool that entry `x` of the map in these bytes of a slot lists; none if the entry is empty.
pub fn listed_page(slot: &[u8], x: usize, geometry: &Geometry) -> Option<u64>
    requires slot { length slot.now ≡ 64 * slot_blocks geometry.now }
    requires entry { x < 8 * blocks_of_map geometry.now }
    ensures { result ≡ entry_at (table_in geometry.now (blocks_of slot.now)) x }
{
    entry(map_in(slot, geometry), x)
}

// The page of the pool that has page `x` of memory in a map that a checkpoint may have.
pub(crate) fn mapped_page(slot: &[u8], x: usize, geometry: &Geometry) -> u64
    requires slot { length slot.now ≡ 64 * slot_blocks geometry.now }
    requires entry { x < geometry.now.pages }
    requires map { IsMap geometry.now (table_in geometry.now (blocks_of slot.now)) }
    ensures page { result ≡ pool_page (entry_at (table_in geometry.now (blocks_of slot.now)) x) }
    ensures inside { result < pages_of_pool geometry.now }
{
    match listed_page(slot, x, geometry) {
        Some(page) => page,
        None => 0,
    }
}

// The fault of entry `x`: a page of memory has none of the pool, or one that is not there; or there is no such page.
fn stray(slot: &[u8], x: usize, geometry: &Geometry) -> Option<BadImage>
    requires slot { length slot.now ≡ 64 * slot_blocks geometry.now }
    requires entry { x < 8 * blocks_of_map geometry.now }
    ensures { result ≡ stray_at geometry.now x (entry_at (table_in geometry.now (blocks_of slot.now)) x) }
{
    let mapped = (x as u64) < geometry.numbers().pages;
    let pool = pool_pages(geometry);
    let fits = match listed_page(slot, x, geometry) {
        Some(page) => mapped && page < pool,
        None => !mapped,
    };
    if fits {
        None
    } else {
        Some(BadImage::TableIndex(x as u64))
    }
}

// The first of them.
#[tactic(auto, using(crate::proofs::ShadowSlotLemmas::stray_next, crate::proofs::ShadowSlotLemmas::table_long))]
pub(crate) fn index_fault(slot: &[u8], geometry: &Geometry) -> Option<BadImage>
    requires { length slot.now ≡ 64 * slot_blocks geometry.now }
    ensures { result ≡ fault_of_index geometry.now (table_in geometry.now (blocks_of slot.now)) }
{
    let entries = 8 * map_blocks(geometry) as usize;
    for x in 0..entries {
        if let Some(bad) = stray(slot, x, geometry) {
            return Some(bad);
        }
    }
    None
}
