//! What the map of a slot lists, given to the pool's table.
ghost use Rattle.std.specs.Prelude.{◌≡◌, ◌+◌, ◌*◌, ◌<◌, length};
ghost use Rattle.thy_layout.specs.Files.{blocks_of};
ghost use Rattle.thy_images.specs.ShadowPlaces.{slot_blocks, pool_pages};
ghost use Rattle.thy_images.specs.ShadowSlots.{IsMap, table_in};
ghost use Rattle.thy_shadow_parts.specs.Listed.{HoldsMap};

use crate::entry::{FreeAll, Held};
use thy_block::Geometry;
use thy_images::shadow::listed_page;
use thy_table::Table;

/// Lists in a pool the map of a slot, and nothing else.
pub(crate) fn list_all(slot: &[u8], geometry: &Geometry, pool: &mut Table<Held>)
    requires slot { length slot.now ≡ 64 * slot_blocks geometry.now }
    requires map { IsMap geometry.now (table_in geometry.now (blocks_of slot.now)) }
    requires size { length pool.old.entries ≡ pool_pages geometry.now }
    requires numbers { pool.old.numbers ≡ pool_pages geometry.now }
    ensures { HoldsMap geometry.now.pages (table_in geometry.now (blocks_of slot.now)) pool.old pool.new }
{
    pool.map_entries(&FreeAll);
    let pages = geometry.numbers().pages;
    for x in 0..pages {
        list_one(slot, x, geometry, pool);
    }
}

/// Lists page `x` of memory where the map has it.
fn list_one(slot: &[u8], x: u64, geometry: &Geometry, pool: &mut Table<Held>)
    requires slot { length slot.now ≡ 64 * slot_blocks geometry.now }
    requires map { IsMap geometry.now (table_in geometry.now (blocks_of slot.now)) }
    requires page { x < geometry.now.pages }
    requires size { length pool.old.entries ≡ pool_pages geometry.now }
    requires numbers { pool.old.numbers ≡ pool_pages geometry.now }
    requires before { HoldsMap x (table_in geometry.now (blocks_of slot.now)) pool.old pool.old }
    ensures { HoldsMap (x + 1) (table_in geometry.now (blocks_of slot.now)) pool.old pool.new }
{
    match listed_page(slot, x as usize, geometry) {
        Some(q) => pool.put(q as usize, Held::new(x)),
        None => {}
    }
}
