//! The faults of a slot, in its bytes: the processor's record, 320 for each hart, and after it the map.
ghost use Rattle.std.specs.Prelude.{◌≡◌, ◌*◌, length};
ghost use Rattle.thy_layout.specs.Files.{blocks_of};
ghost use Rattle.thy_images.specs.ShadowPlaces.{slot_blocks};
ghost use Rattle.thy_images.specs.ShadowSlots.{table_in, table_fault as fault_of_table, slot_fault as fault_of_slot};

use crate::shadow::map::{index_fault, map_in};
use thy_block::Geometry;
use thy_layout::{BadImage, fault_with_table, twice_fault};

// The first fault of the map in these bytes of a slot, if it has one.
#[tactic(auto, unfolding(crate::specs::ShadowSlots::table_fault))]
fn table_fault(slot: &[u8], geometry: &Geometry) -> Option<BadImage>
    requires { length slot.now ≡ 64 * slot_blocks geometry.now }
    ensures { result ≡ fault_of_table geometry.now (table_in geometry.now (blocks_of slot.now)) }
{
    let map = map_in(slot, geometry);
    index_fault(slot, geometry).or(twice_fault(map, 0))
}

/// The first fault of the slot with these bytes under a commit block of this epoch, if it has one: in the epoch, the
/// map, the status, the count, the console's length or the second hart. The record may be of another epoch, and the map
/// such as no checkpoint has. The status may be without meaning, the count not below the ceiling, the console longer
/// than its pages, and words of the second hart without meaning.
pub fn slot_fault(slot: &[u8], epoch: u64, geometry: &Geometry, ceiling: u64) -> Option<BadImage>
    requires { length slot.now ≡ 64 * slot_blocks geometry.now }
    ensures { result ≡ fault_of_slot geometry.now ceiling epoch (blocks_of slot.now) }
{
    fault_with_table(slot, epoch, table_fault(slot, geometry), geometry, ceiling)
}
