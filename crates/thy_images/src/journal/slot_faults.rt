//! The bytes of a slot: the processor's record, 320 for each hart, and after it the table, eight bytes an entry.
ghost use Rattle.std.specs.Prelude.{◌≡◌, ◌*◌, ◌<◌, length};
ghost use Rattle.thy_layout.specs.Entries.{entry_at};
ghost use Rattle.thy_layout.specs.Files.{blocks_of, table_in as entries_of};
ghost use Rattle.thy_images.specs.JournalPlaces.{slot_blocks};
ghost use Rattle.thy_images.specs.JournalSlots.{table_in, table_fault as fault_of_table, slot_fault as fault_of_slot};

use thy_block::Geometry;
use thy_layout::{BadImage, entry, fault_with_table, index_fault, table_behind, twice_fault};

// The table of a slot.
fn table_of<'a>(slot: &'a [u8], geometry: &Geometry) -> &'a [u8]
    requires { length slot.now ≡ 64 * slot_blocks geometry.now }
    ensures { entries_of result.now ≡ table_in geometry.now (blocks_of slot.now) }
{
    table_behind(slot, geometry.numbers().btt as usize, geometry)
}

/// The block that entry `i` of the table in these bytes of a slot lists; none if the entry is empty.
pub fn listed_block(slot: &[u8], i: usize, geometry: &Geometry) -> Option<u64>
    requires slot { length slot.now ≡ 64 * slot_blocks geometry.now }
    requires entry { i < geometry.now.btt }
    ensures { result ≡ entry_at (table_in geometry.now (blocks_of slot.now)) i }
{
    entry(table_of(slot, geometry), i)
}

/// The first fault of the table in these bytes of a slot, if it has one.
#[tactic(auto, unfolding(crate::specs::JournalSlots::table_fault))]
fn table_fault(slot: &[u8], geometry: &Geometry) -> Option<BadImage>
    requires { length slot.now ≡ 64 * slot_blocks geometry.now }
    ensures { result ≡ fault_of_table geometry.now (table_in geometry.now (blocks_of slot.now)) }
{
    let table = table_of(slot, geometry);
    index_fault(table, 0, geometry.memory_blocks()).or(twice_fault(table, 0))
}

/// The first fault of the slot with these bytes under a commit block of this epoch, if it has one: in the epoch, the
/// table, the status, the count, the console's length or the second hart. The record may be of another epoch, and the
/// table such as no checkpoint has. The status may be without meaning, the count not below the ceiling, the console
/// longer than its pages, and words of the second hart without meaning.
pub fn slot_fault(slot: &[u8], epoch: u64, geometry: &Geometry, ceiling: u64) -> Option<BadImage>
    requires { length slot.now ≡ 64 * slot_blocks geometry.now }
    ensures { result ≡ fault_of_slot geometry.now ceiling epoch (blocks_of slot.now) }
{
    fault_with_table(slot, epoch, table_fault(slot, geometry), geometry, ceiling)
}
