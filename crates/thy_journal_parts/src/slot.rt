//! The table in the bytes of a slot, after the processor's record.
ghost use Rattle.std.specs.Prelude.{◌≡◌, ◌*◌, length};
ghost use Rattle.thy_layout.specs.Files.{blocks_of};
ghost use Rattle.thy_images.specs.JournalPlaces.{slot_blocks};
ghost use Rattle.thy_journal_parts.specs.Filling.{next_entry};

use thy_block::Geometry;
use thy_images::journal::listed_block;

/// The first entry from one on that lists a block.
pub fn next_listed(slot: &[u8], from: u64, geometry: &Geometry) -> Option<u64>
    requires { length slot.now ≡ 64 * slot_blocks geometry.now }
    ensures { result ≡ next_entry geometry.now (blocks_of slot.now) from }
{
    let entries = geometry.numbers().btt;
    for i in from..entries {
        if listed_block(slot, i as usize, geometry).is_some() {
            return Some(i);
        }
    }
    None
}
