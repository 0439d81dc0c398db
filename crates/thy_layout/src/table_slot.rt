//! A slot with one table, in its bytes: the processor's record, 320 for each hart, and after it the table, eight an entry.
ghost use Rattle.std.specs.Prelude.{◌≡◌, ◌+◌, ◌*◌, ◌/◌, ◌≤◌, length};
ghost use Rattle.thy_block.specs.Places.{record_blocks};
ghost use Rattle.thy_layout.specs.Files.{blocks_of, table_in};
ghost use Rattle.thy_layout.specs.TableSlots.{table_of, slot_fault_by};

use crate::bad_image::BadImage;
use crate::slot::{cpu_fault, record_size, word_in};
use thy_block::Geometry;

/// The bytes of the table that follows the processor's record in a slot: eight for each of its `entries` entries.
pub fn table_behind<'a>(slot: &'a [u8], entries: usize, geometry: &Geometry) -> &'a [u8]
    requires { 8 * record_blocks geometry.now + entries ≤ 8 * (length slot.now / 64) }
    ensures { table_in result.now ≡ table_of geometry.now entries (blocks_of slot.now) }
{
    let first = record_size(geometry);
    &slot[first..first + 8 * entries]
}

/// The first fault of a slot under a commit block of this epoch, if it has one: a record of another epoch, this fault of the
/// table, or what is wrong with the processor.
pub fn fault_with_table(
    slot: &[u8],
    epoch: u64,
    table: Option<BadImage>,
    geometry: &Geometry,
    ceiling: u64,
) -> Option<BadImage>
    requires { record_blocks geometry.now ≤ length slot.now / 64 }
    ensures { result ≡ slot_fault_by table geometry.now ceiling epoch (blocks_of slot.now) }
{
    if word_in(slot, 38) != epoch {
        return Some(BadImage::Commit);
    }
    table.or(cpu_fault(slot, geometry, ceiling))
}
