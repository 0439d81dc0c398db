//! The bytes of a slot: the processor's record, 320 for each hart, after it the block table and the page table, and in
//! version 2 the counts of pages.
ghost use Rattle.std.specs.Prelude.{◌≡◌, ◌+◌, ◌*◌, ◌/◌, ◌<◌, ◌≤◌, length};
ghost use Rattle.thy_layout.specs.declared.layout_version.LayoutVersion.TheVariants.{VersionTwo};
ghost use Rattle.thy_block.specs.Places.{record_blocks};
ghost use Rattle.thy_table.specs.Places.{table_blocks, count_blocks};
ghost use Rattle.thy_record.specs.VersionSlots.{blocks_of_slot};
ghost use Rattle.thy_layout.specs.Files.{blocks_of, table_in};
ghost use Rattle.thy_layout.specs.Entries.{entry_at};
ghost use Rattle.thy_record.specs.Slots.{tables_in, count_byte, is_bad_count as is_bad_byte, count_fault as fault_of_counts, head_fault as fault_of_head, slot_fault as fault_of_slot};

use crate::table_faults::tables_fault;
use thy_block::{BLOCK_COUNTS, BLOCK_SIZE, Geometry};
use thy_layout::{
    BadImage, LayoutVersion, entry, record_size, second_fault, status_fault, table_behind, word_in,
};
use thy_table::{count_blocks as blocks_of_counts, table_blocks as blocks_of_tables};

/// The bytes of the block table in the bytes of a slot, in which it follows the processor's record.
pub fn btt_in<'a>(slot: &'a [u8], geometry: &Geometry) -> &'a [u8]
    requires { 64 * (record_blocks geometry.now + geometry.now.btt / 8) ≤ length slot.now }
    ensures { table_in result.now ≡ (tables_in geometry.now (blocks_of slot.now)).btt }
{
    table_behind(slot, geometry.numbers().btt as usize, geometry)
}

// The page table of a slot.
pub(crate) fn ptt_in<'a>(slot: &'a [u8], geometry: &Geometry) -> &'a [u8]
    requires { 64 * (record_blocks geometry.now + table_blocks geometry.now) ≤ length slot.now }
    ensures { table_in result.now ≡ (tables_in geometry.now (blocks_of slot.now)).ptt }
{
    let p = geometry.numbers();
    let first = record_size(geometry) + 8 * p.btt as usize;
    &slot[first..first + 8 * p.ptt as usize]
}

/// The number of the block that entry `i` of the block table lists, in the bytes of a slot; None if the entry is empty.
pub fn listed_block(slot: &[u8], i: usize, geometry: &Geometry) -> Option<u64>
    requires slot { 64 * (record_blocks geometry.now + geometry.now.btt / 8) ≤ length slot.now }
    requires entry { i < geometry.now.btt }
    ensures { result ≡ entry_at (tables_in geometry.now (blocks_of slot.now)).btt i }
{
    entry(btt_in(slot, geometry), i)
}

/// The number of the page that entry `j` of the page table lists, in the bytes of a slot; None if the entry is empty.
pub fn listed_page(slot: &[u8], j: usize, geometry: &Geometry) -> Option<u64>
    requires slot { 64 * (record_blocks geometry.now + table_blocks geometry.now) ≤ length slot.now }
    requires entry { j < geometry.now.ptt }
    ensures { result ≡ entry_at (tables_in geometry.now (blocks_of slot.now)).ptt j }
{
    entry(ptt_in(slot, geometry), j)
}

// Byte i of the counts of a slot.
fn count_in(slot: &[u8], geometry: &Geometry, i: u64) -> u8
    requires slot { length slot.now ≡ 64 * blocks_of_slot VersionTwo geometry.now }
    requires inside { i < 64 * count_blocks geometry.now }
    ensures { result ≡ count_byte geometry.now (blocks_of slot.now) i }
{
    let first = BLOCK_SIZE * (geometry.record_blocks() + blocks_of_tables(geometry)) as usize;
    slot[first + i as usize]
}

/// The count of a page's stores, one byte, in the bytes of a slot of version 2.
pub fn listed_count(slot: &[u8], page: u64, geometry: &Geometry) -> u64
    requires slot { length slot.now ≡ 64 * blocks_of_slot VersionTwo geometry.now }
    requires page { page < 64 * count_blocks geometry.now }
    ensures { result ≡ count_byte geometry.now (blocks_of slot.now) page }
{
    u64::from(count_in(slot, geometry, page))
}

// Whether that byte is past 63, or past the last page and not zero.
fn is_bad_count(slot: &[u8], geometry: &Geometry, i: u64) -> bool
    requires slot { length slot.now ≡ 64 * blocks_of_slot VersionTwo geometry.now }
    requires inside { i < 64 * count_blocks geometry.now }
    ensures { result ≡ is_bad_byte geometry.now (blocks_of slot.now) i }
{
    let count = count_in(slot, geometry, i);
    count > 63 || (i >= geometry.numbers().pages && count != 0)
}

// A count past 63, or a byte past the last page that is not zero; version 1 has no counts.
fn count_fault(slot: &[u8], version: LayoutVersion, geometry: &Geometry) -> Option<BadImage>
    requires { length slot.now ≡ 64 * blocks_of_slot version geometry.now }
    ensures { result ≡ fault_of_counts version geometry.now (blocks_of slot.now) }
{
    match version {
        LayoutVersion::VersionOne => None,
        LayoutVersion::VersionTwo => bad_count(slot, geometry),
    }
}

// So in version 2.
fn bad_count(slot: &[u8], geometry: &Geometry) -> Option<BadImage>
    requires { length slot.now ≡ 64 * blocks_of_slot VersionTwo geometry.now }
    ensures { result ≡ fault_of_counts VersionTwo geometry.now (blocks_of slot.now) }
{
    for i in 0..BLOCK_COUNTS * blocks_of_counts(geometry) {
        if is_bad_count(slot, geometry, i) {
            return Some(BadImage::Count(i));
        }
    }
    None
}

/// The first fault of record and tables, with which a slot of either version begins, under a commit block of this
/// epoch: in the epoch, the tables, the status, the count or the console's length. The record may be of another epoch,
/// and the tables such as no checkpoint has; the status may be without meaning, the count of instructions not below the
/// ceiling, and the console longer than its pages.
pub fn head_fault(slot: &[u8], epoch: u64, geometry: &Geometry, ceiling: u64) -> Option<BadImage>
    requires { 64 * (record_blocks geometry.now + table_blocks geometry.now) ≤ length slot.now }
    ensures { result ≡ fault_of_head geometry.now ceiling epoch (blocks_of slot.now) }
{
    if word_in(slot, 38) != epoch {
        return Some(BadImage::Commit);
    }
    if let Some(bad) = tables_fault(btt_in(slot, geometry), ptt_in(slot, geometry), geometry) {
        return Some(bad);
    }
    status_fault(slot, geometry, ceiling)
}

/// The first fault of the slot of a version with these bytes under a commit block of this epoch, if it has one: in
/// record and tables, the counts of stores, or the second hart. A count may be past 63 or past the last page, and words
/// of the second hart without meaning.
pub fn slot_fault(
    slot: &[u8],
    version: LayoutVersion,
    epoch: u64,
    geometry: &Geometry,
    ceiling: u64,
) -> Option<BadImage>
    requires slot { length slot.now ≡ 64 * blocks_of_slot version geometry.now }
    requires room { 64 * (record_blocks geometry.now + table_blocks geometry.now) ≤ length slot.now }
    ensures { result ≡ fault_of_slot version geometry.now ceiling epoch (blocks_of slot.now) }
{
    let head = head_fault(slot, epoch, geometry, ceiling);
    head.or(count_fault(slot, version, geometry))
        .or(second_fault(slot, geometry))
}
