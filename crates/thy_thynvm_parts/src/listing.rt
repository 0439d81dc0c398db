//! What a slot lists, given to the controller, and which positions have to be filled.
ghost use Rattle.std.specs.Prelude.{◌≡◌, ◌+◌, ◌*◌, ◌<◌, ◌≤◌, is_some, length, None};
ghost use Rattle.thy_block.specs.Places.{record_blocks};
ghost use Rattle.thy_table.specs.Places.{table_blocks};
ghost use Rattle.thy_checkpoint.specs.Filling.{ListsOn};
ghost use Rattle.thy_layout.specs.Files.{blocks_of};
ghost use Rattle.thy_record.specs.ThynvmLayouts.{thynvm_layouts};
ghost use Rattle.thy_record.specs.Slots.{tables_in};
ghost use Rattle.thy_record.specs.Tables.{IsTables};
ghost use Rattle.thy_table.specs.Listing.{first_from};
ghost use Rattle.thy_computer.specs.Safe.{ceiling};
ghost use Rattle.thy_thynvm_parts.specs.Filling.{IsEmpty, next_position, filling_thynvm};
ghost use Rattle.thy_thynvm_parts.specs.Listed.{ListsUpTo, AsListed};

use crate::counts::list_counts;
use thy_block::{Block, Geometry, PAGE_BLOCKS};
use thy_control::{Control, tables_allow_listing};
use thy_record::{listed_block, listed_page, version_of};

/// A slot without a fault is listed by a controller that lists nothing: its tables, and its counts.
pub fn list_slot(geometry: &Geometry, commit: &Block, slot: &[u8], control: &mut Control)
    requires slot { length slot.now ≡ 64 * (thynvm_layouts geometry.now).slot_blocks commit.now }
    requires geometry { control.old.p ≡ geometry.now }
    requires fresh { IsEmpty control.old }
    requires fits { (thynvm_layouts geometry.now).slot_bad ceiling commit.now (blocks_of slot.now) ≡ None }
    ensures { ListsOn filling_thynvm commit.now (blocks_of slot.now) control.old control.new }
{
    let version = version_of(commit, geometry);
    list_all(slot, geometry, control);
    list_counts(slot, version, geometry, control);
    control.recall_tables();
}

/// The first position from one on that has to be filled: a block of a page that is listed.
pub fn next_fill(geometry: &Geometry, commit: &Block, slot: &[u8], from: u64) -> Option<u64>
    requires { length slot.now ≡ 64 * (thynvm_layouts geometry.now).slot_blocks commit.now }
    ensures { result ≡ next_position geometry.now (blocks_of slot.now) from }
{
    let _commit = commit;
    let _numbers = geometry.numbers();
    match next_listed(slot, (from / PAGE_BLOCKS) as usize, geometry) {
        Some(entry) => Some(from.max(PAGE_BLOCKS * entry as u64)),
        None => None,
    }
}

/// The first entry of the page table from one on that lists a page.
fn next_listed(slot: &[u8], from: usize, geometry: &Geometry) -> Option<usize>
    requires { 64 * (record_blocks geometry.now + table_blocks geometry.now) ≤ length slot.now }
    ensures { result ≡ first_from is_some from (tables_in geometry.now (blocks_of slot.now)).ptt }
{
    let pages = geometry.numbers().ptt as usize;
    for j in from..pages {
        if listed_page(slot, j, geometry).is_some() {
            return Some(j);
        }
    }
    None
}

/// Lists in a controller that lists nothing what the tables of a slot list: the blocks, and then the pages.
fn list_all(slot: &[u8], geometry: &Geometry, control: &mut Control)
    requires slot { 64 * (record_blocks geometry.now + table_blocks geometry.now) ≤ length slot.now }
    requires geometry { control.old.p ≡ geometry.now }
    requires tables { IsTables geometry.now (tables_in geometry.now (blocks_of slot.now)) }
    requires fresh { ListsUpTo 0 0 (tables_in geometry.now (blocks_of slot.now)) control.old }
    ensures { AsListed geometry.now.btt geometry.now.ptt (tables_in geometry.now (blocks_of slot.now)) control.old control.new }
{
    list_blocks(slot, geometry, control);
    list_pages(slot, geometry, control);
}

/// Lists the blocks.
fn list_blocks(slot: &[u8], geometry: &Geometry, control: &mut Control)
    requires slot { 64 * (record_blocks geometry.now + table_blocks geometry.now) ≤ length slot.now }
    requires geometry { control.old.p ≡ geometry.now }
    requires tables { IsTables geometry.now (tables_in geometry.now (blocks_of slot.now)) }
    requires fresh { ListsUpTo 0 0 (tables_in geometry.now (blocks_of slot.now)) control.old }
    ensures { AsListed geometry.now.btt 0 (tables_in geometry.now (blocks_of slot.now)) control.old control.new }
{
    let blocks = geometry.numbers().btt as usize;
    for i in 0..blocks {
        list_one_block(slot, i, geometry, control);
    }
}

/// Lists the pages.
fn list_pages(slot: &[u8], geometry: &Geometry, control: &mut Control)
    requires slot { 64 * (record_blocks geometry.now + table_blocks geometry.now) ≤ length slot.now }
    requires geometry { control.old.p ≡ geometry.now }
    requires tables { IsTables geometry.now (tables_in geometry.now (blocks_of slot.now)) }
    requires blocks { ListsUpTo geometry.now.btt 0 (tables_in geometry.now (blocks_of slot.now)) control.old }
    ensures { AsListed geometry.now.btt geometry.now.ptt (tables_in geometry.now (blocks_of slot.now)) control.old control.new }
{
    let pages = geometry.numbers().ptt as usize;
    for j in 0..pages {
        list_one_page(slot, j, geometry, control);
    }
}

/// Lists what entry `i` of the block table does.
fn list_one_block(slot: &[u8], i: usize, geometry: &Geometry, control: &mut Control)
    requires slot { 64 * (record_blocks geometry.now + table_blocks geometry.now) ≤ length slot.now }
    requires geometry { control.old.p ≡ geometry.now }
    requires tables { IsTables geometry.now (tables_in geometry.now (blocks_of slot.now)) }
    requires entry { i < geometry.now.btt }
    requires before { ListsUpTo i 0 (tables_in geometry.now (blocks_of slot.now)) control.old }
    ensures { AsListed (i + 1) 0 (tables_in geometry.now (blocks_of slot.now)) control.old control.new }
{
    tables_allow_listing();
    control.recall_tables();
    if let Some(b) = listed_block(slot, i, geometry) {
        control.list_block(i, b);
    }
}

/// Lists what entry `j` of the page table does.
fn list_one_page(slot: &[u8], j: usize, geometry: &Geometry, control: &mut Control)
    requires slot { 64 * (record_blocks geometry.now + table_blocks geometry.now) ≤ length slot.now }
    requires geometry { control.old.p ≡ geometry.now }
    requires tables { IsTables geometry.now (tables_in geometry.now (blocks_of slot.now)) }
    requires entry { j < geometry.now.ptt }
    requires before { ListsUpTo geometry.now.btt j (tables_in geometry.now (blocks_of slot.now)) control.old }
    ensures { AsListed geometry.now.btt (j + 1) (tables_in geometry.now (blocks_of slot.now)) control.old control.new }
{
    tables_allow_listing();
    control.recall_tables();
    if let Some(page) = listed_page(slot, j, geometry) {
        control.list_page(j, page);
    }
}
