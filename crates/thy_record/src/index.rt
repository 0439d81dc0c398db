//! Where an image has each block of memory: one list of numbers, made once from both tables of its slot.
ghost use Rattle.std.specs.Prelude.{◌≡◌, ◌+◌, ◌*◌, ◌/◌, ◌<◌, ◌≤◌, ℕ, List, [], Option, length, IfOk, IfSome};
ghost use Rattle.thy_block.specs.Geometry.{memory_blocks};
ghost use Rattle.thy_block.specs.Places.{record_blocks};
ghost use Rattle.thy_table.specs.Places.{table_blocks};
ghost use Rattle.thy_layout.specs.Files.{blocks_of, table_in};
ghost use Rattle.thy_record.specs.Images.{memory_numbers};
ghost use Rattle.thy_record.specs.Index.{index_by, ListsOnce, with_block, HasPage, HasPageOf};
ghost use Rattle.thy_record.specs.Slots.{tables_in};
ghost use Rattle.thy_record.specs.Tables.{IsTables};

use crate::slot::{btt_in, ptt_in};
use std::alloc::{AllocError, Global};
use thy_block::{Geometry, PAGE_BLOCKS};
use thy_layout::entry;
use thy_table::{Place, home, number};

// All of memory at home.
fn homes(alloc: Global, geometry: &Geometry) -> Result<Vec<u64>, AllocError>
    ensures { IfOk result (λ v. v.items ≡ index_by geometry.now [] []) }
{
    let blocks = geometry.memory_blocks();
    let mut index = Vec::with_capacity(alloc, blocks as usize)?;
    for b in 0..blocks {
        index.push(home(geometry, b))?;
    }
    Ok(index)
}

// The blocks of a page in the alternate page of an entry.
fn list_page(index: &mut [u64], entry: usize, page: u64, geometry: &Geometry)
    requires page { page < geometry.now.pages }
    requires entry { entry < geometry.now.ptt }
    requires long { length index.old ≡ memory_blocks geometry.now }
    ensures long { length index.new ≡ length index.old }
    ensures page { HasPage geometry.now entry page index.old index.new }
{
    for block in 0..PAGE_BLOCKS {
        let at = (PAGE_BLOCKS * page + block) as usize;
        index[at] = number(geometry, Place::AlternatePage { entry, block });
    }
}

// Those of the page that the entry lists, if it lists one.
fn list_page_of(index: &mut [u64], entry: usize, page: Option<u64>, geometry: &Geometry)
    requires page { IfSome page (λ n. n < geometry.now.pages) }
    requires entry { entry < geometry.now.ptt }
    requires long { length index.old ≡ memory_blocks geometry.now }
    ensures long { length index.new ≡ length index.old }
    ensures page { HasPageOf geometry.now entry page index.old index.new }
{
    match page {
        Some(page) => list_page(index, entry, page, geometry),
        None => {}
    }
}

// The pages that the page table lists.
fn list_pages(index: &mut [u64], ptt: &[u8], geometry: &Geometry)
    requires table { ListsOnce geometry.now.pages (table_in ptt.now) }
    requires entries { length ptt.now / 8 ≡ geometry.now.ptt }
    requires homes { index.old ≡ index_by geometry.now [] [] }
    ensures { index.new ≡ index_by geometry.now [] (table_in ptt.now) }
{
    for j in 0..ptt.len() / 8 {
        list_page_of(index, j, entry(ptt, j), geometry);
    }
}

// The block that an entry lists, if it lists one, in its alternate block.
fn list_block(index: &mut [u64], entry: usize, block: Option<u64>, geometry: &Geometry)
    requires block { IfSome block (λ n. n < memory_blocks geometry.now) }
    requires entry { entry < geometry.now.btt }
    requires long { length index.old ≡ memory_blocks geometry.now }
    ensures { index.new ≡ with_block geometry.now entry block index.old }
{
    match block {
        Some(block) => {
            index[block as usize] = number(geometry, Place::AlternateBlock { entry });
        }
        None => {}
    }
}

// The blocks that the block table lists, over any page table.
fn list_blocks(index: &mut [u64], btt: &[u8], geometry: &Geometry)
    requires table { ListsOnce (memory_blocks geometry.now) (table_in btt.now) }
    requires entries { length btt.now / 8 ≡ geometry.now.btt }
    requires long { length index.old ≡ memory_blocks geometry.now }
    ensures { (ptt : List (Option ℕ)) → index.old ≡ index_by geometry.now [] ptt
        → index.new ≡ index_by geometry.now (table_in btt.now) ptt }
{
    for i in 0..btt.len() / 8 {
        list_block(index, i, entry(btt, i), geometry);
    }
}

/// The numbers of the blocks in which the tables of a slot have memory's blocks, in the order of these.
pub(crate) fn places(
    alloc: Global,
    slot: &[u8],
    geometry: &Geometry,
) -> Result<Vec<u64>, AllocError>
    requires slot { 64 * (record_blocks geometry.now + table_blocks geometry.now) ≤ length slot.now }
    requires tables { IsTables geometry.now (tables_in geometry.now (blocks_of slot.now)) }
    ensures { IfOk result (λ v. v.items ≡ memory_numbers geometry.now (tables_in geometry.now (blocks_of slot.now))) }
{
    let mut index = homes(alloc, geometry)?;
    list_pages(index.as_mut_slice(), ptt_in(slot, geometry), geometry);
    list_blocks(index.as_mut_slice(), btt_in(slot, geometry), geometry);
    Ok(index)
}
