//! The numbers of the places' blocks, and the slots of an image.
ghost use Rattle.std.specs.Prelude.{◌≡◌, ◌<◌};
ghost use Rattle.thy_block.specs.Geometry.{IsInRange, memory_blocks};
ghost use Rattle.thy_table.specs.declared.place.Place.TheVariants.{Home as AtHome, AlternateBlock as AtAlternateBlock, AlternatePage as AtAlternatePage};
ghost use Rattle.thy_table.specs.Places.{table_blocks as blocks_of_tables, count_blocks as blocks_of_counts, slot_blocks_one as blocks_of_slot_one, slot_blocks as blocks_of_slot, slot_place_one, slot_place, first_home as first_of_homes, blocks_one as image_blocks_one, image_blocks, number_of, IsPlace};

use crate::place::Place;
use thy_block::{BLOCK_COUNTS, Geometry, HART_BLOCKS, PAGE_BLOCKS};

/// How many blocks an image of the NVM has.
pub fn blocks(geometry: &Geometry) -> u64
    ensures blocks { result ≡ image_blocks geometry.now }
    ensures in_range { IsInRange geometry.now }
{
    blocks_one(geometry) + 2 * slot_blocks(geometry)
}

/// How many blocks an image of version 1 has. The slots of version 2 come after them.
pub fn blocks_one(geometry: &Geometry) -> u64
    ensures blocks { result ≡ image_blocks_one geometry.now }
    ensures in_range { IsInRange geometry.now }
{
    let p = geometry.numbers();
    first_home(geometry) + PAGE_BLOCKS * p.pages + p.btt + PAGE_BLOCKS * p.ptt
}

/// How many blocks both tables have, eight entries a block.
pub fn table_blocks(geometry: &Geometry) -> u64
    ensures blocks { result ≡ blocks_of_tables geometry.now }
    ensures in_range { IsInRange geometry.now }
{
    let p = geometry.numbers();
    p.btt / 8 + p.ptt / 8
}

/// How many blocks the counts of pages have, 64 pages a block.
pub fn count_blocks(geometry: &Geometry) -> u64
    ensures blocks { result ≡ blocks_of_counts geometry.now }
    ensures in_range { IsInRange geometry.now }
{
    geometry.numbers().pages.div_ceil(BLOCK_COUNTS)
}

/// How many blocks each of the two slots of version 1 has: the record of one hart, whatever the harts, and both tables.
pub fn slot_blocks_one(geometry: &Geometry) -> u64
    ensures blocks { result ≡ blocks_of_slot_one geometry.now }
    ensures in_range { IsInRange geometry.now }
{
    HART_BLOCKS + table_blocks(geometry)
}

/// How many blocks each of the two slots of version 2 has: the processor's record, both tables, and the counts. A run's
/// own checkpoints are of this version.
pub fn slot_blocks(geometry: &Geometry) -> u64
    ensures blocks { result ≡ blocks_of_slot geometry.now }
    ensures in_range { IsInRange geometry.now }
{
    geometry.record_blocks() + table_blocks(geometry) + count_blocks(geometry)
}

/// The first block of slot `s` of version 1, 0 or 1.
pub fn slot_one(geometry: &Geometry, s: u64) -> u64
    requires { s < 2 }
    ensures place { result ≡ slot_place_one geometry.now s }
    ensures in_range { IsInRange geometry.now }
{
    2 + s * slot_blocks_one(geometry)
}

/// The first block of slot `s` of version 2, 0 or 1.
pub fn slot(geometry: &Geometry, s: u64) -> u64
    requires { s < 2 }
    ensures place { result ≡ slot_place geometry.now s }
    ensures in_range { IsInRange geometry.now }
{
    blocks_one(geometry) + s * slot_blocks(geometry)
}

// The first block of the homes of memory's blocks.
fn first_home(geometry: &Geometry) -> u64
    ensures first { result ≡ first_of_homes geometry.now }
    ensures in_range { IsInRange geometry.now }
{
    2 + 2 * slot_blocks_one(geometry)
}

/// The place in the NVM of block `b` of memory, if no table lists it.
pub fn home(geometry: &Geometry, b: u64) -> u64
    requires { b < memory_blocks geometry.now }
    ensures place { result ≡ number_of geometry.now (AtHome b) }
    ensures in_range { IsInRange geometry.now }
{
    first_home(geometry) + b
}

// The block of the NVM that entry `i` of the block table owns.
fn alternate_block(geometry: &Geometry, i: usize) -> u64
    requires { i < geometry.now.btt }
    ensures place { result ≡ number_of geometry.now (AtAlternateBlock i) }
    ensures in_range { IsInRange geometry.now }
{
    first_home(geometry) + geometry.memory_blocks() + i as u64
}

// Block `k` of the page of the NVM that entry `j` of the page table owns.
fn alternate_page_block(geometry: &Geometry, j: usize, k: u64) -> u64
    requires entry { j < geometry.now.ptt }
    requires block { k < 64 }
    ensures place { result ≡ number_of geometry.now (AtAlternatePage j k) }
    ensures in_range { IsInRange geometry.now }
{
    let p = geometry.numbers();
    first_home(geometry) + PAGE_BLOCKS * p.pages + p.btt + PAGE_BLOCKS * j as u64 + k
}

/// The number of a place's block in its device.
pub fn number(geometry: &Geometry, place: Place) -> u64
    requires { IsPlace geometry.now place }
    ensures place { result ≡ number_of geometry.now place }
    ensures in_range { IsInRange geometry.now }
{
    match place {
        Place::Home { block } => home(geometry, block),
        Place::AlternateBlock { entry } => alternate_block(geometry, entry),
        Place::AlternatePage { entry, block } => alternate_page_block(geometry, entry, block),
        Place::Buffer { entry } => geometry.buffer(entry),
        Place::Frame { entry, block } => geometry.frame(entry, block),
    }
}
