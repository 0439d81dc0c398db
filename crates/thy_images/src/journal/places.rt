//! The numbers of an image's blocks, and its header.
ghost use Rattle.std.specs.Prelude.{◌≡◌, ◌<◌};
ghost use Rattle.thy_block.specs.Geometry.{IsInRange, memory_blocks};
ghost use Rattle.thy_layout.specs.Header.{header_of};
ghost use Rattle.thy_images.specs.JournalPlaces.{scheme_number, slot_blocks as blocks_of_slot, slot_place, image_blocks, home_place, journal_place};

use thy_block::{Block, Geometry};
use thy_layout::header_block_of;

/// The number of the redo journal in the header of an image.
pub const SCHEME: u64 = 1;

/// The header of the redo journal's images of this geometry.
pub fn header_block(geometry: &Geometry) -> Block
    ensures { result ≡ header_of scheme_number geometry.now }
{
    header_block_of(SCHEME, geometry)
}

/// How many blocks an image of the redo journal has.
pub fn blocks(geometry: &Geometry) -> u64
    ensures blocks { result ≡ image_blocks geometry.now }
    ensures in_range { IsInRange geometry.now }
{
    2 + 2 * slot_blocks(geometry) + geometry.memory_blocks() + 2 * geometry.numbers().btt
}

/// How many blocks each of the two slots has: the processor's record and the table.
pub fn slot_blocks(geometry: &Geometry) -> u64
    ensures blocks { result ≡ blocks_of_slot geometry.now }
    ensures in_range { IsInRange geometry.now }
{
    geometry.record_blocks() + geometry.numbers().btt / 8
}

/// The place, in blocks of the image, of the first block of slot `s`, 0 or 1.
pub fn slot(geometry: &Geometry, s: u64) -> u64
    requires { s < 2 }
    ensures place { result ≡ slot_place geometry.now s }
    ensures in_range { IsInRange geometry.now }
{
    2 + s * slot_blocks(geometry)
}

/// The place, in blocks of the image, of the home of block `b` of memory.
pub fn home(geometry: &Geometry, b: u64) -> u64
    requires { b < memory_blocks geometry.now }
    ensures place { result ≡ home_place geometry.now b }
    ensures in_range { IsInRange geometry.now }
{
    2 + 2 * slot_blocks(geometry) + b
}

/// The block that entry `i` of the table has in the journal of slot `s`, 0 or 1.
pub fn journal(geometry: &Geometry, s: u64, i: usize) -> u64
    requires slot { s < 2 }
    requires entry { i < geometry.now.btt }
    ensures place { result ≡ journal_place geometry.now s i }
    ensures in_range { IsInRange geometry.now }
{
    let btt = geometry.numbers().btt;
    2 + 2 * slot_blocks(geometry) + geometry.memory_blocks() + s * btt + i as u64
}
