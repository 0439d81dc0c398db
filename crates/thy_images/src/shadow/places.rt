//! The numbers of an image's blocks, and its header.
ghost use Rattle.std.specs.Prelude.{◌≡◌, ◌<◌};
ghost use Rattle.thy_block.specs.Geometry.{IsInRange};
ghost use Rattle.thy_layout.specs.Header.{header_of};
ghost use Rattle.thy_images.specs.ShadowPlaces.{scheme_number, map_blocks as blocks_of_map, slot_blocks as blocks_of_slot, slot_place, pool_pages as pages_of_pool, pool_place, image_blocks};

use thy_block::{Block, Geometry};
use thy_layout::header_block_of;

/// The number of shadow paging in the header of an image.
pub const SCHEME: u64 = 2;

/// The header of shadow paging's images of this geometry.
pub fn header_block(geometry: &Geometry) -> Block
    ensures { result ≡ header_of scheme_number geometry.now }
{
    header_block_of(SCHEME, geometry)
}

/// How many blocks an image of shadow paging has.
pub fn blocks(geometry: &Geometry) -> u64
    ensures blocks { result ≡ image_blocks geometry.now }
    ensures in_range { IsInRange geometry.now }
{
    2 + 2 * slot_blocks(geometry) + 64 * pool_pages(geometry)
}

/// How many blocks a map has, eight pages a block.
pub fn map_blocks(geometry: &Geometry) -> u64
    ensures blocks { result ≡ blocks_of_map geometry.now }
    ensures in_range { IsInRange geometry.now }
{
    (geometry.numbers().pages + 7) / 8
}

/// How many blocks each of the two slots has: the processor's record and the map.
pub fn slot_blocks(geometry: &Geometry) -> u64
    ensures blocks { result ≡ blocks_of_slot geometry.now }
    ensures in_range { IsInRange geometry.now }
{
    geometry.record_blocks() + map_blocks(geometry)
}

/// How many pages the pool has: memory's, and one for each frame.
pub fn pool_pages(geometry: &Geometry) -> u64
    ensures pages { result ≡ pages_of_pool geometry.now }
    ensures in_range { IsInRange geometry.now }
{
    let p = geometry.numbers();
    p.pages + p.ptt
}

/// The place, in blocks of the image, of the first block of slot `s`, 0 or 1.
pub fn slot(geometry: &Geometry, s: u64) -> u64
    requires { s < 2 }
    ensures place { result ≡ slot_place geometry.now s }
    ensures in_range { IsInRange geometry.now }
{
    2 + s * slot_blocks(geometry)
}

/// The place, in blocks of the image, of block `c` of page `q` of the pool.
pub fn pool(geometry: &Geometry, q: u64, c: u64) -> u64
    requires page { q < pages_of_pool geometry.now }
    requires block { c < 64 }
    ensures place { result ≡ pool_place geometry.now q c }
    ensures in_range { IsInRange geometry.now }
{
    2 + 2 * slot_blocks(geometry) + (64 * q + c)
}
