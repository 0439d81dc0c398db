//! Drawn blocks, and lists of blocks.
ghost use Rattle.std.specs.Prelude.{◌≡◌, length};
ghost use Rattle.thy_table.specs.Places.{image_blocks};

use std::alloc::Global;
use std::process::Abort;
use thy_base::{Block, Geometry, Lcg};
use thy_table::blocks;
use thy_test_support::drawn;

/// An image of drawn blocks.
pub(crate) fn drawn_image(
    rt: &impl Abort,
    alloc: Global,
    geometry: &Geometry,
    lcg: &mut Lcg,
) -> Vec<Block>
    ensures { length result.items ≡ image_blocks geometry.now }
{
    let mut image = vec![in alloc; Block::ZERO; blocks(geometry) as usize].expect(rt, "memory");
    for block in image.iter_mut() {
        *block = drawn(lcg);
    }
    image
}

/// Block `b` of a list.
pub(crate) fn block_in(rt: &impl Abort, blocks: &[Block], b: u64) -> Block {
    match blocks.get(b as usize) {
        Some(block) => *block,
        None => panic!(rt; "no block"),
    }
}
