//! What a run begins with that resumes from a saved image.
ghost use Rattle.std.specs.Prelude.{◌≡◌, IfOk};
ghost use Rattle.thy_block.specs.Bytes.{bytes_of};
ghost use Rattle.thy_layout.specs.Files.{blocks_of};
ghost use Rattle.thy_files.specs.Restoring.{IsFoundAt, IsRestored};

use std::alloc::{AllocError, Global};
use thy_base::{BLOCK_SIZE, Block, Bytes, Geometry, Mark};
use thy_layout::{Start, block_in};
use thy_outcome::state;

/// What a run begins with: a start, and the first blocks of its device.
#[derive(Drop)]
pub struct Beginning {
    pub start: Start,
    pub blocks: Vec<Block>,
}

/// The whole blocks of bytes.
fn whole_blocks(alloc: Global, bytes: &[u8]) -> Result<Vec<Block>, AllocError>
    ensures { IfOk result (λ v. v.items ≡ blocks_of bytes.now) }
{
    let count = bytes.len() / BLOCK_SIZE;
    let mut blocks = Vec::with_capacity(alloc, count)?;
    for k in 0..count {
        blocks.push(block_in(bytes, k))?;
    }
    Ok(blocks)
}

/// What a run begins with that resumes from the checkpoint in the bytes of an image: its state, with this input, and
/// the image's blocks. A `check` of these bytes has found the checkpoint of this epoch, with epochs and counts below
/// `2^62`. Fails if memory runs out.
pub fn restore(
    alloc: Global,
    bytes: &[u8],
    geometry: &Geometry,
    epoch: u64,
    input: Bytes,
) -> Result<Beginning, AllocError>
    requires { IsFoundAt geometry.now bytes.now epoch }
    ensures { IfOk result (λ b. IsRestored geometry.now bytes.now (bytes_of input) epoch b) }
{
    let state = state(alloc, bytes, geometry)?;
    let blocks = whole_blocks(alloc, bytes)?;
    let kept = Some(Mark {
        epoch,
        count: state.count,
    });
    Ok(Beginning {
        start: Start { state, kept, input },
        blocks,
    })
}
