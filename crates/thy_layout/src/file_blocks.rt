//! Blocks as parts of the bytes of a file.
ghost use Rattle.std.specs.Prelude.{◌≡◌, ◌/◌, ◌<◌, length};
ghost use Rattle.thy_layout.specs.Files.{block_in as block_of_bytes};

use thy_block::{BLOCK_SIZE, Block};

/// Block `k` of some bytes: the 64 bytes from `64 * k` on, none past the last.
pub fn block_in(bytes: &[u8], k: usize) -> Block
    requires { k < length bytes.now / 64 }
    ensures { result ≡ block_of_bytes bytes.now k }
{
    let mut block = [0; BLOCK_SIZE];
    block.copy_from_slice(&bytes[BLOCK_SIZE * k..BLOCK_SIZE * k + BLOCK_SIZE]);
    Block(block)
}
