//! A block: the 64 bytes that a device reads and writes at once.
ghost use Rattle.std.specs.Prelude.{◌≡◌, ◌+◌, ◌≤◌, length};
ghost use Rattle.thy_block.specs.Blocks.{block_bytes, overwritten};

use crate::bytes::put_in;

/// How many bytes a block has.
pub const BLOCK_SIZE: usize = 64;

/// The unit of both devices: eight aligned words of 8 bytes. A power cut leaves each word whole, and a block of some
/// devices only (`Nvm`).
#[derive(Clone, Copy, Debug, PartialEq, Eq)]
pub struct Block(pub [u8; 64]);

impl Block {
    /// The block whose 64 bytes are all 0, as a device holds it before the first write.
    pub const ZERO: Block = Block([0; 64]);

    /// All 64 bytes of the block, lowest address first.
    pub fn bytes(&self) -> &[u8]
        ensures bytes { result.now ≡ block_bytes self.now }
        ensures len { length result.now ≡ 64 }
    {
        &self.0
    }

    /// Writes a piece over the block's bytes from index `at` on. The piece ends at byte 64 or before.
    pub fn put(&mut self, at: usize, piece: &[u8])
        requires { at + length piece.now ≤ 64 }
        ensures { self.new ≡ overwritten at piece.now self.old }
    {
        put_in(&mut self.0, at, piece);
    }
}
