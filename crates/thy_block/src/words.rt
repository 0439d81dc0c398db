//! Blocks as eight numbers of 64 bits, the lowest byte of each first.
ghost use Rattle.std.specs.Prelude.{◌≡◌, ◌<◌};
ghost use Rattle.thy_block.specs.Words.{word_of, block_of};

use crate::{BLOCK_SIZE, Block};
use byteorder::{ByteOrder, LittleEndian};

/// Word `i`, 0 to 7, of a block: its eight bytes from `8 * i` on as a number, lowest byte first.
#[tactic(auto, unfolding(crate::specs::Words::word_of))]
pub fn word(block: &Block, i: u64) -> u64
    requires { i < 8 }
    ensures { result ≡ word_of block.now i }
{
    LittleEndian::read_u64(&block.0[8 * i as usize..])
}

/// The block whose eight words these are, each with its lowest byte first.
#[tactic(auto, unfolding(crate::specs::Words::block_of, crate::specs::LittleEndian::number_bytes))]
pub fn block_with(words: &[u64; 8]) -> Block
    ensures { result ≡ block_of words.now }
{
    let mut bytes = [0; BLOCK_SIZE];
    LittleEndian::write_u64_into(words, &mut bytes);
    Block(bytes)
}
