//! What rows of calls share: the least memory with a block table of any size, and blocks of one letter.
ghost use Rattle.std.specs.Prelude.{◌≡◌};

use thy_base::{Block, Parameters};
use thy_test_support::LEAST;

/// The least memory, with a block table of `btt` entries. A page is stored to densely by more than 22 stores of an
/// epoch, and no longer by fewer than 16. A slot has 7 blocks, and one for each 8 entries of the block table.
pub(crate) fn least(btt: u64) -> Parameters
    ensures { result.pages ≡ 8 }
{
    Parameters { btt, ..LEAST }
}

/// A block of one letter.
pub(crate) fn of(letter: u8) -> Block {
    Block([letter; 64])
}
