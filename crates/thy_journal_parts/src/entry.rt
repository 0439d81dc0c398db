//! Entries of the table.
ghost use Rattle.std.specs.Prelude.{◌≡◌};
ghost use Rattle.thy_journal_parts.specs.Keys.{listing_of};

use thy_table::{Keyed, Rule, Test};

/// A live entry of the table: it lists a block of memory, which the entry's buffer holds.
#[derive(Clone, Copy, Debug, PartialEq, Eq)]
pub struct Listed {
    /// The number of the block that the entry lists.
    pub block: u64,
}

impl Listed {
    /// An entry that lists this block.
    pub fn new(block: u64) -> Listed
        ensures { result ≡ listing_of block }
    {
        Listed { block }
    }
}

impl Keyed for Listed {
    ghost key = { λ e. e.block };

    fn key(&self) -> u64 {
        self.block
    }
}

/// Frees every entry.
#[derive(Drop)]
pub(crate) struct Release;

impl Rule<Listed> for Release {
    ghost use Rattle.thy_journal_parts.specs.Keys.{freed, freed-block};

    ghost gives = { λ rule e. freed e };

    fn apply(&self, _entry: &Listed) -> Option<Listed> {
        None
    }

    ghost keeps_key = { λ rule e f h. freed-block e f h };
}

/// The test that every live entry passes.
#[derive(Drop)]
pub(crate) struct Live;

impl Test<Listed> for Live {
    ghost use Rattle.thy_journal_parts.specs.Items.{is_live};

    ghost holds = { λ test e. is_live e };

    fn test(&self, _entry: &Listed) -> bool {
        true
    }
}
