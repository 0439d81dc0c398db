//! The blocks of the tables, eight entries each.
ghost use Rattle.std.specs.Prelude.{◌≡◌, ◌^◌, ◌<◌, map};
ghost use Rattle.thy_layout.specs.Entries.{entry_word as word_of_entry, entry_from, HaveWords};
ghost use Rattle.thy_block.specs.Words.{block_of};

use thy_block::{Block, block_with};

// An entry as a word: 0 if it is empty, else one more than its number.
fn entry_word(entry: Option<u64>) -> u64
    requires { word_of_entry entry < 2 ^ 64 }
    ensures { result ≡ word_of_entry entry }
{
    match entry {
        None => 0,
        Some(number) => number + 1,
    }
}

/// The block of a table with these eight entries: of each the number of the block (in the block table)
/// or page (in the page table) that it lists, below `2^64 - 1`, or none.
pub fn table_block(entries: &[Option<u64>; 8]) -> Block
    requires { HaveWords entries.now }
    ensures { result ≡ block_of (map word_of_entry entries.now) }
{
    let mut words = [0; 8];
    for i in 0..8 {
        words[i] = entry_word(entries[i]);
    }
    block_with(&words)
}

// The entry of a word.
pub(crate) fn entry_from_word(word: u64) -> Option<u64>
    ensures { result ≡ entry_from word }
{
    match word {
        0 => None,
        listed => Some(listed - 1),
    }
}
