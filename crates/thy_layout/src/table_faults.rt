//! The faults of a table's entries, over its bytes, eight an entry.
ghost use Rattle.std.specs.Prelude.{◌≡◌, ◌+◌, ◌*◌, ◌/◌, ◌<◌, ◌≤◌, length, IfSome};
ghost use Rattle.thy_layout.specs.Files.{table_in};
ghost use Rattle.thy_layout.specs.Entries.{entry_at, entry_of as entry_that_lists};
ghost use Rattle.thy_layout.specs.EntryFaults.{first_clash, index_rule, twin_of, twice_rule};

use crate::bad_image::BadImage;
use crate::tables::entry_from_word;
use byteorder::{ByteOrder, LittleEndian};

/// What entry `i` of a table lists, None if it is empty. The bytes have eight for each entry.
pub fn entry(table: &[u8], i: usize) -> Option<u64>
    requires { i < length table.now / 8 }
    ensures { result ≡ entry_at (table_in table.now) i }
{
    entry_from_word(LittleEndian::read_u64(&table[8 * i..]))
}

/// The index of the first entry of a table that lists a number; None if none lists it.
pub fn entry_of(table: &[u8], number: u64) -> Option<usize>
    ensures { result ≡ entry_that_lists (table_in table.now) number }
{
    for i in 0..table.len() / 8 {
        if let Some(listed) = entry(table, i)
            && listed == number
        {
            return Some(i);
        }
    }
    None
}

/// The fault `TableIndex` of the first entry of a table that lists a number which is not below the limit. `before`, at most 4096, entries
/// are counted before the table's.
pub fn index_fault(table: &[u8], before: u64, limit: u64) -> Option<BadImage>
    requires { before ≤ 4096 }
    ensures { result ≡ first_clash (index_rule before limit) 0 (table_in table.now) }
{
    for i in 0..table.len() / 8 {
        if let Some(number) = entry(table, i)
            && number >= limit
        {
            return Some(BadImage::TableIndex(before + i as u64));
        }
    }
    None
}

// The entry before entry k that lists what that does.
fn twin(table: &[u8], k: usize) -> Option<usize>
    requires { k < length table.now / 8 }
    ensures twin { result ≡ twin_of (table_in table.now) k (entry_at (table_in table.now) k) }
    ensures before { IfSome result (λ i. i < k) }
{
    match entry(table, k) {
        None => None,
        Some(number) => entry_of(&table[..8 * k], number),
    }
}

/// The fault `TableTwice` of the first entry of a table that lists what an earlier one does, with both. `before`, at most 4096, entries are
/// counted before the table's.
pub fn twice_fault(table: &[u8], before: u64) -> Option<BadImage>
    requires { before ≤ 4096 }
    ensures { result ≡ first_clash (twice_rule before (table_in table.now)) 0 (table_in table.now) }
{
    for k in 0..table.len() / 8 {
        if let Some(i) = twin(table, k) {
            return Some(BadImage::TableTwice(before + i as u64, before + k as u64));
        }
    }
    None
}
