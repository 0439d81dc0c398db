//! The tables of the checkpoint under way, and the counts of the epoch before, as blocks.
ghost use Rattle.std.specs.Prelude.{◌≡◌, ℕ, None, ◌+◌, ◌-◌, ◌<◌, ◌≤◌, ◌++◌, length, map, option_and_then};
ghost use Rattle.thy_record.specs.TableBlocks.{table_block_of};
ghost use Rattle.thy_layout.specs.Entries.{entry_at as listed_at};
ghost use Rattle.thy_table.specs.LastBlocks.{last_block_of};
ghost use Rattle.thy_table.specs.Listing.{entry_at};
ghost use Rattle.thy_table.specs.Places.{table_blocks, count_blocks};
ghost use Rattle.thy_control.specs.TableBlocks.{block_due, page_due};

use super::Control;
use thy_block::Block;
use thy_layout::table_block;
use thy_table::{Btt, BttEntry, Ptt, PttEntry, Site, Version, table_blocks as blocks_of_tables};

/// The block that the checkpoint under way lists at an entry.
fn block_listed_by(entry: Option<BttEntry>) -> Option<u64>
    ensures { result ≡ option_and_then block_due entry }
{
    match entry {
        Some(entry) => match entry.v1 {
            Version::Out => None,
            Version::Alt => Some(entry.block),
        },
        None => None,
    }
}

/// The page that the checkpoint under way lists at an entry.
fn page_listed_by(entry: Option<PttEntry>) -> Option<u64>
    ensures { result ≡ option_and_then page_due entry }
{
    match entry {
        Some(entry) => match entry.target {
            Site::AtHome => None,
            Site::AtAlternate => Some(entry.page),
        },
        None => None,
    }
}

/// What the checkpoint under way lists at an entry of both tables: the block table's entries, and after them the page
/// table's.
fn listed_by(btt: &Btt, ptt: &Ptt, n: usize) -> Option<u64>
    requires { n < length btt.now.entries + length ptt.now.entries }
    ensures { result ≡ listed_at (map (option_and_then block_due) btt.now.entries ++ map (option_and_then page_due) ptt.now.entries) n }
{
    let blocks = btt.size();
    if n < blocks {
        block_listed_by(btt.entry(n))
    } else {
        page_listed_by(ptt.entry(n - blocks))
    }
}

/// How many of the eight entries from this place on can list something: each one after them is a free entry of the block table.
fn live_among(btt: &Btt, first: usize) -> usize
    ensures few { result ≤ 8 }
    ensures free { (i : ℕ) → result ≤ i → i < 8 → (first + i < length btt.now.entries) × (entry_at btt.now (first + i) ≡ None) }
{
    let left = btt.size().saturating_sub(first);
    let live = btt.live_end().saturating_sub(first);
    if left < 8 {
        8
    } else if live < 8 {
        live
    } else {
        8
    }
}

impl Control {
    ghost use Rattle.thy_control.specs.CheckpointTables.{tables1};
    ghost use Rattle.thy_control.specs.TableBlocks.{entries_of};

    /// Block `k` of what the slot of the checkpoint under way has after the processor's record: block table, page
    /// table, and counts of the epoch before. A block has eight entries of the tables, or the counts of 64 pages.
    pub fn table(&self, k: u64) -> Block
        requires { k < table_blocks self.now.p + count_blocks self.now.p }
        ensures tables { k < table_blocks self.now.p → result ≡ table_block_of (tables1 self.now) k }
        ensures counts { let first = table_blocks self.now.p in
            first ≤ k → result ≡ last_block_of self.now.counts.lasts (k - first) }
    {
        let tables = self.table_blocks();
        if k < tables {
            self.entries(k)
        } else {
            self.counts.last_block(k - tables)
        }
    }

    /// How many blocks the tables have.
    fn table_blocks(&self) -> u64
        ensures { result ≡ table_blocks self.now.p }
    {
        blocks_of_tables(&self.geometry)
    }

    /// Block `k` of the tables.
    fn entries(&self, k: u64) -> Block
        requires { k < table_blocks self.now.p }
        ensures { result ≡ table_block_of (tables1 self.now) k }
    {
        self.recall_tables();
        table_block(&self.listed_in(k))
    }

    /// The eight entries of a block of the tables. Most blocks are of free entries alone.
    fn listed_in(&self, k: u64) -> [Option<u64>; 8]
        requires { k < table_blocks self.now.p }
        ensures { result ≡ entries_of (tables1 self.now) k }
    {
        self.recall_tables();
        let mut entries = [None; 8];
        let first = 8 * k as usize;
        let live = live_among(&self.btt, first);
        for i in 0..live {
            entries[i] = listed_by(&self.btt, &self.ptt, first + i);
        }
        entries
    }
}
