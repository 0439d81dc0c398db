//! The counts.
ghost use Rattle.std.specs.Prelude.{◌≡◌, ◌<◌, ◌≤◌, ◌+◌, ◌*◌, ◌&&◌, nat_lt, min, length, replicate, slice_set, false, IfOk};
ghost use Rattle.thy_block.specs.Blocks.{overwritten};
ghost use Rattle.thy_block.specs.Device.{zero_block};
ghost use Rattle.thy_table.specs.Counts.{most, uncounted, count_at, last_at, counted, with_last, reset, is_dense, greatest_of, are_sparse, is_low};
ghost use Rattle.thy_table.specs.LastBlocks.{last_block_of};

use std::alloc::{AllocError, Global};
use std::marker::Model;
use thy_block::{BLOCK_COUNTS, Block};

/// The greatest count of a page's stores: counts stop there.
pub const MOST: u8 = 63;

/// How many stores each page received since the last seal, up to 63; how many in the epoch that this seal ended; and
/// two thresholds. Only `new` allocates.
#[derive(Drop)]
pub struct Counts {
    counts: Vec<u8>,
    lasts: Vec<u8>,
    high: u64,
    low: u64,
}

impl Model for Counts {
    ghost use Rattle.thy_table.specs.Counts.{Tally, AreTallied};

    ghost Value = { Tally };

    ghost view = { λ c. record { counts = c.counts.items; lasts = c.lasts.items; high = c.high; low = c.low } };

    ghost invariant = { λ c. AreTallied c.counts.items c.lasts.items };
}

impl Counts {
    /// No stores to any of `pages` pages, in this epoch and in the one before. A page is dense above `high` stores, and
    /// low below `low`.
    pub fn new(alloc: Global, pages: u64, high: u64, low: u64) -> Result<Counts, AllocError>
        ensures { IfOk result (λ counts. counts ≡ uncounted pages high low) }
    {
        let counts = zeros(alloc, pages)?;
        let lasts = zeros(alloc, pages)?;
        Ok(Counts {
            counts,
            lasts,
            high,
            low,
        })
    }

    /// How many pages are counted.
    pub fn pages(&self) -> u64
        ensures { result ≡ length self.now.counts }
    {
        self.counts.len() as u64
    }

    /// The stores to a page since the last seal, at most 63.
    pub fn count_of(&self, page: u64) -> u64
        requires { page < length self.now.counts }
        ensures count { result ≡ count_at self.now page }
        ensures within { result ≤ most }
    {
        self.counts[page as usize] as u64
    }

    /// How many stores a page received in the epoch that the last seal ended, at most 63.
    pub fn last(&self, page: u64) -> u64
        requires { page < length self.now.counts }
        ensures last { result ≡ last_at self.now page }
        ensures within { result ≤ most }
    {
        self.lasts[page as usize] as u64
    }

    /// Counts one store more to a page, up to 63.
    pub fn count(&mut self, page: u64)
        requires { page < length self.old.counts }
        ensures { self.new ≡ counted page self.old }
    {
        let count = self.counts[page as usize];
        self.counts[page as usize] = if count < MOST { count + 1 } else { MOST };
    }

    /// Whether a page was stored to more often than `high` since the last seal.
    pub fn is_dense(&self, page: u64) -> bool
        requires { page < length self.now.counts }
        ensures dense { result ≡ is_dense self.now page }
        ensures never { most ≤ self.now.high → result ≡ false }
    {
        self.high < self.count_of(page)
    }

    /// Whether none of the pages from one to before another was stored to more often than `high` since the last seal.
    /// This takes far less time than to ask it of each page.
    pub fn are_sparse(&self, first: u64, end: u64) -> bool
        requires order { first ≤ end }
        requires inside { end ≤ length self.now.counts }
        ensures { result ≡ are_sparse self.now first end }
    {
        u64::from(greatest(&self.counts[first as usize..end as usize])) <= self.high
    }

    /// Whether a page was stored to less often than `low`, since the last seal and in the epoch before it.
    pub fn is_low(&self, page: u64) -> bool
        requires { page < length self.now.counts }
        ensures { result ≡ is_low self.now page }
    {
        self.count_of(page) < self.low && self.last(page) < self.low
    }

    /// A seal: it keeps the counts for the epoch before, and begins again with counts of 0.
    pub fn reset(&mut self)
        ensures { self.new ≡ reset self.old }
    {
        std::mem::swap(&mut self.counts, &mut self.lasts);
        self.counts.fill(0);
    }

    /// Sets how many stores a page received in the epoch that the last seal ended, as a checkpoint has it, at most 63.
    pub fn set_last(&mut self, page: u64, count: u64)
        requires page { page < length self.old.counts }
        requires count { count ≤ most }
        ensures { self.new ≡ with_last page count self.old }
    {
        self.lasts[page as usize] = count as u8;
    }

    /// Block `k` of the counts of the epoch before: a byte a page, 64 pages a block. Past the last page it is zeros.
    pub fn last_block(&self, k: u64) -> Block
        requires { 64 * k < length self.now.counts }
        ensures { result ≡ last_block_of self.now.lasts k }
    {
        let pages = self.pages() as usize;
        let from = (BLOCK_COUNTS * k) as usize;
        let count = (pages - from).min(BLOCK_COUNTS as usize);
        over_zeros(&self.lasts[from..from + count])
    }
}

/// The greatest of some counts, 0 if there are none.
fn greatest(counts: &[u8]) -> u8
    ensures { result ≡ greatest_of 0 counts.now }
{
    let mut most = 0;
    for count in counts {
        most = most.max(*count);
    }
    most
}

/// A block that begins with these bytes, followed by zeros.
fn over_zeros(piece: &[u8]) -> Block
    requires { length piece.now ≤ 64 }
    ensures { result ≡ overwritten 0 piece.now zero_block }
{
    let mut block = Block::ZERO;
    block.put(0, piece);
    block
}

/// A list of `count` zeros.
fn zeros(alloc: Global, count: u64) -> Result<Vec<u8>, AllocError>
    ensures { IfOk result (λ zeros. zeros.items ≡ replicate count 0) }
{
    let mut zeros = Vec::with_capacity(alloc, count as usize)?;
    zeros.resize(count as usize, 0)?;
    Ok(zeros)
}
