//! The sizes of a page, and the page of a block.
ghost use Rattle.std.specs.Prelude.{◌≡◌};
ghost use Rattle.thy_block.specs.Store.{page_of};

/// How many blocks a page has.
pub const PAGE_BLOCKS: u64 = 64;

/// How many bytes a page has.
pub const PAGE_SIZE: u64 = 4096;

/// How many counts of stores a block of a slot has: a byte for each page.
pub const BLOCK_COUNTS: u64 = 64;

/// The page of block `b` of memory.
pub fn page_of(b: u64) -> u64
    ensures { result ≡ page_of b }
{
    b / PAGE_BLOCKS
}
