//! What a cache holds of a block.

use thy_block::Block;

/// A block that a cache holds.
#[derive(Clone, Copy, Debug, PartialEq, Eq)]
pub struct Line {
    /// The number of the block of memory that the line is of.
    pub at: u64,
    /// The block, as the hart sees it.
    pub block: Block,
    /// The line was written to, and its store does not have it yet.
    pub dirty: bool,
}

/// Where a cache has the line of a block.
#[derive(Clone, Copy, Debug, PartialEq, Eq)]
pub struct LineLocation {
    /// The number of the line's set in the cache.
    pub set: usize,
    /// The number of the line's way in its set.
    pub way: usize,
}

/// What has to happen before a block can be filled into its set.
#[derive(Clone, Copy, Debug, PartialEq, Eq)]
pub enum Victim {
    /// Nothing: a way is empty, or the line to be replaced is clean.
    Room,
    /// The line of this block has to be stored.
    Dirty(u64),
}

/// How one step of a flush ended.
#[derive(Clone, Copy, Debug, PartialEq, Eq)]
pub enum Flushed {
    /// No line is dirty.
    Clean,
    /// A dirty line was stored.
    Line,
    /// A copy came first, and no line was stored.
    CopyFirst,
}
