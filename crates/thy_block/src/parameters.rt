//! The numbers that a machine is made by.

/// The name of a scheme of checkpoints. With the sizes it decides what an image of the NVM means.
#[derive(Clone, Copy, Debug, PartialEq, Eq)]
pub enum SchemeName {
    /// Block remapping for sparse writes and page writeback for dense ones, as in ThyNVM.
    Thynvm,
    /// A redo journal: what an epoch has stored is written to a journal, and home once it is committed.
    Journal,
    /// Shadow paging: a page that an epoch has stored to is written to another place, which a new map names.
    Shadow,
}

/// The numbers that a machine is made by. `IsInRange` of specs/Geometry.antt says which are in range.
#[derive(Clone, Copy, Debug, PartialEq, Eq)]
pub struct Parameters {
    /// The first address of program memory, in bytes: a multiple of 4096 below `2^62`.
    pub base: u64,
    /// Memory in pages of 4096 bytes: 8 to 65536.
    pub pages: u64,
    /// The pages at the end of memory that hold the console's bytes: 1 to 16, below `pages`.
    pub console: u64,
    /// The instructions of an epoch: 1 to 1,000,000.
    pub epoch: u64,
    /// Entries of the block translation table: 8 to 4096, a multiple of 8.
    pub btt: u64,
    /// Entries of the page translation table: 8 to 512, a multiple of 8.
    pub ptt: u64,
    /// Sets of the cache: a power of two, 1 to 64.
    pub sets: u64,
    /// Ways of each set: 1 to 8.
    pub ways: u64,
    /// Writes that the NVM's queue holds: 1 to 64.
    pub nvmq: u64,
    /// Writes that the DRAM's queue holds: 1 to 64.
    pub dramq: u64,
    /// The store count above which a page is promoted: at most 63.
    pub high: u64,
    /// The store count below which a page leaves: at most `high`.
    pub low: u64,
    /// The seed of the schedule. 0 gives the actors in turn.
    pub mix: u64,
    /// The cycles (or, for the plain machine, instructions) after which the run stops: 1 to `10^12`.
    pub limit: u64,
    /// The scheme of checkpoints.
    pub scheme: SchemeName,
    /// The harts: 1 or 2.
    pub harts: u64,
}
