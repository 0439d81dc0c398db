//! The places of both devices.

/// The place of a block of memory: in the NVM (the first three) or in the DRAM. `number` gives the number of its
/// block in that device. A block is one of memory, in blocks of 64 bytes from its start on, or,
/// if given with an entry of the page table, one of a page's 64. An entry is one of the block table or of the page
/// table.
#[derive(Clone, Copy, Debug, PartialEq, Eq)]
pub enum Place {
    /// The place of a block of memory that no table lists.
    Home { block: u64 },
    /// The other place of the block that this entry of the block table lists.
    AlternateBlock { entry: usize },
    /// A block of the other place of the page that this entry of the page table lists.
    AlternatePage { entry: usize, block: u64 },
    /// The working copy of the block of an entry of the block table.
    Buffer { entry: usize },
    /// A block of the working copy of the page of an entry of the page table.
    Frame { entry: usize, block: u64 },
}
