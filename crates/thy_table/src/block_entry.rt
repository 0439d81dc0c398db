//! Entries of the block translation table.
ghost use Rattle.std.specs.Prelude.{◌≡◌};
ghost use Rattle.thy_table.specs.BlockEntry.{other_version, new_entry, listed_entry};

use crate::Keyed;

/// Where a checkpoint has the block of an entry.
#[derive(Clone, Copy, Debug, PartialEq, Eq)]
pub enum Version {
    /// The entry does not list it: it is in its page, at that page's place.
    Out,
    /// The block is in the entry's alternate block of the NVM.
    Alt,
}

/// The copy that a block still needs for the checkpoint under way.
#[derive(Clone, Copy, Debug, PartialEq, Eq)]
pub enum Pending {
    /// No copy.
    Settled,
    /// A copy from the entry's buffer in the DRAM.
    FromBuffer,
    /// From the entry's alternate block, to its page: the entry is consolidated.
    FromAlternate,
}

/// The place of the block as the program stored it since the last seal.
#[derive(Clone, Copy, Debug, PartialEq, Eq)]
pub enum Working {
    /// Nowhere: the program has not stored it, or has stored it into its page's frame.
    NoWork,
    /// In the NVM, at the place that the committed checkpoint does not have it at.
    InNvm,
    /// The work is in the entry's buffer in the DRAM.
    InBuffer,
}

/// A live entry of the block translation table.
#[derive(Clone, Copy, Debug, PartialEq, Eq)]
pub struct BttEntry {
    /// The number of the block that the entry lists.
    pub block: u64,
    /// Where the committed checkpoint has the block.
    pub v0: Version,
    /// Where the checkpoint under way has the block; if none is under way, the same as the committed one.
    pub v1: Version,
    pub pend: Pending,
    pub work: Working,
}

impl Version {
    /// The other one of both places: home or alternate.
    pub fn other(self) -> Version
        ensures { result ≡ other_version self }
    {
        match self {
            Version::Out => Version::Alt,
            Version::Alt => Version::Out,
        }
    }
}

impl BttEntry {
    /// An entry of a block that no checkpoint has in it, with nothing stored yet.
    pub fn new(block: u64) -> BttEntry
        ensures { result ≡ new_entry block }
    {
        BttEntry {
            block,
            v0: Version::Out,
            v1: Version::Out,
            pend: Pending::Settled,
            work: Working::NoWork,
        }
    }

    /// An entry of a block that the committed checkpoint has in it.
    pub fn listed(block: u64) -> BttEntry
        ensures { result ≡ listed_entry block }
    {
        BttEntry {
            v0: Version::Alt,
            v1: Version::Alt,
            ..BttEntry::new(block)
        }
    }
}

impl Keyed for BttEntry {
    ghost key = { λ e. e.block };

    fn key(&self) -> u64 {
        self.block
    }
}
