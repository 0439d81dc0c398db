//! A block as both tables have it.
ghost use Rattle.std.specs.Prelude.{◌≡◌};
ghost use Rattle.thy_table.specs.Cells.{agree as same_version, placed, frame_at, buffer_at, alternate_at, penult, target, last, work};
ghost use Rattle.thy_table.specs.BlockEntry.{other_version};
ghost use Rattle.thy_table.specs.Rules.{store_rule, store_place, after_store};

use crate::{BttEntry, Pending, Place, PttEntry, Site, Version, Working};
use thy_block::PAGE_BLOCKS;

/// A block of memory as both tables have it. A block or a page without an entry has one that is as a new
/// one would be.
#[derive(Clone, Copy, Debug, PartialEq, Eq)]
pub struct Cell {
    /// The number of the block's entry, or of the one that it would get.
    pub i: usize,
    pub entry: BttEntry,
    /// The number of the entry of the block's page.
    pub j: usize,
    pub page: PttEntry,
}

/// Where a block is stored.
#[derive(Clone, Copy, Debug, PartialEq, Eq)]
pub enum StoreRule {
    ToFrame,
    ToBuffer,
    /// To one of the block's two places in the NVM, the one that no checkpoint has.
    ToNvm,
    /// The buffer has still to be copied, before the store.
    PendingFirst,
}

fn agree(v: Version, w: Version) -> bool
    ensures { result ≡ same_version v w }
{
    match (v, w) {
        (Version::Out, Version::Out) | (Version::Alt, Version::Alt) => true,
        _ => false,
    }
}

impl Cell {
    ghost use Rattle.thy_table.specs.Cells.{seat_of};

    /// The place of the block in the frame of its page's entry.
    pub fn frame(&self) -> Place
        ensures { result ≡ frame_at (seat_of self.now) }
    {
        Place::Frame {
            entry: self.j,
            block: self.entry.block % PAGE_BLOCKS,
        }
    }

    /// The buffer of the block's entry.
    pub fn buffer(&self) -> Place
        ensures { result ≡ buffer_at (seat_of self.now) }
    {
        Place::Buffer { entry: self.i }
    }

    fn alternate(&self) -> Place
        ensures { result ≡ alternate_at (seat_of self.now) }
    {
        Place::AlternateBlock { entry: self.i }
    }

    /// The place of the block by what a checkpoint says of it and of its page.
    fn placed(&self, version: Version, page: Site) -> Place
        ensures { result ≡ placed version page (seat_of self.now) }
    {
        match (version, page) {
            (Version::Alt, _) => self.alternate(),
            (Version::Out, Site::AtAlternate) => Place::AlternatePage {
                entry: self.j,
                block: self.entry.block % PAGE_BLOCKS,
            },
            (Version::Out, Site::AtHome) => Place::Home {
                block: self.entry.block,
            },
        }
    }

    /// The place at which the committed checkpoint has the block.
    pub fn penult(&self) -> Place
        ensures { result ≡ penult self.now }
    {
        self.placed(self.entry.v0, self.page.place)
    }

    /// Where the checkpoint under way is to have the block; the committed one's place if none is under way.
    pub fn target(&self) -> Place
        ensures { result ≡ target self.now }
    {
        self.placed(self.entry.v1, self.page.target)
    }

    /// The place of the version of the checkpoint under way.
    pub fn last(&self) -> Place
        ensures { result ≡ last self.now }
    {
        if self.page.busy {
            return self.frame();
        }
        match self.entry.pend {
            Pending::Settled => self.target(),
            Pending::FromBuffer => self.buffer(),
            Pending::FromAlternate => self.alternate(),
        }
    }

    /// The place in the NVM at which the committed checkpoint does not have the block.
    fn spare(&self) -> Place
        ensures { result ≡ placed (other_version self.now.entry.v0) Site.AtHome (seat_of self.now) }
    {
        self.placed(self.entry.v0.other(), Site::AtHome)
    }

    /// The place of the working version, which a load gives.
    pub fn work(&self) -> Place
        ensures { result ≡ work self.now }
    {
        match self.entry.work {
            Working::InNvm => self.spare(),
            Working::InBuffer => self.buffer(),
            Working::NoWork if self.page.is_framed() => self.frame(),
            Working::NoWork => self.last(),
        }
    }

    /// Where the block is to be stored, by the rules of a store in docs/CONTROLLER.md.
    pub fn store_rule(&self) -> StoreRule
        ensures { result ≡ store_rule self.now }
    {
        let framed = self.page.is_framed();
        // rule 1
        if framed && !self.page.busy && matches!(self.entry.work, Working::NoWork) {
            return StoreRule::ToFrame;
        }
        // rule 4
        if !framed
            && !matches!(self.entry.work, Working::InBuffer)
            && agree(self.entry.v0, self.entry.v1)
        {
            return StoreRule::ToNvm;
        }
        // rules 2, 3 and 5
        match self.entry.pend {
            Pending::FromBuffer => StoreRule::PendingFirst,
            _ => StoreRule::ToBuffer,
        }
    }

    /// The place to which a store by this rule writes the block.
    pub fn store_place(&self, rule: StoreRule) -> Place
        ensures { result ≡ store_place rule self.now }
    {
        match rule {
            StoreRule::ToFrame => self.frame(),
            StoreRule::ToBuffer => self.buffer(),
            StoreRule::ToNvm => self.spare(),
            StoreRule::PendingFirst => self.target(),
        }
    }

    /// The entries of the block after a store by this rule.
    pub fn after(&self, rule: StoreRule) -> Cell
        ensures { result ≡ after_store rule self.now }
    {
        let mut cell = *self;
        match rule {
            StoreRule::ToFrame => cell.page.dirty = true,
            StoreRule::ToBuffer => cell.entry.work = Working::InBuffer,
            StoreRule::ToNvm => cell.entry.work = Working::InNvm,
            StoreRule::PendingFirst => cell.entry.pend = Pending::Settled,
        }
        cell
    }
}
