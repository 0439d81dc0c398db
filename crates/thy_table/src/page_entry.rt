//! Entries of the page translation table.
ghost use Rattle.std.specs.Prelude.{◌≡◌};
ghost use Rattle.thy_table.specs.PageEntry.{other_site, no_page, promoted_page, listed_page, is_framed};

use crate::Keyed;
use thy_block::PAGE_BLOCKS;

/// What `filled` and `issued` of an entry are once all blocks of its page are.
pub const WHOLE_PAGE: u8 = PAGE_BLOCKS as u8;

/// Where a checkpoint has the page of an entry.
#[derive(Clone, Copy, Debug, PartialEq, Eq)]
pub enum Site {
    /// The page is at its home place in the NVM.
    AtHome,
    /// The page is in the entry's alternate page of the NVM.
    AtAlternate,
}

/// A live entry of the page translation table.
#[derive(Clone, Copy, Debug, PartialEq, Eq)]
pub struct PttEntry {
    /// The number of the page that the entry lists.
    pub page: u64,
    /// Where the committed checkpoint has the page.
    pub place: Site,
    /// Where the checkpoint under way has the page; if none is under way, the same as the committed one.
    pub target: Site,
    /// Whether the page's frame was stored to since the last seal.
    pub dirty: bool,
    /// Whether the page was promoted, and its frame was not yet written to the NVM.
    pub fresh: bool,
    /// The page's frame belongs to the checkpoint under way, which writes it to the target: with the last block it is
    /// free again, unless the page leaves.
    pub busy: bool,
    /// Whether the page leaves the table at the next commit.
    pub leaving: bool,
    /// How many blocks of the page's frame are filled, from the first on: at most 64, and then the page is framed.
    pub filled: u8,
    /// How many blocks the checkpoint under way has written to the target, from the first on: at most 64.
    pub issued: u8,
}

impl Site {
    /// The other one of both places: home or alternate.
    pub fn other(self) -> Site
        ensures { result ≡ other_site self }
    {
        match self {
            Site::AtHome => Site::AtAlternate,
            Site::AtAlternate => Site::AtHome,
        }
    }
}

impl PttEntry {
    /// The entry that stands in for a page which no entry lists: it is at home, and has no frame.
    pub fn new(page: u64) -> PttEntry
        ensures { result ≡ no_page page }
    {
        PttEntry {
            page,
            place: Site::AtHome,
            target: Site::AtHome,
            dirty: false,
            fresh: false,
            busy: false,
            leaving: false,
            filled: 0,
            issued: 0,
        }
    }

    /// An entry of a page that is to be copied into its frame.
    pub fn promoted(page: u64) -> PttEntry
        ensures { result ≡ promoted_page page }
    {
        PttEntry {
            fresh: true,
            ..PttEntry::new(page)
        }
    }

    /// An entry of a page that the committed checkpoint has in it. It counts as framed at once: what its frame
    /// holds comes later, as the boot loads each block of the page.
    pub fn listed(page: u64) -> PttEntry
        ensures { result ≡ listed_page page }
    {
        PttEntry {
            place: Site::AtAlternate,
            target: Site::AtAlternate,
            filled: WHOLE_PAGE,
            ..PttEntry::new(page)
        }
    }

    /// Whether the frame holds the whole page.
    pub fn is_framed(&self) -> bool
        ensures { result ≡ is_framed self.now }
    {
        self.filled == WHOLE_PAGE
    }
}

impl Keyed for PttEntry {
    ghost key = { λ e. e.page };

    fn key(&self) -> u64 {
        self.page
    }
}
