//! Entries of the pool and of the frames.
ghost use Rattle.std.specs.Prelude.{◌≡◌};
ghost use Rattle.thy_shadow_parts.specs.Keys.{held, framed, begun_for};

use thy_table::{Keyed, Rule};

/// A page of the pool that has something: the page of memory with this number in the committed checkpoint, or, counted
/// from memory's last page on, what the frame with this number takes there with the next one.
#[derive(Clone, Copy, Debug, PartialEq, Eq)]
pub struct Held {
    /// The number of the page, or of the frame, counted from memory's last page on.
    pub number: u64,
}

impl Held {
    /// An entry that lists this number.
    pub fn new(number: u64) -> Held
        ensures { result ≡ held number }
    {
        Held { number }
    }
}

impl Keyed for Held {
    ghost key = { λ e. e.number };

    fn key(&self) -> u64 {
        self.number
    }
}

/// A filled frame: it has a page of memory as it was stored last.
#[derive(Clone, Copy, Debug, PartialEq, Eq)]
pub struct Framed {
    /// The number of the page that the frame has.
    pub page: u64,
}

impl Framed {
    /// A filled frame, which has this page.
    pub fn new(page: u64) -> Framed
        ensures { result ≡ framed page }
    {
        Framed { page }
    }
}

impl Keyed for Framed {
    ghost key = { λ e. e.page };

    fn key(&self) -> u64 {
        self.page
    }
}

/// A frame that is begun for a page, and not filled yet.
#[derive(Clone, Copy, Debug, PartialEq, Eq)]
pub struct Begun {
    /// The page's number.
    pub page: u64,
    /// How many of the page's blocks were copied, from the first on.
    pub copied: u64,
}

impl Begun {
    /// A frame of a page, into which `copied` blocks were copied.
    pub fn new(page: u64, copied: u64) -> Begun
        ensures { result ≡ begun_for page copied }
    {
        Begun { page, copied }
    }
}

/// Frees every entry of the pool.
#[derive(Drop)]
pub(crate) struct FreeAll;

impl Rule<Held> for FreeAll {
    ghost use Rattle.thy_shadow_parts.specs.Keys.{freed_held, freed_held-number};

    ghost gives = { λ rule e. freed_held e };

    fn apply(&self, _entry: &Held) -> Option<Held> {
        None
    }

    ghost keeps_key = { λ rule e f h. freed_held-number e f h };
}

/// Frees every frame.
#[derive(Drop)]
pub(crate) struct FreeFrames;

impl Rule<Framed> for FreeFrames {
    ghost use Rattle.thy_shadow_parts.specs.Keys.{freed_frame, freed_frame-page};

    ghost gives = { λ rule e. freed_frame e };

    fn apply(&self, _entry: &Framed) -> Option<Framed> {
        None
    }

    ghost keeps_key = { λ rule e f h. freed_frame-page e f h };
}
