//! What copies and the blocks of pages, between two checkpoints, make of a block's entries.
ghost use Rattle.std.specs.Prelude.{◌≡◌, ◌<◌};
ghost use Rattle.thy_table.specs.Rules.{after_copy};
ghost use Rattle.thy_table.specs.Checkpoint.{with_filled, with_issued};

use crate::{BttEntry, Cell, Pending, PttEntry, WHOLE_PAGE};

impl Cell {
    /// The block after its pending version was copied to its place.
    pub fn with_copy(&self) -> Cell
        ensures { result ≡ after_copy self.now }
    {
        Cell {
            entry: BttEntry {
                pend: Pending::Settled,
                ..self.entry
            },
            ..*self
        }
    }

    /// The block after one more of its page was copied into the frame.
    pub fn with_filled(&self) -> Cell
        requires { self.now.page.filled < 64 }
        ensures { result ≡ with_filled self.now }
    {
        Cell {
            page: PttEntry {
                filled: self.page.filled + 1,
                ..self.page
            },
            ..*self
        }
    }

    /// The block after one more of its page was written from the frame to the target. With the last the frame is free
    /// again, unless the page leaves.
    pub fn with_issued(&self) -> Cell
        requires { self.now.page.issued < 64 }
        ensures { result ≡ with_issued self.now }
    {
        let issued = self.page.issued + 1;
        Cell {
            page: PttEntry {
                issued,
                busy: self.page.leaving || issued != WHOLE_PAGE,
                ..self.page
            },
            ..*self
        }
    }
}
