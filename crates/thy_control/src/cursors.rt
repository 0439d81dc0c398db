//! The entries at which the next searches of the tables start.
ghost use Rattle.std.specs.Prelude.{◌≡◌, unwrap_or};
ghost use Rattle.thy_table.specs.Listing.{Listing};
ghost use Rattle.thy_table.specs.declared.block_entry.BttEntry.{BttEntry as BlockEntry};
ghost use Rattle.thy_table.specs.declared.page_entry.PttEntry.{PttEntry as PageEntry};
ghost use Rattle.thy_control.specs.Cursors.{AreCursors, AreLowered};

use thy_table::{Cell, StoreRule};

/// For each kind of work that is looked for in a table, a place below which no entry has any. So from one seal or commit to
/// the next each search goes over its table once, and again only from the place that a store set it back to.
#[derive(Clone, Copy, Debug)]
pub struct Cursors {
    /// A place of the block table: no entry below has a version to be copied.
    pub copies: usize,
    /// A place of the page table: no page below has blocks to be written.
    pub writes: usize,
    /// A place of the block table: no entry below has work in a buffer over the frame of its page.
    pub merges: usize,
    /// A place of the page table: no page below is being promoted.
    pub promotions: usize,
}

/// The place at which the next search of a table with `size` entries starts: the entry that this one found, or past the last entry if it
/// found none.
pub fn goes_on(found: Option<usize>, size: usize) -> usize
    ensures { result ≡ unwrap_or found size }
{
    match found {
        Some(i) => i,
        None => size,
    }
}

impl Cursors {
    /// Cursors at place 0 of both tables, below which there is no entry.
    pub fn start() -> Cursors
        ensures { (pages : Listing PageEntry) (blocks : Listing BlockEntry) → AreCursors pages blocks result }
    {
        Cursors {
            copies: 0,
            writes: 0,
            merges: 0,
            promotions: 0,
        }
    }

    /// The cursors after a store by this rule of a block that was such before. If work goes into a buffer over a frame, the search for
    /// merges starts at that entry or below.
    pub fn lowered(self, rule: StoreRule, cell: &Cell) -> Cursors
        ensures { AreLowered rule cell.now self result }
    {
        match rule {
            StoreRule::ToBuffer if cell.page.is_framed() => Cursors {
                merges: self.merges.min(cell.i),
                ..self
            },
            _ => self,
        }
    }
}
