//! The positions that the checkpoint under way has still to write.
ghost use Rattle.std.specs.Prelude.{◌≡◌, ◌+◌, ◌*◌, ◌<◌, length, IfSome, None as NoCopy};
ghost use Rattle.thy_table.specs.Listing.{entry_at};

use super::Control;
use thy_block::PAGE_BLOCKS;

impl Control {
    ghost use Rattle.thy_control.specs.Pages.{next_page};
    ghost use Rattle.thy_control.specs.Positions.{issued_of, position_by, next_position};

    /// The position that is next: the entry of the block table whose version is copied. If there is none, it is 64
    /// times the entry of the page table whose page is written, plus the block of that page, counted after the
    /// positions of the block table.
    pub fn next_position(&mut self) -> Option<u64>
        ensures same { self.new ≡ self.old }
        ensures position { result ≡ next_position self.old }
        ensures few { IfSome result (λ k. k < 4294967296) }
    {
        self.recall_tables();
        match self.seek_copy() {
            Some(i) => Some(i as u64),
            None => self.page_position(),
        }
    }

    /// The position of the next block of the page that is written next, if there is one.
    fn page_position(&mut self) -> Option<u64>
        ensures same { self.new ≡ self.old }
        ensures position { result ≡ position_by self.old NoCopy (next_page self.old) }
        ensures few { IfSome result (λ k. k < 4294967296) }
    {
        self.recall_tables();
        match self.seek_page() {
            Some(j) => Some(self.position_in(j)),
            None => None,
        }
    }

    /// The position of the next block of the page that an entry lists.
    fn position_in(&self, j: usize) -> u64
        requires { j < length self.now.ptt.entries }
        ensures position { result ≡ self.now.p.btt + (64 * j + issued_of (entry_at self.now.ptt j)) }
        ensures few { result < 4294967296 }
    {
        self.recall_tables();
        let numbers = self.geometry.numbers();
        numbers.btt + (PAGE_BLOCKS * j as u64 + self.issued(j))
    }

    /// How many blocks are written of the page that an entry lists, 0 if the entry is free.
    fn issued(&self, j: usize) -> u64
        requires { j < length self.now.ptt.entries }
        ensures issued { result ≡ issued_of (entry_at self.now.ptt j) }
        ensures few { result < 256 }
    {
        match self.ptt.entry(j) {
            Some(entry) => entry.issued as u64,
            None => 0,
        }
    }
}
