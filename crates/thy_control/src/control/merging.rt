//! Buffers that lie over the frames of their pages.
ghost use Rattle.std.specs.Prelude.{◌≡◌, ◌+◌, ◌<◌, true, false, length, is_some, IfSome};
ghost use Rattle.thy_block.specs.Device.{Device};
ghost use Rattle.thy_block.specs.Geometry.{memory_blocks};
ghost use Rattle.thy_table.specs.PageEntry.{is_framed as IsFramedPage};
ghost use Rattle.thy_table.specs.declared.block_entry.Working.TheVariants.{InBuffer as IsInBuffer};

use super::Control;
use crate::cursors::goes_on;
use crate::seal::block_is_framed;
use thy_table::{
    BttEntry, Ptt, PttEntry, Test, Working, a_dirty_page_keeps_others, a_merge_keeps_versions,
    number,
};

/// A buffer lies over the frame of its block's page, by this page table.
#[derive(Drop)]
struct LiesOver<'a> {
    ptt: &'a Ptt,
}

impl<'a> Test<BttEntry> for LiesOver<'a> {
    ghost use Rattle.thy_control.specs.Overlay.{is_overlaid};

    ghost holds = { λ test e. is_overlaid test.ptt.now e };

    fn test(&self, entry: &BttEntry) -> bool {
        match entry.work {
            Working::InBuffer => block_is_framed(self.ptt, entry.block),
            Working::NoWork | Working::InNvm => false,
        }
    }
}

impl Control {
    ghost use Rattle.thy_control.specs.State.{IsSized, cell_of};
    ghost use Rattle.thy_control.specs.Stays.{Stays};
    ghost use Rattle.thy_control.specs.Versions.{KeepsAll};
    ghost use Rattle.thy_control.specs.Merges.{next_merge, overlays, merged_block, after_merge};

    /// The entry of lowest number whose buffer lies over a frame. The next search starts there.
    fn seek_overlay(&mut self) -> Option<usize>
        ensures same { self.new ≡ self.old }
        ensures place { result ≡ next_merge self.old }
        ensures inside { IfSome result (λ i. i < length self.new.btt.entries) }
    {
        let next = self
            .btt
            .next(self.cursors.merges, &LiesOver { ptt: &self.ptt });
        let place = goes_on(next, self.btt.size());
        self.cursors.merges = place;
        next
    }

    /// Merges the entry of lowest number whose buffer lies over the frame of its block's page: the block is copied into the
    /// frame, the page is dirty, and the entry is free. The NVM is not touched.
    pub fn merge_one(&mut self)
        requires overlay { 0 < overlays self.old }
        requires idle { self.old.under_way ≡ false }

        // One buffer less lies over a frame.
        ensures left { overlays self.new + 1 ≡ overlays self.old }

        // Both checkpoints have every block as before, and so does a load; the frames and targets hold what they have to.
        ensures keeps { (nvm : Device) → IsSized self.old nvm → KeepsAll self.old nvm self.new nvm }
        ensures state { self.new ≡ after_merge (next_merge self.old) self.old }
        ensures stays { (nvm : Device) → IsSized self.old nvm → Stays self.old nvm self.new nvm }
    {
        a_merge_keeps_versions();
        a_dirty_page_keeps_others();
        self.recall_tables();
        self.merge_lowest();
    }

    /// Merges the entry of lowest number whose buffer lies over a frame.
    fn merge_lowest(&mut self)
        requires overlay { 0 < overlays self.old }
        requires idle { self.old.under_way ≡ false }
        ensures { self.new ≡ after_merge (next_merge self.old) self.old }
    {
        self.recall_tables();
        if let Some(i) = self.seek_overlay() {
            let b = self.block_at(i);
            self.merge_block(b);
        }
    }

    /// Copies a block from its buffer into the frame of its page, and clears its entry.
    fn merge_block(&mut self, b: u64)
        requires block { b < memory_blocks self.old.p }
        requires idle { self.old.under_way ≡ false }
        requires framed { IsFramedPage (cell_of self.old b).page ≡ true }
        requires work { (cell_of self.old b).entry.work ≡ IsInBuffer }
        ensures { self.new ≡ merged_block b self.old }
    {
        a_merge_keeps_versions();
        a_dirty_page_keeps_others();
        self.recall_tables();
        let cell = self.cell(b);
        let block = self.dram.read(number(&self.geometry, cell.buffer()));
        self.dram
            .write(number(&self.geometry, cell.frame()), &block);
        self.btt.clear(cell.i);
        self.ptt.set(
            cell.j,
            PttEntry {
                dirty: true,
                ..cell.page
            },
        );
        self.btt.recall_lists_once();
        self.ptt.recall_lists_once();
        self.marks.overlaid -= 1;
    }
}
