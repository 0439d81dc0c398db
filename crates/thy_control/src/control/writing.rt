//! The pages that the checkpoint under way has still to write.
ghost use Rattle.std.specs.Prelude.{◌≡◌, ◌<◌, ◌*◌, ◌^◌, ◌%◌, true, false, length, is_some, IfOk, IfSome, OnOk};
ghost use Rattle.thy_block.specs.Geometry.{memory_blocks};
ghost use Rattle.thy_control.specs.Pages.{page_in, block_after};

use super::Control;
use super::moving::move_block;
use crate::cursors::goes_on;
use thy_block::{Nvm, NvmError, PAGE_BLOCKS};
use thy_table::{
    PttEntry, Test, WHOLE_PAGE, a_page_write_keeps_others, a_page_write_keeps_versions,
};

/// A page's blocks are not all issued.
#[derive(Drop)]
struct NeedsWrite;

impl Test<PttEntry> for NeedsWrite {
    ghost use Rattle.thy_control.specs.Pages.{needs_write};

    ghost holds = { λ test e. needs_write e };

    fn test(&self, entry: &PttEntry) -> bool {
        entry.busy && entry.issued < WHOLE_PAGE
    }
}

/// The next block to be written of the page that an entry lists, 0 if the entry is free.
fn block_to_write(entry: Option<PttEntry>) -> u64
    requires { page_in entry < 2 ^ 32 }
    ensures { result ≡ block_after (λ e. e.issued) entry }
{
    match entry {
        Some(entry) => PAGE_BLOCKS * entry.page + entry.issued as u64,
        None => 0,
    }
}

impl Control {
    ghost use Rattle.thy_control.specs.State.{IsSized, cell_of};
    ghost use Rattle.thy_control.specs.Moves.{IsOneLess};
    ghost use Rattle.thy_control.specs.Stays.{StaysHeld, WhereHeld, Stays};
    ghost use Rattle.thy_control.specs.Versions.{KeepsCommitted, KeepsWork};
    ghost use Rattle.thy_control.specs.Pages.{next_page, block_to_write as block_written_next, writes_left, WritesBlock, WritesNext};

    /// Issues the next block of a page that the checkpoint under way has still to write, from the page's frame: one
    /// write at one place. It returns whether there was one; if none is left it touches nothing. With its last block
    /// a page that does not leave is free again. If the NVM failed, the place may hold the block or not.
    pub fn page_next<N: Nvm>(&mut self, nvm: &mut N) -> Result<bool, NvmError>
        requires sized { IsSized self.old (N.device nvm.old) }
        requires up { (N.device nvm.old).down ≡ false }
        ensures more { IfOk result (λ more. more ≡ is_some (next_page self.old)) }
        ensures left { IfOk result (λ more. IsOneLess more (writes_left self.old) (writes_left self.new)) }

        // The committed checkpoint has every block as before, and a load gives it. If the frames and targets held what they
        // have to, they do so still, and so the checkpoint under way has every block as before.
        ensures committed { OnOk result (KeepsCommitted self.old (N.device nvm.old) self.new (N.device nvm.new)) }
        ensures work { OnOk result (KeepsWork self.old (N.device nvm.old) self.new (N.device nvm.new)) }
        ensures held { OnOk result (WhereHeld StaysHeld self.old (N.device nvm.old) self.new (N.device nvm.new)) }

        // Tables and devices are those of the definition: this table and this one write.
        ensures writes { WritesNext self.old (N.device nvm.old) result self.new (N.device nvm.new) }

        // Whether or not it failed, nothing new is possible at the checkpoints' places, and both tables are as they were.
        ensures stays { Stays self.old (N.device nvm.old) self.new (N.device nvm.new) }
    {
        a_page_write_keeps_versions();
        a_page_write_keeps_others();
        self.recall_tables();
        self.write_lowest(nvm)
    }

    /// The entry of lowest number whose page's blocks are not all issued. The next search starts there.
    pub(super) fn seek_page(&mut self) -> Option<usize>
        ensures same { self.new ≡ self.old }
        ensures place { result ≡ next_page self.old }
        ensures inside { IfSome result (λ j. j < length self.new.ptt.entries) }
    {
        let next = self.ptt.next(self.cursors.writes, &NeedsWrite);
        let place = goes_on(next, self.ptt.size());
        self.cursors.writes = place;
        next
    }

    /// The next block to be written of the page that an entry lists, 0 if the entry is free.
    fn block_due(&self, j: usize) -> u64
        requires { j < length self.now.ptt.entries }
        ensures { result ≡ block_written_next j self.now }
    {
        self.recall_tables();
        block_to_write(self.ptt.entry(j))
    }

    /// Writes the next block of the lowest page whose blocks are not all issued, and returns whether there was one.
    fn write_lowest<N: Nvm>(&mut self, nvm: &mut N) -> Result<bool, NvmError>
        requires sized { IsSized self.old (N.device nvm.old) }
        requires up { (N.device nvm.old).down ≡ false }
        ensures more { IfOk result (λ more. more ≡ is_some (next_page self.old)) }
        ensures writes { WritesNext self.old (N.device nvm.old) result self.new (N.device nvm.new) }
    {
        self.recall_tables();
        match self.seek_page() {
            Some(j) => {
                let b = self.block_due(j);
                self.write_block(b, nvm)?;
                Ok(true)
            }
            None => Ok(false),
        }
    }

    /// Writes a block of a busy page, the next one, from the frame to its place.
    fn write_block<N: Nvm>(&mut self, b: u64, nvm: &mut N) -> Result<(), NvmError>
        requires block { b < memory_blocks self.old.p }
        requires busy { (cell_of self.old b).page.busy ≡ true }
        requires due { (cell_of self.old b).page.issued ≡ b % 64 }
        requires sized { IsSized self.old (N.device nvm.old) }
        requires up { (N.device nvm.old).down ≡ false }
        ensures { WritesBlock b self.old (N.device nvm.old) result self.new (N.device nvm.new) }
    {
        a_page_write_keeps_versions();
        a_page_write_keeps_others();
        self.recall_tables();
        let cell = self.cell(b);
        move_block(
            cell.frame(),
            cell.target(),
            &self.geometry,
            nvm,
            &mut self.dram,
        )?;
        let written = cell.with_issued();
        self.ptt.set(cell.j, written.page);
        self.ptt.recall_lists_once();
        Ok(())
    }
}
