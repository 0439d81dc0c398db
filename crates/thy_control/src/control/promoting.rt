//! The pages that are being promoted.
ghost use Rattle.std.specs.Prelude.{◌≡◌, ◌+◌, ◌<◌, ◌*◌, ◌^◌, ◌%◌, true, false, if◌then◌else◌, length, is_some, IfOk, IfSome, OnOk, OnErr};
ghost use Rattle.thy_block.specs.Geometry.{memory_blocks};
ghost use Rattle.thy_table.specs.Places.{in_dram};
ghost use Rattle.thy_table.specs.Cells.{work as work_place};
ghost use Rattle.thy_table.specs.PageEntry.{is_framed as IsFramedPage};
ghost use Rattle.thy_control.specs.Pages.{page_in, block_after};

use super::Control;
use super::moving::move_to_dram;
use crate::cursors::goes_on;
use crate::overlay::WorkCounts;
use thy_block::{Nvm, NvmError, PAGE_BLOCKS};
use thy_table::{PttEntry, Test, a_promotion_keeps_others, a_promotion_keeps_versions};

/// A page is being promoted.
#[derive(Drop)]
struct IsPromoted;

impl Test<PttEntry> for IsPromoted {
    ghost use Rattle.thy_control.specs.Holding.{is_promoted};

    ghost holds = { λ test e. is_promoted e };

    fn test(&self, entry: &PttEntry) -> bool {
        !entry.is_framed() && entry.fresh
    }
}

/// The next block to be copied of the page that an entry lists, 0 if the entry is free.
fn block_to_fill(entry: Option<PttEntry>) -> u64
    requires { page_in entry < 2 ^ 32 }
    ensures { result ≡ block_after (λ e. e.filled) entry }
{
    match entry {
        Some(entry) => PAGE_BLOCKS * entry.page + entry.filled as u64,
        None => 0,
    }
}

/// The numbers after one more block of a page in promotion was copied: with the last it is promoted.
fn marks_after(marks: WorkCounts, page: &PttEntry) -> WorkCounts
    requires { 0 < marks.promoted }
    ensures overlaid { result.overlaid ≡ marks.overlaid }
    ensures promoted { result.promoted + (if IsFramedPage page.now then 1 else 0) ≡ marks.promoted }
{
    if page.is_framed() {
        WorkCounts {
            promoted: marks.promoted - 1,
            ..marks
        }
    } else {
        marks
    }
}

impl Control {
    ghost use Rattle.thy_control.specs.State.{IsSized, cell_of};
    ghost use Rattle.thy_control.specs.Holding.{promoted};
    ghost use Rattle.thy_control.specs.Stays.{WhereHeld, Stays};
    ghost use Rattle.thy_control.specs.Versions.{KeepsCheckpoints};
    ghost use Rattle.thy_control.specs.Promotions.{next_promotion, block_to_fill as block_filled_next, unfilled, HoldsWork, ReadsNvm, FillsBlock, FillsNext};

    /// Copies the next block of the lowest page in promotion, as a load gives it, into its frame; with the last block
    /// the page is framed. Some page must be in promotion. Only the DRAM is written. It fails only if the block is
    /// read from the NVM; then nothing is written.
    pub fn promote_one<N: Nvm>(&mut self, nvm: &mut N) -> Result<(), NvmError>
        requires sized { IsSized self.old (N.device nvm.old) }
        requires up { (N.device nvm.old).down ≡ false }
        requires promoting { 0 < promoted self.old.ptt }

        // One block less is left.
        ensures left { OnOk result (unfilled self.new + 1 ≡ unfilled self.old) }

        // Both checkpoints have every block as before. If the frames and targets held what they have to, they do so still,
        // and so a load of every block gives what it gave.
        ensures keeps { OnOk result (KeepsCheckpoints self.old (N.device nvm.old) self.new (N.device nvm.new)) }
        ensures held { OnOk result (WhereHeld HoldsWork self.old (N.device nvm.old) self.new (N.device nvm.new)) }
        ensures fills { FillsNext self.old (N.device nvm.old) result self.new (N.device nvm.new) }
        ensures side { OnErr result (ReadsNvm (next_promotion self.old) self.old) }

        // Whether or not it failed, nothing new is possible at the checkpoints' places, and both tables are as they were.
        ensures stays { Stays self.old (N.device nvm.old) self.new (N.device nvm.new) }
    {
        a_promotion_keeps_versions();
        a_promotion_keeps_others();
        self.recall_tables();
        self.fill_lowest(nvm)
    }

    /// The entry of lowest number whose page is being promoted. The next search starts there.
    fn seek_promotion(&mut self) -> Option<usize>
        ensures same { self.new ≡ self.old }
        ensures place { result ≡ next_promotion self.old }
        ensures inside { IfSome result (λ j. j < length self.new.ptt.entries) }
    {
        let next = self.ptt.next(self.cursors.promotions, &IsPromoted);
        let place = goes_on(next, self.ptt.size());
        self.cursors.promotions = place;
        next
    }

    /// The next block to be copied of the page that an entry lists, 0 if the entry is free.
    fn block_unfilled(&self, j: usize) -> u64
        requires { j < length self.now.ptt.entries }
        ensures { result ≡ block_filled_next j self.now }
    {
        self.recall_tables();
        block_to_fill(self.ptt.entry(j))
    }

    /// Copies the next block of the lowest page in promotion into its frame.
    fn fill_lowest<N: Nvm>(&mut self, nvm: &mut N) -> Result<(), NvmError>
        requires sized { IsSized self.old (N.device nvm.old) }
        requires up { (N.device nvm.old).down ≡ false }
        requires promoting { 0 < promoted self.old.ptt }
        ensures fills { FillsNext self.old (N.device nvm.old) result self.new (N.device nvm.new) }
        ensures side { OnErr result (ReadsNvm (next_promotion self.old) self.old) }
    {
        self.recall_tables();
        match self.seek_promotion() {
            Some(j) => {
                let b = self.block_unfilled(j);
                self.fill_block(b, nvm)
            }
            None => Ok(()),
        }
    }

    /// Copies the next block of a page in promotion, as a load reads it, into the frame.
    fn fill_block<N: Nvm>(&mut self, b: u64, nvm: &mut N) -> Result<(), NvmError>
        requires block { b < memory_blocks self.old.p }
        requires fresh { (cell_of self.old b).page.fresh ≡ true }
        requires unframed { IsFramedPage (cell_of self.old b).page ≡ false }
        requires due { (cell_of self.old b).page.filled ≡ b % 64 }
        requires sized { IsSized self.old (N.device nvm.old) }
        requires up { (N.device nvm.old).down ≡ false }
        ensures fills { FillsBlock b self.old (N.device nvm.old) result self.new (N.device nvm.new) }
        ensures side { OnErr result (in_dram (work_place (cell_of self.old b)) ≡ false) }
    {
        a_promotion_keeps_versions();
        a_promotion_keeps_others();
        self.recall_tables();
        let cell = self.cell(b);
        move_to_dram(
            cell.work(),
            cell.frame(),
            &self.geometry,
            nvm,
            &mut self.dram,
        )?;
        let filled = cell.with_filled();
        self.ptt.set(cell.j, filled.page);
        self.ptt.recall_lists_once();
        self.marks = marks_after(self.marks, &filled.page);
        Ok(())
    }
}
