//! The copies that the checkpoint under way still needs.
ghost use Rattle.std.specs.Prelude.{◌≡◌, ◌≢◌, ◌<◌, false, length, is_some, IfOk, IfSome, OnOk};
ghost use Rattle.thy_block.specs.Geometry.{memory_blocks};
ghost use Rattle.thy_table.specs.declared.block_entry.Pending.TheVariants.{Settled as IsSettled};
ghost use Rattle.thy_control.specs.Copies.{block_in};

use super::Control;
use super::moving::move_block;
use crate::cursors::goes_on;
use thy_block::{Nvm, NvmError};
use thy_table::{BttEntry, Pending, Test, a_copy_keeps_versions};

/// A version has still to be copied to its place.
#[derive(Drop)]
struct NeedsCopy;

impl Test<BttEntry> for NeedsCopy {
    ghost use Rattle.thy_control.specs.Copies.{needs_copy};

    ghost holds = { λ test e. needs_copy e };

    fn test(&self, entry: &BttEntry) -> bool {
        match entry.pend {
            Pending::Settled => false,
            Pending::FromBuffer | Pending::FromAlternate => true,
        }
    }
}

/// The block that an entry lists, 0 if it is free.
fn block_in(entry: Option<BttEntry>) -> u64
    ensures { result ≡ block_in entry }
{
    match entry {
        Some(entry) => entry.block,
        None => 0,
    }
}

impl Control {
    ghost use Rattle.thy_control.specs.State.{IsSized, cell_of};
    ghost use Rattle.thy_control.specs.Moves.{IsOneLess};
    ghost use Rattle.thy_control.specs.Stays.{Stays};
    ghost use Rattle.thy_control.specs.Versions.{KeepsAll};
    ghost use Rattle.thy_control.specs.Copies.{next_copy, block_listed, copies_left, CopiesBlock, CopiesNext};

    /// Issues the next copy that the checkpoint under way still needs: one write at one place. It returns whether there was
    /// one; if none is left it touches nothing. If the NVM failed, the place may hold the version or not.
    pub fn copy_next<N: Nvm>(&mut self, nvm: &mut N) -> Result<bool, NvmError>
        requires sized { IsSized self.old (N.device nvm.old) }
        requires up { (N.device nvm.old).down ≡ false }
        ensures more { IfOk result (λ more. more ≡ is_some (next_copy self.old)) }
        ensures left { IfOk result (λ more. IsOneLess more (copies_left self.old) (copies_left self.new)) }

        // Both checkpoints have every block as before, and so does a load; the frames and targets hold what they have to.
        ensures keeps { OnOk result (KeepsAll self.old (N.device nvm.old) self.new (N.device nvm.new)) }

        // Tables and devices are those of the definition: this table and this one write.
        ensures copies { CopiesNext self.old (N.device nvm.old) result self.new (N.device nvm.new) }

        // Whether or not it failed, nothing new is possible at the checkpoints' places, and both tables are as they were.
        ensures stays { Stays self.old (N.device nvm.old) self.new (N.device nvm.new) }
    {
        a_copy_keeps_versions();
        self.recall_tables();
        self.copy_lowest(nvm)
    }

    /// The entry of lowest number that has still to be copied. The next search starts there.
    pub(super) fn seek_copy(&mut self) -> Option<usize>
        ensures same { self.new ≡ self.old }
        ensures place { result ≡ next_copy self.old }
        ensures inside { IfSome result (λ i. i < length self.new.btt.entries) }
    {
        let next = self.btt.next(self.cursors.copies, &NeedsCopy);
        let place = goes_on(next, self.btt.size());
        self.cursors.copies = place;
        next
    }

    /// The block that an entry lists, 0 if it is free.
    pub(super) fn block_at(&self, i: usize) -> u64
        requires { i < length self.now.btt.entries }
        ensures { result ≡ block_listed i self.now }
    {
        block_in(self.btt.entry(i))
    }

    /// Copies what the entry of lowest number has still to copy, and returns whether there was one.
    fn copy_lowest<N: Nvm>(&mut self, nvm: &mut N) -> Result<bool, NvmError>
        requires sized { IsSized self.old (N.device nvm.old) }
        requires up { (N.device nvm.old).down ≡ false }
        ensures more { IfOk result (λ more. more ≡ is_some (next_copy self.old)) }
        ensures copies { CopiesNext self.old (N.device nvm.old) result self.new (N.device nvm.new) }
    {
        self.recall_tables();
        match self.seek_copy() {
            Some(i) => {
                let b = self.block_at(i);
                self.copy_block(b, nvm)?;
                Ok(true)
            }
            None => Ok(false),
        }
    }

    /// Copies the version of a block that has still to be copied to its place.
    fn copy_block<N: Nvm>(&mut self, b: u64, nvm: &mut N) -> Result<(), NvmError>
        requires block { b < memory_blocks self.old.p }
        requires pending { (cell_of self.old b).entry.pend ≢ IsSettled }
        requires sized { IsSized self.old (N.device nvm.old) }
        requires up { (N.device nvm.old).down ≡ false }
        ensures { CopiesBlock b self.old (N.device nvm.old) result self.new (N.device nvm.new) }
    {
        self.recall_tables();
        let cell = self.cell(b);
        move_block(
            cell.last(),
            cell.target(),
            &self.geometry,
            nvm,
            &mut self.dram,
        )?;
        let copied = cell.with_copy();
        self.btt.set(cell.i, copied.entry);
        self.btt.recall_lists_once();
        Ok(())
    }
}
