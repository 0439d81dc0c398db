//! What a boot does: it lists what the committed checkpoint lists, with the counts of pages if its slot has these, and
//! loads the frames of the listed pages.
ghost use Rattle.std.specs.Prelude.{◌≡◌, ◌<◌, false, OnOk};

use super::Control;
use thy_block::{Nvm, NvmError};
use thy_table::{BttEntry, Place, PttEntry, a_frame_is_loaded, listed_cells_are_sound, number};

impl Control {
    ghost use Rattle.thy_control.specs.Boot.{IsBooting, MayListBlock, MayListPage, MayListCount, MayFrame, HaveTables, LoadsFrame, CopiesFrame, with_listed_block, with_listed_page, with_listed_count, with_block, with_page};
    ghost use Rattle.thy_control.specs.CheckpointTables.{tables0};
    ghost use Rattle.thy_control.specs.State.{IsSized};
    ghost use Rattle.thy_control.specs.Versions.{KeepsCheckpoints};

    /// Lists block `b` at entry `i` of the block table, as the committed checkpoint has it there. The entry must be
    /// free, and neither the block nor its page may be listed. Touches no device.
    pub fn list_block(&mut self, i: usize, b: u64)
        requires booting { IsBooting self.old }
        requires may { MayListBlock i b self.old }
        ensures state { self.new ≡ with_listed_block i b self.old }
        ensures booting { IsBooting self.new }
        ensures tables { HaveTables self.new (with_block i b (tables0 self.old)) }
    {
        self.recall_tables();
        self.put_block(i, b);
    }

    /// Writes the entry of a listed block.
    fn put_block(&mut self, i: usize, b: u64)
        requires booting { IsBooting self.old }
        requires may { MayListBlock i b self.old }
        ensures { self.new ≡ with_listed_block i b self.old }
    {
        listed_cells_are_sound();
        self.recall_tables();
        self.btt.put(i, BttEntry::listed(b));
        self.btt.recall_lists_once();
    }

    /// Lists page `page` at entry `j` of the page table, as the committed checkpoint has it there. The entry must be free,
    /// and neither the page nor a block of it may be listed. Its frame has then to be loaded, block by block. Touches
    /// no device.
    pub fn list_page(&mut self, j: usize, page: u64)
        requires booting { IsBooting self.old }
        requires may { MayListPage j page self.old }
        ensures state { self.new ≡ with_listed_page j page self.old }
        ensures booting { IsBooting self.new }
        ensures tables { HaveTables self.new (with_page j page (tables0 self.old)) }
    {
        self.recall_tables();
        self.put_page(j, page);
    }

    /// Writes the entry of a listed page.
    fn put_page(&mut self, j: usize, page: u64)
        requires booting { IsBooting self.old }
        requires may { MayListPage j page self.old }
        ensures { self.new ≡ with_listed_page j page self.old }
    {
        listed_cells_are_sound();
        self.recall_tables();
        self.ptt.put(j, PttEntry::listed(page));
        self.ptt.recall_lists_once();
    }

    /// Sets how many stores a page had in the epoch before, at most 63, as the committed checkpoint has it. Touches
    /// no device.
    pub fn list_count(&mut self, page: u64, count: u64)
        requires booting { IsBooting self.old }
        requires may { MayListCount page count self.old }
        ensures state { self.new ≡ with_listed_count page count self.old }
        ensures booting { IsBooting self.new }
        ensures tables { HaveTables self.new (tables0 self.old) }
    {
        self.counts.set_last(page, count);
    }

    /// Copies block `k` of the alternate page of entry `j`, which lists a page, into the frame: one read of the NVM and one
    /// write of the DRAM. If the read failed, the controller is as before.
    pub fn frame_block<N: Nvm>(&mut self, j: usize, k: u64, nvm: &mut N) -> Result<(), NvmError>
        requires booting { IsBooting self.old }
        requires may { MayFrame j k self.old }
        requires sized { IsSized self.old (N.device nvm.old) }
        requires up { (N.device nvm.old).down ≡ false }
        ensures copies { CopiesFrame j k self.old (N.device nvm.old) result self.new (N.device nvm.new) }
        ensures booting { IsBooting self.new }

        // Both checkpoints have every block as before, and the places of this one hold what they have to.
        ensures keeps { OnOk result (KeepsCheckpoints self.old (N.device nvm.old) self.new (N.device nvm.new)) }
        ensures loads { OnOk result (LoadsFrame j k self.old (N.device nvm.old) self.new (N.device nvm.new)) }
    {
        a_frame_is_loaded();
        self.recall_tables();
        self.load_frame(j, k, nvm)
    }

    /// Copies a block of an alternate page into the frame.
    fn load_frame<N: Nvm>(&mut self, j: usize, k: u64, nvm: &mut N) -> Result<(), NvmError>
        requires entry { j < self.old.p.ptt }
        requires block { k < 64 }
        requires sized { IsSized self.old (N.device nvm.old) }
        requires up { (N.device nvm.old).down ≡ false }
        ensures { CopiesFrame j k self.old (N.device nvm.old) result self.new (N.device nvm.new) }
    {
        self.recall_tables();
        let from = Place::AlternatePage { entry: j, block: k };
        let to = Place::Frame { entry: j, block: k };
        let block = self.read(from, nvm)?;
        self.dram.write(number(&self.geometry, to), &block);
        Ok(())
    }
}
