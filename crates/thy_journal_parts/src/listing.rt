//! What the table of a slot lists, given to the log.
ghost use Rattle.std.specs.Prelude.{◌≡◌, ◌+◌, ◌*◌, ◌<◌, length};
ghost use Rattle.thy_block.specs.declared.block.Block.{Block};
ghost use Rattle.thy_layout.specs.Files.{blocks_of};
ghost use Rattle.thy_checkpoint.specs.Filling.{ListsOn};
ghost use Rattle.thy_images.specs.JournalPlaces.{slot_blocks};
ghost use Rattle.thy_images.specs.JournalSlots.{IsTable, table_in};
ghost use Rattle.thy_journal_parts.specs.Filling.{IsFresh, filling_journal};
ghost use Rattle.thy_journal_parts.specs.Listed.{ListsUpTo};

use crate::Log;
use thy_block::Geometry;
use thy_images::journal::listed_block;

/// Lists in a log that lists nothing what the table of a slot does, each block at the slot's entry. So it lists the
/// slot's checkpoint, whatever the commit block.
pub fn list_all(slot: &[u8], geometry: &Geometry, log: &mut Log)
    requires slot { length slot.now ≡ 64 * slot_blocks geometry.now }
    requires geometry { log.old.p ≡ geometry.now }
    requires table { IsTable geometry.now (table_in geometry.now (blocks_of slot.now)) }
    requires fresh { IsFresh log.old }
    ensures { (commit : Block) → ListsOn filling_journal commit (blocks_of slot.now) log.old log.new }
{
    let entries = geometry.numbers().btt as usize;
    for i in 0..entries {
        list_one(slot, i, geometry, log);
    }
}

/// Lists what entry `i` does.
#[tactic(auto, using(crate::proofs::ListLemmas::lists_some, crate::proofs::ListLemmas::lists_none))]
fn list_one(slot: &[u8], i: usize, geometry: &Geometry, log: &mut Log)
    requires slot { length slot.now ≡ 64 * slot_blocks geometry.now }
    requires table { IsTable geometry.now (table_in geometry.now (blocks_of slot.now)) }
    requires entry { i < geometry.now.btt }
    requires before { ListsUpTo i geometry.now (blocks_of slot.now) log.old }
    ensures lists { ListsUpTo (i + 1) geometry.now (blocks_of slot.now) log.new }
    ensures same_dram { log.new.dram ≡ log.old.dram }
{
    if let Some(block) = listed_block(slot, i, geometry) {
        log.list_at(i, block);
    }
    log.recall_sound();
}
