//! The slot of the checkpoint that a start makes.
ghost use Rattle.std.specs.Prelude.{◌≡◌, ◌<◌};
ghost use Rattle.thy_isa.specs.Step.{state_of, cpu_of};
ghost use Rattle.thy_checkpoint.specs.Start.{CanStart};
ghost use Rattle.thy_images.specs.JournalPlaces.{slot_blocks};
ghost use Rattle.thy_layout.specs.TableSlots.{slot_block_of};
ghost use Rattle.thy_journal_parts.specs.Filling.{no_table};

use thy_block::{Block, Geometry, block_with};
use thy_isa::MachState;
use thy_layout::cpu_block;

/// Block `k` of a start's slot: the processor's record at epoch 0, and after it a table that lists nothing.
pub fn start_slot_block(geometry: &Geometry, state: &MachState, k: u64) -> Block
    requires place { k < slot_blocks geometry.now }
    requires start { CanStart geometry.now (state_of state.now) }
    ensures { result ≡ slot_block_of geometry.now (cpu_of (state_of state.now)) (no_table geometry.now) 0 k }
{
    let _numbers = geometry.numbers();
    if k < geometry.record_blocks() {
        cpu_block(&state.cpu(), 0, k)
    } else {
        block_with(&[0; 8])
    }
}
