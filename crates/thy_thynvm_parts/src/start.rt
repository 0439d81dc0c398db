//! The checkpoint that a start makes.
ghost use Rattle.std.specs.Prelude.{◌≡◌, ◌<◌, slice_index_or};
ghost use Rattle.thy_block.specs.Geometry.{memory_blocks};
ghost use Rattle.thy_checkpoint.specs.Filling.{first_by};
ghost use Rattle.thy_checkpoint.specs.Start.{CanStart};
ghost use Rattle.thy_isa.specs.Step.{state_of};
ghost use Rattle.thy_layout.specs.Commit.{commit_of};
ghost use Rattle.thy_record.specs.ThynvmLayouts.{thynvm_layouts};
ghost use Rattle.thy_thynvm_parts.specs.Filling.{filling_thynvm};
ghost use Rattle.thy_thynvm_parts.specs.Start.{start_slot};

use thy_block::{Block, Geometry, block_with};
use thy_isa::MachState;
use thy_layout::cpu_block;
use thy_table::home;

/// The place that block `b` of a start's memory is written to: its home.
pub fn first_place(geometry: &Geometry, state: &MachState, b: u64) -> u64
    requires start { CanStart geometry.now (state_of state.now) }
    requires inside { b < memory_blocks geometry.now }
    ensures { result ≡ slice_index_or (first_by filling_thynvm geometry.now (state_of state.now)).parts.memory b 0 }
{
    let _state = state;
    home(geometry, b)
}

/// Block `k` of a start's slot: the processor's record at epoch 0, and after it tables that list nothing and counts of
/// 0.
pub fn first_slot(geometry: &Geometry, state: &MachState, k: u64) -> Block
    requires start { CanStart geometry.now (state_of state.now) }
    requires inside { k < (thynvm_layouts geometry.now).slot_blocks (commit_of 0) }
    ensures { result ≡ start_slot geometry.now (state_of state.now) k }
{
    let _numbers = geometry.numbers();
    if k < geometry.record_blocks() {
        cpu_block(&state.cpu(), 0, k)
    } else {
        block_with(&[0; 8])
    }
}
