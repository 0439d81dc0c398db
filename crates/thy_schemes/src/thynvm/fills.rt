//! What the boot fills: images of both versions, read into the controller.
use thy_block::{Block, Geometry, Nvm, NvmError, PAGE_BLOCKS};
use thy_checkpoint::Fills;
use thy_control::Control;
use thy_isa::MachState;
use thy_record::ThynvmImages;
use thy_thynvm_parts::{fill, first_place, first_slot, list_slot, next_fill};

/// The part of the boot, of the engine, and of loads and stores: both tables.
#[derive(Drop)]
pub struct ThynvmTables;

impl Fills for ThynvmTables {
    ghost use Rattle.std.specs.Prelude.{refl};
    ghost use Rattle.thy_thynvm_parts.proofs.FillingLemmas.{filling_is_lawful};
    ghost use Rattle.thy_thynvm_parts.specs.Filling.{filling_thynvm};

    type Images = ThynvmImages;

    type Control = Control;

    ghost filling = { filling_thynvm };

    fn list(geometry: &Geometry, commit: &Block, slot: &[u8], control: &mut Control) {
        list_slot(geometry, commit, slot, control)
    }

    fn most_fills(geometry: &Geometry) -> u64 {
        PAGE_BLOCKS * geometry.numbers().ptt
    }

    fn next_fill(geometry: &Geometry, commit: &Block, slot: &[u8], from: u64) -> Option<u64> {
        next_fill(geometry, commit, slot, from)
    }

    fn fill<N: Nvm>(
        control: &mut Control,
        commit: &Block,
        k: u64,
        nvm: &mut N,
    ) -> Result<(), NvmError> {
        fill(control, commit, k, nvm)
    }

    fn first_place(geometry: &Geometry, state: &MachState, b: u64) -> u64 {
        first_place(geometry, state, b)
    }

    fn first_slot(geometry: &Geometry, state: &MachState, k: u64) -> Block {
        first_slot(geometry, state, k)
    }

    ghost lawful = { filling_is_lawful };

    ghost of_images = { refl };
}
