//! What the boot lists.
ghost use Rattle.std.specs.Prelude.{◌≡◌, false, length, OnOk, OnErr};
ghost use Rattle.thy_block.specs.Places.{header_place};
ghost use Rattle.thy_computer.specs.Action.{ReadAt};
ghost use Rattle.thy_checkpoint.specs.Loads.{Takes};
ghost use Rattle.thy_images.specs.ShadowPlaces.{image_blocks};

use thy_block::{Block, Geometry, HEADER_PLACE, Nvm, NvmError};
use thy_checkpoint::Fills;
use thy_images::shadow::{ShadowImages, pool as pool_number};
use thy_isa::MachState;
use thy_shadow_parts::{Pool, start_slot_block};

/// Shadow paging's part of the boot: the pool, which lists the map of the slot that the commit block names. Nothing is
/// filled: every page is in the NVM.
#[derive(Drop)]
pub struct Relist;

impl Fills for Relist {
    type Images = ShadowImages;

    type Control = Pool;

    ghost use Rattle.std.specs.Prelude.{refl};
    ghost use Rattle.thy_shadow_parts.specs.Filling.{filling_shadow};
    ghost use Rattle.thy_shadow_parts.proofs.LawLemmas.{pool_is_listed};

    ghost filling = { filling_shadow };

    fn list(geometry: &Geometry, commit: &Block, slot: &[u8], control: &mut Pool) {
        control.list(slot);
        control.recall_sound();
    }

    fn most_fills(geometry: &Geometry) -> u64 {
        0
    }

    fn next_fill(geometry: &Geometry, commit: &Block, slot: &[u8], from: u64) -> Option<u64> {
        None
    }

    // No position is ever filled, so this reads a block and keeps the pool as it is.
    fn fill<N: Nvm>(control: &mut Pool, commit: &Block, k: u64, nvm: &mut N) -> Result<(), NvmError>
        requires sized { length (N.device nvm.old).image ≡ image_blocks control.old.p }
        requires up { (N.device nvm.old).down ≡ false }
        ensures ok { OnOk result (control.new ≡ control.old) }
        ensures err { OnErr result (control.new ≡ control.old) }
        ensures nvm { Takes (ReadAt header_place) result (N.device nvm.old) (N.device nvm.new) }
    {
        nvm.read(HEADER_PLACE)?;
        Ok(())
    }

    fn first_place(geometry: &Geometry, state: &MachState, b: u64) -> u64 {
        pool_number(geometry, b / 64, b % 64)
    }

    fn first_slot(geometry: &Geometry, state: &MachState, k: u64) -> Block {
        start_slot_block(geometry, state, k)
    }

    ghost lawful = { pool_is_listed };

    ghost of_images = { refl };
}
