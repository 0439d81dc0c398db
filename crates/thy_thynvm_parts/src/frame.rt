//! A position, filled: a block of a listed page, copied into its frame.
ghost use Rattle.std.specs.Prelude.{◌≡◌, false, length, OnOk, OnErr};
ghost use Rattle.thy_block.specs.Device.{newest};
ghost use Rattle.thy_table.specs.Places.{image_blocks};
ghost use Rattle.thy_checkpoint.specs.Filling.{IsNext};
ghost use Rattle.thy_checkpoint.specs.Loads.{Takes};
ghost use Rattle.thy_thynvm_parts.specs.Filling.{page_place, with_filled, filling_thynvm};
ghost use Rattle.thy_computer.specs.Action.{ReadAt};

use thy_block::{Block, Nvm, NvmError, PAGE_BLOCKS};
use thy_control::Control;

/// Copies the block of a position from the alternate page into the frame. If the read failed, the controller is as before.
pub fn fill<N: Nvm>(
    control: &mut Control,
    commit: &Block,
    k: u64,
    nvm: &mut N,
) -> Result<(), NvmError>
    requires next { IsNext filling_thynvm commit.now control.old k }
    requires sized { length (N.device nvm.old).image ≡ image_blocks control.old.p }
    requires up { (N.device nvm.old).down ≡ false }
    ensures ok { let block = newest (N.device nvm.old) (page_place control.old k) in
        OnOk result (control.new ≡ with_filled k block control.old) }
    ensures err { OnErr result (control.new ≡ control.old) }
    ensures nvm { Takes (ReadAt (page_place control.old k)) result (N.device nvm.old) (N.device nvm.new) }
{
    let _commit = commit;
    control.frame_block((k / PAGE_BLOCKS) as usize, k % PAGE_BLOCKS, nvm)
}
