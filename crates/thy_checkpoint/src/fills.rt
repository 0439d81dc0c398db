//! What a scheme says of its images to the boot.
ghost use Rattle.std.specs.Prelude.{◌≡◌, ◌*◌, ◌<◌, false, length, None, OnOk, OnErr, slice_index_or};
ghost use Rattle.thy_block.specs.Device.{newest};
ghost use Rattle.thy_block.specs.Geometry.{memory_blocks};
ghost use Rattle.thy_isa.specs.Step.{state_of};
ghost use Rattle.thy_layout.specs.Commit.{commit_of};
ghost use Rattle.thy_layout.specs.Files.{blocks_of};
ghost use Rattle.thy_computer.specs.Action.{ReadAt};
ghost use Rattle.thy_computer.specs.Safe.{ceiling};
ghost use Rattle.thy_checkpoint.specs.Filling.{FillingOf, IsFilling, IsNext, ListsOn, layout_at, first_by};
ghost use Rattle.thy_checkpoint.specs.Loads.{Takes};
ghost use Rattle.thy_checkpoint.specs.Start.{CanStart};

use thy_block::{Block, Geometry, Nvm, NvmError};
use thy_isa::MachState;
use thy_layout::ImageLayout;

/// The ceiling of a run's own images, `2^63`: their epochs and counts of instructions are below it.
pub const CEILING: u64 = 9_223_372_036_854_775_808;

/// A scheme's part of the boot: which controller lists what a slot says, what is filled from an image, and the slot that a
/// start makes in an empty NVM. The boot reads and writes; the layout of the images says where, and which image is at fault.
pub trait Fills: Drop {
    /// How the scheme's images are laid out.
    type Images: ImageLayout;

    /// The controller that a boot fills.
    type Control;

    /// What controllers mean and show while a boot fills them, by which contracts speak of them.
    ghost filling: { FillingOf Self.Control };

    /// Lists in a controller that lists nothing what a slot without a fault lists.
    fn list(geometry: &Geometry, commit: &Block, slot: &[u8], control: &mut Self::Control)
        requires slot { length slot.now ≡ 64 * (layout_at filling geometry.now).slot_blocks commit.now }
        requires geometry { filling.p control.old ≡ geometry.now }
        requires fresh { filling.fresh control.old }
        requires fits { (layout_at filling geometry.now).slot_bad ceiling commit.now (blocks_of slot.now) ≡ None }
        ensures { ListsOn filling commit.now (blocks_of slot.now) control.old control.new };

    /// An upper bound of the number of positions that have to be filled.
    fn most_fills(geometry: &Geometry) -> u64
        ensures { result ≡ filling.most_fills geometry.now };

    /// The first position, `from` or later, that has to be filled; None if there is none.
    fn next_fill(geometry: &Geometry, commit: &Block, slot: &[u8], from: u64) -> Option<u64>
        requires { length slot.now ≡ 64 * (layout_at filling geometry.now).slot_blocks commit.now }
        ensures { result ≡ filling.next_fill geometry.now commit.now (blocks_of slot.now) from };

    /// Fills a position with the one block that it reads. If that failed, the controller is as before.
    fn fill<N: Nvm>(
        control: &mut Self::Control,
        commit: &Block,
        k: u64,
        nvm: &mut N,
    ) -> Result<(), NvmError>
        requires next { IsNext filling commit.now control.old k }
        requires sized { length (N.device nvm.old).image ≡ (layout_at filling (filling.p control.old)).image_blocks }
        requires up { (N.device nvm.old).down ≡ false }
        ensures ok { let block = newest (N.device nvm.old) (filling.fill_place control.old commit.now k) in
            OnOk result (control.new ≡ filling.with_fill commit.now k block control.old) }
        ensures err { OnErr result (control.new ≡ control.old) }
        ensures nvm { Takes (ReadAt (filling.fill_place control.old commit.now k)) result (N.device nvm.old) (N.device nvm.new) };

    /// The place, in blocks of the NVM, to which block `b` of a start's memory is written.
    fn first_place(geometry: &Geometry, state: &MachState, b: u64) -> u64
        requires start { CanStart geometry.now (state_of state.now) }
        requires inside { b < memory_blocks geometry.now }
        ensures { result ≡ slice_index_or (first_by filling geometry.now (state_of state.now)).parts.memory b 0 };

    /// Block `k` of the slot of a start's checkpoint, of epoch 0.
    fn first_slot(geometry: &Geometry, state: &MachState, k: u64) -> Block
        requires start { CanStart geometry.now (state_of state.now) }
        requires inside { k < (layout_at filling geometry.now).slot_blocks (commit_of 0) }
        ensures { result ≡ filling.first_slot geometry.now (state_of state.now) k };

    /// The laws of fillings, which hold of this one.
    ghost lawful: { IsFilling filling };

    /// The filling is with images of this layout.
    ghost of_images: { filling.layouts ≡ Self.Images.layouts };
}
