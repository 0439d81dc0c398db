//! What a scheme says of its checkpoints to the engine.
ghost use Rattle.std.specs.Prelude.{◌≡◌, ◌+◌, ◌<◌, false, true, length, Some, IfSome};
ghost use Rattle.thy_layout.specs.Commit.{commit_of};
ghost use Rattle.thy_block.specs.Places.{record_blocks};
ghost use Rattle.thy_checkpoint.specs.Filling.{layout_at};
ghost use Rattle.thy_checkpoint.specs.Items.{ItemsOf, AreItems, Making, Made, Applying};
ghost use Rattle.thy_checkpoint.specs.Progress.{Acts};
ghost use Rattle.thy_computer.specs.Action.{WriteAt};

use crate::Fills;
use thy_block::{Block, Geometry, Nvm, NvmError};
use thy_layout::EngineStep;

/// A scheme's part of a checkpoint. Before the slot the body is written, after the commit the tail, if the scheme has
/// one: both go over positions, each of which is one action on the NVM. The engine writes the slot, of which the scheme
/// gives what follows the processor's record, and the commit block, and makes the barriers.
pub trait Checkpoints: Fills {
    /// What controllers mean and show while their checkpoints are made, by which contracts speak of them.
    ghost items: { ItemsOf Self.Control };

    /// The first position, `from` or later, that the body writes; None if there is none. The search may move what the controller keeps to
    /// find the next.
    fn next_body(control: &mut Self::Control, from: u64) -> Option<u64>
        ensures same { control.new ≡ control.old }
        ensures next { result ≡ items.body_next control.old from }
        ensures few { IfSome result (λ k. k < 4294967296) };

    /// Writes a position of the body: one write of the NVM.
    fn write_body<N: Nvm>(
        control: &mut Self::Control,
        epoch: u64,
        k: u64,
        nvm: &mut N,
    ) -> Result<(), NvmError>
        requires stands { items.stands (Making k) control.old }
        requires next { items.body_next control.old k ≡ Some k }
        requires sized { length (N.device nvm.old).image ≡ (layout_at Self.filling (Self.filling.p control.old)).image_blocks }
        requires up { (N.device nvm.old).down ≡ false }
        ensures { let block = items.body_block control.old (N.device nvm.old) k in
            let action = WriteAt (items.body_place epoch control.old k) block in
            Acts action (items.body_after control.old k) result control.old (N.device nvm.old) control.new (N.device nvm.new) };

    /// What the engine reports of a position that was written, in body and tail.
    fn step_of(geometry: &Geometry, k: u64) -> EngineStep
        ensures { result ≡ items.step_of geometry.now k };

    /// Block `k` of the slot of an epoch after the processor's record.
    fn rest(control: &Self::Control, epoch: u64, k: u64) -> Block
        requires stands { items.stands Made control.now }
        requires inside { let p = Self.filling.p control.now in
            record_blocks p + k < (layout_at Self.filling p).slot_blocks (commit_of epoch) }
        ensures { result ≡ items.rest control.now k };

    /// Notes that the checkpoint is committed.
    fn commit(control: &mut Self::Control)
        requires { items.stands Made control.old }
        ensures { control.new ≡ items.committed control.old };

    /// Whether a tail follows the commit.
    fn has_tail() -> bool
        ensures { result ≡ items.has_tail };

    /// The first position, `from` or later, that the tail writes; None if there is none.
    fn next_tail(control: &Self::Control, from: u64) -> Option<u64>
        ensures next { result ≡ items.tail_next control.now from }
        ensures few { IfSome result (λ k. k < 4294967296) };

    /// Writes a position of the tail. Of a scheme without one it says nothing, and the engine never calls it.
    fn write_tail<N: Nvm>(control: &mut Self::Control, k: u64, nvm: &mut N) -> Result<(), NvmError>
        requires stands { items.has_tail ≡ true → items.stands (Applying k) control.old }
        requires next { items.has_tail ≡ true → items.tail_next control.old k ≡ Some k }
        requires sized { length (N.device nvm.old).image ≡ (layout_at Self.filling (Self.filling.p control.old)).image_blocks }
        requires up { (N.device nvm.old).down ≡ false }
        ensures { let block = items.tail_block control.old (N.device nvm.old) k in
            let action = WriteAt (items.tail_place control.old k) block in
            items.has_tail ≡ true
            → Acts action (items.tail_after control.old k) result control.old (N.device nvm.old) control.new (N.device nvm.new) };

    /// Notes that all of the checkpoint's tail is on the NVM.
    fn release(control: &mut Self::Control)
        ensures { control.new ≡ items.released control.old };

    /// Recalls the laws of checkpoints' items. The call does nothing.
    fn recall_items()
        ensures { AreItems Self.filling items };
}
