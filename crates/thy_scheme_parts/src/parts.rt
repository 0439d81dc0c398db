//! What a scheme says of itself beside its boot and its engine.
ghost use Rattle.std.specs.Prelude.{◌≡◌, ◌<◌, true, false, length, IfOk, OnErr};
ghost use Rattle.thy_block.specs.Device.{block_at};
ghost use Rattle.thy_checkpoint.specs.Filling.{layout_at};
ghost use Rattle.thy_dram.specs.Contents.{lost};
ghost use Rattle.thy_checkpoint.specs.Progress.{Acts, phase_of};
ghost use Rattle.thy_scheme_parts.specs.AreParts.{AreParts};
ghost use Rattle.thy_scheme_parts.specs.Calls.{IsReading, Promotes, merged_next, promoted_next};
ghost use Rattle.thy_scheme_parts.specs.Design.{PartsOf, design_of};
ghost use Rattle.thy_scheme_parts.specs.Storing.{CanStore};
ghost use Rattle.thy_computer.specs.Kind.{IsDramOf};

use std::alloc::{AllocError, Global};
use thy_block::{Block, Geometry, Nvm, NvmError, Stored};
use thy_checkpoint::{Checkpoints, EngineStage, Fills};
use thy_dram::Dram;

/// A scheme's controller: how power comes on, how loads and stores go, and what a seal makes of it. Together with what its
/// boot fills and what its engine writes that is a scheme.
pub trait Parts: Checkpoints {
    /// What controllers mean and show after the boot.
    ghost parts: { PartsOf Self.Control };

    /// A controller whose power has just come on, over a DRAM of any content.
    fn power_on(alloc: Global, geometry: &Geometry, dram: Dram) -> Result<Self::Control, AllocError>
        requires { IsDramOf geometry.now dram }
        ensures { IfOk result (λ control. control ≡ parts.powered geometry.now dram) };

    /// Loses power: all is gone but the DRAM, whose bytes are those that the pick draws.
    fn cut(control: Self::Control, pick: u64) -> Dram
        ensures { result ≡ lost (Self.filling.dram control) pick };

    /// Recalls that the controller's tables and its DRAM are sound. The call does nothing.
    fn recall_sound(control: &Self::Control)
        ensures { parts.sound control.now };

    /// Reads block `b` of memory as it was stored last. It fails only if that block is in the NVM.
    fn load<N: Nvm>(control: &Self::Control, b: u64, nvm: &mut N) -> Result<Block, NvmError>
        requires inside { b < length (Self.filling.loads control.now (N.device nvm.old)) }
        requires sized { length (N.device nvm.old).image ≡ (layout_at Self.filling (Self.filling.p control.now)).image_blocks }
        requires up { (N.device nvm.old).down ≡ false }
        ensures ok { let held = Self.filling.loads control.now (N.device nvm.old) in
            IfOk result (λ block. block ≡ block_at held b) }
        ensures side { OnErr result (parts.load_reads control.now b ≡ true) }
        ensures reads { IsReading result (N.device nvm.old) (N.device nvm.new) };

    /// Reads block `b` of memory as the committed checkpoint has it.
    fn committed<N: Nvm>(
        control: &Self::Control,
        stage: EngineStage,
        b: u64,
        nvm: &mut N,
    ) -> Result<Block, NvmError>
        requires inside { b < length (parts.committed (phase_of stage) control.now (N.device nvm.old)) }
        requires sized { length (N.device nvm.old).image ≡ (layout_at Self.filling (Self.filling.p control.now)).image_blocks }
        requires up { (N.device nvm.old).down ≡ false }
        ensures ok { let held = parts.committed (phase_of stage) control.now (N.device nvm.old) in
            IfOk result (λ block. block ≡ block_at held b) }
        ensures side { OnErr result (parts.committed_reads (phase_of stage) control.now b ≡ true) }
        ensures reads { IsReading result (N.device nvm.old) (N.device nvm.new) };

    /// Stores block `b` of memory, or makes the copy that has to come first.
    fn store<N: Nvm>(
        control: &mut Self::Control,
        b: u64,
        block: &Block,
        nvm: &mut N,
    ) -> Result<Stored, NvmError>
        requires { CanStore (design_of Self.filling Self.items parts) b control.old (N.device nvm.old) }
        ensures answer { IfOk result (λ stored. stored ≡ parts.store_answer b control.old) }
        ensures acts { let later = parts.stored b block.now control.old (N.device nvm.old) in
            let action = parts.store_action b block.now control.old in
            Acts action later result control.old (N.device nvm.old) control.new (N.device nvm.new) };

    /// Whether still no block was stored, after a store that returned this.
    fn storeless_after(stored: Stored, storeless: bool) -> bool
        ensures { result ≡ parts.storeless_after stored storeless };

    /// How many table entries are free.
    fn free(control: &Self::Control) -> u64
        ensures { result ≡ parts.free control.now };

    /// How many writes are queued in the DRAM.
    fn queued(control: &Self::Control) -> u64
        ensures { result ≡ (Self.filling.dram control.now).queued };

    /// Lets the oldest queued write of the DRAM land.
    fn drain(control: &mut Self::Control)
        requires { 0 < (Self.filling.dram control.old).queued }
        ensures { control.new ≡ Self.filling.drained control.old };

    /// Whether a block has still to be merged into its page before a seal.
    fn overlay(control: &Self::Control) -> bool
        ensures { result ≡ parts.pages.overlaid control.now };

    /// Merges the next block that lies over its page, if there is one.
    fn merge(control: &mut Self::Control)
        ensures { control.new ≡ merged_next parts.pages control.old };

    /// Whether a block of a page has still to be promoted before a store.
    fn promoting(control: &Self::Control) -> bool
        ensures { result ≡ parts.pages.promoting control.now };

    /// Promotes the next block of a page in promotion, if there is one. If the NVM failed, the controller is as it was.
    fn promote<N: Nvm>(control: &mut Self::Control, nvm: &mut N) -> Result<(), NvmError>
        requires sized { length (N.device nvm.old).image ≡ (layout_at Self.filling (Self.filling.p control.old)).image_blocks }
        requires up { (N.device nvm.old).down ≡ false }
        ensures promotes { let n = N.device nvm.old in
            Promotes (promoted_next parts.pages control.old n) result control.old control.new }
        ensures some { OnErr result (parts.pages.promoting control.old ≡ true) }
        ensures reads { IsReading result (N.device nvm.old) (N.device nvm.new) };

    /// Seals an epoch: what was stored since the last seal goes to the checkpoint that begins.
    fn seal(control: &mut Self::Control)
        requires whole { parts.pages.promoting control.old ≡ false }
        requires bare { parts.pages.overlaid control.old ≡ false }
        ensures { control.new ≡ parts.seal control.old };

    /// Whether the hart may run while a checkpoint is under way.
    fn overlaps() -> bool
        ensures { result ≡ parts.overlaps };

    /// What holds of the parts.
    ghost are_parts: { AreParts (design_of Self.filling Self.items parts) };
}
