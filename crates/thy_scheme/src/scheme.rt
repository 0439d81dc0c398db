//! What a scheme of checkpoints is to the machine above it.
ghost use Rattle.std.specs.Prelude.{◌≡◌, ◌&&◌, ◌<◌, true, false, length, IfOk, OnOk, OnErr};
ghost use Rattle.thy_block.specs.declared.parameters.Parameters.{Parameters};
ghost use Rattle.thy_block.specs.Device.{Device, HasFailed, IsFramed, CountsFault, block_at};
ghost use Rattle.thy_block.specs.Store.{IsKeptByLoad};
ghost use Rattle.thy_dram.specs.Contents.{lost};
ghost use Rattle.thy_isa.specs.Step.{state_of};
ghost use Rattle.thy_computer.specs.Kind.{IsDramOf};
ghost use Rattle.thy_computer.specs.Origin.{Origin, Begins};
ghost use Rattle.thy_computer.specs.Views.{loads};
ghost use Rattle.thy_scheme.specs.CheckpointMarks.{CheckpointMarks};
ghost use Rattle.thy_scheme.specs.Exact.{Makes};
ghost use Rattle.thy_scheme.specs.Scheme.{SchemeOf, StaysOf, Stands, CanRun, IsBooting, CanBoot};
ghost use Rattle.thy_scheme.specs.Calls.{IsOneAccess, Stores, Merges, Promotes, PromotionFails, TakesNoAction, Drains, Seals, Engines, EngineFails};
ghost use Rattle.thy_scheme.specs.Boots.{BootsOn, BootFails, BootDrains};
ghost use Rattle.thy_scheme.specs.Laws.{IsLawful};

use std::alloc::{AllocError, Global};
use thy_block::{Block, Geometry, Nvm, NvmError, Stored};
use thy_computer::BootStep;
use thy_dram::Dram;
use thy_isa::CpuState;
use thy_layout::{EngineStep, Start};

/// A scheme of checkpoints: memory over a DRAM and an NVM, of which it keeps a committed version while the next one is
/// made. It has the boot, which finds the committed version, and the engine, which makes the next.
///
/// Only `new` allocates. A call returns `NvmError` only if the NVM failed; after that only `cut` may be called. A call that
/// succeeds makes exactly what `scheme.calls` says of it.
pub trait Scheme: Drop {
    /// The state, the invariants and the exact effects of the scheme's calls, by which contracts speak of it.
    ghost scheme: { SchemeOf Self };

    /// How many blocks of 64 bytes the scheme's NVM has.
    fn nvm_blocks(geometry: &Geometry) -> u64
        ensures { result ≡ scheme.blocks geometry.now };

    /// A scheme whose power has just come on, over a DRAM of any content. Fails if memory runs out; then the DRAM is given up.
    fn new(alloc: Global, geometry: &Geometry, dram: Dram) -> Result<Self, AllocError>
        requires { IsDramOf geometry.now dram }
        ensures powered { IfOk result (λ s. scheme.powered geometry.now s) }
        ensures dram { IfOk result (λ s. scheme.dram s ≡ dram) }
        ensures exact { IfOk result (λ s. s ≡ scheme.calls.powered_on geometry.now dram) };

    /// Cuts the power: only the DRAM is left, and every byte of it becomes one that the pick draws.
    fn cut(self, pick: u64) -> Dram
        ensures drawn { result ≡ lost (scheme.dram self) pick }
        ensures sized { (p : Parameters) → scheme.is_of p self → IsDramOf p result };

    /// Reads block `b` of memory as it was stored last. Nothing changes if it succeeds.
    fn load<N: Nvm>(&self, b: u64, nvm: &mut N) -> Result<Block, NvmError>
        requires { b < length (scheme.holding self.now (N.device nvm.old)).blocks }
        ensures ok { IfOk result (λ block. block ≡ block_at (scheme.holding self.now (N.device nvm.old)).blocks b) }
        ensures same { OnOk result (N.device nvm.new ≡ N.device nvm.old) }
        ensures err { OnErr result (HasFailed (N.device nvm.old) (N.device nvm.new)) }
        ensures kept { IsKeptByLoad (scheme.holding self.now (N.device nvm.old)) (scheme.holding self.now (N.device nvm.new)) }
        ensures stays { scheme.stays self.now (N.device nvm.old) self.now (N.device nvm.new) }
        ensures frame { IsFramed (N.device nvm.old) (N.device nvm.new) }
        ensures cause { CountsFault result (N.device nvm.old).faults (N.device nvm.new).faults };

    /// Stores block `b` of memory, or makes the copy that has to come first. There must be room for a store.
    fn store<N: Nvm>(&mut self, b: u64, block: &Block, nvm: &mut N) -> Result<Stored, NvmError>
        requires inside { b < length (scheme.holding self.old (N.device nvm.old)).blocks }
        requires ready { (scheme.holding self.old (N.device nvm.old)).ready ≡ true }
        requires room { 0 < (scheme.holding self.old (N.device nvm.old)).free }
        ensures ok { IfOk result (λ stored. Stores scheme stored b block.now self.old (N.device nvm.old) self.new (N.device nvm.new)) }
        ensures up { OnOk result ((N.device nvm.new).down ≡ false) }
        ensures err { OnErr result ((N.device nvm.new).down ≡ true) }
        ensures once { IsOneAccess scheme self.old (N.device nvm.old) self.new (N.device nvm.new) }
        ensures cause { CountsFault result (N.device nvm.old).faults (N.device nvm.new).faults }
        ensures exact { let made = scheme.calls.store b block.now self.old (N.device nvm.old) in
            IfOk result (λ stored. Makes made stored (N.device nvm.old) self.new (N.device nvm.new)) };

    /// Reads block `b` of memory as the committed checkpoint has it. Nothing changes if it succeeds.
    fn committed<N: Nvm>(&self, b: u64, nvm: &mut N) -> Result<Block, NvmError>
        requires block { b < length (scheme.committed self.now (N.device nvm.old)) }
        requires stands { CanRun scheme self.now (N.device nvm.old) }
        ensures ok { IfOk result (λ block. block ≡ block_at (scheme.committed self.now (N.device nvm.old)) b) }
        ensures same { OnOk result (N.device nvm.new ≡ N.device nvm.old) }
        ensures err { OnErr result (HasFailed (N.device nvm.old) (N.device nvm.new)) }
        ensures frame { IsFramed (N.device nvm.old) (N.device nvm.new) }
        ensures cause { CountsFault result (N.device nvm.old).faults (N.device nvm.new).faults };

    /// How many table entries are free.
    fn free(&self) -> u64
        ensures { result ≡ scheme.free self.now };

    /// Whether a block has still to be merged into its page before a seal.
    fn overlay(&self) -> bool
        ensures { result ≡ scheme.overlaid self.now };

    /// Whether a block of a page has still to be promoted before a store.
    fn promoting(&self) -> bool
        ensures { result ≡ scheme.promoting self.now };

    /// Whether a checkpoint is under way: an epoch is sealed, or what its checkpoint has written is applied.
    fn under_way(&self) -> bool
        ensures { result ≡ scheme.under_way self.now };

    /// Whether the hart may run while a checkpoint is under way.
    fn overlaps() -> bool
        ensures { result ≡ scheme.overlaps };

    /// How many writes are queued in the scheme's DRAM.
    fn queued(&self) -> u64
        ensures { result ≡ scheme.queued self.now };

    /// Lets the oldest queued write of the DRAM land.
    fn drain(&mut self)
        requires { 0 < scheme.queued self.old }
        ensures running { (o : Origin) (k : CheckpointMarks) (n : Device)
            → Stands scheme o k self.old n → Drains scheme o k self.old n self.new }
        ensures booting { (o : Origin) (n : Device) → IsBooting scheme o self.old n → BootDrains scheme o self.old n self.new }
        ensures exact { self.new ≡ scheme.calls.drained self.old };

    /// Merges a block into its page; no checkpoint may be under way. If no block has to be merged, nothing changes.
    fn merge_one(&mut self)
        requires idle { scheme.under_way self.old ≡ false }
        ensures some { scheme.overlaid self.old ≡ true
            → (o : Origin) (k : CheckpointMarks) (n : Device) → Stands scheme o k self.old n → Merges scheme o k self.old n self.new }
        ensures none { scheme.overlaid self.old ≡ false → self.new ≡ self.old }
        ensures exact { self.new ≡ scheme.calls.merged self.old };

    /// Promotes a block of a page, if one has to be promoted; otherwise it takes no action.
    fn promote_one<N: Nvm>(&mut self, nvm: &mut N) -> Result<(), NvmError>
        requires stands { CanRun scheme self.old (N.device nvm.old) }
        ensures ok { scheme.promoting self.old ≡ true
            → (o : Origin) (k : CheckpointMarks) → Stands scheme o k self.old (N.device nvm.old)
            → OnOk result (Promotes scheme o k self.old (N.device nvm.old) self.new (N.device nvm.new)) }
        ensures none { scheme.promoting self.old ≡ false
            → TakesNoAction result self.old (N.device nvm.old) self.new (N.device nvm.new) }
        ensures err { OnErr result (PromotionFails (N.device nvm.old) (N.device nvm.new)) }
        ensures left { OnErr result (StaysOf scheme self.old self.new) }
        ensures frame { IsFramed (N.device nvm.old) (N.device nvm.new) }
        ensures cause { CountsFault result (N.device nvm.old).faults (N.device nvm.new).faults }
        ensures exact { let made = scheme.calls.promote self.old (N.device nvm.old) in
            IfOk result (λ done. Makes made done (N.device nvm.old) self.new (N.device nvm.new)) };

    /// Seals an epoch: a checkpoint of memory as it is now, and of this processor, begins. No checkpoint may be under way, no block to be
    /// promoted, and none to be merged.
    fn seal(&mut self, cpu: &CpuState, epoch: u64)
        requires idle { scheme.under_way self.old ≡ false }
        requires whole { scheme.promoting self.old ≡ false }
        requires bare { scheme.overlaid self.old ≡ false }
        requires regs { length cpu.now.regs ≡ 32 }
        ensures seals { (o : Origin) (k : CheckpointMarks) (n : Device) → Stands scheme o k self.old n
            → Seals scheme o k cpu.now epoch self.old n self.new }
        ensures exact { self.new ≡ scheme.calls.sealed cpu.now epoch self.old };

    /// Takes the next action of the checkpoint that is under way. One must be under way.
    fn engine_step<N: Nvm>(&mut self, nvm: &mut N) -> Result<EngineStep, NvmError>
        requires way { scheme.under_way self.old ≡ true }
        requires stands { CanRun scheme self.old (N.device nvm.old) }
        ensures ok { (o : Origin) (k : CheckpointMarks) → Stands scheme o k self.old (N.device nvm.old)
            → IfOk result (λ step. Engines scheme o k step self.old (N.device nvm.old) self.new (N.device nvm.new)) }
        ensures err { (o : Origin) (k : CheckpointMarks) → Stands scheme o k self.old (N.device nvm.old)
            → OnErr result (EngineFails scheme o k (N.device nvm.old) (N.device nvm.new)) }
        ensures left { OnErr result (StaysOf scheme self.old self.new) }
        ensures frame { IsFramed (N.device nvm.old) (N.device nvm.new) }
        ensures cause { CountsFault result (N.device nvm.old).faults (N.device nvm.new).faults }
        ensures exact { let made = scheme.calls.engine self.old (N.device nvm.old) in
            IfOk result (λ step. Makes made step (N.device nvm.old) self.new (N.device nvm.new)) };

    /// Takes the next action of the boot, which is not over. `start` is what it loads if it finds no checkpoint.
    fn boot_step<N: Nvm>(&mut self, start: &Start, nvm: &mut N) -> Result<BootStep, NvmError>
        requires boots { CanBoot scheme start.now self.old (N.device nvm.old) }
        ensures ok { (o : Origin) → Begins o start.now → IsBooting scheme o self.old (N.device nvm.old)
            → IfOk result (λ step. BootsOn scheme o step self.old (N.device nvm.old) self.new (N.device nvm.new)) }
        ensures err { (o : Origin) → Begins o start.now → IsBooting scheme o self.old (N.device nvm.old)
            → OnErr result (BootFails scheme o self.old (N.device nvm.old) (N.device nvm.new)) }
        ensures left { OnErr result (StaysOf scheme self.old self.new) }
        ensures frame { IsFramed (N.device nvm.old) (N.device nvm.new) }
        ensures cause { CountsFault result (N.device nvm.old).faults (N.device nvm.new).faults }
        ensures exact { let s = state_of start.now.state in
            IfOk result (λ step. scheme.calls.boot s self.old (N.device nvm.old) step self.new (N.device nvm.new)) };

    /// Whether the boot has found that there is no checkpoint.
    fn loading(&self) -> bool
        ensures { (o : Origin) (n : Device) → scheme.boots o self.now n
            → result ≡ (scheme.has_read self.now && loads (scheme.boot_view o self.now n)) };

    /// The laws of schemes, which hold of this one.
    ghost lawful: { IsLawful scheme };
}
