//! The scheme, and what its calls make of it.
ghost use Rattle.std.specs.Prelude.{◌≡◌, ◌<◌, true, false, length, IfOk, OnOk, OnErr};
ghost use Rattle.thy_block.specs.Device.{block_at};
ghost use Rattle.thy_checkpoint.specs.Boot.{IsBoot};
ghost use Rattle.thy_checkpoint.specs.Filling.{layout_at};
ghost use Rattle.thy_checkpoint.specs.Steps.{CanStep};
ghost use Rattle.thy_scheme_parts.specs.Seen.{loads_at};
ghost use Rattle.thy_dram.specs.Contents.{lost};
ghost use Rattle.thy_checkpoint.specs.Progress.{Acts, Fits, action_next, is_under_way, phase_of};
ghost use Rattle.thy_isa.specs.Step.{state_of};
ghost use Rattle.thy_scheme_parts.specs.Boots.{engine_at};
ghost use Rattle.thy_scheme_parts.specs.Calls.{IsReading, Promotes, TakesBootStep, drained, merged, powered_on, promoted, sealed, step_of, stored, taken};
ghost use Rattle.thy_scheme_parts.specs.Design.{design_of};
ghost use Rattle.thy_scheme_parts.specs.Holding.{holding_of};
ghost use Rattle.thy_scheme_parts.specs.Storing.{CanStore};
ghost use Rattle.thy_computer.specs.Kind.{IsDramOf};

use std::alloc::{AllocError, Global};
use std::marker::Model;
use thy_block::{Block, Geometry, Nvm, NvmError, Stored};
use thy_checkpoint::{Boot, Checkpoints, End, Engine, Fills, Stage};
use thy_computer::BootStep;
use thy_dram::Dram;
use thy_isa::CpuState;
use thy_layout::{EngineStep, Start};
use thy_scheme_parts::Parts;

/// A scheme of checkpoints over a controller: the engine writes what the controller holds, and the boot fills it.
#[derive(Drop)]
pub struct Composed<P: Parts>
where
    P::Control: Drop,
{
    pub(crate) control: P::Control,
    pub(crate) engine: Engine,
    /// No block was stored since the last seal. Contracts speak of it; no code reads it but to set `sealed_storeless`.
    pub(crate) storeless: bool,
    /// No block was stored in the epoch that was sealed last. Contracts speak of it; no code reads it.
    pub(crate) sealed_storeless: bool,
    pub(crate) boot: Boot,
}

impl<P: Parts> Model for Composed<P>
where
    P::Control: Drop,
{
    ghost use Rattle.thy_scheme_parts.specs.Design.{Composed as Contents};

    ghost Value = { Contents P.Control };

    ghost view = { λ d. record {
      control = d.control;
      engine = d.engine;
      storeless = d.storeless;
      sealed_storeless = d.sealed_storeless;
      boot = d.boot;
    } };
}

/// Whether a boot at this stage has found that there is no checkpoint.
fn is_loading(stage: Stage) -> bool
    ensures { result ≡ loads_at stage }
{
    match stage {
        Stage::Loads(_) => true,
        Stage::Reads(_) | Stage::Migrates(_) | Stage::Over(_) => false,
    }
}

/// With a checkpoint restored, the engine begins with what follows its commit, if something does.
fn begin_tail<P: Parts>(stage: Stage, engine: &mut Engine)
    ensures { engine.new ≡ engine_at (design_of P.filling P.items P.parts) stage engine.old }
{
    match stage {
        Stage::Over(End::Restored) => {
            if P::has_tail() {
                engine.apply();
            }
        }
        Stage::Over(End::Loaded) | Stage::Reads(_) | Stage::Loads(_) | Stage::Migrates(_) => {}
    }
}

// Each of these equals its specification, whatever the run.
impl<P: Parts> Composed<P>
where
    P::Control: Drop,
{
    /// A scheme whose power has just come on, over a DRAM of any content. Fails if memory runs out; then the DRAM is given up.
    pub fn power_on(
        alloc: Global,
        geometry: &Geometry,
        dram: Dram,
    ) -> Result<Composed<P>, AllocError>
        requires { IsDramOf geometry.now dram }
        ensures { IfOk result (λ s. s ≡ powered_on (design_of P.filling P.items P.parts) geometry.now dram) }
    {
        let boot = Boot::new::<P>(alloc, geometry)?;
        let engine = Engine::new(geometry);
        let control = P::power_on(alloc, geometry, dram)?;
        Ok(Composed {
            control,
            engine,
            storeless: true,
            sealed_storeless: false,
            boot,
        })
    }

    /// Cuts the power: only the DRAM is left, and every byte of it becomes one that the pick draws.
    pub fn power_off(self, pick: u64) -> Dram
        ensures { result ≡ lost (P.filling.dram self.control) pick }
    {
        P::cut(self.control, pick)
    }

    /// Recalls that the controller's tables and its DRAM are sound. The call does nothing.
    pub fn recall_sound(&self)
        ensures { P.parts.sound self.now.control }
    {
        P::recall_sound(&self.control);
    }

    /// Reads block `b` of memory as it was stored last. Nothing changes if it succeeds.
    pub fn load_block<N: Nvm>(&self, b: u64, nvm: &mut N) -> Result<Block, NvmError>
        requires inside { b < length (P.filling.loads self.now.control (N.device nvm.old)) }
        requires sized { length (N.device nvm.old).image ≡ (layout_at P.filling (P.filling.p self.now.control)).image_blocks }
        requires up { (N.device nvm.old).down ≡ false }
        ensures ok { let held = P.filling.loads self.now.control (N.device nvm.old) in
            IfOk result (λ block. block ≡ block_at held b) }
        ensures side { OnErr result (P.parts.load_reads self.now.control b ≡ true) }
        ensures reads { IsReading result (N.device nvm.old) (N.device nvm.new) }
    {
        P::load(&self.control, b, nvm)
    }

    /// Reads block `b` of memory as the committed checkpoint has it. Nothing changes if it succeeds.
    pub fn load_committed<N: Nvm>(&self, b: u64, nvm: &mut N) -> Result<Block, NvmError>
        requires inside { b < length (P.parts.committed (phase_of self.now.engine.stage) self.now.control (N.device nvm.old)) }
        requires sized { length (N.device nvm.old).image ≡ (layout_at P.filling (P.filling.p self.now.control)).image_blocks }
        requires up { (N.device nvm.old).down ≡ false }
        ensures ok { let held = P.parts.committed (phase_of self.now.engine.stage) self.now.control (N.device nvm.old) in
            IfOk result (λ block. block ≡ block_at held b) }
        ensures side { OnErr result (P.parts.committed_reads (phase_of self.now.engine.stage) self.now.control b ≡ true) }
        ensures reads { IsReading result (N.device nvm.old) (N.device nvm.new) }
    {
        P::committed(&self.control, self.engine.stage(), b, nvm)
    }

    /// Stores block `b`, or makes the copy that has to come first.
    pub fn store_block<N: Nvm>(
        &mut self,
        b: u64,
        block: &Block,
        nvm: &mut N,
    ) -> Result<Stored, NvmError>
        requires { CanStore (design_of P.filling P.items P.parts) b self.old.control (N.device nvm.old) }
        ensures answer { IfOk result (λ stored. stored ≡ P.parts.store_answer b self.old.control) }
        ensures acts { let n = N.device nvm.old in let later = stored (design_of P.filling P.items P.parts) b block.now self.old n in
            let action = P.parts.store_action b block.now self.old.control in
            Acts action later result self.old n self.new (N.device nvm.new) }
    {
        let answer = P::store(&mut self.control, b, block, nvm)?;
        self.storeless = P::storeless_after(answer, self.storeless);
        Ok(answer)
    }

    /// Lets the oldest queued write of the DRAM land.
    pub fn drain_one(&mut self)
        requires { 0 < (P.filling.dram self.old.control).queued }
        ensures { self.new ≡ drained (design_of P.filling P.items P.parts) self.old }
    {
        P::drain(&mut self.control);
    }

    /// Merges the next block that lies over its page, if there is one.
    pub fn merge_next(&mut self)
        ensures { self.new ≡ merged (design_of P.filling P.items P.parts) self.old }
    {
        P::merge(&mut self.control);
    }

    /// Promotes the next block of a page that is being promoted, if there is one.
    pub fn promote_next<N: Nvm>(&mut self, nvm: &mut N) -> Result<(), NvmError>
        requires sized { length (N.device nvm.old).image ≡ (layout_at P.filling (P.filling.p self.old.control)).image_blocks }
        requires up { (N.device nvm.old).down ≡ false }
        ensures promotes { let later = promoted (design_of P.filling P.items P.parts) self.old (N.device nvm.old) in
            Promotes later result self.old self.new }
        ensures some { OnErr result (P.parts.pages.promoting self.old.control ≡ true) }
        ensures reads { IsReading result (N.device nvm.old) (N.device nvm.new) }
    {
        P::promote(&mut self.control, nvm)
    }

    /// Seals an epoch: the controller seals its tables, and the engine begins the checkpoint with this processor.
    pub fn seal_epoch(&mut self, cpu: &CpuState, epoch: u64)
        requires idle { is_under_way self.old.engine.stage ≡ false }
        requires whole { P.parts.pages.promoting self.old.control ≡ false }
        requires bare { P.parts.pages.overlaid self.old.control ≡ false }
        requires regs { length cpu.now.regs ≡ 32 }
        ensures { self.new ≡ sealed (design_of P.filling P.items P.parts) cpu.now epoch self.old }
    {
        P::seal(&mut self.control);
        self.sealed_storeless = self.storeless;
        self.storeless = true;
        self.engine.begin(cpu, epoch);
    }

    /// Takes the next action of the engine.
    pub fn take_item<N: Nvm>(&mut self, nvm: &mut N) -> Result<EngineStep, NvmError>
        requires fits { Fits P.filling P.items self.old.engine self.old.control }
        requires sized { length (N.device nvm.old).image ≡ (layout_at P.filling self.old.engine.p).image_blocks }
        requires up { (N.device nvm.old).down ≡ false }
        ensures answer { IfOk result (λ step. step ≡ step_of (design_of P.filling P.items P.parts) self.old) }
        ensures acts { let n = N.device nvm.old in let later = taken (design_of P.filling P.items P.parts) self.old in
            let action = action_next P.filling P.items self.old.engine self.old.control n in
            Acts action later result self.old n self.new (N.device nvm.new) }
    {
        self.engine.step::<P, N>(&mut self.control, nvm)
    }

    /// Takes the boot's next action. With a checkpoint restored, the engine begins its tail, if it has one.
    pub fn take_boot_step<N: Nvm>(
        &mut self,
        start: &Start,
        nvm: &mut N,
    ) -> Result<BootStep, NvmError>
        requires can { CanStep P.filling (state_of start.now.state) (N.device nvm.old) self.old.boot self.old.control }
        requires fits { IsBoot P.filling self.old.boot }
        requires up { (N.device nvm.old).down ≡ false }
        ensures takes { let n = N.device nvm.old in let m = N.device nvm.new in
            TakesBootStep (design_of P.filling P.items P.parts) start.now self.old n result self.new m }
        ensures sound { P.parts.sound self.new.control }
    {
        let result = self.boot.step::<P, N>(&mut self.control, start, nvm);
        P::recall_sound(&self.control);
        begin_tail::<P>(self.boot.stage(), &mut self.engine);
        result
    }

    /// Whether the boot has found that there is no checkpoint.
    pub fn is_loading(&self) -> bool
        ensures { result ≡ loads_at self.now.boot.stage }
    {
        is_loading(self.boot.stage())
    }
}
