//! The scheme, and what its calls make of it.
ghost use Rattle.std.specs.Prelude.{◌≡◌, ◌-◌, ◌<◌, true, false, length, IfOk, OnOk, OnErr};
ghost use Rattle.thy_block.specs.Device.{HasFailedToSettle, IsFramed, IsSettled, CountsFault, block_at};
ghost use Rattle.thy_checkpoint.specs.Boot.{IsBoot};
ghost use Rattle.thy_checkpoint.specs.Steps.{CanStep};
ghost use Rattle.thy_scheme_parts.specs.Seen.{loads_at};
ghost use Rattle.thy_control.specs.State.{AreSoundTables};
ghost use Rattle.thy_dram.specs.Contents.{lost};
ghost use Rattle.thy_thynvm_parts.specs.Design.{items_thynvm, thynvm_parts, thynvm_design, is_overlaid, is_promoting, penults};
ghost use Rattle.thy_thynvm_parts.specs.Scheme.{thynvm_scheme};
ghost use Rattle.thy_checkpoint.specs.Progress.{Acts, Fits, is_under_way as is_engine_under_way};
ghost use Rattle.thy_isa.specs.Step.{state_of};
ghost use Rattle.thy_scheme_parts.specs.Calls.{IsReading, Promotes, drained, merged, promoted, sealed, stored};
ghost use Rattle.thy_scheme_parts.specs.Storing.{CanStore};
ghost use Rattle.thy_table.specs.Places.{image_blocks};
ghost use Rattle.thy_thynvm_parts.specs.Filling.{filling_thynvm, loads};
ghost use Rattle.thy_computer.specs.Kind.{IsDramOf};
ghost use Rattle.thy_test_support.specs.WaitingScheme.{is_under_way};
ghost use Rattle.thy_test_support.specs.Waiting.{left_after, left_booted};
ghost use Rattle.thy_machine_tests.specs.Calls.{TakesBoot, TakesTurn, new_waiting, with_below};

use std::alloc::{AllocError, Global};
use std::marker::Model;
use thy_block::{Block, Geometry, Nvm, NvmError, Stored};
use thy_computer::BootStep;
use thy_dram::Dram;
use thy_isa::CpuState;
use thy_layout::{EngineStep, Start};
use thy_scheme::Scheme;
use thy_schemes::Thynvm;

/// How many barriers follow a commit or a restart.
const BARRIERS: u64 = 3;

/// The scheme thynvm, whose checkpoints the hart waits for: it may not run until the epoch that is sealed is
/// committed and three more barriers are made. After a restart, too, it waits for three barriers.
#[derive(Drop)]
pub struct WaitingScheme {
    pub(crate) below: Thynvm,
    /// The barriers that are left.
    pub(crate) left: u64,
}

impl Model for WaitingScheme {
    ghost use Rattle.thy_test_support.specs.Waiting.{Waiting};
    ghost use Rattle.thy_machine_tests.specs.Calls.{Below};

    ghost Value = { Waiting Below };

    ghost view = { λ w. record { below = w.below; left = w.left } };
}

/// How many barriers are left after a step of the engine below.
fn left_after(step: EngineStep) -> u64
    ensures { result ≡ left_after step }
{
    match step {
        EngineStep::Committed(_) => BARRIERS,
        EngineStep::Idle
        | EngineStep::Copied
        | EngineStep::PageBlock
        | EngineStep::StateBlock
        | EngineStep::TableBlock
        | EngineStep::Barrier
        | EngineStep::CommitWritten => 0,
    }
}

/// How many are left after a step of the boot.
fn left_booted(step: &BootStep) -> u64
    ensures { result ≡ left_booted step.now }
{
    match step {
        BootStep::Restarted(_, _) => BARRIERS,
        BootStep::GoesOn | BootStep::Loaded | BootStep::Refused(_) => 0,
    }
}

/// Makes one of the barriers that are left, and returns how many are left then.
fn make_barrier<N: Nvm>(left: u64, nvm: &mut N) -> Result<u64, NvmError>
    requires some { 0 < left }
    requires up { (N.device nvm.old).down ≡ false }
    ensures left { IfOk result (λ rest. rest ≡ left - 1) }
    ensures settles { OnOk result (IsSettled (N.device nvm.old) (N.device nvm.new)) }
    ensures err { OnErr result (HasFailedToSettle (N.device nvm.old) (N.device nvm.new)) }
    ensures frame { IsFramed (N.device nvm.old) (N.device nvm.new) }
    ensures cause { CountsFault result (N.device nvm.old).faults (N.device nvm.new).faults }
{
    nvm.barrier()?;
    Ok(left - 1)
}

// Each of these equals its specification, whatever the run: it is the call of the scheme below, and what it makes of the
// number of barriers (specs/Calls.antt).
impl WaitingScheme {
    /// A scheme whose power has just come on.
    pub fn power_on(
        alloc: Global,
        geometry: &Geometry,
        dram: Dram,
    ) -> Result<WaitingScheme, AllocError>
        requires { IsDramOf geometry.now dram }
        ensures { IfOk result (λ w. w ≡ new_waiting geometry.now dram) }
    {
        let below = Thynvm::power_on(alloc, geometry, dram)?;
        Ok(WaitingScheme { below, left: 0 })
    }

    /// Loses power: all is gone but the DRAM.
    pub fn power_off(self, pick: u64) -> Dram
        ensures { result ≡ lost self.below.control.dram pick }
    {
        self.below.power_off(pick)
    }

    /// The controller's tables are sound. The call does nothing.
    pub fn recall_sound(&self)
        ensures { AreSoundTables self.now.below.control }
    {
        self.below.recall_sound();
    }

    /// Loads block `b`, as it was stored last.
    pub fn load_block<N: Nvm>(&self, b: u64, nvm: &mut N) -> Result<Block, NvmError>
        requires inside { b < length (loads self.now.below.control (N.device nvm.old)) }
        requires sized { length (N.device nvm.old).image ≡ image_blocks self.now.below.control.p }
        requires up { (N.device nvm.old).down ≡ false }
        ensures ok { let held = loads self.now.below.control (N.device nvm.old) in
            IfOk result (λ block. block ≡ block_at held b) }
        ensures side { OnErr result (thynvm_parts.load_reads self.now.below.control b ≡ true) }
        ensures reads { IsReading result (N.device nvm.old) (N.device nvm.new) }
    {
        self.below.load_block(b, nvm)
    }

    /// Loads block `b` as the committed checkpoint has it.
    pub fn load_committed<N: Nvm>(&self, b: u64, nvm: &mut N) -> Result<Block, NvmError>
        requires inside { b < length (penults self.now.below.control (N.device nvm.old)) }
        requires sized { length (N.device nvm.old).image ≡ image_blocks self.now.below.control.p }
        requires up { (N.device nvm.old).down ≡ false }
        ensures ok { let held = penults self.now.below.control (N.device nvm.old) in
            IfOk result (λ block. block ≡ block_at held b) }
        ensures reads { IsReading result (N.device nvm.old) (N.device nvm.new) }
    {
        self.below.load_committed(b, nvm)
    }

    /// Stores block `b`, or makes the copy that has to come first.
    pub fn store_block<N: Nvm>(
        &mut self,
        b: u64,
        block: &Block,
        nvm: &mut N,
    ) -> Result<Stored, NvmError>
        requires { CanStore thynvm_design b self.old.below.control (N.device nvm.old) }
        ensures answer { IfOk result (λ stored. stored ≡ thynvm_parts.store_answer b self.old.below.control) }
        ensures acts { let n = N.device nvm.old in let below = self.old.below in
            let later = with_below (stored thynvm_design b block.now below n) self.old in
            Acts (thynvm_parts.store_action b block.now below.control) later result self.old n self.new (N.device nvm.new) }
    {
        self.below.store_block(b, block, nvm)
    }

    /// Lets the oldest queued write of the DRAM land.
    pub fn drain_one(&mut self)
        requires { 0 < self.old.below.control.dram.queued }
        ensures { self.new ≡ with_below (drained thynvm_design self.old.below) self.old }
    {
        self.below.drain_one();
    }

    /// Merges the next block that lies over its page, if there is one.
    pub fn merge_next(&mut self)
        ensures { self.new ≡ with_below (merged thynvm_design self.old.below) self.old }
    {
        self.below.merge_next();
    }

    /// Promotes the next block of a page that is being promoted, if there is one.
    pub fn promote_next<N: Nvm>(&mut self, nvm: &mut N) -> Result<(), NvmError>
        requires sized { length (N.device nvm.old).image ≡ image_blocks self.old.below.control.p }
        requires up { (N.device nvm.old).down ≡ false }
        ensures promotes { let later = promoted thynvm_design self.old.below (N.device nvm.old) in
            Promotes (with_below later self.old) result self.old self.new }
        ensures some { OnErr result (is_promoting self.old.below.control ≡ true) }
        ensures reads { IsReading result (N.device nvm.old) (N.device nvm.new) }
    {
        self.below.promote_next(nvm)
    }

    /// Seals an epoch, while no barrier is left.
    pub fn seal_epoch(&mut self, cpu: &CpuState, epoch: u64)
        requires idle { is_engine_under_way self.old.below.engine.stage ≡ false }
        requires whole { is_promoting self.old.below.control ≡ false }
        requires bare { is_overlaid self.old.below.control ≡ false }
        requires regs { length cpu.now.regs ≡ 32 }
        ensures { self.new ≡ with_below (sealed thynvm_design cpu.now epoch self.old.below) self.old }
    {
        self.below.seal_epoch(cpu, epoch);
    }

    /// Makes one of the barriers that are left; if there is none, takes the item of the engine that is next.
    pub fn take_turn<N: Nvm>(&mut self, nvm: &mut N) -> Result<EngineStep, NvmError>
        requires fits { Fits filling_thynvm items_thynvm self.old.below.engine self.old.below.control }
        requires sized { length (N.device nvm.old).image ≡ image_blocks self.old.below.engine.p }
        requires up { (N.device nvm.old).down ≡ false }
        ensures made { TakesTurn self.old (N.device nvm.old) result self.new (N.device nvm.new) }
        ensures frame { IsFramed (N.device nvm.old) (N.device nvm.new) }
        ensures cause { CountsFault result (N.device nvm.old).faults (N.device nvm.new).faults }
    {
        if self.left > 0 {
            let rest = make_barrier(self.left, nvm)?;
            self.left = rest;
            Ok(EngineStep::Barrier)
        } else {
            let step = self.below.take_item(nvm)?;
            self.left = left_after(step);
            Ok(step)
        }
    }

    /// Takes a step of the boot; with a restart, barriers are left.
    pub fn take_boot_step<N: Nvm>(
        &mut self,
        start: &Start,
        nvm: &mut N,
    ) -> Result<BootStep, NvmError>
        requires can { let s = state_of start.now.state in
            CanStep filling_thynvm s (N.device nvm.old) self.old.below.boot self.old.below.control }
        requires fits { IsBoot filling_thynvm self.old.below.boot }
        requires up { (N.device nvm.old).down ≡ false }
        ensures takes { TakesBoot start.now self.old (N.device nvm.old) result self.new (N.device nvm.new) }
        ensures sound { AreSoundTables self.new.below.control }
    {
        let step = self.below.take_boot_step(start, nvm)?;
        self.left = left_booted(&step);
        Ok(step)
    }

    /// Whether the engine has something to do: the one below has, or barriers are left.
    pub fn is_under_way(&self) -> bool
        ensures { result ≡ is_under_way thynvm_scheme self.now }
    {
        self.below.under_way() || self.left > 0
    }

    /// Whether the boot has found that there is no checkpoint.
    pub fn is_loading(&self) -> bool
        ensures { result ≡ loads_at self.now.below.boot.stage }
    {
        self.below.is_loading()
    }
}
