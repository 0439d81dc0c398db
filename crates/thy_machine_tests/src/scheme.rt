//! What the trait of schemes promises.
use crate::waiting::WaitingScheme;
use std::alloc::{AllocError, Global};
use thy_block::{Block, Geometry, Nvm, NvmError, Stored};
use thy_computer::BootStep;
use thy_dram::Dram;
use thy_isa::CpuState;
use thy_layout::{EngineStep, Start};
use thy_scheme::Scheme;
use thy_schemes::Thynvm;

/// Each call makes of scheme and NVM exactly what one call of the scheme below makes of them, and answers the same. A
/// step of the engine is one barrier instead if one is left. After a commit and after a restart three barriers are left;
/// no call but these and such a step changes the number.
impl Scheme for WaitingScheme {
    ghost use Rattle.thy_thynvm_parts.proofs.LawLemmas.{applies_nothing, lawful as laws_below};
    ghost use Rattle.thy_thynvm_parts.specs.Scheme.{thynvm_scheme};
    ghost use Rattle.thy_test_support.proofs.LawfulLemmas.{lawful as laws_over};
    ghost use Rattle.thy_machine_tests.specs.Calls.{waiting_scheme};

    ghost scheme = { waiting_scheme };

    fn nvm_blocks(geometry: &Geometry) -> u64 {
        Thynvm::nvm_blocks(geometry)
    }

    fn new(alloc: Global, geometry: &Geometry, dram: Dram) -> Result<WaitingScheme, AllocError> {
        WaitingScheme::power_on(alloc, geometry, dram)
    }

    fn cut(self, pick: u64) -> Dram {
        self.power_off(pick)
    }

    fn load<N: Nvm>(&self, b: u64, nvm: &mut N) -> Result<Block, NvmError> {
        self.load_block(b, nvm)
    }

    fn store<N: Nvm>(&mut self, b: u64, block: &Block, nvm: &mut N) -> Result<Stored, NvmError> {
        self.recall_sound();
        self.store_block(b, block, nvm)
    }

    fn committed<N: Nvm>(&self, b: u64, nvm: &mut N) -> Result<Block, NvmError> {
        self.load_committed(b, nvm)
    }

    fn free(&self) -> u64 {
        self.below.free()
    }

    fn overlay(&self) -> bool {
        self.below.overlay()
    }

    fn promoting(&self) -> bool {
        self.below.promoting()
    }

    fn under_way(&self) -> bool {
        self.is_under_way()
    }

    fn overlaps() -> bool {
        false
    }

    fn queued(&self) -> u64 {
        self.below.queued()
    }

    fn drain(&mut self) {
        self.drain_one();
    }

    fn merge_one(&mut self) {
        self.merge_next();
    }

    fn promote_one<N: Nvm>(&mut self, nvm: &mut N) -> Result<(), NvmError> {
        self.promote_next(nvm)
    }

    fn seal(&mut self, cpu: &CpuState, epoch: u64) {
        self.seal_epoch(cpu, epoch);
    }

    fn engine_step<N: Nvm>(&mut self, nvm: &mut N) -> Result<EngineStep, NvmError> {
        self.take_turn(nvm)
    }

    fn boot_step<N: Nvm>(&mut self, start: &Start, nvm: &mut N) -> Result<BootStep, NvmError> {
        self.take_boot_step(start, nvm)
    }

    fn loading(&self) -> bool {
        self.is_loading()
    }

    ghost lawful = { laws_over thynvm_scheme laws_below applies_nothing };
}
