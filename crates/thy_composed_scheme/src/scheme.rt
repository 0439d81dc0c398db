//! What the trait of schemes promises.
use crate::composed::Composed;
use std::alloc::{AllocError, Global};
use thy_block::{Block, Geometry, Nvm, NvmError, Stored};
use thy_checkpoint::{Checkpoints, Fills};
use thy_computer::BootStep;
use thy_dram::Dram;
use thy_isa::CpuState;
use thy_layout::{EngineStep, ImageLayout, Start};
use thy_scheme::Scheme;
use thy_scheme_parts::Parts;

/// Over the parts of any scheme, the scheme that they make is one. Each call makes of controller, engine, boot and
/// devices exactly what one call of each part that takes part in it makes of them, and answers as that does. After a
/// restart the engine begins with what follows the commit, and after loading it is idle.
impl<P: Parts> Scheme for Composed<P>
where
    P::Control: Drop,
{
    ghost use Rattle.thy_scheme_parts.proofs.LawfulLemmas.{lawful as lawful_of_parts};
    ghost use Rattle.thy_scheme_parts.specs.Design.{design_of};
    ghost use Rattle.thy_scheme_parts.specs.Scheme.{scheme_of};

    ghost scheme = { scheme_of (design_of P.filling P.items P.parts) };

    fn nvm_blocks(geometry: &Geometry) -> u64 {
        P::Images::blocks(geometry)
    }

    fn new(alloc: Global, geometry: &Geometry, dram: Dram) -> Result<Composed<P>, AllocError> {
        Composed::power_on(alloc, geometry, dram)
    }

    fn cut(self, pick: u64) -> Dram {
        self.power_off(pick)
    }

    fn load<N: Nvm>(&self, b: u64, nvm: &mut N) -> Result<Block, NvmError> {
        self.load_block(b, nvm)
    }

    fn store<N: Nvm>(&mut self, b: u64, block: &Block, nvm: &mut N) -> Result<Stored, NvmError> {
        P::recall_sound(&self.control);
        self.store_block(b, block, nvm)
    }

    fn committed<N: Nvm>(&self, b: u64, nvm: &mut N) -> Result<Block, NvmError> {
        self.load_committed(b, nvm)
    }

    fn free(&self) -> u64 {
        P::free(&self.control)
    }

    fn overlay(&self) -> bool {
        P::overlay(&self.control)
    }

    fn promoting(&self) -> bool {
        P::promoting(&self.control)
    }

    fn under_way(&self) -> bool {
        self.engine.under_way()
    }

    fn overlaps() -> bool {
        P::overlaps()
    }

    fn queued(&self) -> u64 {
        P::queued(&self.control)
    }

    fn drain(&mut self) {
        self.drain_one();
    }

    fn merge_one(&mut self) {
        self.merge_next();
    }

    fn promote_one<N: Nvm>(&mut self, nvm: &mut N) -> Result<(), NvmError> {
        self.promote_next(nvm)
    }

    fn seal(&mut self, cpu: &CpuState, epoch: u64) {
        self.seal_epoch(cpu, epoch);
    }

    fn engine_step<N: Nvm>(&mut self, nvm: &mut N) -> Result<EngineStep, NvmError> {
        self.take_item(nvm)
    }

    fn boot_step<N: Nvm>(&mut self, start: &Start, nvm: &mut N) -> Result<BootStep, NvmError> {
        self.take_boot_step(start, nvm)
    }

    fn loading(&self) -> bool {
        self.is_loading()
    }

    ghost lawful = { lawful_of_parts (design_of P.filling P.items P.parts) P.are_parts };
}
