//! The machine as one of those that the layers above run.

use crate::Machine;
use std::alloc::{AllocError, Global};
use thy_block::{Bytes, Geometry, Nvm, NvmError, Pick};
use thy_computer::{Advance, Computer, CoreError, Row, Stepped};
use thy_dram::Dram;
use thy_isa::{CpuState, MachState};
use thy_layout::Start;
use thy_scheme::Scheme;

/// Over any scheme the machine is one of the machines that are run. Each cycle is the turn of its pick and does exactly what
/// that turn asks; before a seal the first that is left of promotions, flushes and merges. While a boot restores a checkpoint
/// and does not migrate it, no step is counted among the NVM's writes, whether or not it failed.
impl<S: Scheme> Computer for Machine<S> {
    ghost use Rattle.thy_scheme.specs.Kind.{kind_over};
    ghost use Rattle.thy_scheme.proofs.LawfulLaws.{machine_is_lawful};

    ghost kind = { kind_over S.scheme };

    ghost lawful = { machine_is_lawful S.scheme S.lawful };

    fn nvm_blocks(geometry: &Geometry) -> u64 {
        S::nvm_blocks(geometry)
    }

    fn power_on(alloc: Global, geometry: &Geometry, dram: Dram) -> Result<Machine<S>, AllocError> {
        Machine::power_on(alloc, geometry, dram)
    }

    #[inline(always)]
    fn advance<N: Nvm>(
        &mut self,
        pick: Pick,
        start: &Start,
        nvm: &mut N,
    ) -> Result<Option<Advance>, NvmError> {
        self.advance(pick, start, nvm)
    }

    #[inline(always)]
    fn advance_on<N: Nvm>(&mut self, pick: Pick, start: &Start, nvm: &N) -> Row {
        self.advance_on(pick, start, nvm)
    }

    fn take_other<N: Nvm>(
        &mut self,
        pick: Pick,
        start: &Start,
        nvm: &mut N,
    ) -> Result<Stepped, NvmError> {
        self.take_other(pick, start, nvm)
    }

    fn step<N: Nvm>(
        &mut self,
        pick: Pick,
        start: &Start,
        nvm: &mut N,
    ) -> Result<Stepped, NvmError> {
        self.step(pick, start, nvm)
    }

    fn failed(&self) -> bool {
        self.failed()
    }

    fn snapshot<N: Nvm>(&self, alloc: Global, nvm: &mut N) -> Result<MachState, CoreError> {
        self.snapshot(alloc, nvm)
    }

    fn processor(&self) -> CpuState {
        self.processor()
    }

    fn console<N: Nvm>(&self, alloc: Global, from: u64, nvm: &mut N) -> Result<Bytes, CoreError> {
        self.console(alloc, from, nvm)
    }

    fn loading(&self) -> bool {
        self.loading()
    }

    fn cut(self, pick: u64) -> Dram {
        self.cut(pick)
    }
}
