//! Power, loads and stores.
use crate::shadow::fills::Relist;
use std::alloc::{AllocError, Global};
use thy_block::{Block, Geometry, Nvm, NvmError, Stored};
use thy_checkpoint::EngineStage;
use thy_dram::Dram;
use thy_scheme_parts::Parts;
use thy_shadow_parts::Pool;

/// Blocks of pages that have a frame are loaded from it, all others where they were committed; a store goes into the frame of
/// its page, whose blocks are copied first. With a seal a frame that is begun and not filled is given up, and no block has
/// ever to be merged or promoted.
impl Parts for Relist {
    ghost use Rattle.thy_shadow_parts.proofs.PartsLemmas.{are_parts as parts_of_shadow};
    ghost use Rattle.thy_shadow_parts.specs.Design.{shadow_parts};

    ghost parts = { shadow_parts };

    fn power_on(alloc: Global, geometry: &Geometry, dram: Dram) -> Result<Pool, AllocError> {
        Pool::new(alloc, geometry, dram)
    }

    fn cut(control: Pool, pick: u64) -> Dram {
        control.cut(pick)
    }

    fn recall_sound(control: &Pool) {
        control.recall_sound();
    }

    fn load<N: Nvm>(control: &Pool, b: u64, nvm: &mut N) -> Result<Block, NvmError> {
        control.load(b, nvm)
    }

    fn committed<N: Nvm>(
        control: &Pool,
        stage: EngineStage,
        b: u64,
        nvm: &mut N,
    ) -> Result<Block, NvmError> {
        control.committed(b, nvm)
    }

    fn store<N: Nvm>(
        control: &mut Pool,
        b: u64,
        block: &Block,
        nvm: &mut N,
    ) -> Result<Stored, NvmError> {
        control.recall_sound();
        control.store(b, block, nvm)
    }

    fn storeless_after(stored: Stored, storeless: bool) -> bool {
        match stored {
            Stored::Done => false,
            Stored::CopyFirst => storeless,
        }
    }

    fn free(control: &Pool) -> u64 {
        control.free()
    }

    fn queued(control: &Pool) -> u64 {
        control.queued()
    }

    fn drain(control: &mut Pool) {
        control.drain();
    }

    fn overlay(control: &Pool) -> bool {
        false
    }

    fn merge(control: &mut Pool) {}

    fn promoting(control: &Pool) -> bool {
        false
    }

    fn promote<N: Nvm>(control: &mut Pool, nvm: &mut N) -> Result<(), NvmError> {
        let _left_alone = &*nvm;
        Ok(())
    }

    fn seal(control: &mut Pool) {
        control.seal();
    }

    fn overlaps() -> bool {
        false
    }

    ghost are_parts = { parts_of_shadow };
}
