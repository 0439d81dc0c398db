//! Power, loads and stores.
ghost use Rattle.std.specs.Prelude.{◌≡◌};
ghost use Rattle.thy_checkpoint.specs.Progress.{is_applying};

use crate::journal::fills::Refill;
use std::alloc::{AllocError, Global};
use thy_block::{Block, Geometry, Nvm, NvmError, Stored};
use thy_checkpoint::EngineStage;
use thy_dram::Dram;
use thy_journal_parts::Log;
use thy_scheme_parts::Parts;

/// Whether the journal of the committed checkpoint is applied.
fn is_applied(stage: EngineStage) -> bool
    ensures { result ≡ is_applying stage }
{
    matches!(stage, EngineStage::Tail(_))
}

/// Blocks that the log's table lists are loaded from their buffers, all others from their homes; a store goes into a buffer.
/// Every seal leaves the log as it is, and no block has ever to be merged or promoted.
impl Parts for Refill {
    ghost use Rattle.thy_journal_parts.proofs.PartsLemmas.{are_parts as parts_of_journal};
    ghost use Rattle.thy_journal_parts.specs.Design.{journal_parts};

    ghost parts = { journal_parts };

    fn power_on(alloc: Global, geometry: &Geometry, dram: Dram) -> Result<Log, AllocError> {
        Log::new(alloc, geometry, dram)
    }

    fn cut(control: Log, pick: u64) -> Dram {
        control.cut(pick)
    }

    fn recall_sound(control: &Log) {
        control.recall_sound();
    }

    fn load<N: Nvm>(control: &Log, b: u64, nvm: &mut N) -> Result<Block, NvmError> {
        control.load(b, nvm)
    }

    fn committed<N: Nvm>(
        control: &Log,
        stage: EngineStage,
        b: u64,
        nvm: &mut N,
    ) -> Result<Block, NvmError> {
        if is_applied(stage) {
            control.load(b, nvm)
        } else {
            control.home(b, nvm)
        }
    }

    fn store<N: Nvm>(
        control: &mut Log,
        b: u64,
        block: &Block,
        nvm: &mut N,
    ) -> Result<Stored, NvmError> {
        let _left_alone = &*nvm;
        control.recall_sound();
        control.store(b, block);
        Ok(Stored::Done)
    }

    fn storeless_after(stored: Stored, storeless: bool) -> bool {
        false
    }

    fn free(control: &Log) -> u64 {
        control.free()
    }

    fn queued(control: &Log) -> u64 {
        control.queued()
    }

    fn drain(control: &mut Log) {
        control.drain();
    }

    fn overlay(control: &Log) -> bool {
        false
    }

    fn merge(control: &mut Log) {}

    fn promoting(control: &Log) -> bool {
        false
    }

    fn promote<N: Nvm>(control: &mut Log, nvm: &mut N) -> Result<(), NvmError> {
        let _left_alone = &*nvm;
        Ok(())
    }

    fn seal(control: &mut Log) {}

    fn overlaps() -> bool {
        false
    }

    ghost are_parts = { parts_of_journal };
}
