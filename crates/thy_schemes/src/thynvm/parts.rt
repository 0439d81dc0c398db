//! Power, loads and stores.

use crate::thynvm::fills::ThynvmTables;
use std::alloc::{AllocError, Global};
use thy_block::{Block, Geometry, Nvm, NvmError, Stored};
use thy_checkpoint::EngineStage;
use thy_control::Control;
use thy_dram::Dram;
use thy_scheme_parts::Parts;

/// Each block is loaded from the place of its working version, and stored by its rule. While a checkpoint is under way nothing
/// is merged or sealed; no machine asks for it.
impl Parts for ThynvmTables {
    ghost use Rattle.thy_thynvm_parts.proofs.PartsLemmas.{are_parts as parts_of_tables};
    ghost use Rattle.thy_thynvm_parts.specs.Design.{thynvm_parts};

    ghost parts = { thynvm_parts };

    fn power_on(alloc: Global, geometry: &Geometry, dram: Dram) -> Result<Control, AllocError> {
        Control::new(alloc, geometry, dram)
    }

    fn cut(control: Control, pick: u64) -> Dram {
        control.cut(pick)
    }

    fn recall_sound(control: &Control) {
        control.recall_tables();
    }

    fn load<N: Nvm>(control: &Control, b: u64, nvm: &mut N) -> Result<Block, NvmError> {
        control.load(b, nvm)
    }

    fn committed<N: Nvm>(
        control: &Control,
        stage: EngineStage,
        b: u64,
        nvm: &mut N,
    ) -> Result<Block, NvmError> {
        control.committed(b, nvm)
    }

    fn store<N: Nvm>(
        control: &mut Control,
        b: u64,
        block: &Block,
        nvm: &mut N,
    ) -> Result<Stored, NvmError> {
        control.store(b, block, nvm)
    }

    fn storeless_after(stored: Stored, storeless: bool) -> bool {
        false
    }

    fn free(control: &Control) -> u64 {
        control.free()
    }

    fn queued(control: &Control) -> u64 {
        control.queued()
    }

    fn drain(control: &mut Control) {
        control.drain();
    }

    fn overlay(control: &Control) -> bool {
        control.overlay()
    }

    fn merge(control: &mut Control) {
        if control.overlay() {
            if !control.under_way() {
                control.merge_one();
            }
        }
    }

    fn promoting(control: &Control) -> bool {
        control.promoting()
    }

    fn promote<N: Nvm>(control: &mut Control, nvm: &mut N) -> Result<(), NvmError> {
        if control.promoting() {
            control.promote_one(nvm)
        } else {
            let _left_alone = &*nvm;
            Ok(())
        }
    }

    fn seal(control: &mut Control) {
        if !control.under_way() {
            let _whole = control.promoting();
            let _bare = control.overlay();
            control.seal();
        }
    }

    fn overlaps() -> bool {
        true
    }

    ghost are_parts = { parts_of_tables };
}
