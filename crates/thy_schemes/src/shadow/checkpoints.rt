//! What the engine writes.
ghost use Rattle.std.specs.Prelude.{◌≡◌};

use crate::shadow::fills::Relist;
use thy_block::{Block, Geometry, Nvm, NvmError};
use thy_checkpoint::Checkpoints;
use thy_layout::EngineStep;
use thy_shadow_parts::Pool;

/// A position is a block of the frames, 64 to a frame. The body writes each block of a filled frame into the frame's page of
/// the pool; with the commit these pages take the place of the old ones. Nothing follows.
impl Checkpoints for Relist {
    ghost use Rattle.thy_shadow_parts.specs.Design.{items_shadow};

    ghost items = { items_shadow };

    fn next_body(control: &mut Pool, from: u64) -> Option<u64> {
        control.next_block(from)
    }

    fn write_body<N: Nvm>(
        control: &mut Pool,
        epoch: u64,
        k: u64,
        nvm: &mut N,
    ) -> Result<(), NvmError> {
        control.write_frame((k / 64) as usize, k % 64, nvm)
    }

    fn step_of(geometry: &Geometry, k: u64) -> EngineStep {
        EngineStep::PageBlock
    }

    fn rest(control: &Pool, epoch: u64, k: u64) -> Block {
        control.table_block(k)
    }

    fn commit(control: &mut Pool) {
        control.commit();
    }

    fn has_tail() -> bool {
        false
    }

    fn next_tail(control: &Pool, from: u64) -> Option<u64> {
        None
    }

    fn write_tail<N: Nvm>(control: &mut Pool, k: u64, nvm: &mut N) -> Result<(), NvmError>
        ensures { control.new ≡ control.old }
    {
        let _left_alone = &*nvm;
        Ok(())
    }

    fn release(control: &mut Pool) {}

    fn recall_items() {}
}
