//! What the engine writes.
ghost use Rattle.std.specs.Prelude.{◌≡◌, false, Some as Next, None as NoCopy};
ghost use Rattle.thy_control.specs.Copies.{next_copy};
ghost use Rattle.thy_control.specs.Positions.{next_position};
ghost use Rattle.thy_control.specs.State.{IsSized};
ghost use Rattle.thy_thynvm_parts.specs.Design.{action_next, written_next};
ghost use Rattle.thy_checkpoint.specs.Progress.{Acts};

use crate::thynvm::fills::ThynvmTables;
use thy_block::{Block, Geometry, Nvm, NvmError};
use thy_checkpoint::Checkpoints;
use thy_control::Control;
use thy_layout::EngineStep;

/// Writes the position that is next: the copy that is, else the next block of a page.
fn write_next<N: Nvm>(control: &mut Control, k: u64, nvm: &mut N) -> Result<(), NvmError>
    requires next { next_position control.old ≡ Next k }
    requires sized { IsSized control.old (N.device nvm.old) }
    requires up { (N.device nvm.old).down ≡ false }
    ensures { let s = control.old in let n = N.device nvm.old in
        Acts (action_next s n) (written_next s) result s n control.new (N.device nvm.new) }
{
    if control.copy_next(nvm)? {
        Ok(())
    } else {
        write_page(control, k, nvm)
    }
}

/// Writes the next block of a page, with no copy left.
fn write_page<N: Nvm>(control: &mut Control, k: u64, nvm: &mut N) -> Result<(), NvmError>
    requires copied { next_copy control.old ≡ NoCopy }
    requires next { next_position control.old ≡ Next k }
    requires sized { IsSized control.old (N.device nvm.old) }
    requires up { (N.device nvm.old).down ≡ false }
    ensures { let s = control.old in let n = N.device nvm.old in
        Acts (action_next s n) (written_next s) result s n control.new (N.device nvm.new) }
{
    control.page_next(nvm)?;
    Ok(())
}

/// The body copies each version that is pending to its place, and then writes the pages from their frames. Nothing follows the
/// commit: no tail is ever written.
impl Checkpoints for ThynvmTables {
    ghost use Rattle.thy_thynvm_parts.specs.Design.{items_thynvm};

    ghost items = { items_thynvm };

    fn next_body(control: &mut Control, from: u64) -> Option<u64> {
        control.next_position()
    }

    fn write_body<N: Nvm>(
        control: &mut Control,
        epoch: u64,
        k: u64,
        nvm: &mut N,
    ) -> Result<(), NvmError> {
        write_next(control, k, nvm)
    }

    fn step_of(geometry: &Geometry, k: u64) -> EngineStep {
        if k < geometry.numbers().btt {
            EngineStep::Copied
        } else {
            EngineStep::PageBlock
        }
    }

    fn rest(control: &Control, epoch: u64, k: u64) -> Block {
        control.table(k)
    }

    fn commit(control: &mut Control) {
        control.commit();
    }

    fn has_tail() -> bool {
        false
    }

    fn next_tail(control: &Control, from: u64) -> Option<u64> {
        None
    }

    fn write_tail<N: Nvm>(control: &mut Control, k: u64, nvm: &mut N) -> Result<(), NvmError>
        ensures { control.new ≡ control.old }
    {
        let _left_alone = &*nvm;
        Ok(())
    }

    fn release(control: &mut Control) {}

    fn recall_items() {}
}
