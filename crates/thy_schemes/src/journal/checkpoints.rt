//! What the engine writes.
ghost use Rattle.std.specs.Prelude.{◌≡◌};

use crate::journal::fills::Refill;
use thy_block::{Block, Geometry, Nvm, NvmError};
use thy_checkpoint::Checkpoints;
use thy_journal_parts::Log;
use thy_layout::{EngineStep, slot_of_epoch};

/// An entry as a position.
fn position(entry: Option<usize>) -> Option<u64>
    ensures { result ≡ entry }
{
    match entry {
        Some(i) => Some(i as u64),
        None => None,
    }
}

/// A position is an entry of the table. The body writes each live entry's buffer into the journal of the epoch's slot, the
/// tail to the home of its block; after that all entries are free.
impl Checkpoints for Refill {
    ghost use Rattle.thy_journal_parts.specs.Design.{items_journal};

    ghost items = { items_journal };

    fn next_body(control: &mut Log, from: u64) -> Option<u64> {
        control.recall_sound();
        position(control.next_live(from as usize))
    }

    fn write_body<N: Nvm>(
        control: &mut Log,
        epoch: u64,
        k: u64,
        nvm: &mut N,
    ) -> Result<(), NvmError> {
        control.write_journal(slot_of_epoch(epoch), k as usize, nvm)
    }

    fn step_of(geometry: &Geometry, k: u64) -> EngineStep {
        EngineStep::Copied
    }

    fn rest(control: &Log, epoch: u64, k: u64) -> Block {
        control.table_block(k)
    }

    fn commit(control: &mut Log) {}

    fn has_tail() -> bool {
        true
    }

    fn next_tail(control: &Log, from: u64) -> Option<u64> {
        control.recall_sound();
        position(control.next_live(from as usize))
    }

    fn write_tail<N: Nvm>(control: &mut Log, k: u64, nvm: &mut N) -> Result<(), NvmError> {
        control.write_home(k as usize, nvm)
    }

    fn release(control: &mut Log) {
        control.release();
    }

    fn recall_items() {}
}
