//! What the boot fills.
use thy_block::{Block, Geometry, Nvm, NvmError};
use thy_checkpoint::Fills;
use thy_images::journal::{JournalImages, home};
use thy_isa::MachState;
use thy_journal_parts::{Log, list_all, next_listed, start_slot_block};
use thy_layout::{epoch_in, slot_of_epoch};

/// The journal's part of the boot: the log, whose buffers are filled from the journal of the slot that the commit block
/// names.
#[derive(Drop)]
pub struct Refill;

impl Fills for Refill {
    type Images = JournalImages;

    type Control = Log;

    ghost use Rattle.std.specs.Prelude.{refl};
    ghost use Rattle.thy_journal_parts.specs.Filling.{filling_journal};
    ghost use Rattle.thy_journal_parts.proofs.LawLemmas.{log_is_filled};

    ghost filling = { filling_journal };

    fn list(geometry: &Geometry, commit: &Block, slot: &[u8], control: &mut Log) {
        list_all(slot, geometry, control);
    }

    fn most_fills(geometry: &Geometry) -> u64 {
        geometry.numbers().btt
    }

    fn next_fill(geometry: &Geometry, commit: &Block, slot: &[u8], from: u64) -> Option<u64> {
        next_listed(slot, from, geometry)
    }

    fn fill<N: Nvm>(
        control: &mut Log,
        commit: &Block,
        k: u64,
        nvm: &mut N,
    ) -> Result<(), NvmError> {
        control.fill(slot_of_epoch(epoch_in(commit)), k as usize, nvm)
    }

    fn first_place(geometry: &Geometry, state: &MachState, b: u64) -> u64 {
        home(geometry, b)
    }

    fn first_slot(geometry: &Geometry, state: &MachState, k: u64) -> Block {
        start_slot_block(geometry, state, k)
    }

    ghost lawful = { log_is_filled };

    ghost of_images = { refl };
}
