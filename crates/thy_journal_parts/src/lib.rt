//! The parts of the redo journal: its table and buffers (`Log`), what the boot makes of them, and their laws. A store
//! goes into the buffer of its block's entry; a checkpoint writes the buffers into the journal of its epoch, and after
//! the commit to the homes of their blocks. `Log` equals its specification in table and devices, which speaks of no
//! run. After a restart, the buffers have what the journal of the checkpoint has (`the_log_is_filled`, `next_listed`).
//! That these parts are lawful is a law below thy_schemes, because an `impl` can cite proofs of lower crates only.
//!
//! Open specs/State.antt first, then specs/Stores.antt and src/log.rt; of the boot specs/Filling.antt; of the laws
//! specs/Design.antt and src/laws.rt. It depends on thy_dram, thy_table, thy_images, thy_scheme_parts and their
//! dependencies; thy_schemes depends on it.
#![tactic(auto)]

mod entry;
mod filling_laws;
mod laws;
mod listing;
mod log;
mod slot;
mod start;

pub use entry::Listed;
pub use filling_laws::the_log_is_filled;
pub use laws::{
    a_checkpoint_bars_the_hart, an_epoch_begins_with_every_entry_free, boots_are_short,
    epochs_are_short, the_journal_is_lawful, the_journal_is_made_of_parts,
};
pub use listing::list_all;
pub use log::Log;
pub use slot::next_listed;
pub use start::start_slot_block;
