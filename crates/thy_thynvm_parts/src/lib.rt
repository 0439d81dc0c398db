//! The parts of the scheme thynvm, with their laws; they are a crate below thy_schemes,
//! because an `impl` can cite proofs of lower crates only. At a boot the controller lists a slot of either version, the
//! frames of its pages are filled, and a start makes an empty NVM a checkpoint. What is seen of the controller while a
//! boot fills it, while an engine writes its checkpoints, and by loads and stores makes these parts lawful.
//!
//! Open specs/Filling.antt first, then specs/Booted.antt and src/listing.rt; of the laws specs/Design.antt,
//! specs/Recovery.antt and src/laws.rt. It depends on thy_control, thy_scheme_parts and their dependencies; thy_schemes depends
//! on it.
#![tactic(auto)]

mod counts;
mod filling_laws;
mod frame;
mod laws;
mod listing;
mod start;

pub use filling_laws::{
    a_loaded_start_is_the_first, a_restart_is_the_kept_one, the_filling_is_lawful,
};
pub use frame::fill;
pub use laws::{
    a_checkpoint_bars_nothing, a_migration_writes_a_slot_and_the_commit_block,
    a_ready_store_is_whole, a_recovery_without_migration_writes_nothing, engine_and_controller_fit,
    epochs_and_boots_are_short, every_item_takes_one_cycle, stays_keep_the_checkpoints,
    the_checkpoints_are_lawful, the_items_are_lawful, the_pages_are_lawful, the_stores_are_lawful,
    thynvm_is_lawful, thynvm_is_made_of_parts,
};
pub use listing::{list_slot, next_fill};
pub use start::{first_place, first_slot};
