//! The controller of two memories: it stores a block if the checkpoints leave room, and also keeps two checkpoints of
//! all blocks. Each call of `Control` equals its specification in tables and devices; both tables are sound in every
//! state; a store keeps both checkpoints. With the NVM below it, it is a store of blocks, by src/block_store.rt.
//!
//! Open specs/State.antt first, then specs/Stays.antt, and src/control.rt; docs/CONTROLLER.md has the rules. It depends
//! on thy_record, thy_table, thy_dram and their dependencies; the scheme above it, thy_thynvm_parts and
//! thy_schemes, depends on it.
#![tactic(auto)]

mod block_store;
mod control;
mod cursors;
mod laws;
mod overlay;
mod seal;

pub use control::Control;
pub use laws::{
    a_commit_makes_cells, a_drain_of_the_dram_is_unseen, a_new_controller_boots,
    a_new_controller_is_ready, a_seal_makes_cells, a_seal_without_work_frees_entries,
    blocks_are_works, checkpoints_have_tables, copied_and_issued_blocks_are_placed,
    landing_is_unseen, loaded_frames_hold_all, nothing_left_is_all_copied,
    one_action_is_one_of_the_nvm, tables_allow_listing, what_stays_does_so_over_calls,
};
