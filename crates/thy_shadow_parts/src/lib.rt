//! The parts of shadow paging: a pool of pages in the NVM and frames in the DRAM (`Pool`), what the boot makes of them,
//! and their laws. A store goes into the frame of its block's page, for which the page is copied first; a checkpoint
//! writes each frame into a page of the pool that the committed map does not list, and with its commit these pages take
//! the place of the old ones. `Pool` equals its specification in tables and devices, which speaks of no run. After a
//! restart it lists the map of the checkpoint (`the_pool_is_listed`). That these parts are lawful is a law below
//! thy_schemes, because an `impl` can cite proofs of lower crates only.
//!
//! Open specs/State.antt first, then specs/Stores.antt, specs/Commit.antt and src/pool.rt; of the boot
//! specs/Filling.antt; of the laws specs/Design.antt and src/laws.rt. It depends on thy_dram, thy_table,
//! thy_images, thy_scheme_parts and their dependencies; thy_schemes depends on it.
#![tactic(auto)]

mod committing;
mod entry;
mod filling_laws;
mod laws;
mod listing;
mod pool;
mod pool_laws;
mod start;

pub use entry::{Begun, Framed, Held};
pub use filling_laws::the_pool_is_listed;
pub use laws::{
    a_checkpoint_bars_the_hart, an_epoch_begins_with_every_frame_free, boots_are_short,
    epochs_are_short, shadow_paging_is_lawful, shadow_paging_is_made_of_parts,
    the_committed_pages_are_spared,
};
pub use pool::Pool;
pub use pool_laws::frames_go_to_free_pages;
pub use start::start_slot_block;
