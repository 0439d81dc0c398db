//! How a checkpoint is written and found again, by any scheme: the engine and the boot. After power came on the boot
//! reads the checkpoint in the NVM, a block a cycle, and gives it to a controller. If there is none, it loads the start
//! of a run: that becomes the checkpoint of epoch 0. A checkpoint of an older form is then written again, in the form
//! that is written today: the same state, of the same epoch. The engine writes the positions of a checkpoint's body,
//! the blocks of the slot and the commit block, and, if something follows, the positions of its tail and a barrier. All
//! of them write in rounds (`Round` of thy_computer).
//!
//! A scheme's `Fills` says how images are laid out, and which blocks are read into the controller; its `Checkpoints`
//! says which positions there are, what each writes and what it makes of the controller. Callers rely on `Boot::step`
//! and `Engine::step`, which equal their specifications, and on the laws.
//!
//! Open specs/Filling.antt first, then specs/Boot.antt, specs/Migrating.antt and specs/Recovers.antt, src/fills.rt and
//! src/boot.rt; of the engine specs/Items.antt, specs/Progress.antt, src/items.rt and src/engine.rt. It depends on
//! thy_computer and its dependencies.
#![tactic(auto)]

mod boot;
mod boot_laws;
mod boot_stage;
mod engine;
mod engine_laws;
mod engine_stage;
mod fills;
mod items;
mod load;
mod migrate;
mod reading;
mod start;

pub use boot::Boot;
pub use boot_laws::{
    a_boot_is_safe, a_boot_may_go_on, a_boot_shows_the_image, a_new_boot_has_read_nothing,
    a_new_boot_is_one_of_the_run, a_restart_is_the_kept_one, drains_keep_the_boot,
    failed_steps_are_moves, other_schemes_never_migrate, steps_act_once, steps_are_moves,
    steps_come_nearer, steps_queue_one_write,
};
pub use boot_stage::{End, ReadStage, Stage};
pub use engine::Engine;
pub use engine_laws::{every_item_takes_a_cycle, items_keep_them_together};
pub use engine_stage::EngineStage;
pub use fills::{CEILING, Fills};
pub use items::Checkpoints;
