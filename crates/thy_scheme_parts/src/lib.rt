//! A scheme made of parts, as definitions and laws; they are a crate below thy_composed_scheme, because an `impl` can cite
//! proofs of lower crates only. The parts are what a boot fills, what an engine writes, and how loads and stores go.
//! From what holds of them follows what holds of the scheme: callers rely on the laws. A scheme whose boot is
//! thy_checkpoint's takes its view, whether it has read the commit block and whether it loads from specs/Seen.antt.
//! What schemes state of themselves alike has its names in specs/Schemes.antt.
//!
//! Open specs/Design.antt first, then specs/Moments.antt, specs/IsDesign.antt, specs/Sound.antt and specs/Seen.antt,
//! and src/laws.rt. It depends on thy_checkpoint, thy_scheme and their dependencies.
#![tactic(auto)]

mod boot_laws;
mod laws;
mod parts;

pub use boot_laws::{
    a_boot_loads_only_without_a_checkpoint, a_boot_shows_what_is_kept,
    a_boot_that_found_a_checkpoint_only_reads, a_step_has_read_the_commit_block,
    an_image_of_the_run_has_a_mark,
};
pub use laws::{
    a_cut_is_safe, a_seal_keeps_the_checkpoints, a_step_of_the_boot_is_one, calls_keep_the_run,
    items_keep_the_checkpoints, landing_keeps_the_checkpoints, parts_make_a_lawful_scheme,
};
pub use parts::Parts;
