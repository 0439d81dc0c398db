//! What a sweep tries and keeps. After each cycle of a run it boots copies of what a cut could leave there. Here is said
//! which images these are, and boots are counted by the checkpoints to which they led. The run's device is one in memory, or
//! the lines that one holds (`OverMemory`). `trial` is one state of a sweep: power comes on over a copy of what a cut can
//! leave of a run's device, and the machine boots.
//!
//! Open specs/Images.antt and specs/Leads.antt first, and src/lead.rt. Of one state open specs/Trials.antt, and
//! src/trial/trial.rt. It stands on thy_nvm and thy_run, and on their dependencies; the program sweep stands on it.
#![tactic(auto)]

mod choices;
mod images;
mod lead;
mod over_memory;
mod repeats;
mod seen;
mod sums;
mod trial;

pub use choices::{Choices, the_images_of_a_cut_are_numbered};
pub use images::every_image_of_a_cut_is_listed;
pub use lead::{Booted, Lead, leads_are_of_their_boots, note_boot};
pub use over_memory::OverMemory;
pub use repeats::the_same_queue_is_the_same_device;
pub use seen::is_still;
pub use sums::Sums;
pub use trial::{
    Found, Part, PickTrial, Restored, Room, Trial, Tried, Tryable, a_run_goes_on_over_a_copy, boot,
    try_copy, try_number, try_pick,
};
