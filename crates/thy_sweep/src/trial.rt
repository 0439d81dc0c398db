//! One state of a sweep: power comes on over a copy of what a cut can leave of a run's device, and the machine boots.
//!
//! Open specs/Trials.antt first, and src/trial/trial.rt.
mod booting;
mod laws;
mod part;
mod room;
mod trial;
mod tryable;

pub use booting::boot;
pub use laws::a_run_goes_on_over_a_copy;
pub use part::{Part, Restored};
pub use room::{Found, PickTrial, Room, Trial, try_number, try_pick};
pub use trial::{Tried, try_copy};
pub use tryable::Tryable;
