//! What goes between a run and the shelf: a program's bytes, and what a run of them begins with (`prepare`); the image that
//! a run leaves (`save`); a made program (`make`).
//!
//! Open specs/Beginnings.antt first, then src/beginning.rt. It depends on thy_outcome and on its dependencies;
//! thy_execute and thy_commands depend on it, and thy_cli on its law that machines read the files
//! of their scheme.
#![tactic(auto)]

mod beginning;
mod making;
mod restoring;
mod saving;
mod source;

pub use beginning::prepare;
pub use making::make;
pub use restoring::Beginning;
pub use saving::{cuts_in, is_saved, save, save_pick};
pub use source::{FetchedBytes, Program, fetch_both, program_of};
