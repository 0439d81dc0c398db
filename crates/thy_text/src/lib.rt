//! What happened in a run: its events, what they say of the checkpoints, and their lines in a report. `write_event`,
//! `write_closing` and the other writers of lines write exactly the line, or a first part of it if the sink failed.
//!
//! Each line of an event is put together and then written at once, so that a kill never leaves half a line. Contracts do not
//! say this: the sink's calls are counted in a test.
//!
//! Open specs/Lines.antt first, then specs/Marks.antt, and src/event.rt. It depends on thy_base, thy_layout and their
//! dependencies; thy_run and thy_outcome depend on it.
#![tactic(auto)]

mod closing;
mod event;
mod events;
mod history;
mod laws;
mod line;
mod memory_digest;
mod piece;
mod reporting;
mod summary;

pub use closing::{Closing, FetchFault, write_closing};
pub use event::Event;
pub use events::Events;
pub use history::History;
pub use laws::with_one_hart_events_go_by_counts;
pub use line::{write_ended, write_event, write_made};
pub use memory_digest::digest;
pub use reporting::Reporting;
pub use summary::{write_scheme, write_summary};
