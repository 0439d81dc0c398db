//! The command line: what the arguments ask for, as a command with its configuration, or why they are refused. The contract
//! of `settings` states the exact result in both cases, unless memory ran out.
//!
//! Open specs/Settings.antt first, and src/arguments/words.rt.
mod command_line;
mod fields;
mod numbers;
mod verb;
mod words;

pub use numbers::{is_list, is_number, list_of, number};
pub use words::{Command, Job, WordsError, settings};
