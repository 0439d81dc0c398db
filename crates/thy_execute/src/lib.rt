//! A run on a machine, over the device or over the levelled lines on it, and its save; and a run of a program file on
//! the plain machine. Callers rely on `run_by_scheme` and `plain_file`, which answer a job as specified, and on
//! `run_plan`. Runs are proved for every machine of the trait `Computer` that reads the images in files as they mean.
//!
//! Open specs/Planning.antt first, then src/running.rt and src/plain.rt. It depends on thy_run, thy_gap, thy_plain,
//! thy_files and thy_outcome, and on their dependencies; thy_commands depends on it.
#![tactic(auto)]

mod plain;
mod running;

pub use plain::plain_file;
pub use running::{run_by_scheme, run_plan};
