//! The state of a run between two cycles.

use thy_base::{Bytes, Mix};
use thy_text::Events;

/// A run between two cycles.
#[derive(Drop)]
pub struct Progress<M> {
    pub machine: M,
    /// The schedule of the cycles that are to come.
    pub mix: Mix,
    pub events: Events,
    /// How many cuts have fallen.
    pub passed: usize,
    /// How many bytes of the console the terminal was given.
    pub released: u64,
    /// Whether no cycle was done since the last cut.
    pub fresh: bool,
    /// With two harts, which of them retired each instruction since the latest seal, or since power came on.
    pub turns: Bytes,
    /// Whether a write to the terminal has failed.
    pub terminal_failed: bool,
    /// Whether a write to the report has failed.
    pub report_failed: bool,
}
