//! What the machine reports of itself: where it is in a run, and which checkpoints it has.

use thy_block::{EndCause, Mark};

/// Where the machine is since its power came on.
#[derive(Clone, Copy, Debug, PartialEq, Eq)]
pub enum Phase {
    /// The machine loads the program, or recovers a checkpoint.
    Boot,
    /// The machine executes.
    Run,
    /// The program has ended and its last checkpoint is committed.
    Halt,
}

/// The machine as it is seen from above.
#[derive(Clone, Copy, Debug, PartialEq, Eq)]
pub struct View {
    pub phase: Phase,
    /// The epoch and count of the committed checkpoint, if there is one.
    pub done: Option<Mark>,
    /// The checkpoint that is sealed and not yet committed.
    pub sealed: Option<Mark>,
    /// The number of the epoch that executes.
    pub epoch: u64,
    /// The instructions retired from the program's start on.
    pub count: u64,
    /// The instructions retired since the boot's end or the latest seal.
    pub retired: u64,
    /// The cycles of hart and engine since then, but for those that did nothing.
    pub spent: u64,
    /// How many instructions were retired since the latest seal.
    pub lap: u64,
    /// Why the epoch is over, if it is.
    pub over: Option<EndCause>,
    /// The commit block of the checkpoint under way was written, and no barrier has come since.
    pub written: bool,
}
