//! The start of a run.

use thy_block::{Bytes, Mark};
use thy_isa::MachState;

/// What a machine that finds no checkpoint loads, and the input of the program.
#[derive(Debug, Drop)]
pub struct Start {
    pub state: MachState,
    /// The checkpoint that the state was taken from; none if it was made from a file.
    pub kept: Option<Mark>,
    pub input: Bytes,
}
