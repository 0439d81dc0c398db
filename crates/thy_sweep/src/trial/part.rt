//! How much of a state that was restored is read.
use thy_isa::{CpuState, MachState};

/// How much of a state is read.
#[derive(Clone, Copy, Debug, PartialEq, Eq)]
pub enum Part {
    /// All of it.
    State,
    /// Its processor: all but memory, and of the console the length.
    Processor,
}

/// What was read of a state.
#[derive(Drop)]
pub enum Restored {
    /// All of it.
    State(MachState),
    /// Its processor.
    Processor(CpuState),
}
