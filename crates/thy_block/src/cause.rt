//! Why an epoch ends.

/// The cause of an epoch's end.
#[derive(Clone, Copy, Debug, PartialEq, Eq)]
pub enum EndCause {
    /// The epoch has retired the configured number of instructions.
    Length,
    /// The next instruction stores into `need` blocks, but `free` table entries are fewer than the
    /// `dirty` cache lines and these together.
    Exhausted { free: u64, dirty: u64, need: u64 },
    /// The program has exited or trapped.
    Ended,
}
