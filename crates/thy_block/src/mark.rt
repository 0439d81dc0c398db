//! Checkpoints, as views and events name them.

/// A checkpoint: its epoch, and how many instructions were retired from the program's start to its end.
#[derive(Clone, Copy, Debug, PartialEq, Eq)]
pub struct Mark {
    pub epoch: u64,
    pub count: u64,
}
