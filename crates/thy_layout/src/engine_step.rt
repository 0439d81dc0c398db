//! The actions of a checkpoint engine.

/// One action of the checkpoint engine.
#[derive(Clone, Copy, Debug, PartialEq, Eq)]
pub enum EngineStep {
    /// No checkpoint is under way.
    Idle,
    /// A block of memory was copied to its place by the checkpoint's tables.
    Copied,
    /// A block of a page was written back.
    PageBlock,
    /// A block of the processor's record was written into the slot.
    StateBlock,
    /// A block of the tables or of the counts was written.
    TableBlock,
    /// The barrier before the commit block.
    Barrier,
    /// The commit block was written.
    CommitWritten,
    /// The barrier after the commit block: the checkpoint of this epoch is committed.
    Committed(u64),
}
