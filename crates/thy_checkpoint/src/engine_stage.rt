//! The stage of a checkpoint.
use thy_computer::Round;

/// What the engine looks for next.
#[derive(Clone, Copy, Debug, PartialEq, Eq)]
pub enum EngineStage {
    /// Nothing: no checkpoint is under way.
    Idle,
    /// The first position from this one on that the body writes; if there is none, the slot's first block.
    Body(u64),
    /// The action of the round that is next. The round writes the slot, first the processor's record, and then what the
    /// scheme has after it.
    InRound(Round),
    /// The first position from this one on that the tail writes; if there is none, the barrier after these.
    Tail(u64),
}
