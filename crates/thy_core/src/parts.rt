//! What a machine is made of.

use thy_block::Mark;
use thy_cache::Cache;
use thy_computer::Phase;
use thy_hart::Hart;
use thy_scheme::SchemeStore;

/// The checkpoints of a machine whose boot is over.
#[derive(Clone, Copy, Debug, PartialEq, Eq)]
pub(crate) struct Checkpoints {
    /// The epoch and count of the committed checkpoint.
    pub done: Mark,
    /// The epoch and count of the checkpoint that is under way, if one is.
    pub sealed: Option<Mark>,
    /// The commit block of that was written, and no barrier has come since.
    pub written: bool,
}

/// How long the consoles of the checkpoints are, in bytes.
#[derive(Clone, Copy, Debug, PartialEq, Eq)]
pub(crate) struct Consoles {
    /// The console's length at the committed checkpoint.
    pub done: u64,
    /// The console's length at the checkpoint that was sealed last.
    pub sealed: u64,
}

/// What a machine is made of.
#[derive(Drop)]
pub(crate) struct MachineParts<S> {
    pub hart: Hart,
    pub cache: Cache,
    pub store: SchemeStore<S>,
    pub phase: Phase,
    pub checkpoints: Checkpoints,
    pub consoles: Consoles,
    /// Whether the state that was sealed last has ended.
    pub ends: bool,
    /// The cycles of hart and engine since the latest seal. Contracts speak of it; no code reads it.
    pub spent: u64,
    /// How many instructions were retired since the latest seal.
    pub lap: u64,
    /// The epoch that was sealed last retired nothing. Contracts speak of it; no code reads it.
    pub idle: bool,
    /// Whether a step has failed since power came on.
    pub failed: bool,
    /// The hart whose instruction is begun, 0 or 1; it is in front. While none is, hart 0 is.
    pub begun: Option<u8>,
    /// The hart that retired the last instruction since the boot.
    pub last: Option<u8>,
}
