//! What stays the same over a run.

use thy_block::Bytes;

/// What a step needs in addition to the state.
#[derive(Debug, Drop)]
pub(crate) struct Setup {
    /// The address of the first byte of program memory.
    pub(crate) base: u64,
    /// All bytes of the program's input.
    pub(crate) input: Bytes,
    /// How many bytes the console takes at most.
    pub(crate) room: u64,
    /// Each offset from the base below this number has 8 bytes of program memory (`window_of`).
    pub(crate) window: u64,
    /// How many words of program memory can be fetched with no further test (`words_of`).
    pub(crate) words: u64,
}
