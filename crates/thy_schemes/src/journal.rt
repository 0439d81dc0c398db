//! The redo journal: a scheme of checkpoints whose stores go into buffers of the DRAM. A checkpoint writes them into the
//! journal of its slot, commits, and then copies each block home, while the hart waits.
//!
//! Open src/journal/checkpoints.rt first, then src/journal/parts.rt.
mod checkpoints;
mod fills;
mod parts;

pub use fills::Refill;
use thy_composed_scheme::Composed;

/// The redo journal: its log holds what was stored since the last checkpoint, and its engine writes that into the NVM
/// while the hart waits.
pub type Journal = Composed<Refill>;
