//! Shadow paging: a scheme of checkpoints whose stores go into frames of the DRAM, a page each. A checkpoint writes the
//! frames into pages of a pool that the committed map does not list, and commits a map that lists them, while the hart
//! waits.
//!
//! Open src/shadow/checkpoints.rt first, then src/shadow/parts.rt.
mod checkpoints;
mod fills;
mod parts;

pub use fills::Relist;
use thy_composed_scheme::Composed;

/// Shadow paging: its pool holds in frames the pages that were stored to since the last checkpoint, and its engine
/// writes these into the NVM while the hart waits.
pub type Shadow = Composed<Relist>;
