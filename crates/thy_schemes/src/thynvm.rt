//! The scheme thynvm: its controller keeps two checkpoints of all blocks in addition to the work, and its engine writes the
//! next one into the NVM while the hart runs. A boot writes the checkpoint of an image of version 1 again in version 2,
//! before the hart runs.
//!
//! Open src/thynvm/checkpoints.rt first, then src/thynvm/parts.rt.
mod checkpoints;
mod fills;
mod parts;

pub use fills::ThynvmTables;
use thy_composed_scheme::Composed;

/// The scheme thynvm: its controller keeps two checkpoints of all blocks in addition to the work, and its engine
/// writes the next one into the NVM while the hart runs.
pub type Thynvm = Composed<ThynvmTables>;
