//! A write-back cache over a store of blocks. It reads as the flat list of the store's blocks, with the lines that are
//! newer in their places. Each call of `Cache` equals its specification, also in which line is evicted, and makes at
//! most one call of the store.
//!
//! Open specs/Flat.antt first, then specs/Contents.antt, and src/cache.rt. It stands on thy_block; on it stand thy_hart,
//! thy_scheme and thy_core.
#![tactic(auto)]

mod cache;
mod line;
mod modulus;
mod ways;

pub use cache::Cache;
pub use line::{Flushed, Line, LineLocation, Victim};
