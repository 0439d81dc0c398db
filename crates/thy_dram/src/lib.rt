//! A memory with a queue of writes, which forgets what it holds when its power is cut. To its callers `Dram` reads as a list
//! of blocks without a queue, and each call equals its specification. What a loss of power leaves of a block is computed
//! when the block is read, since nearly every block is written before that. `Ring` is the image of blocks and the ring of
//! writes that have not landed, of which this memory and thy_nvm are made: its contracts say exactly what is read, which
//! write lands next, and what stays queued.
//!
//! Open specs/Contents.antt first, and src/dram.rt. Of the queue open specs/Held.antt, and src/write_queue/ring.rt. It
//! stands on thy_block; on it stand thy_nvm, thy_table, thy_control, thy_computer and what is above them.
#![tactic(auto)]

mod dram;
mod draws;
mod jumps;
mod write_queue;

pub use dram::Dram;
pub use write_queue::Ring;
