//! The plain machine: one flat list of bytes as memory, advanced one whole instruction at a time. It is the reference for every
//! other machine of this repository. Callers depend on `Plain::step` and `Plain::run`, which take exactly the steps that
//! specs/Step.antt of thy_isa defines, and on `start_of`, the state at which a program starts.
//!
//! Open specs/Machine.antt first, and src/plain.rt. It stands on thy_block, thy_isa and thy_elf; on it stand thy_files and
//! thy_execute.
#![tactic(auto)]

mod advance;
mod held;
mod plain;
mod setup;
mod start;
mod window;

pub use plain::Plain;
pub use start::{recall_are_bytes, start_of};
