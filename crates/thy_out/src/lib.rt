//! Shelves and sinks: in memory, with calls that can be made to fail, and over files and streams. Each keeps the laws
//! of the traits `Shelf` and `Sink` of thy_block; `MemShelf` and `MemSink` also equal their specifications.
//!
//! Open src/mem_sink.rt and src/file_shelf.rt first, then specs/Tape.antt; src/disk.rt has how a put reaches the files of
//! the system. It stands on thy_block. The program and the tests use it; no other crate does, since the top call is proved
//! for every shelf and sink.
#![tactic(auto)]

mod counted_reader;
mod disk;
mod file_shelf;
mod mem_shelf;
mod mem_sink;
mod side;
mod std_sink;
mod target;

pub use counted_reader::CountedReader;
pub use disk::{Disk, Replaced};
pub use file_shelf::{FileShelf, read_within};
pub use mem_shelf::MemShelf;
pub use mem_sink::MemSink;
pub use std_sink::StdSink;
pub use target::Target;
