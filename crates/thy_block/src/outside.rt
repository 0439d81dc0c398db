//! The outside of the machine: shelves, which hold files, and sinks, which take bytes.
//!
//! Each has a count of faults, which never falls. A call that succeeds leaves it, and a call returns
//! `Failed` only if the count rose in that call, or is at the last value of a `u64`. For a shelf it may
//! also be known under which names calls failed; then a call that fails adds its name to these, and no other does.

use std::alloc::{AllocError, Global};

/// Why a shelf gave no bytes.
#[derive(Clone, Copy, Debug, PartialEq, Eq)]
pub enum FetchError {
    /// The shelf failed, and its count of faults rose.
    Failed,
    /// Nothing is held under the name.
    NotThere,
    /// More bytes are held there than were asked for.
    TooLong,
    /// Memory ran out.
    Memory(AllocError),
}

/// Why a shelf did not take bytes.
#[derive(Clone, Copy, Debug, PartialEq, Eq)]
pub enum PutError {
    /// The shelf failed, and its count of faults rose.
    Failed,
    /// Memory ran out.
    Memory(AllocError),
}

/// Why a sink did not take a whole piece.
#[derive(Clone, Copy, Debug, PartialEq, Eq)]
pub enum SinkError {
    /// The sink failed, and its count of faults rose.
    Failed,
}

/// Named files. Contracts may know what a shelf holds; then its results agree with that. They may also know under
/// which names calls failed; then a call that fails adds its name.
pub trait Shelf {
    ghost use Rattle.std.specs.Prelude.{◌≡◌, ◌≤◌, length, IfOk, OnOk, Some};
    ghost use Rattle.thy_block.specs.Outside.{Stock, Files, Fetched, FetchCounts, KeepsOthers, Holds, PutCounts};

    /// What the shelf holds, and under which names calls failed, if these are known; and its count of faults.
    ghost stock: { Self → Stock };

    /// The bytes under `name`, if they are at most `limit`. A shelf with known contents returns `NotThere`
    /// exactly if nothing is held there and `TooLong` exactly if more than `limit` bytes are,
    /// `Failed` and `Memory` aside. No shelf gives more than `limit` bytes. It changes nothing that is held.
    fn fetch(&mut self, alloc: Global, name: &str, limit: u64) -> Result<Vec<u8>, FetchError>
        ensures keeps { (stock self.new).held ≡ (stock self.old).held }
        ensures answer { (files : Files) → (stock self.old).held ≡ Some files → Fetched (files name.now) limit result }
        ensures within { IfOk result (λ bytes. length bytes.items ≤ limit) }
        ensures faults { FetchCounts name.now (stock self.old) (stock self.new) result };

    /// Makes `name` hold these bytes. No other name changes, whatever the result.
    fn put(&mut self, alloc: Global, name: &str, bytes: &[u8]) -> Result<(), PutError>
        ensures ok { OnOk result (Holds (stock self.new) name.now bytes.now) }
        ensures others { KeepsOthers (stock self.old) (stock self.new) name.now }
        ensures faults { PutCounts name.now (stock self.old) (stock self.new) result };
}

/// A sink of bytes, such as a terminal or a report. Contracts may know what it has taken.
pub trait Sink {
    ghost use Rattle.std.specs.Prelude.{OnOk, OnErr};
    ghost use Rattle.thy_block.specs.Outside.{Stream, Took, TookPart};

    /// What the sink has taken, if that is known, and its count of faults.
    ghost stream: { Self → Stream };

    /// Takes the whole piece, or fails and has taken only the first part of it, or none.
    fn write(&mut self, piece: &[u8]) -> Result<(), SinkError>
        ensures whole { OnOk result (Took (stream self.old) (stream self.new) piece.now) }
        ensures failed { OnErr result (TookPart (stream self.old) (stream self.new) piece.now) };
}
