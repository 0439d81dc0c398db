//! A sink in memory.
ghost use Rattle.std.specs.Prelude.{◌≡◌, [], IfOk, OnOk, OnErr, is_ok};
ghost use Rattle.thy_block.specs.Outside.{Took, TookPart};
ghost use Rattle.thy_out.specs.Tape.{stream_of, written, takes_all};

use std::alloc::{AllocError, Global};
use std::marker::Model;
use thy_block::{Sink, SinkError};

/// Takes bytes up to a capacity that is fixed when it is made. Contracts know what it took. Its writes allocate
/// nothing.
#[derive(Debug, Drop)]
pub struct MemSink {
    taken: Vec<u8>,
    room: u64,
    calls: u64,
    failing: Vec<u64>,
    faults: u64,
}

impl Model for MemSink {
    ghost use Rattle.std.specs.Prelude.{◌≤◌, length, vec_capacity};
    ghost use Rattle.thy_out.specs.Tape.{Tape};

    ghost Value = { Tape };

    ghost view = { λ s. record { taken = s.taken.items; room = s.room; calls = s.calls; failing = s.failing.items; faults = s.faults } };

    ghost invariant = { λ s. (length s.taken.items ≤ s.room) × (s.room ≤ vec_capacity s.taken) };
}

impl MemSink {
    /// An empty sink that can take `room` bytes in all. The writes listed in `failing`, counted
    /// from 1, take nothing and fail. The number of a call stops at `2^64 - 1`.
    pub fn new(alloc: Global, room: u64, failing: Vec<u64>) -> Result<MemSink, AllocError>
        ensures { IfOk result (λ s. s ≡ record { taken = []; room = room; calls = 0; failing = failing.items; faults = 0 }) }
    {
        let taken = Vec::with_capacity(alloc, room as usize)?;
        Ok(MemSink {
            taken,
            room,
            calls: 0,
            failing,
            faults: 0,
        })
    }

    /// The bytes that the sink has taken, in order.
    pub fn taken(&self) -> &[u8]
        ensures { result.now ≡ self.now.taken }
    {
        self.taken.as_slice()
    }
}

impl Sink for MemSink {
    ghost stream = { stream_of };

    /// A write beyond the capacity takes what fits and fails.
    fn write(&mut self, piece: &[u8]) -> Result<(), SinkError>
        ensures whole { OnOk result (Took (stream_of self.old) (stream_of self.new) piece.now) }
        ensures failed { OnErr result (TookPart (stream_of self.old) (stream_of self.new) piece.now) }
        ensures answer { is_ok result ≡ takes_all self.old piece.now }
        ensures after { self.new ≡ written self.old piece.now }
    {
        self.calls = self.calls.saturating_add(1);
        if self.failing.contains(&self.calls) {
            self.faults = self.faults.saturating_add(1);
            return Err(SinkError::Failed);
        }
        let left = self.room as usize - self.taken.len();
        let fitting = piece.len().min(left);
        self.taken.extend_from_slice(&piece[..fitting]).unwrap();
        if fitting < piece.len() {
            self.faults = self.faults.saturating_add(1);
            return Err(SinkError::Failed);
        }
        Ok(())
    }
}
