//! A sink over a stream that is slow, interrupted or failing.
ghost use Rattle.std.specs.Prelude.{◌≡◌};

use crate::support::expect::expect;
use std::io;
use std::io::{Error, ErrorKind, Write};
use thy_base::Sink;
use thy_out::StdSink;

/// Takes two bytes a call, except for a call that a signal interrupts and one that fails.
#[derive(Drop)]
struct Slow {
    taken: Vec<u8>,
    calls: u64,
    interrupted: u64,
    failing: u64,
    flushes: u64,
    flush_fails: bool,
}

impl Write for Slow {
    fn write(&mut self, bytes: &[u8]) -> io::Result<usize> {
        self.calls = self.calls.saturating_add(1);
        if self.calls == self.interrupted {
            return Err(Error::from(ErrorKind::Interrupted));
        }
        if self.calls == self.failing {
            return Err(Error::from(ErrorKind::StorageFull));
        }
        let count = bytes.len().min(2);
        match self.taken.extend_from_slice(&bytes[..count]) {
            Ok(()) => Ok(count),
            Err(_) => Err(Error::from(ErrorKind::OutOfMemory)),
        }
    }

    fn flush(&mut self) -> io::Result<()> {
        self.flushes = self.flushes.saturating_add(1);
        if self.flush_fails {
            Err(Error::from(ErrorKind::BrokenPipe))
        } else {
            Ok(())
        }
    }
}

fn slow_stream(rt: &HostRuntime, failing: u64, flush_fails: bool) -> Slow {
    Slow {
        taken: Vec::new(rt.alloc()),
        calls: 0,
        interrupted: 2,
        failing,
        flushes: 0,
        flush_fails,
    }
}

/// Proved at each call: the sink has counted `faults` faults.
fn has_counted<S: Sink>(sink: &S, faults: u64)
    requires { (S.stream sink.now).faults ≡ faults }
{}

#[test]
fn a_slow_stream_takes_the_whole_piece(rt: HostRuntime) {
    let mut slow = slow_stream(&rt, 0, false);
    let mut sink = StdSink::over(&mut slow);
    sink.write(b"seven b").expect(&rt, "the whole piece");
    has_counted(&sink, 0);
    expect(&rt, slow.taken.as_slice(), b"seven b".as_slice());
    expect(&rt, slow.flushes, 1);
}

#[test]
fn a_stream_that_fails_is_reported(rt: HostRuntime) {
    let mut failing = slow_stream(&rt, 4, false);
    let mut sink = StdSink::over(&mut failing);
    assert!(rt; sink.write(b"seven b").is_err());
    has_counted(&sink, 1);
    expect(&rt, failing.taken.as_slice(), b"seve".as_slice());
    let mut unflushed = slow_stream(&rt, 0, true);
    let mut sink = StdSink::over(&mut unflushed);
    assert!(rt; sink.write(b"seven b").is_err());
    has_counted(&sink, 1);
}
