//! A sink over a writer.
ghost use Rattle.std.specs.Prelude.{◌≡◌, true, None, OnOk, OnErr};
ghost use Rattle.thy_block.specs.Outside.{Took, TookPart};
ghost use Rattle.thy_out.specs.Written.{stream_of, failures_after};

use crate::target::Target;
use std::io::{Stderr, Stdout, Write};
use thy_block::{Sink, SinkError};

/// Writes each piece through at once, so that nothing is left unwritten when the program ends. What it took is known
/// if the contents of its writer are. Its faults are the calls of the writer that failed.
#[derive(Drop)]
pub struct StdSink<W: Write> {
    to: Target<W>,
}

impl<W: Write> StdSink<W> {
    /// A sink over a stream, with no fault yet.
    pub fn over(to: W) -> StdSink<W>
        ensures { ⟦<StdSink<W> as Sink>⟧.stream result ≡ record { taken = W.contents to; faults = 0 } }
    {
        StdSink {
            to: Target::over(to),
        }
    }
}

impl StdSink<Stdout> {
    /// A sink over standard output, of which no call has failed.
    pub fn output(to: Stdout) -> StdSink<Stdout>
        ensures { ⟦<StdSink<Stdout> as Sink>⟧.stream result ≡ record { taken = None; faults = 0 } }
    {
        StdSink::over(to)
    }
}

impl StdSink<Stderr> {
    /// A sink over standard error, of which no call has failed.
    pub fn error(to: Stderr) -> StdSink<Stderr>
        ensures { ⟦<StdSink<Stderr> as Sink>⟧.stream result ≡ record { taken = None; faults = 0 } }
    {
        StdSink::over(to)
    }
}

impl<W: Write> Sink for StdSink<W> {
    ghost stream = { λ s. stream_of s.to };

    fn write(&mut self, piece: &[u8]) -> Result<(), SinkError>
        ensures whole { OnOk result (Took (stream_of self.old.to) (stream_of self.new.to) piece.now) }
        ensures failed { OnErr result (TookPart (stream_of self.old.to) (stream_of self.new.to) piece.now) }
        ensures flushed { OnOk result (self.new.to.flushed ≡ true) }
        ensures after { self.new.to.failures ≡ failures_after self.old.to.failures result }
    {
        self.to.write(piece)?;
        self.to.flush()
    }
}
