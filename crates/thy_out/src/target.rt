//! A file or a stream that is written to, whose failures are counted.
ghost use Rattle.std.specs.Prelude.{◌≡◌, ◌≢◌, ◌<◌, ◌≤◌, is_ok, false, length, IfOk, IfErr, OnOk, OnErr};
ghost use Rattle.std.specs.Io.KnownBytes.{Keeps, WriteAppends};
ghost use Rattle.std.specs.IoError.{error_kind};
ghost use Rattle.thy_block.specs.Device.{CountsOneFault};
ghost use Rattle.thy_block.specs.Outside.{Took, TookPart};
ghost use Rattle.thy_out.specs.Written.{stream_of, untouched, failures_after, count_with};

use std::fs::OpenFile;
use std::io;
use std::io::{Error, ErrorKind, Write};
use std::marker::Model;
use thy_block::SinkError;

/// A writer; whether it was flushed, and whether it was synced, after all that it took; how many of its calls failed;
/// and how many bytes the pieces have that it took whole. Only a call that fails raises the count of failures.
#[derive(Drop)]
pub struct Target<W: Write> {
    to: W,
    flushed: bool,
    synced: bool,
    failures: u64,
    // Saturates.
    count: u64,
}

impl<W: Write> Model for Target<W> {
    ghost use Rattle.thy_out.specs.Written.{Written};

    ghost Value = { Written };

    ghost view = { λ s. record { taken = W.contents s.to; flushed = s.flushed; synced = s.synced; failures = s.failures; count = s.count } };
}

/// Writes some bytes of a piece that has any, and again after a write that was interrupted. A writer that takes none
/// has failed.
fn write_on<W: Write>(to: &mut W, piece: &[u8]) -> io::Result<usize>
    requires { 0 < length piece.now }
    ensures some { IfOk result (λ n. (0 < n) × (n ≤ length piece.now)) }
    ensures bytes { WriteAppends (W.contents to.old) (W.contents to.new) result piece.now }
    ensures retried { IfErr result (λ e. error_kind e ≢ ErrorKind.Interrupted) }
{
    for _ in 0..u64::MAX {
        match to.write(piece) {
            Ok(0) => return Err(Error::from(ErrorKind::WriteZero)),
            Ok(count) => return Ok(count),
            Err(error) => {
                if error.kind() != ErrorKind::Interrupted {
                    return Err(error);
                }
            }
        }
    }
    Err(Error::from(ErrorKind::TimedOut))
}

impl<W: Write> Target<W> {
    /// A target of which no call has failed.
    pub fn over(to: W) -> Target<W>
        ensures { result ≡ untouched (W.contents to) }
    {
        Target {
            to,
            flushed: false,
            synced: false,
            failures: 0,
            count: 0,
        }
    }

    /// Takes some bytes of a piece that has any, or fails and has taken none.
    fn write_some(&mut self, piece: &[u8]) -> Result<usize, SinkError>
        requires { 0 < length piece.now }
        ensures some { IfOk result (λ n. (0 < n) × (n ≤ length piece.now)) }
        ensures bytes { WriteAppends self.old.taken self.new.taken result piece.now }
        ensures count { CountsOneFault result self.old.failures self.new.failures }
        ensures after { self.new.failures ≡ failures_after self.old.failures result }
        ensures flags { self.new ≡ record self.old { taken = self.new.taken; failures = self.new.failures } }
    {
        match write_on(&mut self.to, piece) {
            Ok(count) => Ok(count),
            Err(_) => {
                self.failures = self.failures.saturating_add(1);
                Err(SinkError::Failed)
            }
        }
    }

    /// Takes the whole piece, or fails and has taken only the first part of it, or none. A write that was
    /// interrupted is repeated, and has not failed.
    pub fn write(&mut self, piece: &[u8]) -> Result<(), SinkError>
        ensures whole { OnOk result (Took (stream_of self.old) (stream_of self.new) piece.now) }
        ensures failed { OnErr result (TookPart (stream_of self.old) (stream_of self.new) piece.now) }
        ensures count { CountsOneFault result self.old.failures self.new.failures }
        ensures after { self.new.failures ≡ failures_after self.old.failures result }
        ensures unflushed { self.new.flushed ≡ false }
        ensures unsynced { self.new.synced ≡ false }
        ensures counted { OnOk result (self.new.count ≡ count_with self.old.count (length piece.now)) }
    {
        self.flushed = false;
        self.synced = false;
        let mut done = 0;
        while done < piece.len() {
            match self.write_some(&piece[done..]) {
                Ok(count) => done += count,
                Err(error) => return Err(error),
            }
        }
        self.count = self.count.saturating_add(piece.len() as u64);
        Ok(())
    }

    /// Makes the writer pass on what it took.
    pub fn flush(&mut self) -> Result<(), SinkError>
        ensures taken { Keeps self.old.taken self.new.taken }
        ensures flushed { self.new.flushed ≡ is_ok result }
        ensures count { CountsOneFault result self.old.failures self.new.failures }
        ensures after { self.new.failures ≡ failures_after self.old.failures result }
    {
        match self.to.flush() {
            Ok(()) => {
                self.flushed = true;
                Ok(())
            }
            Err(_) => {
                self.flushed = false;
                self.failures = self.failures.saturating_add(1);
                Err(SinkError::Failed)
            }
        }
    }
}

impl<F: Write + OpenFile> Target<F> {
    /// Has the system write what the file took to its device, and waits for that.
    pub fn sync(&mut self) -> Result<(), SinkError>
        ensures taken { self.new.taken ≡ self.old.taken }
        ensures synced { self.new.synced ≡ is_ok result }
        ensures count { CountsOneFault result self.old.failures self.new.failures }
        ensures counted { self.new.count ≡ self.old.count }
    {
        match self.to.sync_all() {
            Ok(()) => {
                self.synced = true;
                Ok(())
            }
            Err(_) => {
                self.synced = false;
                self.failures = self.failures.saturating_add(1);
                Err(SinkError::Failed)
            }
        }
    }

    /// Takes the whole piece and syncs it, or fails.
    pub fn fill(&mut self, piece: &[u8]) -> Result<(), SinkError>
        ensures whole { OnOk result (Took (stream_of self.old) (stream_of self.new) piece.now) }
        ensures failed { OnErr result (TookPart (stream_of self.old) (stream_of self.new) piece.now) }
        ensures synced { self.new.synced ≡ is_ok result }
        ensures counted { OnOk result (self.new.count ≡ count_with self.old.count (length piece.now)) }
    {
        self.write(piece)?;
        self.sync()
    }
}
