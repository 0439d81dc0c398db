//! A reader whose failures are counted.
ghost use Rattle.std.specs.Prelude.{◌≡◌, ◌≢◌, IfErr};
ghost use Rattle.std.specs.Io.KnownBytes.{ReadConsumes};
ghost use Rattle.std.specs.Io.{ReadsAtMost};
ghost use Rattle.std.specs.IoError.{error_kind};
ghost use Rattle.thy_block.specs.Device.{CountsOneFault};

use std::io;
use std::io::{Error, ErrorKind, Read};
use std::marker::Model;

/// A reader, and how many of its reads failed. Only a read that fails raises the count.
#[derive(Drop)]
pub struct CountedReader<F: Read> {
    from: F,
    failures: u64,
}

impl<F: Read> Model for CountedReader<F> {
    ghost use Rattle.thy_out.specs.Spring.{Spring};

    ghost Value = { Spring };

    ghost view = { λ s. record { left = F.remaining s.from; failures = s.failures } };
}

/// Reads, and again after a read that was interrupted.
fn read_on<F: Read>(from: &mut F, to: &mut [u8]) -> io::Result<usize>
    ensures bound { ReadsAtMost result to.new }
    ensures bytes { ReadConsumes (F.remaining from.old) (F.remaining from.new) result to.new }
    ensures retried { IfErr result (λ e. error_kind e ≢ ErrorKind.Interrupted) }
{
    for _ in 0..u64::MAX {
        match from.read(to) {
            Ok(count) => return Ok(count),
            Err(error) => {
                if error.kind() != ErrorKind::Interrupted {
                    return Err(error);
                }
            }
        }
    }
    Err(Error::from(ErrorKind::TimedOut))
}

impl<F: Read> CountedReader<F> {
    /// A reader of which no read has failed.
    pub fn over(from: F) -> CountedReader<F>
        ensures { result ≡ record { left = F.remaining from; failures = 0 } }
    {
        CountedReader { from, failures: 0 }
    }

    /// Reads what comes next, and returns how many bytes that is: 0 at the end, or with no room. A read that was
    /// interrupted is repeated, and does not count as a failure.
    pub fn read(&mut self, to: &mut [u8]) -> io::Result<usize>
        ensures bound { ReadsAtMost result to.new }
        ensures bytes { ReadConsumes self.old.left self.new.left result to.new }
        ensures retried { IfErr result (λ e. error_kind e ≢ ErrorKind.Interrupted) }
        ensures count { CountsOneFault result self.old.failures self.new.failures }
    {
        match read_on(&mut self.from, to) {
            Ok(count) => Ok(count),
            Err(error) => {
                self.failures = self.failures.saturating_add(1);
                Err(error)
            }
        }
    }
}
