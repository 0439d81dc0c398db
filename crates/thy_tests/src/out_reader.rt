//! A reader that is slow, interrupted or failing, within a limit.
use crate::support::expect::expect;
use std::alloc::Global;
use std::io;
use std::io::{Error, ErrorKind, Read};
use thy_base::FetchError;
use thy_out::{CountedReader, read_within};

/// Gives its bytes three a call, except for a call that a signal interrupts and one that fails.
#[derive(Drop)]
struct Slow {
    bytes: &'static [u8],
    calls: u64,
    failing: u64,
}

impl Read for Slow {
    fn read(&mut self, to: &mut [u8]) -> io::Result<usize> {
        self.calls = self.calls.saturating_add(1);
        if self.calls == 2 {
            return Err(Error::from(ErrorKind::Interrupted));
        }
        if self.calls == self.failing {
            return Err(Error::from(ErrorKind::StaleNetworkFileHandle));
        }
        let count = self.bytes.len().min(to.len()).min(3);
        to[..count].copy_from_slice(&self.bytes[..count]);
        self.bytes = &self.bytes[count..];
        Ok(count)
    }
}

/// What a read within a limit gives of seven bytes, of which the call `failing` fails.
fn within(alloc: Global, failing: u64, limit: u64) -> Result<Vec<u8>, FetchError> {
    let slow = Slow {
        bytes: b"seven b",
        calls: 0,
        failing,
    };
    read_within(&mut CountedReader::over(slow), alloc, limit)
}

#[test]
fn a_slow_file_is_read_to_its_end(rt: HostRuntime) {
    let bytes = within(rt.alloc(), 0, 7).expect(&rt, "seven bytes");
    expect(&rt, bytes.as_slice(), b"seven b".as_slice());
    expect(
        &rt,
        within(rt.alloc(), 0, 6).err(),
        Some(FetchError::TooLong),
    );
}

#[test]
fn a_file_that_fails_gives_nothing(rt: HostRuntime) {
    expect(
        &rt,
        within(rt.alloc(), 4, 7).err(),
        Some(FetchError::Failed),
    );
}
