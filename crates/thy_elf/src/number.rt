//! Numbers of a file, little-endian.
ghost use Rattle.std.specs.Prelude.{◌≡◌, ◌+◌, ◌≤◌, length, nat_lt};
ghost use Rattle.thy_block.specs.LittleEndian.{number_at};

use byteorder::{ByteOrder, LittleEndian};

/// The number in the two bytes from `place` on, lowest byte first.
pub fn u16_at(file: &[u8], place: usize) -> u16
    requires { place + 2 ≤ length file.now }
    ensures { result ≡ number_at 2 file.now place }
{
    LittleEndian::read_u16(&file[place..place + 2])
}

/// The number in the four bytes from `place` on, lowest byte first.
pub fn u32_at(file: &[u8], place: usize) -> u32
    requires { place + 4 ≤ length file.now }
    ensures { result ≡ number_at 4 file.now place }
{
    LittleEndian::read_u32(&file[place..place + 4])
}

/// The number in the eight bytes from `place` on, lowest byte first.
pub fn u64_at(file: &[u8], place: usize) -> u64
    requires { place + 8 ≤ length file.now }
    ensures { result ≡ number_at 8 file.now place }
{
    LittleEndian::read_u64(&file[place..place + 8])
}

/// Whether `len` bytes from `from` on reach past `end`. The sum does not wrap.
pub fn passes(from: u64, len: u64, end: u64) -> bool
    ensures { result ≡ nat_lt end (from + len) }
{
    end < from || end - from < len
}
