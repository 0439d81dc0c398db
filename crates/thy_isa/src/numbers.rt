//! Numbers in memory, the lowest byte first.
#![tactic(auto, unfolding(thy_block::specs::LittleEndian::number_at, crate::specs::Extending::extended))]

ghost use Rattle.std.specs.Prelude.{◌≡◌, ◌+◌, ◌≤◌, length};
ghost use Rattle.thy_block.specs.LittleEndian.{number_at};
ghost use Rattle.thy_isa.specs.Effects.{size_of};
ghost use Rattle.thy_isa.specs.Extending.{extended};

use crate::instr::{Extend, Width};

/// The number of `width` bytes from index `at` on, lowest byte first. The bytes reach that far.
pub fn number(bytes: &[u8], at: usize, width: Width) -> u64
    requires { at + size_of width ≤ length bytes.now }
    ensures { result ≡ number_at (size_of width) bytes.now at }
{
    match width {
        Width::Byte => u64::from(bytes[at]),
        Width::Half => u64::from(u16::from_le_bytes([bytes[at], bytes[at + 1]])),
        Width::Word => u64::from(word(bytes, at)),
        Width::Double => double(bytes, at),
    }
}

/// The word of 32 bits from index `at` on, lowest byte first. The bytes reach that far.
pub fn word(bytes: &[u8], at: usize) -> u32
    requires { at + 4 ≤ length bytes.now }
    ensures { result ≡ number_at 4 bytes.now at }
{
    u32::from_le_bytes([bytes[at], bytes[at + 1], bytes[at + 2], bytes[at + 3]])
}

fn double(bytes: &[u8], at: usize) -> u64
    requires { at + 8 ≤ length bytes.now }
    ensures { result ≡ number_at 8 bytes.now at }
{
    u64::from(word(bytes, at)) + (u64::from(word(bytes, at + 4)) << 32)
}

/// The low `width` bytes of a number, extended to 64 bits by their sign or by zeros.
pub fn extended(width: Width, extend: Extend, value: u64) -> u64
    ensures { result ≡ extended width extend value }
{
    match extend {
        Extend::Sign => sign_extended(width, value),
        Extend::Zero => match width {
            Width::Byte => value & 0xff,
            Width::Half => value & 0xffff,
            Width::Word => value & 0xffff_ffff,
            Width::Double => value,
        },
    }
}

fn sign_extended(width: Width, value: u64) -> u64
    ensures { result ≡ extended width Extend.Sign value }
{
    match width {
        Width::Byte => i64::from(((value & 0xff) as u8).cast_signed()).cast_unsigned(),
        Width::Half => i64::from(((value & 0xffff) as u16).cast_signed()).cast_unsigned(),
        Width::Word => i64::from(((value & 0xffff_ffff) as u32).cast_signed()).cast_unsigned(),
        Width::Double => value,
    }
}
