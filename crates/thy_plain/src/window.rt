//! Where an address lies in program memory.

ghost use Rattle.std.specs.Prelude.{◌≡◌, ◌-◌, ◌+◌, ◌≤◌, true, false, length, None, Some, IfSome, IfNone, IfOk, IfErr};
ghost use Rattle.thy_block.specs.Bytes.{bytes_of};
ghost use Rattle.thy_block.specs.Inside.{is_inside};
ghost use Rattle.thy_isa.specs.Effects.{size_of};
ghost use Rattle.thy_isa.specs.Step.{fetch_fault};
ghost use Rattle.thy_plain.specs.Window.{HasWords, IsWindow};

use crate::setup::Setup;
use thy_block::{Bytes, is_inside};
use thy_isa::{Cause, Width, bytes_in, fetch_fault};

/// How many bytes there are at least at each offset of the window.
const MOST: u64 = 8;

/// How many offsets from the base have 8 bytes of a memory of this size, if it ends below `2^64`; else none.
pub(crate) fn window_of(base: u64, size: u64) -> u64
    ensures { IsWindow base size result }
{
    if MOST <= size && base < u64::MAX - size {
        size - (MOST - 1)
    } else {
        0
    }
}

/// How many words a memory of this size has, if its base is a multiple of four and it ends below `2^64`; else none.
pub(crate) fn words_of(base: u64, size: u64) -> u64
    ensures { HasWords base size result }
{
    if base % 4 == 0 && base < u64::MAX - size {
        size / 4
    } else {
        0
    }
}

/// The offset in memory of the bytes at an address, if one comparison shows that they lie inside.
#[inline(always)]
pub(crate) fn near_offset(setup: &Setup, memory: &Bytes, at: u64, width: Width) -> Option<usize>
    requires { IsWindow setup.now.base (length (bytes_of memory.now)) setup.now.window }
    ensures inside { IfSome result (λ offset. is_inside setup.now.base (length (bytes_of memory.now)) at (size_of width) ≡ true) }
    ensures offset { IfSome result (λ offset. offset ≡ at - setup.now.base) }
    ensures fits { IfSome result (λ offset. offset + size_of width ≤ length (bytes_of memory.now)) }
{
    let _ = memory;
    let _ = width;
    let offset = at.wrapping_sub(setup.base);
    if offset < setup.window {
        Some(offset as usize)
    } else {
        None
    }
}

/// The offset of the bytes at an address in any memory, if they lie inside.
pub(crate) fn far_offset(base: u64, memory: &Bytes, at: u64, width: Width) -> Option<usize>
    ensures inside { IfSome result (λ offset. is_inside base (length (bytes_of memory.now)) at (size_of width) ≡ true) }
    ensures offset { IfSome result (λ offset. offset ≡ at - base) }
    ensures fits { IfSome result (λ offset. offset + size_of width ≤ length (bytes_of memory.now)) }
    ensures outside { IfNone result (is_inside base (length (bytes_of memory.now)) at (size_of width) ≡ false) }
{
    let size = memory.len() as u64;
    if is_inside(base, size, at, bytes_in(width)) {
        Some((at - base) as usize)
    } else {
        None
    }
}

/// A quarter of the numbers of 64 bits.
const QUARTER: u64 = 1 << 62;

/// The offset in memory of the word at `pc`, if one comparison shows that it lies inside: of the offset with its low two bits in
/// front, which is low only if they are 0.
#[inline(always)]
pub(crate) fn near_word(setup: &Setup, memory: &Bytes, pc: u64) -> Option<usize>
    requires { HasWords setup.now.base (length (bytes_of memory.now)) setup.now.words }
    ensures fetched { IfSome result (λ offset. fetch_fault setup.now.base (length (bytes_of memory.now)) pc ≡ None) }
    ensures offset { IfSome result (λ offset. offset ≡ pc - setup.now.base) }
    ensures fits { IfSome result (λ offset. offset + 4 ≤ length (bytes_of memory.now)) }
{
    let _ = memory;
    let offset = pc.wrapping_sub(setup.base);
    let turned = offset % 4 * QUARTER + offset / 4;
    if turned < setup.words {
        Some(offset as usize)
    } else {
        None
    }
}

/// The offset of the word at `pc` in any memory, or why none can be fetched there.
pub(crate) fn far_word(base: u64, memory: &Bytes, pc: u64) -> Result<usize, Cause>
    ensures ok { IfOk result (λ offset. fetch_fault base (length (bytes_of memory.now)) pc ≡ None) }
    ensures offset { IfOk result (λ offset. offset ≡ pc - base) }
    ensures fits { IfOk result (λ offset. offset + 4 ≤ length (bytes_of memory.now)) }
    ensures err { IfErr result (λ cause. fetch_fault base (length (bytes_of memory.now)) pc ≡ Some cause) }
{
    let size = memory.len() as u64;
    match fetch_fault(base, size, pc) {
        Some(cause) => Err(cause),
        None => Ok((pc - base) as usize),
    }
}
