//! What an atomic memory operation makes of two numbers.
#![tactic(auto, unfolding(crate::specs::Atomics::amo_of))]

ghost use Rattle.std.specs.Prelude.{◌≡◌};
ghost use Rattle.thy_isa.specs.Atomics.{amo_of, modified};

use crate::instr::{Amo, Extend, Width};
use crate::numbers::extended;

/// The number that an atomic memory operation on 64 bits writes, from `a`, the number in memory, and `b`, the number of rs2.
fn amo(op: Amo, a: u64, b: u64) -> u64
    ensures { result ≡ amo_of op a b }
{
    match op {
        Amo::Swap => b,
        Amo::Add => a.wrapping_add(b),
        Amo::Xor => a ^ b,
        Amo::And => a & b,
        Amo::Or => a | b,
        Amo::Min => {
            if b.cast_signed() < a.cast_signed() {
                b
            } else {
                a
            }
        }
        Amo::Max => {
            if a.cast_signed() < b.cast_signed() {
                b
            } else {
                a
            }
        }
        Amo::Minu => { if b < a { b } else { a } }
        Amo::Maxu => { if a < b { b } else { a } }
    }
}

/// The number whose low bytes an atomic memory operation of this width writes, from the number that it read and the
/// value of rs2.
pub fn modified(op: Amo, width: Width, old: u64, value: u64) -> u64
    ensures { result ≡ modified op width old value }
{
    amo(
        op,
        extended(width, Extend::Sign, old),
        extended(width, Extend::Sign, value),
    )
}
