//! What the harts have reserved.

ghost use Rattle.std.specs.Prelude.{◌≡◌};
ghost use Rattle.thy_isa.specs.Reservations.{reservation, is_reserved, shares_block, left_by, written_past, reserving, front_of};

use crate::instr::Width;
use crate::state::{OtherHart, Reservation};

/// The reservation of `width` bytes at an address; of 1 or 2 bytes nothing is reserved.
pub fn reservation(width: Width, at: u64) -> Reservation
    ensures { result ≡ reservation width at }
{
    match width {
        Width::Byte | Width::Half => Reservation::Nothing(0),
        Width::Word => Reservation::Word(at),
        Width::Double => Reservation::Double(at),
    }
}

/// Whether a reservation is of exactly the `width` bytes at an address.
pub fn is_reserved(reserved: Reservation, width: Width, at: u64) -> bool
    ensures { result ≡ is_reserved reserved width at }
{
    match reserved {
        Reservation::Nothing(_) => false,
        Reservation::Word(a) => match width {
            Width::Word => a == at,
            Width::Byte | Width::Half | Width::Double => false,
        },
        Reservation::Double(a) => match width {
            Width::Double => a == at,
            Width::Byte | Width::Half | Width::Word => false,
        },
    }
}

/// What the hart in front has reserved: nothing with one hart.
pub fn front_of(other: &Option<OtherHart>) -> Reservation
    ensures { result ≡ front_of other.now }
{
    match other {
        None => Reservation::Nothing(0),
        Some(other) => other.front,
    }
}

/// Whether one of `len` bytes at an address is in the aligned block of 64 bytes that has address `a`.
fn shares_block(at: u64, len: u64, a: u64) -> bool
    ensures { result ≡ shares_block at len a }
{
    let first = u128::from(a / 64 * 64);
    first < u128::from(at) + u128::from(len) && u128::from(at) < first + 64
}

/// What is left of a hart's reservation after the other hart has written `len` bytes at an address: nothing, if one of them is in its
/// block.
pub fn left_by(at: u64, len: u64, reserved: Reservation) -> Reservation
    ensures { result ≡ left_by at len reserved }
{
    match reserved {
        Reservation::Nothing(a) => Reservation::Nothing(a),
        Reservation::Word(a) => {
            if shares_block(at, len, a) {
                Reservation::Nothing(0)
            } else {
                Reservation::Word(a)
            }
        }
        Reservation::Double(a) => {
            if shares_block(at, len, a) {
                Reservation::Nothing(0)
            } else {
                Reservation::Double(a)
            }
        }
    }
}

/// Notes that the hart in front has written `len` bytes at an address. The other hart, if it is there, loses a reservation in their block.
pub fn write_past(other: &mut Option<OtherHart>, at: u64, len: u64)
    ensures { other.new ≡ written_past at len other.old }
{
    if let Some(other) = other {
        other.back = left_by(at, len, other.back);
    }
}

/// Gives the hart in front this reservation in place of the one that it had. With one hart nothing is reserved.
pub fn reserve(other: &mut Option<OtherHart>, reserved: Reservation)
    ensures { other.new ≡ reserving reserved other.old }
{
    if let Some(other) = other {
        other.front = reserved;
    }
}
