//! Remainders by one number.
ghost use Rattle.std.specs.Prelude.{◌≡◌, ◌%◌, ◌<◌, IfSome};
ghost use Rattle.thy_cache.specs.Modulus.{IsMaskOf};

use std::marker::Model;

/// A number, 1 or more, that others are divided by again and again. If it is a power of two, a mask gives the
/// remainders, without a division.
#[derive(Drop)]
pub(crate) struct Modulus {
    number: u64,
    mask: Option<u64>,
}

impl Model for Modulus {
    ghost use Rattle.std.specs.Prelude.{ℕ};
    ghost use Rattle.thy_cache.specs.Modulus.{IsSoundModulus};

    ghost Value = { ℕ };

    ghost view = { λ m. m.number };

    ghost invariant = { λ m. IsSoundModulus m.number m.mask };
}

/// The greatest power of two that 64 bits hold.
const GREATEST_POWER: u64 = 1 << 63;

impl Modulus {
    /// The modulus that divides by this number.
    pub(crate) fn new(number: u64) -> Modulus
        requires { 0 < number }
        ensures { result ≡ number }
    {
        let mask = mask_of(number);
        Modulus { number, mask }
    }

    /// The remainder of `n`.
    #[inline(always)]
    pub(crate) fn rest(&self, n: u64) -> u64
        ensures rest { result ≡ n % self.now }
        ensures below { result < self.now }
    {
        match self.mask {
            Some(mask) => n & mask,
            None => n % self.number,
        }
    }
}

/// The mask that gives the remainders by a number, if it is a power of two.
fn mask_of(number: u64) -> Option<u64>
    requires { 0 < number }
    ensures { IfSome result (λ mask. IsMaskOf number mask) }
{
    if number > GREATEST_POWER {
        return None;
    }
    let power = number.next_power_of_two();
    if power == number {
        Some(number - 1)
    } else {
        None
    }
}
