//! What frequent instructions compute, as a part of the caller.

ghost use Rattle.std.specs.Prelude.{◌≡◌};
ghost use Rattle.thy_isa.specs.Effects.{holds};

use crate::Cond;

/// Whether the condition of a branch holds.
#[inline(always)]
pub fn holds(cond: Cond, a: u64, b: u64) -> bool
    ensures { result ≡ holds cond a b }
{
    match cond {
        Cond::Equal => a == b,
        Cond::NotEqual => a != b,
        Cond::Less => a.cast_signed() < b.cast_signed(),
        Cond::GreaterEqual => a.cast_signed() >= b.cast_signed(),
        Cond::LessUnsigned => a < b,
        Cond::GreaterEqualUnsigned => a >= b,
    }
}
