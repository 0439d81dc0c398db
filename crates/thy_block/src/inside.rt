//! A range of addresses inside another.
ghost use Rattle.std.specs.Prelude.{◌≡◌};
ghost use Rattle.thy_block.specs.Inside.{is_inside};

/// Whether the `n` bytes from address `at` on lie in the memory of `size` bytes from `base` on. The sums are of whole numbers and do not
/// wrap.
pub fn is_inside(base: u64, size: u64, at: u64, n: u64) -> bool
    ensures { result ≡ is_inside base size at n }
{
    base <= at && n <= size && at - base <= size - n
}
