//! Jumps of a generator over the draws of many blocks at once.
ghost use Rattle.std.specs.Prelude.{◌≡◌, ◌*◌, IfOk};
ghost use Rattle.thy_dram.specs.Jumps.{after_draws, landing, over_a_block, twice, block_powers, after_bit};

use std::alloc::{AllocError, Global};

/// Many draws of a generator as one step: the state becomes `state * factor + offset`, modulo `2^64`.
#[derive(Clone, Copy, Debug)]
pub(crate) struct Jump {
    factor: u64,
    offset: u64,
}

impl Jump {
    /// The jump over the 64 draws of a block.
    fn over_a_block() -> Jump
        ensures { result ≡ over_a_block }
    {
        Jump {
            factor: 4910590176156014849,
            offset: 10607473198416945472,
        }
    }

    /// The state to which the jump leads from another one.
    fn landing(self, state: u64) -> u64
        ensures { result ≡ landing self state }
    {
        state.wrapping_mul(self.factor).wrapping_add(self.offset)
    }

    /// The jump over the steps of this one, taken twice.
    fn twice(self) -> Jump
        ensures { result ≡ twice self }
    {
        let factor = self.factor.wrapping_mul(self.factor);
        Jump {
            factor,
            offset: self.landing(self.offset),
        }
    }
}

/// How many jumps a table has: one for each bit of a place.
const POWERS: usize = 64;

/// The jumps over `2^k` blocks, for each k below 64.
pub(crate) fn block_powers(alloc: Global) -> Result<Vec<Jump>, AllocError>
    ensures { IfOk result (λ powers. powers.items ≡ block_powers) }
{
    let mut powers = Vec::with_capacity(alloc, POWERS)?;
    let mut jump = Jump::over_a_block();
    for _ in 0..POWERS {
        powers.push(jump)?;
        jump = jump.twice();
    }
    Ok(powers)
}

/// The state to which the jump of the lowest bit of a number leads: it is taken if the bit is set.
fn after_bit(jump: Jump, number: u64, state: u64) -> u64
    ensures { result ≡ after_bit jump number state }
{
    if number % 2 == 1 {
        jump.landing(state)
    } else {
        state
    }
}

/// The state from which the block at a place takes its draws, if each block before it has taken its own.
pub(crate) fn state_at(powers: &[Jump], at: u64, seed: u64) -> u64
    requires { powers.now ≡ block_powers }
    ensures { result ≡ after_draws (at * 64) seed }
{
    let mut state = seed;
    let mut left = at;
    for power in powers {
        if left == 0 {
            return state;
        }
        state = after_bit(*power, left, state);
        left /= 2;
    }
    state
}
