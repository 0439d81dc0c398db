//! Numbers drawn from a seed.
ghost use Rattle.std.specs.Prelude.{◌≡◌, ◌<◌, ◌^◌, ℕ};
ghost use Rattle.thy_block.specs.Lcg.{lcg_next, lcg_draw};

use std::marker::Model;

/// A linear congruential generator modulo `2^64`. Each draw is the new state shifted right by 33, hence below `2^31`.
#[derive(Clone, Copy, Debug)]
pub struct Lcg {
    state: u64,
}

impl Model for Lcg {
    ghost Value = { ℕ };

    ghost view = { λ g. g.state };

    ghost inverse = { λ n. record { state = n } };
}

impl Lcg {
    /// The generator whose first state is the seed.
    pub fn new(seed: u64) -> Lcg
        ensures { result ≡ seed }
    {
        Lcg { state: seed }
    }

    /// Takes one step, and returns its draw, below `2^31`.
    pub fn next(&mut self) -> u64
        ensures state { self.new ≡ lcg_next self.old }
        ensures draw { result ≡ lcg_draw self.new }
        ensures small { result < 2 ^ 31 }
    {
        self.state = next_state(self.state);
        self.state >> 33
    }
}

fn next_state(state: u64) -> u64
    ensures { result ≡ lcg_next state }
{
    state
        .wrapping_mul(6364136223846793005)
        .wrapping_add(1442695040888963407)
}
