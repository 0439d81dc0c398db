//! Bytes drawn from a seed.
ghost use Rattle.std.specs.Prelude.{◌≡◌, ◌*◌, ℕ, List};
ghost use Rattle.thy_dram.specs.Draws.{bytes_over, after_bytes, drawn_block, after_block};
ghost use Rattle.thy_dram.specs.Jumps.{after_draws, block_powers};

use crate::jumps::{Jump, state_at};
use thy_block::{BLOCK_SIZE, Block, Lcg};

/// Writes over each byte the low 8 bits of one draw.
#[tactic(auto, unfolding(crate::specs::Draws::bytes_over, crate::specs::Draws::after_bytes))]
fn fill_bytes(bytes: &mut [u8], draws: &mut Lcg)
    ensures bytes { bytes.new ≡ bytes_over draws.old bytes.old }
    ensures draws { draws.new ≡ after_bytes draws.old bytes.old }
{
    for byte in bytes.iter_mut() {
        *byte = (draws.next() % 256) as u8;
    }
}

/// A block of drawn bytes.
#[tactic(auto, unfolding(crate::specs::Draws::drawn_block, crate::specs::Draws::after_block))]
fn next_block(draws: &mut Lcg) -> Block
    ensures block { result ≡ drawn_block draws.old }
    ensures draws { draws.new ≡ after_block draws.old }
{
    let mut bytes = [0; BLOCK_SIZE];
    fill_bytes(&mut bytes, draws);
    Block(bytes)
}

/// The block that a seed draws for a place, if each block before it has taken its own draws. The table has the jumps over
/// blocks.
pub(crate) fn drawn_at(powers: &[Jump], at: u64, seed: u64) -> Block
    requires { powers.now ≡ block_powers }
    ensures { result ≡ drawn_block (after_draws (at * 64) seed) }
{
    let mut draws = Lcg::new(state_at(powers, at, seed));
    next_block(&mut draws)
}
