//! The blocks that a start makes of memory, and its processor.
ghost use Rattle.std.specs.Prelude.{◌≡◌, ◌<◌, ◌≤◌, ◌+◌, length, take, drop, ◌++◌, replicate};
ghost use Rattle.thy_block.specs.Device.{block_at};
ghost use Rattle.thy_block.specs.Geometry.{memory_blocks};
ghost use Rattle.thy_isa.specs.Step.{state_of};
ghost use Rattle.thy_checkpoint.specs.Start.{IsStartFor, start_blocks};

use thy_block::{BLOCK_SIZE, Block, Geometry};
use thy_isa::MachState;

/// Block `b` of a start: its memory, and after that its console filled up with zeros.
pub(crate) fn start_block(geometry: &Geometry, state: &MachState, b: u64) -> Block
    requires place { b < memory_blocks geometry.now }
    requires start { IsStartFor geometry.now (state_of state.now) }
    ensures { result ≡ block_at (start_blocks geometry.now (state_of state.now)) b }
{
    let size = geometry.program_size();
    let from = BLOCK_SIZE as u64 * b;
    if from < size {
        whole_block(state.memory.as_slice(), from as usize)
    } else {
        part_block(state.console.as_slice(), (from - size) as usize)
    }
}

fn whole_block(bytes: &[u8], from: usize) -> Block
    requires { from + 64 ≤ length bytes.now }
    ensures { result.0 ≡ take 64 (drop from bytes.now) }
{
    let mut block = [0; BLOCK_SIZE];
    block.copy_from_slice(&bytes[from..from + BLOCK_SIZE]);
    Block(block)
}

/// The 64 bytes from `from` on, with zeros past the end.
fn part_block(bytes: &[u8], from: usize) -> Block
    ensures { result.0 ≡ take 64 (drop from bytes.now ++ replicate 64 0) }
{
    let mut block = [0; BLOCK_SIZE];
    let count = bytes.len().saturating_sub(from).min(BLOCK_SIZE);
    if count > 0 {
        fill(&mut block, bytes, from, count);
    }
    Block(block)
}

fn fill(block: &mut [u8], bytes: &[u8], from: usize, count: usize)
    requires block { count ≤ length block.old }
    requires bytes { from + count ≤ length bytes.now }
    ensures { block.new ≡ take count (drop from bytes.now) ++ drop count block.old }
{
    block[..count].copy_from_slice(&bytes[from..from + count]);
}
