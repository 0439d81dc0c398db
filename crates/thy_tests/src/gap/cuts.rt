//! Each call of the inner device fails in turn, before it has done anything or late, and then power is cut.
ghost use Rattle.std.specs.Prelude.{◌≡◌, ◌<◌, ◌≤◌, false, length};
ghost use Rattle.thy_block.specs.Device.{IsFramed};

use crate::gap::steps::{block_of, four_lines, step};
use crate::support::expect::expect_at;
use std::alloc::Global;
use std::process::Abort;
use thy_base::{Block, Nvm};
use thy_nvm::MemNvm;

/// How many calls of the inner device eight steps make: the write, the barrier, the read of a line, its copy, a barrier,
/// the registers, a barrier.
const CALLS: u64 = 56;

/// The steps from `from` to 7, up to one that fails. The result is that one, or 8.
fn steps<N: Nvm>(nvm: &mut N, from: u8) -> u8
    requires lines { length (N.device nvm.old).image ≡ 4 }
    requires up { (N.device nvm.old).down ≡ false }
    ensures frame { IsFramed (N.device nvm.old) (N.device nvm.new) }
    ensures few { result ≤ 8 }
    ensures up { result ≡ 8 → (N.device nvm.new).down ≡ false }
{
    for i in from..8 {
        if step(nvm, i).is_err() {
            return i;
        }
    }
    8
}

/// What the last barrier left of a line, after `made` steps.
fn stands(line: u8, made: u8) -> Block
    requires line { line < 4 }
    requires made { made ≤ 8 }
{
    if made > line + 4 {
        block_of(line + 4)
    } else if made > line {
        block_of(line)
    } else {
        Block::ZERO
    }
}

/// Whether a cut may leave a block of a line after `made` steps, and one that failed.
fn may_be_left(line: u8, made: u8, block: &Block) -> bool
    requires line { line < 4 }
    requires made { made ≤ 8 }
{
    let stood = *block == stands(line, made);
    stood || made < 8 && line == made % 4 && *block == block_of(made)
}

/// Eight steps over a device whose call of this number fails, a cut, and the other steps.
fn fails_at(rt: &impl Abort, alloc: Global, inner: MemNvm, call: u64, pick: u64) {
    let mut gap = four_lines(rt, alloc, inner);
    let made = steps(&mut gap, 0);
    expect_at(rt, made < 8, call > 0, call);
    gap.cut(pick);
    for line in 0..4 {
        let kept = gap.kept(0, line as u64);
        expect_at(rt, may_be_left(line, made, &kept), true, call);
    }
    let all = steps(&mut gap, made);
    expect_at(rt, all, 8, call);
    if all == 8 {
        expect_lines(rt, &mut gap, call);
    }
}

/// The lines hold what the last four steps wrote.
fn expect_lines<N: Nvm>(rt: &impl Abort, nvm: &mut N, call: u64)
    requires lines { length (N.device nvm.old).image ≡ 4 }
    requires up { (N.device nvm.old).down ≡ false }
{
    for line in 0..4 {
        let block = nvm.read(line as u64).expect(rt, "a read");
        expect_at(rt, block, block_of(line + 4), call);
    }
}

#[test]
fn each_call_may_fail_before_a_cut(rt: HostRuntime) {
    // No call has the number 0.
    for call in 0..CALLS + 1 {
        for pick in [0, 1, 7] {
            let early = MemNvm::failing(rt.alloc(), &[call]).expect(&rt, "memory");
            fails_at(&rt, rt.alloc(), early, call, pick);
            let late = MemNvm::late(rt.alloc(), &[call]).expect(&rt, "memory");
            fails_at(&rt, rt.alloc(), late, call, pick);
        }
    }
}
