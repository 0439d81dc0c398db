//! The simulated NVM, what a cut leaves of its queue, and a device that is lent.
ghost use Rattle.std.specs.Prelude.{◌≡◌, ◌<◌, false, length};
ghost use Rattle.thy_block.specs.Device.{IsFramed};

use crate::support::expect::expect;
use std::process::Abort;
use thy_base::{Block, Nvm, Shape};
use thy_nvm::{MemNvm, Overlay, Spare};
use thy_sweep::{Choices, the_images_of_a_cut_are_numbered};

/// A device of three blocks.
const THREE: Shape = Shape {
    blocks: 3,
    queue: 4,
    cuts: 0,
};

// The first draws of the seed 7 are 1059165278 and 2052263231: modulo the three blocks of place
// 0 the newest write, and modulo the two of place 2 the only one.
#[test]
fn a_pick_leaves_its_image(rt: HostRuntime) {
    let mut nvm = MemNvm::new(rt.alloc());
    let start = Vec::from_slice(rt.alloc(), &[Block([1; 64])]).expect(&rt, "memory");
    nvm.fit(rt.alloc(), &THREE, start).expect(&rt, "memory");
    nvm.write(2, &Block([5; 64])).expect(&rt, "a write");
    nvm.write(0, &Block([2; 64])).expect(&rt, "a write");
    nvm.write(0, &Block([3; 64])).expect(&rt, "a write");
    expect(&rt, nvm.queued(), 3);
    expect(&rt, nvm.read(0).expect(&rt, "a read"), Block([3; 64]));
    nvm.cut(7);
    expect(&rt, nvm.kept(0, 0), Block([3; 64]));
    expect(&rt, nvm.kept(0, 1), Block::ZERO);
    expect(&rt, nvm.kept(0, 2), Block([5; 64]));
}

// The same draws. What is written to the copy is not in the device, nor in the next copy.
#[test]
fn a_copy_holds_what_a_pick_leaves(rt: HostRuntime) {
    let mut nvm = MemNvm::new(rt.alloc());
    let start = Vec::from_slice(rt.alloc(), &[Block([1; 64])]).expect(&rt, "memory");
    nvm.fit(rt.alloc(), &THREE, start).expect(&rt, "memory");
    nvm.write(2, &Block([5; 64])).expect(&rt, "a write");
    nvm.write(0, &Block([2; 64])).expect(&rt, "a write");
    nvm.write(0, &Block([3; 64])).expect(&rt, "a write");
    let spare = Spare::new(rt.alloc(), &THREE).expect(&rt, "memory");
    let mut copy = Overlay::of(spare, &nvm, 7);
    expect(&rt, copy.queued(), 0);
    expect(&rt, copy.read(0).expect(&rt, "a read"), Block([3; 64]));
    expect(&rt, copy.read(1).expect(&rt, "a read"), Block::ZERO);
    expect(&rt, copy.read(2).expect(&rt, "a read"), Block([5; 64]));
    copy.write(1, &Block([9; 64])).expect(&rt, "a write");
    expect(&rt, copy.read(1).expect(&rt, "a read"), Block([9; 64]));
    let mut other = Overlay::of(copy.into_spare(), &nvm, 0);
    expect(&rt, other.read(0).expect(&rt, "a read"), Block([1; 64]));
    expect(&rt, other.read(1).expect(&rt, "a read"), Block::ZERO);
    expect(&rt, other.read(2).expect(&rt, "a read"), Block::ZERO);
}

/// A block of which each word has one of these bytes eight times.
fn block_of_words(bytes: &[u8; 8]) -> Block {
    let mut block = Block::ZERO;
    for word in 0..8usize {
        block.put(8 * word, &[bytes[word]; 8]);
    }
    block
}

// The first draws of the seed 7 are, modulo the three blocks of place 0: 2, 2, 0, 2, 1, 2, 1, 0. The next eight are, modulo the
// two of place 2: 1, 0, 1, 1, 0, 0, 1, 0.
#[test]
fn a_pick_tears_blocks_word_by_word(rt: HostRuntime) {
    let mut nvm = MemNvm::tearing(rt.alloc());
    let start = Vec::from_slice(rt.alloc(), &[Block([1; 64])]).expect(&rt, "memory");
    nvm.fit(rt.alloc(), &THREE, start).expect(&rt, "memory");
    expect(&rt, nvm.lands_whole(), false);
    nvm.write(2, &Block([5; 64])).expect(&rt, "a write");
    nvm.write(0, &Block([2; 64])).expect(&rt, "a write");
    nvm.write(0, &Block([3; 64])).expect(&rt, "a write");
    nvm.cut(7);
    expect(
        &rt,
        nvm.kept(0, 0),
        block_of_words(&[3, 3, 1, 3, 2, 3, 2, 1]),
    );
    expect(&rt, nvm.kept(0, 1), Block::ZERO);
    expect(
        &rt,
        nvm.kept(0, 2),
        block_of_words(&[5, 0, 5, 5, 0, 0, 5, 0]),
    );
}

// Place 0 has the block that has landed and two that are queued. Place 2 has zeros, and the block of one write: the other one
// repeats the zeros. So there are six images, and of the one with the number 3 each place has its second block.
#[test]
fn an_image_of_a_cut_has_a_number(rt: HostRuntime) {
    let mut nvm = MemNvm::new(rt.alloc());
    let start = Vec::from_slice(rt.alloc(), &[Block([1; 64])]).expect(&rt, "memory");
    nvm.fit(rt.alloc(), &THREE, start).expect(&rt, "memory");
    nvm.write(2, &Block([5; 64])).expect(&rt, "a write");
    nvm.write(0, &Block([2; 64])).expect(&rt, "a write");
    nvm.write(2, &Block::ZERO).expect(&rt, "a write");
    nvm.write(0, &Block([3; 64])).expect(&rt, "a write");
    let choices = Choices::of(rt.alloc(), &nvm).expect(&rt, "memory");
    let count = choices.count();
    assert_eq!(rt; count, 6);
    let spare = Spare::new(rt.alloc(), &THREE).expect(&rt, "memory");
    let mut copy = Overlay::of(spare, &nvm, 0);
    the_images_of_a_cut_are_numbered();
    choices.choose(6, 3, &mut copy);
    expect(&rt, copy.queued(), 0);
    expect(&rt, copy.read(0).expect(&rt, "a read"), Block([2; 64]));
    expect(&rt, copy.read(1).expect(&rt, "a read"), Block::ZERO);
    expect(&rt, copy.read(2).expect(&rt, "a read"), Block([5; 64]));
}

/// Writes a block of ones at place 0 of any device, and lets it land.
fn write_first<N: Nvm>(rt: &impl Abort, nvm: &mut N)
    requires some { 0 < length (N.device nvm.old).image }
    requires up { (N.device nvm.old).down ≡ false }
    ensures up { (N.device nvm.new).down ≡ false }
    ensures frame { IsFramed (N.device nvm.old) (N.device nvm.new) }
{
    nvm.write(0, &Block([1; 64])).expect(rt, "a write");
    nvm.barrier().expect(rt, "a barrier");
}

// That the device can be read afterwards follows from the name of the loan, which the call keeps.
#[test]
#[tactic(auto, using(thy_block::proofs::LoanLemmas::same_loan, thy_block::proofs::LoanLemmas::framed_within))]
fn what_is_written_through_a_loan_stands_in_the_device(rt: HostRuntime) {
    let mut nvm = MemNvm::new(rt.alloc());
    nvm.fit(rt.alloc(), &THREE, Vec::new(rt.alloc()))
        .expect(&rt, "memory");
    let mut loan = &mut nvm;
    write_first(&rt, &mut loan);
    expect(&rt, nvm.queued(), 0);
    expect(&rt, nvm.writes(), 1);
    expect(&rt, nvm.read(0).expect(&rt, "a read"), Block([1; 64]));
}
