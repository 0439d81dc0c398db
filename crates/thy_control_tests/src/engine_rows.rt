//! Rows of calls of the controller with its engine over the simulated NVM, worked out by hand: with how many actions the
//! engine commits a checkpoint, and what the image is then.
ghost use Rattle.std.specs.Prelude.{◌<◌};

use crate::support::expect::{expect, expect_at};
use crate::support::memory::Memory;
use crate::support::rows::{least, of};
use std::alloc::Global;
use std::process::Abort;
use thy_base::Stored;
use thy_layout::EngineStep;

/// Stores a block of one letter, which needs no copy before it.
fn done(rt: &impl Abort, memory: &mut Memory, b: u64, letter: u8)
    requires inside { b < 512 }
{
    let stored = memory.store(rt, b, &of(letter));
    expect(rt, stored, Stored::Done);
}

fn loads(rt: &impl Abort, memory: &mut Memory, b: u64, letter: u8)
    requires inside { b < 512 }
{
    let block = memory.load(rt, b);
    expect(rt, block, of(letter));
}

/// Takes `many` actions of a checkpoint, with which it is not committed.
fn steps(rt: &impl Abort, memory: &mut Memory, many: u64) {
    for i in 0..many {
        let step = memory.step(rt);
        let going = !matches!(&step, EngineStep::Committed(_) | EngineStep::Idle);
        expect_at(rt, going, true, i);
    }
}

/// With exactly `many` more actions the checkpoint of an epoch is committed.
fn commits(rt: &impl Abort, memory: &mut Memory, many: u64, epoch: u64) {
    steps(rt, memory, many.saturating_sub(1));
    let step = memory.step(rt);
    expect(rt, step, EngineStep::Committed(epoch));
}

/// The image is the checkpoint of this epoch, and has this block.
fn decodes(rt: &impl Abort, alloc: Global, memory: &mut Memory, epoch: u64, b: u64, letter: u8) {
    let decoded = memory.decoded(rt, alloc, b);
    expect(rt, decoded, (epoch, of(letter)));
}

// The third version goes over the second, which the checkpoint under way has still to copy. So there is nothing left to
// copy, and the slot's 8 blocks, two barriers and the commit block are written.
#[test]
fn three_versions_of_a_block_are_committed_in_turn(rt: HostRuntime) {
    let mut memory = Memory::power_on(&rt, rt.alloc(), &least(8));
    three_versions(&rt, rt.alloc(), &mut memory);
}

fn three_versions(rt: &impl Abort, alloc: Global, memory: &mut Memory) {
    done(rt, memory, 70, b'A');
    memory.seal(rt, 1, 10);
    done(rt, memory, 70, b'B');
    commits(rt, memory, 11, 1);
    decodes(rt, alloc, memory, 1, 70, b'A');
    memory.seal(rt, 2, 20);
    let stored = memory.store(rt, 70, &of(b'C'));
    expect(rt, stored, Stored::CopyFirst);
    loads(rt, memory, 70, b'B');
    done(rt, memory, 70, b'C');
    done(rt, memory, 70, b'D');
    loads(rt, memory, 70, b'D');
    commits(rt, memory, 11, 2);
    decodes(rt, alloc, memory, 2, 70, b'B');
    loads(rt, memory, 70, b'D');
}

/// Stores the first 23 blocks of the first page.
fn store_page(rt: &impl Abort, memory: &mut Memory) {
    for b in 0..23 {
        done(rt, memory, b, b'A');
    }
}

/// Fills the frame of the page that is being promoted.
fn promote_page(rt: &impl Abort, memory: &mut Memory) {
    for _ in 0..64 {
        memory.promote_one(rt);
    }
    expect(rt, memory.promoting(), false);
}

/// Stores a page densely in the first epoch, and one of its blocks in the second, into the frame. The page is to be written
/// then. The slot has 11 blocks.
fn frame_page(rt: &impl Abort, alloc: Global, memory: &mut Memory) {
    store_page(rt, memory);
    expect(rt, memory.free(), 9);
    memory.seal(rt, 1, 10);
    promote_page(rt, memory);
    commits(rt, memory, 14, 1);
    decodes(rt, alloc, memory, 1, 5, b'A');
    done(rt, memory, 5, b'B');
    expect(rt, memory.overlay(), false);
    memory.seal(rt, 2, 20);
}

fn round_trip(rt: &impl Abort, alloc: Global, memory: &mut Memory) {
    frame_page(rt, alloc, memory);
    done(rt, memory, 5, b'X');
    expect(rt, memory.overlay(), true);
    loads(rt, memory, 5, b'X');
    commits(rt, memory, 78, 2);
    decodes(rt, alloc, memory, 2, 5, b'B');
    expect(rt, memory.free(), 31);
    memory.merge_one(rt);
    expect(rt, memory.free(), 32);
    memory.seal(rt, 3, 30);
    commits(rt, memory, 78, 3);
    decodes(rt, alloc, memory, 3, 5, b'X');
    decodes(rt, alloc, memory, 3, 6, b'A');
    loads(rt, memory, 5, b'X');
}

/// No block is held in a frame: one of the page is stored by an entry of its own.
fn no_frame_is_used(rt: &impl Abort, memory: &mut Memory) {
    expect(rt, memory.promoting(), false);
    expect(rt, memory.overlay(), false);
    expect(rt, memory.free(), 32);
    done(rt, memory, 5, b'Y');
    expect(rt, memory.overlay(), false);
    expect(rt, memory.free(), 31);
}

// It comes for its 23 stores of one epoch, its 64 blocks are written to its alternate page, and it leaves by its
// home, with 64 more, for its few stores of another.
#[test]
fn a_page_comes_and_leaves_by_its_home(rt: HostRuntime) {
    let mut memory = Memory::power_on(&rt, rt.alloc(), &least(32));
    round_trip(&rt, rt.alloc(), &mut memory);
    no_frame_is_used(&rt, &mut memory);
}

/// Stores 20 blocks of the page that was framed in the first epoch, and commits: at the second seal it is not low.
fn stay_dense(rt: &impl Abort, memory: &mut Memory) {
    store_page(rt, memory);
    memory.seal(rt, 1, 10);
    promote_page(rt, memory);
    commits(rt, memory, 14, 1);
    for b in 0..20 {
        done(rt, memory, b, b'B');
    }
    memory.seal(rt, 2, 20);
    commits(rt, memory, 78, 2);
}

fn quiet_epochs(rt: &impl Abort, alloc: Global, memory: &mut Memory) {
    stay_dense(rt, memory);
    memory.seal(rt, 3, 30);
    commits(rt, memory, 14, 3);
    memory.seal(rt, 4, 40);
    commits(rt, memory, 78, 4);
    decodes(rt, alloc, memory, 4, 19, b'B');
    decodes(rt, alloc, memory, 4, 20, b'A');
}

// With no store in the third epoch the page stays, because the second had 20: nothing but the slot is written. With
// none in the fourth either it leaves by its home.
#[test]
fn a_page_stays_for_one_quiet_epoch(rt: HostRuntime) {
    let mut memory = Memory::power_on(&rt, rt.alloc(), &least(32));
    quiet_epochs(&rt, rt.alloc(), &mut memory);
    no_frame_is_used(&rt, &mut memory);
}

/// Stores a block of the page after `many` of the 77 actions, and commits.
fn store_behind(rt: &impl Abort, alloc: Global, memory: &mut Memory, many: u64, overlay: bool) {
    frame_page(rt, alloc, memory);
    steps(rt, memory, many);
    done(rt, memory, 5, b'X');
    expect(rt, memory.overlay(), overlay);
    loads(rt, memory, 5, b'X');
    commits(rt, memory, 78u64.saturating_sub(many), 2);
    decodes(rt, alloc, memory, 2, 5, b'B');
    loads(rt, memory, 5, b'X');
}

// A store while one block is left goes into a buffer, and one after it into the frame.
#[test]
fn a_frame_is_free_before_its_page_is_committed(rt: HostRuntime) {
    let mut memory = Memory::power_on(&rt, rt.alloc(), &least(32));
    store_behind(&rt, rt.alloc(), &mut memory, 63, true);
    expect(&rt, memory.free(), 31);
    let mut memory = Memory::power_on(&rt, rt.alloc(), &least(32));
    store_behind(&rt, rt.alloc(), &mut memory, 64, false);
    expect(&rt, memory.free(), 32);
}

/// Takes `many` actions that are reported alike.
fn are(rt: &impl Abort, memory: &mut Memory, many: u64, want: EngineStep) {
    for i in 0..many {
        let step = memory.step(rt);
        expect_at(rt, step, want, i);
    }
}

/// A page in a frame and two blocks in buffers are stored in the second epoch.
fn two_blocks_and_a_page(rt: &impl Abort, memory: &mut Memory) {
    store_page(rt, memory);
    done(rt, memory, 100, b'C');
    done(rt, memory, 200, b'D');
    memory.seal(rt, 1, 10);
    promote_page(rt, memory);
    done(rt, memory, 100, b'E');
    done(rt, memory, 200, b'F');
    commits(rt, memory, 14, 1);
    done(rt, memory, 5, b'B');
    memory.seal(rt, 2, 20);
}

fn in_order(rt: &impl Abort, memory: &mut Memory) {
    are(rt, memory, 2, EngineStep::Copied);
    are(rt, memory, 64, EngineStep::PageBlock);
    are(rt, memory, 5, EngineStep::StateBlock);
    are(rt, memory, 6, EngineStep::TableBlock);
    are(rt, memory, 1, EngineStep::Barrier);
    are(rt, memory, 1, EngineStep::CommitWritten);
    are(rt, memory, 1, EngineStep::Committed(2));
    are(rt, memory, 2, EngineStep::Idle);
}

#[test]
fn a_checkpoint_is_copies_then_pages_then_the_slot_then_its_commit(rt: HostRuntime) {
    let mut memory = Memory::power_on(&rt, rt.alloc(), &least(32));
    two_blocks_and_a_page(&rt, &mut memory);
    in_order(&rt, &mut memory);
    decodes(&rt, rt.alloc(), &mut memory, 2, 100, b'E');
    decodes(&rt, rt.alloc(), &mut memory, 2, 200, b'F');
    decodes(&rt, rt.alloc(), &mut memory, 2, 5, b'B');
}
