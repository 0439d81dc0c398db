//! Rows of calls of the controller over the simulated NVM, worked out by hand.
ghost use Rattle.std.specs.Prelude.{◌≡◌, ◌<◌, true, false};
ghost use Rattle.thy_control_tests.specs.Driven.{Drives};

use crate::support::driven::{
    commit, committed, copy_next, load, merge_one, page_next, power_on, promote_one, seal, store,
};
use crate::support::expect::expect;
use crate::support::rows::{least, of};
use std::alloc::Global;
use std::process::Abort;
use thy_base::{Block, Nvm, Stored};
use thy_control::Control;
use thy_nvm::MemNvm;
use thy_table::blocks;
use thy_test_support::geometry_of;

/// The controller of a machine whose power came on over zeros.
fn over_zeros<N: Nvm>(rt: &impl Abort, alloc: Global, btt: u64, nvm: &mut N) -> Control
    ensures drives { Drives result (N.device nvm.new) }
    ensures idle { result.under_way ≡ false }
{
    let geometry = geometry_of(alloc, &least(btt)).expect(rt, "numbers in range");
    let image = vec![in alloc; Block::ZERO; blocks(&geometry) as usize].expect(rt, "memory");
    power_on(rt, alloc, &geometry, nvm, &image)
}

/// Stores a block of one letter, which needs no copy before it.
fn done<N: Nvm>(rt: &impl Abort, control: &mut Control, nvm: &mut N, b: u64, letter: u8)
    requires inside { b < 512 }
    requires drives { Drives control.old (N.device nvm.old) }
    ensures drives { Drives control.new (N.device nvm.new) }
    ensures way { control.new.under_way ≡ control.old.under_way }
{
    let stored = store(rt, control, nvm, b, &of(letter));
    expect(rt, stored, Stored::Done);
}

fn loads<N: Nvm>(rt: &impl Abort, control: &Control, nvm: &mut N, b: u64, letter: u8)
    requires inside { b < 512 }
    requires drives { Drives control.now (N.device nvm.old) }
    ensures { N.device nvm.new ≡ N.device nvm.old }
{
    let block = load(rt, control, nvm, b);
    expect(rt, block, of(letter));
}

fn has_committed<N: Nvm>(rt: &impl Abort, control: &Control, nvm: &mut N, b: u64, letter: u8)
    requires inside { b < 512 }
    requires drives { Drives control.now (N.device nvm.old) }
    ensures { N.device nvm.new ≡ N.device nvm.old }
{
    let block = committed(rt, control, nvm, b);
    expect(rt, block, of(letter));
}

/// Writes `many` blocks of the page of the checkpoint under way; they have to be left.
fn write_blocks<N: Nvm>(rt: &impl Abort, control: &mut Control, nvm: &mut N, many: u64)
    requires drives { Drives control.old (N.device nvm.old) }
    requires way { control.old.under_way ≡ true }
    ensures drives { Drives control.new (N.device nvm.new) }
    ensures way { control.new.under_way ≡ true }
{
    for _ in 0..many {
        let more = page_next(rt, control, nvm);
        expect(rt, more, true);
    }
}

/// Makes all copies of a checkpoint, 64 at most, and writes its page, if it has one.
fn copy_and_write<N: Nvm>(rt: &impl Abort, control: &mut Control, nvm: &mut N)
    requires drives { Drives control.old (N.device nvm.old) }
    requires way { control.old.under_way ≡ true }
    ensures drives { Drives control.new (N.device nvm.new) }
    ensures way { control.new.under_way ≡ true }
{
    for _ in 0..64 {
        copy_next(rt, control, nvm);
        page_next(rt, control, nvm);
    }
}

/// Makes all copies, writes the page, if there is one, and commits.
fn finish<N: Nvm>(rt: &impl Abort, control: &mut Control, nvm: &mut N)
    requires drives { Drives control.old (N.device nvm.old) }
    requires way { control.old.under_way ≡ true }
    ensures drives { Drives control.new (N.device nvm.new) }
    ensures idle { control.new.under_way ≡ false }
{
    copy_and_write(rt, control, nvm);
    commit(rt, control, nvm);
}

fn three_versions<N: Nvm>(rt: &impl Abort, control: &mut Control, nvm: &mut N)
    requires drives { Drives control.old (N.device nvm.old) }
    requires idle { control.old.under_way ≡ false }
{
    done(rt, control, nvm, 70, b'A');
    seal(rt, control);
    done(rt, control, nvm, 70, b'B');
    finish(rt, control, nvm);
    has_committed(rt, control, nvm, 70, b'A');
    seal(rt, control);
    let stored = store(rt, control, nvm, 70, &of(b'C'));
    expect(rt, stored, Stored::CopyFirst);
    loads(rt, control, nvm, 70, b'B');
    done(rt, control, nvm, 70, b'C');
    done(rt, control, nvm, 70, b'D');
    loads(rt, control, nvm, 70, b'D');
    finish(rt, control, nvm);
    has_committed(rt, control, nvm, 70, b'B');
}

// The third version goes over the second, which the checkpoint under way has still to copy.
#[test]
fn a_block_has_three_versions(rt: HostRuntime) {
    let mut nvm = MemNvm::new(rt.alloc());
    let mut control = over_zeros(&rt, rt.alloc(), 8, &mut nvm);
    three_versions(&rt, &mut control, &mut nvm);
}

/// Stores the first 23 blocks of the first page.
fn store_page<N: Nvm>(rt: &impl Abort, control: &mut Control, nvm: &mut N)
    requires drives { Drives control.old (N.device nvm.old) }
    requires idle { control.old.under_way ≡ false }
    ensures drives { Drives control.new (N.device nvm.new) }
    ensures idle { control.new.under_way ≡ false }
{
    for b in 0..23 {
        done(rt, control, nvm, b, b'A');
    }
    expect(rt, control.free(), 9);
}

/// Fills the frame of the page that is being promoted.
fn promote_page<N: Nvm>(rt: &impl Abort, control: &mut Control, nvm: &mut N)
    requires drives { Drives control.old (N.device nvm.old) }
    requires way { control.old.under_way ≡ true }
    ensures drives { Drives control.new (N.device nvm.new) }
    ensures way { control.new.under_way ≡ true }
{
    for _ in 0..64 {
        promote_one(rt, control, nvm);
    }
    expect(rt, control.promoting(), false);
}

/// Stores a page densely in one epoch, and one of its blocks in the next, into the frame. The page is to be written then.
fn frame_page<N: Nvm>(rt: &impl Abort, control: &mut Control, nvm: &mut N)
    requires drives { Drives control.old (N.device nvm.old) }
    requires idle { control.old.under_way ≡ false }
    ensures drives { Drives control.new (N.device nvm.new) }
    ensures way { control.new.under_way ≡ true }
{
    store_page(rt, control, nvm);
    seal(rt, control);
    promote_page(rt, control, nvm);
    finish(rt, control, nvm);
    done(rt, control, nvm, 5, b'B');
    expect(rt, control.overlay(), false);
    seal(rt, control);
}

fn round_trip<N: Nvm>(rt: &impl Abort, control: &mut Control, nvm: &mut N)
    requires drives { Drives control.old (N.device nvm.old) }
    requires idle { control.old.under_way ≡ false }
{
    frame_page(rt, control, nvm);
    done(rt, control, nvm, 5, b'X');
    expect(rt, control.overlay(), true);
    loads(rt, control, nvm, 5, b'X');
    finish(rt, control, nvm);
    has_committed(rt, control, nvm, 5, b'B');
    expect(rt, control.free(), 31);
    merge_one(rt, control);
    expect(rt, control.free(), 32);
    seal(rt, control);
    finish(rt, control, nvm);
    loads(rt, control, nvm, 5, b'X');
    has_committed(rt, control, nvm, 5, b'X');
    has_committed(rt, control, nvm, 6, b'A');
    expect(rt, control.overlay(), false);
    expect(rt, control.promoting(), false);
    done(rt, control, nvm, 5, b'Y');
    expect(rt, control.free(), 31);
}

// It comes for its 23 stores of one epoch, is written to its alternate page, and leaves by its home for its few stores of
// another.
#[test]
fn a_page_comes_and_leaves(rt: HostRuntime) {
    let mut nvm = MemNvm::new(rt.alloc());
    let mut control = over_zeros(&rt, rt.alloc(), 32, &mut nvm);
    round_trip(&rt, &mut control, &mut nvm);
}

fn one_block_is_left<N: Nvm>(rt: &impl Abort, control: &mut Control, nvm: &mut N)
    requires drives { Drives control.old (N.device nvm.old) }
    requires idle { control.old.under_way ≡ false }
{
    frame_page(rt, control, nvm);
    write_blocks(rt, control, nvm, 63);
    done(rt, control, nvm, 5, b'X');
    expect(rt, control.overlay(), true);
    loads(rt, control, nvm, 5, b'X');
    finish(rt, control, nvm);
    has_committed(rt, control, nvm, 5, b'B');
    expect(rt, control.free(), 31);
}

fn no_block_is_left<N: Nvm>(rt: &impl Abort, control: &mut Control, nvm: &mut N)
    requires drives { Drives control.old (N.device nvm.old) }
    requires idle { control.old.under_way ≡ false }
{
    frame_page(rt, control, nvm);
    write_blocks(rt, control, nvm, 64);
    done(rt, control, nvm, 5, b'X');
    expect(rt, control.overlay(), false);
    loads(rt, control, nvm, 5, b'X');
    finish(rt, control, nvm);
    has_committed(rt, control, nvm, 5, b'B');
    expect(rt, control.free(), 32);
}

// A store while one block is left goes into a buffer, and one after it into the frame.
#[test]
fn a_frame_is_free_with_the_last_block_of_its_page(rt: HostRuntime) {
    let mut nvm = MemNvm::new(rt.alloc());
    let mut control = over_zeros(&rt, rt.alloc(), 32, &mut nvm);
    one_block_is_left(&rt, &mut control, &mut nvm);
    let mut other = MemNvm::new(rt.alloc());
    let mut control = over_zeros(&rt, rt.alloc(), 32, &mut other);
    no_block_is_left(&rt, &mut control, &mut other);
}
