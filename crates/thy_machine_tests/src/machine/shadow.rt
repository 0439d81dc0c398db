//! The machine over shadow paging: how many cycles and writes its runs take and which steps its engine takes, on rows
//! worked out by hand; programs that store to one page and to four, cut after their cycles; and a second cut in the
//! recovery and the copies after a first one.
use crate::machine::by_scheme::{
    DRAWN, EXIT_SEVEN, NINE_STORES, Steps, checkpoints, committed, cut_twice,
    finds_what_has_landed, follows, restarts, shows_the_processor, takes_716_cycles, to_seal,
    writes_of,
};
use crate::machine::waiting::TWO_EPOCHS;
use crate::machine::{
    Powered, Row, boot, committed_in, cut, plain_machines, survives_once_loaded, uncut,
};
use crate::support::expect::expect;
use std::alloc::Global;
use std::process::Abort;
use thy_base::EndCause;
use thy_core::Machine;
use thy_isa::Status;
use thy_layout::EngineStep;
use thy_schemes::Shadow;

/// `lui t0,1; sub t1,sp,t0; sub t2,t1,t0; sub t3,t2,t0`, so that sp and the three lie in four pages; `sd t0,0(sp);
/// sd t0,8(t1); sd t1,16(t2); sd t2,64(t3); ld a1,8(t1); sd a1,64(sp); sd t3,24(t1); ld a2,16(t2); add a2,a2,a1;
/// sd a2,16(t2); sd a2,0(t3); addi a0,zero,9; addi a7,zero,93; ecall`. With a cache of one line almost each store is one of
/// shadow paging. Every page has its frame in the second epoch, and each epoch begins with all of them free.
static FOUR_PAGES: Row = Row {
    words: &[
        0x000012b7, 0x40510333, 0x405303b3, 0x40538e33, 0x00513023, 0x00533423, 0x0063b823,
        0x047e3023, 0x00833583, 0x04b13023, 0x01c33c23, 0x0103b603, 0x00b60633, 0x00c3b823,
        0x00ce3023, 0x00900513, 0x05d00893, 0x00000073,
    ],
    epoch: 6,
    cache: (1, 1),
    ends: &[
        (6, EndCause::Length),
        (12, EndCause::Length),
        (18, EndCause::Ended),
    ],
    overlapped: &[0, 0, 0],
    status: Status::Exited(9),
};

/// The engine writes the one page, whole. Nothing is left to do after the commit.
static STEPS: Steps = Steps {
    block: EngineStep::PageBlock,
    blocks: 64,
    after: &[],
};

/// Runs a row's program by the schedule of a seed, without cuts and then with a cut after each eleventh cycle of its epochs,
/// with three picks.
fn survives_some(rt: &impl Abort, alloc: Global, row: &Row, seed: u64) {
    let plains = plain_machines(rt, alloc, row);
    let whole = uncut::<Machine<Shadow>>(rt, alloc, row, seed, &plains);
    let first = committed_in(rt, &whole, 0);
    for at in first..whole.cycles {
        if at % 11 != 0 {
            continue;
        }
        for pick in [0, 1, 7] {
            cut::<Machine<Shadow>>(rt, alloc, row, seed, &plains, &whole, at, pick);
        }
    }
}

#[test]
fn three_instructions_take_716_cycles(rt: HostRuntime) {
    takes_716_cycles::<Machine<Shadow>>(&rt, rt.alloc());
}

#[test]
fn the_processor_is_shown_at_start_and_end(rt: HostRuntime) {
    shows_the_processor::<Machine<Shadow>>(&rt, rt.alloc());
}

#[test]
fn a_cut_around_the_commit_leaves_what_has_landed(rt: HostRuntime) {
    finds_what_has_landed::<Machine<Shadow>>(&rt, rt.alloc());
}

// A load writes 512 blocks of the pool, six of the slot, the header and the commit block. The first program's checkpoint has no
// page of memory. Each of the two of the second program has one, whole, though nothing but one block of it changed.
#[test]
fn runs_over_shadow_paging_make_so_many_writes(rt: HostRuntime) {
    let one = writes_of::<Machine<Shadow>>(&rt, rt.alloc(), &EXIT_SEVEN);
    expect(&rt, one, 520 + 6 + 1);
    let two = writes_of::<Machine<Shadow>>(&rt, rt.alloc(), &NINE_STORES);
    expect(&rt, two, 520 + (64 + 6 + 1) + (64 + 6 + 1));
}

// The three epochs store to two pages, to four and to two, of 64 blocks each.
#[test]
fn each_page_of_an_epoch_is_written_once(rt: HostRuntime) {
    for seed in 0..8 {
        let mut on = Powered::<Machine<Shadow>>::new(&rt, rt.alloc(), &FOUR_PAGES, seed);
        boot(&rt, &mut on);
        for blocks in [128, 256, 128] {
            to_seal(&rt, &mut on);
            checkpoints(&rt, rt.alloc(), &mut on, STEPS.block, blocks, seed);
        }
    }
}

#[test]
fn nothing_is_left_to_do_after_a_commit(rt: HostRuntime) {
    for seed in 0..8 {
        let mut on = committed::<Machine<Shadow>>(&rt, rt.alloc(), &STEPS, seed);
        follows(&rt, rt.alloc(), &STEPS, &mut on, seed);
    }
}

#[test]
fn a_cut_after_a_commit_leaves_its_checkpoint(rt: HostRuntime) {
    restarts::<Machine<Shadow>>(&rt, rt.alloc(), &STEPS);
}

// A recovery has eight reads: commit block, header and six blocks of the slot. At least 64 copies come before the second epoch
// is sealed, and at least 71 writes of its checkpoint before its commit block.
#[test]
fn a_second_cut_in_recovery_and_copies_loses_nothing(rt: HostRuntime) {
    let plains = plain_machines(&rt, rt.alloc(), &NINE_STORES);
    for (seed, first) in [(0, 0), (1, 70)] {
        cut_twice::<Machine<Shadow>>(&rt, rt.alloc(), &STEPS, &plains, seed, first, 80);
    }
}

#[test]
fn three_instructions_over_shadow_paging_survive_every_cut(rt: HostRuntime) {
    for seed in 0..8 {
        survives_once_loaded::<Machine<Shadow>>(&rt, rt.alloc(), &EXIT_SEVEN, seed);
    }
}

#[test]
fn nine_stores_over_shadow_paging_survive_every_cut_by_schedule_0(rt: HostRuntime) {
    survives_once_loaded::<Machine<Shadow>>(&rt, rt.alloc(), &NINE_STORES, 0);
}

#[test]
fn nine_stores_over_shadow_paging_survive_every_cut_by_schedule_1(rt: HostRuntime) {
    survives_once_loaded::<Machine<Shadow>>(&rt, rt.alloc(), &NINE_STORES, 1);
}

#[test]
fn nine_stores_over_shadow_paging_survive_cuts_by_more_schedules(rt: HostRuntime) {
    for seed in 2..8 {
        survives_some(&rt, rt.alloc(), &NINE_STORES, seed);
    }
}

#[test]
fn two_epochs_over_shadow_paging_survive_every_cut(rt: HostRuntime) {
    for seed in 0..8 {
        survives_once_loaded::<Machine<Shadow>>(&rt, rt.alloc(), &TWO_EPOCHS, seed);
    }
}

#[test]
fn four_pages_over_shadow_paging_survive_cuts(rt: HostRuntime) {
    for seed in 0..2 {
        survives_some(&rt, rt.alloc(), &FOUR_PAGES, seed);
    }
}

#[test]
fn drawn_loads_and_stores_over_shadow_paging_survive_cuts(rt: HostRuntime) {
    survives_some(&rt, rt.alloc(), &DRAWN, 0);
}
