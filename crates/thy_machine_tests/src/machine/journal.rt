//! The machine over the redo journal: how many cycles and writes its runs take and which steps its engine takes, on rows
//! worked out by hand; programs cut after every cycle; and cuts while a journal is applied, with a second cut in the
//! recovery after that.
use crate::machine::by_scheme::{
    DRAWN, EXIT_SEVEN, NINE_STORES, Steps, committed, cut_twice, finds_what_has_landed, follows,
    restarts, shows_the_processor, takes_716_cycles, writes_of,
};
use crate::machine::waiting::TWO_EPOCHS;
use crate::machine::{plain_machines, survives_once_loaded};
use crate::support::expect::expect;
use thy_core::Machine;
use thy_layout::EngineStep;
use thy_schemes::Journal;

/// The engine writes eight blocks into the journal. After the commit each block is written home, and then comes a barrier.
static STEPS: Steps = Steps {
    block: EngineStep::Copied,
    blocks: 8,
    after: &[
        EngineStep::Copied,
        EngineStep::Copied,
        EngineStep::Copied,
        EngineStep::Copied,
        EngineStep::Copied,
        EngineStep::Copied,
        EngineStep::Copied,
        EngineStep::Copied,
        EngineStep::Barrier,
    ],
};

#[test]
fn three_instructions_take_716_cycles(rt: HostRuntime) {
    takes_716_cycles::<Machine<Journal>>(&rt, rt.alloc());
}

#[test]
fn the_processor_is_shown_at_start_and_end(rt: HostRuntime) {
    shows_the_processor::<Machine<Journal>>(&rt, rt.alloc());
}

#[test]
fn a_cut_around_the_commit_leaves_what_has_landed(rt: HostRuntime) {
    finds_what_has_landed::<Machine<Journal>>(&rt, rt.alloc());
}

// A load writes 512 homes, six blocks of the slot, the header and the commit block. The first program's checkpoint has no
// block of memory. The second one's are eight, each written into the journal and home, and one, which is committed last.
#[test]
fn runs_over_the_journal_make_so_many_writes(rt: HostRuntime) {
    let one = writes_of::<Machine<Journal>>(&rt, rt.alloc(), &EXIT_SEVEN);
    expect(&rt, one, 520 + 6 + 1);
    let two = writes_of::<Machine<Journal>>(&rt, rt.alloc(), &NINE_STORES);
    expect(&rt, two, 520 + (8 + 6 + 1 + 8) + (1 + 6 + 1));
}

#[test]
fn a_journal_is_applied_after_its_commit(rt: HostRuntime) {
    for seed in 0..8 {
        let mut on = committed::<Machine<Journal>>(&rt, rt.alloc(), &STEPS, seed);
        follows(&rt, rt.alloc(), &STEPS, &mut on, seed);
    }
}

// At least 20 cycles follow the commit before the next commit block is written.
#[test]
fn a_journal_is_applied_again_after_a_restart(rt: HostRuntime) {
    restarts::<Machine<Journal>>(&rt, rt.alloc(), &STEPS);
}

// A recovery has 16 reads: commit block, header, six blocks of the slot and eight of the journal. Nine steps of the engine follow,
// and at least eleven more cycles come before the commit block of the second epoch.
#[test]
fn a_second_cut_in_recovery_and_application_loses_nothing(rt: HostRuntime) {
    let plains = plain_machines(&rt, rt.alloc(), &NINE_STORES);
    for (seed, first) in [(0, 0), (0, 4), (1, 2), (2, 9)] {
        cut_twice::<Machine<Journal>>(&rt, rt.alloc(), &STEPS, &plains, seed, first, 35);
    }
}

#[test]
fn three_instructions_over_the_journal_survive_every_cut(rt: HostRuntime) {
    for seed in 0..8 {
        survives_once_loaded::<Machine<Journal>>(&rt, rt.alloc(), &EXIT_SEVEN, seed);
    }
}

#[test]
fn nine_stores_over_the_journal_survive_every_cut(rt: HostRuntime) {
    for seed in 0..8 {
        survives_once_loaded::<Machine<Journal>>(&rt, rt.alloc(), &NINE_STORES, seed);
    }
}

#[test]
fn two_epochs_over_the_journal_survive_every_cut(rt: HostRuntime) {
    for seed in 0..8 {
        survives_once_loaded::<Machine<Journal>>(&rt, rt.alloc(), &TWO_EPOCHS, seed);
    }
}

#[test]
fn drawn_loads_and_stores_over_the_journal_survive_every_cut_by_schedule_0(rt: HostRuntime) {
    survives_once_loaded::<Machine<Journal>>(&rt, rt.alloc(), &DRAWN, 0);
}

#[test]
fn drawn_loads_and_stores_over_the_journal_survive_every_cut_by_schedule_1(rt: HostRuntime) {
    survives_once_loaded::<Machine<Journal>>(&rt, rt.alloc(), &DRAWN, 1);
}
