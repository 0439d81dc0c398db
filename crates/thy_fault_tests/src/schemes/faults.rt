//! The program that exits with 7 over an NVM that fails at one call.
use crate::fault_rows::{
    BY_JOURNAL, BY_SHADOW, FROM_THE_END, FROM_THE_START, Row, fail_by_row, fail_to_save,
};

/// Faults of the commit block's write, of the drain that lets it land, and of the last barrier.
static ROWS: [Row; 12] = [
    (707, false, false, FROM_THE_START),
    (707, false, true, FROM_THE_START),
    (707, true, false, FROM_THE_START),
    (707, true, true, FROM_THE_END),
    (708, false, false, FROM_THE_START),
    (708, false, true, FROM_THE_END),
    (708, true, false, FROM_THE_END),
    (708, true, true, FROM_THE_END),
    (709, false, false, FROM_THE_END),
    (709, false, true, FROM_THE_END),
    (709, true, false, FROM_THE_END),
    (709, true, true, FROM_THE_END),
];

#[test]
fn the_last_commit_block_and_its_barrier_may_fail(rt: HostRuntime) {
    let alloc = rt.alloc();
    for row in &ROWS {
        fail_by_row(&rt, alloc, &BY_JOURNAL, row);
        fail_by_row(&rt, alloc, &BY_SHADOW, row);
    }
}

#[test]
fn a_save_behind_a_fault_may_fail_too(rt: HostRuntime) {
    fail_to_save(&rt, rt.alloc(), &BY_JOURNAL);
    fail_to_save(&rt, rt.alloc(), &BY_SHADOW);
}
