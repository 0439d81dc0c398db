//! The program that exits with 7: cuts of loading and of recovery, and levelled wear, by whole reports.
use crate::second_cuts::{Boots, cut_recoveries};
use crate::support::by_scheme::{JOURNAL, Row, SHADOW, expect_by_each};

/// What is reported of the program without a cut.
const WHOLE: &str =
    "commit 0 overlapped 0\nepoch 1 ends at 3 by end\ncommit 1 overlapped 0\nexit 7 at 3\n";

/// Loading writes its commit block in cycle 695, and the barrier after that is in 696. A second cut two cycles after that
/// one falls into recovery.
static CUTS: [Row; 4] = [
    (
        "thynvm run F --pages 8 --btt 8 --ptt 8 --scheme",
        " --cuts 1",
        0,
        "cut 1 at cycle 1\n\
         reload\n\
         commit 0 overlapped 0\n\
         epoch 1 ends at 3 by end\n\
         commit 1 overlapped 0\n\
         exit 7 at 3\n",
    ),
    (
        "thynvm run F --pages 8 --btt 8 --ptt 8 --scheme",
        " --cuts 695 --tears 0",
        0,
        "cut 1 at cycle 695\n\
         reload\n\
         commit 0 overlapped 0\n\
         epoch 1 ends at 3 by end\n\
         commit 1 overlapped 0\n\
         exit 7 at 3\n",
    ),
    (
        "thynvm run F --pages 8 --btt 8 --ptt 8 --scheme",
        " --cuts 695 --tears 1",
        0,
        "cut 1 at cycle 695\n\
         restart 0 at 0\n\
         epoch 1 ends at 3 by end\n\
         commit 1 overlapped 0\n\
         exit 7 at 3\n",
    ),
    (
        "thynvm run F --pages 8 --btt 8 --ptt 8 --scheme",
        " --cuts 696,698",
        0,
        "commit 0 overlapped 0\n\
         cut 1 at cycle 696\n\
         cut 2 at cycle 698\n\
         restart 0 at 0\n\
         epoch 1 ends at 3 by end\n\
         commit 1 overlapped 0\n\
         exit 7 at 3\n",
    ),
];

#[test]
fn a_cut_of_loading_or_recovery_is_reported(rt: HostRuntime) {
    expect_by_each(&rt, rt.alloc(), &CUTS);
}

/// A boot that finds the checkpoint of epoch 0 has eight actions: the reads of the commit block, of the header and of the
/// slot's six blocks; no block is in the journal, and no page is copied.
pub(crate) static BY_JOURNAL: Boots = Boots {
    scheme: JOURNAL,
    cut: 714,
    restarted: 722,
    loaded: 696,
};

pub(crate) static BY_SHADOW: Boots = Boots {
    scheme: SHADOW,
    cut: 714,
    restarted: 722,
    loaded: 696,
};

#[test]
fn a_recovery_is_cut_at_each_of_its_cycles(rt: HostRuntime) {
    cut_recoveries(&rt, rt.alloc(), &BY_JOURNAL);
    cut_recoveries(&rt, rt.alloc(), &BY_SHADOW);
}

/// Every write is counted, so that a line is moved at each barrier: no cycle is added, and no cut leaves anything else.
static LEVELLED: [Row; 5] = [
    (
        "thynvm run F --pages 8 --btt 8 --ptt 8 --scheme",
        " --gap 1",
        0,
        WHOLE,
    ),
    (
        "thynvm run F --pages 8 --btt 8 --ptt 8 --scheme",
        " --gap 1 --limit 716",
        0,
        WHOLE,
    ),
    (
        "thynvm run F --pages 8 --btt 8 --ptt 8 --scheme",
        " --gap 1 --limit 715",
        8,
        "commit 0 overlapped 0\n\
         epoch 1 ends at 3 by end\n\
         limit 715\n",
    ),
    (
        "thynvm run F --pages 8 --btt 8 --ptt 8 --scheme",
        " --gap 1 --cuts 714 --tears 0",
        0,
        "commit 0 overlapped 0\n\
         epoch 1 ends at 3 by end\n\
         cut 1 at cycle 714\n\
         restart 0 at 0\n\
         epoch 1 ends at 3 by end\n\
         commit 1 overlapped 0\n\
         exit 7 at 3\n",
    ),
    (
        "thynvm run F --pages 8 --btt 8 --ptt 8 --scheme",
        " --gap 1 --cuts 714 --tears 1",
        0,
        "commit 0 overlapped 0\n\
         epoch 1 ends at 3 by end\n\
         cut 1 at cycle 714\n\
         restart 1 at 3\n\
         exit 7 at 3\n",
    ),
];

#[test]
fn levelled_wear_changes_no_line(rt: HostRuntime) {
    expect_by_each(&rt, rt.alloc(), &LEVELLED);
}
