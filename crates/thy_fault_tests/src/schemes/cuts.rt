//! Runs whose power is cut.
use crate::support::by_scheme::{Row, SMALL, expect_by_each};
use crate::support::calls::{check, ran};
use std::alloc::Global;
use std::process::Abort;
use thy_test_support::has;

/// Cuts of the program that exits with 7, with the report: at the write of the checkpoint's commit block, and after the
/// drain by which it lands.
static CUT_RUNS: [Row; 4] = [
    (
        "thynvm run F --pages 8 --btt 8 --ptt 8 --scheme",
        " --cuts 714 --tears 0",
        0,
        "commit 0 overlapped 0\n\
         epoch 1 ends at 3 by end\n\
         cut 1 at cycle 714\n\
         restart 0 at 0\n\
         epoch 1 ends at 3 by end\n\
         commit 1 overlapped 0\n\
         exit 7 at 3\n",
    ),
    (
        "thynvm run F --pages 8 --btt 8 --ptt 8 --scheme",
        " --cuts 714 --tears 1",
        0,
        "commit 0 overlapped 0\nepoch 1 ends at 3 by end\ncut 1 at cycle 714\nrestart 1 at 3\nexit 7 at 3\n",
    ),
    (
        "thynvm run F --pages 8 --btt 8 --ptt 8 --scheme",
        " --cuts 715 --tears 0",
        0,
        "commit 0 overlapped 0\nepoch 1 ends at 3 by end\ncut 1 at cycle 715\nrestart 1 at 3\nexit 7 at 3\n",
    ),
    (
        "thynvm run F --pages 8 --btt 8 --ptt 8 --scheme",
        " --cuts 715 --tears 1",
        0,
        "commit 0 overlapped 0\nepoch 1 ends at 3 by end\ncut 1 at cycle 715\nrestart 1 at 3\nexit 7 at 3\n",
    ),
];

#[test]
fn power_cuts_are_survived(rt: HostRuntime) {
    expect_by_each(&rt, rt.alloc(), &CUT_RUNS);
}

/// A program with options, what it prints and its last line, which are the same wherever power is cut.
pub(crate) struct Case {
    run: &'static str,
    printed: &'static str,
    last: &'static str,
}

static EXITS_WITH_SEVEN: Case = Case {
    run: "F",
    printed: "",
    last: "\nexit 7 at 3\n",
};

pub(crate) static PRINTS: Case = Case {
    run: "P",
    printed: "Hi\n",
    last: "\nexit 3 at 8\n",
};

/// A run whose first epoch ends because no entry of the journal is free, or because the frames of shadow paging are as
/// few as the dirty lines. Then the journal writes eight blocks home; shadow paging copies the page into a frame before
/// each of its two checkpoints, and writes it to another page of the pool each time.
pub(crate) static EXHAUSTS: Case = Case {
    run: "N",
    printed: "",
    last: "\nexit 0 at 11\n",
};

/// A run of four instructions, each of which is an epoch.
pub(crate) static FOUR_EPOCHS: Case = Case {
    run: "E --epoch 1",
    printed: "",
    last: "\nexit 6 at 4\n",
};

/// Each of its five stores is to two blocks, and its first epoch ends because no two entries are free, or because two frames
/// more than dirty lines would be needed.
pub(crate) static EXHAUSTS_BY_TWO: Case = Case {
    run: "V",
    printed: "",
    last: "\nexit 0 at 7\n",
};

/// How many cycles a program takes without a cut.
fn whole(rt: &impl Abort, alloc: Global, scheme: &str, case: &Case) -> u64 {
    let run = case.run;
    let line = format!(in alloc; "thynvm run {run} {SMALL} {scheme}").expect(rt, "memory");
    let given = ran(rt, alloc, line.as_str());
    check(
        rt,
        given.cycles > 700 && given.exits(case.printed, case.last),
        line.as_str(),
    );
    given.cycles
}

/// A cut after a cycle, with one pick: it falls, the boot after it reports this, and the run ends alike.
fn cut_at(
    rt: &impl Abort,
    alloc: Global,
    scheme: &str,
    case: &Case,
    cycle: u64,
    tear: &str,
    after: &str,
) {
    let run = case.run;
    let line = format!(in alloc;
        "thynvm run {run} {SMALL} {scheme} --cuts {cycle} --tears {tear}"
    ).expect(rt, "memory");
    let lines = format!(in alloc; "cut 1 at cycle {cycle}\n{after}").expect(rt, "memory");
    let given = ran(rt, alloc, line.as_str());
    let goes_on = has(&given.report, lines.as_str());
    check(
        rt,
        goes_on && given.exits(case.printed, case.last),
        line.as_str(),
    );
}

/// A cut at each cycle before the end, with one pick: it falls, and the run ends alike.
pub(crate) fn cut_everywhere(
    rt: &impl Abort,
    alloc: Global,
    scheme: &str,
    case: &Case,
    tear: &str,
) {
    let end = whole(rt, alloc, scheme, case);
    for cycle in 1..end {
        cut_at(rt, alloc, scheme, case, cycle, tear, "");
    }
}

/// Two cuts, with these picks: the run ends alike.
fn cut_again(
    rt: &impl Abort,
    alloc: Global,
    scheme: &str,
    case: &Case,
    cycle: u64,
    second: u64,
    tears: &str,
) {
    let run = case.run;
    let line = format!(in alloc;
        "thynvm run {run} {SMALL} {scheme} --cuts {cycle},{second} --tears {tears}"
    ).expect(rt, "memory");
    let given = ran(rt, alloc, line.as_str());
    check(rt, given.exits(case.printed, case.last), line.as_str());
}

/// A second cut, `behind` cycles after a first one that falls once the start is committed: the run ends alike.
pub(crate) fn cut_twice(
    rt: &impl Abort,
    alloc: Global,
    scheme: &str,
    case: &Case,
    behind: u64,
    tears: &str,
) {
    let end = whole(rt, alloc, scheme, case);
    for cycle in 697..end {
        let second = cycle.saturating_add(behind);
        cut_again(rt, alloc, scheme, case, cycle, second, tears);
    }
}

/// What the first boot after a cut reports of the program that exits with 7. The commit block of loading is written in
/// cycle 695 and committed in 696; the checkpoint's is written in 714, drained in 715 and committed in 716. Each is
/// then the only write that is queued, and `lands` says whether the cut lets it land.
fn comes_after(cycle: u64, lands: bool) -> &'static str {
    if cycle < 695 || (cycle == 695 && !lands) {
        "reload\n"
    } else if cycle == 715 || (cycle == 714 && lands) {
        "restart 1 at 3\n"
    } else {
        "restart 0 at 0\n"
    }
}

/// A cut at each cycle of the program that exits with 7, with one pick: what follows it, and the same end.
pub(crate) fn cut_seven(rt: &impl Abort, alloc: Global, scheme: &str, tear: &str, lands: bool) {
    for cycle in 1..716 {
        let after = comes_after(cycle, lands);
        cut_at(rt, alloc, scheme, &EXITS_WITH_SEVEN, cycle, tear, after);
    }
}
