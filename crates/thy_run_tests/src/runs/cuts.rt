//! Runs whose power is cut.
use crate::runs::{check, expect, ran};
use std::alloc::Global;
use std::process::Abort;
use thy_test_support::has;

/// Runs of the program that exits with 7, with the report.
static CUT_RUNS: [(&str, &str); 6] = [
    (
        "thynvm run F --pages 8 --btt 8 --ptt 8 --cuts 1",
        "cut 1 at cycle 1\n\
         reload\n\
         commit 0 overlapped 0\n\
         epoch 1 ends at 3 by end\n\
         commit 1 overlapped 0\n\
         exit 7 at 3\n",
    ),
    (
        "thynvm run F --pages 8 --btt 8 --ptt 8 --cuts 698 --tears 0",
        "cut 1 at cycle 698\n\
         reload\n\
         commit 0 overlapped 0\n\
         epoch 1 ends at 3 by end\n\
         commit 1 overlapped 0\n\
         exit 7 at 3\n",
    ),
    (
        "thynvm run F --pages 8 --btt 8 --ptt 8 --cuts 698 --tears 1",
        "cut 1 at cycle 698\nrestart 0 at 0\nepoch 1 ends at 3 by end\ncommit 1 overlapped 0\nexit 7 at 3\n",
    ),
    (
        "thynvm run F --pages 8 --btt 8 --ptt 8 --cuts 721 --tears 0",
        "commit 0 overlapped 0\n\
         epoch 1 ends at 3 by end\n\
         cut 1 at cycle 721\n\
         restart 0 at 0\n\
         epoch 1 ends at 3 by end\n\
         commit 1 overlapped 0\n\
         exit 7 at 3\n",
    ),
    (
        "thynvm run F --pages 8 --btt 8 --ptt 8 --cuts 721 --tears 1",
        "commit 0 overlapped 0\nepoch 1 ends at 3 by end\ncut 1 at cycle 721\nrestart 1 at 3\nexit 7 at 3\n",
    ),
    (
        "thynvm run F --pages 8 --btt 8 --ptt 8 --cuts 700,702",
        "commit 0 overlapped 0\n\
         cut 1 at cycle 700\n\
         cut 2 at cycle 702\n\
         restart 0 at 0\n\
         epoch 1 ends at 3 by end\n\
         commit 1 overlapped 0\n\
         exit 7 at 3\n",
    ),
];

#[test]
fn power_cuts_are_survived(rt: HostRuntime) {
    let alloc = rt.alloc();
    for (line, report) in &CUT_RUNS {
        expect(&rt, alloc, line, 0, report);
    }
}

/// A run that exits, with what it prints and its last line, which are the same wherever power is cut.
struct Case {
    line: &'static str,
    printed: &'static str,
    last: &'static str,
}

static EXITS_WITH_SEVEN: Case = Case {
    line: "thynvm run F --pages 8 --btt 8 --ptt 8",
    printed: "",
    last: "\nexit 7 at 3\n",
};

static PRINTS: Case = Case {
    line: "thynvm run P --pages 8 --btt 8 --ptt 8",
    printed: "Hi\n",
    last: "\nexit 3 at 8\n",
};

/// Each epoch ends while the checkpoint before it is written.
static OVERLAPS: Case = Case {
    line: "thynvm run E --pages 8 --btt 8 --ptt 8 --epoch 1",
    printed: "",
    last: "\nexit 6 at 4\n",
};

/// Two of its epochs end because no entry is free.
static EXHAUSTS: Case = Case {
    line: "thynvm run N --pages 8 --btt 8 --ptt 8",
    printed: "",
    last: "\nexit 0 at 11\n",
};

/// A page of it is copied to the DRAM, and written back whole.
static KEEPS_A_PAGE: Case = Case {
    line: "thynvm run D --pages 8 --btt 8 --ptt 8 --sets 1 --ways 1 --high 0 --low 0",
    printed: "",
    last: "\nexit 0 at 20\n",
};

/// A cut after a cycle, which leaves what the pick says: it falls, the boot after it reports this, and the run ends alike.
fn cut_at(rt: &impl Abort, alloc: Global, case: &Case, cycle: u64, tear: u64, after: &str) {
    let run = case.line;
    let line = format!(in alloc; "{run} --cuts {cycle} --tears {tear}").expect(rt, "memory");
    let lines = format!(in alloc; "cut 1 at cycle {cycle}\n{after}").expect(rt, "memory");
    let given = ran(rt, alloc, line.as_str());
    let goes_on = has(&given.report, lines.as_str());
    check(
        rt,
        goes_on && given.exits(case.printed, case.last),
        line.as_str(),
    );
}

/// How many cycles a case takes without a cut.
fn whole(rt: &impl Abort, alloc: Global, case: &Case) -> u64 {
    let given = ran(rt, alloc, case.line);
    check(
        rt,
        given.cycles > 700 && given.exits(case.printed, case.last),
        case.line,
    );
    given.cycles
}

/// A cut at each cycle before the end, with one pick: it falls, and the run ends alike.
fn cut_everywhere(rt: &impl Abort, alloc: Global, case: &Case, tear: u64) {
    let end = whole(rt, alloc, case);
    for cycle in 1..end {
        cut_at(rt, alloc, case, cycle, tear, "");
    }
}

/// What the first boot after a cut reports: nothing was committed before the commit block of loading is written in
/// cycle 698. A drain lets it land in cycle 699. The checkpoint's is written in cycle 721. Each is then the only write
/// that is queued, and `lands` says whether the cut lets it land.
fn comes_after(cycle: u64, lands: bool) -> &'static str {
    if cycle < 698 || (cycle == 698 && !lands) {
        "reload\n"
    } else if cycle == 721 && lands {
        "restart 1 at 3\n"
    } else {
        "restart 0 at 0\n"
    }
}

/// A cut at each cycle of the program that exits with 7, with one pick: what follows it, and the same end.
fn cut_seven(rt: &impl Abort, alloc: Global, tear: u64, lands: bool) {
    for cycle in 1..722 {
        let after = comes_after(cycle, lands);
        cut_at(rt, alloc, &EXITS_WITH_SEVEN, cycle, tear, after);
    }
}

#[test]
fn a_cut_anywhere_of_which_no_write_lands(rt: HostRuntime) {
    cut_seven(&rt, rt.alloc(), 0, false);
}

#[test]
fn a_cut_anywhere_of_which_every_write_lands(rt: HostRuntime) {
    cut_seven(&rt, rt.alloc(), 1, true);
}

/// The first draw of seed 7 is 1059165278: even, so that a single write does not land.
#[test]
fn a_cut_anywhere_with_drawn_blocks(rt: HostRuntime) {
    cut_seven(&rt, rt.alloc(), 7, false);
}

#[test]
fn a_text_is_printed_once_where_no_write_lands(rt: HostRuntime) {
    cut_everywhere(&rt, rt.alloc(), &PRINTS, 0);
}

#[test]
fn a_text_is_printed_once_where_every_write_lands(rt: HostRuntime) {
    cut_everywhere(&rt, rt.alloc(), &PRINTS, 1);
}

#[test]
fn overlapping_epochs_are_cut_and_no_write_lands(rt: HostRuntime) {
    cut_everywhere(&rt, rt.alloc(), &OVERLAPS, 0);
}

#[test]
fn overlapping_epochs_are_cut_and_every_write_lands(rt: HostRuntime) {
    cut_everywhere(&rt, rt.alloc(), &OVERLAPS, 1);
}

#[test]
fn overlapping_epochs_are_cut_with_drawn_blocks(rt: HostRuntime) {
    cut_everywhere(&rt, rt.alloc(), &OVERLAPS, 7);
}

#[test]
fn exhausted_epochs_are_cut_and_no_write_lands(rt: HostRuntime) {
    cut_everywhere(&rt, rt.alloc(), &EXHAUSTS, 0);
}

#[test]
fn exhausted_epochs_are_cut_and_every_write_lands(rt: HostRuntime) {
    cut_everywhere(&rt, rt.alloc(), &EXHAUSTS, 1);
}

#[test]
fn exhausted_epochs_are_cut_with_drawn_blocks(rt: HostRuntime) {
    cut_everywhere(&rt, rt.alloc(), &EXHAUSTS, 7);
}

#[test]
fn a_page_in_the_dram_is_cut_and_no_write_lands(rt: HostRuntime) {
    cut_everywhere(&rt, rt.alloc(), &KEEPS_A_PAGE, 0);
}

#[test]
fn a_page_in_the_dram_is_cut_and_every_write_lands(rt: HostRuntime) {
    cut_everywhere(&rt, rt.alloc(), &KEEPS_A_PAGE, 1);
}

#[test]
fn a_page_in_the_dram_is_cut_with_drawn_blocks(rt: HostRuntime) {
    cut_everywhere(&rt, rt.alloc(), &KEEPS_A_PAGE, 7);
}
