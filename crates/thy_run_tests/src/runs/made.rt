//! Programs that are made from a number, and runs of them.
use crate::runs::{called, called_unreported, check, compare, expect_on};
use std::alloc::Global;
use std::process::Abort;
use thy_out::MemShelf;
use thy_test_support::{Given, has};

/// A shelf with nothing on it, which fails at these calls.
fn empty(rt: &impl Abort, alloc: Global, failing: &[u64]) -> MemShelf {
    let failing = Vec::from_slice(alloc, failing).expect(rt, "memory");
    MemShelf::new(Vec::new(alloc), failing)
}

/// Calls on an empty shelf.
fn ran(rt: &impl Abort, alloc: Global, line: &str) -> Given {
    called(rt, alloc, line, &mut empty(rt, alloc, &[]))
}

#[test]
fn a_made_program_is_put_and_runs(rt: HostRuntime) {
    let alloc = rt.alloc();
    let mut shelf = empty(&rt, alloc, &[2]);
    let line = "thynvm make 0 OUT";
    let given = called(&rt, alloc, line, &mut shelf);
    compare(&rt, line, &given, 0, "", "made 0 24148\n");
    check(&rt, given.cycles == 0, line);
    let line = "thynvm make 0 OTHER";
    expect_on(&rt, alloc, line, &mut shelf, 3, "put OTHER failed\n");
    let line = "thynvm plain OUT";
    expect_on(&rt, alloc, line, &mut shelf, 0, "exit 128 at 48027\n");
}

/// Runs of made programs, with status and report.
static BENCHES: [(&str, u8, &str); 6] = [
    (
        "thynvm bench 0 --btt 4096 --epoch 1000000",
        0,
        "commit 0 overlapped 0\n\
         epoch 1 ends at 48027 by end\n\
         commit 1 overlapped 0\n\
         exit 128 at 48027\n\
         summary epochs 1 early 0 overlapped 0\n",
    ),
    ("thynvm bench 4294967296", 2, "value n 4294967296\n"),
    ("thynvm bench x", 2, "word n\n"),
    ("thynvm bench", 2, "usage\n"),
    ("thynvm make 4294967296 OUT", 2, "value n 4294967296\n"),
    ("thynvm make 0", 2, "usage\n"),
];

/// Calls on an empty shelf, and compares status and report.
fn expect(rt: &impl Abort, alloc: Global, line: &str, status: u8, report: &str) {
    expect_on(rt, alloc, line, &mut empty(rt, alloc, &[]), status, report);
}

#[test]
fn runs_of_made_programs_are_summed_up(rt: HostRuntime) {
    let alloc = rt.alloc();
    for (line, status, report) in &BENCHES {
        expect(&rt, alloc, line, *status, report);
    }
}

/// The report of a made program that runs in one epoch, without its sums.
const UNSUMMED: &str =
    "commit 0 overlapped 0\nepoch 1 ends at 48027 by end\ncommit 1 overlapped 0\nexit 128 at 48027\n";

/// The report refuses the line of a made file, and then the line of a run's sums. The file and the image are there all
/// the same, and a save that failed keeps its status.
#[test]
fn a_report_that_refuses_sums_has_failed(rt: HostRuntime) {
    let alloc = rt.alloc();
    let mut shelf = empty(&rt, alloc, &[]);
    let line = "thynvm make 0 OUT";
    let given = called_unreported(&rt, alloc, line, &mut shelf, 1);
    compare(&rt, line, &given, 6, "", "");
    let line = "thynvm plain OUT";
    expect_on(&rt, alloc, line, &mut shelf, 0, "exit 128 at 48027\n");
    expect_unsummed(&rt, alloc, &mut shelf, 6);
    let line = "thynvm resume IMAGE --btt 4096 --epoch 1000000";
    let report = "restart 1 at 48027\nexit 128 at 48027\n";
    expect_on(&rt, alloc, line, &mut shelf, 0, report);
    expect_unsummed(&rt, alloc, &mut empty(&rt, alloc, &[1]), 3);
}

/// Runs and saves it with a report that refuses the sums.
fn expect_unsummed(rt: &impl Abort, alloc: Global, shelf: &mut MemShelf, status: u8) {
    let line = "thynvm bench 0 --btt 4096 --epoch 1000000 --save IMAGE";
    let given = called_unreported(rt, alloc, line, shelf, 5);
    compare(rt, line, &given, status, "", UNSUMMED);
}

/// What is reported if no page is promoted and enough entries are free, between its first line and the number of
/// overlapped instructions.
static EPOCHS: [&str; 6] = [
    "\nepoch 1 ends at 10000 by length\n",
    "\nepoch 2 ends at 20000 by length\n",
    "\nepoch 3 ends at 30000 by length\n",
    "\nepoch 4 ends at 40000 by length\n",
    "\nepoch 5 ends at 48027 by end\n",
    "\nexit 128 at 48027\nsummary epochs 5 early 0 overlapped ",
];

#[test]
fn checkpoints_overlap_execution(rt: HostRuntime) {
    let line = "thynvm bench 0 --btt 4096 --high 63";
    let given = ran(&rt, rt.alloc(), line);
    check(&rt, given.status == 0, line);
    for piece in &EPOCHS {
        check(&rt, has(&given.report, piece), piece);
    }
    check(&rt, !has(&given.report, "early 0 overlapped 0\n"), line);
}

#[test]
fn equal_words_give_equal_reports(rt: HostRuntime) {
    let alloc = rt.alloc();
    let line = "thynvm bench 7 --mix 11 --cuts 20000,90000 --tears 5,6 --epoch 3000 --digest";
    let one = ran(&rt, alloc, line);
    let other = ran(&rt, alloc, line);
    let ends = has(&one.report, "\nexit 128 at 48027\n");
    check(&rt, one.status == 0 && ends, line);
    let is_same = other.status == one.status && other.printed.is_empty();
    check(&rt, is_same && other.report == one.report, line);
    check(&rt, one.cycles == other.cycles, line);
}
