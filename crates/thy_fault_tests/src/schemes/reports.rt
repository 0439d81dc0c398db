//! Runs without power cuts.
use crate::support::by_scheme::{Row, SCHEMES, expect_by_each, expect_rows, line_of};
use crate::support::calls::{check, compare, expect, expect_on, ran};
use std::alloc::Global;
use std::process::Abort;
use thy_out::MemShelf;
use thy_test_support::hold;

/// Runs of the program that exits with 7, by what follows the scheme's word, with status, cycles and report. The hart waits
/// for each checkpoint, so nothing overlaps.
static RUNS: [(&str, u8, u64, &str); 5] = [
    (
        "",
        0,
        716,
        "commit 0 overlapped 0\nepoch 1 ends at 3 by end\ncommit 1 overlapped 0\nexit 7 at 3\n",
    ),
    (
        " --limit 715",
        8,
        715,
        "commit 0 overlapped 0\nepoch 1 ends at 3 by end\nlimit 715\n",
    ),
    (
        " --limit 716 --gap 3",
        0,
        716,
        "commit 0 overlapped 0\nepoch 1 ends at 3 by end\ncommit 1 overlapped 0\nexit 7 at 3\n",
    ),
    (" --limit 695", 8, 695, "limit 695\n"),
    (" --limit 696", 8, 696, "commit 0 overlapped 0\nlimit 696\n"),
];

/// Runs that program, and compares also the cycles.
fn expect_cycles(
    rt: &impl Abort,
    alloc: Global,
    scheme: &str,
    options: &str,
    status: u8,
    cycles: u64,
    report: &str,
) {
    let run = "thynvm run F --pages 8 --btt 8 --ptt 8 --scheme";
    let line = line_of(rt, alloc, run, scheme, options);
    let given = ran(rt, alloc, line.as_str());
    compare(rt, line.as_str(), &given, status, "", report);
    check(rt, given.cycles == cycles, line.as_str());
}

#[test]
fn runs_take_their_cycles(rt: HostRuntime) {
    let alloc = rt.alloc();
    for scheme in &SCHEMES {
        for (options, status, cycles, report) in &RUNS {
            expect_cycles(&rt, alloc, scheme, options, *status, *cycles, report);
        }
    }
}

/// What is reported of the program that modifies itself, in epochs of three instructions.
const MODIFIES: &str = "commit 0 overlapped 0\n\
     epoch 1 ends at 3 by length\n\
     commit 1 overlapped 0\n\
     epoch 2 ends at 6 by length\n\
     commit 2 overlapped 0\n\
     epoch 3 ends at 8 by end\n\
     commit 3 overlapped 0\n\
     exit 9 at 8\n";

/// Runs that exit, up to the scheme's word, with the report. First come nine stores to one page. Eight of them fill the
/// journal's table, or leave a dirty line for each frame, so that the ninth begins the next epoch. Then come five
/// stores over two blocks each, of which four do the same; a program that modifies itself over an epoch's end, with
/// caches of 64 lines and of one; and four instructions in four epochs. With the journal each block that an epoch has
/// stored takes an entry, which is free again once it was applied; with shadow paging each page takes a frame, which is
/// free again with the commit.
static REPORTS: [Row; 6] = [
    (
        "thynvm run N --pages 8 --btt 8 --ptt 8 --scheme",
        "",
        0,
        "commit 0 overlapped 0\n\
         epoch 1 ends at 8 by exhausted 8 8 1\n\
         commit 1 overlapped 0\n\
         epoch 2 ends at 11 by end\n\
         commit 2 overlapped 0\n\
         exit 0 at 11\n",
    ),
    (
        "thynvm run V --pages 8 --btt 8 --ptt 8 --scheme",
        "",
        0,
        "commit 0 overlapped 0\n\
         epoch 1 ends at 4 by exhausted 8 8 2\n\
         commit 1 overlapped 0\n\
         epoch 2 ends at 7 by end\n\
         commit 2 overlapped 0\n\
         exit 0 at 7\n",
    ),
    ("thynvm run S --epoch 3 --scheme", "", 0, MODIFIES),
    (
        "thynvm run S --pages 8 --btt 8 --ptt 8 --epoch 3 --scheme",
        "",
        0,
        MODIFIES,
    ),
    (
        "thynvm run S --pages 8 --btt 8 --ptt 8 --epoch 3 --sets 1 --ways 1 --scheme",
        "",
        0,
        MODIFIES,
    ),
    (
        "thynvm run E --pages 8 --btt 8 --ptt 8 --epoch 1 --scheme",
        "",
        0,
        "commit 0 overlapped 0\n\
         epoch 1 ends at 1 by length\n\
         commit 1 overlapped 0\n\
         epoch 2 ends at 2 by length\n\
         commit 2 overlapped 0\n\
         epoch 3 ends at 3 by length\n\
         commit 3 overlapped 0\n\
         epoch 4 ends at 4 by end\n\
         commit 4 overlapped 0\n\
         exit 6 at 4\n",
    ),
];

/// Runs by one scheme: the nine stores with an entry for each of them, and with more frames than dirty lines; and a store
/// and a load over two blocks.
static REPORTS_OF_ONE: [(&str, &str); 3] = [
    (
        "thynvm run N --pages 8 --btt 16 --ptt 8 --scheme journal",
        "commit 0 overlapped 0\nepoch 1 ends at 11 by end\ncommit 1 overlapped 0\nexit 0 at 11\n",
    ),
    (
        "thynvm run N --pages 8 --btt 8 --ptt 16 --scheme shadow",
        "commit 0 overlapped 0\nepoch 1 ends at 11 by end\ncommit 1 overlapped 0\nexit 0 at 11\n",
    ),
    (
        "thynvm run T --pages 8 --btt 8 --ptt 8 --scheme shadow",
        "commit 0 overlapped 0\nepoch 1 ends at 5 by end\ncommit 1 overlapped 0\nexit 255 at 5\n",
    ),
];

#[test]
fn runs_report_their_epochs(rt: HostRuntime) {
    let alloc = rt.alloc();
    expect_by_each(&rt, alloc, &REPORTS);
    for (line, report) in &REPORTS_OF_ONE {
        expect(&rt, alloc, line, 0, report);
    }
}

/// Arguments that name no scheme, with the report. The scheme is tested after the numbers before it.
static NO_SCHEMES: [(&str, &str); 4] = [
    ("thynvm run F --scheme x", "word scheme\n"),
    ("thynvm run F --scheme shadows", "word scheme\n"),
    ("thynvm run F --scheme x --gap y", "word scheme\n"),
    ("thynvm run F --limit x --scheme y", "word limit\n"),
];

/// Arguments that begin no run, up to the scheme's word, with the status and the report. Whether there is such a file is
/// looked at after all of them.
static REFUSALS: [Row; 9] = [
    ("thynvm plain F --scheme", "", 2, "usage\n"),
    ("thynvm make 0 OUT --scheme", "", 2, "usage\n"),
    ("thynvm run --scheme", "", 2, "usage\n"),
    ("thynvm run F --pages 7 --scheme", "", 2, "value pages 7\n"),
    ("thynvm run F --pages x --scheme", "", 2, "word pages\n"),
    ("thynvm run F --cuts 5,5 --scheme", "", 2, "value cuts 5\n"),
    ("thynvm run F --high 10 --scheme", "", 2, "value low 16\n"),
    ("thynvm run H --scheme", "", 3, "fetch H missing\n"),
    (
        "thynvm bench 4294967296 --scheme",
        "",
        2,
        "value n 4294967296\n",
    ),
];

#[test]
fn each_refusal_of_arguments_has_its_line(rt: HostRuntime) {
    let alloc = rt.alloc();
    for (line, report) in &NO_SCHEMES {
        expect(&rt, alloc, line, 2, report);
    }
    expect_by_each(&rt, alloc, &REFUSALS);
}

static NOT_FETCHED: [Row; 1] = [("thynvm run F --scheme", "", 3, "fetch F failed\n")];

/// A file that is too long by a byte.
fn expect_too_long(rt: &impl Abort, alloc: Global, scheme: &str) {
    let mut files = Vec::new(alloc);
    let long = Vec::from_elem(alloc, 0u8, 67_108_865).expect(rt, "memory");
    hold(alloc, &mut files, "F", long).expect(rt, "memory");
    let mut shelf = MemShelf::new(files, Vec::new(alloc));
    let line = line_of(rt, alloc, "thynvm run F --scheme", scheme, "");
    expect_on(
        rt,
        alloc,
        line.as_str(),
        &mut shelf,
        3,
        "fetch F too long\n",
    );
}

#[test]
fn a_file_that_is_not_fetched_has_its_line(rt: HostRuntime) {
    let alloc = rt.alloc();
    for scheme in &SCHEMES {
        expect_rows(&rt, alloc, scheme, &[1], &NOT_FETCHED);
        expect_too_long(&rt, alloc, scheme);
    }
}
