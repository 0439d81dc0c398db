//! Whole runs over memory: what is reported, and with which status.
mod compared;
mod console;
mod cuts;
mod epochs;
mod made;
mod misaligned;
mod programs;
mod two_harts;

use programs::shelf;
use std::alloc::Global;
use std::process::Abort;
use thy_cli::{Answer, thynvm};
use thy_nvm::MemNvm;
use thy_out::MemShelf;
use thy_test_support::{Given, arguments_of, hold, sink};

/// What the call returns that a line asks for over this shelf and a new device.
fn answered(rt: &impl Abort, alloc: Global, line: &str, shelf: &mut MemShelf) -> Answer {
    let arguments = arguments_of(alloc, line).expect(rt, "memory");
    let mut terminal = sink(alloc, &[]).expect(rt, "memory");
    let mut report = sink(alloc, &[]).expect(rt, "memory");
    let mut nvm = MemNvm::new(alloc);
    thynvm(
        alloc,
        &arguments,
        shelf,
        &mut terminal,
        &mut report,
        &mut nvm,
    )
}

/// Calls with the arguments of a line over this shelf, over this device, and over a terminal and a report that fail at
/// these calls.
fn called_over(
    rt: &impl Abort,
    alloc: Global,
    line: &str,
    shelf: &mut MemShelf,
    unseen: &[u64],
    unreported: &[u64],
    nvm: &mut MemNvm,
) -> Given {
    let arguments = arguments_of(alloc, line).expect(rt, "memory");
    let mut terminal = sink(alloc, unseen).expect(rt, "memory");
    let mut report = sink(alloc, unreported).expect(rt, "memory");
    let answer = thynvm(alloc, &arguments, shelf, &mut terminal, &mut report, nvm);
    Given::of(alloc, answer.status, answer.cycles, &terminal, &report).expect(rt, "memory")
}

/// Calls with the arguments of a line over this shelf.
fn called(rt: &impl Abort, alloc: Global, line: &str, shelf: &mut MemShelf) -> Given {
    called_over(rt, alloc, line, shelf, &[], &[], &mut MemNvm::new(alloc))
}

/// Calls with the arguments of a line over this shelf, and over a report that fails at this call.
fn called_unreported(
    rt: &impl Abort,
    alloc: Global,
    line: &str,
    shelf: &mut MemShelf,
    failing: u64,
) -> Given {
    called_over(
        rt,
        alloc,
        line,
        shelf,
        &[],
        &[failing],
        &mut MemNvm::new(alloc),
    )
}

/// Calls with the arguments of a line over the files of these tests.
fn ran(rt: &impl Abort, alloc: Global, line: &str) -> Given {
    called(rt, alloc, line, &mut shelf(rt, alloc, &[]))
}

/// Stops the test unless this holds of a row, which `at` names.
fn check(rt: &impl Abort, holds: bool, at: &str) {
    assert!(rt; holds, "{at}");
}

/// Compares what a call gave with a status, what the terminal takes, and a report.
fn compare(rt: &impl Abort, at: &str, given: &Given, status: u8, printed: &str, report: &str) {
    check(rt, given.shows(status, printed, report), at);
}

/// Calls over this shelf and compares status and report; nothing is printed.
fn expect_on(
    rt: &impl Abort,
    alloc: Global,
    line: &str,
    shelf: &mut MemShelf,
    status: u8,
    report: &str,
) {
    let given = called(rt, alloc, line, shelf);
    compare(rt, line, &given, status, "", report);
}

/// Calls over the files of these tests and compares status and report; nothing is printed.
fn expect(rt: &impl Abort, alloc: Global, line: &str, status: u8, report: &str) {
    expect_on(rt, alloc, line, &mut shelf(rt, alloc, &[]), status, report);
}

/// Calls over the files of these tests and compares status, cycles and report; nothing is printed.
fn expect_cycles(
    rt: &impl Abort,
    alloc: Global,
    line: &str,
    status: u8,
    cycles: u64,
    report: &str,
) {
    let given = ran(rt, alloc, line);
    compare(rt, line, &given, status, "", report);
    check(rt, given.cycles == cycles, line);
}

/// Runs that stop, with status, cycles (of `plain`: steps) and report.
static RUNS: [(&str, u8, u64, &str); 8] = [
    (
        "thynvm run F --pages 8 --btt 8 --ptt 8",
        0,
        722,
        "commit 0 overlapped 0\nepoch 1 ends at 3 by end\ncommit 1 overlapped 0\nexit 7 at 3\n",
    ),
    (
        "thynvm run F --pages 8 --btt 8 --ptt 8 --limit 721",
        8,
        721,
        "commit 0 overlapped 0\nepoch 1 ends at 3 by end\nlimit 721\n",
    ),
    (
        "thynvm run F --pages 8 --btt 8 --ptt 8 --limit 722",
        0,
        722,
        "commit 0 overlapped 0\nepoch 1 ends at 3 by end\ncommit 1 overlapped 0\nexit 7 at 3\n",
    ),
    ("thynvm plain F", 0, 3, "exit 7 at 3\n"),
    ("thynvm plain F --limit 2", 8, 2, "limit 2\n"),
    ("thynvm plain F --limit 3", 0, 3, "exit 7 at 3\n"),
    ("thynvm plain S --pages 4096", 0, 8, "exit 9 at 8\n"),
    ("thynvm plain Z", 1, 1, "trap 2 at 1\n"),
];

#[test]
fn runs_take_their_cycles(rt: HostRuntime) {
    let alloc = rt.alloc();
    for (line, status, cycles, report) in &RUNS {
        expect_cycles(&rt, alloc, line, *status, *cycles, report);
    }
}

/// Words that begin no run, with the status and the report.
static REFUSALS: [(&str, u8, &str); 24] = [
    ("thynvm run", 2, "usage\n"),
    ("thynvm run F --pages 7", 2, "value pages 7\n"),
    ("thynvm run F --pages x", 2, "word pages\n"),
    ("thynvm run F --cuts 5,5", 2, "value cuts 5\n"),
    ("thynvm run F --high 10", 2, "value low 16\n"),
    ("thynvm run H", 3, "fetch H missing\n"),
    ("thynvm run G", 4, "file 1 TooShort\n"),
    ("thynvm", 2, "usage\n"),
    ("thynvm fly F", 2, "usage\n"),
    ("thynvm run -F", 2, "usage\n"),
    ("thynvm run F --pages", 2, "usage\n"),
    ("thynvm run F --pages 8 --pages 8", 2, "usage\n"),
    (
        "thynvm run F --pages 00000000000000000008",
        2,
        "word pages\n",
    ),
    ("thynvm run F --pages +8", 2, "word pages\n"),
    ("thynvm run F --pages ", 2, "word pages\n"),
    ("thynvm run F --pages 7 --limit x", 2, "word limit\n"),
    ("thynvm run F --limit 0 --pages 7", 2, "value pages 7\n"),
    ("thynvm run F --limit 0", 2, "value limit 0\n"),
    ("thynvm run F --tears 1,2", 2, "value tears 2\n"),
    ("thynvm plain", 2, "usage\n"),
    ("thynvm plain F --cuts 5", 2, "usage\n"),
    ("thynvm plain F --pages 7", 2, "value pages 7\n"),
    ("thynvm plain H", 3, "fetch H missing\n"),
    ("thynvm plain G", 4, "file 1 TooShort\n"),
];

#[test]
fn each_refusal_has_its_line(rt: HostRuntime) {
    let alloc = rt.alloc();
    for (line, status, report) in &REFUSALS {
        expect(&rt, alloc, line, *status, report);
    }
}

/// A shelf on which a file is too long by a byte.
fn long_shelf(rt: &impl Abort, alloc: Global) -> MemShelf {
    let mut files = Vec::new(alloc);
    let file = Vec::from_elem(alloc, 0u8, 67_108_865).expect(rt, "memory");
    hold(alloc, &mut files, "F", file).expect(rt, "memory");
    MemShelf::new(files, Vec::new(alloc))
}

/// Calls over a shelf that fails, and over that one.
fn expect_not_fetched(rt: &impl Abort, alloc: Global, line: &str) {
    expect_on(
        rt,
        alloc,
        line,
        &mut shelf(rt, alloc, &[1]),
        3,
        "fetch F failed\n",
    );
    expect_on(
        rt,
        alloc,
        line,
        &mut long_shelf(rt, alloc),
        3,
        "fetch F too long\n",
    );
}

#[test]
fn a_file_that_is_not_fetched_has_its_line(rt: HostRuntime) {
    let alloc = rt.alloc();
    expect_not_fetched(&rt, alloc, "thynvm run F");
    expect_not_fetched(&rt, alloc, "thynvm plain F");
}

/// The lines of the program that exits with 7 before each of its four. Each line is written at once.
static BEFORE: [&str; 4] = [
    "",
    "commit 0 overlapped 0\n",
    "commit 0 overlapped 0\nepoch 1 ends at 3 by end\n",
    "commit 0 overlapped 0\nepoch 1 ends at 3 by end\ncommit 1 overlapped 0\n",
];

/// Runs it with a report that fails at this call, the first being 1, and compares the lines before.
fn expect_unreported(rt: &impl Abort, alloc: Global, failing: u64, before: &str) {
    let line = "thynvm run F --pages 8";
    let given = called_unreported(rt, alloc, line, &mut shelf(rt, alloc, &[]), failing);
    compare(rt, line, &given, 6, "", before);
}

#[test]
fn a_report_that_fails_has_taken_the_lines_before(rt: HostRuntime) {
    let alloc = rt.alloc();
    for (k, before) in BEFORE.iter().enumerate() {
        expect_unreported(&rt, alloc, k as u64 + 1, before);
    }
}

/// Runs that exit, with a report that has digests.
static DIGESTS: [(&str, &str); 2] = [
    (
        "thynvm run F --pages 8 --btt 8 --ptt 8 --cuts 721 --tears 1 --digest",
        "commit 0 overlapped 0\n\
         epoch 1 ends at 3 by end\n\
         cut 1 at cycle 721\n\
         restart 1 at 3\n\
         memory 6deb2f4354900ff2a9411931cbbb227b278920c0a05d7246af55f9487e46505f\n\
         exit 7 at 3\n\
         memory 6deb2f4354900ff2a9411931cbbb227b278920c0a05d7246af55f9487e46505f\n",
    ),
    (
        "thynvm plain F --pages 8 --digest",
        "exit 7 at 3\nmemory 6deb2f4354900ff2a9411931cbbb227b278920c0a05d7246af55f9487e46505f\n",
    ),
];

#[test]
fn digests_are_those_of_another_program(rt: HostRuntime) {
    let alloc = rt.alloc();
    for (line, report) in &DIGESTS {
        expect(&rt, alloc, line, 0, report);
    }
}

/// Runs of the program that modifies itself, across the ends of epochs and with a cache of one line.
static MODIFYING: [&str; 3] = [
    "thynvm run S --epoch 3",
    "thynvm run S --pages 8 --btt 8 --ptt 8 --epoch 3",
    "thynvm run S --pages 8 --btt 8 --ptt 8 --epoch 3 --sets 1 --ways 1",
];

/// Calls over the files of these tests, and compares status and report but for what is overlapped.
fn expect_reported(rt: &impl Abort, alloc: Global, line: &str, report: &str) {
    let given = ran(rt, alloc, line);
    check(
        rt,
        given.status == 0 && reports(&given.report, report),
        line,
    );
}

#[test]
fn a_program_that_modifies_itself_over_an_epochs_end_exits_with_9(rt: HostRuntime) {
    let alloc = rt.alloc();
    let report = "commit 0\n\
         epoch 1 ends at 3 by length\n\
         commit 1\n\
         epoch 2 ends at 6 by length\n\
         commit 2\n\
         epoch 3 ends at 8 by end\n\
         commit 3\n\
         exit 9 at 8\n";
    for line in &MODIFYING {
        expect_reported(&rt, alloc, line, report);
    }
}

/// A line of a report without how many instructions were executed meanwhile, which a commit's line has.
fn without_overlapped(line: &str) -> &str {
    match line.split_once(" overlapped ") {
        Some((commit, _)) => commit,
        None => line,
    }
}

/// Whether a report has these lines, in which the lines of commits end with the epoch.
fn reports(report: &[u8], wanted: &str) -> bool {
    let Ok(report) = std::str::from_utf8(report) else {
        return false;
    };
    let mut lines = report.lines();
    for want in wanted.lines() {
        match lines.next() {
            Some(line) if without_overlapped(line) == want => {}
            _ => return false,
        }
    }
    lines.next().is_none()
}
