//! Runs of programs that have an input which they do not read.
use crate::support::calls::{expect, expect_on};
use crate::support::programs::shelf;
use std::alloc::Global;
use std::process::Abort;
use thy_out::MemShelf;
use thy_test_support::{THREE_WORDS, files_of, hold};

/// The files that can be read, or the first that cannot; and only then whether the first file is a program.
static ORDER: [(&str, u8, &str); 14] = [
    ("thynvm plain F --input S", 0, "exit 7 at 3\n"),
    ("thynvm plain F --input F", 0, "exit 7 at 3\n"),
    (
        "thynvm run F --pages 8 --btt 8 --ptt 8 --input F",
        0,
        "commit 0 overlapped 0\nepoch 1 ends at 3 by end\ncommit 1 overlapped 0\nexit 7 at 3\n",
    ),
    ("thynvm run F --input I --pages 7", 2, "value pages 7\n"),
    ("thynvm run H --input I", 3, "fetch H missing\n"),
    ("thynvm plain H --input I", 3, "fetch H missing\n"),
    ("thynvm run H --input F", 3, "fetch H missing\n"),
    ("thynvm plain H --input F", 3, "fetch H missing\n"),
    ("thynvm run F --input I", 3, "fetch I missing\n"),
    ("thynvm plain F --input I", 3, "fetch I missing\n"),
    ("thynvm run G --input I", 3, "fetch I missing\n"),
    ("thynvm plain G --input I", 3, "fetch I missing\n"),
    ("thynvm run G --input G", 4, "file 1 TooShort\n"),
    ("thynvm plain G --input F", 4, "file 1 TooShort\n"),
];

#[test]
fn file_and_input_are_fetched_in_this_order(rt: HostRuntime) {
    for (line, status, report) in &ORDER {
        expect(&rt, rt.alloc(), line, *status, report);
    }
}

/// Calls on a shelf that fails at one call, the first being 1.
static FAILURES: [(&str, u64, u8, &str); 7] = [
    ("thynvm run F --input S", 1, 3, "fetch F failed\n"),
    ("thynvm plain F --input S", 1, 3, "fetch F failed\n"),
    ("thynvm run F --input S", 2, 3, "fetch S failed\n"),
    ("thynvm plain F --input S", 2, 3, "fetch S failed\n"),
    ("thynvm plain F --input F", 2, 3, "fetch F failed\n"),
    ("thynvm plain F --input S", 3, 0, "exit 7 at 3\n"),
    ("thynvm plain F", 2, 0, "exit 7 at 3\n"),
];

/// Calls over the files of these tests on a shelf that fails at this call.
fn expect_failing(
    rt: &impl Abort,
    alloc: Global,
    line: &str,
    failing: u64,
    status: u8,
    report: &str,
) {
    let mut shelf = shelf(rt, alloc, &[failing]);
    expect_on(rt, alloc, line, &mut shelf, status, report);
}

#[test]
fn a_shelf_that_fails_is_reported_with_the_name(rt: HostRuntime) {
    let alloc = rt.alloc();
    for (line, failing, status, report) in &FAILURES {
        expect_failing(&rt, alloc, line, *failing, *status, report);
    }
}

/// A shelf with the program that exits with 7 under the name F, and `size` zeros under I.
fn zeros(rt: &impl Abort, alloc: Global, size: usize) -> MemShelf {
    let mut files = files_of(alloc, &[("F", THREE_WORDS)], &[]).expect(rt, "memory");
    let input = Vec::from_elem(alloc, 0u8, size).expect(rt, "memory");
    hold(alloc, &mut files, "I", input).expect(rt, "memory");
    MemShelf::new(files, Vec::new(alloc))
}

/// Calls over `size` zeros, and compares status and report.
fn expect_of(rt: &impl Abort, alloc: Global, line: &str, size: usize, status: u8, report: &str) {
    expect_on(rt, alloc, line, &mut zeros(rt, alloc, size), status, report);
}

#[test]
fn an_input_has_at_most_67108864_bytes(rt: HostRuntime) {
    let alloc = rt.alloc();
    let long = "fetch I too long\n";
    expect_of(&rt, alloc, "thynvm run F --input I", 67_108_865, 3, long);
    let line = "thynvm plain F --input I";
    expect_of(&rt, alloc, line, 67_108_865, 3, long);
    expect_of(&rt, alloc, line, 67_108_864, 0, "exit 7 at 3\n");
}

#[test]
fn a_saved_image_has_at_most_536870912_bytes(rt: HostRuntime) {
    let alloc = rt.alloc();
    let long = "fetch I too long\n";
    let line = "thynvm resume I";
    expect_of(&rt, alloc, line, 536_870_913, 3, long);
    expect_of(&rt, alloc, line, 536_870_912, 5, "image 1 Empty\n");
    let line = "thynvm run I";
    expect_of(&rt, alloc, line, 67_108_865, 3, long);
    expect_of(&rt, alloc, line, 67_108_864, 4, "file 2 NotElf\n");
}
