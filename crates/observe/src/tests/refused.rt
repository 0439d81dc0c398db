//! Calls that are refused: what they report, and that nothing is put.

use super::{EXIT_SEVEN, called, check, expect_nothing, expect_refused};

/// Calls that begin no run, with the status.
static NO_RUN: [(&str, u8); 6] = [
    ("thynvm", 2),
    ("thynvm run F --pages 7", 2),
    ("thynvm plain F --limit x", 2),
    ("thynvm run G", 3),
    ("thynvm plain G", 3),
    ("thynvm resume F --pages 8", 5),
];

#[test]
fn a_call_that_begins_no_run_puts_nothing(rt: HostRuntime) {
    let alloc = rt.alloc();
    for (line, status) in &NO_RUN {
        expect_nothing(&rt, alloc, line, *status);
    }
    // A program that exits on the plain machine has no trap, and its text is empty.
    let line = "thynvm plain F --pages 8";
    let plain = called(&rt, alloc, line, &EXIT_SEVEN);
    check(
        &rt,
        plain.status == 0 && plain.is_put && plain.put.len() == 0,
        line,
    );
}

/// Calls that name O themselves.
static TAKEN: [&str; 6] = [
    "thynvm run O",
    "thynvm plain O",
    "thynvm resume O",
    "thynvm run F --input O",
    "thynvm bench 7 --save O",
    "thynvm make 7 P",
];

#[test]
fn an_out_that_is_taken_is_refused(rt: HostRuntime) {
    let words = [0x00000073, 0x00700513, 0x00000073];
    for line in &TAKEN {
        expect_refused(&rt, rt.alloc(), line, &words, 2, "usage\n");
    }
}

/// Calls with `--pcs` that are refused.
static NO_PCS: [&str; 6] = [
    "thynvm --pcs",
    "thynvm --pcs --pcs run F",
    "thynvm --pcs plain F",
    "thynvm --pcs compare F",
    "thynvm --pcs=1 run F",
    "thynvm run F --pcs",
];

#[test]
fn program_counters_are_refused(rt: HostRuntime) {
    let alloc = rt.alloc();
    for line in &NO_PCS {
        expect_refused(&rt, alloc, line, &EXIT_SEVEN, 2, "usage\n");
    }
    // Why there is no run is said as without the option.
    let line = "thynvm --pcs run G";
    expect_refused(&rt, alloc, line, &EXIT_SEVEN, 3, "fetch G missing\n");
}

/// Calls with options that cannot be read, and their reports.
static UNREAD: [(&str, &str); 19] = [
    ("thynvm --state", "usage\n"),
    ("thynvm --state 7", "usage\n"),
    ("thynvm --state 7 --state 8 run F", "usage\n"),
    ("thynvm --state 7 plain F", "usage\n"),
    ("thynvm --state-at 7 compare F", "usage\n"),
    ("thynvm --state=7 run F", "usage\n"),
    ("thynvm --state run F", "word state\n"),
    (
        "thynvm --pcs --state-at 12345678901234567890 run F",
        "word state-at\n",
    ),
    ("thynvm --trace", "usage\n"),
    ("thynvm --trace --trace run F", "usage\n"),
    ("thynvm --trace plain F", "usage\n"),
    ("thynvm --trace compare F", "usage\n"),
    ("thynvm --trace-from 1 run F", "usage\n"),
    ("thynvm --trace-to 9 --pcs run F", "usage\n"),
    ("thynvm --trace --trace-from x run F", "word trace-from\n"),
    (
        "thynvm --trace-from 0 --trace-to x run F",
        "word trace-to\n",
    ),
    (
        "thynvm --trace --trace-from 0 run F",
        "value trace-from 0\n",
    ),
    ("thynvm --trace --trace-to 0 run F", "value trace-to 0\n"),
    (
        "thynvm --trace-to 4 --trace --trace-from 5 run F",
        "value trace-to 4\n",
    ),
];

#[test]
fn options_that_cannot_be_read_are_refused(rt: HostRuntime) {
    for (line, report) in &UNREAD {
        expect_refused(&rt, rt.alloc(), line, &EXIT_SEVEN, 2, report);
    }
}

/// Calls with options of counts that are refused.
static NO_COUNTS: [&str; 10] = [
    "thynvm --causes",
    "thynvm --causes --causes run F",
    "thynvm --causes plain F",
    "thynvm --causes compare F",
    "thynvm --causes=1 run F",
    "thynvm run F --causes",
    "thynvm --epochs --causes --epochs run F",
    "thynvm --epochs plain F",
    "thynvm --wear plain F",
    "thynvm --wear compare F",
];

#[test]
fn counts_are_refused_without_a_machine(rt: HostRuntime) {
    for line in &NO_COUNTS {
        expect_refused(&rt, rt.alloc(), line, &EXIT_SEVEN, 2, "usage\n");
    }
}
