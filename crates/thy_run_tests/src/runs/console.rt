//! Runs of programs that read their input and print.
use crate::runs::{called, called_over, check, compare};
use std::alloc::Global;
use std::process::Abort;
use thy_nvm::MemNvm;
use thy_out::MemShelf;
use thy_test_support::{GREET, Given, HELLO, READ_INPUT, has, shelf_of};

/// What `greet` prints of the input `World`, also under `qemu-riscv64`.
const GREETING: &str = "0 Hello, World!\n\
     1 Hello, World!\n\
     2 Hello, World!\n\
     3 Hello, World!\n\
     4 Hello, World!\n\
     5 Hello, World!\n\
     6 Hello, World!\n\
     7 Hello, World!\n\
     8 Hello, World!\n\
     9 Hello, World!\n";

/// Three programs, and as inputs `abcd` under A, nothing under N, `World` and a line feed under W.
static PROGRAMS: [(&str, &[u32]); 3] = [("H", HELLO), ("R", READ_INPUT), ("G", GREET)];

static INPUTS: [(&str, &[u8]); 3] = [("A", b"abcd"), ("N", b""), ("W", b"World\n")];

/// A shelf with these.
fn programs(rt: &impl Abort, alloc: Global) -> MemShelf {
    shelf_of(alloc, &PROGRAMS, &INPUTS).expect(rt, "memory")
}

/// Calls over these programs.
fn ran(rt: &impl Abort, alloc: Global, line: &str) -> Given {
    called(rt, alloc, line, &mut programs(rt, alloc))
}

/// Lines with the status, what the terminal takes, and the report. A checkpoint is shown once it is committed. In the
/// smallest memory that is cycle 738 for the whole program: 700 for the loading, 21 for the eight instructions, the
/// flush of the console's block, a drain, the seal, and eleven actions of the checkpoint with three drains. The
/// instructions take two cycles each, and one for the first line, one to read, and three to secure room, fill and write the
/// console's block. Two instructions are left after an epoch of six, and are executed while its checkpoint is written.
static PRINTED: [(&str, u8, &str, &str); 10] = [
    (
        "thynvm run H",
        0,
        "Hi\n",
        "commit 0 overlapped 0\nepoch 1 ends at 8 by end\ncommit 1 overlapped 0\nexit 3 at 8\n",
    ),
    (
        "thynvm run H --pages 8 --btt 8 --ptt 8",
        0,
        "Hi\n",
        "commit 0 overlapped 0\nepoch 1 ends at 8 by end\ncommit 1 overlapped 0\nexit 3 at 8\n",
    ),
    (
        "thynvm run H --pages 8 --btt 8 --ptt 8 --sets 1 --ways 1",
        0,
        "Hi\n",
        "commit 0 overlapped 0\nepoch 1 ends at 8 by end\ncommit 1 overlapped 0\nexit 3 at 8\n",
    ),
    (
        "thynvm run H --pages 8 --btt 8 --ptt 8 --limit 737",
        8,
        "",
        "commit 0 overlapped 0\nepoch 1 ends at 8 by end\nlimit 737\n",
    ),
    (
        "thynvm run H --pages 8 --btt 8 --ptt 8 --limit 738",
        0,
        "Hi\n",
        "commit 0 overlapped 0\nepoch 1 ends at 8 by end\ncommit 1 overlapped 0\nexit 3 at 8\n",
    ),
    (
        "thynvm run H --pages 8 --btt 8 --ptt 8 --epoch 6 --limit 744",
        8,
        "Hi\n",
        "commit 0 overlapped 0\n\
         epoch 1 ends at 6 by length\n\
         commit 1 overlapped 2\n\
         epoch 2 ends at 8 by end\n\
         limit 744\n",
    ),
    ("thynvm plain H", 0, "Hi\n", "exit 3 at 8\n"),
    ("thynvm plain H --limit 5", 8, "", "limit 5\n"),
    ("thynvm plain H --limit 6", 8, "Hi\n", "limit 6\n"),
    ("thynvm plain G --input W", 0, GREETING, "exit 5 at 666\n"),
];

/// Calls over these programs, and compares what is given.
fn expect(rt: &impl Abort, alloc: Global, line: &str, status: u8, printed: &str, report: &str) {
    let given = ran(rt, alloc, line);
    compare(rt, line, &given, status, printed, report);
}

#[test]
fn the_terminal_shows_what_was_committed(rt: HostRuntime) {
    let alloc = rt.alloc();
    for (line, status, printed, report) in &PRINTED {
        expect(&rt, alloc, line, *status, printed, report);
    }
}

/// Runs that read, and how they end: with four bytes at the start's sp, or with none. Of memory the
/// SHA-256 is reported, computed by another program.
static READ: [(&str, &str); 7] = [
    ("thynvm run R --input A", "\nexit 4 at 6\n"),
    ("thynvm run R --input N", "\nexit 0 at 6\n"),
    ("thynvm run R", "\nexit 0 at 6\n"),
    (
        "thynvm run R --input A --pages 8 --btt 8 --ptt 8 --digest",
        "\nexit 4 at 6\nmemory f5d1994aecdd1db5eb815e0e77ab69b7b00a1de9be36087d0d3beb9e74c815c6\n",
    ),
    (
        "thynvm run R --input A --pages 8 --btt 8 --ptt 8 --digest --sets 1 --ways 1",
        "\nexit 4 at 6\nmemory f5d1994aecdd1db5eb815e0e77ab69b7b00a1de9be36087d0d3beb9e74c815c6\n",
    ),
    (
        "thynvm run R --input N --pages 8 --btt 8 --ptt 8 --digest",
        "\nexit 0 at 6\nmemory 20d3aa3a6487303d74badebb39b24850e7259a141f087ba621dfb205afc9af6a\n",
    ),
    (
        "thynvm run R --input A --pages 8 --btt 8 --ptt 8 --digest --epoch 2 --cuts 710,740 --tears 0,1",
        "\nexit 4 at 6\nmemory f5d1994aecdd1db5eb815e0e77ab69b7b00a1de9be36087d0d3beb9e74c815c6\n",
    ),
];

/// Calls over these programs, and compares a line of the report; nothing is printed.
fn expect_line(rt: &impl Abort, alloc: Global, line: &str, end: &str) {
    let given = ran(rt, alloc, line);
    let is_so = given.status == 0 && given.printed.is_empty() && has(&given.report, end);
    check(rt, is_so, line);
}

#[test]
fn an_input_is_read_also_through_cuts(rt: HostRuntime) {
    let alloc = rt.alloc();
    for (line, end) in &READ {
        expect_line(&rt, alloc, line, end);
    }
}

/// Runs whose power is cut with the commit block of the first checkpoint after the read queued, which does not
/// land or lands. Both instructions after the read are executed while that checkpoint is written.
static READ_AND_CUT: [(&str, &str); 2] = [
    (
        "thynvm run R --input A --pages 8 --btt 8 --ptt 8 --digest --epoch 4 --cuts 733 --tears 0",
        "commit 0 overlapped 0\n\
         epoch 1 ends at 4 by length\n\
         cut 1 at cycle 733\n\
         restart 0 at 0\n\
         memory 20d3aa3a6487303d74badebb39b24850e7259a141f087ba621dfb205afc9af6a\n\
         epoch 1 ends at 4 by length\n\
         commit 1 overlapped 2\n\
         epoch 2 ends at 6 by end\n\
         commit 2 overlapped 0\n\
         exit 4 at 6\n\
         memory f5d1994aecdd1db5eb815e0e77ab69b7b00a1de9be36087d0d3beb9e74c815c6\n",
    ),
    (
        "thynvm run R --input A --pages 8 --btt 8 --ptt 8 --digest --epoch 4 --cuts 733 --tears 1",
        "commit 0 overlapped 0\n\
         epoch 1 ends at 4 by length\n\
         cut 1 at cycle 733\n\
         restart 1 at 4\n\
         memory f5d1994aecdd1db5eb815e0e77ab69b7b00a1de9be36087d0d3beb9e74c815c6\n\
         epoch 2 ends at 6 by end\n\
         commit 2 overlapped 0\n\
         exit 4 at 6\n\
         memory f5d1994aecdd1db5eb815e0e77ab69b7b00a1de9be36087d0d3beb9e74c815c6\n",
    ),
];

#[test]
fn what_was_read_is_there_again_where_it_was_committed(rt: HostRuntime) {
    let alloc = rt.alloc();
    for (line, report) in &READ_AND_CUT {
        expect(&rt, alloc, line, 0, "", report);
    }
}

/// Whether a run exited with a last line, and printed a text once and in order.
fn ends(given: &Given, printed: &str, last: &str) -> bool {
    given.status == 0 && given.printed.as_slice() == printed.as_bytes() && has(&given.report, last)
}

/// Schedules, caches, pages in the DRAM, cuts and what these leave, for a program whose lines fall into several
/// epochs; and the cut that is reported last.
static GREETED: [(&str, &str); 8] = [
    ("", ""),
    (" --epoch 50 --mix 7", ""),
    (" --epoch 50 --sets 1 --ways 1", ""),
    (
        " --epoch 200 --cuts 1700 --tears 0",
        "cut 1 at cycle 1700\n",
    ),
    (
        " --epoch 200 --cuts 1700,2300 --tears 1",
        "cut 2 at cycle 2300\n",
    ),
    (
        " --epoch 50 --cuts 900,1300,1700,2100 --tears 5,0,1,9",
        "cut 4 at cycle 2100\n",
    ),
    (
        " --epoch 50 --cuts 900,1300,1700,2100 --tears 5,0,1,9 --mix 3 --nvmq 2",
        "cut 4 at cycle 2100\n",
    ),
    (
        " --epoch 50 --cuts 900,1300,1700,2100 --tears 5,0,1,9 --high 0 --low 0",
        "cut 4 at cycle 2100\n",
    ),
];

/// Runs it with these options: its last cut is reported, and it prints its lines once.
fn expect_greeting(rt: &impl Abort, alloc: Global, options: &str, cut: &str) {
    let line = format!(in alloc;
        "thynvm run G --input W --pages 8 --btt 8 --ptt 8{options}"
    ).expect(rt, "memory");
    let given = ran(rt, alloc, line.as_str());
    let is_cut = has(&given.report, cut);
    let ends_so = ends(&given, GREETING, "\nexit 5 at 666\n");
    check(rt, is_cut && ends_so, line.as_str());
}

#[test]
fn ten_lines_are_printed_over_several_epochs_and_cuts(rt: HostRuntime) {
    let alloc = rt.alloc();
    for (options, cut) in &GREETED {
        expect_greeting(&rt, alloc, options, cut);
    }
}

/// Runs whose terminal fails at its first bytes, with the report: the cycle's lines, and then that it failed.
static UNSEEN: [(&str, &str); 3] = [
    (
        "thynvm run H --pages 8 --btt 8 --ptt 8",
        "commit 0 overlapped 0\nepoch 1 ends at 8 by end\ncommit 1 overlapped 0\nexit 3 at 8\nterminal failed\n",
    ),
    (
        "thynvm run H --pages 8 --btt 8 --ptt 8 --epoch 6",
        "commit 0 overlapped 0\nepoch 1 ends at 6 by length\ncommit 1 overlapped 2\nterminal failed\n",
    ),
    ("thynvm plain H", "exit 3 at 8\nterminal failed\n"),
];

/// Calls over these programs and a terminal that fails.
fn expect_unseen(rt: &impl Abort, alloc: Global, line: &str, report: &str) {
    let mut shelf = programs(rt, alloc);
    let mut nvm = MemNvm::new(alloc);
    let given = called_over(rt, alloc, line, &mut shelf, &[1], &[], &mut nvm);
    compare(rt, line, &given, 6, "", report);
}

#[test]
fn a_terminal_that_fails_is_reported(rt: HostRuntime) {
    let alloc = rt.alloc();
    for (line, report) in &UNSEEN {
        expect_unseen(&rt, alloc, line, report);
    }
}
