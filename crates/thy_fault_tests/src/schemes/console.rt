//! Programs that print and that read: what the terminal takes and memory is, through cuts, saves and failures.
use crate::support::by_scheme::{Row, SCHEMES, expect_by_each, expect_rows, line_of};
use crate::support::calls::{called_unseen, check, compare, ran};
use crate::support::programs::shelf;
use std::alloc::Global;
use std::process::Abort;
use thy_nvm::MemNvm;

/// What is reported of the program that prints.
const PRINTS: &str =
    "commit 0 overlapped 0\nepoch 1 ends at 8 by end\ncommit 1 overlapped 0\nexit 3 at 8\n";

/// Runs of it, up to the scheme's word: in the memory that is used by default and in the smallest one, with caches of 64
/// lines and of one.
static PRINTED: [&str; 3] = [
    "thynvm run P --scheme=",
    "thynvm run P --pages 8 --btt 8 --ptt 8 --scheme ",
    "thynvm run P --pages 8 --btt 8 --ptt 8 --sets 1 --ways 1 --scheme ",
];

/// Runs a line by its parts, and compares what is printed and reported.
fn expect_printed(rt: &impl Abort, alloc: Global, call: &str, scheme: &str) {
    let line = format!(in alloc; "{call}{scheme}").expect(rt, "memory");
    let given = ran(rt, alloc, line.as_str());
    compare(rt, line.as_str(), &given, 0, "Hi\n", PRINTS);
}

#[test]
fn the_terminal_shows_what_was_committed(rt: HostRuntime) {
    let alloc = rt.alloc();
    for scheme in &SCHEMES {
        for call in &PRINTED {
            expect_printed(&rt, alloc, call, scheme);
        }
    }
}

/// What is reported of it if the terminal fails.
const UNSEEN: &str = "commit 0 overlapped 0\n\
     epoch 1 ends at 8 by end\n\
     commit 1 overlapped 0\n\
     exit 3 at 8\n\
     terminal failed\n";

/// Runs it over a terminal that fails.
fn expect_unseen(rt: &impl Abort, alloc: Global, scheme: &str) {
    let line = line_of(
        rt,
        alloc,
        "thynvm run P --pages 8 --btt 8 --ptt 8 --scheme",
        scheme,
        "",
    );
    let mut shelf = shelf(rt, alloc, &[]);
    let mut nvm = MemNvm::new(alloc);
    let given = called_unseen(rt, alloc, line.as_str(), &mut shelf, &mut nvm, &[1]);
    compare(rt, line.as_str(), &given, 6, "", UNSEEN);
}

#[test]
fn a_terminal_that_fails_is_reported(rt: HostRuntime) {
    for scheme in &SCHEMES {
        expect_unseen(&rt, rt.alloc(), scheme);
    }
}

/// Runs that read, up to the scheme's word and after it, and how they end: with four bytes at the start's sp, or with
/// none. Of memory the SHA-256 is reported, computed by another program.
static READ: [(&str, &str, &str); 6] = [
    ("thynvm run R --scheme", " --input A", "\nexit 4 at 6\n"),
    ("thynvm run R --scheme", " --input Z", "\nexit 0 at 6\n"),
    (
        "thynvm run R --pages 8 --btt 8 --ptt 8 --scheme",
        " --input A --digest",
        "\nexit 4 at 6\nmemory f5d1994aecdd1db5eb815e0e77ab69b7b00a1de9be36087d0d3beb9e74c815c6\n",
    ),
    (
        "thynvm run R --pages 8 --btt 8 --ptt 8 --scheme",
        " --input A --digest --sets 1 --ways 1",
        "\nexit 4 at 6\nmemory f5d1994aecdd1db5eb815e0e77ab69b7b00a1de9be36087d0d3beb9e74c815c6\n",
    ),
    (
        "thynvm run R --pages 8 --btt 8 --ptt 8 --scheme",
        " --digest",
        "\nexit 0 at 6\nmemory 20d3aa3a6487303d74badebb39b24850e7259a141f087ba621dfb205afc9af6a\n",
    ),
    (
        "thynvm run R --pages 8 --btt 8 --ptt 8 --scheme",
        " --input A --digest --epoch 2 --cuts 710,740 --tears 0,1",
        "\nexit 4 at 6\nmemory f5d1994aecdd1db5eb815e0e77ab69b7b00a1de9be36087d0d3beb9e74c815c6\n",
    ),
];

/// Runs a line by its parts, and compares the end of its report.
fn expect_end(rt: &impl Abort, alloc: Global, call: &str, scheme: &str, options: &str, end: &str) {
    let line = line_of(rt, alloc, call, scheme, options);
    let given = ran(rt, alloc, line.as_str());
    let is_so = given.status == 0
        && given.printed.is_empty()
        && given.report.as_slice().ends_with(end.as_bytes());
    check(rt, is_so, line.as_str());
}

#[test]
fn an_input_is_read_also_through_cuts(rt: HostRuntime) {
    let alloc = rt.alloc();
    for scheme in &SCHEMES {
        for (call, options, end) in &READ {
            expect_end(&rt, alloc, call, scheme, options, end);
        }
    }
}

/// A save of a run that reads is asked for, and the image is resumed with each of its inputs.
static SAVED: [Row; 3] = [
    (
        "thynvm run R --scheme",
        " --input A --save D",
        0,
        "commit 0 overlapped 0\nepoch 1 ends at 6 by end\ncommit 1 overlapped 0\nexit 4 at 6\n",
    ),
    ("thynvm resume D --scheme", " --input B", 10, "input 4 2\n"),
    (
        "thynvm resume D --scheme",
        " --input A",
        0,
        "restart 1 at 6\nexit 4 at 6\n",
    ),
];

#[test]
fn a_resumed_program_wants_the_input_that_it_has_read(rt: HostRuntime) {
    for scheme in &SCHEMES {
        expect_rows(&rt, rt.alloc(), scheme, &[], &SAVED);
    }
}

static NOT_PUT: [Row; 1] = [(
    "thynvm run R --scheme",
    " --input A --save D",
    3,
    "commit 0 overlapped 0\n\
     epoch 1 ends at 6 by end\n\
     commit 1 overlapped 0\n\
     exit 4 at 6\n\
     put D failed\n",
)];

/// The shelf's third call is the put, after the fetches of the program and of its input.
#[test]
fn a_save_that_is_not_put_has_its_line(rt: HostRuntime) {
    for scheme in &SCHEMES {
        expect_rows(&rt, rt.alloc(), scheme, &[3], &NOT_PUT);
    }
}

/// A cut that leaves the checkpoint of the program's end: the digest is reported with both lines.
static DIGEST: [Row; 1] = [(
    "thynvm run F --pages 8 --btt 8 --ptt 8 --scheme",
    " --cuts 714 --tears 1 --digest",
    0,
    "commit 0 overlapped 0\n\
     epoch 1 ends at 3 by end\n\
     cut 1 at cycle 714\n\
     restart 1 at 3\n\
     memory 6deb2f4354900ff2a9411931cbbb227b278920c0a05d7246af55f9487e46505f\n\
     exit 7 at 3\n\
     memory 6deb2f4354900ff2a9411931cbbb227b278920c0a05d7246af55f9487e46505f\n",
)];

#[test]
fn a_digest_is_that_of_another_program(rt: HostRuntime) {
    expect_by_each(&rt, rt.alloc(), &DIGEST);
}
