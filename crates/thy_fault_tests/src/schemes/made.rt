//! Runs of made programs.
use crate::support::by_scheme::{JOURNAL, SCHEMES, SHADOW, line_of};
use crate::support::calls::{called, check, expect_on};
use std::alloc::Global;
use std::process::Abort;
use thy_out::MemShelf;
use thy_test_support::Given;

/// A shelf with nothing on it.
fn empty(alloc: Global) -> MemShelf {
    MemShelf::new(Vec::new(alloc), Vec::new(alloc))
}

/// The schemes, with a size by which an entry of the journal, or a frame of shadow paging, is always free in runs of a
/// made program. For 256 pages no more than 256 of the 512 frames are used, and the cache has 64 lines.
static SIZES: [(&str, &str); 2] = [(JOURNAL, "--btt 4096"), (SHADOW, "--ptt 512")];

/// Sums of such runs, by their options up to the scheme's word. The hart waits for each checkpoint.
static BENCHES: [(&str, &str); 2] = [
    (
        "--epoch 1000000 --scheme",
        "commit 0 overlapped 0\n\
         epoch 1 ends at 48027 by end\n\
         commit 1 overlapped 0\n\
         exit 128 at 48027\n\
         summary epochs 1 early 0 overlapped 0\n",
    ),
    (
        "--scheme",
        "commit 0 overlapped 0\n\
         epoch 1 ends at 10000 by length\n\
         commit 1 overlapped 0\n\
         epoch 2 ends at 20000 by length\n\
         commit 2 overlapped 0\n\
         epoch 3 ends at 30000 by length\n\
         commit 3 overlapped 0\n\
         epoch 4 ends at 40000 by length\n\
         commit 4 overlapped 0\n\
         epoch 5 ends at 48027 by end\n\
         commit 5 overlapped 0\n\
         exit 128 at 48027\n\
         summary epochs 5 early 0 overlapped 0\n",
    ),
];

/// Runs a made program over an empty shelf.
fn expect_sum(
    rt: &impl Abort,
    alloc: Global,
    scheme: &str,
    sizes: &str,
    options: &str,
    report: &str,
) {
    let line = format!(in alloc; "thynvm bench 0 {sizes} {options} {scheme}").expect(rt, "memory");
    expect_on(rt, alloc, line.as_str(), &mut empty(alloc), 0, report);
}

#[test]
fn runs_of_a_made_program_are_summed_up(rt: HostRuntime) {
    let alloc = rt.alloc();
    for (scheme, sizes) in &SIZES {
        for (options, report) in &BENCHES {
            expect_sum(&rt, alloc, scheme, sizes, options, report);
        }
    }
}

/// Cuts of its run by a scheme, with what they leave; of the last run by each also the size of its tables.
static CUTS: [(&str, &str); 6] = [
    (JOURNAL, " --cuts 20000 --tears 0"),
    (JOURNAL, " --cuts 30000,60000,90000 --tears 7,1,9"),
    (JOURNAL, " --btt 32 --ptt 8 --cuts 25000,70000 --tears 1,0"),
    (SHADOW, " --cuts 20000 --tears 0"),
    (SHADOW, " --cuts 30000,60000,90000 --tears 7,1,9"),
    (SHADOW, " --btt 32 --ptt 24 --cuts 25000,70000 --tears 1,0"),
];

/// Runs the program under OUT with these cuts, and compares its end.
fn expect_end(rt: &impl Abort, alloc: Global, shelf: &mut MemShelf, scheme: &str, cuts: &str) {
    let line = line_of(rt, alloc, "thynvm run OUT --scheme", scheme, cuts);
    let given = called(rt, alloc, line.as_str(), shelf);
    let ends = given.report.as_slice().ends_with(b"\nexit 128 at 48027\n");
    check(rt, given.status == 0 && ends, line.as_str());
}

#[test]
fn a_made_program_ends_alike_wherever_it_is_cut(rt: HostRuntime) {
    let alloc = rt.alloc();
    let mut shelf = empty(alloc);
    let line = "thynvm make 0 OUT";
    expect_on(&rt, alloc, line, &mut shelf, 0, "made 0 24148\n");
    for (scheme, cuts) in &CUTS {
        expect_end(&rt, alloc, &mut shelf, scheme, cuts);
    }
}

/// Calls over an empty shelf and a new device.
fn ran(rt: &impl Abort, alloc: Global, line: &str) -> Given {
    called(rt, alloc, line, &mut empty(alloc))
}

/// What follows the scheme's word.
const OPTIONS: &str = " --mix 11 --cuts 20000,90000 --tears 5,6 --epoch 3000 --digest";

/// Runs a made program twice, and compares the reports.
fn expect_the_same(rt: &impl Abort, alloc: Global, scheme: &str) {
    let line = line_of(rt, alloc, "thynvm bench 7 --scheme", scheme, OPTIONS);
    let one = ran(rt, alloc, line.as_str());
    let other = ran(rt, alloc, line.as_str());
    check(rt, one.report == other.report, line.as_str());
}

#[test]
fn equal_words_give_equal_reports(rt: HostRuntime) {
    for scheme in &SCHEMES {
        expect_the_same(&rt, rt.alloc(), scheme);
    }
}
