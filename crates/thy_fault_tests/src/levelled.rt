//! Runs with levelled wear, compared with the same runs without.
use crate::support::calls::{called, called_over, check, expect, held, ran};
use crate::support::programs::shelf;
use std::alloc::Global;
use std::process::Abort;
use thy_base::Nvm;
use thy_nvm::MemNvm;
use thy_test_support::Given;

/// Runs of the program that exits with 7, with the report.
static ROWS: [(&str, &str); 3] = [
    (
        "thynvm run F --pages 8 --btt 8 --ptt 8 --gap 1",
        "commit 0 overlapped 0\nepoch 1 ends at 3 by end\ncommit 1 overlapped 0\nexit 7 at 3\n",
    ),
    (
        "thynvm run F --pages 8 --btt 8 --ptt 8 --cuts 721 --tears 0 --gap 1",
        "commit 0 overlapped 0\n\
         epoch 1 ends at 3 by end\n\
         cut 1 at cycle 721\n\
         restart 0 at 0\n\
         epoch 1 ends at 3 by end\n\
         commit 1 overlapped 0\n\
         exit 7 at 3\n",
    ),
    (
        "thynvm run F --pages 8 --btt 8 --ptt 8 --cuts 721 --tears 1 --gap 1",
        "commit 0 overlapped 0\nepoch 1 ends at 3 by end\ncut 1 at cycle 721\nrestart 1 at 3\nexit 7 at 3\n",
    ),
];

#[test]
fn a_run_with_a_gap_has_its_report(rt: HostRuntime) {
    let alloc = rt.alloc();
    for (line, report) in &ROWS {
        expect(&rt, alloc, line, 0, report);
    }
    let line = "thynvm run F --pages 8 --btt 8 --ptt 8 --gap 1";
    let whole = ran(&rt, alloc, line);
    check(&rt, whole.cycles == 722, line);
}

/// A gap in its place among the options: words that are refused, with the report.
static REFUSALS: [(&str, &str); 7] = [
    ("thynvm run F --gap 1000001", "value gap 1000001\n"),
    ("thynvm run F --gap x", "word gap\n"),
    ("thynvm run F --gap", "usage\n"),
    ("thynvm run F --gap 1 --gap 1", "usage\n"),
    ("thynvm run F --gap 1000001 --limit 0", "value limit 0\n"),
    ("thynvm run F --gap x --limit y", "word limit\n"),
    ("thynvm plain F --gap 1", "usage\n"),
];

#[test]
fn a_gap_is_read_behind_the_limit(rt: HostRuntime) {
    let alloc = rt.alloc();
    for (line, report) in &REFUSALS {
        expect(&rt, alloc, line, 2, report);
    }
    let line = "thynvm run F --pages 8 --gap 1000000";
    let given = ran(&rt, alloc, line);
    check(&rt, given.status == 0, line);
}

/// What a run gave, what it put under I, and how many writes its device took.
#[derive(Drop)]
struct Saved {
    given: Given,
    image: Vec<u8>,
    writes: u64,
}

/// Runs a line with a gap and saves it under I.
fn run_and_save(rt: &impl Abort, alloc: Global, line: &str, gap: u64) -> Saved {
    let line = format!(in alloc; "{line} --save I --gap {gap}").expect(rt, "memory");
    let mut shelf = shelf(rt, alloc, &[]);
    let mut nvm = MemNvm::new(alloc);
    let given = called_over(rt, alloc, line.as_str(), &mut shelf, &mut nvm);
    Saved {
        given,
        image: held(rt, alloc, &mut shelf, "I"),
        writes: nvm.writes(),
    }
}

/// Whether two runs gave the same.
fn alike(one: &Given, other: &Given) -> bool {
    one.status == other.status
        && one.cycles == other.cycles
        && one.printed.as_slice() == other.printed.as_slice()
        && one.report.as_slice() == other.report.as_slice()
}

/// Compares a run with the same run without a gap: status, cycles, terminal, report and saved image.
fn compare_runs(rt: &impl Abort, alloc: Global, line: &str, gap: u64) {
    let bare = run_and_save(rt, alloc, line, 0);
    let levelled = run_and_save(rt, alloc, line, gap);
    check(rt, alike(&bare.given, &levelled.given), line);
    check(rt, bare.image.as_slice() == levelled.image.as_slice(), line);
}

/// How many writes the device of a run takes.
fn writes_of(rt: &impl Abort, alloc: Global, line: &str, gap: u64) -> u64 {
    run_and_save(rt, alloc, line, gap).writes
}

/// A move copies a line and writes the registers. The program that exits with 7 has four barriers, each after a write.
#[test]
fn each_barrier_moves_a_line_where_the_gap_is_one(rt: HostRuntime) {
    let alloc = rt.alloc();
    let line = "thynvm run F --pages 8 --btt 8 --ptt 8";
    let bare = writes_of(&rt, alloc, line, 0);
    let levelled = writes_of(&rt, alloc, line, 1);
    let rare = writes_of(&rt, alloc, line, 1_000_000);
    check(&rt, levelled == bare.saturating_add(8), line);
    check(&rt, rare == bare, line);
}

/// A cut at a cycle, which leaves as this pick says: the run is the same without a gap.
fn compare_cut(rt: &impl Abort, alloc: Global, run: &str, cycle: u64, tear: u64, gap: u64) {
    let line = format!(in alloc; "{run} --cuts {cycle} --tears {tear},1").expect(rt, "memory");
    compare_runs(rt, alloc, line.as_str(), gap);
}

/// A cut at every `step` cycles, after which no write lands, or each one does.
fn compare_cuts(rt: &impl Abort, alloc: Global, run: &str, step: u64, gap: u64) {
    let whole = ran(rt, alloc, run).cycles;
    for cycle in 1..whole {
        if cycle.is_multiple_of(step) {
            compare_cut(rt, alloc, run, cycle, 0, gap);
            compare_cut(rt, alloc, run, cycle, 1, gap);
        }
    }
}

#[test]
fn a_cut_anywhere_leaves_the_same(rt: HostRuntime) {
    let run = "thynvm run F --pages 8 --btt 8 --ptt 8";
    compare_cuts(&rt, rt.alloc(), run, 1, 1);
}

#[test]
fn a_cut_of_exhausted_epochs_leaves_the_same(rt: HostRuntime) {
    let run = "thynvm run N --pages 8 --btt 8 --ptt 8";
    compare_cuts(&rt, rt.alloc(), run, 5, 1);
}

#[test]
fn a_cut_of_a_page_in_the_dram_leaves_the_same(rt: HostRuntime) {
    let run = "thynvm run D --pages 8 --btt 8 --ptt 8 --sets 1 --ways 1 --high 0 --low 0";
    compare_cuts(&rt, rt.alloc(), run, 7, 3);
}

/// Made programs, with schedules by seeds and with cuts.
static MADE: [&str; 4] = [
    "thynvm bench 1 --cuts 30000,90001 --tears 1,0 --mix 3",
    "thynvm bench 2 --epoch 700 --cuts 20000,20001,77777 --tears 0,1,1 --mix 4",
    "thynvm bench 3 --high 4 --low 2 --epoch 3000 --cuts 66666 --limit 150000 --mix 5",
    "thynvm bench 4 --btt 64 --ptt 8 --high 1 --low 0 --epoch 2000 --cuts 55555,99999 --tears 0,1,1",
];

#[test]
fn made_programs_run_alike(rt: HostRuntime) {
    let alloc = rt.alloc();
    for line in &MADE {
        compare_runs(&rt, alloc, line, 1);
        compare_runs(&rt, alloc, line, 100);
    }
}

/// Resumes with another gap what a run with this one has saved under I.
fn resumed(rt: &impl Abort, alloc: Global, gap: u64, other: u64) -> Given {
    let first = format!(in alloc;
        "thynvm run N --pages 8 --btt 8 --ptt 8 --limit 800 --save I --gap {gap}"
    ).expect(rt, "memory");
    let second = format!(in alloc;
        "thynvm resume I --pages 8 --btt 8 --ptt 8 --gap {other}"
    ).expect(rt, "memory");
    let mut shelf = shelf(rt, alloc, &[]);
    called(rt, alloc, first.as_str(), &mut shelf);
    called(rt, alloc, second.as_str(), &mut shelf)
}

/// Compares it with a run that has no gap at all.
fn resume_alike(rt: &impl Abort, alloc: Global, gap: u64, other: u64, bare: &Given, at: &str) {
    let given = resumed(rt, alloc, gap, other);
    check(rt, alike(&given, bare), at);
}

#[test]
fn what_was_saved_with_a_gap_is_resumed_without(rt: HostRuntime) {
    let alloc = rt.alloc();
    let bare = resumed(&rt, alloc, 0, 0);
    let ends = bare.report.as_slice().ends_with(b"exit 0 at 11\n");
    check(&rt, bare.status == 0 && ends, "without a gap");
    resume_alike(&rt, alloc, 1, 0, &bare, "gap 1, then none");
    resume_alike(&rt, alloc, 0, 1, &bare, "no gap, then 1");
    resume_alike(&rt, alloc, 1, 2, &bare, "gap 1, then 2");
}
