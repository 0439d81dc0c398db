//! Comparisons: one program by each scheme in turn, with the lines, events and cycles of all three, worked out by hand.
//!
//! With eight pages and tables of eight entries, loading writes 512 homes, a slot, the header and the commit block. A slot
//! has six blocks in the journal's layout and in that of shadow paging, and eight in thynvm's.
use crate::runs::programs::shelf;
use crate::runs::{
    answered, called, called_over, check, compare, expect, expect_cycles, expect_on, ran,
};
use std::alloc::Global;
use std::process::Abort;
use thy_base::{Nvm, SchemeName};
use thy_cli::Answer;
use thy_isa::{MachState, Status};
use thy_nvm::MemNvm;
use thy_out::{MemShelf, MemSink};
use thy_test_support::{Given, READ_INPUT, has, shelf_of};
use thy_text::{Event, write_ended};

/// The lines of a program that ends in its first epoch and stores nothing: each checkpoint is a slot and a commit block.
const THYNVM: &str = "scheme thynvm epochs 1 early 0 overlapped 0 writes 531\n";

const ALL: &str = "scheme thynvm epochs 1 early 0 overlapped 0 writes 531\n\
     scheme journal epochs 1 early 0 overlapped 0 writes 527\n\
     scheme shadow epochs 1 early 0 overlapped 0 writes 527\n";

/// Comparisons in which nothing fails: status, cycles and report. With a gap of one each barrier writes two blocks more: four
/// barriers in a run of one epoch; with nine stores eight, seven and six.
static REPORTS: [(&str, u8, u64, &str); 6] = [
    ("thynvm compare F --pages 8 --btt 8 --ptt 8", 0, 716, ALL),
    (
        "thynvm compare F --pages 8 --btt 8 --ptt 8 --limit 721",
        8,
        721,
        "limit 721\n",
    ),
    (
        "thynvm compare F --pages 8 --btt 8 --ptt 8 --limit 722 --digest",
        0,
        716,
        ALL,
    ),
    (
        "thynvm compare F --pages 8 --btt 8 --ptt 8 --limit 715",
        8,
        715,
        "limit 715\n",
    ),
    (
        "thynvm compare F --pages 8 --btt 8 --ptt 8 --gap 1",
        0,
        716,
        "scheme thynvm epochs 1 early 0 overlapped 0 writes 539\n\
         scheme journal epochs 1 early 0 overlapped 0 writes 535\n\
         scheme shadow epochs 1 early 0 overlapped 0 writes 535\n",
    ),
    (
        "thynvm compare H --pages 8 --btt 8 --ptt 8",
        3,
        0,
        "fetch H missing\n",
    ),
];

#[test]
fn each_scheme_has_its_line(rt: HostRuntime) {
    let alloc = rt.alloc();
    for (line, status, cycles, report) in &REPORTS {
        expect_cycles(&rt, alloc, line, *status, *cycles, report);
    }
}

/// Nine stores to nine blocks of a page: thynvm and the journal have entries for eight. thynvm writes three checkpoints of
/// nine blocks, eight blocks to their other places, the same eight home, and the ninth. The journal writes eight, a slot, a
/// commit block and the eight home, and then one, a slot and a commit block. Shadow paging writes the page twice.
static NINE_STORES: [(&str, &str); 2] = [
    (
        "thynvm compare N --pages 8 --btt 8 --ptt 8",
        "scheme thynvm epochs 3 early 2 overlapped 0 writes 566\n\
         scheme journal epochs 2 early 1 overlapped 0 writes 551\n\
         scheme shadow epochs 2 early 1 overlapped 0 writes 662\n",
    ),
    (
        "thynvm compare N --pages 8 --btt 8 --ptt 8 --gap 1",
        "scheme thynvm epochs 3 early 2 overlapped 0 writes 582\n\
         scheme journal epochs 2 early 1 overlapped 0 writes 565\n\
         scheme shadow epochs 2 early 1 overlapped 0 writes 674\n",
    ),
];

#[test]
fn nine_stores_cost_each_scheme_its_writes(rt: HostRuntime) {
    let alloc = rt.alloc();
    for (line, report) in &NINE_STORES {
        expect(&rt, alloc, line, 0, report);
    }
}

#[test]
fn a_program_that_traps_is_compared_to_the_end(rt: HostRuntime) {
    let line = "thynvm compare Z --pages 8 --btt 8 --ptt 8";
    expect(&rt, rt.alloc(), line, 1, ALL);
}

/// Arguments that are refused.
static REFUSALS: [(&str, u8, &str); 9] = [
    ("thynvm compare", 2, "usage\n"),
    ("thynvm compare F --cuts 5", 2, "usage\n"),
    ("thynvm compare F --tears 1", 2, "usage\n"),
    ("thynvm compare F --save D", 2, "usage\n"),
    ("thynvm compare F --scheme journal", 2, "usage\n"),
    ("thynvm compare F --pages 7", 2, "value pages 7\n"),
    ("thynvm compare F --mix x", 2, "word mix\n"),
    ("thynvm compare G", 4, "file 1 TooShort\n"),
    ("thynvm compare F --input I", 3, "fetch I missing\n"),
];

#[test]
fn what_is_not_compared_has_its_line(rt: HostRuntime) {
    let alloc = rt.alloc();
    for (line, status, report) in &REFUSALS {
        expect(&rt, alloc, line, *status, report);
    }
}

/// Calls of the shelf that fail, the first being 1: file and input are fetched once, so there is no third.
static FETCHES: [(u64, u8, &str); 3] = [
    (1, 3, "fetch F failed\n"),
    (2, 3, "fetch S failed\n"),
    (3, 0, ALL),
];

/// Compares over a shelf that fails at this call.
fn expect_fetch(rt: &impl Abort, alloc: Global, failing: u64, status: u8, report: &str) {
    let line = "thynvm compare F --input S --pages 8 --btt 8 --ptt 8";
    expect_on(
        rt,
        alloc,
        line,
        &mut shelf(rt, alloc, &[failing]),
        status,
        report,
    );
}

#[test]
fn file_and_input_are_fetched_once(rt: HostRuntime) {
    let alloc = rt.alloc();
    for (failing, status, report) in &FETCHES {
        expect_fetch(&rt, alloc, *failing, *status, report);
    }
}

/// Calls with the arguments over the files of these tests, with this device and sinks that fail at these calls.
fn called_with(
    rt: &impl Abort,
    alloc: Global,
    line: &str,
    unseen: &[u64],
    unreported: &[u64],
    nvm: &mut MemNvm,
) -> Given {
    called_over(
        rt,
        alloc,
        line,
        &mut shelf(rt, alloc, &[]),
        unseen,
        unreported,
        nvm,
    )
}

#[test]
fn the_terminal_has_the_console_once(rt: HostRuntime) {
    let line = "thynvm compare P --pages 8 --btt 8 --ptt 8";
    let given = ran(&rt, rt.alloc(), line);
    let is_shown = given.printed.as_slice() == b"Hi\n".as_slice();
    check(&rt, given.status == 0 && is_shown, line);
}

/// The console is shown in the cycle in which the program ends, so the run has ended when the terminal fails.
#[test]
fn a_terminal_that_fails_ends_the_comparison(rt: HostRuntime) {
    let alloc = rt.alloc();
    let line = "thynvm compare P --pages 8 --btt 8 --ptt 8";
    let mut nvm = MemNvm::new(alloc);
    let given = called_with(&rt, alloc, line, &[1], &[], &mut nvm);
    let report = given.report.as_slice();
    check(&rt, given.status == 6 && given.printed.is_empty(), line);
    check(&rt, report.starts_with(b"scheme thynvm "), line);
    check(&rt, report.ends_with(b"\nterminal failed\n"), line);
    check(&rt, !has(report, "scheme journal"), line);
}

/// The report refuses the first line, and then the second. Of the run whose line it refuses the events are there; no other run
/// begins.
#[test]
fn a_report_that_fails_ends_the_comparison(rt: HostRuntime) {
    let alloc = rt.alloc();
    let line = "thynvm compare F --pages 8 --btt 8 --ptt 8";
    let mut nvm = MemNvm::new(alloc);
    let given = called_with(&rt, alloc, line, &[], &[1], &mut nvm);
    compare(&rt, line, &given, 6, "", "");
    check(&rt, given.cycles == 722 && nvm.writes() == 531, line);
    let mut nvm = MemNvm::new(alloc);
    let given = called_with(&rt, alloc, line, &[], &[2], &mut nvm);
    compare(&rt, line, &given, 6, "", THYNVM);
    check(&rt, nvm.writes() == 527, line);
}

/// The run by thynvm makes 1162 calls of its device: 715 in cycles, and then one for each of the 448 blocks of program
/// memory but the one in the cache, for the last state. The next one is the first of the journal's run, in its first cycle.
static FAILURES: [(u64, u64, &str); 2] = [
    (1162, 721, "nvm failed\n"),
    (
        1163,
        0,
        "scheme thynvm epochs 1 early 0 overlapped 0 writes 531\nnvm failed\n",
    ),
];

/// Compares over a device that fails.
fn expect_failed(rt: &impl Abort, alloc: Global, nvm: &mut MemNvm, cycles: u64, report: &str) {
    let line = "thynvm compare F --pages 8 --btt 8 --ptt 8";
    let given = called_with(rt, alloc, line, &[], &[], nvm);
    compare(rt, report, &given, 7, "", report);
    check(rt, given.cycles == cycles, report);
}

/// Compares over a device that fails at this call, and over one that fails late.
fn expect_failing(rt: &impl Abort, alloc: Global, call: u64, cycles: u64, report: &str) {
    let mut nvm = MemNvm::failing(alloc, &[call]).expect(rt, "memory");
    expect_failed(rt, alloc, &mut nvm, cycles, report);
    let mut nvm = MemNvm::late(alloc, &[call]).expect(rt, "memory");
    expect_failed(rt, alloc, &mut nvm, cycles, report);
}

#[test]
fn a_device_that_fails_ends_the_comparison(rt: HostRuntime) {
    let alloc = rt.alloc();
    for (call, cycles, report) in &FAILURES {
        expect_failing(&rt, alloc, *call, *cycles, report);
    }
}

/// An event, by its kind, and a number of it.
fn kind_of(event: &Event) -> (&'static str, u64) {
    match event {
        Event::Scheme { number } => ("scheme", *number),
        Event::EpochEnd { epoch, .. } => ("end of epoch", *epoch),
        Event::Commit { epoch, .. } => ("commit", *epoch),
        Event::Cut { index, .. } => ("cut", *index),
        Event::Restart { epoch, .. } => ("restart", *epoch),
        Event::Reload => ("reload", 0),
        Event::Ended { count, .. } => ("end", *count),
    }
}

/// The events of the program that exits with 7, in a run by each scheme.
static EVENTS: [(&str, u64); 15] = [
    ("scheme", 0),
    ("commit", 0),
    ("end of epoch", 1),
    ("commit", 1),
    ("end", 3),
    ("scheme", 1),
    ("commit", 0),
    ("end of epoch", 1),
    ("commit", 1),
    ("end", 3),
    ("scheme", 2),
    ("commit", 0),
    ("end of epoch", 1),
    ("commit", 1),
    ("end", 3),
];

/// Comparisons, and how many of these events they have: a run that is not begun has none.
static PARTS: [(&str, usize); 3] = [
    ("thynvm compare F --pages 8 --btt 8 --ptt 8", 15),
    ("thynvm compare F --pages 8 --btt 8 --ptt 8 --limit 721", 3),
    ("thynvm compare H --pages 8 --btt 8 --ptt 8", 0),
];

/// Whether the events of an answer are the first ones of these.
fn are_first(answer: &Answer) -> bool {
    for i in 0..answer.events.len() {
        if i < EVENTS.len() && kind_of(answer.events.get(i)) != EVENTS[i] {
            return false;
        }
    }
    true
}

/// Compares, and tests the events.
fn expect_events(rt: &impl Abort, alloc: Global, line: &str, many: usize) {
    let answer = answered(rt, alloc, line, &mut shelf(rt, alloc, &[]));
    check(rt, answer.events.len() == many, line);
    check(rt, are_first(&answer), line);
}

#[test]
fn each_run_begins_with_its_scheme(rt: HostRuntime) {
    let alloc = rt.alloc();
    for (line, many) in &PARTS {
        expect_events(&rt, alloc, line, *many);
    }
}

/// How many runs of an answer exited with 4 and have read four bytes; none if one did not.
fn exits_with_four(answer: &Answer) -> u64 {
    let mut ends = 0_u64;
    for i in 0..answer.events.len() {
        if let Event::Ended { status, state, .. } = answer.events.get(i) {
            if *status != Status::Exited(4) || state.cursor != 4 {
                return 0;
            }
            ends = ends.wrapping_add(1);
        }
    }
    ends
}

/// The program that reads up to ten bytes of its input exits with how many it was given.
#[test]
fn each_run_reads_the_same_input(rt: HostRuntime) {
    let alloc = rt.alloc();
    let mut shelf = shelf_of(alloc, &[("R", READ_INPUT)], &[("A", b"abcd")]).expect(&rt, "memory");
    let line = "thynvm compare R --input A --pages 8 --btt 8 --ptt 8";
    let answer = answered(&rt, alloc, line, &mut shelf);
    check(&rt, exits_with_four(&answer) == 3, line);
}

/// Whether two states are one in all that a program sees.
fn is_same(a: &MachState, b: &MachState) -> bool {
    a.pc == b.pc
        && a.regs == b.regs
        && a.count == b.count
        && a.status == b.status
        && a.cursor == b.cursor
        && a.brk == b.brk
        && a.memory.as_slice() == b.memory.as_slice()
        && a.console.as_slice() == b.console.as_slice()
}

/// Whether a state is reported as the plain machine reported its own last one: how it has ended, and the digest of
/// memory.
fn is_reported_so(rt: &impl Abort, alloc: Global, state: &MachState, plain: &[u8]) -> bool {
    let mut report = MemSink::new(alloc, 65_536, Vec::new(alloc)).expect(rt, "memory");
    let is_written = write_ended(state, true, &mut report).is_ok();
    is_written && report.taken() == plain
}

/// Whether the last states of an answer's runs before event `i` are this one.
fn are_the_same(answer: &Answer, i: usize, state: &MachState) -> bool {
    for k in 0..i {
        if k < answer.events.len() {
            if let Event::Ended { state: other, .. } = answer.events.get(k) {
                if !is_same(state, other) {
                    return false;
                }
            }
        }
    }
    true
}

/// Compares the last states of an answer's runs with one another, and with the plain machine's. Returns how many there are.
fn compare_ends(rt: &impl Abort, alloc: Global, answer: &Answer, plain: &[u8], at: &str) -> u64 {
    let mut ends = 0_u64;
    for i in 0..answer.events.len() {
        if let Event::Ended { state, .. } = answer.events.get(i) {
            check(rt, is_reported_so(rt, alloc, state, plain), at);
            check(rt, are_the_same(answer, i, state), at);
            ends = ends.wrapping_add(1);
        }
    }
    ends
}

/// Compares the last states of a made program's runs.
fn expect_one_end(rt: &impl Abort, alloc: Global, number: u64, options: &str) {
    let made = format!(in alloc; "thynvm make {number} M").expect(rt, "memory");
    let line = format!(in alloc; "thynvm compare M {options}").expect(rt, "memory");
    let mut shelf = MemShelf::new(Vec::new(alloc), Vec::new(alloc));
    called(rt, alloc, made.as_str(), &mut shelf);
    let plain = called(rt, alloc, "thynvm plain M --digest", &mut shelf);
    let answer = answered(rt, alloc, line.as_str(), &mut shelf);
    let ends = compare_ends(rt, alloc, &answer, plain.report.as_slice(), line.as_str());
    check(rt, ends == 3 && answer.status == 0, line.as_str());
}

/// Made programs by their numbers, and options of their comparisons.
static MADE: [(u64, &str); 5] = [
    (0, "--btt 8 --ptt 8 --epoch 2000"),
    (1, "--btt 16 --ptt 8 --epoch 3000 --gap 1 --mix 1"),
    (
        2,
        "--btt 4096 --ptt 512 --epoch 1000000 --mix 2 --sets 1 --ways 1",
    ),
    (7, "--btt 64 --ptt 8 --epoch 1000 --mix 3 --high 3 --low 2"),
    (
        4_294_967_295,
        "--btt 16 --ptt 16 --epoch 5000 --gap 7 --mix 4 --high 63",
    ),
];

#[test]
fn made_programs_end_as_on_the_plain_machine(rt: HostRuntime) {
    let alloc = rt.alloc();
    for (number, options) in &MADE {
        expect_one_end(&rt, alloc, *number, options);
    }
}

#[test]
fn a_scheme_is_called_by_its_name_and_number(rt: HostRuntime) {
    for (scheme, name, number) in [
        (SchemeName::Thynvm, "thynvm", 0),
        (SchemeName::Journal, "journal", 1),
        (SchemeName::Shadow, "shadow", 2),
    ] {
        check(
            &rt,
            scheme.name() == name && scheme.number() == number,
            name,
        );
    }
}
