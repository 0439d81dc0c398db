//! Calls over memory: what is put under OUT, and what is answered if nothing can be put. The words and addresses were worked
//! out by hand from the encodings, the numbers from the rules of the controller.

mod counted;
mod harts;
mod refused;
mod states;
mod torn;
mod traps;

use crate::options::{refuse_window, refuse_word, take_options};
use crate::top::observe;
use std::alloc::Global;
use std::process::Abort;
use thy_base::Shelf;
use thy_nvm::MemNvm;
use thy_observe::Counting;
use thy_out::{MemShelf, MemSink};

/// The headers of a program file of three words at the address 65536.
static HEADERS: [u8; 120] = [
    0x7f, 0x45, 0x4c, 0x46, 0x02, 0x01, 0x01, 0x00, 0x00, 0x00, 0x00, 0x00, 0x00, 0x00, 0x00, 0x00,
    0x02, 0x00, 0xf3, 0x00, 0x01, 0x00, 0x00, 0x00, 0x00, 0x00, 0x01, 0x00, 0x00, 0x00, 0x00, 0x00,
    0x40, 0x00, 0x00, 0x00, 0x00, 0x00, 0x00, 0x00, 0x00, 0x00, 0x00, 0x00, 0x00, 0x00, 0x00, 0x00,
    0x00, 0x00, 0x00, 0x00, 0x40, 0x00, 0x38, 0x00, 0x01, 0x00, 0x00, 0x00, 0x00, 0x00, 0x00, 0x00,
    0x01, 0x00, 0x00, 0x00, 0x07, 0x00, 0x00, 0x00, 0x78, 0x00, 0x00, 0x00, 0x00, 0x00, 0x00, 0x00,
    0x00, 0x00, 0x01, 0x00, 0x00, 0x00, 0x00, 0x00, 0x00, 0x00, 0x01, 0x00, 0x00, 0x00, 0x00, 0x00,
    0x0c, 0x00, 0x00, 0x00, 0x00, 0x00, 0x00, 0x00, 0x0c, 0x00, 0x00, 0x00, 0x00, 0x00, 0x00, 0x00,
    0x04, 0x00, 0x00, 0x00, 0x00, 0x00, 0x00, 0x00,
];

/// `addi a7,zero,93; addi a0,zero,7; ecall`.
pub(crate) static EXIT_SEVEN: [u32; 3] = [0x05d00893, 0x00700513, 0x00000073];

/// What a call gave.
#[derive(Drop)]
struct Given {
    status: u8,
    /// Something is under OUT.
    is_put: bool,
    /// The bytes under OUT.
    put: Vec<u8>,
    report: Vec<u8>,
}

/// Adds bytes to a file.
fn append(rt: &impl Abort, file: &mut Vec<u8>, bytes: &[u8]) {
    file.extend_from_slice(bytes).expect(rt, "memory");
}

/// A program file of these words, from the address 65536 on, at which it starts.
fn file_of(rt: &impl Abort, alloc: Global, words: &[u32]) -> Vec<u8> {
    let size = (words.len() as u64).saturating_mul(4).to_le_bytes();
    let mut file = Vec::from_slice(alloc, &HEADERS[..96]).expect(rt, "memory");
    append(rt, &mut file, &size);
    append(rt, &mut file, &size);
    append(rt, &mut file, &HEADERS[112..]);
    for word in words {
        append(rt, &mut file, &word.to_le_bytes());
    }
    file
}

/// A shelf with the program of these words under the name F. The calls with these numbers fail.
pub(crate) fn shelf_of(rt: &impl Abort, alloc: Global, words: &[u32], failing: &[u64]) -> MemShelf {
    let name = String::from_str(alloc, "F").expect(rt, "memory");
    let mut files = Vec::new(alloc);
    files
        .push((name, file_of(rt, alloc, words)))
        .expect(rt, "memory");
    MemShelf::new(files, Vec::from_slice(alloc, failing).expect(rt, "memory"))
}

/// The arguments of a line, which separates them by spaces.
pub(crate) fn words_of(rt: &impl Abort, alloc: Global, line: &str) -> Vec<String> {
    let mut words = Vec::new(alloc);
    for word in line.split(' ') {
        push_word(rt, alloc, &mut words, word);
    }
    words
}

/// Adds an argument.
fn push_word(rt: &impl Abort, alloc: Global, words: &mut Vec<String>, word: &str) {
    let word = String::from_str(alloc, word).expect(rt, "memory");
    words.push(word).expect(rt, "memory");
}

/// What a sink has taken.
pub(crate) fn taken(rt: &impl Abort, alloc: Global, sink: &MemSink) -> Vec<u8> {
    Vec::from_slice(alloc, sink.taken()).expect(rt, "memory")
}

pub(crate) fn sink(rt: &impl Abort, alloc: Global) -> MemSink {
    MemSink::new(alloc, 4096, Vec::new(alloc)).expect(rt, "memory")
}

/// What a call gave whose options are refused with this status, and with this report.
fn turned_down(rt: &impl Abort, alloc: Global, status: u8, report: &MemSink) -> Given {
    Given {
        status,
        is_put: false,
        put: Vec::new(alloc),
        report: taken(rt, alloc, report),
    }
}

/// Calls with OUT and the arguments, options among them, separated by spaces, over this shelf and this device.
fn called_over(
    rt: &impl Abort,
    alloc: Global,
    out: &str,
    line: &str,
    shelf: &mut MemShelf,
    nvm: MemNvm,
) -> Given {
    let mut words = words_of(rt, alloc, line);
    let mut terminal = sink(rt, alloc);
    let mut report = sink(rt, alloc);
    let options = match take_options(&mut words) {
        Ok(options) => options,
        Err(wish) => {
            let status = refuse_word(wish, &mut report);
            return turned_down(rt, alloc, status, &report);
        }
    };
    if let Some(fault) = options.window_fault() {
        let status = refuse_window(alloc, fault, &mut report);
        return turned_down(rt, alloc, status, &report);
    }
    let mut nvm = Counting::over(alloc, nvm, options.wear);
    let status = observe(
        alloc,
        out,
        options,
        &words,
        shelf,
        &mut terminal,
        &mut report,
        &mut nvm,
    );
    let put = shelf.fetch(alloc, out, 4096);
    let is_put = put.is_ok();
    let put = match put {
        Ok(bytes) => bytes,
        Err(_) => Vec::new(alloc),
    };
    Given {
        status,
        is_put,
        put,
        report: taken(rt, alloc, &report),
    }
}

/// Calls over a device that does not fail, with OUT as O.
fn called_on(rt: &impl Abort, alloc: Global, line: &str, shelf: &mut MemShelf) -> Given {
    called_over(rt, alloc, "O", line, shelf, MemNvm::new(alloc))
}

/// Calls over a shelf with the program of these words.
fn called(rt: &impl Abort, alloc: Global, line: &str, words: &[u32]) -> Given {
    called_on(rt, alloc, line, &mut shelf_of(rt, alloc, words, &[]))
}

/// Stops the test unless this holds of a row, which `at` names.
pub(crate) fn check(rt: &impl Abort, holds: bool, at: &str) {
    assert!(rt; holds, "{at}");
}

/// Whether a text has a line.
fn has_line(text: &[u8], line: &str) -> bool {
    match std::str::from_utf8(text) {
        Ok(text) => text.lines().any(|it| it == line),
        Err(_) => false,
    }
}

/// Whether a line of a text begins with these bytes.
fn has_start(text: &[u8], start: &str) -> bool {
    match std::str::from_utf8(text) {
        Ok(text) => text.lines().any(|it| it.starts_with(start)),
        Err(_) => false,
    }
}

/// Whether a text is another one, and a section after it.
pub(crate) fn ends_with(text: &[u8], head: &str, section: &str) -> bool {
    match text.strip_prefix(head.as_bytes()) {
        Some(rest) => rest == section.as_bytes(),
        None => false,
    }
}

/// The arguments of a call of the program with options.
fn line_of(rt: &impl Abort, alloc: Global, options: &str, call: &str) -> String {
    format!(in alloc; "thynvm {options} {call}").expect(rt, "memory")
}

/// Calls, and compares the status and the whole text that is put.
fn expect_text(rt: &impl Abort, alloc: Global, line: &str, words: &[u32], status: u8, text: &str) {
    let given = called(rt, alloc, line, words);
    check(rt, given.status == status, line);
    check(rt, given.put.as_slice() == text.as_bytes(), line);
}

/// Calls, and compares the status and the text that is put: this text, and a section after it.
fn expect_section(
    rt: &impl Abort,
    alloc: Global,
    line: &str,
    words: &[u32],
    status: u8,
    text: &str,
    section: &str,
) {
    let given = called(rt, alloc, line, words);
    check(rt, given.status == status, line);
    check(rt, ends_with(given.put.as_slice(), text, section), line);
}

/// Calls, and compares the status; nothing is put.
fn expect_nothing(rt: &impl Abort, alloc: Global, line: &str, status: u8) {
    let given = called(rt, alloc, line, &EXIT_SEVEN);
    check(rt, given.status == status && !given.is_put, line);
}

/// Calls, and compares status and report; nothing is put.
fn expect_refused(
    rt: &impl Abort,
    alloc: Global,
    line: &str,
    words: &[u32],
    status: u8,
    report: &str,
) {
    let given = called(rt, alloc, line, words);
    check(rt, given.status == status && !given.is_put, line);
    check(rt, given.report.as_slice() == report.as_bytes(), line);
}

/// The whole texts of runs of the program of three instructions. The numbers follow from the rows of the example in
/// docs/CONTROLLER.md. The state that was restored and the last one are read, 448 blocks each: none of them from the cache at
/// a restart, and one, of the code, at the end.
static RUNS: [(&str, &str); 4] = [
    // The boot has taken 75 of the first 100 cycles, with one read and 74 writes, and begins anew.
    (
        "thynvm run F --pages 8 --btt 8 --ptt 8 --cuts 100",
        "100 - cut 1 at cycle 100\n\
         101 0 reload\n\
         800 0 commit 0 overlapped 0\n\
         808 3 epoch 1 ends at 3 by end\n\
         822 3 commit 1 overlapped 0\n\
         822 3 exit 7 at 3\n\
         cycles 822 boot 600 hart 8 engine 11 nvmdrain 203 dramdrain 0\n\
         hart moved 4 retired 3 flushed 0 merged 0 promoted 0 sealed 1\n\
         engine copied 0 page 0 state 5 table 3 barrier 1 commit 1 committed 1\n\
         waiting 7\n\
         nvm reads 450 writes 605 barriers 4\n\
         lost 0\n\
         epochs 1 early 0 overlapped 0\n",
    ),
    // Two instructions are lost. Recovery takes ten cycles, and no write is queued in any of them.
    (
        "thynvm run F --pages 8 --btt 8 --ptt 8 --cuts 705",
        "700 0 commit 0 overlapped 0\n\
         705 2 cut 1 at cycle 705\n\
         715 0 restart 0 at 0\n\
         723 3 epoch 1 ends at 3 by end\n\
         736 3 commit 1 overlapped 0\n\
         736 3 exit 7 at 3\n\
         cycles 736 boot 535 hart 13 engine 11 nvmdrain 177 dramdrain 0\n\
         hart moved 7 retired 5 flushed 0 merged 0 promoted 0 sealed 1\n\
         engine copied 0 page 0 state 5 table 3 barrier 1 commit 1 committed 1\n\
         waiting 8\n\
         nvm reads 908 writes 531 barriers 4\n\
         lost 2\n\
         epochs 1 early 0 overlapped 0\n",
    ),
    // A slot of the journal has six blocks. The drain before its last barrier lands the commit block.
    (
        "thynvm run F --pages 8 --btt 8 --scheme journal",
        "696 0 commit 0 overlapped 0\n\
         704 3 epoch 1 ends at 3 by end\n\
         716 3 commit 1 overlapped 0\n\
         716 3 exit 7 at 3\n\
         cycles 716 boot 523 hart 8 engine 9 nvmdrain 176 dramdrain 0\n\
         hart moved 4 retired 3 flushed 0 merged 0 promoted 0 sealed 1\n\
         engine copied 0 page 0 state 5 table 1 barrier 1 commit 1 committed 1\n\
         waiting 6\n\
         nvm reads 449 writes 527 barriers 4\n\
         lost 0\n\
         epochs 1 early 0 overlapped 0\n",
    ),
    // So has one of shadow paging, and no page was stored to.
    (
        "thynvm run F --pages 8 --btt 8 --scheme shadow",
        "696 0 commit 0 overlapped 0\n\
         704 3 epoch 1 ends at 3 by end\n\
         716 3 commit 1 overlapped 0\n\
         716 3 exit 7 at 3\n\
         cycles 716 boot 523 hart 8 engine 9 nvmdrain 176 dramdrain 0\n\
         hart moved 4 retired 3 flushed 0 merged 0 promoted 0 sealed 1\n\
         engine copied 0 page 0 state 5 table 1 barrier 1 commit 1 committed 1\n\
         waiting 6\n\
         nvm reads 449 writes 527 barriers 4\n\
         lost 0\n\
         epochs 1 early 0 overlapped 0\n",
    ),
];

#[test]
fn the_text_has_each_event_and_the_totals(rt: HostRuntime) {
    for (line, text) in &RUNS {
        expect_text(&rt, rt.alloc(), line, &EXIT_SEVEN, 0, text);
    }
}

#[test]
fn a_cycle_that_was_broken_off_is_in_no_total(rt: HostRuntime) {
    let alloc = rt.alloc();
    // The calls of the first three cycles are a read, a write and a drain.
    let nvm = MemNvm::failing(alloc, &[3]).expect(&rt, "memory");
    let mut shelf = shelf_of(&rt, alloc, &EXIT_SEVEN, &[]);
    let line = "thynvm run F --pages 8";
    let given = called_over(&rt, alloc, "O", line, &mut shelf, nvm);
    check(&rt, given.status == 7, line);
    let text = "cycles 2 boot 2 hart 0 engine 0 nvmdrain 0 dramdrain 0\n\
                hart moved 0 retired 0 flushed 0 merged 0 promoted 0 sealed 0\n\
                engine copied 0 page 0 state 0 table 0 barrier 0 commit 0 committed 0\n\
                waiting 0\n\
                nvm reads 1 writes 1 barriers 0\n\
                lost 0\n\
                epochs 0 early 0 overlapped 0\n";
    check(&rt, given.put.as_slice() == text.as_bytes(), line);
}

#[test]
fn an_out_that_cannot_be_put_is_reported(rt: HostRuntime) {
    let alloc = rt.alloc();
    let words = [0x00100073, 0x00700513, 0x00000073];
    let mut shelf = shelf_of(&rt, alloc, &words, &[2]);
    let line = "thynvm plain F --pages 8";
    let given = called_on(&rt, alloc, line, &mut shelf);
    check(&rt, given.status == 3 && !given.is_put, line);
    let report = b"trap 3 at 1\nput O failed\n".as_slice();
    check(&rt, given.report.as_slice() == report, line);
}

/// What follows the totals of the second of these runs: it executed two of its three instructions again after the cut.
static PCS: &str = "pcs\n10000 2\n10004 2\n10008 1\n";

/// The second of these runs, without its first word.
const CUT: &str = "run F --pages 8 --btt 8 --ptt 8 --cuts 705";

/// Calls the second of these runs with options, and compares what follows the totals.
fn follows(rt: &impl Abort, alloc: Global, options: &str, section: &str) {
    let (_, text) = RUNS[1];
    let line = line_of(rt, alloc, options, CUT);
    expect_section(rt, alloc, line.as_str(), &EXIT_SEVEN, 0, text, section);
}

/// Calls with a limit of 100 cycles, which comes in the boot, so that no instruction retires.
fn booting(rt: &impl Abort, alloc: Global, option: &str) -> Given {
    let line = line_of(
        rt,
        alloc,
        option,
        "run F --pages 8 --btt 8 --ptt 8 --limit 100",
    );
    let given = called(rt, alloc, line.as_str(), &EXIT_SEVEN);
    check(rt, given.status == 8, option);
    given
}

#[test]
fn program_counters_follow_the_totals(rt: HostRuntime) {
    let alloc = rt.alloc();
    let (line, text) = RUNS[1];
    expect_text(&rt, alloc, line, &EXIT_SEVEN, 0, text);
    follows(&rt, alloc, "--pcs", PCS);
    let given = booting(&rt, alloc, "--pcs");
    let text = given.put.as_slice();
    check(&rt, has_line(text, "pcs") && has_line(text, "none"), "none");
}

/// One store, to the first byte of another page: `auipc t0,1; sb zero,0(t0); addi a7,zero,93; ecall`.
pub(crate) static STORES_ONCE: [u32; 5] = [0x00001297, 0x00028023, 0x05d00893, 0x00000073, 0];

/// The rows of a section, one after the other.
fn joined(rt: &impl Abort, alloc: Global, rows: &[&str]) -> String {
    let mut text = String::new(alloc);
    for row in rows {
        text.push_str(row).expect(rt, "memory");
    }
    text
}

/// Hart 0 stays at `beq a0,zero,0`, and hart 1 comes to `sd t0,16(zero)`, which traps.
static TRAPS: [u32; 5] = [0x00050063, 0x00503823, 0, 0, 0];

/// The whole texts of runs of two harts of which hart 1 traps, worked out by the rules of docs/CONTROLLER.md. A slot of both
/// tables has 13 blocks, of which two records of a processor are 10, and one of the journal and of shadow paging has 11.
static TRAP_OF_HART_1: [(&str, &str); 3] = [
    // Hart 0 begins in cycle 663, at the turn of the engine. Its first instruction has two moves, every other one of either
    // hart has one: hart 0's in cycles 666 and 670, hart 1's in 668 and 672.
    (
        "thynvm run F --pages 8 --btt 8 --ptt 8 --harts 2",
        "662 0 commit 0 overlapped 0\n\
         674 5 epoch 1 ends at 5 by end harts 3 2\n\
         693 5 commit 1 overlapped 0\n\
         693 5 trap 7 at 5\n\
         trap 10004 503823 10 hart 1\n\
         cycles 693 boot 530 hart 12 engine 16 nvmdrain 135 dramdrain 0\n\
         hart moved 6 retired 5 flushed 0 merged 0 promoted 0 sealed 1\n\
         hart0 moved 4 retired 3\n\
         hart1 moved 2 retired 2\n\
         engine copied 0 page 0 state 10 table 3 barrier 1 commit 1 committed 1\n\
         waiting 12\n\
         nvm reads 449 writes 541 barriers 4\n\
         lost 0\n\
         epochs 1 early 0 overlapped 0\n",
    ),
    // Hart 0 begins in cycle 661, at its own turn.
    (
        "thynvm run F --pages 8 --btt 8 --harts 2 --scheme journal",
        "660 0 commit 0 overlapped 0\n\
         670 4 epoch 1 ends at 4 by end harts 2 2\n\
         687 4 commit 1 overlapped 0\n\
         687 4 trap 7 at 4\n\
         trap 10004 503823 10 hart 1\n\
         cycles 687 boot 528 hart 10 engine 14 nvmdrain 135 dramdrain 0\n\
         hart moved 5 retired 4 flushed 0 merged 0 promoted 0 sealed 1\n\
         hart0 moved 3 retired 2\n\
         hart1 moved 2 retired 2\n\
         engine copied 0 page 0 state 10 table 1 barrier 1 commit 1 committed 1\n\
         waiting 11\n\
         nvm reads 449 writes 537 barriers 4\n\
         lost 0\n\
         epochs 1 early 0 overlapped 0\n",
    ),
    (
        "thynvm run F --pages 8 --btt 8 --harts 2 --scheme shadow",
        "660 0 commit 0 overlapped 0\n\
         670 4 epoch 1 ends at 4 by end harts 2 2\n\
         687 4 commit 1 overlapped 0\n\
         687 4 trap 7 at 4\n\
         trap 10004 503823 10 hart 1\n\
         cycles 687 boot 528 hart 10 engine 14 nvmdrain 135 dramdrain 0\n\
         hart moved 5 retired 4 flushed 0 merged 0 promoted 0 sealed 1\n\
         hart0 moved 3 retired 2\n\
         hart1 moved 2 retired 2\n\
         engine copied 0 page 0 state 10 table 1 barrier 1 commit 1 committed 1\n\
         waiting 11\n\
         nvm reads 449 writes 537 barriers 4\n\
         lost 0\n\
         epochs 1 early 0 overlapped 0\n",
    ),
];
