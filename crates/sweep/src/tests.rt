//! Calls over memory: what is put under OUT. The numbers were worked out by hand from the rules of the controller.

use crate::asked::take_asked;
use crate::compared::{are_same, part_of};
use crate::concluding::refuse_asked;
use crate::top::sweep;
use std::alloc::Global;
use std::process::Abort;
use thy_base::{Bytes, Shelf};
use thy_isa::{MachState, Regs, Status};
use thy_nvm::MemNvm;
use thy_out::{MemShelf, MemSink};
use thy_sweep::{Part, Restored};

/// A program file of three instructions at the address 65536: `addi a7,zero,93; addi a0,zero,7; ecall`.
static EXIT_SEVEN: [u8; 132] = [
    0x7f, 0x45, 0x4c, 0x46, 0x02, 0x01, 0x01, 0x00, 0x00, 0x00, 0x00, 0x00, 0x00, 0x00, 0x00, 0x00,
    0x02, 0x00, 0xf3, 0x00, 0x01, 0x00, 0x00, 0x00, 0x00, 0x00, 0x01, 0x00, 0x00, 0x00, 0x00, 0x00,
    0x40, 0x00, 0x00, 0x00, 0x00, 0x00, 0x00, 0x00, 0x00, 0x00, 0x00, 0x00, 0x00, 0x00, 0x00, 0x00,
    0x00, 0x00, 0x00, 0x00, 0x40, 0x00, 0x38, 0x00, 0x01, 0x00, 0x00, 0x00, 0x00, 0x00, 0x00, 0x00,
    0x01, 0x00, 0x00, 0x00, 0x07, 0x00, 0x00, 0x00, 0x78, 0x00, 0x00, 0x00, 0x00, 0x00, 0x00, 0x00,
    0x00, 0x00, 0x01, 0x00, 0x00, 0x00, 0x00, 0x00, 0x00, 0x00, 0x01, 0x00, 0x00, 0x00, 0x00, 0x00,
    0x0c, 0x00, 0x00, 0x00, 0x00, 0x00, 0x00, 0x00, 0x0c, 0x00, 0x00, 0x00, 0x00, 0x00, 0x00, 0x00,
    0x04, 0x00, 0x00, 0x00, 0x00, 0x00, 0x00, 0x00, 0x93, 0x08, 0xd0, 0x05, 0x13, 0x05, 0x70, 0x00,
    0x73, 0x00, 0x00, 0x00,
];

/// What a call gave.
#[derive(Drop)]
struct Given {
    status: u8,
    /// Something is under OUT.
    is_put: bool,
    /// What is there.
    put: Vec<u8>,
    report: Vec<u8>,
}

/// A shelf with the program under the name F.
fn shelf_of(rt: &impl Abort, alloc: Global) -> MemShelf {
    let name = String::from_str(alloc, "F").expect(rt, "memory");
    let program = Vec::from_slice(alloc, &EXIT_SEVEN).expect(rt, "memory");
    let mut files = Vec::new(alloc);
    files.push((name, program)).expect(rt, "memory");
    MemShelf::new(files, Vec::new(alloc))
}

/// The arguments of a line, which separates them by spaces.
fn words_of(rt: &impl Abort, alloc: Global, line: &str) -> Vec<String> {
    let mut words = Vec::new(alloc);
    for word in line.split(' ') {
        push_word(rt, alloc, &mut words, word);
    }
    words
}

/// Adds an argument.
fn push_word(rt: &impl Abort, alloc: Global, words: &mut Vec<String>, word: &str) {
    let word = String::from_str(alloc, word).expect(rt, "memory");
    words.push(word).expect(rt, "memory");
}

fn sink(rt: &impl Abort, alloc: Global) -> MemSink {
    MemSink::new(alloc, 4096, Vec::new(alloc)).expect(rt, "memory")
}

/// Calls with OUT and the arguments, options among them, separated by spaces.
fn called(rt: &impl Abort, alloc: Global, line: &str) -> Given {
    let mut shelf = shelf_of(rt, alloc);
    let mut words = words_of(rt, alloc, line);
    let mut terminal = sink(rt, alloc);
    let mut report = sink(rt, alloc);
    let mut nvm = MemNvm::new(alloc);
    let status = match take_asked(alloc, &mut words) {
        Ok(asked) => sweep(
            alloc,
            "O",
            &asked,
            &words,
            &mut shelf,
            &mut terminal,
            &mut report,
            &mut nvm,
        ),
        Err(why) => refuse_asked(alloc, why, &mut report),
    };
    let found = shelf.fetch(alloc, "O", 1_000_000);
    let is_put = found.is_ok();
    let put = match found {
        Ok(put) => put,
        Err(_) => Vec::new(alloc),
    };
    Given {
        status,
        is_put,
        put,
        report: Vec::from_slice(alloc, report.taken()).expect(rt, "memory"),
    }
}

/// Stops the test unless this holds of a row, which `at` names.
fn check(rt: &impl Abort, holds: bool, at: &str) {
    assert!(rt; holds, "{at}");
}

/// Whole texts. The first checkpoint's commit block is written in cycle 698, after a barrier, and lands in 699, when it is the NVM's
/// turn. A boot that restores it takes ten cycles. A boot that loads the file takes 523 actions up to its first barrier and 2 more.
/// In every fourth cycle a write lands, if one is queued then: after cycle 697 the second cycle of the boot is the first of these,
/// and finds none; 174 others do, the last one with the commit block. After cycle 698 it is the boot's first, and the commit block
/// lands by the barrier. The second commit block is written in cycle 721, and the program has ended then. With --gap each barrier moves
/// a line here, which no machine sees: the text is the same.
static TEXTS: [(&str, u8, &str); 5] = [
    (
        "sweep --from 697 --to 700 run F --pages 8 --btt 8 --ptt 8",
        0,
        "cycles 697 697 counts 0 0 queued 0 images 1 tried 1, none times 1 boot 699 699\n\
         cycles 698 698 counts 0 0 queued 1 images 2 tried 2, none times 1 boot 698 698, epoch 0 at 0 times 1 boot 10 10\n\
         cycles 699 700 counts 0 0 queued 0 images 1 tried 1, epoch 0 at 0 times 1 boot 10 10\n\
         states 4 rows 3\n\
         restarts 0 2\n\
         reloads 2\n\
         decided 1\n\
         longest boot 699\n\
         lost most 0 sum 0\n\
         to 700\n",
    ),
    (
        "sweep --from 697 --to 700 run F --pages 8 --btt 8 --ptt 8 --gap 1",
        0,
        "cycles 697 697 counts 0 0 queued 0 images 1 tried 1, none times 1 boot 699 699\n\
         cycles 698 698 counts 0 0 queued 1 images 2 tried 2, none times 1 boot 698 698, epoch 0 at 0 times 1 boot 10 10\n\
         cycles 699 700 counts 0 0 queued 0 images 1 tried 1, epoch 0 at 0 times 1 boot 10 10\n\
         states 4 rows 3\n\
         restarts 0 2\n\
         reloads 2\n\
         decided 1\n\
         longest boot 699\n\
         lost most 0 sum 0\n\
         to 700\n",
    ),
    (
        "sweep --from 721 run F --pages 8 --btt 8 --ptt 8",
        0,
        "cycles 721 721 counts 3 3 queued 1 images 2 tried 2, epoch 0 at 0 times 1 boot 10 10, epoch 1 at 3 times 1 boot 10 10\n\
         states 2 rows 1\n\
         restarts 0 1\n\
         restarts 1 1\n\
         reloads 0\n\
         decided 1\n\
         longest boot 10\n\
         lost most 3 sum 3\n\
         exit 7 at 3\n",
    ),
    (
        "sweep --from 698 --to 698 --all 2 run F --pages 8 --btt 8 --ptt 8",
        0,
        "cycles 698 698 counts 0 0 queued 1 images 2 tried 2, none times 1 boot 698 698, epoch 0 at 0 times 1 boot 10 10\n\
         states 2 rows 1\n\
         restarts 0 1\n\
         reloads 1\n\
         decided 1\n\
         longest boot 698\n\
         lost most 0 sum 0\n\
         to 698\n",
    ),
    (
        "sweep --compare registers --from 721 --to 721 run F --pages 8 --btt 8 --ptt 8",
        0,
        "cycles 721 721 counts 3 3 queued 1 images 2 tried 2, epoch 0 at 0 times 1 boot 10 10, epoch 1 at 3 times 1 boot 10 10\n\
         states 2 rows 1\n\
         restarts 0 1\n\
         restarts 1 1\n\
         reloads 0\n\
         decided 1\n\
         longest boot 10\n\
         lost most 3 sum 3\n\
         to 721\n",
    ),
];

/// Calls, and compares the status and the text that is put.
fn expect_text(rt: &impl Abort, alloc: Global, line: &str, status: u8, text: &str) {
    let given = called(rt, alloc, line);
    check(rt, given.put.as_slice() == text.as_bytes(), line);
    check(rt, given.status == status, line);
}

#[test]
fn the_text_has_each_row_and_the_sums(rt: HostRuntime) {
    for (line, status, text) in &TEXTS {
        expect_text(&rt, rt.alloc(), line, *status, text);
    }
}

/// The last cycles of a run, and the same with levelled wear, also if processors alone are compared.
static LAST: [&str; 4] = [
    "sweep --from 690 run F --pages 8 --btt 8 --ptt 8",
    "sweep --from 690 run F --pages 8 --btt 8 --ptt 8 --gap 1",
    "sweep --from 690 run F --pages 8 --btt 8 --ptt 8 --gap 7",
    "sweep --from 690 --compare registers run F --pages 8 --btt 8 --ptt 8 --gap 7",
];

#[test]
fn levelled_wear_changes_no_row(rt: HostRuntime) {
    let direct = called(&rt, rt.alloc(), LAST[0]);
    check(&rt, direct.is_put, LAST[0]);
    for line in &LAST {
        let text = direct.put.as_slice();
        expect_same(&rt, rt.alloc(), line, text);
    }
}

/// Calls, and compares the text that is put with this one.
fn expect_same(rt: &impl Abort, alloc: Global, line: &str, text: &[u8]) {
    let given = called(rt, alloc, line);
    check(rt, given.put.as_slice() == text, line);
}

/// Calls that are refused, and their reports.
static REFUSED: [(&str, &str); 18] = [
    ("sweep run O", "usage\n"),
    ("sweep plain F", "usage\n"),
    ("sweep compare F", "usage\n"),
    ("sweep run F --cuts 5", "usage\n"),
    ("sweep run F --save G", "usage\n"),
    ("sweep --torn run F --gap 5", "usage\n"),
    ("sweep --from 1 --from 2 run F", "usage\n"),
    ("sweep --torn --to 5 --torn run F", "usage\n"),
    ("sweep --torn --all 5 run F", "usage\n"),
    ("sweep --from x --to 0 run F", "word from\n"),
    ("sweep --from 0 --to x run F", "word to\n"),
    (
        "sweep --compare registers --compare registers run F",
        "usage\n",
    ),
    ("sweep --compare registers", "usage\n"),
    ("sweep --compare x --to 0 run F", "word compare\n"),
    ("sweep --compare x --all y run F", "word all\n"),
    ("sweep --step 0 run F", "value step 0\n"),
    ("sweep --from 5 --to 4 run F", "value to 4\n"),
    (
        "sweep --from 722 run F --pages 8 --btt 8 --ptt 8",
        "value from 722\n",
    ),
];

/// Calls, and compares the end of the report; nothing is put.
fn expect_refused(rt: &impl Abort, alloc: Global, line: &str, last: &str) {
    let given = called(rt, alloc, line);
    check(rt, given.status == 2 && !given.is_put, line);
    check(rt, given.report.as_slice().ends_with(last.as_bytes()), line);
}

#[test]
fn a_call_that_is_refused_puts_nothing(rt: HostRuntime) {
    for (line, last) in &REFUSED {
        expect_refused(&rt, rt.alloc(), line, last);
    }
}

/// A list of these bytes.
fn bytes_of(rt: &impl Abort, alloc: Global, bytes: &[u8]) -> Bytes {
    Bytes::from_vec(Vec::from_slice(alloc, bytes).expect(rt, "memory"))
}

/// A state with a memory, a console and a program counter.
fn state_with(rt: &impl Abort, alloc: Global, memory: &[u8], console: &[u8], pc: u64) -> MachState {
    MachState {
        pc,
        regs: Regs::new(),
        memory: bytes_of(rt, alloc, memory),
        console: bytes_of(rt, alloc, console),
        cursor: 0,
        brk: 0,
        floor: 0,
        count: 0,
        status: Status::Running,
        other: None,
    }
}

/// This part of a state.
fn read(rt: &impl Abort, alloc: Global, part: Part, state: &MachState) -> Restored {
    part_of(alloc, part, state).expect(rt, "memory")
}

/// Compares a state with another one, in all of it and in its processor.
fn compare(
    rt: &impl Abort,
    alloc: Global,
    one: &MachState,
    other: &MachState,
    states: bool,
    processors: bool,
    at: &str,
) {
    let state = read(rt, alloc, Part::State, one);
    let processor = read(rt, alloc, Part::Processor, one);
    let others_state = read(rt, alloc, Part::State, other);
    let others_processor = read(rt, alloc, Part::Processor, other);
    check(
        rt,
        are_same(Part::State, &state, &others_state) == states,
        at,
    );
    check(
        rt,
        are_same(Part::Processor, &processor, &others_processor) == processors,
        at,
    );
    check(
        rt,
        !are_same(Part::State, &processor, &others_processor),
        at,
    );
    check(rt, !are_same(Part::State, &state, &others_processor), at);
    check(
        rt,
        !are_same(Part::Processor, &processor, &others_state),
        at,
    );
}

#[test]
fn processors_are_compared_without_memory_and_what_the_console_shows(rt: HostRuntime) {
    let alloc = rt.alloc();
    let state = state_with(&rt, alloc, &[1, 2], &[3], 4);
    let memory = state_with(&rt, alloc, &[1, 5], &[3], 4);
    let console = state_with(&rt, alloc, &[1, 2], &[6], 4);
    let longer = state_with(&rt, alloc, &[1, 2], &[3, 6], 4);
    let pc = state_with(&rt, alloc, &[1, 2], &[3], 8);
    compare(&rt, alloc, &state, &state, true, true, "the same");
    compare(&rt, alloc, &state, &memory, false, true, "memory");
    compare(&rt, alloc, &state, &console, false, true, "console");
    compare(&rt, alloc, &state, &longer, false, false, "its length");
    compare(&rt, alloc, &state, &pc, false, false, "pc");
}

#[test]
fn without_memory_the_text_is_the_same(rt: HostRuntime) {
    let whole = called(
        &rt,
        rt.alloc(),
        "sweep --from 680 run F --pages 8 --btt 8 --ptt 8",
    );
    let processor = called(
        &rt,
        rt.alloc(),
        "sweep --from 680 --compare registers run F --pages 8 --btt 8 --ptt 8",
    );
    check(&rt, whole.is_put && processor.is_put, "both are put");
    check(
        &rt,
        whole.put.as_slice() == processor.put.as_slice(),
        "the text",
    );
    check(&rt, whole.status == processor.status, "the status");
}
