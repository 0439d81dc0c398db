//! Program files made for runs, from a header and their words.
use crate::runs::{called, compare};
use std::alloc::Global;
use std::process::Abort;
use thy_out::MemShelf;
use thy_test_support::{
    EXIT_SEVEN, FOUR_INSTRUCTIONS, HELLO, NINE_STORES, NINE_STORES_TWICE, SELF_MODIFYING,
    THREE_WORDS, file_of, files_of, patched, shelf_of,
};

/// One word, which is not an instruction.
const NO_INSTRUCTION: &[u32] = &[0];

/// Programs of these tests by their names: the one that exits with 7 under F, the one that modifies itself under S, and the
/// one that is not a program under Z. The one that prints is under P, and the programs of several epochs are under E, N and D.
static PROGRAMS: [(&str, &[u32]); 7] = [
    ("F", THREE_WORDS),
    ("S", SELF_MODIFYING),
    ("Z", NO_INSTRUCTION),
    ("P", HELLO),
    ("E", FOUR_INSTRUCTIONS),
    ("N", NINE_STORES),
    ("D", NINE_STORES_TWICE),
];

/// A shelf with the programs of these tests, and 63 bytes of the first under G, which fails at these calls.
pub(crate) fn shelf(rt: &impl Abort, alloc: Global, failing: &[u64]) -> MemShelf {
    let failing = Vec::from_slice(alloc, failing).expect(rt, "memory");
    let files = files_of(alloc, &PROGRAMS, &[("G", &EXIT_SEVEN[..63])]).expect(rt, "memory");
    MemShelf::new(files, failing)
}

/// Runs a file alone in the smallest memory, and compares its status and its report.
fn expect_of(rt: &impl Abort, alloc: Global, file: &[u8], status: u8, report: &str) {
    let mut shelf = shelf_of(alloc, &[], &[("F", file)]).expect(rt, "memory");
    let line = "thynvm run F --pages 8 --btt 8 --ptt 8";
    let given = called(rt, alloc, line, &mut shelf);
    compare(rt, report, &given, status, "", report);
}

/// Runs the header of the program file alone, with no program header, which starts at this address.
fn expect_header(rt: &impl Abort, alloc: Global, entry: u64, report: &str) {
    let header = EXIT_SEVEN.get(..64).unwrap_or(&[]);
    let header = patched(alloc, header, 24, &entry.to_le_bytes()).expect(rt, "memory");
    let header = patched(alloc, header.as_slice(), 56, &[0; 8]).expect(rt, "memory");
    expect_of(rt, alloc, header.as_slice(), 1, report);
}

/// The address at which an empty program starts, and how its first step ends.
static STARTS: [(u64, &str); 3] = [
    (
        65536,
        "commit 0 overlapped 0\nepoch 1 ends at 1 by end\ncommit 1 overlapped 0\ntrap 2 at 1\n",
    ),
    (
        65538,
        "commit 0 overlapped 0\nepoch 1 ends at 1 by end\ncommit 1 overlapped 0\ntrap 0 at 1\n",
    ),
    (
        4096,
        "commit 0 overlapped 0\nepoch 1 ends at 1 by end\ncommit 1 overlapped 0\ntrap 1 at 1\n",
    ),
];

#[test]
fn a_program_of_a_header_alone_traps_at_its_entry(rt: HostRuntime) {
    let alloc = rt.alloc();
    for (entry, report) in &STARTS {
        expect_header(&rt, alloc, *entry, report);
    }
}

/// `jalr x1, 2(x0)` and `jalr x1, 3(x0)`, whose targets are not multiples of 4, so that the jump traps; `jalr x1, 1(x0)`,
/// which jumps to 0, outside memory.
static ODD_JUMPS: [(u32, &str); 3] = [
    (
        0x002000e7,
        "commit 0 overlapped 0\nepoch 1 ends at 1 by end\ncommit 1 overlapped 0\ntrap 0 at 1\n",
    ),
    (
        0x003000e7,
        "commit 0 overlapped 0\nepoch 1 ends at 1 by end\ncommit 1 overlapped 0\ntrap 0 at 1\n",
    ),
    (
        0x001000e7,
        "commit 0 overlapped 0\nepoch 1 ends at 2 by end\ncommit 1 overlapped 0\ntrap 1 at 2\n",
    ),
];

/// Runs the program of these words.
fn expect_words(rt: &impl Abort, alloc: Global, words: &[u32], status: u8, report: &str) {
    let file = file_of(alloc, words).expect(rt, "memory");
    expect_of(rt, alloc, file.as_slice(), status, report);
}

#[test]
fn a_jump_to_an_odd_target_ends_a_run(rt: HostRuntime) {
    let alloc = rt.alloc();
    for (word, report) in &ODD_JUMPS {
        expect_words(&rt, alloc, &[*word], 1, report);
    }
}

/// `bne x0, x0, .+2; addi a7,zero,93; ecall`: a branch that is not taken.
static ODD_BRANCH: [u32; 3] = [0x00001163, 0x05d00893, 0x00000073];

#[test]
fn a_branch_to_an_odd_target_is_not_taken(rt: HostRuntime) {
    let report =
        "commit 0 overlapped 0\nepoch 1 ends at 3 by end\ncommit 1 overlapped 0\nexit 0 at 3\n";
    expect_words(&rt, rt.alloc(), &ODD_BRANCH, 0, report);
}

/// `e_flags` of the program that exits with 7: none, compressed instructions, and the total store order.
static FLAGS: [(u32, u8, &str); 3] = [
    (
        0,
        0,
        "commit 0 overlapped 0\nepoch 1 ends at 3 by end\ncommit 1 overlapped 0\nexit 7 at 3\n",
    ),
    (1, 4, "file 8 NeedsCompressed\n"),
    (
        16,
        0,
        "commit 0 overlapped 0\nepoch 1 ends at 3 by end\ncommit 1 overlapped 0\nexit 7 at 3\n",
    ),
];

/// Runs that program with these flags.
fn expect_flags(rt: &impl Abort, alloc: Global, flags: u32, status: u8, report: &str) {
    let file = patched(alloc, &EXIT_SEVEN, 48, &flags.to_le_bytes()).expect(rt, "memory");
    expect_of(rt, alloc, file.as_slice(), status, report);
}

#[test]
fn a_program_for_another_processor_is_refused(rt: HostRuntime) {
    let alloc = rt.alloc();
    for (flags, status, report) in &FLAGS {
        expect_flags(&rt, alloc, *flags, *status, report);
    }
}

/// How many zeros a program has in the smallest memory, which takes 28672, and how its run ends.
static ZEROS: [(u64, u8, &str); 2] = [
    (
        28672,
        1,
        "commit 0 overlapped 0\nepoch 1 ends at 1 by end\ncommit 1 overlapped 0\ntrap 2 at 1\n",
    ),
    (28673, 4, "file 17 SegmentOutsideMemory 0\n"),
];

/// Runs a file of one segment of `size` zeros, from 65536 on, none of which the file has.
fn expect_zeros(rt: &impl Abort, alloc: Global, size: u64, status: u8, report: &str) {
    let file = EXIT_SEVEN.get(..120).unwrap_or(&[]);
    let file = patched(alloc, file, 96, &[0; 8]).expect(rt, "memory");
    let file = patched(alloc, file.as_slice(), 104, &size.to_le_bytes()).expect(rt, "memory");
    expect_of(rt, alloc, file.as_slice(), status, report);
}

#[test]
fn zeros_may_fill_the_smallest_memory(rt: HostRuntime) {
    let alloc = rt.alloc();
    for (size, status, report) in &ZEROS {
        expect_zeros(&rt, alloc, *size, *status, report);
    }
}
