//! How programs end with the journal that have no store, or none that is in doubt: as with any scheme of checkpoints.
use crate::hostile::{expect_at_lengths, expect_fields, expect_file, expect_patched};
use crate::support::by_scheme::{JOURNAL, Row, expect_rows};
use std::alloc::Global;
use std::process::Abort;
use thy_test_support::{EXIT_SEVEN, file_of, patched};

/// A run of F with the journal in the smallest memory.
const RUN: &str = "thynvm run F --pages 8 --btt 8 --ptt 8 --scheme journal";

/// Reports of programs that trap, and of one that exits.
const TRAPS_2: &str =
    "commit 0 overlapped 0\nepoch 1 ends at 1 by end\ncommit 1 overlapped 0\ntrap 2 at 1\n";

const TRAPS_0: &str =
    "commit 0 overlapped 0\nepoch 1 ends at 1 by end\ncommit 1 overlapped 0\ntrap 0 at 1\n";

const TRAPS_1: &str =
    "commit 0 overlapped 0\nepoch 1 ends at 1 by end\ncommit 1 overlapped 0\ntrap 1 at 1\n";

const EXITS: &str =
    "commit 0 overlapped 0\nepoch 1 ends at 3 by end\ncommit 1 overlapped 0\nexit 7 at 3\n";

/// Runs a file alone, and compares status and report; nothing is printed.
fn expect_of(rt: &impl Abort, alloc: Global, file: &[u8], status: u8, report: &str) {
    expect_file(rt, alloc, RUN, file, status, report, report);
}

/// Runs the header of the program file alone, with no program header, which starts at this address.
fn expect_header(rt: &impl Abort, alloc: Global, entry: u64, report: &str) {
    let header = EXIT_SEVEN.get(..64).unwrap_or(&[]);
    let header = patched(alloc, header, 24, &entry.to_le_bytes()).expect(rt, "memory");
    let header = patched(alloc, header.as_slice(), 56, &[0, 0]).expect(rt, "memory");
    expect_of(rt, alloc, header.as_slice(), 1, report);
}

#[test]
fn a_program_of_a_header_alone_traps_at_its_entry(rt: HostRuntime) {
    let alloc = rt.alloc();
    expect_header(&rt, alloc, 65536, TRAPS_2);
    expect_header(&rt, alloc, 65538, TRAPS_0);
    expect_header(&rt, alloc, 4096, TRAPS_1);
}

/// The address of the flags in the header of a program file.
const FLAGS: usize = 48;

#[test]
fn a_program_for_another_processor_is_refused(rt: HostRuntime) {
    let alloc = rt.alloc();
    expect_patched(&rt, alloc, RUN, FLAGS, &[0], 0, EXITS);
    expect_patched(&rt, alloc, RUN, FLAGS, &[1], 4, "file 8 NeedsCompressed\n");
    expect_patched(&rt, alloc, RUN, FLAGS, &[16], 0, EXITS);
}

/// Runs a file of one segment of `size` zeros, none of which the file has.
fn expect_zeros(rt: &impl Abort, alloc: Global, size: u64, status: u8, report: &str) {
    let file = patched(alloc, &EXIT_SEVEN, 96, &[0; 8]).expect(rt, "memory");
    let file = patched(alloc, file.as_slice(), 104, &size.to_le_bytes()).expect(rt, "memory");
    expect_of(rt, alloc, file.as_slice(), status, report);
}

#[test]
fn zeros_may_fill_the_smallest_memory(rt: HostRuntime) {
    let alloc = rt.alloc();
    expect_zeros(&rt, alloc, 28672, 1, TRAPS_2);
    let report = "file 17 SegmentOutsideMemory 0\n";
    expect_zeros(&rt, alloc, 28673, 4, report);
}

/// `jalr x1, 2(x0)` and `jalr x1, 3(x0)`, whose targets are not multiples of 4, so that the jump traps; `jalr x1, 1(x0)`,
/// which jumps to 0, outside memory.
static ODD_JUMPS: [(u32, &str); 3] = [
    (0x002000e7, TRAPS_0),
    (0x003000e7, TRAPS_0),
    (
        0x001000e7,
        "commit 0 overlapped 0\nepoch 1 ends at 2 by end\ncommit 1 overlapped 0\ntrap 1 at 2\n",
    ),
];

/// `bne x0, x0, .+2; addi a7,zero,93; ecall`: a branch that is not taken.
static ODD_BRANCH: [u32; 3] = [0x00001163, 0x05d00893, 0x00000073];

/// Runs the program of these words.
fn expect_words(rt: &impl Abort, alloc: Global, words: &[u32], status: u8, report: &str) {
    let file = file_of(alloc, words).expect(rt, "memory");
    expect_of(rt, alloc, file.as_slice(), status, report);
}

#[test]
fn only_a_jump_to_an_odd_target_ends_a_run(rt: HostRuntime) {
    let alloc = rt.alloc();
    for (word, report) in &ODD_JUMPS {
        expect_words(&rt, alloc, &[*word], 1, report);
    }
    let report =
        "commit 0 overlapped 0\nepoch 1 ends at 3 by end\ncommit 1 overlapped 0\nexit 0 at 3\n";
    expect_words(&rt, alloc, &ODD_BRANCH, 0, report);
}

static OVER_TWO_BLOCKS: [Row; 2] = [
    (
        "thynvm run T --pages 8 --btt 8 --ptt 8 --scheme",
        "",
        0,
        "commit 0 overlapped 0\nepoch 1 ends at 5 by end\ncommit 1 overlapped 0\nexit 255 at 5\n",
    ),
    (
        "thynvm run O --pages 8 --btt 8 --ptt 8 --scheme",
        "",
        1,
        "commit 0 overlapped 0\nepoch 1 ends at 1 by end\ncommit 1 overlapped 0\ntrap 5 at 1\n",
    ),
];

#[test]
fn an_access_over_two_blocks_is_carried_out(rt: HostRuntime) {
    expect_rows(&rt, rt.alloc(), JOURNAL, &[], &OVER_TWO_BLOCKS);
}

#[test]
fn a_program_file_is_refused_at_every_length_but_its_own(rt: HostRuntime) {
    expect_at_lengths(&rt, rt.alloc(), RUN);
}

#[test]
fn a_program_file_has_fields_at_their_ends(rt: HostRuntime) {
    expect_fields(&rt, rt.alloc(), RUN);
}
