//! Loads and stores at any address: over the end of a block, and up to the end of memory.
ghost use Rattle.std.specs.Prelude.{◌+◌, ◌≤◌};

use crate::runs::{called, check, compare};
use sha2::{Digest, Sha256};
use std::alloc::Global;
use std::process::Abort;
use thy_test_support::{Given, file_of, shelf_of};

/// `addi a0,zero,-2; sd a0,-4(sp); lbu a0,0(sp); addi a7,zero,93; ecall`: a store over two blocks, and a load of a
/// byte of the second.
const OVER_TWO_BLOCKS: [u32; 5] = [0xffe00513, 0xfea13e23, 0x00014503, 0x05d00893, 0x00000073];

/// `ld a0,252(sp)`, four bytes over the end of memory.
const OVER_THE_END: [u32; 1] = [0x0fc13503];

/// `sd zero,-4-128*k(sp)` for k from 0 to 4, each over two blocks; `addi a7,zero,93; ecall`.
const FIVE_STORES: [u32; 7] = [
    0xfe013e23, 0xf6013e23, 0xee013e23, 0xe6013e23, 0xde013e23, 0x05d00893, 0x00000073,
];

/// These programs, with the status of their runs, and what is reported by the machine and by the plain machine. The
/// block table has eight entries, and the fifth of five stores needs two more.
static ROWS: [(&[u32], u8, &str, &str); 3] = [
    (
        &OVER_TWO_BLOCKS,
        0,
        "commit 0 overlapped 0\nepoch 1 ends at 5 by end\ncommit 1 overlapped 0\nexit 255 at 5\n",
        "exit 255 at 5\n",
    ),
    (
        &OVER_THE_END,
        1,
        "commit 0 overlapped 0\nepoch 1 ends at 1 by end\ncommit 1 overlapped 0\ntrap 5 at 1\n",
        "trap 5 at 1\n",
    ),
    (
        &FIVE_STORES,
        0,
        "commit 0 overlapped 0\n\
         epoch 1 ends at 4 by exhausted 8 8 2\n\
         commit 1 overlapped 0\n\
         epoch 2 ends at 4 by exhausted 0 0 2\n\
         commit 2 overlapped 0\n\
         epoch 3 ends at 7 by end\n\
         commit 3 overlapped 0\n\
         exit 0 at 7\n",
        "exit 0 at 7\n",
    ),
];

/// Calls with a file alone on the shelf, under the name F.
fn ran(rt: &impl Abort, alloc: Global, line: &str, file: &[u8]) -> Given {
    called(
        rt,
        alloc,
        line,
        &mut shelf_of(alloc, &[], &[("F", file)]).expect(rt, "memory"),
    )
}

/// Runs a line over a file, and compares status and report.
fn expect_of(rt: &impl Abort, alloc: Global, line: &str, file: &[u8], status: u8, report: &str) {
    let given = ran(rt, alloc, line, file);
    compare(rt, report, &given, status, "", report);
}

/// Runs a program on the machine and on the plain machine.
fn expect_both(
    rt: &impl Abort,
    alloc: Global,
    words: &[u32],
    status: u8,
    report: &str,
    plain: &str,
) {
    let file = file_of(alloc, words).expect(rt, "memory");
    let line = "thynvm run F --pages 8 --btt 8 --ptt 8";
    expect_of(rt, alloc, line, file.as_slice(), status, report);
    let line = "thynvm plain F --pages 8";
    expect_of(rt, alloc, line, file.as_slice(), status, plain);
}

#[test]
fn an_access_over_two_blocks_is_carried_out(rt: HostRuntime) {
    let alloc = rt.alloc();
    for (words, status, report, plain) in &ROWS {
        expect_both(&rt, alloc, words, *status, report, plain);
    }
}

/// The size of program memory of eight pages in bytes, and the offset in it of the start's sp.
const SIZE: usize = 28672;

const SP: usize = SIZE - 256;

/// `auipc t3,0; ld s0,48(t3); ld s1,56(t3); ld t1,64(t3)`, which loads the three numbers at the end; `sd s0,-8(sp);
/// sd s1,0(sp)`, around the end of a block; `sd s1,248(sp)`, at the end of memory; `addi t0,sp,..` and an access at
/// 0(t0), which are put in; `sd t2,64(sp)`, what was loaded; `addi a7,zero,93; ecall`.
const AROUND: [u32; 18] = [
    0x00000e17, 0x030e3403, 0x038e3483, 0x040e3303, 0xfe813c23, 0x00913023, 0x0e913c23, 0x00000000,
    0x00000000, 0x04713023, 0x05d00893, 0x00000073, 0x08830281, 0x78068504, 0x0a8b0c8d, 0x8e0f9071,
    0x44332211, 0x887766d5,
];

/// The numbers that the program writes to memory, and the one that is stored.
const LOW: u64 = 0x7806_8504_0883_0281;

const HIGH: u64 = 0x8e0f_9071_0a8b_0c8d;

const STORED: u64 = 0x8877_66d5_4433_2211;

/// What an access does with its bytes.
#[derive(Clone, Copy, PartialEq, Eq)]
enum Kind {
    /// The bytes are loaded, and extended by their sign.
    Signed,
    /// The bytes are loaded, and extended by zeros.
    Unsigned,
    /// The bytes are stored.
    Store,
}

/// The word of each load of 0(t0) into t2 and of each store of t1 to 0(t0), and its bytes.
static ACCESSES: [(u32, usize, Kind); 11] = [
    (0x00028383, 1, Kind::Signed),
    (0x00029383, 2, Kind::Signed),
    (0x0002a383, 4, Kind::Signed),
    (0x0002b383, 8, Kind::Signed),
    (0x0002c383, 1, Kind::Unsigned),
    (0x0002d383, 2, Kind::Unsigned),
    (0x0002e383, 4, Kind::Unsigned),
    (0x00628023, 1, Kind::Store),
    (0x00629023, 2, Kind::Store),
    (0x0062a023, 4, Kind::Store),
    (0x0062b023, 8, Kind::Store),
];

/// Writes the low bytes of a number into a list of bytes.
fn put(memory: &mut [u8], at: usize, size: usize, value: u64)
    requires at { at ≤ 32768 }
    requires size { size ≤ 8 }
{
    for k in 0..size {
        if let Some(byte) = memory.get_mut(at + k) {
            *byte = (value >> (8 * k) & 0xff) as u8;
        }
    }
}

/// The number that these bytes are, the lowest first, extended by its sign if that is asked: then `2^(8 * len)` is
/// taken away from one whose highest bit is set. All of this is modulo `2^64`.
fn number(bytes: &[u8], signed: bool) -> u64 {
    let mut value = 0;
    let mut weight = 1;
    for byte in bytes {
        value = u64::from(*byte).wrapping_mul(weight).wrapping_add(value);
        weight = weight.wrapping_mul(256);
    }
    let negative = match bytes.last() {
        Some(top) => signed && *top >= 128,
        None => false,
    };
    if negative {
        value.wrapping_sub(weight)
    } else {
        value
    }
}

/// A program with an access, and how it ends.
#[derive(Drop)]
struct Row {
    file: Vec<u8>,
    status: u8,
    /// How many instructions the program retires.
    count: u64,
    /// The report's lines of the program's end and of memory's digest.
    end: String,
}

/// The program's words with an access at a place of memory.
fn words_of(word: u32, at: usize) -> [u32; 18]
    requires { at ≤ 32768 }
{
    let mut words = AROUND;
    words[7] = 0x0001_0293 + (at as u32 + 256) % 4096 * 0x10_0000;
    words[8] = word;
    words
}

/// The bytes of memory in which a program of these words is loaded.
fn memory_of(rt: &impl Abort, alloc: Global, words: &[u32]) -> Vec<u8> {
    let mut memory = Vec::new(alloc);
    for word in words {
        memory
            .extend_from_slice(&word.to_le_bytes())
            .expect(rt, "memory");
    }
    memory.resize(SIZE, 0).expect(rt, "memory");
    memory
}

/// The lines of a run's end, with the digest of this memory.
fn end_of(rt: &impl Abort, alloc: Global, line: &str, memory: &[u8]) -> String {
    let digest = hex::encode(alloc, Sha256::digest(memory)).expect(rt, "memory");
    format!(in alloc; "{line}\nmemory {digest}\n").expect(rt, "memory")
}

/// What the program makes of memory, with an access of which all bytes are inside.
fn run_on(memory: &mut [u8], at: usize, size: usize, kind: Kind)
    requires at { at ≤ 32768 }
    requires size { size ≤ 8 }
{
    let loaded = match kind {
        Kind::Store => {
            put(memory, at, size, STORED);
            0
        }
        kind => number(
            memory.get(at..at + size).unwrap_or(&[]),
            kind == Kind::Signed,
        ),
    };
    put(memory, SP + 64, 8, loaded);
}

/// The row of an access at a place of memory.
fn row_of(rt: &impl Abort, alloc: Global, access: &(u32, usize, Kind), at: usize) -> Row
    requires { at ≤ 32768 }
{
    let (word, size, kind) = *access;
    let size = size.min(8);
    let words = words_of(word, at);
    let mut memory = memory_of(rt, alloc, &words);
    put(memory.as_mut_slice(), SP - 8, 8, LOW);
    put(memory.as_mut_slice(), SP, 8, HIGH);
    put(memory.as_mut_slice(), SIZE - 8, 8, HIGH);
    let (status, count, line) = if at + size <= SIZE {
        run_on(memory.as_mut_slice(), at, size, kind);
        (0, 12, "exit 0 at 12")
    } else if kind == Kind::Store {
        (1, 9, "trap 7 at 9")
    } else {
        (1, 9, "trap 5 at 9")
    };
    Row {
        file: file_of(alloc, &words).expect(rt, "memory"),
        status,
        count,
        end: end_of(rt, alloc, line, memory.as_slice()),
    }
}

/// Caches of one line, of two sets of one, and of sixteen sets of four.
static CACHES: [&str; 3] = [
    "--sets 1 --ways 1",
    "--sets 2 --ways 1",
    "--sets 16 --ways 4",
];

/// Runs a row's program with one cache.
fn run_cache(rt: &impl Abort, alloc: Global, row: &Row, cache: &str, report: &str) {
    let line = format!(in alloc; "thynvm run F --pages 8 --btt 8 --ptt 8 --digest {cache}").expect(
        rt, "memory",
    );
    let file = row.file.as_slice();
    expect_of(rt, alloc, line.as_str(), file, row.status, report);
}

/// Runs a row's program on the plain machine, and on the machine with each cache.
fn run_row(rt: &impl Abort, alloc: Global, row: &Row) {
    let (count, end) = (row.count, row.end.as_str());
    let line = "thynvm plain F --pages 8 --digest";
    expect_of(rt, alloc, line, row.file.as_slice(), row.status, end);
    let report = format!(in alloc;
        "commit 0 overlapped 0\nepoch 1 ends at {count} by end\ncommit 1 overlapped 0\n{end}"
    ).expect(rt, "memory");
    for cache in &CACHES {
        run_cache(rt, alloc, row, cache, report.as_str());
    }
}

/// Runs an access at a place.
fn run_access(rt: &impl Abort, alloc: Global, access: &(u32, usize, Kind), at: usize)
    requires { at ≤ 32768 }
{
    run_row(rt, alloc, &row_of(rt, alloc, access, at));
}

/// Runs each access at nine places in a row.
fn run_places(rt: &impl Abort, alloc: Global, from: usize)
    requires { from + 9 ≤ 32768 }
{
    for access in &ACCESSES {
        for at in from..from + 9 {
            run_access(rt, alloc, access, at);
        }
    }
}

#[test]
fn each_access_around_the_end_of_a_block(rt: HostRuntime) {
    run_places(&rt, rt.alloc(), SP - 8);
}

#[test]
fn each_access_around_the_end_of_memory(rt: HostRuntime) {
    run_places(&rt, rt.alloc(), SIZE - 8);
}

/// A program's run, up to its cuts.
const RUN: &str = "thynvm run F --pages 8 --btt 8 --ptt 8 --sets 2 --ways 1 --digest";

/// A cut after a cycle, with one pick: it ends alike.
fn cut_at(rt: &impl Abort, alloc: Global, file: &[u8], cycle: u64, tear: u64, end: &str) {
    let line = format!(in alloc; "{RUN} --cuts {cycle} --tears {tear}").expect(rt, "memory");
    let given = ran(rt, alloc, line.as_str(), file);
    let is_same = given.status == 0 && given.report.as_slice().ends_with(end.as_bytes());
    check(rt, is_same, line.as_str());
}

/// A cut at each cycle of a program's run, with three picks.
fn cut_everywhere(rt: &impl Abort, alloc: Global, file: &[u8], end: &str) {
    let cycles = ran(rt, alloc, RUN, file).cycles;
    check(rt, cycles > 700, "no cut");
    for cycle in 1..cycles {
        cut_at(rt, alloc, file, cycle, 0, end);
        cut_at(rt, alloc, file, cycle, 1, end);
        cut_at(rt, alloc, file, cycle, 7, end);
    }
}

#[test]
fn a_store_over_two_blocks_is_cut_anywhere(rt: HostRuntime) {
    let alloc = rt.alloc();
    let row = row_of(&rt, alloc, &(0x0062b023, 8, Kind::Store), SP - 4);
    cut_everywhere(&rt, alloc, row.file.as_slice(), row.end.as_str());
}

#[test]
fn stores_that_need_two_entries_are_cut_anywhere(rt: HostRuntime) {
    let alloc = rt.alloc();
    let file = file_of(alloc, &FIVE_STORES).expect(&rt, "memory");
    let memory = memory_of(&rt, alloc, &FIVE_STORES);
    let end = end_of(&rt, alloc, "exit 0 at 7", memory.as_slice());
    cut_everywhere(&rt, alloc, file.as_slice(), end.as_str());
}
