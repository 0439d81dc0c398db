//! Program files made for runs, from a header and their words.
use std::alloc::Global;
use std::process::Abort;
use thy_out::MemShelf;
use thy_test_support::{
    EXIT_SEVEN, FOUR_INSTRUCTIONS, Files, HELLO, NINE_STORES, NINE_STORES_TWICE, READ_INPUT,
    SELF_MODIFYING, THREE_WORDS, files_of,
};

/// `addi a0,zero,-2; sd a0,-4(sp); lbu a0,0(sp); addi a7,zero,93; ecall`: a store over two blocks, and a load of a
/// byte of the second.
const OVER_TWO_BLOCKS: &[u32] = &[0xffe00513, 0xfea13e23, 0x00014503, 0x05d00893, 0x00000073];

/// `ld a0,252(sp)`, four bytes over the end of memory.
const OVER_THE_END: &[u32] = &[0x0fc13503];

/// `sd zero,-4-128*k(sp)` for k from 0 to 4, each over two blocks; `addi a7,zero,93; ecall`.
const FIVE_STORES: &[u32] = &[
    0xfe013e23, 0xf6013e23, 0xee013e23, 0xe6013e23, 0xde013e23, 0x05d00893, 0x00000073,
];

/// Programs of these tests by their names: the one that exits with 7 under F, the one that modifies itself under S, the
/// one that prints under P, and four instructions under E. Nine stores are under N, twice under D, and five over two
/// blocks each under V. The one that reads is under R; one has accesses over two blocks under T, one over the end of
/// memory under O.
static PROGRAMS: [(&str, &[u32]); 10] = [
    ("F", THREE_WORDS),
    ("S", SELF_MODIFYING),
    ("P", HELLO),
    ("E", FOUR_INSTRUCTIONS),
    ("N", NINE_STORES),
    ("D", NINE_STORES_TWICE),
    ("V", FIVE_STORES),
    ("R", READ_INPUT),
    ("T", OVER_TWO_BLOCKS),
    ("O", OVER_THE_END),
];

/// The files of these tests: its programs, 63 bytes of the first under G, and inputs under A, B and Z.
pub(crate) fn files(rt: &impl Abort, alloc: Global) -> Files {
    let texts = [
        ("G", &EXIT_SEVEN[..63]),
        ("A", b"abcd".as_slice()),
        ("B", b"ab"),
        ("Z", b""),
    ];
    files_of(alloc, &PROGRAMS, &texts).expect(rt, "memory")
}

/// A shelf with the files of these tests, which fails at these calls.
pub(crate) fn shelf(rt: &impl Abort, alloc: Global, failing: &[u64]) -> MemShelf {
    let failing = Vec::from_slice(alloc, failing).expect(rt, "memory");
    MemShelf::new(files(rt, alloc), failing)
}
