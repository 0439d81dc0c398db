//! Traps: the word and the address that a call reports.

use super::{called, check, has_line};
use std::alloc::Global;
use std::process::Abort;

/// First words of a program, and the line of its trap: no instruction; ebreak; ld t0,8(zero); sd t0,16(zero); a jump to 65538; a
/// jump to 0.
static TRAPPED: [(u32, &str); 6] = [
    (0xffffffff, "trap 10000 ffffffff"),
    (0x00100073, "trap 10000 100073"),
    (0x00803283, "trap 10000 803283 8"),
    (0x00503823, "trap 10000 503823 10"),
    (0x0020006f, "trap 10000 20006f"),
    (0x00000067, "trap 0"),
];

/// Stops the test unless a call traps, with this line.
fn traps_by(rt: &impl Abort, alloc: Global, call: &str, words: &[u32], line: &str) {
    let given = called(rt, alloc, call, words);
    check(rt, given.status == 1, line);
    check(rt, has_line(given.put.as_slice(), line), line);
}

/// Stops the test unless the trap of a program of this word has this line, on the plain machine and with each scheme.
fn traps(rt: &impl Abort, alloc: Global, word: u32, line: &str) {
    let words = [word, 0x00700513, 0x00000073];
    traps_by(rt, alloc, "thynvm plain F --pages 8", &words, line);
    let plain = called(rt, alloc, "thynvm plain F --pages 8", &words);
    check(rt, plain.put.len() == line.len() + 1, line);
    for call in [
        "thynvm run F --pages 8 --btt 8 --ptt 8",
        "thynvm run F --pages 8 --btt 8 --ptt 8 --scheme journal",
        "thynvm run F --pages 8 --btt 8 --ptt 8 --scheme shadow",
    ] {
        traps_by(rt, alloc, call, &words, line);
    }
}

#[test]
fn a_trap_has_its_word_and_its_address(rt: HostRuntime) {
    for (word, line) in &TRAPPED {
        traps(&rt, rt.alloc(), *word, line);
    }
}
