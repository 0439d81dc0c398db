//! Cuts whose choices are a list: which words of the queued blocks have landed. What follows is worked out by hand.
use crate::support::by_scheme::{JOURNAL, SHADOW, SMALL};
use crate::support::calls::{called_over, check};
use crate::support::programs::shelf;
use std::alloc::Global;
use std::process::Abort;
use thy_nvm::{Choices, ChosenNvm};
use thy_test_support::{Given, has};

/// A scheme, and the cycles in which the program that exits with 7 writes the commit blocks of epochs 0 and 1. Nothing else is
/// queued then.
struct Commits {
    scheme: &'static str,
    first: u64,
    second: u64,
}

static ALL: [Commits; 3] = [
    Commits {
        scheme: "thynvm",
        first: 698,
        second: 721,
    },
    Commits {
        scheme: JOURNAL,
        first: 695,
        second: 714,
    },
    Commits {
        scheme: SHADOW,
        first: 695,
        second: 714,
    },
];

/// Which words of one block have landed: the first four, the last four, all but one, or one.
static WORDS: [[u8; 8]; 8] = [
    [1, 1, 1, 1, 0, 0, 0, 0],
    [0, 0, 0, 0, 1, 1, 1, 1],
    [1, 0, 0, 0, 0, 0, 0, 0],
    [0, 1, 0, 0, 0, 0, 0, 0],
    [0, 1, 1, 1, 1, 1, 1, 1],
    [1, 0, 1, 1, 1, 1, 1, 1],
    [0, 0, 1, 0, 1, 0, 1, 0],
    [1, 1, 0, 1, 0, 1, 0, 1],
];

/// The program that exits with 7, cut after this cycle: the cut leaves the words of these numbers.
fn cut_after(rt: &impl Abort, alloc: Global, line: &str, numbers: &[u8]) -> Given {
    let numbers = Vec::from_slice(alloc, numbers).expect(rt, "memory");
    let mut nvm = ChosenNvm::new(alloc, Choices::new(numbers));
    called_over(rt, alloc, line, &mut shelf(rt, alloc, &[]), &mut nvm)
}

/// Compares the line after a cut, and the end.
fn expect_after(
    rt: &impl Abort,
    alloc: Global,
    scheme: &str,
    cycle: u64,
    numbers: &[u8],
    after: &str,
) {
    let line = format!(in alloc; "thynvm run F {SMALL} {scheme} --cuts {cycle}").expect(
        rt, "memory",
    );
    let follows = format!(in alloc; "cut 1 at cycle {cycle}\n{after}\n").expect(rt, "memory");
    let given = cut_after(rt, alloc, line.as_str(), numbers);
    let report = given.report.as_slice();
    let is_so = has(report, follows.as_str()) && report.ends_with(b"\nexit 7 at 3\n");
    check(rt, given.status == 0 && is_so, line.as_str());
}

/// Lands words of both commit blocks. Before the commit block of epoch 0 the block is zeros, so the word that changes is
/// word 0, the name. From epoch 0 to epoch 1 it is word 1.
fn land_words(rt: &impl Abort, alloc: Global, it: &Commits, words: &[u8; 8]) {
    let first = if words[0] == 1 {
        "restart 0 at 0"
    } else {
        "reload"
    };
    expect_after(rt, alloc, it.scheme, it.first, words, first);
    let second = if words[1] == 1 {
        "restart 1 at 3"
    } else {
        "restart 0 at 0"
    };
    expect_after(rt, alloc, it.scheme, it.second, words, second);
}

#[test]
fn one_word_of_a_commit_block_decides(rt: HostRuntime) {
    let alloc = rt.alloc();
    for it in &ALL {
        for words in &WORDS {
            land_words(&rt, alloc, it, words);
        }
    }
}

/// Of 16 places, which are more than have queued writes, the words before this one have landed.
fn torn_at(rt: &impl Abort, alloc: Global, word: usize) -> Vec<u8> {
    let mut numbers = Vec::new(alloc);
    for _ in 0..16 {
        for k in 0..8usize {
            numbers
                .push(if k < word { 1 } else { 0 })
                .expect(rt, "memory");
        }
    }
    numbers
}

/// Tears all that is queued after this cycle at a word.
fn tear_all(rt: &impl Abort, alloc: Global, scheme: &str, cycle: u64, word: usize) {
    let numbers = torn_at(rt, alloc, word);
    expect_after(
        rt,
        alloc,
        scheme,
        cycle,
        numbers.as_slice(),
        "restart 0 at 0",
    );
}

/// From the commit of epoch 0 up to the write of the commit block of epoch 1: all that is queued, each table block and each block
/// of the processor's record, is torn at each word. Nothing of it is looked at.
#[test]
fn a_torn_block_of_a_slot_is_not_looked_at(rt: HostRuntime) {
    let alloc = rt.alloc();
    for it in &ALL {
        for cycle in it.first.saturating_add(2)..it.second {
            for word in 1..8usize {
                tear_all(&rt, alloc, it.scheme, cycle, word);
            }
        }
    }
}
