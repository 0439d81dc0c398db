//! Runs whose cuts tear blocks between their words: the images that such a cut may leave, made by hand, and runs over a device
//! that tears.
use crate::support::by_scheme::{JOURNAL, SHADOW, SMALL, line_of};
use crate::support::calls::{called, called_over, check, held};
use crate::support::programs::shelf;
use std::alloc::Global;
use std::process::Abort;
use thy_base::Shelf;
use thy_nvm::MemNvm;
use thy_test_support::patched;

/// All schemes, by their words.
static ALL: [&str; 3] = ["thynvm", JOURNAL, SHADOW];

/// The place of the commit block.
const COMMIT: usize = 1;

/// An image that a cut left, and what is reported when it is resumed.
#[derive(Drop)]
struct Left {
    image: Vec<u8>,
    report: Vec<u8>,
}

/// What is reported of an image that is resumed.
fn resumed(rt: &impl Abort, alloc: Global, scheme: &str, image: &[u8]) -> Vec<u8> {
    let resume = "thynvm resume X --pages 8 --btt 8 --ptt 8 --scheme";
    let line = line_of(rt, alloc, resume, scheme, "");
    let mut shelf = shelf(rt, alloc, &[]);
    check(rt, shelf.put(alloc, "X", image).is_ok(), line.as_str());
    called(rt, alloc, line.as_str(), &mut shelf).report
}

/// What a cut leaves of the program that exits with 7 after this cycle: of the queued writes none, which is the pick 0, or all,
/// which is 1.
fn cut_at(rt: &impl Abort, alloc: Global, scheme: &str, cycle: u64, tear: &str) -> Left {
    let line = format!(in alloc;
        "thynvm run F {SMALL} {scheme} --limit {cycle} --tears {tear} --save X"
    ).expect(rt, "memory");
    let mut shelf = shelf(rt, alloc, &[]);
    called(rt, alloc, line.as_str(), &mut shelf);
    let image = held(rt, alloc, &mut shelf, "X");
    let report = resumed(rt, alloc, scheme, image.as_slice());
    Left { image, report }
}

/// The bytes of a block, up to a word; none if the image is shorter.
fn words_of(image: &[u8], block: usize, words: usize) -> &[u8] {
    let at = block.saturating_mul(64);
    image
        .get(at..at.saturating_add(words.saturating_mul(8)))
        .unwrap_or(&[])
}

/// Tears a block of an image at a word: the words before it are the other image's. Only the commit block decides what is
/// restored, and it is one of the two.
fn tear_at(
    rt: &impl Abort,
    alloc: Global,
    scheme: &str,
    one: &Left,
    other: &Left,
    block: usize,
    words: usize,
) {
    let at = format!(in alloc; "{scheme}, block {block}, {words} words").expect(rt, "memory");
    let first = words_of(other.image.as_slice(), block, words);
    let image = one.image.as_slice();
    let torn = patched(alloc, image, block.saturating_mul(64), first).expect(rt, "memory");
    let whole = words_of(other.image.as_slice(), block, 8);
    let is_others = words_of(torn.as_slice(), block, 8) == whole;
    let is_one_of_two = torn.as_slice() == image || is_others;
    check(rt, block != COMMIT || is_one_of_two, at.as_str());
    let due = if block == COMMIT && is_others {
        &other.report
    } else {
        &one.report
    };
    let report = resumed(rt, alloc, scheme, torn.as_slice());
    check(rt, report.as_slice() == due.as_slice(), at.as_str());
}

/// Tears a block at each of its words, in both ways.
fn tear(rt: &impl Abort, alloc: Global, scheme: &str, one: &Left, other: &Left, block: usize) {
    for words in 1..8usize {
        tear_at(rt, alloc, scheme, one, other, block, words);
        tear_at(rt, alloc, scheme, other, one, block, words);
    }
}

/// Tears each block that a cut after this cycle may leave in two ways, and returns whether the commit block is one of them.
fn tear_each(rt: &impl Abort, alloc: Global, scheme: &str, cycle: u64) -> bool {
    let none = cut_at(rt, alloc, scheme, cycle, "0");
    let all = cut_at(rt, alloc, scheme, cycle, "1");
    for block in 0..none.image.len() / 64 {
        if differs(&none, &all, block) {
            tear(rt, alloc, scheme, &none, &all, block);
        }
    }
    differs(&none, &all, COMMIT)
}

/// Whether a block of one image is another one than in the other image.
fn differs(one: &Left, other: &Left, block: usize) -> bool {
    words_of(one.image.as_slice(), block, 8) != words_of(other.image.as_slice(), block, 8)
}

/// From the end of loading to the program's end, at which its checkpoint is committed: each block that is queued, torn at each
/// word. The commit blocks of epochs 0 and 1 are among them.
fn tear_all(rt: &impl Abort, alloc: Global, scheme: &str) {
    let mut commits: u64 = 0;
    for cycle in 693..724u64 {
        if tear_each(rt, alloc, scheme, cycle) {
            commits = commits.saturating_add(1);
        }
    }
    check(rt, commits >= 2, scheme);
}

#[test]
fn a_torn_block_is_not_looked_at_or_is_one_of_two(rt: HostRuntime) {
    for scheme in &ALL {
        tear_all(&rt, rt.alloc(), scheme);
    }
}

/// Runs the program that prints over a device that tears, cut after this cycle and before it as `first` says, with these
/// seeds, and compares its end.
fn ends_alike(rt: &impl Abort, alloc: Global, scheme: &str, first: &str, cut: u64, seeds: &str) {
    let line = format!(in alloc;
        "thynvm run P {SMALL} {scheme} --epoch 2 --cuts {first}{cut} --tears {seeds}"
    ).expect(rt, "memory");
    let mut shelf = shelf(rt, alloc, &[]);
    let mut nvm = MemNvm::tearing(alloc);
    let given = called_over(rt, alloc, line.as_str(), &mut shelf, &mut nvm);
    let ends = given.report.as_slice().ends_with(b"\nexit 3 at 8\n");
    let prints = given.printed.as_slice() == b"Hi\n".as_slice();
    check(rt, given.status == 0 && ends && prints, line.as_str());
}

/// A cut after each cycle from the end of loading on, with two seeds.
#[test]
fn runs_end_alike_over_a_device_that_tears(rt: HostRuntime) {
    let alloc = rt.alloc();
    for scheme in &ALL {
        for cycle in 680..800u64 {
            ends_alike(&rt, alloc, scheme, "", cycle, "7");
            ends_alike(&rt, alloc, scheme, "", cycle, "8");
        }
    }
}

/// A second cut: at every seventh cycle of a loading, and at each of the recovery after a cut that may tear a commit
/// block.
#[test]
fn boots_that_are_cut_end_alike_over_a_device_that_tears(rt: HostRuntime) {
    let alloc = rt.alloc();
    for scheme in &ALL {
        for k in 0..100u64 {
            let second = k.saturating_mul(7).saturating_add(2);
            ends_alike(&rt, alloc, scheme, "1,", second, "7,8");
        }
        for second in 721..741u64 {
            ends_alike(&rt, alloc, scheme, "720,", second, "7,8");
        }
    }
}
