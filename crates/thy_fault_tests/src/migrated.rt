//! A saved image of layout version 1, resumed: its boot writes the checkpoint again in version 2.
use crate::support::calls::{called, called_over, check, compare, expect_on, failing_at, held};
use std::alloc::Global;
use std::process::Abort;
use thy_nvm::MemNvm;
use thy_out::MemShelf;
use thy_test_support::{Given, shelf_of};

/// The image is resumed, with what is reported. What a run saves under T is resumed in the same way.
const RESUMES: &str = "thynvm resume D --pages 8 --btt 8 --ptt 8";

const RESUMES_AGAIN: &str = "thynvm resume T --pages 8 --btt 8 --ptt 8";

const RESTORED: &str = "restart 3 at 11\nexit 0 at 11\n";

/// How many bytes an image of version 1 has here, and of version 2.
const BYTES_ONE: usize = 67_072;

const BYTES_TWO: usize = 68_096;

/// The words that are not zero, by the places of their first bytes, of an image of version 1. The program saved it after
/// nine stores into a block table of eight entries, when it wrote version 1. (Epoch 3 is in slot 1, from byte 576 on.)
static SAVED: [(usize, u64); 25] = [
    (0, 0x3152_4448_4e59_4854),
    (8, 1),
    (16, 0x10000),
    (24, 8),
    (32, 1),
    (40, 8),
    (48, 8),
    (64, 0x3154_4d43_4e59_4854),
    (72, 3),
    (128, 0x10020),
    (144, 0x16f00),
    (384, 8),
    (408, 0x10030),
    (432, 2),
    (440, 0x10030),
    (576, 0x10028),
    (592, 0x16f00),
    (712, 0x5d),
    (832, 11),
    (856, 0x10030),
    (864, 1),
    (880, 3),
    (888, 0x10030),
    (896, 0x1b5),
    (1024, 0xfc01_3023_0001_3023),
];

/// The five words of its program after these, from byte 1032 on.
static PROGRAM: [u64; 5] = [
    0xf401_3023_f801_3023,
    0xec01_3023_f001_3023,
    0xe401_3023_e801_3023,
    0x05d0_0893_e001_3023,
    0x73,
];

/// The image's slot of epoch 3 in version 2 begins at this byte: the second slot.
const SLOT: usize = 67_584;

/// Writes a word over bytes.
fn put(bytes: &mut [u8], at: usize, word: u64) {
    if let Some(place) = bytes.get_mut(at..at.saturating_add(8)) {
        place.copy_from_slice(&word.to_le_bytes());
    }
}

/// The image, in `size` bytes.
fn saved(rt: &impl Abort, alloc: Global, size: usize) -> Vec<u8> {
    let mut bytes = vec![in alloc; 0u8; size].expect(rt, "memory");
    let image = bytes.as_mut_slice();
    for (at, word) in &SAVED {
        put(image, *at, *word);
    }
    for (i, word) in PROGRAM.iter().enumerate() {
        put(image, 1032 + 8 * i, *word);
    }
    bytes
}

/// A shelf that holds the image under D.
fn shelf(rt: &impl Abort, alloc: Global, size: usize) -> MemShelf {
    let image = saved(rt, alloc, size);
    shelf_of(alloc, &[], &[("D", image.as_slice())]).expect(rt, "memory")
}

/// Resumes the image with these words after the parameters.
fn resumed(rt: &impl Abort, alloc: Global, size: usize, more: &str) -> Given {
    let line = format!(in alloc; "{RESUMES}{more}").expect(rt, "memory");
    called(rt, alloc, line.as_str(), &mut shelf(rt, alloc, size))
}

/// The boot reads header and commit block and the seven blocks of the slot, in cycles 1 to 9. It writes the eight blocks
/// of the new slot from cycle 10 on, with a drain in cycles 11, 15 and 19. There is a barrier in cycle 21, the commit block
/// in cycle 22, a drain in cycle 23, and the last barrier in cycle 24.
fn migrates(rt: &impl Abort, alloc: Global, size: usize) {
    let given = resumed(rt, alloc, size, "");
    compare(rt, RESUMES, &given, 0, "", RESTORED);
    check(rt, given.cycles == 24, RESUMES);
}

#[test]
fn an_image_of_version_1_is_resumed_and_migrated(rt: HostRuntime) {
    migrates(&rt, rt.alloc(), BYTES_ONE);
    migrates(&rt, rt.alloc(), BYTES_TWO);
}

/// Power is cut after this cycle: the next boot restores the same checkpoint.
fn cut_after(rt: &impl Abort, alloc: Global, cycle: u64, tears: u64) {
    let more = format!(in alloc; " --cuts {cycle} --tears {tears}").expect(rt, "memory");
    let given = resumed(rt, alloc, BYTES_ONE, more.as_str());
    let reported = format!(in alloc; "cut 1 at cycle {cycle}\n{RESTORED}").expect(rt, "memory");
    compare(rt, more.as_str(), &given, 0, "", reported.as_str());
}

#[test]
fn a_migration_is_cut_at_each_of_its_cycles(rt: HostRuntime) {
    let alloc = rt.alloc();
    for cycle in 1..24u64 {
        cut_after(&rt, alloc, cycle, 0);
        cut_after(&rt, alloc, cycle, 1);
    }
}

/// Resumes what was saved under T, over a device that never fails: it has the same checkpoint. Returns the cycles.
fn restores(rt: &impl Abort, alloc: Global, shelf: &mut MemShelf, behind: &str) -> u64 {
    let given = called(rt, alloc, RESUMES_AGAIN, shelf);
    compare(rt, behind, &given, 0, "", RESTORED);
    given.cycles
}

/// The image of version 2 that is saved after a migration: the header stays, and the commit block names version 2 and the
/// same epoch. The slot has the blocks of the old one and a block of zeros.
fn migrated(rt: &impl Abort, alloc: Global) -> Vec<u8> {
    let mut bytes = saved(rt, alloc, BYTES_TWO);
    let image = bytes.as_mut_slice();
    put(image, 64, 0x3254_4d43_4e59_4854);
    for (at, word) in &SAVED {
        if *at >= 576 && *at < 1024 {
            put(image, SLOT + (*at - 576), *word);
        }
    }
    bytes
}

/// The checkpoint of a migrated image is restored without a migration.
#[test]
fn what_is_saved_after_a_migration_is_of_version_2(rt: HostRuntime) {
    let alloc = rt.alloc();
    let mut shelf = shelf(&rt, alloc, BYTES_ONE);
    let line = "thynvm resume D --pages 8 --btt 8 --ptt 8 --save T";
    expect_on(&rt, alloc, line, &mut shelf, 0, RESTORED);
    let image = held(&rt, alloc, &mut shelf, "T");
    let want = migrated(&rt, alloc);
    check(&rt, image.as_slice() == want.as_slice(), line);
    let cycles = restores(&rt, alloc, &mut shelf, RESUMES_AGAIN);
    check(&rt, cycles == 10, RESUMES_AGAIN);
}

/// Resumes it over a device that fails at this call, and saves what a last cut of this pick leaves under T.
fn fails_at(rt: &impl Abort, alloc: Global, call: u64, is_late: bool, pick: u64) {
    let line = format!(in alloc; "{RESUMES} --save T --tears {pick}").expect(rt, "memory");
    let at = format!(in alloc; "call {call} of {line}").expect(rt, "memory");
    let mut shelf = shelf(rt, alloc, BYTES_ONE);
    let mut nvm = failing_at(rt, alloc, call, is_late);
    let given = called_over(rt, alloc, line.as_str(), &mut shelf, &mut nvm);
    compare(rt, at.as_str(), &given, 7, "", "nvm failed\n");
    restores(rt, alloc, &mut shelf, at.as_str());
}

/// Each of its 24 cycles makes one call of the NVM. Whichever fails, and whether or not it is done, the next boot
/// restores the same checkpoint.
fn each_call_fails(rt: &impl Abort, alloc: Global, is_late: bool) {
    for call in 1..25u64 {
        fails_at(rt, alloc, call, is_late, 0);
        fails_at(rt, alloc, call, is_late, 1);
    }
}

/// After them the states of the restart and of the end are read, each with the 448 blocks of program memory, and nothing
/// else is called.
#[test]
fn each_call_of_a_migration_may_fail(rt: HostRuntime) {
    let alloc = rt.alloc();
    each_call_fails(&rt, alloc, false);
    each_call_fails(&rt, alloc, true);
    let mut nvm = MemNvm::new(alloc);
    let mut shelf = shelf(&rt, alloc, BYTES_ONE);
    let given = called_over(&rt, alloc, RESUMES, &mut shelf, &mut nvm);
    compare(&rt, RESUMES, &given, 0, "", RESTORED);
    check(&rt, nvm.calls() == 24 + 2 * 448, RESUMES);
}

/// Stops at this limit and saves what a last cut of this pick leaves: it is read, and migrated again unless the commit
/// block of version 2 has landed.
fn stops_after(rt: &impl Abort, alloc: Global, limit: u64, pick: u64, has_landed: bool) {
    let line = format!(in alloc; "{RESUMES} --limit {limit} --save T --tears {pick}").expect(
        rt, "memory",
    );
    let reported = format!(in alloc; "limit {limit}\n").expect(rt, "memory");
    let mut shelf = shelf(rt, alloc, BYTES_ONE);
    let given = called(rt, alloc, line.as_str(), &mut shelf);
    compare(rt, line.as_str(), &given, 8, "", reported.as_str());
    let cycles = restores(rt, alloc, &mut shelf, line.as_str());
    check(
        rt,
        cycles == if has_landed { 10 } else { 24 },
        line.as_str(),
    );
}

/// A run that stops at its limit meanwhile saves an image in which the new slot may be written in part. The commit block
/// of version 2 has landed by the drain in cycle 23, or by the last cut.
#[test]
fn a_migration_is_stopped_after_each_of_its_cycles(rt: HostRuntime) {
    let alloc = rt.alloc();
    for limit in 1..24u64 {
        stops_after(&rt, alloc, limit, 0, limit > 22);
        stops_after(&rt, alloc, limit, 1, limit >= 22);
    }
}
