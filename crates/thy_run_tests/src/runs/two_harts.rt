//! Runs of two harts: whose turns they took, and their states against the plain machine that takes the same turns.
ghost use Rattle.std.specs.Prelude.{◌≡◌};
ghost use Rattle.thy_block.specs.Geometry.{program_size};

use crate::runs::{answered, called, check, compare, expect_on};
use crate::support::expect::expect_at;
use std::alloc::Global;
use std::process::Abort;
use thy_base::{Bytes, Geometry, Parameters, Shelf};
use thy_cli::Answer;
use thy_elf::read;
use thy_isa::MachState;
use thy_out::MemShelf;
use thy_plain::Plain;
use thy_test_support::{SMALLEST, file_of, geometry_of, patched, shelf_of};
use thy_text::Event;

/// Both harts add 1 to the word at 69632. Who comes second exits with 7; who came first waits in a loop of one word.
/// `addi x5,x0,1`, `lui x6,0x11`, `amoadd.d a1,x5,(x6)`, `addi a2,x0,1`, `bne a1,x0,+8`, `jal x0,0`, `addi a0,a1,6`,
/// `addi a7,x0,93`, `ecall`.
static SECOND_EXITS: [u32; 9] = [
    0x00100293, 0x00011337, 0x005335AF, 0x00100613, 0x00059463, 0x0000006F, 0x00658513, 0x05D00893,
    0x00000073,
];

/// Each hart takes the lock at 69632 four times, by LR and SC, and adds 1 to the word beside it. Who is last to add 1 to a
/// third word exits with what they counted, 8. `lui x6,0x11`, `addi x7,x0,4`, `addi x5,x0,1`, `addi x15,x6,16`;
/// `lr.d a1,(x6)`, `bne a1,x0,-4`, `sc.d a2,x5,(x6)`, `bne a2,x0,-12`; `ld a3,8(x6)`, `addi a3,a3,1`, `sd a3,8(x6)`;
/// `sd x0,(x6)`, `addi x7,x7,-1`, `bne x7,x0,-36`; `amoadd.d a4,x5,(x15)`, `bne a4,x0,+8`, `jal x0,0`, `ld a0,8(x6)`,
/// `addi a7,x0,93`, `ecall`.
static LOCKS: [u32; 20] = [
    0x00011337, 0x00400393, 0x00100293, 0x01030793, 0x100335AF, 0xFE059EE3, 0x1853362F, 0xFE061AE3,
    0x00833683, 0x00168693, 0x00D33423, 0x00033023, 0xFFF38393, 0xFC039EE3, 0x0057B72F, 0x00071463,
    0x0000006F, 0x00833503, 0x05D00893, 0x00000073,
];

/// The smallest machine, with two harts.
static PAIR: Parameters = Parameters {
    harts: 2,
    ..SMALLEST
};

fn pair(rt: &impl Abort, alloc: Global) -> Geometry
    ensures { program_size result ≡ 28672 }
{
    geometry_of(alloc, &PAIR).expect(rt, "numbers in range")
}

/// The plain machine of two harts with this program file, after these turns.
fn by_turns(rt: &impl Abort, alloc: Global, file: &[u8], turns: &[u8]) -> Plain {
    let image = read(alloc, file, 65536, 28672).expect(rt, "an image");
    let mut plain = Plain::load(alloc, &image, &pair(rt, alloc), Bytes::new(alloc)).expect(
        rt, "memory",
    );
    for hart in turns {
        assert!(rt; *hart <= 1 && plain.count() < 1 << 62);
        plain.step_of(*hart);
    }
    plain
}

/// Whether two states are one in all that a program sees.
fn is_same(a: &MachState, b: &MachState) -> bool {
    a.pc == b.pc
        && a.regs == b.regs
        && a.other == b.other
        && a.count == b.count
        && a.status == b.status
        && a.cursor == b.cursor
        && a.brk == b.brk
        && a.memory.as_slice() == b.memory.as_slice()
        && a.console.as_slice() == b.console.as_slice()
}

/// By the events so far, whose turns led to the committed checkpoint, and to the sealed one.
#[derive(Drop)]
struct Turns {
    kept: Vec<u8>,
    sealed_epoch: Option<u64>,
    sealed: Vec<u8>,
}

/// The turns while a file is loaded: there are none.
fn none(alloc: Global) -> Turns {
    Turns {
        kept: Vec::new(alloc),
        sealed_epoch: None,
        sealed: Vec::new(alloc),
    }
}

/// The turns that led to the committed checkpoint, followed by the turns of one more epoch.
fn with_epoch(rt: &impl Abort, alloc: Global, kept: &[u8], turns: &[u8]) -> Vec<u8> {
    let mut all = Vec::from_slice(alloc, kept).expect(rt, "memory");
    all.extend_from_slice(turns).expect(rt, "memory");
    all
}

/// The turns after one more event.
fn with_event(rt: &impl Abort, alloc: Global, turns: Turns, event: &Event) -> Turns {
    let Turns {
        kept,
        sealed_epoch,
        sealed,
    } = turns;
    match event {
        Event::EpochEnd { epoch, turns, .. } => Turns {
            sealed: with_epoch(rt, alloc, kept.as_slice(), turns.as_slice()),
            kept,
            sealed_epoch: Some(*epoch),
        },
        Event::Commit { .. } => Turns {
            kept: sealed,
            sealed_epoch: None,
            sealed: Vec::new(alloc),
        },
        Event::Restart { epoch, .. } => Turns {
            kept: if sealed_epoch == Some(*epoch) {
                sealed
            } else {
                kept
            },
            sealed_epoch: None,
            sealed: Vec::new(alloc),
        },
        Event::Reload | Event::Scheme { .. } => none(alloc),
        Event::Cut { .. } | Event::Ended { .. } => Turns {
            kept,
            sealed_epoch,
            sealed,
        },
    }
}

/// A shelf with a file under the name H.
fn shelf(rt: &impl Abort, alloc: Global, file: &[u8]) -> MemShelf {
    shelf_of(alloc, &[], &[("H", file)]).expect(rt, "memory")
}

/// Compares a state with the plain machine's after these turns.
fn stands(rt: &impl Abort, alloc: Global, file: &[u8], turns: &Turns, state: &MachState, at: &str) {
    let plain = by_turns(rt, alloc, file, turns.kept.as_slice());
    check(rt, is_same(state, &plain.into_state()), at);
}

/// Compares each state of an answer's events with the state of the plain machine which takes the turns that the events
/// before it list. Returns how many runs have ended.
fn ends_by_turns(rt: &impl Abort, alloc: Global, file: &[u8], answer: &Answer, at: &str) -> u64 {
    let mut turns = none(alloc);
    let mut ends = 0u64;
    for i in 0..answer.events.len() {
        let event = answer.events.get(i);
        turns = with_event(rt, alloc, turns, event);
        match event {
            Event::Restart { state, .. } => stands(rt, alloc, file, &turns, state, at),
            Event::Ended { state, .. } => {
                stands(rt, alloc, file, &turns, state, at);
                ends = ends.saturating_add(1);
            }
            _ => {}
        }
    }
    ends
}

/// Runs a line over a file, and compares these states.
fn expect_by_turns(rt: &impl Abort, alloc: Global, file: &[u8], line: &str) {
    let answer = answered(rt, alloc, line, &mut shelf(rt, alloc, file));
    let ends = ends_by_turns(rt, alloc, file, &answer, line);
    check(rt, answer.status == 0 && ends > 0, line);
}

/// Whether turns are these digits.
fn are_digits(turns: &[u8], digits: &str) -> bool {
    let digits = digits.as_bytes();
    for (turn, digit) in turns.iter().zip(digits) {
        if digit.wrapping_sub(b'0') != *turn {
            return false;
        }
    }
    turns.len() == digits.len()
}

/// Runs of SECOND_EXITS by the seeds 0 to 4, without a cut: the turns of the one epoch, how many of them each hart took, and
/// the cycles.
static SEEDS: [(&str, u64, u64, u64); 5] = [
    ("0010010110010100101", 11, 8, 730),
    ("0101010101010101", 8, 8, 725),
    ("010101011010101", 7, 8, 748),
    ("1010101001011010", 8, 8, 722),
    ("0100100010010101011", 11, 8, 728),
];

/// Whether the turns of each epoch of an answer are these digits.
fn are_turns(answer: &Answer, digits: &str) -> bool {
    for i in 0..answer.events.len() {
        if let Event::EpochEnd { turns, .. } = answer.events.get(i) {
            if !are_digits(turns.as_slice(), digits) {
                return false;
            }
        }
    }
    true
}

/// Runs SECOND_EXITS by a seed, and compares turns, cycles and report.
fn expect_seed(rt: &impl Abort, alloc: Global, seed: usize, row: &(&str, u64, u64, u64)) {
    let (digits, zero, one, cycles) = *row;
    let line = format!(in alloc;
        "thynvm run H --pages 8 --btt 8 --ptt 8 --harts 2 --mix {seed}"
    ).expect(rt, "memory");
    let file = file_of(alloc, &SECOND_EXITS).expect(rt, "memory");
    let answer = answered(
        rt,
        alloc,
        line.as_str(),
        &mut shelf(rt, alloc, file.as_slice()),
    );
    let is_whole = answer.status == 0 && answer.cycles == cycles;
    check(rt, is_whole && are_turns(&answer, digits), line.as_str());
    let sum = zero.saturating_add(one);
    let report = format!(in alloc;
        "commit 0 overlapped 0\n\
         epoch 1 ends at {sum} by end harts {zero} {one}\n\
         commit 1 overlapped 0\n\
         exit 7 at {sum}\n"
    )
    .expect(rt, "memory");
    let mut shelf = shelf(rt, alloc, file.as_slice());
    expect_on(rt, alloc, line.as_str(), &mut shelf, 0, report.as_str());
}

#[test]
fn the_hart_that_adds_second_exits(rt: HostRuntime) {
    for (seed, row) in SEEDS.iter().enumerate() {
        expect_seed(&rt, rt.alloc(), seed, row);
    }
}

/// Runs of SECOND_EXITS by the seeds 0 to 4, with a cut after cycle 720, which leaves the checkpoint of epoch 0. A row
/// has what is reported of the epoch that the cut undoes, if it was sealed, what each hart has retired in the one after
/// the restart, and the cycles.
static CUT_SEEDS: [(&str, u64, u64, u64); 5] = [
    ("epoch 1 ends at 19 by end harts 11 8\n", 10, 8, 800),
    ("epoch 1 ends at 16 by end harts 8 8\n", 9, 8, 795),
    ("", 8, 8, 798),
    ("epoch 1 ends at 16 by end harts 8 8\n", 10, 8, 800),
    ("epoch 1 ends at 19 by end harts 11 8\n", 10, 8, 799),
];

/// Runs it by a seed with this cut, and compares cycles and report.
fn expect_cut(rt: &impl Abort, alloc: Global, seed: usize, row: &(&str, u64, u64, u64)) {
    let (before, zero, one, cycles) = *row;
    let line = format!(in alloc;
        "thynvm run H --pages 8 --btt 8 --ptt 8 --harts 2 --mix {seed} --cuts 720 --tears 0"
    ).expect(rt, "memory");
    let sum = zero.saturating_add(one);
    let report = format!(in alloc;
        "commit 0 overlapped 0\n\
         {before}\
         cut 1 at cycle 720\n\
         restart 0 at 0\n\
         epoch 1 ends at {sum} by end harts {zero} {one}\n\
         commit 1 overlapped 0\n\
         exit 7 at {sum}\n"
    )
    .expect(rt, "memory");
    let file = file_of(alloc, &SECOND_EXITS).expect(rt, "memory");
    let given = called(
        rt,
        alloc,
        line.as_str(),
        &mut shelf(rt, alloc, file.as_slice()),
    );
    compare(rt, line.as_str(), &given, 0, "", report.as_str());
    check(rt, given.cycles == cycles, line.as_str());
}

#[test]
fn after_a_cut_the_harts_take_other_turns(rt: HostRuntime) {
    for (seed, row) in CUT_SEEDS.iter().enumerate() {
        expect_cut(&rt, rt.alloc(), seed, row);
    }
}

/// Options under which the harts that take a lock are run: each scheme, a gap, short epochs, and tables of other sizes.
static OPTIONS: [&str; 6] = [
    "--epoch 7",
    "--epoch 10 --gap 1",
    "--epoch 13 --scheme journal",
    "--epoch 9 --scheme shadow --gap 2",
    "--epoch 1",
    "--epoch 40 --sets 1 --ways 1 --nvmq 1 --dramq 1",
];

/// Runs the harts that take a lock with these options and this seed.
fn expect_locks(rt: &impl Abort, alloc: Global, file: &[u8], options: &str, seed: u64) {
    let line = format!(in alloc;
        "thynvm run H --pages 8 --btt 8 --ptt 8 --harts 2 --mix {seed} {options}"
    ).expect(rt, "memory");
    expect_by_turns(rt, alloc, file, line.as_str());
}

#[test]
fn the_events_list_the_turns_of_the_plain_machine(rt: HostRuntime) {
    let alloc = rt.alloc();
    let file = file_of(alloc, &LOCKS).expect(&rt, "memory");
    for options in &OPTIONS {
        for seed in 0..5u64 {
            expect_locks(&rt, alloc, file.as_slice(), options, seed);
        }
    }
}

/// Runs them with a cut after this cycle.
fn expect_cut_lock(rt: &impl Abort, alloc: Global, file: &[u8], cycle: u64) {
    let tear = cycle % 2;
    let line = format!(in alloc;
        "thynvm run H --pages 8 --btt 8 --ptt 8 --harts 2 --epoch 7 --cuts {cycle} --tears {tear}"
    ).expect(rt, "memory");
    expect_by_turns(rt, alloc, file, line.as_str());
}

#[test]
fn a_lock_is_cut_at_each_cycle(rt: HostRuntime) {
    let alloc = rt.alloc();
    let file = file_of(alloc, &LOCKS).expect(&rt, "memory");
    for cycle in 530..800u64 {
        expect_cut_lock(&rt, alloc, file.as_slice(), cycle);
    }
}

/// Compares runs of them by this seed.
fn expect_compared(rt: &impl Abort, alloc: Global, file: &[u8], seed: u64) {
    let line = format!(in alloc;
        "thynvm compare H --pages 8 --btt 8 --ptt 8 --harts 2 --epoch 7 --mix {seed}"
    ).expect(rt, "memory");
    expect_by_turns(rt, alloc, file, line.as_str());
}

#[test]
fn each_run_of_a_comparison_has_its_own_turns(rt: HostRuntime) {
    let alloc = rt.alloc();
    let file = file_of(alloc, &LOCKS).expect(&rt, "memory");
    for seed in 0..3u64 {
        expect_compared(&rt, alloc, file.as_slice(), seed);
    }
}

/// Where the second record of a saved image of epoch 1 begins: its slot is the one from block 1061 on, 13 after 1048,
/// and the record five blocks on, from block 1066.
const SECOND: usize = 68_224;

/// A place of that record, a byte that is put there, and what `resume` with two harts answers.
static RECORDS: [(usize, u8, u8, &str); 4] = [
    (0, 0x20, 0, "restart 1 at 19\nexit 7 at 19\n"),
    (32 * 8, 5, 5, "image 12 Second\n"),
    (39 * 8, 1, 5, "image 12 Second\n"),
    (32 * 8, 4, 0, "restart 1 at 19\nexit 7 at 19\n"),
];

/// What the shelf has under D: an image.
fn held(rt: &impl Abort, alloc: Global, shelf: &mut MemShelf) -> Vec<u8> {
    shelf
        .fetch(alloc, "D", 67_108_864)
        .expect(rt, "a saved image")
}

/// Resumes an image with other bytes from a place on.
fn expect_patched(
    rt: &impl Abort,
    alloc: Global,
    image: &[u8],
    at: usize,
    byte: u8,
    status: u8,
    report: &str,
) {
    let image = patched(alloc, image, at, &[byte]).expect(rt, "memory");
    let mut shelf = shelf_of(alloc, &[], &[("D", image.as_slice())]).expect(rt, "memory");
    let line = "thynvm resume D --pages 8 --btt 8 --ptt 8 --harts 2";
    expect_on(rt, alloc, line, &mut shelf, status, report);
}

#[test]
fn a_saved_run_of_two_harts_has_both_records(rt: HostRuntime) {
    let alloc = rt.alloc();
    let file = file_of(alloc, &SECOND_EXITS).expect(&rt, "memory");
    let mut shelf = shelf(&rt, alloc, file.as_slice());
    let line = "thynvm run H --pages 8 --btt 8 --ptt 8 --harts 2 --save D";
    called(&rt, alloc, line, &mut shelf);
    let saved = held(&rt, alloc, &mut shelf);
    check(&rt, saved.len() == 68_736, line);
    for (at, byte, status, report) in &RECORDS {
        let at = SECOND.saturating_add(*at);
        expect_patched(&rt, alloc, saved.as_slice(), at, *byte, *status, report);
    }
    let line = "thynvm resume D --pages 8 --btt 8 --ptt 8";
    expect_on(&rt, alloc, line, &mut shelf, 5, "image 4 Geometry\n");
}

/// Where words 72 to 79 of the record stand in slot 0 of such an image, which begins at block 1048: they are its tenth block.
const RESERVED: usize = 67_648;

/// Those words if neither hart has reserved anything, with the addresses 0x123450 and 0x11008. The second one is in the block
/// that hart 0 writes to.
static ADDRESSES: [u8; 64] = [
    0x00, 0x00, 0x00, 0x00, 0x00, 0x00, 0x00, 0x00, 0x50, 0x34, 0x12, 0x00, 0x00, 0x00, 0x00, 0x00,
    0x00, 0x00, 0x00, 0x00, 0x00, 0x00, 0x00, 0x00, 0x08, 0x10, 0x01, 0x00, 0x00, 0x00, 0x00, 0x00,
    0x00, 0x00, 0x00, 0x00, 0x00, 0x00, 0x00, 0x00, 0x00, 0x00, 0x00, 0x00, 0x00, 0x00, 0x00, 0x00,
    0x00, 0x00, 0x00, 0x00, 0x00, 0x00, 0x00, 0x00, 0x00, 0x00, 0x00, 0x00, 0x00, 0x00, 0x00, 0x00,
];

/// The image of a run of this program that stops before its first seal, with the checkpoint of epoch 0, which then gets these
/// addresses beside widths of 0.
fn begun(rt: &impl Abort, alloc: Global, program: &[u32]) -> Vec<u8> {
    let mut shelf = shelf_of(alloc, &[("H", program)], &[]).expect(rt, "memory");
    let line = "thynvm run H --pages 8 --btt 8 --ptt 8 --harts 2 --limit 700 --save D";
    let given = called(rt, alloc, line, &mut shelf);
    check(rt, given.status == 8, line);
    let image = held(rt, alloc, &mut shelf);
    patched(alloc, image.as_slice(), RESERVED, &ADDRESSES).expect(rt, "memory")
}

/// What is resumed from it ends with this status, and with the checkpoint of epoch 1, in slot 1, which begins at block 1061:
/// its record has these words, and these are its words 72 to 79.
fn expect_resumed(
    rt: &impl Abort,
    alloc: Global,
    program: &[u32],
    status: u8,
    words: &[(usize, u64)],
    reserved: &[u8],
) {
    let image = begun(rt, alloc, program);
    let mut shelf = shelf_of(alloc, &[], &[("D", image.as_slice())]).expect(rt, "memory");
    let line = "thynvm resume D --pages 8 --btt 8 --ptt 8 --harts 2 --save D";
    let given = called(rt, alloc, line, &mut shelf);
    check(rt, given.status == status, line);
    let saved = held(rt, alloc, &mut shelf);
    check(rt, saved.len() == 68_736, line);
    for (word, value) in words {
        let at = word.saturating_mul(8).saturating_add(67_904);
        expect_word(rt, saved.as_slice(), at, *value);
    }
    check(rt, saved.get(68_480..68_544) == Some(reserved), line);
}

/// Compares a word of an image.
fn expect_word(rt: &impl Abort, image: &[u8], at: usize, value: u64) {
    let word = image.get(at..at.saturating_add(8)).unwrap_or(&[]);
    expect_at(rt, word, value.to_le_bytes().as_slice(), at);
}

/// The first seal of the program is at cycle 710.
#[test]
fn addresses_with_nothing_reserved_are_saved_again(rt: HostRuntime) {
    expect_resumed(&rt, rt.alloc(), &SECOND_EXITS, 0, &[], &ADDRESSES);
}

/// Each hart counts down from 100, at two cycles or more an instruction, and then stores conditionally with nothing reserved,
/// and adds 1 to the word at 69632. Who comes second exits with 6 more than the result of its store.
/// `addi x7,x0,100`, `addi x7,x7,-1`, `bne x7,x0,-4`, `addi x5,x0,1`, `lui x6,0x11`, `sc.d a2,x5,(x6)`,
/// `amoadd.d a1,x5,(x6)`, `bne a1,x0,+8`, `jal x0,0`, `addi a0,a2,6`, `addi a7,x0,93`, `ecall`.
static STORES_UNRESERVED: [u32; 12] = [
    0x06400393, 0xFFF38393, 0xFE039EE3, 0x00100293, 0x00011337, 0x1853362F, 0x005335AF, 0x00059463,
    0x0000006F, 0x00660513, 0x05D00893, 0x00000073,
];

/// Each hart counts down from 100, and then stores conditionally to 69636, which is no multiple of 8. `lui x6,0x11`,
/// `addi x6,x6,4`, `sc.d a2,x5,(x6)`.
static STORES_MISALIGNED: [u32; 6] = [
    0x06400393, 0xFFF38393, 0xFE039EE3, 0x00011337, 0x00430313, 0x1853362F,
];

/// Of the record after the first program: a2 of both harts, exited, with 7. After the second: trapped, with cause 6.
static EXITED: [(usize, u64); 4] = [(12, 1), (52, 1), (36, 1), (37, 7)];

static TRAPPED: [(usize, u64); 2] = [(36, 2), (37, 6)];

/// When a hart exits from the first program both have stored in vain, and nothing is left of the addresses. The hart that comes
/// first in the second program traps, and both addresses are left.
#[test]
fn a_conditional_store_clears_its_harts_address_unless_it_traps(rt: HostRuntime) {
    let alloc = rt.alloc();
    expect_resumed(&rt, alloc, &STORES_UNRESERVED, 0, &EXITED, &[0; 64]);
    expect_resumed(&rt, alloc, &STORES_MISALIGNED, 1, &TRAPPED, &ADDRESSES);
}
