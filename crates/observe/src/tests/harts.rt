//! Runs of two harts.

use super::{
    Given, TRAP_OF_HART_1, TRAPS, called, called_over, check, expect_section, expect_text,
    has_line, has_start, shelf_of,
};
use std::alloc::Global;
use std::process::Abort;
use thy_nvm::MemNvm;
use thy_out::MemShelf;

/// Hart 0 stays at `beq a0,zero,0`. Hart 1 comes to `auipc t0,1`, and then to `sb zero,0(t0); addi t0,t0,64; jal zero,-8` again
/// and again, so each store is to another block.
static STORES: [u32; 5] = [0x00050063, 0x00001297, 0x00028023, 0x04028293, 0xff9ff06f];

/// Lines of the state after four instructions of the first of these runs: hart 1 is at the store then, and has reserved nothing;
/// its number is in a0, and its stack is below hart 0's.
static AT_THE_STORE: [&str; 8] = [
    "state-at 4",
    "count 4",
    "hart 0 10000",
    "x2 16f00",
    "reserved none",
    "hart 1 10004",
    "x2 16700",
    "x10 1",
];

#[test]
fn program_counters_are_those_of_the_hart_that_retires(rt: HostRuntime) {
    let alloc = rt.alloc();
    let (_, text) = TRAP_OF_HART_1[0];
    // Hart 0 retires the branch three times, hart 1 once, and then the store.
    let line = "thynvm --pcs run F --pages 8 --btt 8 --ptt 8 --harts 2";
    expect_section(&rt, alloc, line, &TRAPS, 1, text, "pcs\n10000 4\n10004 1\n");
    let line = "thynvm --state-at 4 run F --pages 8 --btt 8 --ptt 8 --harts 2";
    let given = called(&rt, alloc, line, &TRAPS);
    for line in &AT_THE_STORE {
        check(&rt, has_line(given.put.as_slice(), line), line);
    }
}

#[test]
fn the_trap_and_the_moves_are_of_the_hart_that_retires(rt: HostRuntime) {
    for (line, text) in &TRAP_OF_HART_1 {
        expect_text(&rt, rt.alloc(), line, &TRAPS, 1, text);
    }
}

/// The run stops with the seal of an epoch in which hart 1 finds no room for its ninth store. Its instruction is dropped after
/// two moves, its fetch and the securing of room, and these are no hart's: 82 is two more than both have.
static DROPPED: &str = "662 0 commit 0 overlapped 0\n\
    810 55 epoch 1 ends at 55 by exhausted 8 8 1 harts 29 26\n\
    cycles 810 boot 530 hart 146 engine 0 nvmdrain 134 dramdrain 0\n\
    hart moved 82 retired 55 flushed 8 merged 0 promoted 0 sealed 1\n\
    hart0 moved 30 retired 29\n\
    hart1 moved 50 retired 26\n\
    engine copied 0 page 0 state 0 table 0 barrier 0 commit 0 committed 0\n\
    waiting 0\n\
    nvm reads 10 writes 535 barriers 2\n\
    lost 0\n\
    epochs 1 early 1 overlapped 0\n";

#[test]
fn moves_of_a_dropped_instruction_are_no_harts(rt: HostRuntime) {
    let line = "thynvm run F --pages 8 --btt 8 --ptt 8 --harts 2 --limit 810";
    expect_text(&rt, rt.alloc(), line, &STORES, 8, DROPPED);
}

/// What a call for two harts of a scheme gives over this shelf, under this OUT, with this status.
fn with_two(
    rt: &impl Abort,
    alloc: Global,
    out: &str,
    call: &str,
    scheme: &str,
    shelf: &mut MemShelf,
    status: u8,
) -> Given {
    let line = format!(in alloc;
        "thynvm {call} --pages 8 --btt 8 --ptt 8 --harts 2 --scheme {scheme}"
    ).expect(rt, "memory");
    let given = called_over(rt, alloc, out, line.as_str(), shelf, MemNvm::new(alloc));
    check(rt, given.status == status, scheme);
    given
}

/// What a resumed run reports of the hart that traps, with a scheme.
fn resumes(rt: &impl Abort, alloc: Global, scheme: &str) {
    let mut shelf = shelf_of(rt, alloc, &TRAPS, &[]);
    // What is saved before the trap runs to it when it is resumed.
    with_two(
        rt,
        alloc,
        "P",
        "run F --limit 666 --save I",
        scheme,
        &mut shelf,
        8,
    );
    let given = with_two(rt, alloc, "O", "resume I", scheme, &mut shelf, 1);
    let trap = has_line(given.put.as_slice(), "trap 10004 503823 10 hart 1");
    check(rt, trap, scheme);
    // What is saved after it has ended, and no event of it says by which hart.
    with_two(rt, alloc, "Q", "run F --save J", scheme, &mut shelf, 1);
    let given = with_two(rt, alloc, "R", "resume J", scheme, &mut shelf, 1);
    check(rt, !has_start(given.put.as_slice(), "trap "), scheme);
    let none = has_line(given.put.as_slice(), "hart0 moved 0 retired 0");
    check(rt, none, scheme);
}

#[test]
fn a_resumed_run_reports_the_hart_that_it_saw(rt: HostRuntime) {
    for scheme in ["thynvm", "journal", "shadow"] {
        resumes(&rt, rt.alloc(), scheme);
    }
}
