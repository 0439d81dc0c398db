//! States and instructions after the totals.

use super::{TRAP_OF_HART_1, TRAPS, booting, called, check, ends_with, expect_section, follows};
use std::alloc::Global;
use std::process::Abort;

/// Adds a line of a state.
fn push_register(rt: &impl Abort, alloc: Global, text: &mut String, number: u64, value: u64) {
    let line = format!(in alloc; "x{number} {value:x}\n").expect(rt, "memory");
    text.push_str(line.as_str()).expect(rt, "memory");
}

/// What a register of this program has, if a0 has this.
fn value_of(number: u64, a0: u64) -> u64 {
    match number {
        2 => 0x16f00,
        10 => a0,
        17 => 0x5d,
        _ => 0,
    }
}

/// The state of this program with a0 and the program counter after some of its instructions: the stack pointer is 256 bytes
/// below the end of program memory, and the 12 bytes of the program are two lines.
fn state_text(rt: &impl Abort, alloc: Global, head: &str, pc: u64, count: u64, a0: u64) -> String {
    let mut text = format!(in alloc;
        "{head}\nrunning\ncount {count}\nconsole 0\ncursor 0\nbreak 10010\nhart 0 {pc:x}\n"
    ).expect(rt, "memory");
    for number in 1..32u64 {
        push_register(rt, alloc, &mut text, number, value_of(number, a0));
    }
    let memory = "memory 10000 28672\n10000 70051305d00893\n10008 73\n";
    text.push_str(memory).expect(rt, "memory");
    text
}

/// Options, and what follows the totals of the second of these runs with them. In cycle 704 the second instruction is fetched,
/// in 705 it retires, and then power is cut; in 715 the restart is over. Three instructions end the run.
static STATES: [(&str, &str, u64, u64, u64); 4] = [
    ("--state 704", "state 704", 0x10004, 1, 0),
    ("--state-at 1", "state-at 1", 0x10004, 1, 0),
    ("--state-at 2", "state-at 2", 0x10008, 2, 7),
    ("--state 721", "state 721", 0x10008, 2, 7),
];

/// Options, and what follows the totals then: none after the cut, in the boot, after the end, and beyond the last instruction.
static NO_STATES: [(&str, &str); 6] = [
    ("--state 705", "state 705\nnone\n"),
    ("--state 714", "state 714\nnone\n"),
    ("--state 737", "state 737\nnone\n"),
    ("--state 0", "state 0\nnone\n"),
    ("--state-at 4", "state-at 4\nnone\n"),
    (
        "--state-at 4 --pcs --state 705",
        "pcs\n10000 2\n10004 2\n10008 1\nstate 705\nnone\nstate-at 4\nnone\n",
    ),
];

/// Compares a state after the totals.
fn has_state(rt: &impl Abort, alloc: Global, row: &(&str, &str, u64, u64, u64)) {
    let (options, head, pc, count, a0) = *row;
    let state = state_text(rt, alloc, head, pc, count, a0);
    follows(rt, alloc, options, state.as_str());
}

#[test]
fn a_state_follows_the_totals(rt: HostRuntime) {
    let alloc = rt.alloc();
    for row in &STATES {
        has_state(&rt, alloc, row);
    }
    for (options, section) in &NO_STATES {
        follows(&rt, alloc, options, section);
    }
}

/// What follows the totals of the second of these runs with a trace. The restart is over in cycle 715, and the line of the
/// instructions is filled after it again.
static TRACED: [(&str, &str); 6] = [
    (
        "--trace",
        "trace\n703 0 10000 5d00893\n705 0 10004 700513\n718 0 10000 5d00893\n720 0 10004 700513\n722 0 10008 73\n",
    ),
    (
        "--trace-to 2 --trace --trace-from 2",
        "trace\n705 0 10004 700513\n720 0 10004 700513\n",
    ),
    ("--trace --trace-from 3", "trace\n722 0 10008 73\n"),
    (
        "--trace-to 1 --trace",
        "trace\n703 0 10000 5d00893\n718 0 10000 5d00893\n",
    ),
    ("--trace --trace-from 4", "trace\nnone\n"),
    (
        "--trace --trace-from 4 --state-at 4 --pcs",
        "pcs\n10000 2\n10004 2\n10008 1\nstate-at 4\nnone\ntrace\nnone\n",
    ),
];

#[test]
fn the_instructions_follow_the_totals(rt: HostRuntime) {
    let alloc = rt.alloc();
    for (options, section) in &TRACED {
        follows(&rt, alloc, options, section);
    }
    let given = booting(&rt, alloc, "--trace");
    let is_empty = given.put.as_slice().ends_with(b"trace\nnone\n");
    check(&rt, is_empty, "trace none");
}

/// `auipc t0,1; sw t0,4(t0); lbu t1,5(t0); addi a7,zero,93; ecall`.
static STORES_AND_LOADS: [u32; 5] = [0x00001297, 0x0052a223, 0x0052c303, 0x05d00893, 0x00000073];

#[test]
fn a_trace_has_what_was_stored_and_loaded(rt: HostRuntime) {
    let alloc = rt.alloc();
    // The loading takes 700 cycles. The first instruction has a line to be filled, and so has the store, which makes a
    // reservation too: its cycles are 704 to 708. The load has the block of the store, of which it loads the second byte.
    let rows =
        "trace\n703 0 10000 1297\n708 0 10004 52a223 11004 4 11000\n711 0 10008 52c303 11005 1 10\n\
         713 0 1000c 5d00893\n715 0 10010 73\n";
    let line = "thynvm --trace run F --pages 8 --btt 8 --ptt 8";
    let given = called(&rt, alloc, line, &STORES_AND_LOADS);
    check(&rt, given.status == 0, line);
    check(&rt, given.put.as_slice().ends_with(rows.as_bytes()), line);
    // A store that traps, by hart 1, stores nothing. The harts take turns from the first instruction of hart 1 on.
    let (_, text) = TRAP_OF_HART_1[0];
    let rows =
        "trace\n665 0 10000 50063\n667 0 10000 50063\n669 1 10000 50063\n671 0 10000 50063\n673 1 10004 503823\n";
    let line = "thynvm --trace run F --pages 8 --btt 8 --ptt 8 --harts 2";
    expect_section(&rt, alloc, line, &TRAPS, 1, text, rows);
}
