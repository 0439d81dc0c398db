//! The plain machine's steps on a few programs.
ghost use Rattle.std.specs.Prelude.{◌≡◌, ◌<◌};
ghost use Rattle.thy_block.specs.Geometry.{memory_blocks, program_size};

use crate::support::expect::expect;
use std::alloc::Global;
use std::process::Abort;
use thy_base::{Bytes, Geometry};
use thy_isa::{Reg, Status};
use thy_plain::{Plain, start_of};
use thy_test_support::{SMALLEST, geometry_of, image_of};

pub(crate) fn smallest(rt: &impl Abort, alloc: Global) -> Geometry
    ensures program { program_size result ≡ 28672 }
    ensures memory { memory_blocks result ≡ 512 }
{
    geometry_of(alloc, &SMALLEST).expect(rt, "numbers in range")
}

/// The machine at the start of a program of these words, with nothing to read.
fn start(rt: &impl Abort, alloc: Global, words: &[u32]) -> Plain
    ensures { result.state.count ≡ 0 }
{
    start_with(rt, alloc, words, b"")
}

/// The machine at the start of a program of these words, with this input.
pub(crate) fn start_with(rt: &impl Abort, alloc: Global, words: &[u32], input: &[u8]) -> Plain
    ensures { result.state.count ≡ 0 }
{
    let image = image_of(alloc, words).expect(rt, "memory");
    let input = Bytes::from_vec(Vec::from_slice(alloc, input).expect(rt, "memory"));
    Plain::load(alloc, &image, &smallest(rt, alloc), input).expect(rt, "memory")
}

/// Compares the status, the count and the pc of a machine.
fn stands(rt: &impl Abort, plain: &Plain, status: Status, count: u64, pc: u64) {
    expect(
        rt,
        (plain.status(), plain.count(), plain.pc(0)),
        (status, count, pc),
    );
}

/// Compares what a register holds.
fn holds(rt: &impl Abort, plain: &Plain, register: u8, want: u64)
    requires { register < 32 }
{
    expect(rt, plain.cpu(0).regs.get(Reg::new(register)), want);
}

/// `addi a7, zero, 93`, `addi a0, zero, 7`, `ecall`.
static EXIT_SEVEN: [u32; 3] = [0x05d00893, 0x00700513, 0x00000073];

#[test]
fn a_program_exits_with_seven(rt: HostRuntime) {
    let mut plain = start(&rt, rt.alloc(), &EXIT_SEVEN);
    expect(&rt, plain.run(100), 3);
    stands(&rt, &plain, Status::Exited(7), 3, 65544);
}

#[test]
fn a_run_ends_at_its_limit(rt: HostRuntime) {
    let mut plain = start(&rt, rt.alloc(), &EXIT_SEVEN);
    expect(&rt, plain.run(2), 2);
    stands(&rt, &plain, Status::Running, 2, 65544);
    holds(&rt, &plain, 10, 7);
}

#[test]
fn a_step_is_one_instruction(rt: HostRuntime) {
    let mut plain = start(&rt, rt.alloc(), &EXIT_SEVEN[..2]);
    plain.step();
    stands(&rt, &plain, Status::Running, 1, 65540);
    holds(&rt, &plain, 17, 93);
}

/// `sd zero, 0(sp)`, then `jalr x1, 2(x0)`, which traps for its target and leaves x1.
static ODD_JUMP: [u32; 2] = [0x00013023, 0x002000e7];

#[test]
fn a_jump_to_an_odd_place_traps(rt: HostRuntime) {
    let mut plain = start(&rt, rt.alloc(), &ODD_JUMP);
    expect(&rt, plain.run(5), 2);
    stands(&rt, &plain, Status::Trapped(0), 2, 65540);
    holds(&rt, &plain, 1, 0);
}

#[test]
fn a_program_starts_at_its_entry(rt: HostRuntime) {
    let start = start_of(
        rt.alloc(),
        image_of(rt.alloc(), &[]).expect(&rt, "memory"),
        &smallest(&rt, rt.alloc()),
    );
    expect(&rt, start.pc, 65536);
    expect(&rt, start.regs.get(Reg::new(2)), 93952);
    expect(&rt, start.brk, 65552);
    expect(&rt, start.memory.len(), 28672);
}

/// `addi a7, zero, 64`, `addi a0, zero, 1`, `lui a1, 16`, `addi a2, zero, 100`, `ecall`: 100 bytes from the base
/// on; then `addi a0, zero, 1`, `addi a1, a1, 64`, `addi a2, zero, 36`, `ecall`: the 36 that are left.
static WRITES: [u32; 9] = [
    0x04000893, 0x00100513, 0x000105b7, 0x06400613, 0x00000073, 0x00100513, 0x04058593, 0x02400613,
    0x00000073,
];

#[test]
fn a_write_of_a_hundred_bytes_takes_two_calls(rt: HostRuntime) {
    let mut plain = start(&rt, rt.alloc(), &WRITES);
    expect(&rt, plain.run(5), 5);
    holds(&rt, &plain, 10, 64);
    let mut plain = start(&rt, rt.alloc(), &WRITES);
    expect(&rt, plain.run(9), 9);
    holds(&rt, &plain, 10, 36);
    let first = plain.memory().as_slice();
    expect(&rt, first.len(), 28672);
    expect(
        &rt,
        plain.console().as_slice(),
        &first[..first.len().min(100)],
    );
}

/// `addi a7, zero, 63`, `addi a0, zero, 0`, `lui a1, 23`, `addi a1, a1, -2`, `addi a2, zero, 4`, `ecall`: to two
/// bytes before the end of memory; then `addi a0, zero, 0`, `addi a1, a1, -2`, `ecall`: two bytes lower.
static READS: [u32; 9] = [
    0x03f00893, 0x00000513, 0x000175b7, 0xffe58593, 0x00400613, 0x00000073, 0x00000513, 0xffe58593,
    0x00000073,
];

#[test]
fn a_read_past_the_end_of_memory_keeps_the_cursor(rt: HostRuntime) {
    let mut plain = start_with(&rt, rt.alloc(), &READS, b"abcd");
    expect(&rt, plain.run(6), 6);
    holds(&rt, &plain, 10, 0xffff_ffff_ffff_fff2);
    expect(&rt, plain.cpu(0).cursor, 0);
    let mut plain = start_with(&rt, rt.alloc(), &READS, b"abcd");
    expect(&rt, plain.run(9), 9);
    holds(&rt, &plain, 10, 4);
    expect(&rt, plain.cpu(0).cursor, 4);
    let end = plain.memory().as_slice();
    expect(&rt, &end[end.len().saturating_sub(4)..], b"abcd".as_slice());
}

/// `addi a7, zero, 214`, `addi a0, zero, 0`, `ecall`: a machine whose stack is too low for any break.
static BREAKS: [u32; 3] = [0x0d600893, 0x00000513, 0x00000073];

#[test]
fn a_break_that_is_refused_answers_the_old_one(rt: HostRuntime) {
    let mut plain = start(&rt, rt.alloc(), &BREAKS);
    expect(&rt, plain.run(3), 3);
    holds(&rt, &plain, 10, 65552);
    stands(&rt, &plain, Status::Running, 3, 65548);
}
