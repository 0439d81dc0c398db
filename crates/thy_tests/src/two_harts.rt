//! Two harts on the plain machine, turn by turn: who has reserved what, and what a conditional store comes to.
ghost use Rattle.std.specs.Prelude.{◌≡◌, ◌<◌};
ghost use Rattle.thy_block.specs.Geometry.{program_size};

use crate::plain::start_with;
use crate::support::expect::{expect, expect_at};
use std::alloc::Global;
use std::process::Abort;
use thy_base::{Bytes, Geometry, Parameters};
use thy_isa::{OtherHart, Reg, Reservation, Status};
use thy_plain::Plain;
use thy_test_support::{SMALLEST, geometry_of, image_of};

/// The smallest machine, with two harts: program memory is from 65536 to 94208.
static PAIR: Parameters = Parameters {
    harts: 2,
    ..SMALLEST
};

fn pair(rt: &impl Abort, alloc: Global) -> Geometry
    ensures { program_size result ≡ 28672 }
{
    geometry_of(alloc, &PAIR).expect(rt, "numbers in range")
}

/// A program of these words and this input, after these turns.
fn after_reading(
    rt: &impl Abort,
    alloc: Global,
    words: &[u32],
    turns: &[u8],
    input: &[u8],
) -> Plain {
    let image = image_of(alloc, words).expect(rt, "memory");
    let input = Bytes::from_vec(Vec::from_slice(alloc, input).expect(rt, "memory"));
    let mut plain = Plain::load(alloc, &image, &pair(rt, alloc), input).expect(rt, "memory");
    for hart in turns {
        assert!(rt; *hart <= 1 && plain.count() < 1 << 62);
        plain.step_of(*hart);
    }
    plain
}

/// A program of these words after these turns, with nothing to read.
fn after(rt: &impl Abort, alloc: Global, words: &[u32], turns: &[u8]) -> Plain {
    after_reading(rt, alloc, words, turns, b"")
}

/// Hart 1, with the reservations of both.
fn second(rt: &impl Abort, plain: &Plain) -> OtherHart {
    plain.cpu(0).other.expect(rt, "a second hart")
}

/// Compares what a register of hart 0 holds, and of hart 1.
fn hold(rt: &impl Abort, plain: &Plain, register: u8, zero: u64, one: u64)
    requires { register < 32 }
{
    let x = Reg::new(register);
    let held = (plain.cpu(0).regs.get(x), second(rt, plain).regs.get(x));
    expect(rt, held, (zero, one));
}

/// Compares what both harts have reserved.
fn have_reserved(rt: &impl Abort, plain: &Plain, zero: Reservation, one: Reservation) {
    let other = second(rt, plain);
    expect(rt, (other.front, other.back), (zero, one));
}

/// Compares the two words of 64 bits from 69632 on.
fn keeps(rt: &impl Abort, plain: &Plain, first: u64, second: u64) {
    let memory = plain.memory().as_slice();
    assert!(rt; memory.len() == 28672);
    expect(rt, &memory[4096..4104], first.to_le_bytes().as_slice());
    expect(rt, &memory[4104..4112], second.to_le_bytes().as_slice());
}

/// Compares the status and the count of a machine.
fn stands(rt: &impl Abort, plain: &Plain, status: Status, count: u64) {
    expect(rt, (plain.status(), plain.count()), (status, count));
}

/// `lui x6,0x11` (69632), `addi x5,x0,1`, `lr.d a1,(x6)`, `sc.d a2,x5,(x6)`.
static ADDS: [u32; 4] = [0x00011337, 0x00100293, 0x100335AF, 0x1853362F];

#[test]
fn a_conditional_store_of_reserved_bytes_stores(rt: HostRuntime) {
    let plain = after(&rt, rt.alloc(), &ADDS, &[0, 0, 0]);
    have_reserved(
        &rt,
        &plain,
        Reservation::Double(69632),
        Reservation::Nothing(0),
    );
    keeps(&rt, &plain, 0, 0);
    let plain = after(&rt, rt.alloc(), &ADDS, &[0, 0, 0, 0]);
    hold(&rt, &plain, 12, 0, 0);
    have_reserved(
        &rt,
        &plain,
        Reservation::Nothing(0),
        Reservation::Nothing(0),
    );
    keeps(&rt, &plain, 1, 0);
    stands(&rt, &plain, Status::Running, 4);
}

#[test]
fn the_second_hart_begins_at_the_entry_with_its_own_stack(rt: HostRuntime) {
    let plain = after(&rt, rt.alloc(), &ADDS, &[0, 0, 0, 0]);
    expect(&rt, (plain.pc(0), second(&rt, &plain).pc), (65552, 65536));
    hold(&rt, &plain, 2, 93952, 91904);
    hold(&rt, &plain, 10, 0, 1);
    hold(&rt, &plain, 6, 69632, 0);
}

#[test]
fn who_stores_first_takes_the_others_reservation(rt: HostRuntime) {
    let plain = after(&rt, rt.alloc(), &ADDS, &[0, 0, 0, 1, 1, 1]);
    let reserved = Reservation::Double(69632);
    have_reserved(&rt, &plain, reserved, reserved);
    let plain = after(&rt, rt.alloc(), &ADDS, &[0, 0, 0, 1, 1, 1, 1]);
    have_reserved(
        &rt,
        &plain,
        Reservation::Nothing(0),
        Reservation::Nothing(0),
    );
    let plain = after(&rt, rt.alloc(), &ADDS, &[0, 0, 0, 1, 1, 1, 1, 0]);
    hold(&rt, &plain, 12, 1, 0);
    keeps(&rt, &plain, 1, 0);
    stands(&rt, &plain, Status::Running, 8);
}

/// The program ADDS, with `sd x5,8(x6)` before the conditional store.
static STORES_BETWEEN: [u32; 5] = [0x00011337, 0x00100293, 0x100335AF, 0x00533423, 0x1853362F];

#[test]
fn a_harts_own_store_keeps_its_reservation(rt: HostRuntime) {
    let plain = after(&rt, rt.alloc(), &STORES_BETWEEN, &[0, 0, 0, 0, 0]);
    hold(&rt, &plain, 12, 0, 0);
    keeps(&rt, &plain, 1, 1);
}

#[test]
fn each_store_takes_the_others_reservation(rt: HostRuntime) {
    let turns = [0, 0, 0, 1, 1, 1, 1, 0, 0, 1];
    let plain = after(&rt, rt.alloc(), &STORES_BETWEEN, &turns);
    hold(&rt, &plain, 12, 1, 1);
    keeps(&rt, &plain, 0, 1);
    stands(&rt, &plain, Status::Running, 10);
}

/// `lui x6,0x11`, `addi x5,x0,1`, `sc.d a2,x5,(x6)`, `lr.d a1,(x6)`, `sc.d a3,x5,(x6)`.
static STORES_FIRST: [u32; 5] = [0x00011337, 0x00100293, 0x1853362F, 0x100335AF, 0x185336AF];

#[test]
fn a_conditional_store_that_fails_takes_nothing_of_the_other(rt: HostRuntime) {
    let turns = [0, 0, 0, 0, 1, 1, 1, 0, 1, 1];
    let plain = after(&rt, rt.alloc(), &STORES_FIRST, &turns);
    hold(&rt, &plain, 12, 1, 1);
    hold(&rt, &plain, 13, 0, 0);
    hold(&rt, &plain, 11, 0, 1);
    keeps(&rt, &plain, 1, 0);
}

/// `lui x6,0x11`, `addi x5,x0,1`, `lr.w a1,(x6)`, `sc.d a2,x5,(x6)`, `sc.w a3,x5,(x6)`.
static OTHER_WIDTH: [u32; 5] = [0x00011337, 0x00100293, 0x100325AF, 0x1853362F, 0x185326AF];

#[test]
fn a_conditional_store_of_another_width_uses_the_reservation_up(rt: HostRuntime) {
    let plain = after(&rt, rt.alloc(), &OTHER_WIDTH, &[0, 0, 0]);
    have_reserved(
        &rt,
        &plain,
        Reservation::Word(69632),
        Reservation::Nothing(0),
    );
    let plain = after(&rt, rt.alloc(), &OTHER_WIDTH, &[0, 0, 0, 0, 0]);
    hold(&rt, &plain, 12, 1, 0);
    hold(&rt, &plain, 13, 1, 0);
    keeps(&rt, &plain, 0, 0);
}

/// `lr.d a1,(x6)`, `sc.d a2,x5,(x6)`, `amoadd.d a1,x5,(x6)`, `lr.w a1,(x6)`.
static ATOMIC: [u32; 4] = [0x100335AF, 0x1853362F, 0x005335AF, 0x100325AF];

/// The causes of their traps, at 69636, and at 94208, where memory ends; no trap is 9.
static TRAPS: [(u64, u64); 4] = [(4, 5), (6, 7), (6, 7), (9, 5)];

fn status_of(cause: u64) -> Status {
    if cause == 9 {
        Status::Running
    } else {
        Status::Trapped(cause)
    }
}

#[test]
fn an_atomic_instruction_traps_for_its_address(rt: HostRuntime) {
    for (word, (within, behind)) in ATOMIC.iter().zip(&TRAPS) {
        // `lui x6,0x11`, `addi x6,x6,4`, or `lui x6,0x17`.
        let plain = after(
            &rt,
            rt.alloc(),
            &[0x00011337, 0x00430313, *word],
            &[0, 0, 0],
        );
        stands(&rt, &plain, status_of(*within), 3);
        let plain = after(&rt, rt.alloc(), &[0x00017337, *word], &[0, 0]);
        stands(&rt, &plain, status_of(*behind), 2);
    }
}

#[test]
fn with_one_hart_an_atomic_instruction_traps(rt: HostRuntime) {
    for word in &ATOMIC {
        let mut plain = start_with(&rt, rt.alloc(), &[*word], b"");
        plain.step();
        stands(&rt, &plain, Status::Trapped(2), 1);
    }
}

/// What hart 1 writes while hart 0 has reserved the last eight bytes of the block from 69632 on, and whether the
/// reservation stays.
static WRITES: [(u32, bool); 6] = [
    // sd x5,56(x6), 64, 60, which is in two blocks, -8, and -4, which is in two
    (0x02533C23, false),
    (0x04533023, true),
    (0x02533E23, false),
    (0xFE533C23, true),
    (0xFE533E23, false),
    // amoor.d x0,x0,(x7), which changes nothing
    (0x4003B02F, false),
];

#[test]
fn a_write_takes_the_others_reservation_of_its_blocks(rt: HostRuntime) {
    let reserved = Reservation::Double(69688);
    for (word, stays) in &WRITES {
        // `lui x6,0x11`, `addi x7,x6,56`, `lr.d a1,(x7)`.
        let words = [0x00011337, 0x03830393, 0x1003B5AF, *word];
        let plain = after(&rt, rt.alloc(), &words, &[0, 0, 0, 1, 1, 1, 1]);
        let kept = if *stays {
            reserved
        } else {
            Reservation::Nothing(0)
        };
        let other = second(&rt, &plain);
        expect_at(&rt, (other.front, other.back), (kept, reserved), *word);
    }
}

/// `addi a1,x6,-64` and `addi a1,x6,-63`: where 64 bytes of input go, and whether hart 0's reservation stays.
static INPUTS: [(u32, bool); 2] = [(0xFC030593, true), (0xFC130593, false)];

#[test]
fn bytes_that_are_read_take_the_others_reservation_of_their_blocks(rt: HostRuntime) {
    let reserved = Reservation::Double(69688);
    for (word, stays) in &INPUTS {
        // `lui x6,0x11`, `addi x7,x6,56`, `lr.d x5,(x7)`, `addi a7,x0,63`, `addi a0,x0,0`, .., `addi a2,x0,64`, `ecall`.
        let words = [
            0x00011337, 0x03830393, 0x1003B2AF, 0x03f00893, 0x00000513, *word, 0x04000613,
            0x00000073,
        ];
        let turns = [0, 0, 0, 1, 1, 1, 1, 1, 1, 1, 1];
        let plain = after_reading(&rt, rt.alloc(), &words, &turns, &[7; 64]);
        hold(&rt, &plain, 10, 0, 64);
        let kept = if *stays {
            reserved
        } else {
            Reservation::Nothing(0)
        };
        have_reserved(&rt, &plain, kept, reserved);
    }
}
