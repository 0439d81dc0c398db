//! What instructions do, against an assembler and an emulator that are not this project's.
//!
//! The tables are the output of `tools/instructions`: the words are from riscv64-linux-gnu-as, and what
//! is expected is what qemu-riscv64 did. Its help page says what a row means. The reserved words are
//! those near the rows of the table that riscv64-linux-gnu-objdump knows no instruction of RV64IMA with
//! FENCE.I for.

ghost use Rattle.std.specs.Prelude.{◌≤◌, IfSome};

use crate::isa_rows::{
    ANSWERS, ATOMICS, BREAKS, EXITS, LOADS, MEMORY, SOURCE, STORES, UNKNOWN, VECTORS,
};
use crate::support::expect::expect;
use thy_isa::{
    Alu, Call, CallState, Cause, CpuState, Effect, OtherHart, Reg, Regs, Reservation, Width, alu,
    bytes_in, call, cross, decode, extended, finish_alone, modified, number, within, word_effect,
    write_past,
};

const PC: u64 = 65536;

/// The number that a row of the table is about, or None after a trap or a call.
fn outcome(word: u32, a: u64, b: u64) -> Option<u64> {
    let mut regs = Regs::new();
    regs.set(Reg::new(5), a);
    regs.set(Reg::new(6), b);
    regs.set(Reg::new(31), a);
    match word_effect(word, PC, &regs) {
        Effect::Next { pc } => Some(pc),
        Effect::Set { pc, rd, value } => {
            if pc == 65540 {
                regs.set(rd, value);
                Some(regs.get(rd))
            } else if value == 65540 {
                Some(pc)
            } else {
                None
            }
        }
        _ => None,
    }
}

#[test]
fn each_instruction_gives_what_an_emulator_gives(rt: HostRuntime) {
    for (word, a, b, expected) in &VECTORS {
        expect(&rt, outcome(*word, *a, *b), Some(*expected));
    }
}

/// How many of the 16 bytes come before an address, or None if fewer than eight come from it on.
fn place(at: u64) -> Option<usize>
    ensures { IfSome result (λ from. from ≤ 8) }
{
    let from = at.wrapping_sub(PC);
    if from <= 8 { Some(from as usize) } else { None }
}

/// What a load gives at an address.
fn loaded(word: u32, at: u64) -> Option<u64> {
    let mut regs = Regs::new();
    regs.set(Reg::new(5), at);
    match word_effect(word, PC, &regs) {
        Effect::Read {
            at,
            width,
            extend,
            ..
        } => {
            let _size = bytes_in(width);
            let from = place(at)?;
            Some(extended(width, extend, number(&MEMORY, from, width)))
        }
        _ => None,
    }
}

/// What a store at an address leaves of 16 bytes which were all 0xaa, as two numbers.
fn stored(word: u32, at: u64) -> Option<(u64, u64)> {
    let mut regs = Regs::new();
    regs.set(Reg::new(5), at);
    regs.set(Reg::new(6), SOURCE);
    match word_effect(word, PC, &regs) {
        Effect::Write {
            at,
            width,
            value,
            ..
        } => {
            let size = bytes_in(width) as usize;
            let from = place(at)?;
            let mut bytes = [0xaa; 16];
            bytes[from..from + size].copy_from_slice(&value.to_le_bytes()[..size]);
            Some((
                number(&bytes, 0, Width::Double),
                number(&bytes, 8, Width::Double),
            ))
        }
        _ => None,
    }
}

#[test]
fn loads_and_stores_at_any_address_move_what_an_emulator_moves(rt: HostRuntime) {
    for (word, at, expected) in &LOADS {
        expect(&rt, loaded(*word, PC + *at % 16), Some(*expected));
    }
    for (word, at, low, high) in &STORES {
        expect(&rt, stored(*word, PC + *at % 16), Some((*low, *high)));
    }
}

/// A hart that is not in front. The one in front, and it, have reserved these bytes.
fn beside(front: Reservation, back: Reservation) -> Option<OtherHart> {
    Some(OtherHart {
        pc: PC,
        regs: Regs::new(),
        front,
        back,
    })
}

/// What the hart in front does at a word, if x5 is an address and x6 another number, beside this one.
fn atomic(word: u32, at: u64, b: u64, other: &Option<OtherHart>) -> Effect {
    let mut regs = Regs::new();
    regs.set(Reg::new(5), at);
    regs.set(Reg::new(6), b);
    within(PC, 4096, other, word_effect(word, PC, &regs))
}

/// The register that an effect writes, and the eight bytes at its address, which were `old`, or None if it is no atomic one.
fn left(effect: Effect, old: u64) -> Option<(Reg, u64)> {
    let mut bytes = old.to_le_bytes();
    match effect {
        Effect::Reserve { rd, .. } => Some((rd, old)),
        Effect::Conditional {
            rd,
            width,
            value,
            ..
        } => {
            let size = bytes_in(width) as usize;
            bytes[..size].copy_from_slice(&value.to_le_bytes()[..size]);
            Some((rd, number(&bytes, 0, Width::Double)))
        }
        Effect::Modify {
            op,
            rd,
            width,
            value,
            ..
        } => {
            let size = bytes_in(width) as usize;
            let made = modified(op, width, number(&bytes, 0, width), value);
            bytes[..size].copy_from_slice(&made.to_le_bytes()[..size]);
            Some((rd, number(&bytes, 0, Width::Double)))
        }
        _ => None,
    }
}

/// The number of an effect's width in eight bytes, if it reads one.
fn read(effect: &Effect, old: u64) -> u64 {
    let bytes = old.to_le_bytes();
    match effect {
        Effect::Reserve { width, .. } | Effect::Modify { width, .. } => {
            let _size = bytes_in(*width);
            number(&bytes, 0, *width)
        }
        _ => 0,
    }
}

/// What a register holds after an effect that has read these eight bytes, or None if it is no atomic one.
fn register_after(effect: &Effect, rd: Reg, old: u64) -> Option<u64> {
    let mut cpu = CpuState::zero();
    match effect {
        Effect::Reserve { .. } | Effect::Conditional { .. } | Effect::Modify { .. } => {
            finish_alone(&mut cpu, effect, read(effect, old));
            Some(cpu.regs.get(rd))
        }
        _ => None,
    }
}

/// What rd gets of an atomic instruction, and what the eight bytes at its address hold afterwards. They are reserved.
fn changed(word: u32, old: u64, b: u64) -> Option<(u64, u64)> {
    let reserved = if (word >> 12) & 1 == 0 {
        Reservation::Word(PC)
    } else {
        Reservation::Double(PC)
    };
    let other = beside(reserved, Reservation::Nothing(0));
    let (rd, memory) = left(atomic(word, PC, b, &other), old)?;
    let number = register_after(&atomic(word, PC, b, &other), rd, old)?;
    Some((number, memory))
}

#[test]
fn an_atomic_instruction_changes_what_an_emulator_changes(rt: HostRuntime) {
    for (word, old, b, rd, memory) in &ATOMICS {
        expect(&rt, changed(*word, *old, *b), Some((*rd, *memory)));
    }
}

#[test]
fn with_one_hart_an_atomic_instruction_is_illegal(rt: HostRuntime) {
    for (word, _, b, _, _) in &ATOMICS {
        expect(
            &rt,
            atomic(*word, PC, *b, &None),
            Effect::Trap(Cause::Illegal),
        );
    }
}

/// lr.d x7, (x5); sc.d x7, x6, (x5); amoadd.d x7, x6, (x5); and lr.w x7, (x5)
const LR_D: u32 = 0x1002b3af;

const SC_D: u32 = 0x1862b3af;

const AMOADD_D: u32 = 0x0062b3af;

const LR_W: u32 = 0x1002a3af;

/// A word, how far after the first byte of 4096 its address is, and the trap.
static TRAPS: [(u32, u64, Cause); 6] = [
    (LR_D, 4, Cause::LoadMisaligned),
    (SC_D, 4, Cause::StoreMisaligned),
    (AMOADD_D, 4, Cause::StoreMisaligned),
    (LR_D, 4096, Cause::LoadAccess),
    (SC_D, 4096, Cause::StoreAccess),
    (AMOADD_D, 4096, Cause::StoreAccess),
];

#[test]
fn harts_change_places_with_their_reservations(rt: HostRuntime) {
    let mut cpu = CpuState::zero();
    cpu.pc = 4;
    cpu.other = beside(Reservation::Word(8), Reservation::Double(16));
    let before = cpu;
    cross(&mut cpu);
    expect(&rt, (cpu.pc, cpu.count), (PC, 0));
    let first = OtherHart {
        pc: 4,
        regs: Regs::new(),
        front: Reservation::Double(16),
        back: Reservation::Word(8),
    };
    expect(&rt, cpu.other, Some(first));
    cross(&mut cpu);
    expect(&rt, cpu, before);
}

#[test]
fn an_atomic_instruction_traps_for_its_address(rt: HostRuntime) {
    let other = beside(Reservation::Nothing(0), Reservation::Nothing(0));
    for (word, from, cause) in &TRAPS {
        let at = PC.wrapping_add(*from);
        expect(&rt, atomic(*word, at, 1, &other), Effect::Trap(*cause));
    }
    let read = Effect::Reserve {
        rd: Reg::new(7),
        width: Width::Word,
        pc: PC + 4,
        at: PC + 4,
    };
    expect(&rt, atomic(LR_W, PC + 4, 1, &other), read);
}

/// The failure of a store conditional into x7.
fn failure() -> Effect {
    Effect::Fail {
        rd: Reg::new(7),
        pc: PC + 4,
    }
}

#[test]
fn a_store_conditional_fails_if_its_bytes_are_not_reserved(rt: HostRuntime) {
    let none = beside(Reservation::Nothing(0), Reservation::Double(PC));
    expect(&rt, atomic(SC_D, PC, 1, &none), failure());
    let shorter = beside(Reservation::Word(PC), Reservation::Nothing(0));
    expect(&rt, atomic(SC_D, PC, 1, &shorter), failure());
    let elsewhere = beside(Reservation::Double(PC + 8), Reservation::Nothing(0));
    expect(&rt, atomic(SC_D, PC, 1, &elsewhere), failure());
}

/// What a write of `len` bytes leaves of a reservation of the last eight bytes of a block, 56 bytes after PC.
fn kept(at: u64, len: u64) -> bool {
    let mut other = beside(Reservation::Double(PC + 56), Reservation::Double(PC + 56));
    write_past(&mut other, at, len);
    other == beside(Reservation::Double(PC + 56), Reservation::Double(PC + 56))
}

/// Where a write begins, by its distance from PC plus 64, its length, and whether the other hart's reservation is kept.
static WRITES: [(u64, u64, bool); 8] = [
    (120, 8, false),
    (128, 8, true),
    (124, 8, false),
    (56, 8, true),
    (60, 8, false),
    (0, 64, true),
    (1, 64, false),
    (64, 1, false),
];

#[test]
fn a_write_takes_the_other_harts_reservation_of_its_block(rt: HostRuntime) {
    for (from, len, keeps) in &WRITES {
        expect(&rt, kept((PC - 64).wrapping_add(*from), *len), *keeps);
    }
}

/// What an environment call of this number and first argument does, or None if the word is not one.
fn called(word: u32, a7: u64, a0: u64) -> Option<Call> {
    let mut regs = Regs::new();
    regs.set(Reg::new(17), a7);
    regs.set(Reg::new(10), a0);
    let state = CallState {
        cursor: 0,
        input_len: 0,
        console_len: 0,
        room: 4096,
        base: PC,
        size: 4096,
        floor: PC,
        brk: PC,
    };
    match word_effect(word, PC, &regs) {
        Effect::Environment => Some(call(&regs, &state)),
        _ => None,
    }
}

#[test]
fn environment_calls_and_breakpoints_end_as_an_emulator_ends(rt: HostRuntime) {
    for (word, a7, a0, value) in &EXITS {
        expect(&rt, called(*word, *a7, *a0), Some(Call::Exit(*value)));
    }
    for (word, a7, a0, answer) in &ANSWERS {
        expect(&rt, called(*word, *a7, *a0), Some(Call::Answer(*answer)));
    }
    for word in &BREAKS {
        let effect = word_effect(*word, PC, &Regs::new());
        expect(&rt, effect, Effect::Trap(Cause::Breakpoint));
    }
}

#[test]
fn a_reserved_word_means_nothing(rt: HostRuntime) {
    for word in &RESERVED {
        expect(&rt, decode(*word), None);
    }
    for word in &UNKNOWN {
        expect(&rt, decode(*word), None);
    }
}

/// The least number, as two's complement has it.
const LEAST: u64 = 1 << 63;

/// An operation, its two numbers and its result.
static DIVISIONS: [(Alu, u64, u64, u64); 6] = [
    (Alu::Div, LEAST, u64::MAX, LEAST),
    (Alu::Rem, LEAST, u64::MAX, 0),
    (Alu::Divuw, 5, 0, u64::MAX),
    (Alu::Rem, 7, 0, 7),
    (Alu::Mulhsu, u64::MAX, u64::MAX, u64::MAX),
    (Alu::Mulh, u64::MAX, u64::MAX, 0),
];

#[test]
fn division_by_zero_and_the_least_number(rt: HostRuntime) {
    for (op, a, b, want) in &DIVISIONS {
        expect(&rt, alu(*op, *a, *b), *want);
    }
}

/// jalr x1, 2(x0); jalr x1, 3(x0); beq x0, x0, .+2
static ODD_JUMPS: [u32; 3] = [0x002000e7, 0x003000e7, 0x00000163];

#[test]
fn a_jump_to_an_odd_target(rt: HostRuntime) {
    let regs = Regs::new();
    for word in &ODD_JUMPS {
        let effect = word_effect(*word, PC, &regs);
        expect(&rt, effect, Effect::Trap(Cause::FetchMisaligned));
    }
    // jalr x1, 1(x0): bit 0 of the target is cleared
    let link = Effect::Set {
        pc: 0,
        rd: Reg::new(1),
        value: 65540,
    };
    expect(&rt, word_effect(0x001000e7, PC, &regs), link);
}

#[test]
fn a_branch_that_is_not_taken_does_not_trap(rt: HostRuntime) {
    let mut regs = Regs::new();
    regs.set(Reg::new(1), 1);
    // beq x0, x1, .+2
    let effect = word_effect(0x00100163, PC, &regs);
    expect(&rt, effect, Effect::Next { pc: 65540 });
}

static RESERVED: [u32; 50] = [
    0x006293e7, 0x0062f3e7, 0x0062a3e3, 0x0062b3e3, 0x0062f383, 0x0062c3a3, 0x0062f3a3, 0x04629393,
    0x40629393, 0x80629393, 0x0462d393, 0x4462d393, 0xc062d393, 0x406293b3, 0x4062a3b3, 0x4062b3b3,
    0x4062c3b3, 0x4062e3b3, 0x4062f3b3, 0x046283b3, 0x806283b3, 0x426283b3, 0x0062a39b, 0x0062b39b,
    0x0062c39b, 0x0062e39b, 0x0062f39b, 0x0262939b, 0x4062939b, 0x0262d39b, 0x4262d39b, 0x0062a3bb,
    0x0062b3bb, 0x0062c3bb, 0x0062e3bb, 0x0062f3bb, 0x406293bb, 0x4062c3bb, 0x026293bb, 0x0262a3bb,
    0x0262b3bb, 0x0000200f, 0x0000700f, 0x000000f3, 0x00200073, 0x00008073, 0x00101073, 0x00000000,
    0xffffffff, 0x00000001,
];
