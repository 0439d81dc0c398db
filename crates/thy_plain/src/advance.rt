//! One instruction, in place.
#![tactic(auto, unfolding(thy_isa::specs::Step::performed, thy_isa::specs::Step::within, thy_isa::specs::Step::effect_at, thy_isa::specs::Step::read_by, thy_isa::specs::Step::memory_by, thy_isa::specs::Step::console_by, thy_isa::specs::Step::memory_served, thy_isa::specs::Step::console_served, thy_isa::specs::Step::served, thy_isa::specs::Step::finished, thy_isa::specs::Step::step, thy_isa::specs::Step::advanced, thy_block::specs::LittleEndian::number_bytes))]

ghost use Rattle.std.specs.Prelude.{◌≡◌, ◌≢◌, true, false, ◌+◌, ◌<◌, ◌≤◌, ◌^◌, ◌++◌, length, take, drop};
ghost use Rattle.thy_block.specs.Bytes.{bytes_of, room_of, written};
ghost use Rattle.thy_block.specs.LittleEndian.{number_at, number_bytes};
ghost use Rattle.thy_isa.specs.Extending.{extended};
ghost use Rattle.thy_isa.specs.declared.state.Effect.TheVariants.{Read, Write, Environment};
ghost use Rattle.thy_isa.specs.declared.state.Reservation.TheVariants.{Nothing};
ghost use Rattle.thy_isa.specs.declared.state.Status.TheVariants.{Trapped};
ghost use Rattle.thy_isa.specs.Access.{IsAtomic};
ghost use Rattle.thy_isa.specs.Effects.{size_of, word_effect};
ghost use Rattle.thy_isa.specs.Regs.{regs_with};
ghost use Rattle.thy_isa.specs.Reservations.{reserving, written_past};
ghost use Rattle.thy_isa.specs.Step.{is_running, call_at, call_state_of, cause_number, console_served, memory_served, within, performed, advanced, step};
ghost use Rattle.thy_plain.specs.Held.{IsSeat, state_at, taken};
ghost use Rattle.thy_plain.specs.Machine.{setting_of};
ghost use Rattle.thy_plain.specs.Window.{HasWords, IsWindow};

use crate::held::Held;
use crate::setup::Setup;
use crate::window::{far_offset, far_word, near_offset, near_word};
use thy_block::{Bytes, is_inside};
use thy_isa::{
    Call, CallState, Cause, DecodedWords, Effect, Extend, Found, Reg, Width, after, alu, bytes_in,
    call, extended, holds, is_reserved, is_running, modified, number, word, word_effect,
};

// What is rare is called, and takes no reference to what the loop over steps has in registers; the rest becomes a part of that loop.
// A function that ends a step answers whether the program still runs, so the loop needs no test of the status.

/// Takes an effect of a hart that is not an environment call, memory aside. `number` is what was read if the effect reads.
#[inline(always)]
fn finish(state: &mut Held, hart: u8, effect: &Effect, number: u64)
    requires seat { IsSeat hart state.old.processor }
    requires count { state.old.processor.count < 2 ^ 63 }
    requires no_call { effect.now ≢ Environment }
    ensures state { state_at hart state.new ≡ taken (state_at hart state.old) effect.now number }
    ensures seat { IsSeat hart state.new.processor }
    ensures memory { state.new.memory ≡ state.old.memory }
    ensures console { state.new.console ≡ state.old.console }
{
    state.processor.finish_alone(hart, effect, number);
}

/// Ends the program by a trap, which changes nothing else.
#[inline(never)]
fn trap(state: &mut Held, hart: u8, cause: Cause) -> bool
    requires seat { IsSeat hart state.old.processor }
    requires count { state.old.processor.count < 2 ^ 63 }
    ensures state { state_at hart state.new ≡ record (state_at hart state.old) {
      count = (state_at hart state.old).count + 1;
      status = Trapped (cause_number cause);
    } }
    ensures seat { IsSeat hart state.new.processor }
    ensures console { state.new.console ≡ state.old.console }
    ensures runs { result ≡ false }
{
    finish(state, hart, &Effect::Trap(cause), 0);
    false
}

/// Writes the low bytes of a number from index `at` on.
#[inline(always)]
fn write_number(memory: &mut Bytes, at: usize, width: Width, value: u64)
    requires { at + size_of width ≤ length (bytes_of memory.old) }
    ensures { bytes_of memory.new ≡ written (bytes_of memory.old) at (number_bytes (size_of width) value) }
{
    let bytes = value.to_le_bytes();
    match width {
        Width::Byte => memory.put(at, &bytes[..1]),
        Width::Half => memory.put(at, &bytes[..2]),
        Width::Word => memory.put(at, &bytes[..4]),
        Width::Double => memory.put(at, &bytes[..8]),
    }
}

/// What decides the result of an environment call of a hart.
fn call_state(state: &Held, hart: u8, setup: &Setup) -> CallState
    requires { IsSeat hart state.now.processor }
    ensures calls { result ≡ call_state_of (setting_of setup.now) (state_at hart state.now) }
    ensures cursor { result.cursor ≡ state.now.processor.cursor }
    ensures room { result.console_len + result.room < 2 ^ 64 }
{
    let _ = hart;
    let console_len = state.console.len() as u64;
    CallState {
        cursor: state.processor.cursor(),
        input_len: setup.input.len() as u64,
        console_len,
        room: setup.room.saturating_sub(console_len),
        base: setup.base,
        size: state.memory.len() as u64,
        floor: state.processor.floor(),
        brk: state.processor.brk(),
    }
}

/// Writes over memory from byte `at` on what is taken of the input.
fn take(memory: &mut Bytes, at: usize, input: &Bytes, from: usize, len: usize)
    requires inside { at + len ≤ length (bytes_of memory.old) }
    requires left { from + len ≤ length (bytes_of input.now) }
    ensures memory { bytes_of memory.new ≡ written (bytes_of memory.old) at (take len (drop from (bytes_of input.now))) }
{
    memory.put(at, &input.as_slice()[from..from + len]);
}

/// Adds to the console what is given from memory. There is room for it.
fn give(console: &mut Bytes, memory: &Bytes, at: usize, len: usize)
    requires inside { at + len ≤ length (bytes_of memory.now) }
    requires room { length (bytes_of console.old) + len ≤ room_of console.old }
    ensures console { bytes_of console.new ≡ bytes_of console.old ++ take len (drop at (bytes_of memory.now)) }
    ensures room { room_of console.old ≤ room_of console.new }
{
    match console.extend(&memory.as_slice()[at..at + len]) {
        Ok(()) => {}
        Err(_) => unreachable!(),
    }
}

/// Moves the bytes that an environment call of a hart moves, between memory, input and console.
fn move_called(state: &mut Held, hart: u8, setup: &Setup, calls: &CallState)
    requires seat { IsSeat hart state.old.processor }
    requires room { setup.now.room ≤ room_of state.old.console }
    requires calls { calls.now ≡ call_state_of (setting_of setup.now) (state_at hart state.old) }
    ensures processor { state.new.processor ≡ state.old.processor }
    ensures memory { let s = state_at hart state.old in
        bytes_of state.new.memory ≡ memory_served (setting_of setup.now) s (call_at (setting_of setup.now) s) }
    ensures console { let s = state_at hart state.old in
        bytes_of state.new.console ≡ console_served (setting_of setup.now) s (call_at (setting_of setup.now) s) }
    ensures room { room_of state.old.console ≤ room_of state.new.console }
{
    match call(state.processor.regs(hart), calls) {
        Call::Answer(_) | Call::Exit(_) | Call::Break(_) => {}
        Call::Take { at, len } => {
            let to = (at - setup.base) as usize;
            let from = calls.cursor as usize;
            take(&mut state.memory, to, &setup.input, from, len as usize);
        }
        Call::Give { at, len } => {
            let from = (at - setup.base) as usize;
            give(&mut state.console, &state.memory, from, len as usize);
        }
    }
}

/// Does an environment call of a hart.
#[inline(never)]
fn serve(state: &mut Held, hart: u8, setup: &Setup)
    requires seat { IsSeat hart state.old.processor }
    requires count { state.old.processor.count < 2 ^ 63 }
    requires room { setup.now.room ≤ room_of state.old.console }
    ensures state { state_at hart state.new ≡ performed (setting_of setup.now) (state_at hart state.old) Environment }
    ensures seat { IsSeat hart state.new.processor }
    ensures room { room_of state.old.console ≤ room_of state.new.console }
{
    let calls = call_state(state, hart, setup);
    move_called(state, hart, setup, &calls);
    state
        .processor
        .finish(hart, &Effect::Environment, 0, &calls);
}

/// The instruction after a store-conditional that failed.
#[inline(never)]
fn fail(state: &mut Held, hart: u8, rd: Reg, pc: u64) -> bool
    requires seat { IsSeat hart state.old.processor }
    requires count { state.old.processor.count < 2 ^ 63 }
    ensures state { state_at hart state.new ≡ record (state_at hart state.old) {
      pc = pc;
      regs = regs_with (state_at hart state.old).regs rd 1;
      count = (state_at hart state.old).count + 1;
      other = reserving (Nothing 0) (state_at hart state.old).other;
    } }
    ensures seat { IsSeat hart state.new.processor }
    ensures console { state.new.console ≡ state.old.console }
    ensures runs { result ≡ true }
{
    finish(state, hart, &Effect::Fail { rd, pc }, 0);
    true
}

/// Does what an atomic instruction does, to a state that runs. It is illegal with one hart, and traps if its address is no
/// multiple of its width.
#[inline(never)]
fn perform_atomic(state: &mut Held, hart: u8, setup: &Setup, effect: Effect) -> bool
    requires seat { IsSeat hart state.old.processor }
    requires count { state.old.processor.count < 2 ^ 63 }
    requires atomic { IsAtomic effect }
    requires runs { is_running (state_at hart state.old).status ≡ true }
    ensures state { state_at hart state.new ≡ performed (setting_of setup.now) (state_at hart state.old)
        (within setup.now.base (length (bytes_of state.old.memory)) (state_at hart state.old).other effect) }
    ensures seat { IsSeat hart state.new.processor }
    ensures room { room_of state.old.console ≤ room_of state.new.console }
    ensures runs { result ≡ is_running (state_at hart state.new).status }
{
    let size = state.memory.len() as u64;
    match state.processor.other(hart) {
        None => trap(state, hart, Cause::Illegal),
        Some(other) => match effect {
            Effect::Reserve { width, at, .. } => {
                if at % bytes_in(width) != 0 {
                    trap(state, hart, Cause::LoadMisaligned)
                } else if is_inside(setup.base, size, at, bytes_in(width)) {
                    let value = number(state.memory.as_slice(), (at - setup.base) as usize, width);
                    finish(state, hart, &effect, value);
                    true
                } else {
                    trap(state, hart, Cause::LoadAccess)
                }
            }
            Effect::Conditional {
                rd,
                width,
                pc,
                at,
                value,
            } => {
                if at % bytes_in(width) != 0 {
                    trap(state, hart, Cause::StoreMisaligned)
                } else if is_inside(setup.base, size, at, bytes_in(width)) {
                    if is_reserved(other.front, width, at) {
                        write_number(&mut state.memory, (at - setup.base) as usize, width, value);
                        finish(state, hart, &effect, 0);
                        true
                    } else {
                        fail(state, hart, rd, pc)
                    }
                } else {
                    trap(state, hart, Cause::StoreAccess)
                }
            }
            Effect::Modify {
                op,
                width,
                at,
                value,
                ..
            } => {
                if at % bytes_in(width) != 0 {
                    trap(state, hart, Cause::StoreMisaligned)
                } else if is_inside(setup.base, size, at, bytes_in(width)) {
                    let from = (at - setup.base) as usize;
                    let old = number(state.memory.as_slice(), from, width);
                    write_number(
                        &mut state.memory,
                        from,
                        width,
                        modified(op, width, old, value),
                    );
                    finish(state, hart, &effect, old);
                    true
                } else {
                    trap(state, hart, Cause::StoreAccess)
                }
            }
            _ => unreachable!(),
        },
    }
}

/// Continues at `pc`.
#[inline(always)]
fn jump(state: &mut Held, hart: u8, pc: u64) -> bool
    requires seat { IsSeat hart state.old.processor }
    requires count { state.old.processor.count < 2 ^ 63 }
    ensures state { state_at hart state.new ≡ record (state_at hart state.old) {
      pc = pc;
      count = (state_at hart state.old).count + 1;
    } }
    ensures seat { IsSeat hart state.new.processor }
    ensures console { state.new.console ≡ state.old.console }
    ensures runs { result ≡ true }
{
    finish(state, hart, &Effect::Next { pc }, 0);
    true
}

/// Sets a register and continues at `pc`.
#[inline(always)]
fn set(state: &mut Held, hart: u8, rd: Reg, pc: u64, value: u64) -> bool
    requires seat { IsSeat hart state.old.processor }
    requires count { state.old.processor.count < 2 ^ 63 }
    ensures state { state_at hart state.new ≡ record (state_at hart state.old) {
      pc = pc;
      regs = regs_with (state_at hart state.old).regs rd value;
      count = (state_at hart state.old).count + 1;
    } }
    ensures seat { IsSeat hart state.new.processor }
    ensures console { state.new.console ≡ state.old.console }
    ensures runs { result ≡ true }
{
    finish(state, hart, &Effect::Set { rd, pc, value }, 0);
    true
}

/// Continues at `pc` once a number of `width` bytes was written at an address.
#[inline(always)]
fn leave_store(state: &mut Held, hart: u8, width: Width, pc: u64, at: u64, value: u64) -> bool
    requires seat { IsSeat hart state.old.processor }
    requires count { state.old.processor.count < 2 ^ 63 }
    ensures state { state_at hart state.new ≡ record (state_at hart state.old) {
      pc = pc;
      count = (state_at hart state.old).count + 1;
      other = written_past at (size_of width) (state_at hart state.old).other;
    } }
    ensures seat { IsSeat hart state.new.processor }
    ensures console { state.new.console ≡ state.old.console }
    ensures runs { result ≡ true }
{
    // With one hart no reservation can go, and the rest is what the loop has already.
    if state.processor.harts() < 2 {
        return jump(state, hart, pc);
    }
    let effect = Effect::Write {
        width,
        pc,
        at,
        value,
    };
    finish(state, hart, &effect, 0);
    true
}

/// The number of `width` bytes from index `at` on, extended to 64 bits. One of 8 bytes is whole.
#[inline(always)]
#[tactic(auto, unfolding(thy_isa::specs::Extending::extended))]
fn loaded(bytes: &[u8], at: usize, width: Width, extend: Extend) -> u64
    requires { at + size_of width ≤ length bytes.now }
    ensures { result ≡ extended width extend (number_at (size_of width) bytes.now at) }
{
    if let Width::Double = width {
        number(bytes, at, Width::Double)
    } else {
        let value = number(bytes, at, width);
        extended(width, extend, value)
    }
}

/// Loads a number from any address, or traps if it is outside memory.
#[inline(never)]
fn load_far(
    state: &mut Held,
    hart: u8,
    setup: &Setup,
    rd: Reg,
    width: Width,
    extend: Extend,
    pc: u64,
    at: u64,
) -> bool
    requires seat { IsSeat hart state.old.processor }
    requires count { state.old.processor.count < 2 ^ 63 }
    requires runs { is_running (state_at hart state.old).status ≡ true }
    ensures state { state_at hart state.new ≡ performed (setting_of setup.now) (state_at hart state.old)
        (within setup.now.base (length (bytes_of state.old.memory)) (state_at hart state.old).other (Read rd width extend pc at)) }
    ensures seat { IsSeat hart state.new.processor }
    ensures room { room_of state.old.console ≤ room_of state.new.console }
    ensures runs { result ≡ is_running (state_at hart state.new).status }
{
    if let Some(from) = far_offset(setup.base, &state.memory, at, width) {
        let value = loaded(state.memory.as_slice(), from, width, extend);
        set(state, hart, rd, pc, value)
    } else {
        trap(state, hart, Cause::LoadAccess)
    }
}

/// Loads a number from an address, or traps if it is outside memory.
#[inline(always)]
fn load(
    state: &mut Held,
    hart: u8,
    setup: &Setup,
    rd: Reg,
    width: Width,
    extend: Extend,
    pc: u64,
    at: u64,
) -> bool
    requires seat { IsSeat hart state.old.processor }
    requires count { state.old.processor.count < 2 ^ 63 }
    requires window { IsWindow setup.now.base (length (bytes_of state.old.memory)) setup.now.window }
    requires runs { is_running (state_at hart state.old).status ≡ true }
    ensures state { state_at hart state.new ≡ performed (setting_of setup.now) (state_at hart state.old)
        (within setup.now.base (length (bytes_of state.old.memory)) (state_at hart state.old).other (Read rd width extend pc at)) }
    ensures seat { IsSeat hart state.new.processor }
    ensures room { room_of state.old.console ≤ room_of state.new.console }
    ensures runs { result ≡ is_running (state_at hart state.new).status }
{
    if let Some(from) = near_offset(setup, &state.memory, at, width) {
        let value = loaded(state.memory.as_slice(), from, width, extend);
        set(state, hart, rd, pc, value)
    } else {
        load_far(state, hart, setup, rd, width, extend, pc, at)
    }
}

/// Stores a number at any address, or traps if it is outside memory.
#[inline(never)]
fn store_far(
    state: &mut Held,
    hart: u8,
    setup: &Setup,
    width: Width,
    pc: u64,
    at: u64,
    value: u64,
) -> bool
    requires seat { IsSeat hart state.old.processor }
    requires count { state.old.processor.count < 2 ^ 63 }
    requires runs { is_running (state_at hart state.old).status ≡ true }
    ensures state { state_at hart state.new ≡ performed (setting_of setup.now) (state_at hart state.old)
        (within setup.now.base (length (bytes_of state.old.memory)) (state_at hart state.old).other (Write width pc at value)) }
    ensures seat { IsSeat hart state.new.processor }
    ensures room { room_of state.old.console ≤ room_of state.new.console }
    ensures runs { result ≡ is_running (state_at hart state.new).status }
{
    if let Some(to) = far_offset(setup.base, &state.memory, at, width) {
        write_number(&mut state.memory, to, width, value);
        leave_store(state, hart, width, pc, at, value)
    } else {
        trap(state, hart, Cause::StoreAccess)
    }
}

/// Stores a number at an address, or traps if it is outside memory.
#[inline(always)]
fn store(
    state: &mut Held,
    hart: u8,
    setup: &Setup,
    width: Width,
    pc: u64,
    at: u64,
    value: u64,
) -> bool
    requires seat { IsSeat hart state.old.processor }
    requires count { state.old.processor.count < 2 ^ 63 }
    requires window { IsWindow setup.now.base (length (bytes_of state.old.memory)) setup.now.window }
    requires runs { is_running (state_at hart state.old).status ≡ true }
    ensures state { state_at hart state.new ≡ performed (setting_of setup.now) (state_at hart state.old)
        (within setup.now.base (length (bytes_of state.old.memory)) (state_at hart state.old).other (Write width pc at value)) }
    ensures seat { IsSeat hart state.new.processor }
    ensures room { room_of state.old.console ≤ room_of state.new.console }
    ensures runs { result ≡ is_running (state_at hart state.new).status }
{
    if let Some(to) = near_offset(setup, &state.memory, at, width) {
        write_number(&mut state.memory, to, width, value);
        leave_store(state, hart, width, pc, at, value)
    } else {
        store_far(state, hart, setup, width, pc, at, value)
    }
}

/// Does what an instruction does, to a state that runs. A load or a store outside memory traps: this is tested where
/// each is done, so that an effect is matched only once.
#[inline(always)]
fn perform(state: &mut Held, hart: u8, setup: &Setup, effect: Effect) -> bool
    requires seat { IsSeat hart state.old.processor }
    requires count { state.old.processor.count < 2 ^ 63 }
    requires room { setup.now.room ≤ room_of state.old.console }
    requires window { IsWindow setup.now.base (length (bytes_of state.old.memory)) setup.now.window }
    requires runs { is_running (state_at hart state.old).status ≡ true }
    ensures state { state_at hart state.new ≡ performed (setting_of setup.now) (state_at hart state.old)
        (within setup.now.base (length (bytes_of state.old.memory)) (state_at hart state.old).other effect) }
    ensures seat { IsSeat hart state.new.processor }
    ensures room { room_of state.old.console ≤ room_of state.new.console }
    ensures runs { result ≡ is_running (state_at hart state.new).status }
{
    match effect {
        Effect::Next { pc } => jump(state, hart, pc),
        Effect::Set { pc, rd, value } => set(state, hart, rd, pc, value),
        Effect::Read {
            pc,
            at,
            width,
            extend,
            rd,
        } => load(state, hart, setup, rd, width, extend, pc, at),
        Effect::Write {
            pc,
            at,
            width,
            value,
        } => store(state, hart, setup, width, pc, at, value),
        Effect::Reserve { .. } | Effect::Conditional { .. } | Effect::Modify { .. } =>
            perform_atomic(state, hart, setup, effect),
        Effect::Fail { rd, pc } => fail(state, hart, rd, pc),
        Effect::Environment => {
            serve(state, hart, setup);
            is_running(state.processor.status())
        }
        Effect::Trap(cause) => trap(state, hart, cause),
    }
}

/// Does what any word does that was fetched at the program counter, by its effect.
#[inline(never)]
fn perform_rarely(state: &mut Held, hart: u8, setup: &Setup, word: u32) -> bool
    requires seat { IsSeat hart state.old.processor }
    requires count { state.old.processor.count < 2 ^ 63 }
    requires room { setup.now.room ≤ room_of state.old.console }
    requires window { IsWindow setup.now.base (length (bytes_of state.old.memory)) setup.now.window }
    requires runs { is_running (state_at hart state.old).status ≡ true }
    ensures state { state_at hart state.new ≡ performed (setting_of setup.now) (state_at hart state.old)
        (within setup.now.base (length (bytes_of state.old.memory)) (state_at hart state.old).other (word_effect word (state_at hart state.old).pc (state_at hart state.old).regs)) }
    ensures seat { IsSeat hart state.new.processor }
    ensures room { room_of state.old.console ≤ room_of state.new.console }
    ensures runs { result ≡ is_running (state_at hart state.new).status }
{
    let effect = word_effect(word, state.processor.pc(hart), state.processor.regs(hart));
    perform(state, hart, setup, effect)
}

/// Does what a word does that was fetched at the program counter. The frequent instructions are done here; no effect is made of
/// them.
#[inline(always)]
#[tactic(auto, unfolding(thy_isa::specs::Found::instr_by, thy_isa::specs::Arith::alu_of, thy_isa::specs::Effects::effect_of, thy_isa::specs::Step::performed, thy_isa::specs::Step::within, thy_isa::specs::Step::read_by, thy_isa::specs::Step::memory_by, thy_isa::specs::Step::console_by, thy_isa::specs::Step::finished))]
fn perform_word(
    state: &mut Held,
    hart: u8,
    setup: &Setup,
    decoded: &mut DecodedWords,
    word: u32,
) -> bool
    requires seat { IsSeat hart state.old.processor }
    requires count { state.old.processor.count < 2 ^ 63 }
    requires room { setup.now.room ≤ room_of state.old.console }
    requires window { IsWindow setup.now.base (length (bytes_of state.old.memory)) setup.now.window }
    requires runs { is_running (state_at hart state.old).status ≡ true }
    ensures state { state_at hart state.new ≡ performed (setting_of setup.now) (state_at hart state.old)
        (within setup.now.base (length (bytes_of state.old.memory)) (state_at hart state.old).other (word_effect word (state_at hart state.old).pc (state_at hart state.old).regs)) }
    ensures seat { IsSeat hart state.new.processor }
    ensures room { room_of state.old.console ≤ room_of state.new.console }
    ensures runs { result ≡ is_running (state_at hart state.new).status }
{
    let pc = state.processor.pc(hart);
    let regs = state.processor.regs(hart);
    let found = decoded.found(word, pc);
    match *found {
        Found::AddImm { rd, rs1, imm } => {
            let value = regs.get(rs1).wrapping_add(imm);
            set(state, hart, rd, after(pc), value)
        }
        Found::SllImm { rd, rs1, imm } => {
            let value = regs.get(rs1) << (imm & 63);
            set(state, hart, rd, after(pc), value)
        }
        Found::XorImm { rd, rs1, imm } => {
            let value = regs.get(rs1) ^ imm;
            set(state, hart, rd, after(pc), value)
        }
        Found::SrlImm { rd, rs1, imm } => {
            let value = regs.get(rs1) >> (imm & 63);
            set(state, hart, rd, after(pc), value)
        }
        Found::OrImm { rd, rs1, imm } => {
            let value = regs.get(rs1) | imm;
            set(state, hart, rd, after(pc), value)
        }
        Found::AndImm { rd, rs1, imm } => {
            let value = regs.get(rs1) & imm;
            set(state, hart, rd, after(pc), value)
        }
        Found::OpImm { op, rd, rs1, imm } => {
            let value = alu(op, regs.get(rs1), imm);
            set(state, hart, rd, after(pc), value)
        }
        Found::Add { rd, rs1, rs2 } => {
            let value = regs.get(rs1).wrapping_add(regs.get(rs2));
            set(state, hart, rd, after(pc), value)
        }
        Found::Sub { rd, rs1, rs2 } => {
            let value = regs.get(rs1).wrapping_sub(regs.get(rs2));
            set(state, hart, rd, after(pc), value)
        }
        Found::Sll { rd, rs1, rs2 } => {
            let value = regs.get(rs1) << (regs.get(rs2) & 63);
            set(state, hart, rd, after(pc), value)
        }
        Found::Xor { rd, rs1, rs2 } => {
            let value = regs.get(rs1) ^ regs.get(rs2);
            set(state, hart, rd, after(pc), value)
        }
        Found::Srl { rd, rs1, rs2 } => {
            let value = regs.get(rs1) >> (regs.get(rs2) & 63);
            set(state, hart, rd, after(pc), value)
        }
        Found::Or { rd, rs1, rs2 } => {
            let value = regs.get(rs1) | regs.get(rs2);
            set(state, hart, rd, after(pc), value)
        }
        Found::And { rd, rs1, rs2 } => {
            let value = regs.get(rs1) & regs.get(rs2);
            set(state, hart, rd, after(pc), value)
        }
        Found::Op { op, rd, rs1, rs2 } => {
            let value = alu(op, regs.get(rs1), regs.get(rs2));
            set(state, hart, rd, after(pc), value)
        }
        Found::Load {
            width,
            extend,
            rd,
            rs1,
            imm,
        } => {
            let at = regs.get(rs1).wrapping_add(imm);
            load(state, hart, setup, rd, width, extend, after(pc), at)
        }
        Found::Store {
            width,
            rs1,
            rs2,
            imm,
        } => {
            let at = regs.get(rs1).wrapping_add(imm);
            let value = regs.get(rs2);
            store(state, hart, setup, width, after(pc), at, value)
        }
        Found::Branch {
            cond,
            rs1,
            rs2,
            imm,
        } => {
            let target = pc.wrapping_add(imm);
            if !holds(cond, regs.get(rs1), regs.get(rs2)) {
                jump(state, hart, after(pc))
            } else if target % 4 == 0 {
                jump(state, hart, target)
            } else {
                perform_rarely(state, hart, setup, word)
            }
        }
        Found::Lui { rd, imm } => set(state, hart, rd, after(pc), imm),
        Found::Auipc { rd, imm } => set(state, hart, rd, after(pc), pc.wrapping_add(imm)),
        Found::Jal { rd, imm } => {
            let target = pc.wrapping_add(imm);
            if target % 4 == 0 {
                set(state, hart, rd, target, after(pc))
            } else {
                perform_rarely(state, hart, setup, word)
            }
        }
        Found::Jalr { rd, rs1, imm } => {
            let sum = regs.get(rs1).wrapping_add(imm);
            let target = sum - sum % 2;
            if target % 4 == 0 {
                set(state, hart, rd, target, after(pc))
            } else {
                perform_rarely(state, hart, setup, word)
            }
        }
        Found::Other => perform_rarely(state, hart, setup, word),
    }
}

/// Executes the instruction at the program counter of a state that runs, wherever that is.
#[inline(never)]
fn advance_far(state: &mut Held, hart: u8, setup: &Setup) -> bool
    requires seat { IsSeat hart state.old.processor }
    requires count { state.old.processor.count < 2 ^ 63 }
    requires room { setup.now.room ≤ room_of state.old.console }
    requires window { IsWindow setup.now.base (length (bytes_of state.old.memory)) setup.now.window }
    requires runs { is_running (state_at hart state.old).status ≡ true }
    ensures state { state_at hart state.new ≡ advanced (setting_of setup.now) (state_at hart state.old) }
    ensures seat { IsSeat hart state.new.processor }
    ensures room { room_of state.old.console ≤ room_of state.new.console }
    ensures runs { result ≡ is_running (state_at hart state.new).status }
{
    match far_word(setup.base, &state.memory, state.processor.pc(hart)) {
        Err(cause) => trap(state, hart, cause),
        Ok(at) => {
            let word = word(state.memory.as_slice(), at);
            perform_rarely(state, hart, setup, word)
        }
    }
}

/// Executes the instruction at the program counter of a state that runs.
#[inline(always)]
pub(crate) fn advance(state: &mut Held, hart: u8, setup: &Setup, decoded: &mut DecodedWords) -> bool
    requires seat { IsSeat hart state.old.processor }
    requires count { state.old.processor.count < 2 ^ 63 }
    requires room { setup.now.room ≤ room_of state.old.console }
    requires window { IsWindow setup.now.base (length (bytes_of state.old.memory)) setup.now.window }
    requires words { HasWords setup.now.base (length (bytes_of state.old.memory)) setup.now.words }
    requires runs { is_running (state_at hart state.old).status ≡ true }
    ensures state { state_at hart state.new ≡ advanced (setting_of setup.now) (state_at hart state.old) }
    ensures seat { IsSeat hart state.new.processor }
    ensures room { room_of state.old.console ≤ room_of state.new.console }
    ensures runs { result ≡ is_running (state_at hart state.new).status }
{
    match near_word(setup, &state.memory, state.processor.pc(hart)) {
        Some(at) => {
            let word = word(state.memory.as_slice(), at);
            perform_word(state, hart, setup, decoded, word)
        }
        None => advance_far(state, hart, setup),
    }
}

/// Takes a step. An ended state stays as it is.
#[inline(always)]
pub(crate) fn take_step(state: &mut Held, hart: u8, setup: &Setup, decoded: &mut DecodedWords)
    requires seat { IsSeat hart state.old.processor }
    requires count { state.old.processor.count < 2 ^ 63 }
    requires room { setup.now.room ≤ room_of state.old.console }
    requires window { IsWindow setup.now.base (length (bytes_of state.old.memory)) setup.now.window }
    requires words { HasWords setup.now.base (length (bytes_of state.old.memory)) setup.now.words }
    ensures state { state_at hart state.new ≡ step (setting_of setup.now) (state_at hart state.old) }
    ensures seat { IsSeat hart state.new.processor }
    ensures room { room_of state.old.console ≤ room_of state.new.console }
    ensures size { length (bytes_of state.new.memory) ≡ length (bytes_of state.old.memory) }
{
    if is_running(state.processor.status()) {
        advance(state, hart, setup, decoded);
    }
}
