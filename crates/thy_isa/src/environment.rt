//! The environment calls.
#![tactic(auto, unfolding(crate::specs::Calls::call_of, crate::specs::Calls::read_of, crate::specs::Calls::write_of, crate::specs::Calls::break_of))]

ghost use Rattle.std.specs.Prelude.{◌≡◌, ◌+◌, ◌-◌, ◌^◌, ◌≤◌, nat_le, ◌&&◌};
ghost use Rattle.thy_isa.specs.Calls.{call_of, read_of, write_of, break_of, few, first_sp, IsFit};

use crate::instr::Reg;
use crate::regs::Regs;
use crate::state::{Call, CallState};
use thy_block::is_inside;

// The numbers of the calls.
const READ: u64 = 63;

const WRITE: u64 = 64;

const EXIT: u64 = 93;

const EXIT_GROUP: u64 = 94;

const BRK: u64 = 214;

// The results of a call that is refused: the negative of an error's number, in two's complement.
const BAD_DESCRIPTOR: u64 = u64::MAX - 8;

const BAD_ADDRESS: u64 = u64::MAX - 13;

const NO_SPACE: u64 = u64::MAX - 27;

const NO_SUCH_CALL: u64 = u64::MAX - 37;

/// How many bytes one call moves at most.
const MOST: u64 = 64;

/// How far below the end of program memory the break stays: 256 bytes above the stack pointer of the
/// start, and 65536 below it.
const BREAK_GAP: u128 = 256 + 65536;

/// Decides an environment call: a7 names it, and a0 to a2 are its arguments. Lengths and addresses alone decide it. What
/// a call takes of the input is there, what it writes has room in the console, both lie in program memory, and a break
/// lies in its bounds.
pub fn call(regs: &Regs, state: &CallState) -> Call
    ensures call { result ≡ call_of regs.now state.now }
    ensures fit { IsFit state.now result }
{
    let number = regs.get(Reg::new(17));
    let a0 = regs.get(Reg::new(10));
    if number == READ {
        read(a0, regs.get(Reg::new(11)), regs.get(Reg::new(12)), state)
    } else if number == WRITE {
        write(a0, regs.get(Reg::new(11)), regs.get(Reg::new(12)), state)
    } else if number == EXIT || number == EXIT_GROUP {
        Call::Exit(a0 % 256)
    } else if number == BRK {
        set_break(a0, state)
    } else {
        Call::Answer(NO_SUCH_CALL)
    }
}

/// Bytes of the input go to an address.
fn read(descriptor: u64, at: u64, count: u64, state: &CallState) -> Call
    ensures call { result ≡ read_of descriptor at count state.now }
    ensures fit { IsFit state.now result }
{
    if descriptor != 0 {
        return Call::Answer(BAD_DESCRIPTOR);
    }
    if count == 0 || state.input_len <= state.cursor {
        return Call::Answer(0);
    }
    let len = count.min(MOST).min(state.input_len - state.cursor);
    if is_inside(state.base, state.size, at, len) {
        Call::Take { at, len }
    } else {
        Call::Answer(BAD_ADDRESS)
    }
}

/// The bytes at an address go to the console.
fn write(descriptor: u64, at: u64, count: u64, state: &CallState) -> Call
    ensures call { result ≡ write_of descriptor at count state.now }
    ensures fit { IsFit state.now result }
{
    if descriptor != 1 && descriptor != 2 {
        return Call::Answer(BAD_DESCRIPTOR);
    }
    if count == 0 {
        return Call::Answer(0);
    }
    if state.room == 0 {
        return Call::Answer(NO_SPACE);
    }
    let len = count.min(MOST).min(state.room);
    if is_inside(state.base, state.size, at, len) {
        Call::Give { at, len }
    } else {
        Call::Answer(BAD_ADDRESS)
    }
}

/// The break moves to an address, or stays.
fn set_break(at: u64, state: &CallState) -> Call
    ensures call { result ≡ break_of at state.now }
    ensures fit { IsFit state.now result }
{
    if state.floor <= at && is_below_stack(at, state) {
        Call::Break(at)
    } else {
        Call::Answer(state.brk)
    }
}

/// Whether an address leaves the room that is kept for the stack.
fn is_below_stack(at: u64, state: &CallState) -> bool
    ensures { result ≡ nat_le (at + 65536) (first_sp state.now) }
{
    u128::from(at) + BREAK_GAP <= u128::from(state.base) + u128::from(state.size)
}
