//! The parts of one step, shared by machines that keep their memory in different ways.
#![tactic(auto, unfolding(crate::specs::Step::fetch_fault, crate::specs::Step::within, crate::specs::Step::served, crate::specs::Step::finished))]

ghost use Rattle.std.specs.Prelude.{◌≡◌, ◌≢◌, ◌+◌, ◌<◌, ◌^◌};
ghost use Rattle.thy_isa.specs.declared.state.CallState.{CallState};
ghost use Rattle.thy_isa.specs.declared.state.Cause.TheVariants.{LoadMisaligned, LoadAccess, StoreMisaligned, StoreAccess};
ghost use Rattle.thy_isa.specs.declared.state.Effect.TheVariants.{Environment};
ghost use Rattle.thy_isa.specs.Access.{IsAtomic};
ghost use Rattle.thy_isa.specs.Calls.{call_of};
ghost use Rattle.thy_isa.specs.Step.{fetch_fault, aligned, within, cause_number, AreCallsOf, answered, served, finished};

use crate::effects::{after, bytes_in};
use crate::environment::call;
use crate::instr::{Extend, Reg, Width};
use crate::numbers::extended;
use crate::reserving::{front_of, is_reserved, reservation, reserve, write_past};
use crate::state::{Call, CallState, Cause, CpuState, Effect, OtherHart, Reservation, Status};
use thy_block::is_inside;

/// Why no instruction can be fetched at `pc` from a memory of `size` bytes at `base`; None exactly if one can.
pub fn fetch_fault(base: u64, size: u64, pc: u64) -> Option<Cause>
    ensures { result ≡ fetch_fault base size pc }
{
    if pc % 4 != 0 {
        Some(Cause::FetchMisaligned)
    } else if is_inside(base, size, pc, 4) {
        None
    } else {
        Some(Cause::FetchAccess)
    }
}

/// The effect as the hart in front has it, beside the other hart if there are two: a trap if it would read or write outside
/// memory. An atomic instruction traps as illegal with one hart, and if its address is no multiple of its width; a
/// store-conditional fails if its bytes are not reserved.
#[inline(always)]
pub fn within(base: u64, size: u64, other: &Option<OtherHart>, effect: Effect) -> Effect
    ensures { result ≡ within base size other.now effect }
{
    match effect {
        Effect::Read { at, width, .. } if !is_inside(base, size, at, bytes_in(width)) => {
            Effect::Trap(Cause::LoadAccess)
        }
        Effect::Write { at, width, .. } if !is_inside(base, size, at, bytes_in(width)) => {
            Effect::Trap(Cause::StoreAccess)
        }
        Effect::Reserve { .. } | Effect::Conditional { .. } | Effect::Modify { .. } => {
            atomic_within(base, size, other, effect)
        }
        _ => effect,
    }
}

/// The effect of an atomic instruction, as the hart in front has it: a trap if there is one hart, or if its address is
/// misaligned or outside memory.
fn atomic_within(base: u64, size: u64, other: &Option<OtherHart>, effect: Effect) -> Effect
    requires { IsAtomic effect }
    ensures { result ≡ within base size other.now effect }
{
    match other {
        None => Effect::Trap(Cause::Illegal),
        Some(_) => match effect {
            Effect::Reserve { width, at, .. } => aligned_load(base, size, width, at, effect),
            Effect::Conditional {
                rd,
                width,
                pc,
                at,
                ..
            } => {
                if is_reserved(front_of(other), width, at) {
                    aligned_store(base, size, width, at, effect)
                } else {
                    aligned_store(base, size, width, at, Effect::Fail { rd, pc })
                }
            }
            Effect::Modify { width, at, .. } => aligned_store(base, size, width, at, effect),
            _ => unreachable!(),
        },
    }
}

/// The effect, or the trap of a load whose address is no multiple of its width, or outside memory.
fn aligned_load(base: u64, size: u64, width: Width, at: u64, effect: Effect) -> Effect
    ensures { result ≡ aligned base size width at LoadMisaligned LoadAccess effect }
{
    if at % bytes_in(width) != 0 {
        Effect::Trap(Cause::LoadMisaligned)
    } else if is_inside(base, size, at, bytes_in(width)) {
        effect
    } else {
        Effect::Trap(Cause::LoadAccess)
    }
}

/// The effect, or the trap of a store whose address is not a multiple of its width, or is outside memory.
fn aligned_store(base: u64, size: u64, width: Width, at: u64, effect: Effect) -> Effect
    ensures { result ≡ aligned base size width at StoreMisaligned StoreAccess effect }
{
    if at % bytes_in(width) != 0 {
        Effect::Trap(Cause::StoreMisaligned)
    } else if is_inside(base, size, at, bytes_in(width)) {
        effect
    } else {
        Effect::Trap(Cause::StoreAccess)
    }
}

/// The number of a trap, 0 to 7, in the order of the variants.
pub fn cause_number(cause: Cause) -> u64
    ensures { result ≡ cause_number cause }
{
    cause as u64
}

/// Goes to the instruction after a call, with the call's result in a0.
fn answer(cpu: &mut CpuState, value: u64)
    requires { cpu.old.count + 1 < 2 ^ 64 }
    ensures { cpu.new ≡ answered cpu.old value }
{
    cpu.count += 1;
    cpu.pc = after(cpu.pc);
    cpu.regs.set(Reg::new(10), value);
}

/// Makes of the processor what an environment call leaves: a result in a0, an exit, or another break.
fn serve(cpu: &mut CpuState, calls: &CallState)
    requires count { cpu.old.count + 1 < 2 ^ 64 }
    requires calls { AreCallsOf cpu.old calls.now }
    ensures { cpu.new ≡ served cpu.old (call_of cpu.old.regs calls.now) }
{
    match call(&cpu.regs, calls) {
        Call::Answer(value) => answer(cpu, value),
        Call::Exit(value) => {
            cpu.count += 1;
            cpu.status = Status::Exited(value);
        }
        Call::Break(at) => {
            answer(cpu, at);
            cpu.brk = at;
        }
        Call::Take { at, len } => {
            answer(cpu, len);
            cpu.cursor += len;
            write_past(&mut cpu.other, at, len);
        }
        Call::Give { len, .. } => {
            answer(cpu, len);
            cpu.console_len += len;
        }
    }
}

/// Takes an effect that is not an environment call, memory aside. `number` is what was read if the effect reads.
#[inline(always)]
pub fn finish_alone(cpu: &mut CpuState, effect: &Effect, number: u64)
    requires count { cpu.old.count + 1 < 2 ^ 64 }
    requires alone { effect.now ≢ Environment }
    ensures { (calls : CallState) → cpu.new ≡ finished cpu.old effect.now number calls }
{
    match *effect {
        Effect::Next { pc } => cpu.pc = pc,
        Effect::Write { pc, width, at, .. } => {
            cpu.pc = pc;
            write_past(&mut cpu.other, at, bytes_in(width));
        }
        Effect::Set { pc, rd, value } => {
            cpu.pc = pc;
            cpu.regs.set(rd, value);
        }
        Effect::Read {
            pc,
            width,
            extend,
            rd,
            ..
        } => {
            cpu.pc = pc;
            cpu.regs.set(rd, extended(width, extend, number));
        }
        Effect::Reserve { rd, width, pc, at } => {
            cpu.pc = pc;
            cpu.regs.set(rd, extended(width, Extend::Sign, number));
            reserve(&mut cpu.other, reservation(width, at));
        }
        Effect::Conditional {
            rd,
            width,
            pc,
            at,
            ..
        } => {
            cpu.pc = pc;
            cpu.regs.set(rd, 0);
            write_past(&mut cpu.other, at, bytes_in(width));
            reserve(&mut cpu.other, Reservation::Nothing(0));
        }
        Effect::Fail { rd, pc } => {
            cpu.pc = pc;
            cpu.regs.set(rd, 1);
            reserve(&mut cpu.other, Reservation::Nothing(0));
        }
        Effect::Modify {
            rd,
            width,
            pc,
            at,
            ..
        } => {
            cpu.pc = pc;
            cpu.regs.set(rd, extended(width, Extend::Sign, number));
            write_past(&mut cpu.other, at, bytes_in(width));
        }
        Effect::Environment => unreachable!(),
        Effect::Trap(cause) => cpu.status = Status::Trapped(cause_number(cause)),
    }
    cpu.count += 1;
}

/// Takes an effect, memory aside. `number` is what was read if the effect reads, and `calls` what an environment call
/// depends on. With two harts a write removes the other hart's reservation exactly if it touches its block, and leaves
/// its own; a store-conditional always gives its own up.
pub fn finish(cpu: &mut CpuState, effect: &Effect, number: u64, calls: &CallState)
    requires count { cpu.old.count + 1 < 2 ^ 64 }
    requires calls { AreCallsOf cpu.old calls.now }
    ensures { cpu.new ≡ finished cpu.old effect.now number calls.now }
{
    match *effect {
        Effect::Environment => serve(cpu, calls),
        Effect::Next { .. }
        | Effect::Set { .. }
        | Effect::Read { .. }
        | Effect::Write { .. }
        | Effect::Reserve { .. }
        | Effect::Conditional { .. }
        | Effect::Fail { .. }
        | Effect::Modify { .. }
        | Effect::Trap(_) => finish_alone(cpu, effect, number),
    }
}
