//! A state as the plain machine keeps it, and the same as others see it.

ghost use Rattle.std.specs.Prelude.{◌≡◌, ◌≤◌};
ghost use Rattle.thy_isa.specs.Step.{fronted, state_of};
ghost use Rattle.thy_plain.specs.Held.{IsSeat, state_at};

use thy_block::Bytes;
use thy_isa::{MachState, Processor};

/// A processor with its memory and its console. The harts stay where they are, whichever takes a step.
#[derive(Drop)]
pub(crate) struct Held {
    pub(crate) processor: Processor,
    /// The program memory alone.
    pub(crate) memory: Bytes,
    pub(crate) console: Bytes,
}

/// A state as the plain machine keeps it: memory and console are taken over.
pub(crate) fn held_of(state: MachState) -> Held
    ensures state { state_at 0 result ≡ state_of state }
    ensures seat { IsSeat 0 result.processor }
    ensures memory { result.memory ≡ state.memory }
    ensures console { result.console ≡ state.console }
{
    let processor = Processor::of(&state.cpu());
    let MachState {
        memory,
        console,
        ..
    } = state;
    Held {
        processor,
        memory,
        console,
    }
}

/// The state of this processor, memory and console as others see it, with hart 0 in front.
pub(crate) fn mach_state(processor: &Processor, memory: Bytes, console: Bytes) -> MachState
    requires { IsSeat 0 processor.now }
    ensures { state_of result ≡ state_at 0 (record { processor = processor.now; memory = memory; console = console }) }
{
    let cpu = processor.cpu(0, console.len() as u64);
    MachState {
        pc: cpu.pc,
        regs: cpu.regs,
        memory,
        console,
        cursor: cpu.cursor,
        brk: cpu.brk,
        floor: cpu.floor,
        count: cpu.count,
        status: cpu.status,
        other: cpu.other,
    }
}

/// The place of a hart, 0 or 1: with one hart it is that one's.
pub(crate) fn seat_of(state: &Held, hart: u8) -> u8
    requires few { hart ≤ 1 }
    requires seat { IsSeat 0 state.now.processor }
    ensures seat { IsSeat result state.now.processor }
    ensures state { state_at result state.now ≡ fronted hart (state_at 0 state.now) }
{
    if hart < state.processor.harts() {
        hart
    } else {
        0
    }
}
