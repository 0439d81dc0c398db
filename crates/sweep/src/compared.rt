//! The part of a state that is compared, and whether two states have the same one.
ghost use Rattle.std.specs.Prelude.{◌≡◌, true, IfOk};
ghost use Rattle.thy_isa.specs.Step.{state_of};
ghost use Rattle.thy_sweep.specs.Trials.{IsReadOf};
ghost use Rattle.thy_sweep.specs.declared.trial.part.Part.TheVariants.{State as Whole, Processor};
ghost use Rattle.sweep.specs.Findings.{AreSame, IsProcessor, IsState};

use std::alloc::{AllocError, Global};
use thy_isa::{CpuState, MachState};
use thy_sweep::{Part, Restored};

/// A copy of a state.
fn copy_of(alloc: Global, state: &MachState) -> Result<MachState, AllocError>
    ensures { IfOk result (λ s. state_of s ≡ state_of state.now) }
{
    Ok(MachState {
        pc: state.pc,
        regs: state.regs,
        memory: state.memory.duplicate(alloc)?,
        console: state.console.duplicate(alloc)?,
        cursor: state.cursor,
        brk: state.brk,
        floor: state.floor,
        count: state.count,
        status: state.status,
        other: state.other,
    })
}

/// A copy of this part of a state. For the processor nothing is allocated.
pub fn part_of(alloc: Global, part: Part, state: &MachState) -> Result<Restored, AllocError>
    ensures { IfOk result (IsReadOf (state_of state.now) part) }
{
    match part {
        Part::State => {
            let copy = copy_of(alloc, state)?;
            Ok(Restored::State(copy))
        }
        Part::Processor => Ok(Restored::Processor(state.cpu())),
    }
}

/// Whether two lists of bytes are the same.
fn are_same_bytes(a: &[u8], b: &[u8]) -> bool
    ensures { result ≡ true → a.now ≡ b.now }
{
    a == b
}

/// Whether two processors are the same.
fn is_same_cpu(a: &CpuState, b: &CpuState) -> bool
    ensures { result ≡ true → a.now ≡ b.now }
{
    *a == *b
}

/// Whether two states are the same, with their memories and consoles.
fn is_same_state(a: &MachState, b: &MachState) -> bool
    ensures { result ≡ true → state_of a.now ≡ state_of b.now }
{
    let same_cpu = is_same_cpu(&a.cpu(), &b.cpu());
    if !same_cpu {
        return false;
    }
    let same_console = are_same_bytes(a.console.as_slice(), b.console.as_slice());
    if !same_console {
        return false;
    }
    are_same_bytes(a.memory.as_slice(), b.memory.as_slice())
}

/// Whether this whole state was read.
fn is_state(state: &MachState, read: &Restored) -> bool
    ensures { result ≡ true → IsState (state_of state.now) read.now }
{
    match read {
        Restored::State(read) => is_same_state(state, read),
        Restored::Processor(_) => false,
    }
}

/// Whether this processor was read.
fn is_processor(cpu: &CpuState, read: &Restored) -> bool
    ensures { result ≡ true → IsProcessor cpu.now read.now }
{
    match read {
        Restored::State(_) => false,
        Restored::Processor(read) => is_same_cpu(cpu, read),
    }
}

/// Whether the whole of two states was read, and is the same.
fn are_same_states(a: &Restored, b: &Restored) -> bool
    ensures { result ≡ true → AreSame Whole a.now b.now }
{
    match a {
        Restored::State(state) => is_state(state, b),
        Restored::Processor(_) => false,
    }
}

/// Whether the processors of two states were read alone, and are the same.
fn are_same_processors(a: &Restored, b: &Restored) -> bool
    ensures { result ≡ true → AreSame Processor a.now b.now }
{
    match a {
        Restored::State(_) => false,
        Restored::Processor(cpu) => is_processor(cpu, b),
    }
}

/// Whether this part of two states was read, and is the same.
pub fn are_same(part: Part, a: &Restored, b: &Restored) -> bool
    ensures { result ≡ true → AreSame part a.now b.now }
{
    match part {
        Part::State => are_same_states(a, b),
        Part::Processor => are_same_processors(a, b),
    }
}
