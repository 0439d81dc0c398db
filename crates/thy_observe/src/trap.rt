//! Where a program trapped, and at what.
ghost use Rattle.std.specs.Prelude.{◌≡◌};
ghost use Rattle.thy_isa.specs.Step.{state_of, cpu_of, fronted};
ghost use Rattle.thy_observe.specs.Trapping.{reached, reached_by, fetched_word, trap_of};

use thy_isa::{CpuState, Effect, MachState, Regs, Status, cross, fetch_fault, word, word_effect};

/// A trap.
#[derive(Clone, Copy, Debug, PartialEq, Eq, Drop)]
pub struct Trap {
    /// The number, 0 or 1, of the hart that trapped.
    pub hart: u8,
    /// The address of the instruction that trapped.
    pub pc: u64,
    /// The word at `pc`, if pc is aligned and the word is in memory.
    pub word: Option<u32>,
    /// The address of the load, store or atomic instruction that trapped.
    pub address: Option<u64>,
}

/// The processor with this hart in front, of a state that has hart 0 in front.
fn front_of(hart: u32, state: &MachState) -> CpuState
    ensures { result ≡ cpu_of (fronted hart (state_of state.now)) }
{
    let mut cpu = state.cpu();
    if hart != 0 {
        cross(&mut cpu);
    }
    cpu
}

/// The address that an effect reads or writes.
fn reached(effect: Effect) -> Option<u64>
    ensures { result ≡ reached effect }
{
    match effect {
        Effect::Read { at, .. }
        | Effect::Write { at, .. }
        | Effect::Reserve { at, .. }
        | Effect::Conditional { at, .. }
        | Effect::Modify { at, .. } => Some(at),
        _ => None,
    }
}

/// The word at pc, if one can be fetched there.
pub(crate) fn fetched_word(base: u64, pc: u64, memory: &[u8]) -> Option<u32>
    ensures { result ≡ fetched_word base pc memory.now }
{
    let size = memory.len() as u64;
    match fetch_fault(base, size, pc) {
        Some(_) => None,
        None => {
            let at = (pc - base) as usize;
            Some(word(memory, at))
        }
    }
}

/// The address that the instruction of a word would reach.
fn reached_by(word: Option<u32>, pc: u64, regs: &Regs) -> Option<u64>
    ensures { result ≡ reached_by word pc regs.now }
{
    match word {
        Some(word) => reached(word_effect(word, pc, regs)),
        None => None,
    }
}

/// The trap of a state that has hart 0 in front, if it has one, and if this hart trapped. Its memory begins at this address.
pub fn trap_of(base: u64, hart: u8, state: &MachState) -> Option<Trap>
    ensures { result ≡ trap_of base hart (state_of state.now) }
{
    let Status::Trapped(cause) = state.status else {
        return None;
    };
    let cpu = front_of(u32::from(hart), state);
    let word = fetched_word(base, cpu.pc, state.memory.as_slice());
    let address = if cause >= 4 {
        reached_by(word, cpu.pc, &cpu.regs)
    } else {
        None
    };
    Some(Trap {
        hart,
        pc: cpu.pc,
        word,
        address,
    })
}
