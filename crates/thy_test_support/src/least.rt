//! What the parts of a scheme are tested over: the least memory, a start of it, processors, and drawn blocks.
ghost use Rattle.std.specs.Prelude.{◌≡◌, IfOk, length};
ghost use Rattle.thy_isa.specs.Step.{state_of};
ghost use Rattle.thy_test_support.specs.Starts.{IsLeastStart};

use crate::smallest::SMALLEST;
use std::alloc::{AllocError, Global};
use thy_base::{Block, Bytes, Lcg, Parameters};
use thy_isa::{CpuState, MachState, Regs, Status};
use thy_layout::Start;

/// The least memory, of 512 blocks in eight pages, with the least tables and short queues.
pub const LEAST: Parameters = Parameters {
    epoch: 1,
    sets: 1,
    ways: 1,
    nvmq: 4,
    dramq: 4,
    limit: 1,
    ..SMALLEST
};

/// A start with this memory, whose console has 70 exclamation marks.
pub fn start_over(alloc: Global, memory: Vec<u8>) -> Result<Start, AllocError>
    requires { length memory.items ≡ 28672 }
    ensures { IfOk result (λ start. IsLeastStart (state_of start.state)) }
{
    let console = vec![in alloc; 33u8; 70]?;
    let state = MachState {
        pc: 65540,
        regs: Regs::new(),
        memory: Bytes::from_vec(memory),
        console: Bytes::from_vec(console),
        cursor: 3,
        brk: 65600,
        floor: 65600,
        count: 5,
        status: Status::Running,
        other: None,
    };
    Ok(Start {
        state,
        kept: None,
        input: Bytes::new(alloc),
    })
}

/// A processor that retired `count` instructions.
pub fn cpu_at(count: u64) -> CpuState
    ensures { length result.regs ≡ 32 }
{
    CpuState {
        pc: 0,
        regs: Regs::new(),
        console_len: 0,
        cursor: 0,
        brk: 0,
        floor: 0,
        count,
        status: Status::Running,
        other: None,
    }
}

/// The processor of a state.
pub fn cpu_of(state: &MachState) -> CpuState {
    CpuState {
        pc: state.pc,
        regs: state.regs,
        console_len: state.console.len() as u64,
        cursor: state.cursor,
        brk: state.brk,
        floor: state.floor,
        count: state.count,
        status: state.status,
        other: state.other,
    }
}

/// A block of drawn bytes.
pub fn drawn(lcg: &mut Lcg) -> Block {
    let mut block = Block::ZERO;
    for byte in block.0.iter_mut() {
        *byte = (lcg.next() % 256) as u8;
    }
    block
}
