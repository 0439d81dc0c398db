//! What an instruction does, given the program counter and the registers.
#![tactic(auto, unfolding(crate::specs::Effects::effect_of))]

ghost use Rattle.std.specs.Prelude.{◌≡◌, ◌≤◌};
ghost use Rattle.thy_isa.specs.Effects.{IsOperation, effect_of, size_of, holds, after, linked, branched, word_effect};

use crate::arith::alu;
use crate::decoding::decode;
use crate::instr::{Cond, Instr, Reg, Width};
use crate::regs::Regs;
use crate::state::{Cause, Effect};

/// What an instruction at `pc` does with these registers. A load, a store or an atomic instruction may have any address: it
/// is not tested here, nor whether the hart has reserved it; `within` does that.
pub fn effect(instr: &Instr, pc: u64, regs: &Regs) -> Effect
    ensures { result ≡ effect_of instr.now pc regs.now }
{
    let next = after(pc);
    match *instr {
        Instr::Lui { rd, imm } => Effect::Set {
            pc: next,
            rd,
            value: imm,
        },
        Instr::Auipc { rd, imm } => Effect::Set {
            pc: next,
            rd,
            value: pc.wrapping_add(imm),
        },
        Instr::Jal { rd, imm } => linked(pc.wrapping_add(imm), rd, pc),
        Instr::Jalr { rd, rs1, imm } => {
            let target = regs.get(rs1).wrapping_add(imm);
            linked(target - target % 2, rd, pc)
        }
        Instr::Branch {
            cond,
            rs1,
            rs2,
            imm,
        } => branched(
            holds(cond, regs.get(rs1), regs.get(rs2)),
            pc.wrapping_add(imm),
            pc,
        ),
        Instr::Load {
            width,
            extend,
            rd,
            rs1,
            imm,
        } => Effect::Read {
            pc: next,
            at: regs.get(rs1).wrapping_add(imm),
            width,
            extend,
            rd,
        },
        Instr::Store {
            width,
            rs1,
            rs2,
            imm,
        } => Effect::Write {
            pc: next,
            at: regs.get(rs1).wrapping_add(imm),
            width,
            value: regs.get(rs2),
        },
        Instr::OpImm { .. } | Instr::Op { .. } => operated(instr, pc, regs),
        Instr::Fence | Instr::FenceI => Effect::Next { pc: next },
        Instr::Ecall => Effect::Environment,
        Instr::Ebreak => Effect::Trap(Cause::Breakpoint),
        Instr::LoadReserved { width, rd, rs1 } => Effect::Reserve {
            rd,
            width,
            pc: next,
            at: regs.get(rs1),
        },
        Instr::StoreConditional {
            width,
            rd,
            rs1,
            rs2,
        } => Effect::Conditional {
            rd,
            width,
            pc: next,
            at: regs.get(rs1),
            value: regs.get(rs2),
        },
        Instr::AtomicOp {
            op,
            width,
            rd,
            rs1,
            rs2,
        } => Effect::Modify {
            op,
            rd,
            width,
            pc: next,
            at: regs.get(rs1),
            value: regs.get(rs2),
        },
    }
}

/// What an operation at `pc` does. Both kinds share the one call of `alu`, so the compiler makes that a part of this
/// function.
fn operated(instr: &Instr, pc: u64, regs: &Regs) -> Effect
    requires { IsOperation instr.now }
    ensures { result ≡ effect_of instr.now pc regs.now }
{
    let (op, rd, a, b) = match *instr {
        Instr::OpImm { op, rd, rs1, imm } => (op, rd, regs.get(rs1), imm),
        Instr::Op { op, rd, rs1, rs2 } => (op, rd, regs.get(rs1), regs.get(rs2)),
        _ => unreachable!(),
    };
    Effect::Set {
        rd,
        pc: after(pc),
        value: alu(op, a, b),
    }
}

/// What the instruction of a word at `pc` does with these registers; a word that means no instruction traps.
pub fn word_effect(word: u32, pc: u64, regs: &Regs) -> Effect
    ensures { result ≡ word_effect word pc regs.now }
{
    match decode(word) {
        Some(instr) => effect(&instr, pc, regs),
        None => Effect::Trap(Cause::Illegal),
    }
}

/// How many bytes a load, a store or an atomic instruction of this width moves: 1, 2, 4 or 8.
pub fn bytes_in(width: Width) -> u64
    ensures size { result ≡ size_of width }
    ensures some { 1 ≤ result }
    ensures range { result ≤ 8 }
{
    match width {
        Width::Byte => 1,
        Width::Half => 2,
        Width::Word => 4,
        Width::Double => 8,
    }
}

/// The address of the instruction after the one at `pc`: 4 more, modulo `2^64`.
pub fn after(pc: u64) -> u64
    ensures { result ≡ after pc }
{
    pc.wrapping_add(4)
}

fn holds(cond: Cond, a: u64, b: u64) -> bool
    ensures { result ≡ holds cond a b }
{
    match cond {
        Cond::Equal => a == b,
        Cond::NotEqual => a != b,
        Cond::Less => a.cast_signed() < b.cast_signed(),
        Cond::GreaterEqual => a.cast_signed() >= b.cast_signed(),
        Cond::LessUnsigned => a < b,
        Cond::GreaterEqualUnsigned => a >= b,
    }
}

/// A jump that leaves the address after it in rd.
fn linked(target: u64, rd: Reg, pc: u64) -> Effect
    ensures { result ≡ linked target rd pc }
{
    if target % 4 == 0 {
        Effect::Set {
            pc: target,
            rd,
            value: after(pc),
        }
    } else {
        Effect::Trap(Cause::FetchMisaligned)
    }
}

fn branched(taken: bool, target: u64, pc: u64) -> Effect
    ensures { result ≡ branched taken target pc }
{
    if !taken {
        Effect::Next { pc: after(pc) }
    } else if target % 4 == 0 {
        Effect::Next { pc: target }
    } else {
        Effect::Trap(Cause::FetchMisaligned)
    }
}
