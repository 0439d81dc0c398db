//! An instruction as it is kept: one jump finds what to do.
#![tactic(auto, unfolding(crate::specs::Found::instr_by))]

ghost use Rattle.std.specs.Prelude.{◌≡◌, ℕ, Some};
ghost use Rattle.thy_isa.specs.declared.instr.Instr.TheVariants.{OpImm as OpImmOf, Op as OpOf};
ghost use Rattle.thy_isa.specs.Table.{instr_of};
ghost use Rattle.thy_isa.specs.Found.{instr_by};

use crate::{Alu, Cond, Extend, Instr, Reg, Width, decode};

/// What a word means, if that is a frequent instruction. An operation that takes one host instruction is a variant of its own,
/// with a register or an immediate as its second operand.
#[derive(Clone, Copy)]
pub enum Found {
    AddImm {
        rd: Reg,
        rs1: Reg,
        imm: u64,
    },
    SllImm {
        rd: Reg,
        rs1: Reg,
        imm: u64,
    },
    XorImm {
        rd: Reg,
        rs1: Reg,
        imm: u64,
    },
    SrlImm {
        rd: Reg,
        rs1: Reg,
        imm: u64,
    },
    OrImm {
        rd: Reg,
        rs1: Reg,
        imm: u64,
    },
    AndImm {
        rd: Reg,
        rs1: Reg,
        imm: u64,
    },
    /// Another operation with an immediate.
    OpImm {
        op: Alu,
        rd: Reg,
        rs1: Reg,
        imm: u64,
    },
    Add {
        rd: Reg,
        rs1: Reg,
        rs2: Reg,
    },
    Sub {
        rd: Reg,
        rs1: Reg,
        rs2: Reg,
    },
    Sll {
        rd: Reg,
        rs1: Reg,
        rs2: Reg,
    },
    Xor {
        rd: Reg,
        rs1: Reg,
        rs2: Reg,
    },
    Srl {
        rd: Reg,
        rs1: Reg,
        rs2: Reg,
    },
    Or {
        rd: Reg,
        rs1: Reg,
        rs2: Reg,
    },
    And {
        rd: Reg,
        rs1: Reg,
        rs2: Reg,
    },
    /// Another operation on two registers.
    Op {
        op: Alu,
        rd: Reg,
        rs1: Reg,
        rs2: Reg,
    },
    Load {
        width: Width,
        extend: Extend,
        rd: Reg,
        rs1: Reg,
        imm: u64,
    },
    Store {
        width: Width,
        rs1: Reg,
        rs2: Reg,
        imm: u64,
    },
    Branch {
        cond: Cond,
        rs1: Reg,
        rs2: Reg,
        imm: u64,
    },
    Lui {
        rd: Reg,
        imm: u64,
    },
    Auipc {
        rd: Reg,
        imm: u64,
    },
    Jal {
        rd: Reg,
        imm: u64,
    },
    Jalr {
        rd: Reg,
        rs1: Reg,
        imm: u64,
    },
    /// Another instruction, or none: it is found again each time.
    Other,
}

/// An operation with an immediate.
fn with_imm(op: Alu, rd: Reg, rs1: Reg, imm: u64) -> Found
    ensures { (word : ℕ) → instr_by word result ≡ Some (OpImmOf op rd rs1 imm) }
{
    match op {
        Alu::Add => Found::AddImm { rd, rs1, imm },
        Alu::Sll => Found::SllImm { rd, rs1, imm },
        Alu::Xor => Found::XorImm { rd, rs1, imm },
        Alu::Srl => Found::SrlImm { rd, rs1, imm },
        Alu::Or => Found::OrImm { rd, rs1, imm },
        Alu::And => Found::AndImm { rd, rs1, imm },
        _ => Found::OpImm { op, rd, rs1, imm },
    }
}

/// An operation on two registers.
fn with_regs(op: Alu, rd: Reg, rs1: Reg, rs2: Reg) -> Found
    ensures { (word : ℕ) → instr_by word result ≡ Some (OpOf op rd rs1 rs2) }
{
    match op {
        Alu::Add => Found::Add { rd, rs1, rs2 },
        Alu::Sub => Found::Sub { rd, rs1, rs2 },
        Alu::Sll => Found::Sll { rd, rs1, rs2 },
        Alu::Xor => Found::Xor { rd, rs1, rs2 },
        Alu::Srl => Found::Srl { rd, rs1, rs2 },
        Alu::Or => Found::Or { rd, rs1, rs2 },
        Alu::And => Found::And { rd, rs1, rs2 },
        _ => Found::Op { op, rd, rs1, rs2 },
    }
}

/// What the cache keeps of a word.
pub(crate) fn found_of(word: u32) -> Found
    ensures { instr_by word result ≡ instr_of word }
{
    let Some(instr) = decode(word) else {
        return Found::Other;
    };
    match instr {
        Instr::OpImm { op, rd, rs1, imm } => with_imm(op, rd, rs1, imm),
        Instr::Op { op, rd, rs1, rs2 } => with_regs(op, rd, rs1, rs2),
        Instr::Load {
            width,
            extend,
            rd,
            rs1,
            imm,
        } => Found::Load {
            width,
            extend,
            rd,
            rs1,
            imm,
        },
        Instr::Store {
            width,
            rs1,
            rs2,
            imm,
        } => Found::Store {
            width,
            rs1,
            rs2,
            imm,
        },
        Instr::Branch {
            cond,
            rs1,
            rs2,
            imm,
        } => Found::Branch {
            cond,
            rs1,
            rs2,
            imm,
        },
        Instr::Lui { rd, imm } => Found::Lui { rd, imm },
        Instr::Auipc { rd, imm } => Found::Auipc { rd, imm },
        Instr::Jal { rd, imm } => Found::Jal { rd, imm },
        Instr::Jalr { rd, rs1, imm } => Found::Jalr { rd, rs1, imm },
        Instr::Fence
        | Instr::FenceI
        | Instr::Ecall
        | Instr::Ebreak
        | Instr::LoadReserved { .. }
        | Instr::StoreConditional { .. }
        | Instr::AtomicOp { .. } => Found::Other,
    }
}
