//! Instructions to words, of the kinds that made programs have. Formats are those of the RISC-V unprivileged ISA
//! manual.
ghost use Rattle.std.specs.Prelude.{◌≡◌, ◌<◌};
ghost use Rattle.thy_isa.specs.Words.{bits_of};
ghost use Rattle.thy_elf.specs.Encode.{lui_word, jal_word, beq_word, sd_word, addi_word, encoded};

use thy_isa::{Alu, Cond, Instr, Reg, Width};

/// The word of a LUI, JAL, BEQ, SD, ADDI or ECALL; of any other instruction 0, which means none.
pub(crate) fn word(instr: &Instr) -> u32
    ensures { result ≡ encoded instr.now }
{
    match *instr {
        Instr::Lui { rd, imm } => lui(rd, imm),
        Instr::Jal { rd, imm } => jal(rd, imm),
        Instr::Branch {
            cond: Cond::Equal,
            rs1,
            rs2,
            imm,
        } => beq(rs1, rs2, imm),
        Instr::Store {
            width: Width::Double,
            rs1,
            rs2,
            imm,
        } => sd(rs1, rs2, imm),
        Instr::OpImm {
            op: Alu::Add,
            rd,
            rs1,
            imm,
        } => addi(rd, rs1, imm),
        Instr::Ecall => 0x00000073,
        _ => 0,
    }
}

/// `count` bits of a number, from bit `low` upward.
fn bits(number: u64, low: u32, count: u32) -> u32
    requires low { low < 64 }
    requires count { count < 32 }
    ensures { result ≡ bits_of number low count }
{
    ((number >> low) & ((1 << count) - 1)) as u32
}

/// The number of a register.
fn register(reg: Reg) -> u32
    ensures number { result ≡ reg }
    ensures range { result < 32 }
{
    u32::from(reg.number())
}

fn lui(rd: Reg, imm: u64) -> u32
    ensures { result ≡ lui_word rd imm }
{
    (bits(imm, 12, 20) << 12) + (register(rd) << 7) + 0b0110111
}

fn jal(rd: Reg, imm: u64) -> u32
    ensures { result ≡ jal_word rd imm }
{
    let high = (bits(imm, 20, 1) << 31) + (bits(imm, 1, 10) << 21);
    let low = (bits(imm, 11, 1) << 20) + (bits(imm, 12, 8) << 12);
    high + low + (register(rd) << 7) + 0b1101111
}

fn beq(rs1: Reg, rs2: Reg, imm: u64) -> u32
    ensures { result ≡ beq_word rs1 rs2 imm }
{
    let high = (bits(imm, 12, 1) << 31) + (bits(imm, 5, 6) << 25);
    let low = (bits(imm, 1, 4) << 8) + (bits(imm, 11, 1) << 7);
    high + (register(rs2) << 20) + (register(rs1) << 15) + low + 0b1100011
}

fn sd(rs1: Reg, rs2: Reg, imm: u64) -> u32
    ensures { result ≡ sd_word rs1 rs2 imm }
{
    let high = (bits(imm, 5, 7) << 25) + (register(rs2) << 20) + (register(rs1) << 15);
    high + (3 << 12) + (bits(imm, 0, 5) << 7) + 0b0100011
}

fn addi(rd: Reg, rs1: Reg, imm: u64) -> u32
    ensures { result ≡ addi_word rd rs1 imm }
{
    (bits(imm, 0, 12) << 20) + (register(rs1) << 15) + (register(rd) << 7) + 0b0010011
}
