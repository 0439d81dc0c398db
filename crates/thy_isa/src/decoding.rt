//! Words to instructions, a few comparisons each. Formats and numbers are those of the RISC-V
//! unprivileged ISA manual.
#![tactic(auto, unfolding(crate::specs::Table::instr_of))]

ghost use Rattle.std.specs.Prelude.{◌≡◌, ◌==◌, ◌+◌, ◌-◌, ◌*◌, ◌^◌, ◌<◌, ◌≤◌, nat_lt, nat_le, if◌then◌else◌, Some, None, is_some, ◌⊎◌};
ghost use Rattle.thy_isa.specs.Words.{bits_of, opcode_of, rd_of, rs1_of, rs2_of, funct3_of, funct7_of, funct6_of, imm_i, imm_s, imm_b, imm_u, imm_j, shamt_of, shamt_w_of};
ghost use Rattle.thy_isa.specs.Table.{reserve, conditional, instr_of, rows_of};

use crate::instr::{Alu, Amo, Cond, Extend, Instr, Reg, Width};

/// The instruction that a word means; None exactly if it means none. It is made part of what calls it, which then matches the
/// instruction where it is made.
#[inline(always)]
pub fn decode(word: u32) -> Option<Instr>
    ensures { result ≡ instr_of word }
{
    match word & 0x7f {
        0b0110111 => Some(Instr::Lui {
            rd: rd(word),
            imm: u_immediate(word),
        }),
        0b0010111 => Some(Instr::Auipc {
            rd: rd(word),
            imm: u_immediate(word),
        }),
        0b1101111 => Some(Instr::Jal {
            rd: rd(word),
            imm: j_immediate(word),
        }),
        0b1100111 => decode_jalr(word),
        0b1100011 => decode_branch(word),
        0b0000011 => decode_load(word),
        0b0100011 => decode_store(word),
        0b0010011 => decode_op_imm(word),
        0b0110011 => decode_op(word),
        0b0011011 => decode_op_imm_32(word),
        0b0111011 => decode_op_32(word),
        0b0001111 => decode_fence(word),
        0b1110011 => decode_system(word),
        0b0101111 => decode_atomic(word),
        _ => None,
    }
}

/// Whether a word means an instruction. No word has two rows of the table, and some row has it exactly
/// if `decode` has an instruction for it.
pub fn is_legal(word: u32) -> bool
    ensures decoded { result ≡ is_some (instr_of word) }
    ensures at_most_one { rows_of word ≤ 1 }
    ensures some_row { result ≡ nat_le 1 (rows_of word) }
{
    decode(word).is_some()
}

fn decode_jalr(word: u32) -> Option<Instr>
    requires { opcode_of word ≡ 0b1100111 }
    ensures { result ≡ instr_of word }
{
    match funct3(word) {
        0b000 => Some(Instr::Jalr {
            rd: rd(word),
            rs1: rs1(word),
            imm: i_immediate(word),
        }),
        _ => None,
    }
}

fn decode_branch(word: u32) -> Option<Instr>
    requires { opcode_of word ≡ 0b1100011 }
    ensures { result ≡ instr_of word }
{
    let cond = match funct3(word) {
        0b000 => Cond::Equal,
        0b001 => Cond::NotEqual,
        0b100 => Cond::Less,
        0b101 => Cond::GreaterEqual,
        0b110 => Cond::LessUnsigned,
        0b111 => Cond::GreaterEqualUnsigned,
        _ => return None,
    };
    Some(Instr::Branch {
        cond,
        rs1: rs1(word),
        rs2: rs2(word),
        imm: b_immediate(word),
    })
}

/// `count` bits of a word, from bit `low` upward.
fn bits(word: u32, low: u32, count: u32) -> u32
    requires low { low < 32 }
    requires count { count < 32 }
    ensures { result ≡ bits_of word low count }
{
    (word >> low) & ((1 << count) - 1)
}

fn funct3(word: u32) -> u32
    ensures { result ≡ funct3_of word }
{
    bits(word, 12, 3)
}

fn funct7(word: u32) -> u32
    ensures { result ≡ funct7_of word }
{
    bits(word, 25, 7)
}

fn rd(word: u32) -> Reg
    ensures { result ≡ rd_of word }
{
    Reg::new(bits(word, 7, 5) as u8)
}

fn rs1(word: u32) -> Reg
    ensures { result ≡ rs1_of word }
{
    Reg::new(bits(word, 15, 5) as u8)
}

fn rs2(word: u32) -> Reg
    ensures { result ≡ rs2_of word }
{
    Reg::new(bits(word, 20, 5) as u8)
}

/// A number of bits whose highest is worth `sign`, extended to 64 bits by that bit.
fn sign_extended(field: u32, sign: u64) -> u64
    requires sign { sign ≤ 2 ^ 31 }
    requires field { field < 2 * sign }
    ensures { result ≡ (if nat_lt field sign then field else field + (2 ^ 64 - 2 * sign)) }
{
    let field = u64::from(field);
    if field < sign {
        field
    } else {
        u64::MAX - (2 * sign - 1 - field)
    }
}

fn i_immediate(word: u32) -> u64
    ensures { result ≡ imm_i word }
{
    i64::from(word.cast_signed() >> 20).cast_unsigned()
}

fn s_immediate(word: u32) -> u64
    ensures { result ≡ imm_s word }
{
    sign_extended(bits(word, 25, 7) * 32 + bits(word, 7, 5), 1 << 11)
}

fn b_immediate(word: u32) -> u64
    ensures { result ≡ imm_b word }
{
    let high = bits(word, 31, 1) * 4096 + bits(word, 7, 1) * 2048;
    sign_extended(
        high + bits(word, 25, 6) * 32 + bits(word, 8, 4) * 2,
        1 << 12,
    )
}

fn u_immediate(word: u32) -> u64
    ensures { result ≡ imm_u word }
{
    sign_extended(bits(word, 12, 20) * 4096, 1 << 31)
}

fn j_immediate(word: u32) -> u64
    ensures { result ≡ imm_j word }
{
    let high = bits(word, 31, 1) * 1048576 + bits(word, 12, 8) * 4096;
    sign_extended(
        high + bits(word, 20, 1) * 2048 + bits(word, 21, 10) * 2,
        1 << 20,
    )
}

fn decode_load(word: u32) -> Option<Instr>
    requires { opcode_of word ≡ 0b0000011 }
    ensures { result ≡ instr_of word }
{
    let (width, extend) = match funct3(word) {
        0b000 => (Width::Byte, Extend::Sign),
        0b001 => (Width::Half, Extend::Sign),
        0b010 => (Width::Word, Extend::Sign),
        0b011 => (Width::Double, Extend::Sign),
        0b100 => (Width::Byte, Extend::Zero),
        0b101 => (Width::Half, Extend::Zero),
        0b110 => (Width::Word, Extend::Zero),
        _ => return None,
    };
    Some(Instr::Load {
        width,
        extend,
        rd: rd(word),
        rs1: rs1(word),
        imm: i_immediate(word),
    })
}

fn decode_store(word: u32) -> Option<Instr>
    requires { opcode_of word ≡ 0b0100011 }
    ensures { result ≡ instr_of word }
{
    let width = match funct3(word) {
        0b000 => Width::Byte,
        0b001 => Width::Half,
        0b010 => Width::Word,
        0b011 => Width::Double,
        _ => return None,
    };
    Some(Instr::Store {
        width,
        rs1: rs1(word),
        rs2: rs2(word),
        imm: s_immediate(word),
    })
}

fn decode_op_imm(word: u32) -> Option<Instr>
    requires { opcode_of word ≡ 0b0010011 }
    ensures { result ≡ instr_of word }
{
    let op = match funct3(word) {
        0b000 => Alu::Add,
        0b010 => Alu::Slt,
        0b011 => Alu::Sltu,
        0b100 => Alu::Xor,
        0b110 => Alu::Or,
        0b111 => Alu::And,
        _ => return decode_shift(word),
    };
    Some(Instr::OpImm {
        op,
        rd: rd(word),
        rs1: rs1(word),
        imm: i_immediate(word),
    })
}

/// The shifts by an immediate of six bits, which are distinguished by bits 31 to 26.
fn decode_shift(word: u32) -> Option<Instr>
    requires opcode { opcode_of word ≡ 0b0010011 }
    requires shift { (funct3_of word ≡ 0b001) ⊎ (funct3_of word ≡ 0b101) }
    ensures { result ≡ instr_of word }
{
    let op = match (funct3(word), bits(word, 26, 6)) {
        (0b001, 0b000000) => Alu::Sll,
        (0b101, 0b000000) => Alu::Srl,
        (0b101, 0b010000) => Alu::Sra,
        _ => return None,
    };
    Some(Instr::OpImm {
        op,
        rd: rd(word),
        rs1: rs1(word),
        imm: u64::from(bits(word, 20, 6)),
    })
}

fn decode_op(word: u32) -> Option<Instr>
    requires { opcode_of word ≡ 0b0110011 }
    ensures { result ≡ instr_of word }
{
    let op = match (funct7(word), funct3(word)) {
        (0b0000000, 0b000) => Alu::Add,
        (0b0000000, 0b001) => Alu::Sll,
        (0b0000000, 0b010) => Alu::Slt,
        (0b0000000, 0b011) => Alu::Sltu,
        (0b0000000, 0b100) => Alu::Xor,
        (0b0000000, 0b101) => Alu::Srl,
        (0b0000000, 0b110) => Alu::Or,
        (0b0000000, 0b111) => Alu::And,
        (0b0100000, 0b000) => Alu::Sub,
        (0b0100000, 0b101) => Alu::Sra,
        (0b0000001, 0b000) => Alu::Mul,
        (0b0000001, 0b001) => Alu::Mulh,
        (0b0000001, 0b010) => Alu::Mulhsu,
        (0b0000001, 0b011) => Alu::Mulhu,
        (0b0000001, 0b100) => Alu::Div,
        (0b0000001, 0b101) => Alu::Divu,
        (0b0000001, 0b110) => Alu::Rem,
        (0b0000001, 0b111) => Alu::Remu,
        _ => return None,
    };
    Some(Instr::Op {
        op,
        rd: rd(word),
        rs1: rs1(word),
        rs2: rs2(word),
    })
}

fn decode_op_imm_32(word: u32) -> Option<Instr>
    requires { opcode_of word ≡ 0b0011011 }
    ensures { result ≡ instr_of word }
{
    let op = match (funct3(word), funct7(word)) {
        (0b000, _) => Alu::Addw,
        (0b001, 0b0000000) => Alu::Sllw,
        (0b101, 0b0000000) => Alu::Srlw,
        (0b101, 0b0100000) => Alu::Sraw,
        _ => return None,
    };
    let imm = if funct3(word) == 0 {
        i_immediate(word)
    } else {
        u64::from(bits(word, 20, 5))
    };
    Some(Instr::OpImm {
        op,
        rd: rd(word),
        rs1: rs1(word),
        imm,
    })
}

fn decode_op_32(word: u32) -> Option<Instr>
    requires { opcode_of word ≡ 0b0111011 }
    ensures { result ≡ instr_of word }
{
    let op = match (funct7(word), funct3(word)) {
        (0b0000000, 0b000) => Alu::Addw,
        (0b0000000, 0b001) => Alu::Sllw,
        (0b0000000, 0b101) => Alu::Srlw,
        (0b0100000, 0b000) => Alu::Subw,
        (0b0100000, 0b101) => Alu::Sraw,
        (0b0000001, 0b000) => Alu::Mulw,
        (0b0000001, 0b100) => Alu::Divw,
        (0b0000001, 0b101) => Alu::Divuw,
        (0b0000001, 0b110) => Alu::Remw,
        (0b0000001, 0b111) => Alu::Remuw,
        _ => return None,
    };
    Some(Instr::Op {
        op,
        rd: rd(word),
        rs1: rs1(word),
        rs2: rs2(word),
    })
}

fn decode_fence(word: u32) -> Option<Instr>
    requires { opcode_of word ≡ 0b0001111 }
    ensures { result ≡ instr_of word }
{
    match funct3(word) {
        0b000 => Some(Instr::Fence),
        0b001 => Some(Instr::FenceI),
        _ => None,
    }
}

fn decode_system(word: u32) -> Option<Instr>
    requires { opcode_of word ≡ 0b1110011 }
    ensures { result ≡ instr_of word }
{
    match word {
        0x00000073 => Some(Instr::Ecall),
        0x00100073 => Some(Instr::Ebreak),
        _ => None,
    }
}

/// The atomic instructions, which bits 31 to 27 distinguish. Bits 26 and 25, which order accesses, are ignored.
fn decode_atomic(word: u32) -> Option<Instr>
    requires { opcode_of word ≡ 0b0101111 }
    ensures { result ≡ instr_of word }
{
    let (op, width) = match (bits(word, 27, 5), funct3(word)) {
        (0b00010, 0b010) => return decode_reserve(word, Width::Word),
        (0b00010, 0b011) => return decode_reserve(word, Width::Double),
        (0b00011, 0b010) => return Some(conditional(word, Width::Word)),
        (0b00011, 0b011) => return Some(conditional(word, Width::Double)),
        (0b00001, 0b010) => (Amo::Swap, Width::Word),
        (0b00001, 0b011) => (Amo::Swap, Width::Double),
        (0b00000, 0b010) => (Amo::Add, Width::Word),
        (0b00000, 0b011) => (Amo::Add, Width::Double),
        (0b00100, 0b010) => (Amo::Xor, Width::Word),
        (0b00100, 0b011) => (Amo::Xor, Width::Double),
        (0b01100, 0b010) => (Amo::And, Width::Word),
        (0b01100, 0b011) => (Amo::And, Width::Double),
        (0b01000, 0b010) => (Amo::Or, Width::Word),
        (0b01000, 0b011) => (Amo::Or, Width::Double),
        (0b10000, 0b010) => (Amo::Min, Width::Word),
        (0b10000, 0b011) => (Amo::Min, Width::Double),
        (0b10100, 0b010) => (Amo::Max, Width::Word),
        (0b10100, 0b011) => (Amo::Max, Width::Double),
        (0b11000, 0b010) => (Amo::Minu, Width::Word),
        (0b11000, 0b011) => (Amo::Minu, Width::Double),
        (0b11100, 0b010) => (Amo::Maxu, Width::Word),
        (0b11100, 0b011) => (Amo::Maxu, Width::Double),
        _ => return None,
    };
    Some(Instr::AtomicOp {
        op,
        width,
        rd: rd(word),
        rs1: rs1(word),
        rs2: rs2(word),
    })
}

/// The load-reserved of a word, whose field of rs2 has to be 0.
fn decode_reserve(word: u32, width: Width) -> Option<Instr>
    ensures { result ≡ (if rs2_of word == 0 then Some (reserve width word) else None) }
{
    if bits(word, 20, 5) == 0 {
        Some(Instr::LoadReserved {
            width,
            rd: rd(word),
            rs1: rs1(word),
        })
    } else {
        None
    }
}

/// The store-conditional of a word.
fn conditional(word: u32, width: Width) -> Instr
    ensures { result ≡ conditional width word }
{
    Instr::StoreConditional {
        width,
        rd: rd(word),
        rs1: rs1(word),
        rs2: rs2(word),
    }
}
