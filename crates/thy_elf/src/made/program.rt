//! The instructions of a made program, and its words.
ghost use Rattle.std.specs.Prelude.{◌≡◌, ◌<◌, ◌++◌, map, IfOk, OnOk};
ghost use Rattle.std.specs.List.{flat_map};
ghost use Rattle.thy_elf.specs.Encode.{encoded};
ghost use Rattle.thy_elf.specs.MadeProgram.{addi as addi_of, draws, page_of, offset_of, store_of, opening as opening_of, closing as closing_of, made_words};

use crate::made::encode::word;
use std::alloc::{AllocError, Global};
use thy_block::Lcg;
use thy_isa::{Alu, Cond, Instr, Reg, Width};

/// How many words a program has.
const WORDS: usize = 6007;

/// How many stores a round has.
const STORES: usize = 2000;

/// The register that counts a program's stores, which is also what they store.
const COUNT: u8 = 5;

/// The register with the address of the page that is stored to.
const PAGE: u8 = 6;

/// The register with the number of rounds that are left.
const ROUNDS: u8 = 7;

/// The registers with the argument of an exit, and with the number of a call.
const A0: u8 = 10;

const A7: u8 = 17;

/// The number of the call that exits.
const EXIT: u64 = 93;

/// The words of the program of number n, in newly allocated memory.
pub(crate) fn words(alloc: Global, n: u64) -> Result<Vec<u32>, AllocError>
    ensures { IfOk result (λ words. words.items ≡ made_words n) }
{
    let mut words = Vec::with_capacity(alloc, WORDS)?;
    push_all(&mut words, &opening())?;
    push_stores(&mut words, n)?;
    push_all(&mut words, &closing())?;
    Ok(words)
}

/// Adds the words of instructions.
fn push_all(words: &mut Vec<u32>, instrs: &[Instr]) -> Result<(), AllocError>
    ensures { OnOk result (words.new.items ≡ words.old.items ++ map encoded instrs.now) }
{
    for instr in instrs {
        words.push(word(instr))?;
    }
    Ok(())
}

/// Adds the words of the stores, which are drawn from n.
fn push_stores(words: &mut Vec<u32>, n: u64) -> Result<(), AllocError>
    ensures { OnOk result (words.new.items ≡ words.old.items ++ map encoded (flat_map store_of (draws 2000 n))) }
{
    let mut lcg = Lcg::new(n);
    for _store in 0..STORES {
        push_all(words, &store(lcg.next()))?;
    }
    Ok(())
}

/// The instructions before the stores: eight rounds are left.
fn opening() -> [Instr; 1]
    ensures { result ≡ opening_of }
{
    [addi(ROUNDS, 0, 8)]
}

/// The instructions of a draw: the count is stored, and then incremented.
fn store(draw: u64) -> [Instr; 3]
    ensures { result ≡ store_of draw }
{
    [
        Instr::Lui {
            rd: Reg::new(PAGE),
            imm: page(draw) * 4096,
        },
        Instr::Store {
            width: Width::Double,
            rs1: Reg::new(PAGE),
            rs2: Reg::new(COUNT),
            imm: offset(draw),
        },
        addi(COUNT, COUNT, 1),
    ]
}

/// The page that the store of a draw writes: one of 16 that are stored to often, or one of 128.
fn page(draw: u64) -> u64
    ensures { result ≡ page_of draw }
{
    if draw % 2 == 1 {
        64 + draw / 2 % 16
    } else {
        80 + draw / 2 % 128
    }
}

/// The byte of the page at which that store begins.
fn offset(draw: u64) -> u64
    ensures { result ≡ offset_of draw }
{
    8 * (draw / 256 % 256)
}

/// The instructions after the stores: back to the first of them while a round is left; then an exit, with the count.
fn closing() -> [Instr; 6]
    ensures { result ≡ closing_of }
{
    [
        addi(ROUNDS, ROUNDS, 0_u64.wrapping_sub(1)),
        Instr::Branch {
            cond: Cond::Equal,
            rs1: Reg::new(ROUNDS),
            rs2: Reg::new(0),
            imm: 8,
        },
        Instr::Jal {
            rd: Reg::new(0),
            imm: 0_u64.wrapping_sub(24008),
        },
        addi(A0, COUNT, 0),
        addi(A7, 0, EXIT),
        Instr::Ecall,
    ]
}

/// Register rs1 and an immediate are added, into rd.
fn addi(rd: u8, rs1: u8, imm: u64) -> Instr
    requires rd { rd < 32 }
    requires rs1 { rs1 < 32 }
    ensures { result ≡ addi_of rd rs1 imm }
{
    Instr::OpImm {
        op: Alu::Add,
        rd: Reg::new(rd),
        rs1: Reg::new(rs1),
        imm,
    }
}
