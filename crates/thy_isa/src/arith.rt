//! What the operations compute: the integer and multiply instructions of the RISC-V unprivileged ISA.
#![tactic(auto, unfolding(crate::specs::Arith::alu_of))]

ghost use Rattle.std.specs.Prelude.{◌≡◌, ◌+◌, ◌-◌, ◌*◌, ◌/◌, ◌%◌, ◌^◌, ◌<◌, nat_lt, if◌then◌else◌, int_div, int_rem};
ghost use Rattle.std.specs.Int.{w32, w64, cast_signed, cast_unsigned, int_shr};
ghost use Rattle.thy_isa.specs.declared.instr.Alu.TheVariants.{Mulh, Mulhsu, Mulhu, Div, Divu, Rem, Remu, Divw, Divuw, Remw, Remuw};
ghost use Rattle.thy_isa.specs.Arith.{alu_of, sx32, low32};

use crate::instr::Alu;

/// The result, 64 bits, of an arithmetic operation on two numbers of 64 bits: the values of rs1 and rs2, or of rs1 and an immediate.
pub fn alu(op: Alu, a: u64, b: u64) -> u64
    ensures { result ≡ alu_of op a b }
{
    match op {
        Alu::Add => a.wrapping_add(b),
        Alu::Sub => a.wrapping_sub(b),
        Alu::Sll => a << (b & 63),
        Alu::Slt => u64::from(a.cast_signed() < b.cast_signed()),
        Alu::Sltu => u64::from(a < b),
        Alu::Xor => a ^ b,
        Alu::Srl => a >> (b & 63),
        Alu::Sra => (a.cast_signed() >> (b & 63)).cast_unsigned(),
        Alu::Or => a | b,
        Alu::And => a & b,
        Alu::Mul => a.wrapping_mul(b),
        Alu::Mulh => high_signed(a, b),
        Alu::Mulhsu => high_mixed(a, b),
        Alu::Mulhu => high_unsigned(a, b),
        Alu::Div => quotient(a, b),
        Alu::Divu => quotient_unsigned(a, b),
        Alu::Rem => remainder(a, b),
        Alu::Remu => remainder_unsigned(a, b),
        Alu::Addw => sign_extended(low(a.wrapping_add(b))),
        Alu::Subw => sign_extended(low(a.wrapping_sub(b))),
        Alu::Sllw => sign_extended(low(a << (b & 31))),
        Alu::Srlw => sign_extended(low(a) >> (b & 31)),
        Alu::Sraw => i64::from(low(a).cast_signed() >> (b & 31)).cast_unsigned(),
        Alu::Mulw => sign_extended(low(a.wrapping_mul(b))),
        Alu::Divw => quotient_w(a, b),
        Alu::Divuw => quotient_unsigned_w(a, b),
        Alu::Remw => remainder_w(a, b),
        Alu::Remuw => remainder_unsigned_w(a, b),
    }
}

/// The low 32 bits of a number.
fn low(a: u64) -> u32
    ensures { result ≡ low32 a }
{
    (a & 0xffff_ffff) as u32
}

/// A number of 32 bits, extended to 64 by its sign.
fn sign_extended(a: u32) -> u64
    ensures { result ≡ sx32 a }
{
    i64::from(a.cast_signed()).cast_unsigned()
}

/// Bits 127 to 64 of the product of two signed numbers.
fn high_signed(a: u64, b: u64) -> u64
    ensures { result ≡ alu_of Mulh a b }
{
    let product = i128::from(a.cast_signed()) * i128::from(b.cast_signed());
    (product.cast_unsigned() >> 64) as u64
}

/// Bits 127 to 64 of the product of a signed and an unsigned number.
fn high_mixed(a: u64, b: u64) -> u64
    ensures { result ≡ alu_of Mulhsu a b }
{
    let product = i128::from(a.cast_signed()) * i128::from(b);
    (product.cast_unsigned() >> 64) as u64
}

/// Bits 127 to 64 of the product of two unsigned numbers.
fn high_unsigned(a: u64, b: u64) -> u64
    ensures { result ≡ alu_of Mulhu a b }
{
    ((u128::from(a) * u128::from(b)) >> 64) as u64
}

fn quotient(a: u64, b: u64) -> u64
    ensures { result ≡ alu_of Div a b }
{
    if b == 0 {
        u64::MAX
    } else {
        a.cast_signed()
            .wrapping_div(b.cast_signed())
            .cast_unsigned()
    }
}

fn quotient_unsigned(a: u64, b: u64) -> u64
    ensures { result ≡ alu_of Divu a b }
{
    if b == 0 { u64::MAX } else { a / b }
}

fn remainder(a: u64, b: u64) -> u64
    ensures { result ≡ alu_of Rem a b }
{
    if b == 0 {
        a
    } else {
        a.cast_signed()
            .wrapping_rem(b.cast_signed())
            .cast_unsigned()
    }
}

fn remainder_unsigned(a: u64, b: u64) -> u64
    ensures { result ≡ alu_of Remu a b }
{
    if b == 0 { a } else { a % b }
}

fn quotient_w(a: u64, b: u64) -> u64
    ensures { result ≡ alu_of Divw a b }
{
    let (a, b) = (low(a), low(b));
    if b == 0 {
        u64::MAX
    } else {
        sign_extended(divided(a, b))
    }
}

/// The quotient of two signed numbers of 32 bits.
fn divided(a: u32, b: u32) -> u32
    requires { 0 < b }
    ensures { result ≡ cast_unsigned w32 (int_div (cast_signed w32 a) (cast_signed w32 b)) }
{
    a.cast_signed()
        .wrapping_div(b.cast_signed())
        .cast_unsigned()
}

fn quotient_unsigned_w(a: u64, b: u64) -> u64
    ensures { result ≡ alu_of Divuw a b }
{
    let (a, b) = (low(a), low(b));
    if b == 0 {
        u64::MAX
    } else {
        sign_extended(a / b)
    }
}

fn remainder_w(a: u64, b: u64) -> u64
    ensures { result ≡ alu_of Remw a b }
{
    let (a, b) = (low(a), low(b));
    if b == 0 {
        sign_extended(a)
    } else {
        sign_extended(left_over(a, b))
    }
}

/// The remainder of two signed numbers of 32 bits.
fn left_over(a: u32, b: u32) -> u32
    requires { 0 < b }
    ensures { result ≡ cast_unsigned w32 (int_rem (cast_signed w32 a) (cast_signed w32 b)) }
{
    a.cast_signed()
        .wrapping_rem(b.cast_signed())
        .cast_unsigned()
}

fn remainder_unsigned_w(a: u64, b: u64) -> u64
    ensures { result ≡ alu_of Remuw a b }
{
    let (a, b) = (low(a), low(b));
    if b == 0 {
        sign_extended(a)
    } else {
        sign_extended(a % b)
    }
}
