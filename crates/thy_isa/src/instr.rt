//! The instructions, as enums of operations. Names are those of the RISC-V unprivileged ISA manual.
ghost use Rattle.std.specs.Prelude.{ℕ, ◌≡◌, ◌<◌};

use std::marker::Model;

/// The number of an integer register, 0 to 31.
#[derive(Clone, Copy, Debug, PartialEq, Eq)]
pub struct Reg {
    number: u8,
}

impl Model for Reg {
    ghost Value = { ℕ };

    ghost view = { λ r. r.number };

    ghost invariant = { λ r. r.number < 32 };

    ghost inverse = { λ n. record { number = n } };
}

impl Reg {
    /// The register of this number, which is below 32.
    pub fn new(number: u8) -> Reg
        requires { number < 32 }
        ensures { result ≡ number }
    {
        Reg { number }
    }

    /// The number of the register, 0 to 31.
    pub fn number(self) -> u8
        ensures number { result ≡ self }
        ensures range { result < 32 }
    {
        self.number
    }
}

/// How many bytes a load, a store or an atomic instruction moves: 1, 2, 4 or 8. An atomic instruction moves 4 or 8.
#[derive(Clone, Copy, Debug, PartialEq, Eq)]
pub enum Width {
    Byte,
    Half,
    Word,
    Double,
}

/// How a load fills the bits above the bytes that it reads.
#[derive(Clone, Copy, Debug, PartialEq, Eq)]
pub enum Extend {
    /// The bits are copies of the highest bit read.
    Sign,
    /// The bits are zeros.
    Zero,
}

/// What a branch asks of its two operands. The last two compare them as unsigned numbers.
#[derive(Clone, Copy, Debug, PartialEq, Eq)]
pub enum Cond {
    Equal,
    NotEqual,
    Less,
    GreaterEqual,
    LessUnsigned,
    GreaterEqualUnsigned,
}

/// An operation on two numbers of 64 bits. A name that ends in `w` works on the low 32 bits of both
/// and extends its result of 32 bits by its sign.
#[derive(Clone, Copy, Debug, PartialEq, Eq)]
pub enum Alu {
    Add,
    Sub,
    Sll,
    Slt,
    Sltu,
    Xor,
    Srl,
    Sra,
    Or,
    And,
    Mul,
    Mulh,
    Mulhsu,
    Mulhu,
    Div,
    Divu,
    Rem,
    Remu,
    Addw,
    Subw,
    Sllw,
    Srlw,
    Sraw,
    Mulw,
    Divw,
    Divuw,
    Remw,
    Remuw,
}

/// What an atomic memory operation makes of the number in memory and of rs2.
#[derive(Clone, Copy, Debug, PartialEq, Eq)]
pub enum Amo {
    /// The number of rs2, whatever the one in memory is.
    Swap,
    Add,
    Xor,
    And,
    Or,
    /// The smaller one of both, compared as signed numbers.
    Min,
    /// The larger one of both, compared as signed numbers.
    Max,
    /// The smaller one of both, compared as unsigned numbers.
    Minu,
    /// The larger one of both, compared as unsigned numbers.
    Maxu,
}

/// An instruction. Immediates are extended to 64 bits by their sign and held in two's complement; the immediate of a
/// shift is the number of places.
#[derive(Clone, Copy, Debug, PartialEq, Eq)]
pub enum Instr {
    /// LUI: the immediate, whose low twelve bits are 0, into rd.
    Lui {
        rd: Reg,
        imm: u64,
    },
    /// AUIPC: the program counter plus the immediate into rd.
    Auipc {
        rd: Reg,
        imm: u64,
    },
    /// JAL: to the program counter plus the immediate, the address after it into rd.
    Jal {
        rd: Reg,
        imm: u64,
    },
    /// JALR: to rs1 plus the immediate with bit 0 cleared, the address after it into rd.
    Jalr {
        rd: Reg,
        rs1: Reg,
        imm: u64,
    },
    /// BEQ to BGEU: to the program counter plus the immediate if the condition holds.
    Branch {
        cond: Cond,
        rs1: Reg,
        rs2: Reg,
        imm: u64,
    },
    /// LB to LWU: from rs1 plus the immediate into rd.
    Load {
        width: Width,
        extend: Extend,
        rd: Reg,
        rs1: Reg,
        imm: u64,
    },
    /// SB to SD: the low bytes of rs2 to rs1 plus the immediate.
    Store {
        width: Width,
        rs1: Reg,
        rs2: Reg,
        imm: u64,
    },
    /// ADDI to SRAIW: an operation on rs1 and the immediate, into rd.
    OpImm {
        op: Alu,
        rd: Reg,
        rs1: Reg,
        imm: u64,
    },
    /// ADD to REMUW: an operation on rs1 and rs2, into rd.
    Op {
        op: Alu,
        rd: Reg,
        rs1: Reg,
        rs2: Reg,
    },
    /// FENCE: nothing, on a machine whose harts execute one whole instruction after another.
    Fence,
    /// FENCE.I: nothing, on a machine with one unified memory.
    FenceI,
    /// ECALL: an environment call.
    Ecall,
    /// EBREAK: a breakpoint.
    Ebreak,
    /// LR: from the address in rs1 into rd, and the hart reserves these bytes.
    LoadReserved {
        width: Width,
        rd: Reg,
        rs1: Reg,
    },
    /// SC: the low bytes of rs2 to the address in rs1, and 0 into rd, if the hart has reserved these bytes; else 1 into rd.
    StoreConditional {
        width: Width,
        rd: Reg,
        rs1: Reg,
        rs2: Reg,
    },
    /// AMOSWAP to AMOMAXU: from the address in rs1 into rd, and back there what the operation makes of it and of rs2.
    AtomicOp {
        op: Amo,
        width: Width,
        rd: Reg,
        rs1: Reg,
        rs2: Reg,
    },
}
