//! What an assembler and an emulator make of instructions: the output of `tools/instructions`, whose help page
//! says what each table is.

/// The least number of 64 bits with a sign, and the greatest without.
const MIN: u64 = 1 << 63;

const MAX: u64 = u64::MAX;

/// Environment calls that end the program.
pub(crate) const EXITS: [(u32, u64, u64, u64); 3] = [
    (0x00000073, 0x5d, 0x7, 0x7),
    (0x00000073, 0x5d, 0x1ff, 0xff),
    (0x00000073, 0x5d, MAX - 1, 0xfe),
];

/// Environment calls by a number that names none.
pub(crate) const ANSWERS: [(u32, u64, u64, u64); 2] = [
    (0x00000073, 0x3e8, 0x5, MAX - 37),
    (0x00000073, MAX, 0x0, MAX - 37),
];

/// Breakpoints.
pub(crate) const BREAKS: [u32; 1] = [0x00100073];

/// What is loaded from.
pub(crate) const MEMORY: [u8; 16] = [
    0x91, 0x12, 0x93, 0x14, 0x95, 0x16, 0x97, 0x18, 0x99, 0x1a, 0x9b, 0x1c, 0x9d, 0x1e, 0x9f, 0x20,
];

/// Loads at every offset around a block's end.
pub(crate) const LOADS: [(u32, u64, u64); 63] = [
    (0x00028383, 0x0, 0xffffffffffffff91), // lb x7, 0(x5)
    (0x00028383, 0x1, 0x12), // lb x7, 0(x5)
    (0x00028383, 0x2, 0xffffffffffffff93), // lb x7, 0(x5)
    (0x00028383, 0x3, 0x14), // lb x7, 0(x5)
    (0x00028383, 0x4, 0xffffffffffffff95), // lb x7, 0(x5)
    (0x00028383, 0x5, 0x16), // lb x7, 0(x5)
    (0x00028383, 0x6, 0xffffffffffffff97), // lb x7, 0(x5)
    (0x00028383, 0x7, 0x18), // lb x7, 0(x5)
    (0x00028383, 0x8, 0xffffffffffffff99), // lb x7, 0(x5)
    (0x00029383, 0x0, 0x1291), // lh x7, 0(x5)
    (0x00029383, 0x1, 0xffffffffffff9312), // lh x7, 0(x5)
    (0x00029383, 0x2, 0x1493), // lh x7, 0(x5)
    (0x00029383, 0x3, 0xffffffffffff9514), // lh x7, 0(x5)
    (0x00029383, 0x4, 0x1695), // lh x7, 0(x5)
    (0x00029383, 0x5, 0xffffffffffff9716), // lh x7, 0(x5)
    (0x00029383, 0x6, 0x1897), // lh x7, 0(x5)
    (0x00029383, 0x7, 0xffffffffffff9918), // lh x7, 0(x5)
    (0x00029383, 0x8, 0x1a99), // lh x7, 0(x5)
    (0x0002a383, 0x0, 0x14931291), // lw x7, 0(x5)
    (0x0002a383, 0x1, 0xffffffff95149312), // lw x7, 0(x5)
    (0x0002a383, 0x2, 0x16951493), // lw x7, 0(x5)
    (0x0002a383, 0x3, 0xffffffff97169514), // lw x7, 0(x5)
    (0x0002a383, 0x4, 0x18971695), // lw x7, 0(x5)
    (0x0002a383, 0x5, 0xffffffff99189716), // lw x7, 0(x5)
    (0x0002a383, 0x6, 0x1a991897), // lw x7, 0(x5)
    (0x0002a383, 0x7, 0xffffffff9b1a9918), // lw x7, 0(x5)
    (0x0002a383, 0x8, 0x1c9b1a99), // lw x7, 0(x5)
    (0x0002b383, 0x0, 0x1897169514931291), // ld x7, 0(x5)
    (0x0002b383, 0x1, 0x9918971695149312), // ld x7, 0(x5)
    (0x0002b383, 0x2, 0x1a99189716951493), // ld x7, 0(x5)
    (0x0002b383, 0x3, 0x9b1a991897169514), // ld x7, 0(x5)
    (0x0002b383, 0x4, 0x1c9b1a9918971695), // ld x7, 0(x5)
    (0x0002b383, 0x5, 0x9d1c9b1a99189716), // ld x7, 0(x5)
    (0x0002b383, 0x6, 0x1e9d1c9b1a991897), // ld x7, 0(x5)
    (0x0002b383, 0x7, 0x9f1e9d1c9b1a9918), // ld x7, 0(x5)
    (0x0002b383, 0x8, 0x209f1e9d1c9b1a99), // ld x7, 0(x5)
    (0x0002c383, 0x0, 0x91), // lbu x7, 0(x5)
    (0x0002c383, 0x1, 0x12), // lbu x7, 0(x5)
    (0x0002c383, 0x2, 0x93), // lbu x7, 0(x5)
    (0x0002c383, 0x3, 0x14), // lbu x7, 0(x5)
    (0x0002c383, 0x4, 0x95), // lbu x7, 0(x5)
    (0x0002c383, 0x5, 0x16), // lbu x7, 0(x5)
    (0x0002c383, 0x6, 0x97), // lbu x7, 0(x5)
    (0x0002c383, 0x7, 0x18), // lbu x7, 0(x5)
    (0x0002c383, 0x8, 0x99), // lbu x7, 0(x5)
    (0x0002d383, 0x0, 0x1291), // lhu x7, 0(x5)
    (0x0002d383, 0x1, 0x9312), // lhu x7, 0(x5)
    (0x0002d383, 0x2, 0x1493), // lhu x7, 0(x5)
    (0x0002d383, 0x3, 0x9514), // lhu x7, 0(x5)
    (0x0002d383, 0x4, 0x1695), // lhu x7, 0(x5)
    (0x0002d383, 0x5, 0x9716), // lhu x7, 0(x5)
    (0x0002d383, 0x6, 0x1897), // lhu x7, 0(x5)
    (0x0002d383, 0x7, 0x9918), // lhu x7, 0(x5)
    (0x0002d383, 0x8, 0x1a99), // lhu x7, 0(x5)
    (0x0002e383, 0x0, 0x14931291), // lwu x7, 0(x5)
    (0x0002e383, 0x1, 0x95149312), // lwu x7, 0(x5)
    (0x0002e383, 0x2, 0x16951493), // lwu x7, 0(x5)
    (0x0002e383, 0x3, 0x97169514), // lwu x7, 0(x5)
    (0x0002e383, 0x4, 0x18971695), // lwu x7, 0(x5)
    (0x0002e383, 0x5, 0x99189716), // lwu x7, 0(x5)
    (0x0002e383, 0x6, 0x1a991897), // lwu x7, 0(x5)
    (0x0002e383, 0x7, 0x9b1a9918), // lwu x7, 0(x5)
    (0x0002e383, 0x8, 0x1c9b1a99), // lwu x7, 0(x5)
];

/// What is stored.
pub(crate) const SOURCE: u64 = 0x8172635445362718;

/// Stores at every offset around a block's end.
pub(crate) const STORES: [(u32, u64, u64, u64); 36] = [
    (0x00628023, 0x0, 0xaaaaaaaaaaaaaa18, 0xaaaaaaaaaaaaaaaa), // sb x6, 0(x5)
    (0x00628023, 0x1, 0xaaaaaaaaaaaa18aa, 0xaaaaaaaaaaaaaaaa), // sb x6, 0(x5)
    (0x00628023, 0x2, 0xaaaaaaaaaa18aaaa, 0xaaaaaaaaaaaaaaaa), // sb x6, 0(x5)
    (0x00628023, 0x3, 0xaaaaaaaa18aaaaaa, 0xaaaaaaaaaaaaaaaa), // sb x6, 0(x5)
    (0x00628023, 0x4, 0xaaaaaa18aaaaaaaa, 0xaaaaaaaaaaaaaaaa), // sb x6, 0(x5)
    (0x00628023, 0x5, 0xaaaa18aaaaaaaaaa, 0xaaaaaaaaaaaaaaaa), // sb x6, 0(x5)
    (0x00628023, 0x6, 0xaa18aaaaaaaaaaaa, 0xaaaaaaaaaaaaaaaa), // sb x6, 0(x5)
    (0x00628023, 0x7, 0x18aaaaaaaaaaaaaa, 0xaaaaaaaaaaaaaaaa), // sb x6, 0(x5)
    (0x00628023, 0x8, 0xaaaaaaaaaaaaaaaa, 0xaaaaaaaaaaaaaa18), // sb x6, 0(x5)
    (0x00629023, 0x0, 0xaaaaaaaaaaaa2718, 0xaaaaaaaaaaaaaaaa), // sh x6, 0(x5)
    (0x00629023, 0x1, 0xaaaaaaaaaa2718aa, 0xaaaaaaaaaaaaaaaa), // sh x6, 0(x5)
    (0x00629023, 0x2, 0xaaaaaaaa2718aaaa, 0xaaaaaaaaaaaaaaaa), // sh x6, 0(x5)
    (0x00629023, 0x3, 0xaaaaaa2718aaaaaa, 0xaaaaaaaaaaaaaaaa), // sh x6, 0(x5)
    (0x00629023, 0x4, 0xaaaa2718aaaaaaaa, 0xaaaaaaaaaaaaaaaa), // sh x6, 0(x5)
    (0x00629023, 0x5, 0xaa2718aaaaaaaaaa, 0xaaaaaaaaaaaaaaaa), // sh x6, 0(x5)
    (0x00629023, 0x6, 0x2718aaaaaaaaaaaa, 0xaaaaaaaaaaaaaaaa), // sh x6, 0(x5)
    (0x00629023, 0x7, 0x18aaaaaaaaaaaaaa, 0xaaaaaaaaaaaaaa27), // sh x6, 0(x5)
    (0x00629023, 0x8, 0xaaaaaaaaaaaaaaaa, 0xaaaaaaaaaaaa2718), // sh x6, 0(x5)
    (0x0062a023, 0x0, 0xaaaaaaaa45362718, 0xaaaaaaaaaaaaaaaa), // sw x6, 0(x5)
    (0x0062a023, 0x1, 0xaaaaaa45362718aa, 0xaaaaaaaaaaaaaaaa), // sw x6, 0(x5)
    (0x0062a023, 0x2, 0xaaaa45362718aaaa, 0xaaaaaaaaaaaaaaaa), // sw x6, 0(x5)
    (0x0062a023, 0x3, 0xaa45362718aaaaaa, 0xaaaaaaaaaaaaaaaa), // sw x6, 0(x5)
    (0x0062a023, 0x4, 0x45362718aaaaaaaa, 0xaaaaaaaaaaaaaaaa), // sw x6, 0(x5)
    (0x0062a023, 0x5, 0x362718aaaaaaaaaa, 0xaaaaaaaaaaaaaa45), // sw x6, 0(x5)
    (0x0062a023, 0x6, 0x2718aaaaaaaaaaaa, 0xaaaaaaaaaaaa4536), // sw x6, 0(x5)
    (0x0062a023, 0x7, 0x18aaaaaaaaaaaaaa, 0xaaaaaaaaaa453627), // sw x6, 0(x5)
    (0x0062a023, 0x8, 0xaaaaaaaaaaaaaaaa, 0xaaaaaaaa45362718), // sw x6, 0(x5)
    (0x0062b023, 0x0, 0x8172635445362718, 0xaaaaaaaaaaaaaaaa), // sd x6, 0(x5)
    (0x0062b023, 0x1, 0x72635445362718aa, 0xaaaaaaaaaaaaaa81), // sd x6, 0(x5)
    (0x0062b023, 0x2, 0x635445362718aaaa, 0xaaaaaaaaaaaa8172), // sd x6, 0(x5)
    (0x0062b023, 0x3, 0x5445362718aaaaaa, 0xaaaaaaaaaa817263), // sd x6, 0(x5)
    (0x0062b023, 0x4, 0x45362718aaaaaaaa, 0xaaaaaaaa81726354), // sd x6, 0(x5)
    (0x0062b023, 0x5, 0x362718aaaaaaaaaa, 0xaaaaaa8172635445), // sd x6, 0(x5)
    (0x0062b023, 0x6, 0x2718aaaaaaaaaaaa, 0xaaaa817263544536), // sd x6, 0(x5)
    (0x0062b023, 0x7, 0x18aaaaaaaaaaaaaa, 0xaa81726354453627), // sd x6, 0(x5)
    (0x0062b023, 0x8, 0xaaaaaaaaaaaaaaaa, 0x8172635445362718), // sd x6, 0(x5)
];

/// The instructions that are in no other table.
pub(crate) const VECTORS: [(u32, u64, u64, u64); 148] = [
    (0x006283b3, 0x5, 0x3, 0x8), // add x7, x5, x6
    (0x006283b3, MIN + 6, MAX - 4, MIN + 1), // add x7, x5, x6
    (0x006283b3, 0x80000000, MAX - 30, 0x7fffffe1), // add x7, x5, x6
    (0x406283b3, 0x5, 0x3, 0x2), // sub x7, x5, x6
    (0x406283b3, MIN + 6, MAX - 4, MIN + 11), // sub x7, x5, x6
    (0x406283b3, 0x80000000, MAX - 30, 0x8000001f), // sub x7, x5, x6
    (0x006293b3, 0x5, 0x3, 0x28), // sll x7, x5, x6
    (0x006293b3, MIN + 6, MAX - 4, 0x3000000000000000), // sll x7, x5, x6
    (0x006293b3, 0x80000000, MAX - 30, 0x0), // sll x7, x5, x6
    (0x0062a3b3, 0x5, 0x3, 0x0), // slt x7, x5, x6
    (0x0062a3b3, MIN + 6, MAX - 4, 0x1), // slt x7, x5, x6
    (0x0062a3b3, 0x80000000, MAX - 30, 0x0), // slt x7, x5, x6
    (0x0062b3b3, 0x5, 0x3, 0x0), // sltu x7, x5, x6
    (0x0062b3b3, MIN + 6, MAX - 4, 0x1), // sltu x7, x5, x6
    (0x0062b3b3, 0x80000000, MAX - 30, 0x1), // sltu x7, x5, x6
    (0x0062c3b3, 0x5, 0x3, 0x6), // xor x7, x5, x6
    (0x0062c3b3, MIN + 6, MAX - 4, 0x7ffffffffffffffd), // xor x7, x5, x6
    (0x0062c3b3, 0x80000000, MAX - 30, 0xffffffff7fffffe1), // xor x7, x5, x6
    (0x0062d3b3, 0x5, 0x3, 0x0), // srl x7, x5, x6
    (0x0062d3b3, MIN + 6, MAX - 4, 0x10), // srl x7, x5, x6
    (0x0062d3b3, 0x80000000, MAX - 30, 0x0), // srl x7, x5, x6
    (0x4062d3b3, 0x5, 0x3, 0x0), // sra x7, x5, x6
    (0x4062d3b3, MIN + 6, MAX - 4, MAX - 15), // sra x7, x5, x6
    (0x4062d3b3, 0x80000000, MAX - 30, 0x0), // sra x7, x5, x6
    (0x0062e3b3, 0x5, 0x3, 0x7), // or x7, x5, x6
    (0x0062e3b3, MIN + 6, MAX - 4, MAX), // or x7, x5, x6
    (0x0062e3b3, 0x80000000, MAX - 30, MAX - 30), // or x7, x5, x6
    (0x0062f3b3, 0x5, 0x3, 0x1), // and x7, x5, x6
    (0x0062f3b3, MIN + 6, MAX - 4, MIN + 2), // and x7, x5, x6
    (0x0062f3b3, 0x80000000, MAX - 30, 0x80000000), // and x7, x5, x6
    (0x026283b3, 0x5, 0x3, 0xf), // mul x7, x5, x6
    (0x026283b3, MIN + 6, MAX - 4, 0x7fffffffffffffe2), // mul x7, x5, x6
    (0x026283b3, 0x80000000, MAX - 30, 0xfffffff080000000), // mul x7, x5, x6
    (0x026293b3, 0x5, 0x3, 0x0), // mulh x7, x5, x6
    (0x026293b3, MIN + 6, MAX - 4, 0x2), // mulh x7, x5, x6
    (0x026293b3, 0x80000000, MAX - 30, MAX), // mulh x7, x5, x6
    (0x0262a3b3, 0x5, 0x3, 0x0), // mulhsu x7, x5, x6
    (0x0262a3b3, MIN + 6, MAX - 4, MIN + 8), // mulhsu x7, x5, x6
    (0x0262a3b3, 0x80000000, MAX - 30, 0x7fffffff), // mulhsu x7, x5, x6
    (0x0262b3b3, 0x5, 0x3, 0x0), // mulhu x7, x5, x6
    (0x0262b3b3, MIN + 6, MAX - 4, MIN + 3), // mulhu x7, x5, x6
    (0x0262b3b3, 0x80000000, MAX - 30, 0x7fffffff), // mulhu x7, x5, x6
    (0x006283bb, 0x5, 0x3, 0x8), // addw x7, x5, x6
    (0x006283bb, MIN + 6, MAX - 4, 0x1), // addw x7, x5, x6
    (0x006283bb, 0x80000000, MAX - 30, 0x7fffffe1), // addw x7, x5, x6
    (0x406283bb, 0x5, 0x3, 0x2), // subw x7, x5, x6
    (0x406283bb, MIN + 6, MAX - 4, 0xb), // subw x7, x5, x6
    (0x406283bb, 0x80000000, MAX - 30, 0xffffffff8000001f), // subw x7, x5, x6
    (0x006293bb, 0x5, 0x3, 0x28), // sllw x7, x5, x6
    (0x006293bb, MIN + 6, MAX - 4, 0x30000000), // sllw x7, x5, x6
    (0x006293bb, 0x80000000, MAX - 30, 0x0), // sllw x7, x5, x6
    (0x0062d3bb, 0x5, 0x3, 0x0), // srlw x7, x5, x6
    (0x0062d3bb, MIN + 6, MAX - 4, 0x0), // srlw x7, x5, x6
    (0x0062d3bb, 0x80000000, MAX - 30, 0x40000000), // srlw x7, x5, x6
    (0x4062d3bb, 0x5, 0x3, 0x0), // sraw x7, x5, x6
    (0x4062d3bb, MIN + 6, MAX - 4, 0x0), // sraw x7, x5, x6
    (0x4062d3bb, 0x80000000, MAX - 30, 0xffffffffc0000000), // sraw x7, x5, x6
    (0x026283bb, 0x5, 0x3, 0xf), // mulw x7, x5, x6
    (0x026283bb, MIN + 6, MAX - 4, MAX - 29), // mulw x7, x5, x6
    (0x026283bb, 0x80000000, MAX - 30, 0xffffffff80000000), // mulw x7, x5, x6
    (0x0262c3b3, 0x7, 0x0, MAX), // div x7, x5, x6
    (0x0262c3b3, MIN, MAX, MIN), // div x7, x5, x6
    (0x0262c3b3, MAX - 6, 0x3, MAX - 1), // div x7, x5, x6
    (0x0262d3b3, 0x7, 0x0, MAX), // divu x7, x5, x6
    (0x0262d3b3, MIN, MAX, 0x0), // divu x7, x5, x6
    (0x0262d3b3, MAX - 6, 0x3, 0x5555555555555553), // divu x7, x5, x6
    (0x0262e3b3, 0x7, 0x0, 0x7), // rem x7, x5, x6
    (0x0262e3b3, MIN, MAX, 0x0), // rem x7, x5, x6
    (0x0262e3b3, MAX - 6, 0x3, MAX), // rem x7, x5, x6
    (0x0262f3b3, 0x7, 0x0, 0x7), // remu x7, x5, x6
    (0x0262f3b3, MIN, MAX, MIN), // remu x7, x5, x6
    (0x0262f3b3, MAX - 6, 0x3, 0x0), // remu x7, x5, x6
    (0x0262c3bb, 0x180000007, 0x100000000, MAX), // divw x7, x5, x6
    (0x0262c3bb, 0x80000000, MAX, 0xffffffff80000000), // divw x7, x5, x6
    (0x0262c3bb, 0x12345678fffffff9, 0x2, MAX - 2), // divw x7, x5, x6
    (0x0262d3bb, 0x180000007, 0x100000000, MAX), // divuw x7, x5, x6
    (0x0262d3bb, 0x80000000, MAX, 0x0), // divuw x7, x5, x6
    (0x0262d3bb, 0x12345678fffffff9, 0x2, 0x7ffffffc), // divuw x7, x5, x6
    (0x0262e3bb, 0x180000007, 0x100000000, 0xffffffff80000007), // remw x7, x5, x6
    (0x0262e3bb, 0x80000000, MAX, 0x0), // remw x7, x5, x6
    (0x0262e3bb, 0x12345678fffffff9, 0x2, MAX), // remw x7, x5, x6
    (0x0262f3bb, 0x180000007, 0x100000000, 0xffffffff80000007), // remuw x7, x5, x6
    (0x0262f3bb, 0x80000000, MAX, 0xffffffff80000000), // remuw x7, x5, x6
    (0x0262f3bb, 0x12345678fffffff9, 0x2, 0x1), // remuw x7, x5, x6
    (0x80028393, MIN + 1, 0x0, 0x7ffffffffffff801), // addi x7, x5, -2048
    (0x7ff28393, MAX, 0x0, 0x7fe), // addi x7, x5, 2047
    (0x8002a393, MIN + 1, 0x0, 0x1), // slti x7, x5, -2048
    (0x7ff2a393, MAX, 0x0, 0x1), // slti x7, x5, 2047
    (0x8002b393, MIN + 1, 0x0, 0x1), // sltiu x7, x5, -2048
    (0x7ff2b393, MAX, 0x0, 0x0), // sltiu x7, x5, 2047
    (0x8002c393, MIN + 1, 0x0, 0x7ffffffffffff801), // xori x7, x5, -2048
    (0x7ff2c393, MAX, 0x0, 0xfffffffffffff800), // xori x7, x5, 2047
    (0x8002e393, MIN + 1, 0x0, 0xfffffffffffff801), // ori x7, x5, -2048
    (0x7ff2e393, MAX, 0x0, MAX), // ori x7, x5, 2047
    (0x8002f393, MIN + 1, 0x0, MIN), // andi x7, x5, -2048
    (0x7ff2f393, MAX, 0x0, 0x7ff), // andi x7, x5, 2047
    (0x8002839b, MIN + 1, 0x0, 0xfffffffffffff801), // addiw x7, x5, -2048
    (0x7ff2839b, MAX, 0x0, 0x7fe), // addiw x7, x5, 2047
    (0x00129393, 0x8000000000000123, 0x0, 0x246), // slli x7, x5, 1
    (0x03f29393, 0x8000000000000123, 0x0, MIN), // slli x7, x5, 63
    (0x0012d393, 0x8000000000000123, 0x0, 0x4000000000000091), // srli x7, x5, 1
    (0x03f2d393, 0x8000000000000123, 0x0, 0x1), // srli x7, x5, 63
    (0x4012d393, 0x8000000000000123, 0x0, 0xc000000000000091), // srai x7, x5, 1
    (0x43f2d393, 0x8000000000000123, 0x0, MAX), // srai x7, x5, 63
    (0x0012939b, 0x5581234567, 0x0, 0x2468ace), // slliw x7, x5, 1
    (0x01f2939b, 0x5581234567, 0x0, 0xffffffff80000000), // slliw x7, x5, 31
    (0x0012d39b, 0x5581234567, 0x0, 0x4091a2b3), // srliw x7, x5, 1
    (0x01f2d39b, 0x5581234567, 0x0, 0x1), // srliw x7, x5, 31
    (0x4012d39b, 0x5581234567, 0x0, 0xffffffffc091a2b3), // sraiw x7, x5, 1
    (0x41f2d39b, 0x5581234567, 0x0, MAX), // sraiw x7, x5, 31
    (0xfffff3b7, 0x0, 0x0, 0xfffffffffffff000), // lui x7, 0xfffff
    (0x7ffff3b7, 0x0, 0x0, 0x7ffff000), // lui x7, 0x7ffff
    (0x000f8fb3, 0x9, 0x1, 0x9), // add x31, x31, x0
    (0x006f8033, 0x9, 0x1, 0x0), // add x0, x31, x6
    (0x80628063, MAX, 0x1, 0x10004), // beq x5, x6, .-4096
    (0x7e628ee3, 0x1, MAX, 0x10004), // beq x5, x6, .+4092
    (0x006280e3, 0x3, 0x3, 0x10800), // beq x5, x6, .+2048
    (0x80629063, MAX, 0x1, 0xf000), // bne x5, x6, .-4096
    (0x7e629ee3, 0x1, MAX, 0x10ffc), // bne x5, x6, .+4092
    (0x006290e3, 0x3, 0x3, 0x10004), // bne x5, x6, .+2048
    (0x8062c063, MAX, 0x1, 0xf000), // blt x5, x6, .-4096
    (0x7e62cee3, 0x1, MAX, 0x10004), // blt x5, x6, .+4092
    (0x0062c0e3, 0x3, 0x3, 0x10004), // blt x5, x6, .+2048
    (0x8062d063, MAX, 0x1, 0x10004), // bge x5, x6, .-4096
    (0x7e62dee3, 0x1, MAX, 0x10ffc), // bge x5, x6, .+4092
    (0x0062d0e3, 0x3, 0x3, 0x10800), // bge x5, x6, .+2048
    (0x8062e063, MAX, 0x1, 0x10004), // bltu x5, x6, .-4096
    (0x7e62eee3, 0x1, MAX, 0x10ffc), // bltu x5, x6, .+4092
    (0x0062e0e3, 0x3, 0x3, 0x10004), // bltu x5, x6, .+2048
    (0x8062f063, MAX, 0x1, 0xf000), // bgeu x5, x6, .-4096
    (0x7e62fee3, 0x1, MAX, 0x10004), // bgeu x5, x6, .+4092
    (0x0062f0e3, 0x3, 0x3, 0x10800), // bgeu x5, x6, .+2048
    (0xfffff397, 0x0, 0x0, 0xf000), // auipc x7, 0xfffff
    (0x12345397, 0x0, 0x0, 0x12355000), // auipc x7, 0x12345
    (0x800283e7, 0x11000, 0x0, 0x10800), // jalr x7, -2048(x5)
    (0x800283e7, 0x11001, 0x0, 0x10800), // jalr x7, -2048(x5)
    (0x7fc283e7, 0x11000, 0x0, 0x117fc), // jalr x7, 2044(x5)
    (0x7fc283e7, 0x11001, 0x0, 0x117fc), // jalr x7, 2044(x5)
    (0x000283e7, 0x10004, 0x0, 0x10004), // jalr x7, 0(x5)
    (0x000282e7, 0x10004, 0x0, 0x10004), // jalr x5, 0(x5)
    (0xffd283e7, 0x10007, 0x0, 0x10004), // jalr x7, -3(x5)
    (0x0ff0000f, 0x0, 0x0, 0x10004), // fence
    (0x0310000f, 0x0, 0x0, 0x10004), // fence rw, w
    (0x8330000f, 0x0, 0x0, 0x10004), // fence.tso
    (0x0000100f, 0x0, 0x0, 0x10004), // fence.i
    (0x800003ef, 0x0, 0x0, 0xfffffffffff10000), // jal x7, .-1048576
    (0x7fdff3ef, 0x0, 0x0, 0x10fffc), // jal x7, .+1048572
    (0x001003ef, 0x0, 0x0, 0x10800), // jal x7, .+2048
];

/// The atomic instructions.
pub(crate) const ATOMICS: [(u32, u64, u64, u64, u64); 91] = [
    (0x1002a3af, MIN, 0x1, 0x0, MIN), // lr.w x7, (x5)
    (0x1862a3af, MIN, 0x1, 0x0, MIN + 1), // sc.w x7, x6, (x5)
    (0x1402a3af, MIN - 1, MAX, MAX, MIN - 1), // lr.w.aq x7, (x5)
    (0x1c62a3af, MIN - 1, MAX, 0x0, MIN - 1), // sc.w.aq x7, x6, (x5)
    (0x1202a3af, 0x80000000, 0x3, 0xffffffff80000000, 0x80000000), // lr.w.rl x7, (x5)
    (0x1a62a3af, 0x80000000, 0x3, 0x0, 0x3), // sc.w.rl x7, x6, (x5)
    (0x1602a3af, 0xffffffff, 0x100000001, MAX, 0xffffffff), // lr.w.aqrl x7, (x5)
    (0x1e62a3af, 0xffffffff, 0x100000001, 0x0, 0x1), // sc.w.aqrl x7, x6, (x5)
    (0x0862a3af, MIN, 0x1, 0x0, MIN + 1), // amoswap.w x7, x6, (x5)
    (0x0c62a3af, MIN - 1, MAX, MAX, MIN - 1), // amoswap.w.aq x7, x6, (x5)
    (0x0a62a3af, 0x80000000, 0x3, 0xffffffff80000000, 0x3), // amoswap.w.rl x7, x6, (x5)
    (0x0e62a3af, 0xffffffff, 0x100000001, MAX, 0x1), // amoswap.w.aqrl x7, x6, (x5)
    (0x0062a3af, MIN, 0x1, 0x0, MIN + 1), // amoadd.w x7, x6, (x5)
    (0x0462a3af, MIN - 1, MAX, MAX, MIN - 2), // amoadd.w.aq x7, x6, (x5)
    (0x0262a3af, 0x80000000, 0x3, 0xffffffff80000000, 0x80000003), // amoadd.w.rl x7, x6, (x5)
    (0x0662a3af, 0xffffffff, 0x100000001, MAX, 0x0), // amoadd.w.aqrl x7, x6, (x5)
    (0x2062a3af, MIN, 0x1, 0x0, MIN + 1), // amoxor.w x7, x6, (x5)
    (0x2462a3af, MIN - 1, MAX, MAX, 0x7fffffff00000000), // amoxor.w.aq x7, x6, (x5)
    (0x2262a3af, 0x80000000, 0x3, 0xffffffff80000000, 0x80000003), // amoxor.w.rl x7, x6, (x5)
    (0x2662a3af, 0xffffffff, 0x100000001, MAX, 0xfffffffe), // amoxor.w.aqrl x7, x6, (x5)
    (0x6062a3af, MIN, 0x1, 0x0, MIN), // amoand.w x7, x6, (x5)
    (0x6462a3af, MIN - 1, MAX, MAX, MIN - 1), // amoand.w.aq x7, x6, (x5)
    (0x6262a3af, 0x80000000, 0x3, 0xffffffff80000000, 0x0), // amoand.w.rl x7, x6, (x5)
    (0x6662a3af, 0xffffffff, 0x100000001, MAX, 0x1), // amoand.w.aqrl x7, x6, (x5)
    (0x4062a3af, MIN, 0x1, 0x0, MIN + 1), // amoor.w x7, x6, (x5)
    (0x4462a3af, MIN - 1, MAX, MAX, MIN - 1), // amoor.w.aq x7, x6, (x5)
    (0x4262a3af, 0x80000000, 0x3, 0xffffffff80000000, 0x80000003), // amoor.w.rl x7, x6, (x5)
    (0x4662a3af, 0xffffffff, 0x100000001, MAX, 0xffffffff), // amoor.w.aqrl x7, x6, (x5)
    (0x8062a3af, MIN, 0x1, 0x0, MIN), // amomin.w x7, x6, (x5)
    (0x8462a3af, MIN - 1, MAX, MAX, MIN - 1), // amomin.w.aq x7, x6, (x5)
    (0x8262a3af, 0x80000000, 0x3, 0xffffffff80000000, 0x80000000), // amomin.w.rl x7, x6, (x5)
    (0x8662a3af, 0xffffffff, 0x100000001, MAX, 0xffffffff), // amomin.w.aqrl x7, x6, (x5)
    (0xa062a3af, MIN, 0x1, 0x0, MIN + 1), // amomax.w x7, x6, (x5)
    (0xa462a3af, MIN - 1, MAX, MAX, MIN - 1), // amomax.w.aq x7, x6, (x5)
    (0xa262a3af, 0x80000000, 0x3, 0xffffffff80000000, 0x3), // amomax.w.rl x7, x6, (x5)
    (0xa662a3af, 0xffffffff, 0x100000001, MAX, 0x1), // amomax.w.aqrl x7, x6, (x5)
    (0xc062a3af, MIN, 0x1, 0x0, MIN), // amominu.w x7, x6, (x5)
    (0xc462a3af, MIN - 1, MAX, MAX, MIN - 1), // amominu.w.aq x7, x6, (x5)
    (0xc262a3af, 0x80000000, 0x3, 0xffffffff80000000, 0x3), // amominu.w.rl x7, x6, (x5)
    (0xc662a3af, 0xffffffff, 0x100000001, MAX, 0x1), // amominu.w.aqrl x7, x6, (x5)
    (0xe062a3af, MIN, 0x1, 0x0, MIN + 1), // amomaxu.w x7, x6, (x5)
    (0xe462a3af, MIN - 1, MAX, MAX, MIN - 1), // amomaxu.w.aq x7, x6, (x5)
    (0xe262a3af, 0x80000000, 0x3, 0xffffffff80000000, 0x80000000), // amomaxu.w.rl x7, x6, (x5)
    (0xe662a3af, 0xffffffff, 0x100000001, MAX, 0xffffffff), // amomaxu.w.aqrl x7, x6, (x5)
    (0x1002b3af, MIN, 0x1, MIN, MIN), // lr.d x7, (x5)
    (0x1862b3af, MIN, 0x1, 0x0, 0x1), // sc.d x7, x6, (x5)
    (0x1402b3af, MIN - 1, MAX, MIN - 1, MIN - 1), // lr.d.aq x7, (x5)
    (0x1c62b3af, MIN - 1, MAX, 0x0, MAX), // sc.d.aq x7, x6, (x5)
    (0x1202b3af, 0x80000000, 0x3, 0x80000000, 0x80000000), // lr.d.rl x7, (x5)
    (0x1a62b3af, 0x80000000, 0x3, 0x0, 0x3), // sc.d.rl x7, x6, (x5)
    (0x1602b3af, 0xffffffff, 0x100000001, 0xffffffff, 0xffffffff), // lr.d.aqrl x7, (x5)
    (0x1e62b3af, 0xffffffff, 0x100000001, 0x0, 0x100000001), // sc.d.aqrl x7, x6, (x5)
    (0x0862b3af, MIN, 0x1, MIN, 0x1), // amoswap.d x7, x6, (x5)
    (0x0c62b3af, MIN - 1, MAX, MIN - 1, MAX), // amoswap.d.aq x7, x6, (x5)
    (0x0a62b3af, 0x80000000, 0x3, 0x80000000, 0x3), // amoswap.d.rl x7, x6, (x5)
    (0x0e62b3af, 0xffffffff, 0x100000001, 0xffffffff, 0x100000001), // amoswap.d.aqrl x7, x6, (x5)
    (0x0062b3af, MIN, 0x1, MIN, MIN + 1), // amoadd.d x7, x6, (x5)
    (0x0462b3af, MIN - 1, MAX, MIN - 1, MIN - 2), // amoadd.d.aq x7, x6, (x5)
    (0x0262b3af, 0x80000000, 0x3, 0x80000000, 0x80000003), // amoadd.d.rl x7, x6, (x5)
    (0x0662b3af, 0xffffffff, 0x100000001, 0xffffffff, 0x200000000), // amoadd.d.aqrl x7, x6, (x5)
    (0x2062b3af, MIN, 0x1, MIN, MIN + 1), // amoxor.d x7, x6, (x5)
    (0x2462b3af, MIN - 1, MAX, MIN - 1, MIN), // amoxor.d.aq x7, x6, (x5)
    (0x2262b3af, 0x80000000, 0x3, 0x80000000, 0x80000003), // amoxor.d.rl x7, x6, (x5)
    (0x2662b3af, 0xffffffff, 0x100000001, 0xffffffff, 0x1fffffffe), // amoxor.d.aqrl x7, x6, (x5)
    (0x6062b3af, MIN, 0x1, MIN, 0x0), // amoand.d x7, x6, (x5)
    (0x6462b3af, MIN - 1, MAX, MIN - 1, MIN - 1), // amoand.d.aq x7, x6, (x5)
    (0x6262b3af, 0x80000000, 0x3, 0x80000000, 0x0), // amoand.d.rl x7, x6, (x5)
    (0x6662b3af, 0xffffffff, 0x100000001, 0xffffffff, 0x1), // amoand.d.aqrl x7, x6, (x5)
    (0x4062b3af, MIN, 0x1, MIN, MIN + 1), // amoor.d x7, x6, (x5)
    (0x4462b3af, MIN - 1, MAX, MIN - 1, MAX), // amoor.d.aq x7, x6, (x5)
    (0x4262b3af, 0x80000000, 0x3, 0x80000000, 0x80000003), // amoor.d.rl x7, x6, (x5)
    (0x4662b3af, 0xffffffff, 0x100000001, 0xffffffff, 0x1ffffffff), // amoor.d.aqrl x7, x6, (x5)
    (0x8062b3af, MIN, 0x1, MIN, MIN), // amomin.d x7, x6, (x5)
    (0x8462b3af, MIN - 1, MAX, MIN - 1, MAX), // amomin.d.aq x7, x6, (x5)
    (0x8262b3af, 0x80000000, 0x3, 0x80000000, 0x3), // amomin.d.rl x7, x6, (x5)
    (0x8662b3af, 0xffffffff, 0x100000001, 0xffffffff, 0xffffffff), // amomin.d.aqrl x7, x6, (x5)
    (0xa062b3af, MIN, 0x1, MIN, 0x1), // amomax.d x7, x6, (x5)
    (0xa462b3af, MIN - 1, MAX, MIN - 1, MIN - 1), // amomax.d.aq x7, x6, (x5)
    (0xa262b3af, 0x80000000, 0x3, 0x80000000, 0x80000000), // amomax.d.rl x7, x6, (x5)
    (0xa662b3af, 0xffffffff, 0x100000001, 0xffffffff, 0x100000001), // amomax.d.aqrl x7, x6, (x5)
    (0xc062b3af, MIN, 0x1, MIN, 0x1), // amominu.d x7, x6, (x5)
    (0xc462b3af, MIN - 1, MAX, MIN - 1, MIN - 1), // amominu.d.aq x7, x6, (x5)
    (0xc262b3af, 0x80000000, 0x3, 0x80000000, 0x3), // amominu.d.rl x7, x6, (x5)
    (0xc662b3af, 0xffffffff, 0x100000001, 0xffffffff, 0xffffffff), // amominu.d.aqrl x7, x6, (x5)
    (0xe062b3af, MIN, 0x1, MIN, MIN), // amomaxu.d x7, x6, (x5)
    (0xe462b3af, MIN - 1, MAX, MIN - 1, MAX), // amomaxu.d.aq x7, x6, (x5)
    (0xe262b3af, 0x80000000, 0x3, 0x80000000, 0x80000000), // amomaxu.d.rl x7, x6, (x5)
    (0xe662b3af, 0xffffffff, 0x100000001, 0xffffffff, 0x100000001), // amomaxu.d.aqrl x7, x6, (x5)
    (0x0062b2af, 0x5, 0x3, 0x5, 0x8), // amoadd.d x5, x6, (x5)
    (0x0062b32f, 0x5, 0x3, 0x5, 0x8), // amoadd.d x6, x6, (x5)
    (0x0062b02f, 0x5, 0x3, 0x0, 0x8), // amoadd.d x0, x6, (x5)
];

/// Words near the atomic instructions that mean nothing.
pub(crate) const UNKNOWN: [u32; 50] = [
    0x1062a3af, 0x2862a3af, 0x3062a3af, 0x3862a3af, 0x4862a3af, 0x5062a3af, 0x5862a3af, 0x6862a3af,
    0x7062a3af, 0x7862a3af, 0x8862a3af, 0x9062a3af, 0x9862a3af, 0xa862a3af, 0xb062a3af, 0xb862a3af,
    0xc862a3af, 0xd062a3af, 0xd862a3af, 0xe862a3af, 0xf062a3af, 0xf862a3af, 0x1062b3af, 0x2862b3af,
    0x3062b3af, 0x3862b3af, 0x4862b3af, 0x5062b3af, 0x5862b3af, 0x6862b3af, 0x7062b3af, 0x7862b3af,
    0x8862b3af, 0x9062b3af, 0x9862b3af, 0xa862b3af, 0xb062b3af, 0xb862b3af, 0xc862b3af, 0xd062b3af,
    0xd862b3af, 0xe862b3af, 0xf062b3af, 0xf862b3af, 0x006283af, 0x006293af, 0x0062c3af, 0x0062d3af,
    0x0062e3af, 0x0062f3af,
];
