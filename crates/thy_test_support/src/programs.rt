//! Program files made for runs, from a header and their words.
use std::alloc::{AllocError, Global};
use thy_out::MemShelf;

/// A program file of three instructions at the address 65536: `addi a7,zero,93; addi a0,zero,7; ecall`.
pub static EXIT_SEVEN: [u8; 132] = [
    0x7f, 0x45, 0x4c, 0x46, 0x02, 0x01, 0x01, 0x00, 0x00, 0x00, 0x00, 0x00, 0x00, 0x00, 0x00, 0x00,
    0x02, 0x00, 0xf3, 0x00, 0x01, 0x00, 0x00, 0x00, 0x00, 0x00, 0x01, 0x00, 0x00, 0x00, 0x00, 0x00,
    0x40, 0x00, 0x00, 0x00, 0x00, 0x00, 0x00, 0x00, 0x00, 0x00, 0x00, 0x00, 0x00, 0x00, 0x00, 0x00,
    0x00, 0x00, 0x00, 0x00, 0x40, 0x00, 0x38, 0x00, 0x01, 0x00, 0x00, 0x00, 0x00, 0x00, 0x00, 0x00,
    0x01, 0x00, 0x00, 0x00, 0x07, 0x00, 0x00, 0x00, 0x78, 0x00, 0x00, 0x00, 0x00, 0x00, 0x00, 0x00,
    0x00, 0x00, 0x01, 0x00, 0x00, 0x00, 0x00, 0x00, 0x00, 0x00, 0x01, 0x00, 0x00, 0x00, 0x00, 0x00,
    0x0c, 0x00, 0x00, 0x00, 0x00, 0x00, 0x00, 0x00, 0x0c, 0x00, 0x00, 0x00, 0x00, 0x00, 0x00, 0x00,
    0x04, 0x00, 0x00, 0x00, 0x00, 0x00, 0x00, 0x00, 0x93, 0x08, 0xd0, 0x05, 0x13, 0x05, 0x70, 0x00,
    0x73, 0x00, 0x00, 0x00,
];

/// `auipc t0,0; lw t1,24(t0); sw t1,16(t0); fence.i; addi a0,zero,1; jal zero,+8; addi a0,zero,9; addi a7,zero,93;
/// ecall`: it writes its seventh word over its fifth.
pub const SELF_MODIFYING: &[u32] = &[
    0x00000297, 0x0182a303, 0x0062a823, 0x0000100f, 0x00100513, 0x0080006f, 0x00900513, 0x05d00893,
    0x00000073,
];

/// `sd zero,-64*k(sp)` for k from 0 to 8, which stores to nine blocks of one page; `addi a7,zero,93; ecall`.
pub const NINE_STORES: &[u32] = &[
    0x00013023, 0xfc013023, 0xf8013023, 0xf4013023, 0xf0013023, 0xec013023, 0xe8013023, 0xe4013023,
    0xe0013023, 0x05d00893, 0x00000073,
];

/// The nine stores of `NINE_STORES` twice; `addi a7,zero,93; ecall`.
pub const NINE_STORES_TWICE: &[u32] = &[
    0x00013023, 0xfc013023, 0xf8013023, 0xf4013023, 0xf0013023, 0xec013023, 0xe8013023, 0xe4013023,
    0xe0013023, 0x00013023, 0xfc013023, 0xf8013023, 0xf4013023, 0xf0013023, 0xec013023, 0xe8013023,
    0xe4013023, 0xe0013023, 0x05d00893, 0x00000073,
];

/// `auipc a1,0; addi a1,a1,32; addi a0,zero,1; addi a2,zero,3; addi a7,zero,64; ecall`, which prints three
/// bytes; `addi a7,zero,93; ecall`; and the bytes, `Hi` and a line feed.
pub const HELLO: &[u32] = &[
    0x00000597, 0x02058593, 0x00100513, 0x00300613, 0x04000893, 0x00000073, 0x05d00893, 0x00000073,
    0x000a6948,
];

/// `addi a7,zero,63; addi a1,sp,0; addi a2,zero,10; ecall`, which reads up to ten bytes to the start's sp; and
/// `addi a7,zero,93; ecall`, which exits with their number.
pub const READ_INPUT: &[u32] = &[
    0x03f00893, 0x00010593, 0x00a00613, 0x00000073, 0x05d00893, 0x00000073,
];

/// The code of examples/greet.
pub const GREET: &[u32] = &[
    0x00002197, 0x80018193, 0x00001217, 0xff820213, 0x044000ef, 0x030000ef, 0x03f00893, 0x00000073,
    0x00008067, 0x04000893, 0x00000073, 0x00008067, 0x00000593, 0x00000613, 0x0d600893, 0x00000073,
    0x00008067, 0x00000593, 0x00000613, 0x05d00893, 0x00000073, 0xfa010113, 0x05213023, 0x00011937,
    0x04813823, 0x04913423, 0x03313c23, 0x04113c23, 0x03413823, 0x03513423, 0x03613023, 0x01713c23,
    0x01813823, 0x00000413, 0x00090913, 0x10000493, 0x0ff00993, 0x00c0006f, 0x00a40433, 0x0089ec63,
    0x40848633, 0x008905b3, 0x00000513, 0xf6dff0ef, 0xfea044e3, 0x008907b3, 0x00a00613, 0x00040e63,
    0xfff7c703, 0xfff40693, 0xfff78793, 0x00c71663, 0x00068413, 0xfe0416e3, 0x03000493, 0x02000993,
    0x00010b37, 0x00010a37, 0x03a00a93, 0x00910423, 0x013104a3, 0x00010523, 0x00200b93, 0x00810c13,
    0x000b8613, 0x000c0593, 0x00100513, 0xf19ff0ef, 0x0c054663, 0x40ab8bb3, 0x00ac0c33, 0xfe0b92e3,
    0x00700b93, 0x1e8b0c13, 0x000b8613, 0x000c0593, 0x00100513, 0xef1ff0ef, 0x0a054263, 0x40ab8bb3,
    0x00ac0c33, 0xfe0b92e3, 0x02040663, 0x00040b93, 0x00090c13, 0x000b8613, 0x000c0593, 0x00100513,
    0xec5ff0ef, 0x06054c63, 0x40ab8bb3, 0x00ac0c33, 0xfe0b92e3, 0x00200b93, 0x1f0a0c13, 0x000b8613,
    0x000c0593, 0x00100513, 0xe9dff0ef, 0x04054863, 0x40ab8bb3, 0x00ac0c33, 0xfe0b92e3, 0x0014849b,
    0x0ff4f493, 0xf55494e3, 0x05813083, 0x0004051b, 0x05013403, 0x04813483, 0x04013903, 0x03813983,
    0x03013a03, 0x02813a83, 0x02013b03, 0x01813b83, 0x01013c03, 0x06010113, 0x00008067, 0x00100513,
    0xe65ff0ef, 0x00000000, 0x6c6c6548, 0x00202c6f, 0x00000a21,
];

/// `addi a0,zero,5; addi a0,a0,1; addi a7,zero,93; ecall`.
pub const FOUR_INSTRUCTIONS: &[u32] = &[0x00500513, 0x00150513, 0x05d00893, 0x00000073];

/// The words of `EXIT_SEVEN`.
pub const THREE_WORDS: &[u32] = &[0x05d00893, 0x00700513, 0x00000073];

/// A program file of these words, from the address 65536 on, at which it starts.
pub fn file_of(alloc: Global, words: &[u32]) -> Result<Vec<u8>, AllocError> {
    let size = (words.len() as u64).saturating_mul(4).to_le_bytes();
    let mut file = Vec::from_slice(alloc, &EXIT_SEVEN[..96])?;
    file.extend_from_slice(&size)?;
    file.extend_from_slice(&size)?;
    file.extend_from_slice(&EXIT_SEVEN[112..120])?;
    for word in words {
        file.extend_from_slice(&word.to_le_bytes())?;
    }
    Ok(file)
}

/// Files by their names, as a shelf in memory holds them.
pub type Files = Vec<(String, Vec<u8>)>;

/// Adds a file.
pub fn hold(
    alloc: Global,
    files: &mut Files,
    name: &str,
    bytes: Vec<u8>,
) -> Result<(), AllocError> {
    files.push((String::from_str(alloc, name)?, bytes))?;
    Ok(())
}

/// Programs and texts, by their names.
pub fn files_of(
    alloc: Global,
    programs: &[(&str, &[u32])],
    texts: &[(&str, &[u8])],
) -> Result<Files, AllocError> {
    let mut files = Vec::new(alloc);
    for (name, words) in programs {
        hold(alloc, &mut files, name, file_of(alloc, words)?)?;
    }
    for (name, bytes) in texts {
        hold(alloc, &mut files, name, Vec::from_slice(alloc, bytes)?)?;
    }
    Ok(files)
}

/// A shelf with programs and texts, which does not fail.
pub fn shelf_of(
    alloc: Global,
    programs: &[(&str, &[u32])],
    texts: &[(&str, &[u8])],
) -> Result<MemShelf, AllocError> {
    let files = files_of(alloc, programs, texts)?;
    Ok(MemShelf::new(files, Vec::new(alloc)))
}

/// Bytes with a piece written over them from a place on, none past the end.
pub fn patched(
    alloc: Global,
    bytes: &[u8],
    at: usize,
    others: &[u8],
) -> Result<Vec<u8>, AllocError> {
    let mut bytes = Vec::from_slice(alloc, bytes)?;
    for (i, other) in others.iter().enumerate() {
        if let Some(byte) = bytes.get_mut(at.saturating_add(i)) {
            *byte = *other;
        }
    }
    Ok(bytes)
}
