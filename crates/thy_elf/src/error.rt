//! Why a file is not an image.
ghost use Rattle.std.specs.Prelude.{◌≡◌};
ghost use Rattle.thy_elf.specs.Refusal.{index_of, name_of, number_of};
ghost use Rattle.thy_elf.specs.Texts.{text_of};

use std::alloc::AllocError;
use thiserror::Error;

/// Why a file cannot be loaded, in the order in which it is checked; a number is the index of the program header at
/// fault, from 0. `Memory` is not a refusal: the file is an image, but there is not enough memory to hold it.
#[derive(Clone, Copy, PartialEq, Eq, Debug, Error)]
#[error("{}", self.text())]
pub enum ElfError {
    TooShort,
    NotElf,
    NotClass64,
    NotLittle,
    BadVersion,
    NotExec,
    NotRiscv,
    NeedsCompressed,
    NeedsFloat,
    IsRve,
    BadHeaderSize,
    TooManyHeaders,
    HeadersOutside,
    NeedsLoader,
    #[error("program header {0}: {text}", text = self.text())]
    FileOverMemory(u64),
    #[error("program header {0}: {text}", text = self.text())]
    SegmentOutsideFile(u64),
    #[error("program header {0}: {text}", text = self.text())]
    SegmentOutsideMemory(u64),
    Memory(AllocError),
}

impl ElfError {
    /// The refusal's number, from 1 in the order in which they are looked for; 0 for `Memory`.
    pub fn number(&self) -> u8
        ensures { result ≡ number_of self.now }
    {
        match self {
            ElfError::TooShort => 1,
            ElfError::NotElf => 2,
            ElfError::NotClass64 => 3,
            ElfError::NotLittle => 4,
            ElfError::BadVersion => 5,
            ElfError::NotExec => 6,
            ElfError::NotRiscv => 7,
            ElfError::NeedsCompressed => 8,
            ElfError::NeedsFloat => 9,
            ElfError::IsRve => 10,
            ElfError::BadHeaderSize => 11,
            ElfError::TooManyHeaders => 12,
            ElfError::HeadersOutside => 13,
            ElfError::NeedsLoader => 14,
            ElfError::FileOverMemory(_) => 15,
            ElfError::SegmentOutsideFile(_) => 16,
            ElfError::SegmentOutsideMemory(_) => 17,
            ElfError::Memory(_) => 0,
        }
    }

    /// The refusal's name, as reports print it.
    pub fn name(&self) -> &'static str
        ensures { result.now ≡ name_of self.now }
    {
        match self {
            ElfError::TooShort => "TooShort",
            ElfError::NotElf => "NotElf",
            ElfError::NotClass64 => "NotClass64",
            ElfError::NotLittle => "NotLittle",
            ElfError::BadVersion => "BadVersion",
            ElfError::NotExec => "NotExec",
            ElfError::NotRiscv => "NotRiscv",
            ElfError::NeedsCompressed => "NeedsCompressed",
            ElfError::NeedsFloat => "NeedsFloat",
            ElfError::IsRve => "IsRve",
            ElfError::BadHeaderSize => "BadHeaderSize",
            ElfError::TooManyHeaders => "TooManyHeaders",
            ElfError::HeadersOutside => "HeadersOutside",
            ElfError::NeedsLoader => "NeedsLoader",
            ElfError::FileOverMemory(_) => "FileOverMemory",
            ElfError::SegmentOutsideFile(_) => "SegmentOutsideFile",
            ElfError::SegmentOutsideMemory(_) => "SegmentOutsideMemory",
            ElfError::Memory(_) => "Memory",
        }
    }

    /// What is wrong with the file, and how it is to be made. `Display` writes it, after the index of the program header
    /// at fault.
    pub fn text(&self) -> &'static str
        ensures { result.now ≡ text_of self.now }
    {
        match self {
            ElfError::TooShort => "the file has fewer than 64 bytes, too few for an ELF header",
            ElfError::NotElf => "the file does not begin with 7F 45 4C 46: it is not an ELF file",
            ElfError::NotClass64 =>
                "the file is not of the 64-bit class: build it for rv64 (-mabi=lp64)",
            ElfError::NotLittle => "the file is not little-endian: build it with -mlittle-endian",
            ElfError::BadVersion => "the file's ELF version is not 1",
            ElfError::NotExec =>
                "the file is not an executable at fixed addresses: link it with -static -no-pie, and not with -c or -shared",
            ElfError::NotRiscv =>
                "the file is not for RISC-V: build it with riscv64-unknown-elf-gcc",
            ElfError::NeedsCompressed =>
                "the file has compressed instructions: build it, and all that is linked to it, with -march=rv64im",
            ElfError::NeedsFloat =>
                "the file passes floating-point numbers in registers: build it, and all that is linked to it, with -mabi=lp64",
            ElfError::IsRve =>
                "the file is built for the sixteen registers of RVE: build it, and all that is linked to it, with -march=rv64im -mabi=lp64",
            ElfError::BadHeaderSize =>
                "the file's ELF header is not of 64 bytes, or its program headers are not of 56",
            ElfError::TooManyHeaders => "the file has 65535 program headers or more",
            ElfError::HeadersOutside =>
                "the file ends before its last program header: it was cut short",
            ElfError::NeedsLoader =>
                "the file is to be loaded by a dynamic loader: link it with -static -no-pie",
            ElfError::FileOverMemory(_) => "more bytes in the file than in memory",
            ElfError::SegmentOutsideFile(_) =>
                "the file ends before the segment's last byte: it was cut short",
            ElfError::SegmentOutsideMemory(_) =>
                "the segment is not within program memory: link it there (-Wl,-Ttext-segment=ADDRESS), or give more pages",
            ElfError::Memory(_) => "there is no memory for the image",
        }
    }

    /// The index of the program header at fault, if the refusal names one.
    pub fn index(&self) -> Option<u64>
        ensures { result ≡ index_of self.now }
    {
        match self {
            ElfError::FileOverMemory(k)
            | ElfError::SegmentOutsideFile(k)
            | ElfError::SegmentOutsideMemory(k) => Some(*k),
            _ => None,
        }
    }
}
