//! The header of an ELF-64 file (System V ABI, "ELF Header"; the flags are those of the RISC-V ELF
//! psABI), and what is asked of it before anything else is looked at.
ghost use Rattle.std.specs.Prelude.{◌≡◌, ◌≤◌, IfNone, IfSome, length};
ghost use Rattle.thy_block.specs.Demands.{first_fault};
ghost use Rattle.thy_elf.specs.Header.{header_of, header_demands};
ghost use Rattle.thy_elf.specs.ProgramHeader.{HasHeaders};
ghost use Rattle.thy_elf.specs.Refusal.{IsRefusal};

use crate::error::ElfError;
use crate::number::{passes, u16_at, u32_at, u64_at};

/// The fields of a file's header that matter here, under plain names.
#[derive(Clone, Copy)]
pub struct Header {
    /// e_type: 2 for an executable file.
    pub kind: u16,
    /// e_machine: 243 for RISC-V.
    pub machine: u16,
    /// e_version: 1.
    pub version: u32,
    /// e_entry: the address at which the program starts.
    pub entry: u64,
    /// e_phoff: where the program headers begin in the file.
    pub table: u64,
    /// e_flags: which extensions the code needs.
    pub flags: u32,
    /// e_ehsize: how long this header is.
    pub size: u16,
    /// e_phentsize: how long a program header is.
    pub entry_size: u16,
    /// e_phnum: how many program headers there are.
    pub count: u16,
}

/// The header of a file that is long enough to have one.
pub fn read_header(file: &[u8]) -> Header
    requires { 64 ≤ length file.now }
    ensures { result ≡ header_of file.now }
{
    Header {
        kind: u16_at(file, 16),
        machine: u16_at(file, 18),
        version: u32_at(file, 20),
        entry: u64_at(file, 24),
        table: u64_at(file, 32),
        flags: u32_at(file, 48),
        size: u16_at(file, 52),
        entry_size: u16_at(file, 54),
        count: u16_at(file, 56),
    }
}

/// The first refusal that the file's header gives reason for.
#[tactic(auto, unfolding(crate::specs::Header::header_demands))]
pub fn header_refusal(file: &[u8]) -> Option<ElfError>
    ensures first { result ≡ first_fault (header_demands file.now) }
    ensures refusal { IfSome result IsRefusal }
    ensures none { IfNone result (HasHeaders file.now) }
{
    if file.len() < 64 {
        return Some(ElfError::TooShort);
    }
    if !file.starts_with(&[0x7F, 0x45, 0x4C, 0x46]) {
        return Some(ElfError::NotElf);
    }
    if file[4] != 2 {
        return Some(ElfError::NotClass64);
    }
    if file[5] != 1 {
        return Some(ElfError::NotLittle);
    }
    let header = read_header(file);
    if file[6] != 1 || header.version != 1 {
        return Some(ElfError::BadVersion);
    }
    if header.kind != 2 {
        return Some(ElfError::NotExec);
    }
    if header.machine != 243 {
        return Some(ElfError::NotRiscv);
    }
    if header.flags & 1 != 0 {
        return Some(ElfError::NeedsCompressed);
    }
    if header.flags & 6 != 0 {
        return Some(ElfError::NeedsFloat);
    }
    if header.flags & 8 != 0 {
        return Some(ElfError::IsRve);
    }
    if header.size != 64 || (header.count != 0 && header.entry_size != 56) {
        return Some(ElfError::BadHeaderSize);
    }
    if header.count == 0xFFFF {
        return Some(ElfError::TooManyHeaders);
    }
    let room = u64::from(header.count) * 56;
    if header.count != 0 && passes(header.table, room, file.len() as u64) {
        return Some(ElfError::HeadersOutside);
    }
    None
}
