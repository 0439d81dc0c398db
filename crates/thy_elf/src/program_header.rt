//! The program headers of an ELF-64 file (System V ABI, "Program Header"), and what is asked of
//! each.
ghost use Rattle.std.specs.Prelude.{◌≡◌, ◌+◌, ◌<◌, ◌≤◌, ◌^◌, IfSome, length};
ghost use Rattle.std.specs.List.{list_any};
ghost use Rattle.thy_block.specs.Demands.{first_fault};
ghost use Rattle.thy_elf.specs.Header.{header_of};
ghost use Rattle.thy_elf.specs.ProgramHeader.{program_header, indices_of, HasHeaders, segment_demands};
ghost use Rattle.thy_elf.specs.ProgramHeader.{needs_loader, is_load, takes_memory};
ghost use Rattle.thy_elf.specs.Refusal.{IsRefusal};

use crate::error::ElfError;
use crate::number::{passes, u16_at, u32_at, u64_at};
use thy_block::is_inside;

/// The fields of a program header that matter here, under plain names.
#[derive(Clone, Copy)]
pub struct ProgramHeader {
    /// p_type: 1 for a segment to be loaded, 2 and 3 for what a dynamic loader reads.
    pub kind: u32,
    /// p_offset: where the segment's bytes begin in the file.
    pub offset: u64,
    /// p_vaddr: where the segment begins in memory.
    pub address: u64,
    /// p_filesz: how many bytes the file has for the segment.
    pub file_size: u64,
    /// p_memsz: how many bytes the segment has in memory.
    pub memory_size: u64,
}

impl ProgramHeader {
    /// Whether the program header asks for a dynamic loader (PT_DYNAMIC, PT_INTERP).
    pub fn needs_loader(&self) -> bool
        ensures { result ≡ needs_loader self.now }
    {
        self.kind == 2 || self.kind == 3
    }

    /// Whether the header's segment is to be loaded (PT_LOAD).
    pub fn is_load(&self) -> bool
        ensures { result ≡ is_load self.now }
    {
        self.kind == 1
    }

    /// Whether the header's segment is to be loaded and takes up memory.
    pub fn takes_memory(&self) -> bool
        ensures { result ≡ takes_memory self.now }
    {
        self.kind == 1 && self.memory_size != 0
    }
}

/// How many program headers a file has that is long enough for its header.
pub fn header_count(file: &[u8]) -> u16
    requires { 64 ≤ length file.now }
    ensures { result ≡ (header_of file.now).count }
{
    u16_at(file, 56)
}

/// Program header `k`.
#[tactic(auto, unfolding(crate::specs::ProgramHeader::program_header))]
pub fn read_program_header(file: &[u8], k: u16) -> ProgramHeader
    requires headers { HasHeaders file.now }
    requires index { k < (header_of file.now).count }
    ensures { result ≡ program_header file.now k }
{
    let place = u64_at(file, 32) as usize + 56 * usize::from(k);
    ProgramHeader {
        kind: u32_at(file, place),
        offset: u64_at(file, place + 8),
        address: u64_at(file, place + 16),
        file_size: u64_at(file, place + 32),
        memory_size: u64_at(file, place + 40),
    }
}

/// Whether some program header asks for a dynamic loader.
#[tactic(auto, using(crate::proofs::IndexLemmas::any_start, crate::proofs::IndexLemmas::any_step, crate::proofs::IndexLemmas::any_end))]
pub fn some_needs_loader(file: &[u8]) -> bool
    requires { HasHeaders file.now }
    ensures { result ≡ list_any (λ k. needs_loader (program_header file.now k)) (indices_of file.now) }
{
    for k in 0..header_count(file) {
        if read_program_header(file, k).needs_loader() {
            return true;
        }
    }
    false
}

/// The first refusal that program header `k` gives reason for.
pub fn segment_refusal(file: &[u8], base: u64, size: u64, k: u16) -> Option<ElfError>
    requires headers { HasHeaders file.now }
    requires index { k < (header_of file.now).count }
    requires memory { base + size < 2 ^ 64 }
    ensures first { result ≡ first_fault (segment_demands file.now base size k) }
    ensures refusal { IfSome result IsRefusal }
{
    let header = read_program_header(file, k);
    let index = u64::from(k);
    if header.is_load() && header.file_size > header.memory_size {
        return Some(ElfError::FileOverMemory(index));
    }
    let len = file.len() as u64;
    let cut = header.file_size != 0 && passes(header.offset, header.file_size, len);
    if header.is_load() && cut {
        return Some(ElfError::SegmentOutsideFile(index));
    }
    if header.takes_memory() && !is_inside(base, size, header.address, header.memory_size) {
        return Some(ElfError::SegmentOutsideMemory(index));
    }
    None
}
