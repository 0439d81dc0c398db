//! From a file to the image that it means.
ghost use Rattle.std.specs.Prelude.{◌≡◌, ◌+◌, ◌<◌, ◌^◌, None, Ok, length, replicate, IfOk, IfErr, IfNone, IfSome};
ghost use Rattle.std.specs.List.{flat_map};
ghost use Rattle.thy_block.specs.Bytes.{bytes_of};
ghost use Rattle.thy_block.specs.Demands.{first_fault};
ghost use Rattle.thy_elf.specs.Image.{demands_of, contents_of, read_of, IsAccepted, IsCause};
ghost use Rattle.thy_elf.specs.ProgramHeader.{indices_of, segment_demands, HasHeaders};
ghost use Rattle.thy_elf.specs.Refusal.{IsRefusal};

use crate::error::ElfError;
use crate::header::{header_refusal, read_header};
use crate::program_header::{header_count, segment_refusal, some_needs_loader};
use crate::segments::{floor, write_segments};
use std::alloc::{AllocError, Global};
use thy_block::Bytes;

/// What a run starts with.
#[derive(Debug, Drop)]
pub struct Image {
    /// The address of the first instruction.
    pub entry: u64,
    /// Where the heap begins: the first multiple of 16 at or past the end of every segment.
    pub floor: u64,
    /// Program memory, its first byte at the base.
    pub memory: Bytes,
}

/// The first refusal that a segment gives reason for, by rising index.
#[tactic(auto, using(crate::proofs::RefusalLemmas::demands_start, crate::proofs::RefusalLemmas::demands_step, crate::proofs::RefusalLemmas::demands_end))]
fn segments_refusal(file: &[u8], base: u64, size: u64) -> Option<ElfError>
    requires headers { HasHeaders file.now }
    requires memory { base + size < 2 ^ 64 }
    ensures first { result ≡ first_fault (flat_map (segment_demands file.now base size) (indices_of file.now)) }
    ensures refusal { IfSome result IsRefusal }
{
    for k in 0..header_count(file) {
        if let Some(refusal) = segment_refusal(file, base, size, k) {
            return Some(refusal);
        }
    }
    None
}

/// The first refusal that the file gives reason for.
#[tactic(auto, using(crate::proofs::RefusalLemmas::first_fault_after, crate::proofs::RefusalLemmas::first_fault_before))]
fn first_refusal(file: &[u8], base: u64, size: u64) -> Option<ElfError>
    requires { base + size < 2 ^ 64 }
    ensures first { result ≡ first_fault (demands_of file.now base size) }
    ensures refusal { IfSome result IsRefusal }
    ensures none { IfNone result (IsAccepted file.now base size) }
{
    if let Some(refusal) = header_refusal(file) {
        return Some(refusal);
    }
    if some_needs_loader(file) {
        return Some(ElfError::NeedsLoader);
    }
    segments_refusal(file, base, size)
}

/// The image that a file means if program memory is `size` bytes from `base` on: zeros, with the file's PT_LOAD
/// segments written over them in the table's order. If there are reasons to refuse the file, returns the first, in the
/// order in which `ElfError` lists them. Allocates only for an image, and returns `Memory` only if the file is one.
#[tactic(auto, using(crate::proofs::RefusalLemmas::cause_of))]
pub fn read(alloc: Global, bytes: &[u8], base: u64, size: u64) -> Result<Image, ElfError>
    requires base { base < 2 ^ 62 }
    requires size { size < 2 ^ 62 }
    ensures image { IfOk result (λ image. read_of bytes.now base size ≡ Ok (contents_of image)) }
    ensures len { IfOk result (λ image. length (bytes_of image.memory) ≡ size) }
    ensures cause { IfErr result (λ e. IsCause (read_of bytes.now base size) e) }
{
    if let Some(refusal) = first_refusal(bytes, base, size) {
        return Err(refusal);
    }
    let mut memory = zeros(alloc, size as usize).map_err(ElfError::Memory)?;
    write_segments(&mut memory, bytes, base, size);
    Ok(Image {
        entry: read_header(bytes).entry,
        floor: floor(bytes, base, size),
        memory: Bytes::from_vec(memory),
    })
}

/// Zeros, `len` of them.
fn zeros(alloc: Global, len: usize) -> Result<Vec<u8>, AllocError>
    ensures { IfOk result (λ zeros. zeros.items ≡ replicate len 0) }
{
    vec![in alloc; 0; len]
}
