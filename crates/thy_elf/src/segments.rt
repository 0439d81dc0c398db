//! Segments written into memory.
ghost use Rattle.std.specs.Prelude.{◌≡◌, ◌+◌, ◌<◌, ◌≤◌, ◌^◌, ◌++◌, None, length, take, drop, replicate};
ghost use Rattle.std.specs.List.{fold};
ghost use Rattle.thy_block.specs.Bytes.{written};
ghost use Rattle.thy_elf.specs.Header.{header_of};
ghost use Rattle.thy_elf.specs.Image.{with_segment, reached, floor_of, IsAccepted};
ghost use Rattle.thy_elf.specs.ProgramHeader.{indices_of, segment_demands, HasHeaders};
ghost use Rattle.thy_block.specs.Demands.{first_fault};

use crate::program_header::{header_count, read_program_header};

/// The bytes of a file from `offset` on, `len` of them. If `len` is 0, `offset` may lie past the end of the file.
fn file_part(file: &[u8], offset: u64, len: u64) -> &[u8]
    requires { 0 < len → offset + len ≤ length file.now }
    ensures bytes { result.now ≡ take len (drop offset file.now) }
    ensures len { length result.now ≡ len }
{
    if len == 0 {
        return &[];
    }
    &file[offset as usize..(offset + len) as usize]
}

/// Makes every byte zero.
fn clear(part: &mut [u8])
    ensures { part.new ≡ replicate (length part.old) 0 }
{
    part.fill(0);
}

/// Writes a piece into memory from `at` on, and zeros after it.
fn write_padded(memory: &mut [u8], at: usize, piece: &[u8], zeros: usize)
    requires { at + length piece.now + zeros ≤ length memory.old }
    ensures { memory.new ≡ written memory.old at (piece.now ++ replicate zeros 0) }
{
    let middle = at + piece.len();
    memory[at..middle].copy_from_slice(piece);
    clear(&mut memory[middle..middle + zeros]);
}

/// Writes the segment of program header `k` into memory, whose first byte is at `base`.
#[tactic(auto, using(crate::proofs::SegmentLemmas::segment_fits))]
fn write_segment(memory: &mut [u8], file: &[u8], base: u64, size: u64, k: u16)
    requires headers { HasHeaders file.now }
    requires index { k < (header_of file.now).count }
    requires fits { first_fault (segment_demands file.now base size k) ≡ None }
    requires len { length memory.old ≡ size }
    ensures { memory.new ≡ with_segment file.now base memory.old k }
{
    let header = read_program_header(file, k);
    if header.takes_memory() {
        let part = file_part(file, header.offset, header.file_size);
        let at = (header.address - base) as usize;
        let zeros = (header.memory_size - header.file_size) as usize;
        write_padded(memory, at, part, zeros);
    }
}

/// Writes all segments into memory of `size` bytes from `base` on, in the table's order.
#[tactic(auto, using(crate::proofs::IndexLemmas::fold_start, crate::proofs::IndexLemmas::fold_step, crate::proofs::IndexLemmas::fold_end, crate::proofs::SegmentLemmas::accepted_at))]
pub fn write_segments(memory: &mut [u8], file: &[u8], base: u64, size: u64)
    requires accepted { IsAccepted file.now base size }
    requires len { length memory.old ≡ size }
    ensures { memory.new ≡ fold (with_segment file.now base) memory.old (indices_of file.now) }
{
    for k in 0..header_count(file) {
        write_segment(memory, file, base, size, k);
    }
}

/// The end of the segment of program header `k`, or `end` if that is greater.
#[tactic(auto, using(crate::proofs::SegmentLemmas::segment_fits))]
fn reached_with(file: &[u8], base: u64, size: u64, end: u64, k: u16) -> u64
    requires headers { HasHeaders file.now }
    requires index { k < (header_of file.now).count }
    requires fits { first_fault (segment_demands file.now base size k) ≡ None }
    requires end { end ≤ base + size }
    requires memory { base + size < 2 ^ 64 }
    ensures end { result ≡ reached file.now end k }
    ensures within { result ≤ base + size }
{
    let header = read_program_header(file, k);
    if header.takes_memory() {
        end.max(header.address + header.memory_size)
    } else {
        end
    }
}

/// The address at which the heap begins: the greatest end of a segment, or `base` if there is none, rounded up to a
/// multiple of 16.
#[tactic(auto, using(crate::proofs::IndexLemmas::fold_start, crate::proofs::IndexLemmas::fold_step, crate::proofs::IndexLemmas::fold_end, crate::proofs::SegmentLemmas::accepted_at))]
pub fn floor(file: &[u8], base: u64, size: u64) -> u64
    requires accepted { IsAccepted file.now base size }
    requires memory { base + size < 2 ^ 63 }
    ensures { result ≡ floor_of file.now base }
{
    let mut end = base;
    for k in 0..header_count(file) {
        end = reached_with(file, base, size, end, k);
    }
    (end + 15) / 16 * 16
}
