//! Files made from a good one by a change each, and what each is refused for.
ghost use Rattle.std.specs.Prelude.{◌<◌, ◌^◌};

use crate::support::expect::{expect, expect_at};
use std::alloc::Global;
use std::process::Abort;
use thy_elf::{ElfError, read};

/// Program memory of the default configuration.
const BASE: u64 = 0x10000;

const SIZE: u64 = 255 * 4096;

/// The bytes of examples/exit_seven: a header, one program header, three instructions.
static GOOD: [u8; 132] = [
    0x7F, 0x45, 0x4C, 0x46, 0x02, 0x01, 0x01, 0x00, 0x00, 0x00, 0x00, 0x00, 0x00, 0x00, 0x00, 0x00,
    0x02, 0x00, 0xF3, 0x00, 0x01, 0x00, 0x00, 0x00, 0x00, 0x00, 0x01, 0x00, 0x00, 0x00, 0x00, 0x00,
    0x40, 0x00, 0x00, 0x00, 0x00, 0x00, 0x00, 0x00, 0x00, 0x00, 0x00, 0x00, 0x00, 0x00, 0x00, 0x00,
    0x00, 0x00, 0x00, 0x00, 0x40, 0x00, 0x38, 0x00, 0x01, 0x00, 0x00, 0x00, 0x00, 0x00, 0x00, 0x00,
    0x01, 0x00, 0x00, 0x00, 0x07, 0x00, 0x00, 0x00, 0x78, 0x00, 0x00, 0x00, 0x00, 0x00, 0x00, 0x00,
    0x00, 0x00, 0x01, 0x00, 0x00, 0x00, 0x00, 0x00, 0x00, 0x00, 0x01, 0x00, 0x00, 0x00, 0x00, 0x00,
    0x0C, 0x00, 0x00, 0x00, 0x00, 0x00, 0x00, 0x00, 0x0C, 0x00, 0x00, 0x00, 0x00, 0x00, 0x00, 0x00,
    0x04, 0x00, 0x00, 0x00, 0x00, 0x00, 0x00, 0x00, 0x93, 0x08, 0xD0, 0x05, 0x13, 0x05, 0x70, 0x00,
    0x73, 0x00, 0x00, 0x00,
];

/// Compares what a file is refused for, or None if it is an image, with what it should be. `at` says
/// where the file was changed, or is the number of a row.
fn refused(rt: &impl Abort, alloc: Global, file: &[u8], want: Option<ElfError>, at: usize) {
    expect_at(rt, read(alloc, file, BASE, SIZE).err(), want, at);
}

/// Writes bytes into a file, if they are within it.
fn put(file: &mut [u8], place: usize, bytes: &[u8]) {
    if place <= file.len() && bytes.len() <= file.len() - place {
        file[place..place + bytes.len()].copy_from_slice(bytes);
    }
}

/// Writes a PT_LOAD program header into a file: p_offset, p_vaddr, p_paddr, p_filesz, p_memsz.
fn put_segment(file: &mut [u8], place: usize, fields: [u64; 5])
    requires { place < 2 ^ 32 }
{
    put(file, place, &[1, 0, 0, 0, 7, 0, 0, 0]);
    for i in 0..5 {
        put(file, place + 8 + 8 * i, &fields[i].to_le_bytes());
    }
}

fn is_zeros(bytes: &[u8]) -> bool {
    bytes.iter().all(|byte| *byte == 0)
}

#[test]
fn the_good_file_is_the_image_of_its_bytes(rt: HostRuntime) {
    let image = read(rt.alloc(), &GOOD, BASE, SIZE).expect(&rt, "an image");
    expect(&rt, image.entry, 0x10000);
    expect(&rt, image.floor, 0x10010);
    let memory = image.memory.as_slice();
    expect(&rt, memory.len(), 1_044_480);
    expect(&rt, &memory[..12], &GOOD[120..]);
    expect(&rt, is_zeros(&memory[12..]), true);
}

/// A byte of the good file changed, and what it is refused for then.
static BYTES: [(usize, u8, ElfError); 21] = [
    (0, 0x7E, ElfError::NotElf),
    (3, 0x47, ElfError::NotElf),
    (4, 1, ElfError::NotClass64),
    (5, 2, ElfError::NotLittle),
    (6, 0, ElfError::BadVersion),
    (20, 2, ElfError::BadVersion),
    (23, 1, ElfError::BadVersion),
    (16, 3, ElfError::NotExec),
    (18, 62, ElfError::NotRiscv),
    (48, 0x1, ElfError::NeedsCompressed),
    (48, 0x2, ElfError::NeedsFloat),
    (48, 0x4, ElfError::NeedsFloat),
    (48, 0x8, ElfError::IsRve),
    (52, 65, ElfError::BadHeaderSize),
    (54, 57, ElfError::BadHeaderSize),
    (56, 3, ElfError::HeadersOutside),
    (64, 2, ElfError::NeedsLoader),
    (64, 3, ElfError::NeedsLoader),
    (104, 11, ElfError::FileOverMemory(0)),
    (72, 121, ElfError::SegmentOutsideFile(0)),
    (82, 0, ElfError::SegmentOutsideMemory(0)),
];

#[test]
fn one_byte_changed_is_refused_by_its_name(rt: HostRuntime) {
    for (place, byte, want) in &BYTES {
        let mut file = GOOD;
        put(&mut file, *place, &[*byte]);
        refused(&rt, rt.alloc(), &file, Some(*want), *place);
    }
}

#[test]
fn what_is_ignored_changes_nothing(rt: HostRuntime) {
    // OSABI and its version, e_entry, e_shoff, the TSO flag and an unknown one, e_shentsize,
    // e_shnum, e_shstrndx, p_flags, p_paddr, p_align.
    for place in [7, 8, 24, 31, 40, 49, 58, 60, 62, 68, 88, 112] {
        let mut file = GOOD;
        put(&mut file, place, &[0xFF]);
        refused(&rt, rt.alloc(), &file, None, place);
    }
    let mut file = GOOD;
    put(&mut file, 48, &[0x10]);
    refused(&rt, rt.alloc(), &file, None, 48);
}

#[test]
fn a_file_cut_short_is_refused_at_every_length(rt: HostRuntime) {
    for len in 0..132 {
        let want = if len < 64 {
            ElfError::TooShort
        } else if len < 120 {
            ElfError::HeadersOutside
        } else {
            ElfError::SegmentOutsideFile(0)
        };
        refused(&rt, rt.alloc(), &GOOD[..len], Some(want), len);
    }
}

/// A number of the good file made the greatest, and what it is refused for then.
static SUMS: [(usize, ElfError); 5] = [
    (32, ElfError::HeadersOutside),
    (72, ElfError::SegmentOutsideFile(0)),
    (80, ElfError::SegmentOutsideMemory(0)),
    (96, ElfError::FileOverMemory(0)),
    (104, ElfError::SegmentOutsideMemory(0)),
];

#[test]
fn sums_past_2_to_the_64_are_refused_by_their_own_name(rt: HostRuntime) {
    for (place, want) in &SUMS {
        let mut file = GOOD;
        put(&mut file, *place, &[0xFF; 8]);
        refused(&rt, rt.alloc(), &file, Some(*want), *place);
    }
    let mut file = GOOD;
    put(&mut file, 96, &[0xFF; 16]);
    refused(
        &rt,
        rt.alloc(),
        &file,
        Some(ElfError::SegmentOutsideFile(0)),
        96,
    );
}

#[test]
fn a_file_with_no_program_header_is_zeros(rt: HostRuntime) {
    let mut file = GOOD;
    put(&mut file, 32, &[0xFF; 8]);
    put(&mut file, 54, &[0; 4]);
    let image = read(rt.alloc(), &file, BASE, SIZE).expect(&rt, "an image");
    expect(&rt, image.floor, 0x10000);
    expect(&rt, is_zeros(image.memory.as_slice()), true);
}

/// The fields of a segment of zeros, and what the good file with it is refused for.
static ZEROS: [([u64; 5], Option<ElfError>); 4] = [
    ([u64::MAX, BASE, 0, 0, SIZE], None),
    (
        [u64::MAX, BASE, 0, 0, SIZE + 1],
        Some(ElfError::SegmentOutsideMemory(0)),
    ),
    (
        [u64::MAX, BASE - 1, 0, 0, SIZE],
        Some(ElfError::SegmentOutsideMemory(0)),
    ),
    ([u64::MAX, u64::MAX, 0, 0, 0], None),
];

#[test]
fn zeroed_data_may_fill_memory_and_no_more(rt: HostRuntime) {
    let mut file = GOOD;
    for (row, (fields, want)) in ZEROS.iter().enumerate() {
        put_segment(&mut file, 64, *fields);
        refused(&rt, rt.alloc(), &file, *want, row);
    }
    put_segment(&mut file, 64, [u64::MAX, BASE, 0, 0, SIZE]);
    let image = read(rt.alloc(), &file, BASE, SIZE).expect(&rt, "an image");
    expect(&rt, image.floor, 0x10F000);
}

#[test]
fn a_later_segment_wins_and_the_greatest_end_is_the_floor(rt: HostRuntime) {
    let mut file = [0; 192];
    put(&mut file, 0, &GOOD[..64]);
    put(&mut file, 56, &[2]);
    put_segment(&mut file, 64, [176, BASE, 0, 8, 40]);
    put_segment(&mut file, 120, [184, BASE + 2, 0, 2, 4]);
    put(&mut file, 176, &[1, 2, 3, 4, 5, 6, 7, 8, 11, 12, 13]);
    let image = read(rt.alloc(), &file, BASE, SIZE).expect(&rt, "an image");
    expect(&rt, image.floor, BASE + 48);
    let want = [1, 2, 11, 12, 0, 0, 7, 8, 0, 0];
    expect(&rt, &image.memory.as_slice()[..10], &want[..]);
    put(&mut file, 64 + 40, &[7]);
    put(&mut file, 120, &[3]);
    refused(&rt, rt.alloc(), &file, Some(ElfError::NeedsLoader), 120);
}

/// The fields of the last segment of 65534, and what the file is refused for then.
static LAST: [([u64; 5], ElfError); 3] = [
    ([0, BASE, 0, 2, 1], ElfError::FileOverMemory(65533)),
    (
        [64 + 56 * 65534, BASE, 0, 1, 1],
        ElfError::SegmentOutsideFile(65533),
    ),
    (
        [0, BASE + SIZE, 0, 1, 1],
        ElfError::SegmentOutsideMemory(65533),
    ),
];

#[test]
fn the_last_of_65534_program_headers_is_looked_at(rt: HostRuntime) {
    let mut file = vec![in rt.alloc(); 0; 64 + 56 * 65534].expect(&rt, "memory");
    let last = 64 + 56 * 65533;
    put(&mut file, 0, &GOOD[..64]);
    put(&mut file, 56, &[0xFE, 0xFF]);
    refused(&rt, rt.alloc(), &file, None, 56);
    put(&mut file, last, &[2]);
    refused(&rt, rt.alloc(), &file, Some(ElfError::NeedsLoader), last);
    for (row, (fields, want)) in LAST.iter().enumerate() {
        put_segment(&mut file, last, *fields);
        refused(&rt, rt.alloc(), &file, Some(*want), row);
    }
    put(&mut file, 56, &[0xFF, 0xFF]);
    refused(&rt, rt.alloc(), &file, Some(ElfError::TooManyHeaders), 56);
}

/// What an error says.
fn said(rt: &impl Abort, alloc: Global, error: ElfError) -> String {
    format!(in alloc; "{error}").expect(rt, "memory")
}

#[test]
fn an_error_says_how_to_mend_the_file(rt: HostRuntime) {
    let compressed = said(&rt, rt.alloc(), ElfError::NeedsCompressed);
    assert!(rt; compressed.as_str().contains("-march=rv64im"));
    let outside = said(&rt, rt.alloc(), ElfError::SegmentOutsideMemory(3));
    assert!(rt; outside.as_str().starts_with("program header 3: "));
}
