//! Program files and images that are cut short or have a field at its end, and files that are too long: each is refused by
//! its line.
use crate::support::calls::{called, check, compare, expect_on, held};
use crate::support::expect::expect_at;
use crate::support::programs::{files, shelf};
use std::alloc::Global;
use std::process::Abort;
use thy_base::{Geometry, Parameters};
use thy_layout::BadImage;
use thy_out::MemShelf;
use thy_test_support::{EXIT_SEVEN, SMALLEST, geometry_of, hold, patched, shelf_of};

/// Runs a file alone by a line, and compares status and report; nothing is printed.
pub(crate) fn expect_file(
    rt: &impl Abort,
    alloc: Global,
    line: &str,
    file: &[u8],
    status: u8,
    report: &str,
    at: &str,
) {
    let mut shelf = shelf_of(alloc, &[], &[("F", file)]).expect(rt, "memory");
    let given = called(rt, alloc, line, &mut shelf);
    compare(rt, at, &given, status, "", report);
}

/// Runs a first part of the program file, which is refused by the part of the file that is missing. It begins with a header
/// of 64 bytes and one program header of 56, and then has 12 bytes of its segment.
fn expect_part(rt: &impl Abort, alloc: Global, line: &str, length: usize) {
    let report = if length < 64 {
        "file 1 TooShort\n"
    } else if length < 120 {
        "file 13 HeadersOutside\n"
    } else {
        "file 16 SegmentOutsideFile 0\n"
    };
    let at = format!(in alloc; "{length} bytes").expect(rt, "memory");
    let part = EXIT_SEVEN.get(..length).unwrap_or(&[]);
    check(rt, part.len() == length, at.as_str());
    expect_file(rt, alloc, line, part, 4, report, at.as_str());
}

/// Runs the program file by a line, at every length.
pub(crate) fn expect_at_lengths(rt: &impl Abort, alloc: Global, line: &str) {
    for length in 0..132 {
        expect_part(rt, alloc, line, length);
    }
    let report =
        "commit 0 overlapped 0\nepoch 1 ends at 3 by end\ncommit 1 overlapped 0\nexit 7 at 3\n";
    expect_file(rt, alloc, line, &EXIT_SEVEN, 0, report, "132 bytes");
}

/// A run of F in the smallest memory.
const RUN: &str = "thynvm run F --pages 8 --btt 8 --ptt 8";

#[test]
fn a_program_file_is_refused_at_every_length_but_its_own(rt: HostRuntime) {
    expect_at_lengths(&rt, rt.alloc(), RUN);
}

/// Runs the program file by a line with other bytes from a place on, and compares status and report.
pub(crate) fn expect_patched(
    rt: &impl Abort,
    alloc: Global,
    line: &str,
    place: usize,
    bytes: &[u8],
    status: u8,
    report: &str,
) {
    let file = patched(alloc, &EXIT_SEVEN, place, bytes).expect(rt, "memory");
    expect_file(rt, alloc, line, file.as_slice(), status, report, report);
}

/// Fields of the program file at their ends: e_phoff; p_vaddr; e_phentsize and e_phnum, without which memory is all zeros,
/// and its first word no instruction.
pub(crate) fn expect_fields(rt: &impl Abort, alloc: Global, line: &str) {
    let most = u64::MAX.to_le_bytes();
    let report = "file 13 HeadersOutside\n";
    expect_patched(rt, alloc, line, 32, &most, 4, report);
    let report = "file 17 SegmentOutsideMemory 0\n";
    expect_patched(rt, alloc, line, 80, &most, 4, report);
    let report =
        "commit 0 overlapped 0\nepoch 1 ends at 1 by end\ncommit 1 overlapped 0\ntrap 2 at 1\n";
    expect_patched(rt, alloc, line, 54, &[0; 4], 1, report);
}

#[test]
fn a_program_file_has_fields_at_their_ends(rt: HostRuntime) {
    expect_fields(&rt, rt.alloc(), RUN);
}

/// The smallest memory and tables, with all else as it is by default.
static NUMBERS: Parameters = Parameters {
    limit: 1_000_000_000,
    ..SMALLEST
};

/// An image has 1064 blocks of 64 bytes: header, commit block, 14 that are unused, 512 homes, 8 alternate blocks, 8
/// alternate pages of 64, and two slots of 8.
const IMAGE_SIZE: usize = 68_096;

/// Epochs and counts of an image in a file are below this.
const CEILING: u64 = 1 << 62;

/// The image that the program of nine stores leaves.
fn image(rt: &impl Abort, alloc: Global) -> Vec<u8> {
    let mut shelf = shelf(rt, alloc, &[]);
    let line = "thynvm run N --pages 8 --btt 8 --ptt 8 --save I";
    let given = called(rt, alloc, line, &mut shelf);
    check(rt, given.status == 0, line);
    held(rt, alloc, &mut shelf, "I")
}

/// What a part of an image is refused for, by its length.
fn refusal_of(length: usize) -> BadImage {
    if length < 128 {
        BadImage::Empty
    } else {
        BadImage::Geometry
    }
}

/// Whether a part of an image is refused.
fn expect_refused(rt: &impl Abort, part: &[u8], geometry: &Geometry) {
    let length = part.len();
    let found = thy_record::check(part, geometry, CEILING);
    expect_at(rt, found, Err(refusal_of(length)), length);
}

#[test]
fn an_image_is_refused_at_every_length_but_its_own(rt: HostRuntime) {
    let alloc = rt.alloc();
    let geometry = geometry_of(alloc, &NUMBERS).expect(&rt, "numbers in range");
    let image = image(&rt, alloc);
    check(&rt, image.len() == IMAGE_SIZE, "the image's length");
    for (length, _) in image.iter().enumerate() {
        expect_refused(&rt, &image[..length], &geometry);
    }
}

/// Resumes an image in the smallest memory, and compares status and report.
fn expect_resumed(
    rt: &impl Abort,
    alloc: Global,
    image: &[u8],
    status: u8,
    report: &str,
    at: usize,
) {
    let at = format!(in alloc; "byte {at}").expect(rt, "memory");
    let mut shelf = shelf_of(alloc, &[], &[("I", image)]).expect(rt, "memory");
    let line = "thynvm resume I --pages 8 --btt 8 --ptt 8";
    let given = called(rt, alloc, line, &mut shelf);
    compare(rt, at.as_str(), &given, status, "", report);
}

/// Lengths at which an image, and a byte more, is refused, with the report.
static LENGTHS: [(usize, &str); 6] = [
    (0, "image 1 Empty\n"),
    (1, "image 1 Empty\n"),
    (127, "image 1 Empty\n"),
    (128, "image 4 Geometry\n"),
    (IMAGE_SIZE - 1, "image 4 Geometry\n"),
    (IMAGE_SIZE + 1, "image 4 Geometry\n"),
];

#[test]
fn an_image_of_another_length_has_its_line(rt: HostRuntime) {
    let alloc = rt.alloc();
    let mut image = image(&rt, alloc);
    let report = "restart 3 at 11\nexit 0 at 11\n";
    expect_resumed(&rt, alloc, &image, 0, report, IMAGE_SIZE);
    image.push(0).expect(&rt, "memory");
    for (length, report) in &LENGTHS {
        let part = image.get(..*length).unwrap_or(&[]);
        expect_resumed(&rt, alloc, part, 5, report, *length);
    }
}

/// Resumes an image with another byte at this place, and compares status and report.
fn expect_changed(
    rt: &impl Abort,
    alloc: Global,
    image: &[u8],
    place: usize,
    byte: u8,
    status: u8,
    report: &str,
) {
    let mut image = Vec::from_slice(alloc, image).expect(rt, "memory");
    if let Some(old) = image.get_mut(place) {
        *old = byte;
    }
    expect_resumed(rt, alloc, &image, status, report, place);
}

/// Eight bytes of a name, eight of the epoch, and zeros. With another epoch the record has another one, or it is at or
/// past the ceiling.
#[test]
fn a_commit_block_with_a_byte_of_255_is_none(rt: HostRuntime) {
    let alloc = rt.alloc();
    let image = image(&rt, alloc);
    for place in 64..128 {
        expect_changed(&rt, alloc, &image, place, 255, 5, "image 5 Commit\n");
    }
}

/// Slot 1 has a record of five blocks, a block of each table and one of counts, which is the image's last, from byte
/// 68,032 on. Byte p of it is page p's count, up to 63; those past page 7 are zeros.
static COUNTS: [(usize, u8, u8, &str); 5] = [
    (68_032, 63, 0, "restart 3 at 11\nexit 0 at 11\n"),
    (68_032, 64, 5, "image 11 Count 0\n"),
    (68_039, 255, 5, "image 11 Count 7\n"),
    (68_040, 1, 5, "image 11 Count 8\n"),
    (68_095, 1, 5, "image 11 Count 63\n"),
];

#[test]
fn a_count_that_no_page_has_is_refused_by_its_place(rt: HostRuntime) {
    let alloc = rt.alloc();
    let image = image(&rt, alloc);
    for (place, count, status, report) in &COUNTS {
        expect_changed(&rt, alloc, &image, *place, *count, *status, report);
    }
}

/// Lines that fetch a file that is too long by a byte, under L.
static TOO_LONG: [&str; 4] = [
    "thynvm run L",
    "thynvm plain L",
    "thynvm run F --input L",
    "thynvm plain F --input L",
];

#[test]
fn a_file_that_is_too_long_is_refused_by_its_name(rt: HostRuntime) {
    let alloc = rt.alloc();
    let mut files = files(&rt, alloc);
    let long = Vec::from_elem(alloc, 0u8, 67_108_865).expect(&rt, "memory");
    hold(alloc, &mut files, "L", long).expect(&rt, "memory");
    let mut shelf = MemShelf::new(files, Vec::new(alloc));
    for line in &TOO_LONG {
        expect_on(&rt, alloc, line, &mut shelf, 3, "fetch L too long\n");
    }
}
