//! Saved images, and refusals of them.
use crate::support::by_scheme::{JOURNAL, Row, SHADOW, expect_row, line_of};
use crate::support::calls::{called, check, expect_on, held};
use crate::support::programs::shelf;
use std::alloc::Global;
use std::process::Abort;
use thy_base::Shelf;
use thy_out::MemShelf;
use thy_test_support::patched;

/// Nine stores that are run and saved: by this scheme under W, by the scheme thynvm under U.
static SAVES: Row = (
    "thynvm run N --pages 8 --btt 8 --ptt 8 --scheme",
    " --save W",
    0,
    "commit 0 overlapped 0\n\
     epoch 1 ends at 8 by exhausted 8 8 1\n\
     commit 1 overlapped 0\n\
     epoch 2 ends at 11 by end\n\
     commit 2 overlapped 0\n\
     exit 0 at 11\n",
);

const SAVES_BY_THYNVM: &str = "thynvm run N --pages 8 --btt 16 --ptt 8 --save U";

const SAVED_BY_THYNVM: &str =
    "commit 0 overlapped 0\nepoch 1 ends at 11 by end\ncommit 1 overlapped 0\nexit 0 at 11\n";

/// A shelf on which they were run and saved.
pub(crate) fn saved(rt: &impl Abort, alloc: Global, scheme: &str) -> MemShelf {
    let mut shelf = shelf(rt, alloc, &[]);
    expect_row(rt, alloc, &mut shelf, scheme, &SAVES);
    expect_on(rt, alloc, SAVES_BY_THYNVM, &mut shelf, 0, SAVED_BY_THYNVM);
    shelf
}

/// The image that stands under W.
pub(crate) fn image(rt: &impl Abort, alloc: Global, scheme: &str) -> Vec<u8> {
    held(rt, alloc, &mut saved(rt, alloc, scheme), "W")
}

/// Images that are resumed with a scheme's word: with the scheme that saved it, and with other sizes.
static RESUMES: [Row; 5] = [
    (
        "thynvm resume W --pages 8 --btt 8 --ptt 8 --scheme",
        "",
        0,
        "restart 2 at 11\nexit 0 at 11\n",
    ),
    (
        "thynvm resume U --pages 8 --btt 16 --ptt 8 --scheme",
        "",
        5,
        "image 4 Geometry\n",
    ),
    (
        "thynvm resume W --pages 16 --btt 8 --ptt 8 --scheme",
        "",
        5,
        "image 4 Geometry\n",
    ),
    (
        "thynvm resume W --pages 8 --btt 16 --ptt 8 --scheme",
        "",
        5,
        "image 4 Geometry\n",
    ),
    (
        "thynvm resume W --pages 8 --btt 8 --ptt 16 --scheme",
        "",
        5,
        "image 4 Geometry\n",
    ),
];

/// Images that are resumed by the scheme thynvm.
static RESUMES_OF_THYNVM: [(&str, u8, &str); 2] = [
    (
        "thynvm resume W --pages 8 --btt 8 --ptt 8",
        5,
        "image 4 Geometry\n",
    ),
    (
        "thynvm resume U --pages 8 --btt 16 --ptt 8",
        0,
        "restart 1 at 11\nexit 0 at 11\n",
    ),
];

/// Resumes an image with the word of another scheme.
static RESUMES_BY_ANOTHER: Row = (
    "thynvm resume W --pages 8 --btt 8 --ptt 8 --scheme",
    "",
    5,
    "image 4 Geometry\n",
);

/// Resumes images after a run by the scheme: with its word, with none, and with the word of another one.
fn resume_all(rt: &impl Abort, alloc: Global, scheme: &str, another: &str) {
    let mut shelf = saved(rt, alloc, scheme);
    for row in &RESUMES {
        expect_row(rt, alloc, &mut shelf, scheme, row);
    }
    for (line, status, report) in &RESUMES_OF_THYNVM {
        expect_on(rt, alloc, line, &mut shelf, *status, report);
    }
    expect_row(rt, alloc, &mut shelf, another, &RESUMES_BY_ANOTHER);
}

#[test]
fn an_image_is_resumed_with_its_scheme(rt: HostRuntime) {
    resume_all(&rt, rt.alloc(), JOURNAL, SHADOW);
    resume_all(&rt, rt.alloc(), SHADOW, JOURNAL);
}

/// Stores an image under X and resumes it by a line, which refuses it with this report.
fn expect_refusal(
    rt: &impl Abort,
    alloc: Global,
    shelf: &mut MemShelf,
    line: &str,
    image: &[u8],
    report: &str,
) {
    check(rt, shelf.put(alloc, "X", image).is_ok(), report);
    expect_on(rt, alloc, line, shelf, 5, report);
}

/// The place of bytes of an image that are other ones, these bytes, and the report.
pub(crate) type Patch = (usize, &'static [u8], &'static str);

/// Refuses an image that has other bytes from a place on.
pub(crate) fn expect_patched(
    rt: &impl Abort,
    alloc: Global,
    shelf: &mut MemShelf,
    line: &str,
    image: &[u8],
    patch: &Patch,
) {
    let (at, bytes, report) = *patch;
    let other = patched(alloc, image, at, bytes).expect(rt, "memory");
    expect_refusal(rt, alloc, shelf, line, other.as_slice(), report);
}

/// The resumption of what stands under X, up to the scheme's word.
const RESUME: &str = "thynvm resume X --pages 8 --btt 8 --ptt 8 --scheme";

/// Refuses an image by its scheme with each of these patches.
pub(crate) fn expect_refused(
    rt: &impl Abort,
    alloc: Global,
    scheme: &str,
    image: &[u8],
    patches: &[Patch],
) {
    let mut shelf = shelf(rt, alloc, &[]);
    let line = line_of(rt, alloc, RESUME, scheme, "");
    for patch in patches {
        expect_patched(rt, alloc, &mut shelf, line.as_str(), image, patch);
    }
}

/// Bytes of the image that are other ones, with the report: header and its words, commit block, and the record of the
/// processor in the first slot.
static PATCHES: [Patch; 10] = [
    (0, b"thyn", "image 2 Header\n"),
    (8, &[1], "image 3 Version\n"),
    (8, &[3], "image 3 Version\n"),
    (40, &[16], "image 4 Geometry\n"),
    (56, &[0], "image 4 Geometry\n"),
    (64, b"THYNCMT1", "image 5 Commit\n"),
    (80, &[1], "image 5 Commit\n"),
    (432, &[3], "image 5 Commit\n"),
    (416, &[3], "image 9 Status\n"),
    (400, &[1, 16], "image 10 ConsoleLength\n"),
];

/// Refuses the image of a scheme with each of them.
fn expect_all_refused(rt: &impl Abort, alloc: Global, scheme: &str) {
    let image = image(rt, alloc, scheme);
    expect_refused(rt, alloc, scheme, image.as_slice(), &PATCHES);
}

#[test]
fn each_refusal_of_an_image_has_its_line(rt: HostRuntime) {
    expect_all_refused(&rt, rt.alloc(), JOURNAL);
    expect_all_refused(&rt, rt.alloc(), SHADOW);
}

/// Refuses a part of an image, or a longer one.
fn expect_at_length(
    rt: &impl Abort,
    alloc: Global,
    shelf: &mut MemShelf,
    line: &str,
    image: &[u8],
    length: usize,
) {
    let part = image.get(..length).unwrap_or(&[]);
    let report = if length < 128 {
        "image 1 Empty\n"
    } else {
        "image 4 Geometry\n"
    };
    check(rt, part.len() == length, report);
    expect_refusal(rt, alloc, shelf, line, part, report);
}

/// Refuses an image at the lengths around the end of a block.
fn expect_around(
    rt: &impl Abort,
    alloc: Global,
    shelf: &mut MemShelf,
    line: &str,
    image: &[u8],
    block: usize,
) {
    let end = block.saturating_mul(64);
    expect_at_length(rt, alloc, shelf, line, image, end.saturating_sub(1));
    expect_at_length(rt, alloc, shelf, line, image, end);
    expect_at_length(rt, alloc, shelf, line, image, end.saturating_add(1));
}

/// Refuses an image of `blocks` blocks at every length up to the slots, and then at the lengths around the end of each
/// block but at its own.
pub(crate) fn expect_at_lengths(rt: &impl Abort, alloc: Global, scheme: &str, blocks: usize) {
    let mut image = image(rt, alloc, scheme);
    image.push(0).expect(rt, "memory");
    let bytes = image.as_slice();
    let mut shelf = shelf(rt, alloc, &[]);
    let line = line_of(rt, alloc, RESUME, scheme, "");
    for length in 0..130 {
        expect_at_length(rt, alloc, &mut shelf, line.as_str(), bytes, length);
    }
    for block in 3..blocks {
        expect_around(rt, alloc, &mut shelf, line.as_str(), bytes, block);
    }
    let end = blocks.saturating_mul(64);
    expect_at_length(
        rt,
        alloc,
        &mut shelf,
        line.as_str(),
        bytes,
        end.saturating_sub(1),
    );
    expect_at_length(
        rt,
        alloc,
        &mut shelf,
        line.as_str(),
        bytes,
        end.saturating_add(1),
    );
}

/// Refuses the image of a scheme with a byte of 255 in its commit block, at each place.
fn expect_no_commit(rt: &impl Abort, alloc: Global, scheme: &str) {
    let image = image(rt, alloc, scheme);
    let mut shelf = shelf(rt, alloc, &[]);
    let line = line_of(rt, alloc, RESUME, scheme, "");
    for place in 64..128 {
        let patch: Patch = (place, &[255], "image 5 Commit\n");
        expect_patched(
            rt,
            alloc,
            &mut shelf,
            line.as_str(),
            image.as_slice(),
            &patch,
        );
    }
}

/// Eight bytes of a name, eight of the epoch, and zeros. With another epoch the record has another one, or it is at or
/// past the ceiling.
#[test]
fn a_commit_block_with_a_byte_of_255_is_none(rt: HostRuntime) {
    expect_no_commit(&rt, rt.alloc(), JOURNAL);
    expect_no_commit(&rt, rt.alloc(), SHADOW);
}

/// A run that is saved at a limit, and resumed.
fn run_in_two(rt: &impl Abort, alloc: Global, scheme: &str, limit: u64) {
    let line = format!(in alloc;
        "thynvm run N --pages 8 --btt 8 --ptt 8 --scheme {scheme} --limit {limit} --tears 7 --save X"
    ).expect(rt, "memory");
    let mut shelf = shelf(rt, alloc, &[]);
    let given = called(rt, alloc, line.as_str(), &mut shelf);
    check(rt, given.status == 8 || given.status == 0, line.as_str());
    let again = line_of(rt, alloc, RESUME, scheme, "");
    let given = called(rt, alloc, again.as_str(), &mut shelf);
    let ends = given.report.as_slice().ends_with(b"\nexit 0 at 11\n");
    check(rt, given.status == 0 && ends, line.as_str());
}

/// A run that is saved at each limit after its loading and before this one.
pub(crate) fn run_in_pieces(rt: &impl Abort, alloc: Global, scheme: &str, end: u64) {
    for limit in 697..end {
        run_in_two(rt, alloc, scheme, limit);
    }
}
