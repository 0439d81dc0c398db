//! Saved images of shadow paging, and refusals of their map.
use crate::schemes::images::{
    Patch, expect_at_lengths, expect_patched, expect_refused, image, run_in_pieces,
};
use crate::support::by_scheme::SHADOW;
use crate::support::calls::{called, check, held};
use crate::support::programs::shelf;

/// The offset of the map of the first slot in bytes, and its eight words. The first checkpoint wrote page 6 to page 8 of the
/// pool, which was the lowest that was free, and so the second one to page 6, which that had freed.
const MAP: usize = 448;

static WORDS: [u8; 64] = [
    1, 0, 0, 0, 0, 0, 0, 0, 2, 0, 0, 0, 0, 0, 0, 0, 3, 0, 0, 0, 0, 0, 0, 0, 4, 0, 0, 0, 0, 0, 0, 0,
    5, 0, 0, 0, 0, 0, 0, 0, 6, 0, 0, 0, 0, 0, 0, 0, 7, 0, 0, 0, 0, 0, 0, 0, 8, 0, 0, 0, 0, 0, 0, 0,
];

/// Bytes of the image that are other ones, with the report: the scheme's number in the header, and the map after the
/// record of the processor in the first slot. The pool has 16 pages.
static PATCHES: [Patch; 5] = [
    (56, &[1], "image 4 Geometry\n"),
    (448, &[0], "image 6 TableIndex 0\n"),
    (504, &[17], "image 6 TableIndex 7\n"),
    (456, &[1], "image 7 TableTwice 0 1\n"),
    (504, &[6], "image 7 TableTwice 5 7\n"),
];

#[test]
fn each_refusal_of_a_map_has_its_line(rt: HostRuntime) {
    let alloc = rt.alloc();
    let image = image(&rt, alloc, SHADOW);
    let is_first = image.get(MAP..MAP + 64) == Some(WORDS.as_slice());
    check(&rt, image.len() == 64 * 1038 && is_first, "the map");
    expect_refused(&rt, alloc, SHADOW, image.as_slice(), &PATCHES);
}

/// With nine pages the map has two blocks, and its words after the ninth list no page. The pool has 17 pages.
static PAST_THE_LAST: [Patch; 3] = [
    (512, &[18], "image 6 TableIndex 8\n"),
    (520, &[1], "image 6 TableIndex 9\n"),
    (568, &[1], "image 6 TableIndex 15\n"),
];

#[test]
fn a_map_lists_nothing_past_the_last_page(rt: HostRuntime) {
    let alloc = rt.alloc();
    let mut shelf = shelf(&rt, alloc, &[]);
    let line = "thynvm run N --pages 9 --btt 8 --ptt 8 --scheme shadow --save W";
    let given = called(&rt, alloc, line, &mut shelf);
    check(&rt, given.status == 0, line);
    let image = held(&rt, alloc, &mut shelf, "W");
    let line = "thynvm resume X --pages 9 --btt 8 --ptt 8 --scheme shadow";
    for patch in &PAST_THE_LAST {
        expect_patched(&rt, alloc, &mut shelf, line, image.as_slice(), patch);
    }
}

/// The image has 1038 blocks.
#[test]
fn an_image_is_refused_at_every_length_but_its_own(rt: HostRuntime) {
    expect_at_lengths(&rt, rt.alloc(), SHADOW, 1038);
}

/// The limits are in cycles of the copies, of the first commit and after it.
#[test]
fn a_run_in_pieces_ends_as_one_run(rt: HostRuntime) {
    run_in_pieces(&rt, rt.alloc(), SHADOW, 880);
}
