//! Saved images of the journal, and refusals of their table.
use crate::schemes::images::{Patch, expect_at_lengths, expect_refused, image, run_in_pieces};
use crate::support::by_scheme::JOURNAL;
use crate::support::calls::check;

/// The offset of the table of the first slot in bytes, and its first entry: block 436, which the ninth store is to.
const TABLE: usize = 448;

static ENTRY: [u8; 8] = [0xb5, 0x01, 0, 0, 0, 0, 0, 0];

/// Bytes of the image that are other ones, with the report: the scheme's number in the header, and the table after the
/// record of the processor in the first slot.
static PATCHES: [Patch; 4] = [
    (56, &[2], "image 4 Geometry\n"),
    (456, &[1, 2], "image 6 TableIndex 1\n"),
    (
        456,
        &[0xb5, 0x01, 0, 0, 0, 0, 0, 0],
        "image 7 TableTwice 0 1\n",
    ),
    (448, &[1, 2], "image 6 TableIndex 0\n"),
];

#[test]
fn each_refusal_of_a_table_has_its_line(rt: HostRuntime) {
    let alloc = rt.alloc();
    let image = image(&rt, alloc, JOURNAL);
    let is_first = image.get(TABLE..TABLE + 8) == Some(ENTRY.as_slice());
    check(&rt, image.len() == 64 * 542 && is_first, "the table");
    expect_refused(&rt, alloc, JOURNAL, image.as_slice(), &PATCHES);
}

/// The image has 542 blocks.
#[test]
fn an_image_is_refused_at_every_length_but_its_own(rt: HostRuntime) {
    expect_at_lengths(&rt, rt.alloc(), JOURNAL, 542);
}

/// The limits are in cycles of the first commit and of the application after it.
#[test]
fn a_run_in_pieces_ends_as_one_run(rt: HostRuntime) {
    run_in_pieces(&rt, rt.alloc(), JOURNAL, 770);
}
