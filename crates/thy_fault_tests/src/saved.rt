//! Runs that are saved and resumed.
use crate::support::calls::{called, check, expect_on, held};
use crate::support::programs::shelf;
use std::alloc::Global;
use std::process::Abort;
use thy_base::Shelf;
use thy_out::MemShelf;
use thy_test_support::{GREET, Given, shelf_of};

/// A line with status and report; nothing is printed.
type Row = (&'static str, u8, &'static str);

/// Calls on the shelf, line by line, and compares status and report.
fn expect_rows(rt: &impl Abort, alloc: Global, shelf: &mut MemShelf, rows: &[Row]) {
    for (line, status, report) in rows {
        expect_on(rt, alloc, line, shelf, *status, report);
    }
}

/// The offset of the second slot's block table in bytes, and its first entry: block 436.
const TABLE: usize = 67_904;

static ENTRY: [u8; 8] = [0xb5, 0x01, 0, 0, 0, 0, 0, 0];

/// A run that is saved, and its image resumed with the same parameters and with another one.
static SAVED: [Row; 3] = [
    (
        "thynvm run N --pages 8 --btt 8 --ptt 8 --save D",
        0,
        "commit 0 overlapped 0\n\
         epoch 1 ends at 8 by exhausted 8 8 1\n\
         commit 1 overlapped 0\n\
         epoch 2 ends at 8 by exhausted 0 0 1\n\
         commit 2 overlapped 0\n\
         epoch 3 ends at 11 by end\n\
         commit 3 overlapped 0\n\
         exit 0 at 11\n",
    ),
    (
        "thynvm resume D --pages 8 --btt 8 --ptt 8",
        0,
        "restart 3 at 11\nexit 0 at 11\n",
    ),
    (
        "thynvm resume D --pages 16 --btt 8 --ptt 8",
        5,
        "image 4 Geometry\n",
    ),
];

/// An image whose second slot's block table lists one block twice.
fn listed_twice(rt: &impl Abort, mut image: Vec<u8>) -> Vec<u8> {
    check(
        rt,
        image.get(TABLE..TABLE + 8) == Some(ENTRY.as_slice()),
        "the table",
    );
    for (i, byte) in ENTRY.iter().enumerate() {
        if let Some(place) = image.get_mut(TABLE + 8 + i) {
            *place = *byte;
        }
    }
    image
}

#[test]
fn a_saved_run_stands_on_the_shelf_and_is_resumed(rt: HostRuntime) {
    let alloc = rt.alloc();
    let mut shelf = shelf(&rt, alloc, &[]);
    expect_rows(&rt, alloc, &mut shelf, &SAVED);
    let image = held(&rt, alloc, &mut shelf, "D");
    let image = listed_twice(&rt, image);
    let is_put = shelf.put(alloc, "T", image.as_slice()).is_ok();
    check(&rt, is_put, "T");
    let line = "thynvm resume T --pages 8 --btt 8 --ptt 8";
    expect_on(&rt, alloc, line, &mut shelf, 5, "image 7 TableTwice 0 1\n");
}

/// A program that has read four bytes is resumed with each of its inputs and with none; names that no image is under.
static READ: [Row; 7] = [
    (
        "thynvm run R --input A --save D",
        0,
        "commit 0 overlapped 0\nepoch 1 ends at 6 by end\ncommit 1 overlapped 0\nexit 4 at 6\n",
    ),
    ("thynvm resume D --input B", 10, "input 4 2\n"),
    (
        "thynvm resume D --input A",
        0,
        "restart 1 at 6\nexit 4 at 6\n",
    ),
    ("thynvm resume D", 10, "input 4 0\n"),
    ("thynvm resume X", 3, "fetch X missing\n"),
    ("thynvm resume A", 5, "image 1 Empty\n"),
    ("thynvm resume A --input X", 3, "fetch X missing\n"),
];

#[test]
fn a_resumed_program_wants_the_input_that_it_has_read(rt: HostRuntime) {
    let alloc = rt.alloc();
    expect_rows(&rt, alloc, &mut shelf(&rt, alloc, &[]), &READ);
}

static NO_CHECKPOINT: [Row; 2] = [
    ("thynvm run R --limit 10 --save D", 8, "limit 10\n"),
    ("thynvm resume D", 5, "image 1 Empty\n"),
];

#[test]
fn a_run_that_has_no_checkpoint_is_saved_as_an_empty_image(rt: HostRuntime) {
    let alloc = rt.alloc();
    expect_rows(&rt, alloc, &mut shelf(&rt, alloc, &[]), &NO_CHECKPOINT);
}

static NOT_PUT: [Row; 2] = [
    (
        "thynvm run R --save D",
        3,
        "commit 0 overlapped 0\nepoch 1 ends at 6 by end\ncommit 1 overlapped 0\nexit 0 at 6\nput D failed\n",
    ),
    ("thynvm run R --save D --limit 10", 3, "put D failed\n"),
];

/// The second and the fourth call of the shelf save an image, each after the fetch of the program.
#[test]
fn a_save_that_is_not_put_has_its_line(rt: HostRuntime) {
    let alloc = rt.alloc();
    expect_rows(&rt, alloc, &mut shelf(&rt, alloc, &[2, 4]), &NOT_PUT);
}

/// What a report ends with: the end, and the digest of memory at it.
fn last_lines<'a>(report: &'a [u8], first: &str) -> Option<&'a str> {
    let text = std::str::from_utf8(report).ok()?;
    let at = text.find(first)?;
    text.get(at..)
}

/// A run that is saved after 900 cycles, and the line that resumes it for 900 more.
const FIRST_PIECE: &str =
    "thynvm run G --input W --pages 8 --btt 8 --ptt 8 --epoch 100 --limit 900 --save D --digest";

const NEXT_PIECE: &str =
    "thynvm resume D --input W --pages 8 --btt 8 --ptt 8 --epoch 100 --limit 900 --save D --digest";

/// Runs in pieces up to its end, in at most 41 of them.
fn in_pieces(rt: &impl Abort, alloc: Global, shelf: &mut MemShelf) -> Given {
    let mut given = called(rt, alloc, FIRST_PIECE, shelf);
    check(rt, given.status == 8, FIRST_PIECE);
    for _ in 0..40 {
        if given.status == 8 {
            given = called(rt, alloc, NEXT_PIECE, shelf);
        }
    }
    check(rt, given.status == 0, NEXT_PIECE);
    given
}

#[test]
fn a_run_in_pieces_ends_as_one_run(rt: HostRuntime) {
    let alloc = rt.alloc();
    let mut shelf = shelf_of(alloc, &[("G", GREET)], &[("W", b"World\n")]).expect(&rt, "memory");
    let line = "thynvm plain G --input W --pages 8 --digest";
    let plain = called(&rt, alloc, line, &mut shelf);
    check(&rt, plain.status == 0, line);
    let given = in_pieces(&rt, alloc, &mut shelf);
    check(&rt, given.printed == plain.printed, line);
    let end = last_lines(plain.report.as_slice(), "exit ");
    let is_same = last_lines(given.report.as_slice(), "exit ") == end;
    check(&rt, end.is_some() && is_same, line);
}
