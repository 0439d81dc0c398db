//! Calls with the redo journal and with shadow paging.
use crate::support::calls::expect_on;
use crate::support::programs::shelf;
use std::alloc::Global;
use std::process::Abort;
use thy_out::MemShelf;

/// The schemes of these tests, by their words.
pub(crate) const JOURNAL: &str = "journal";

pub(crate) const SHADOW: &str = "shadow";

pub(crate) static SCHEMES: [&str; 2] = [JOURNAL, SHADOW];

/// The options of these tests, up to the scheme's word, which follows them: the smallest memory and tables.
pub(crate) const SMALL: &str = "--pages 8 --btt 8 --ptt 8 --scheme";

/// A line: what stands before the scheme's word, the word, and what follows it.
pub(crate) fn line_of(
    rt: &impl Abort,
    alloc: Global,
    before: &str,
    scheme: &str,
    after: &str,
) -> String {
    format!(in alloc; "{before} {scheme}{after}").expect(rt, "memory")
}

/// A call and its outcome: the text before the scheme's word and after it, the status, and the report. Nothing is
/// printed.
pub(crate) type Row = (&'static str, &'static str, u8, &'static str);

/// Calls by a scheme over this shelf.
pub(crate) fn expect_row(
    rt: &impl Abort,
    alloc: Global,
    shelf: &mut MemShelf,
    scheme: &str,
    row: &Row,
) {
    let (before, after, status, report) = *row;
    let line = line_of(rt, alloc, before, scheme, after);
    expect_on(rt, alloc, line.as_str(), shelf, status, report);
}

/// Calls by a scheme, one after the other over one shelf with the files of these tests, which fails at these calls.
pub(crate) fn expect_rows(
    rt: &impl Abort,
    alloc: Global,
    scheme: &str,
    failing: &[u64],
    rows: &[Row],
) {
    let mut shelf = shelf(rt, alloc, failing);
    for row in rows {
        expect_row(rt, alloc, &mut shelf, scheme, row);
    }
}

/// Calls by a scheme over the files of these tests.
fn expect_run(rt: &impl Abort, alloc: Global, scheme: &str, row: &Row) {
    expect_row(rt, alloc, &mut shelf(rt, alloc, &[]), scheme, row);
}

/// Calls by each scheme, each time over the files of these tests.
pub(crate) fn expect_by_each(rt: &impl Abort, alloc: Global, rows: &[Row]) {
    for scheme in &SCHEMES {
        for row in rows {
            expect_run(rt, alloc, scheme, row);
        }
    }
}
