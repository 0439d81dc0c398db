//! The table of accesses: its rows were worked out by hand from the rules of docs/CONTROLLER.md and the places of
//! docs/FORMATS.md.

use crate::accesses::take_name;
use crate::options::{refuse_word, take_options};
use crate::tabled::observe_beside;
use crate::tests::{EXIT_SEVEN, STORES_ONCE, check, ends_with, shelf_of, sink, taken, words_of};
use std::alloc::Global;
use std::process::Abort;
use thy_base::Shelf;
use thy_nvm::MemNvm;
use thy_observe::{Counting, Listing};
use thy_out::{MemShelf, MemSink};

/// The names of the columns.
static HEAD: &str = "cycle\tdevice\taccess\tplace\tcause\n";

/// A run of the program of three instructions.
static RUN: &str = "run F --pages 8 --btt 8 --ptt 8";

/// A call of that run without a table.
static UNTABLED: &str = "thynvm run F --pages 8 --btt 8 --ptt 8";

/// What a call gave.
#[derive(Drop)]
struct Called {
    status: u8,
    report: Vec<u8>,
    /// The bytes under O.
    out: Option<Vec<u8>>,
    /// The bytes under T.
    table: Option<Vec<u8>>,
}

/// What is under a name.
fn put_under(alloc: Global, name: &str, shelf: &mut MemShelf) -> Option<Vec<u8>> {
    match shelf.fetch(alloc, name, 65536) {
        Ok(bytes) => Some(bytes),
        Err(_) => None,
    }
}

/// The status of a call with O and the arguments, options among them, separated by spaces, over this shelf.
fn answered(
    rt: &impl Abort,
    alloc: Global,
    line: &str,
    shelf: &mut MemShelf,
    report: &mut MemSink,
) -> u8 {
    let mut words = words_of(rt, alloc, line);
    let mut terminal = sink(rt, alloc);
    let name = take_name(&mut words);
    let options = match take_options(&mut words) {
        Ok(options) => options,
        Err(wish) => return refuse_word(wish, report),
    };
    let mut nvm = Counting::over(alloc, MemNvm::new(alloc), options.wear);
    let mut again = Listing::over(alloc, MemNvm::new(alloc));
    observe_beside(
        alloc,
        "O",
        &name,
        options,
        &words,
        shelf,
        &mut terminal,
        report,
        &mut nvm,
        &mut again,
    )
}

/// What such a call gave, and has put under O and T.
fn run_line(rt: &impl Abort, alloc: Global, line: &str, shelf: &mut MemShelf) -> Called {
    let mut report = sink(rt, alloc);
    let status = answered(rt, alloc, line, shelf, &mut report);
    let out = put_under(alloc, "O", shelf);
    let table = put_under(alloc, "T", shelf);
    Called {
        status,
        report: taken(rt, alloc, &report),
        out,
        table,
    }
}

/// What such a call gave over a shelf with the program of three instructions, whose calls with these numbers fail.
fn run_once(rt: &impl Abort, alloc: Global, line: &str, failing: &[u64]) -> Called {
    run_line(
        rt,
        alloc,
        line,
        &mut shelf_of(rt, alloc, &EXIT_SEVEN, failing),
    )
}

/// Whether the same is under a name, or nothing.
fn is_same(one: &Option<Vec<u8>>, other: &Option<Vec<u8>>) -> bool {
    match (one, other) {
        (Some(one), Some(other)) => one.as_slice() == other.as_slice(),
        (None, None) => true,
        _ => false,
    }
}

/// Whether nothing was put under O and T.
fn is_nothing(given: &Called) -> bool {
    given.out.is_none() && given.table.is_none()
}

/// Whether the table is there, and is these rows after the names of the columns.
fn has_rows(given: &Called, rows: &str) -> bool {
    match &given.table {
        Some(table) => ends_with(table.as_slice(), HEAD, rows),
        None => false,
    }
}

/// Whether a report is another one, and a line after it.
fn goes_on(report: &[u8], other: &[u8], line: &str) -> bool {
    match std::str::from_utf8(other) {
        Ok(other) => ends_with(report, other, line),
        Err(_) => false,
    }
}

/// What a call with a table of this window gave, over this shelf. Stops the test unless its status is 0 and the table is these
/// rows.
fn listed(
    rt: &impl Abort,
    alloc: Global,
    window: &str,
    command: &str,
    rows: &str,
    shelf: &mut MemShelf,
) -> Called {
    let line = format!(in alloc; "thynvm --accesses T {window} {command}").expect(rt, "memory");
    let given = run_line(rt, alloc, line.as_str(), shelf);
    check(rt, given.status == 0, window);
    check(rt, has_rows(&given, rows), window);
    given
}

/// Windows of the run of the program of three instructions, and their rows. The boot has a drain in every fourth cycle. The
/// three instructions lie in one block, which the first of them reads. The record of the processor, of five blocks, and what a
/// slot has after it come after the homes, the alternate blocks and pages, and slot 0. The last cycle is 722.
static WINDOWS: [(&str, &str); 7] = [
    (
        "--accesses-to 4",
        "1\tnvm\tread\t1\tboot\n2\tnvm\twrite\t16\tboot\n4\tnvm\twrite\t17\tboot\n",
    ),
    (
        "--accesses-from 696 --accesses-to 701",
        "696\tnvm\twrite\t0\tboot\n698\tnvm\twrite\t1\tboot\n701\tnvm\tread\t16\tinstructions\n",
    ),
    (
        "--accesses-to 710 --accesses-from 702",
        "709\tnvm\twrite\t1056\tprocessor\n710\tnvm\twrite\t1057\tprocessor\n",
    ),
    (
        "--accesses-from 714",
        "714\tnvm\twrite\t1060\tprocessor\n716\tnvm\twrite\t1061\ttables\n717\tnvm\twrite\t1062\ttables\n\
         718\tnvm\twrite\t1063\ttables\n721\tnvm\twrite\t1\tcommits\n",
    ),
    // No block is accessed in these cycles.
    ("--accesses-from 702 --accesses-to 708", "none\n"),
    ("--accesses-from 722", "none\n"),
    // There are none from the first to the second.
    ("--accesses-from 5 --accesses-to 4", "none\n"),
];

/// Stops the test unless a window of that run has these rows, and all else is as without a table.
fn lists(rt: &impl Abort, alloc: Global, window: &str, rows: &str, plain: &Called) {
    let mut shelf = shelf_of(rt, alloc, &EXIT_SEVEN, &[]);
    let given = listed(rt, alloc, window, RUN, rows, &mut shelf);
    let is_reported = given.report.as_slice() == plain.report.as_slice();
    check(rt, is_reported, window);
    check(rt, is_same(&given.out, &plain.out), window);
}

#[test]
fn a_table_has_each_access_of_its_window(rt: HostRuntime) {
    let alloc = rt.alloc();
    let plain = run_once(&rt, alloc, UNTABLED, &[]);
    check(&rt, plain.status == 0 && plain.table.is_none(), UNTABLED);
    for (window, rows) in &WINDOWS {
        lists(&rt, alloc, window, rows, &plain);
    }
}

/// Runs of the program that stores once, windows of them, and their rows. The block that is stored is the 65th of memory. By
/// thynvm it goes to the first alternate block, after the 512 homes. By the redo journal it goes into a buffer in the DRAM,
/// from there into the first block of the journal of slot 1, and after the commit home, which no other cycle than 721 does.
static STORED: [(&str, &str, &str); 3] = [
    (
        "--accesses-from 701 --accesses-to 709",
        "run F --pages 8 --btt 8 --ptt 8 --epoch 2",
        "701\tnvm\tread\t16\tinstructions\n706\tnvm\tread\t80\tinstructions\n709\tnvm\twrite\t528\tflushes\n",
    ),
    (
        "--accesses-from 697 --accesses-to 707",
        "run F --pages 8 --btt 8 --epoch 2 --scheme journal",
        "697\tnvm\tread\t14\tinstructions\n702\tnvm\tread\t78\tinstructions\n707\tnvm\twrite\t534\tcopies\n",
    ),
    (
        "--accesses-from 719 --accesses-to 722",
        "run F --pages 8 --btt 8 --epoch 2 --scheme journal",
        "721\tnvm\twrite\t78\thomes\n",
    ),
];

/// Stops the test unless a run of this program has these rows in a window.
fn stores(rt: &impl Abort, alloc: Global, window: &str, command: &str, rows: &str) {
    let mut shelf = shelf_of(rt, alloc, &STORES_ONCE, &[]);
    let _given = listed(rt, alloc, window, command, rows, &mut shelf);
}

#[test]
fn a_block_is_stored_where_its_scheme_has_it(rt: HostRuntime) {
    for (window, command, rows) in &STORED {
        stores(&rt, rt.alloc(), window, command, rows);
    }
}

/// The rows of a recovery and of the first fill after it: the commit block, the header, and the eight blocks of slot 0. With
/// the last one the checkpoint is restored, and the simulator reads memory for its report.
static RECOVERED: &str =
    "1\tnvm\tread\t1\tboot\n2\tnvm\tread\t0\tboot\n3\tnvm\tread\t1048\tboot\n4\tnvm\tread\t1049\tboot\n\
    5\tnvm\tread\t1050\tboot\n6\tnvm\tread\t1051\tboot\n7\tnvm\tread\t1052\tboot\n8\tnvm\tread\t1053\tboot\n\
    9\tnvm\tread\t1054\tboot\n10\tnvm\tread\t1055\tboot\n11\tnvm\tread\t16\tinstructions\n";

#[test]
fn a_recovery_has_no_read_of_the_simulator(rt: HostRuntime) {
    let alloc = rt.alloc();
    let mut shelf = shelf_of(&rt, alloc, &EXIT_SEVEN, &[]);
    let line = "thynvm run F --pages 8 --btt 8 --ptt 8 --limit 704 --save I";
    let saved = run_line(&rt, alloc, line, &mut shelf);
    check(&rt, saved.status == 8, line);
    let window = "--accesses-to 14";
    let command = "resume I --pages 8 --btt 8 --ptt 8";
    let _given = listed(&rt, alloc, window, command, RECOVERED, &mut shelf);
}

/// Calls with a table that are refused, and their reports.
static NO_TABLES: [(&str, &str); 18] = [
    ("thynvm --accesses", "usage\n"),
    ("thynvm --accesses T", "usage\n"),
    ("thynvm --accesses O run F", "usage\n"),
    ("thynvm --accesses F run F", "usage\n"),
    ("thynvm --accesses T run F --save T", "usage\n"),
    ("thynvm --accesses T run F --input T", "usage\n"),
    ("thynvm --accesses T plain F", "usage\n"),
    ("thynvm --accesses T compare F", "usage\n"),
    ("thynvm --accesses T run F --pages 8 --cuts 705", "usage\n"),
    ("thynvm --accesses T run F --pages 8 --gap 5", "usage\n"),
    ("thynvm --accesses T --accesses T run F", "usage\n"),
    (
        "thynvm --accesses T --accesses-to 1 --accesses-to 1 run F",
        "usage\n",
    ),
    ("thynvm --accesses-from 1 run F", "usage\n"),
    ("thynvm --accesses-to 1 run F", "usage\n"),
    ("thynvm --accesses-to 1 --accesses T run F", "usage\n"),
    ("thynvm run F --accesses T", "usage\n"),
    (
        "thynvm --accesses T --accesses-from x run F",
        "word accesses-from\n",
    ),
    (
        "thynvm --accesses T --accesses-to -1 run F",
        "word accesses-to\n",
    ),
];

/// Calls, and compares the report; nothing is put.
fn refuses(rt: &impl Abort, alloc: Global, line: &str, report: &str) {
    let given = run_once(rt, alloc, line, &[]);
    check(rt, given.status == 2 && is_nothing(&given), line);
    check(rt, given.report.as_slice() == report.as_bytes(), line);
}

#[test]
fn a_table_is_refused_without_a_name_or_a_machine(rt: HostRuntime) {
    for (line, report) in &NO_TABLES {
        refuses(&rt, rt.alloc(), line, report);
    }
}

#[test]
fn a_table_that_cannot_be_put_is_reported(rt: HostRuntime) {
    let alloc = rt.alloc();
    let plain = run_once(&rt, alloc, UNTABLED, &[]);
    // The file is read, and then the table is not put. After that the run is observed.
    let line = "thynvm --accesses T run F --pages 8 --btt 8 --ptt 8";
    let given = run_once(&rt, alloc, line, &[2]);
    check(&rt, given.status == 3 && given.table.is_none(), line);
    let reports = goes_on(
        given.report.as_slice(),
        plain.report.as_slice(),
        "put T failed\n",
    );
    check(&rt, reports, line);
    check(&rt, is_same(&given.out, &plain.out), line);
    // A file that cannot be read has no table and no run.
    let line = "thynvm --accesses T run G --pages 8";
    let given = run_once(&rt, alloc, line, &[]);
    check(&rt, given.status == 3 && is_nothing(&given), line);
}
