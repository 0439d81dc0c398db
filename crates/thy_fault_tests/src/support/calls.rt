//! Calls over memory: what is reported, and with which status.
use crate::support::programs::shelf;
use std::alloc::Global;
use std::process::Abort;
use thy_base::{Nvm, Shelf};
use thy_cli::thynvm;
use thy_nvm::MemNvm;
use thy_out::MemShelf;
use thy_test_support::{Given, arguments_of, sink};

/// Calls with the arguments of a line over any shelf, over this device, and over a terminal that fails at these calls.
pub(crate) fn called_unseen<R: Abort, H: Shelf, N: Nvm>(
    rt: &R,
    alloc: Global,
    line: &str,
    shelf: &mut H,
    nvm: &mut N,
    unseen: &[u64],
) -> Given {
    let arguments = arguments_of(alloc, line).expect(rt, "memory");
    let mut terminal = sink(alloc, unseen).expect(rt, "memory");
    let mut report = sink(alloc, &[]).expect(rt, "memory");
    let answer = thynvm(alloc, &arguments, shelf, &mut terminal, &mut report, nvm);
    Given::of(alloc, answer.status, answer.cycles, &terminal, &report).expect(rt, "memory")
}

/// Calls with the arguments of a line over any shelf and over this device.
pub(crate) fn called_over<R: Abort, H: Shelf, N: Nvm>(
    rt: &R,
    alloc: Global,
    line: &str,
    shelf: &mut H,
    nvm: &mut N,
) -> Given {
    called_unseen(rt, alloc, line, shelf, nvm, &[])
}

/// Calls with the arguments of a line over this shelf.
pub(crate) fn called(rt: &impl Abort, alloc: Global, line: &str, shelf: &mut MemShelf) -> Given {
    called_over(rt, alloc, line, shelf, &mut MemNvm::new(alloc))
}

/// Calls with the arguments of a line over the files of these tests.
pub(crate) fn ran(rt: &impl Abort, alloc: Global, line: &str) -> Given {
    called(rt, alloc, line, &mut shelf(rt, alloc, &[]))
}

/// Stops the test unless this holds of a row, which `at` names.
pub(crate) fn check(rt: &impl Abort, holds: bool, at: &str) {
    assert!(rt; holds, "{at}");
}

/// Compares what a call gave with a status, what the terminal takes, and a report.
pub(crate) fn compare(
    rt: &impl Abort,
    at: &str,
    given: &Given,
    status: u8,
    printed: &str,
    report: &str,
) {
    check(rt, given.shows(status, printed, report), at);
}

/// Calls over this shelf and compares status and report; nothing is printed.
pub(crate) fn expect_on(
    rt: &impl Abort,
    alloc: Global,
    line: &str,
    shelf: &mut MemShelf,
    status: u8,
    report: &str,
) {
    let given = called(rt, alloc, line, shelf);
    compare(rt, line, &given, status, "", report);
}

/// Calls over the files of these tests and compares status and report; nothing is printed.
pub(crate) fn expect(rt: &impl Abort, alloc: Global, line: &str, status: u8, report: &str) {
    expect_on(rt, alloc, line, &mut shelf(rt, alloc, &[]), status, report);
}

/// What a shelf has under a name.
pub(crate) fn held(rt: &impl Abort, alloc: Global, shelf: &mut MemShelf, name: &str) -> Vec<u8> {
    match shelf.fetch(alloc, name, 67_108_864) {
        Ok(bytes) => bytes,
        Err(_) => rt.abort(),
    }
}

/// A device that fails at one call: the call does nothing, or if it fails late it is done, a barrier by half.
pub(crate) fn failing_at(rt: &impl Abort, alloc: Global, call: u64, is_late: bool) -> MemNvm {
    let nvm = if is_late {
        MemNvm::late(alloc, &[call])
    } else {
        MemNvm::failing(alloc, &[call])
    };
    nvm.expect(rt, "memory")
}
