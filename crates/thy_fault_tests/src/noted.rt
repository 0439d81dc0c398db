//! Calls on a shelf that records under which names its calls failed.
use crate::support::calls::{called_over, check, compare};
use crate::support::naming::NamingShelf;
use crate::support::programs::shelf;
use std::alloc::Global;
use std::process::Abort;
use thy_nvm::MemNvm;

/// Calls with the arguments on a shelf whose call of this number fails, the first being 1; and compares the report,
/// and under which name the shelf failed.
fn expect_noted(
    rt: &impl Abort,
    alloc: Global,
    line: &str,
    failing: u64,
    report: &str,
    name: &str,
) {
    let mut shelf = NamingShelf::new(alloc, shelf(rt, alloc, &[failing]));
    let given = called_over(rt, alloc, line, &mut shelf, &mut MemNvm::new(alloc));
    compare(rt, line, &given, 3, "", report);
    let noted = shelf.failed();
    check(rt, noted.len() == 1 && noted[0].as_str() == name, line);
}

#[test]
fn a_failed_fetch_of_the_file_has_its_name(rt: HostRuntime) {
    let alloc = rt.alloc();
    for line in ["thynvm run F --input S", "thynvm plain F --input S"] {
        expect_noted(&rt, alloc, line, 1, "fetch F failed\n", "F");
    }
}

#[test]
fn a_failed_fetch_of_the_input_has_its_name(rt: HostRuntime) {
    let alloc = rt.alloc();
    for line in ["thynvm run F --input S", "thynvm plain F --input S"] {
        expect_noted(&rt, alloc, line, 2, "fetch S failed\n", "S");
    }
}

#[test]
fn a_failed_put_has_its_name(rt: HostRuntime) {
    let alloc = rt.alloc();
    expect_noted(&rt, alloc, "thynvm make 7 D", 1, "put D failed\n", "D");
    let line = "thynvm run F --pages 8 --btt 8 --ptt 8 --limit 1 --save D";
    expect_noted(&rt, alloc, line, 2, "put D failed\n", "D");
}
