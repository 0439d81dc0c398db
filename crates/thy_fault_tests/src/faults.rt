//! Runs whose NVM fails at one call: they stop there, are saved, and resume over a device that does not fail.
use crate::support::calls::{called, called_over, check, failing_at, ran};
use crate::support::programs::shelf;
use std::alloc::Global;
use std::process::Abort;
use thy_nvm::MemNvm;
use thy_out::MemShelf;
use thy_test_support::Given;

/// A run in the smallest memory that exits: its options, those that a run which resumes does not have, what is left by
/// the cuts among these, and its report.
struct Case {
    program: &'static str,
    options: &'static str,
    once: &'static str,
    tears: &'static str,
    report: &'static str,
}

static EXITS_WITH_SEVEN: Case = Case {
    program: "F",
    options: "",
    once: "",
    tears: "",
    report: "commit 0 overlapped 0\nepoch 1 ends at 3 by end\ncommit 1 overlapped 0\nexit 7 at 3\n",
};

/// The commit block of the checkpoint of epoch 1 does not land. The digests are by another program.
static RESTARTS: Case = Case {
    program: "F",
    options: "",
    once: " --cuts 721 --digest",
    tears: "0,",
    report: "commit 0 overlapped 0\n\
             epoch 1 ends at 3 by end\n\
             cut 1 at cycle 721\n\
             restart 0 at 0\n\
             memory 6deb2f4354900ff2a9411931cbbb227b278920c0a05d7246af55f9487e46505f\n\
             epoch 1 ends at 3 by end\n\
             commit 1 overlapped 0\n\
             exit 7 at 3\n\
             memory 6deb2f4354900ff2a9411931cbbb227b278920c0a05d7246af55f9487e46505f\n",
};

static PRINTS_IN_TWO_EPOCHS: Case = Case {
    program: "P",
    options: " --epoch 6",
    once: "",
    tears: "",
    report: "commit 0 overlapped 0\n\
             epoch 1 ends at 6 by length\n\
             commit 1 overlapped 2\n\
             epoch 2 ends at 8 by end\n\
             commit 2 overlapped 0\n\
             exit 3 at 8\n",
};

/// Two of its epochs end because no entry is free, and a page of it is copied to the DRAM and written back whole.
static KEEPS_A_PAGE: Case = Case {
    program: "D",
    options: " --sets 1 --ways 1 --high 0 --low 0",
    once: "",
    tears: "",
    report: "commit 0 overlapped 0\n\
             epoch 1 ends at 8 by exhausted 0 0 1\n\
             commit 1 overlapped 0\n\
             epoch 2 ends at 8 by exhausted 0 0 1\n\
             commit 2 overlapped 0\n\
             epoch 3 ends at 20 by end\n\
             commit 3 overlapped 0\n\
             exit 0 at 20\n",
};

/// What a report has before it says that the NVM failed, if it ends so.
fn reported_before(report: &[u8]) -> Option<&str> {
    let text = std::str::from_utf8(report).ok()?;
    text.strip_suffix("nvm failed\n")
}

/// How many commits lines report.
fn commits_in(reported: &str) -> u64 {
    let mut commits: u64 = 0;
    for line in reported.lines() {
        if line.starts_with("commit ") {
            commits = commits.saturating_add(1);
        }
    }
    commits
}

/// Whether a report begins with a restart of this epoch.
fn restarts_at(rt: &impl Abort, alloc: Global, report: &[u8], epoch: u64) -> bool {
    let line = format!(in alloc; "restart {epoch} at ").expect(rt, "memory");
    report.starts_with(line.as_bytes())
}

/// Whether a resumed run ends as the plain machine, after a run that reported `commits` commits: from the last one of
/// these, or from the one whose checkpoint was under way. If none was reported there may be none.
fn goes_on(rt: &impl Abort, alloc: Global, resumed: &Given, plain: &Given, commits: u64) -> bool {
    let report = resumed.report.as_slice();
    if commits == 0 && resumed.status == 5 {
        return report == b"image 1 Empty\n".as_slice();
    }
    let is_found = restarts_at(rt, alloc, report, commits)
        || commits > 0 && restarts_at(rt, alloc, report, commits - 1);
    is_found
        && resumed.status == 0
        && resumed.printed == plain.printed
        && report.ends_with(plain.report.as_slice())
}

/// Stops the test unless a run failed, and reported and showed a first part of what the case does. Returns how many
/// commits it reported.
fn commits_before(rt: &impl Abort, case: &Case, plain: &Given, given: &Given, at: &str) -> u64 {
    let Some(reported) = reported_before(given.report.as_slice()) else {
        panic!(rt; "{at}: no fault");
    };
    let shown = given.printed.as_slice();
    let is_first = case.report.starts_with(reported) && plain.printed.as_slice().starts_with(shown);
    check(rt, given.status == 7 && is_first, at);
    commits_in(reported)
}

/// Resumes what a run saved that reported `commits` commits, and compares its end.
fn resume(
    rt: &impl Abort,
    alloc: Global,
    case: &Case,
    plain: &Given,
    shelf: &mut MemShelf,
    commits: u64,
    at: &str,
) {
    let options = case.options;
    let line = format!(in alloc;
        "thynvm resume I --pages 8 --btt 8 --ptt 8{options} --digest"
    ).expect(rt, "memory");
    let resumed = called(rt, alloc, line.as_str(), shelf);
    check(rt, goes_on(rt, alloc, &resumed, plain, commits), at);
}

/// Runs a line whose device fails at one call, which must report and show a first part of what the case does, and resumes
/// what it saved. The call does nothing; if it fails late it is done, a barrier by half.
fn fail_at(
    rt: &impl Abort,
    alloc: Global,
    case: &Case,
    line: &str,
    plain: &Given,
    failing: u64,
    is_late: bool,
) {
    let at = format!(in alloc; "{line}, call {failing}").expect(rt, "memory");
    let mut shelf = shelf(rt, alloc, &[]);
    let mut nvm = failing_at(rt, alloc, failing, is_late);
    let given = called_over(rt, alloc, line, &mut shelf, &mut nvm);
    let commits = commits_before(rt, case, plain, &given, at.as_str());
    resume(rt, alloc, case, plain, &mut shelf, commits, at.as_str());
}

/// What the plain machine makes of a case's program, which exits.
fn on_plain(rt: &impl Abort, alloc: Global, case: &Case) -> Given {
    let program = case.program;
    let line = format!(in alloc; "thynvm plain {program} --pages 8 --digest").expect(rt, "memory");
    let plain = ran(rt, alloc, line.as_str());
    check(rt, plain.status == 0, line.as_str());
    plain
}

/// The line of a case, with a last cut of this pick.
fn line_of(rt: &impl Abort, alloc: Global, case: &Case, pick: u64) -> String {
    let Case {
        program,
        options,
        once,
        tears,
        report: _,
    } = case;
    format!(in alloc;
        "thynvm run {program} --pages 8 --btt 8 --ptt 8{options}{once} --save I --tears {tears}{pick}"
    ).expect(rt, "memory")
}

/// Runs a case over a device that does not fail, and returns how many calls it makes.
fn calls_of(rt: &impl Abort, alloc: Global, case: &Case, line: &str, plain: &Given) -> u64 {
    let mut nvm = MemNvm::new(alloc);
    let given = called_over(rt, alloc, line, &mut shelf(rt, alloc, &[]), &mut nvm);
    let is_whole = given.status == 0
        && given.printed == plain.printed
        && given.report.as_slice() == case.report.as_bytes();
    check(rt, is_whole && nvm.calls() > 600, line);
    nvm.calls()
}

/// A case over a device that fails at each of its calls, one run for each, with a last cut of this pick: none of the
/// queued writes lands for 0, all for 1, else a draw.
fn fail_everywhere(rt: &impl Abort, alloc: Global, case: &Case, is_late: bool, pick: u64) {
    let plain = on_plain(rt, alloc, case);
    let line = line_of(rt, alloc, case, pick);
    let calls = calls_of(rt, alloc, case, line.as_str(), &plain);
    for failing in 1..=calls {
        fail_at(rt, alloc, case, line.as_str(), &plain, failing, is_late);
    }
}

#[test]
fn each_call_of_a_run_may_fail(rt: HostRuntime) {
    fail_everywhere(&rt, rt.alloc(), &EXITS_WITH_SEVEN, false, 0);
}

#[test]
fn each_call_of_a_run_may_fail_late(rt: HostRuntime) {
    fail_everywhere(&rt, rt.alloc(), &EXITS_WITH_SEVEN, true, 1);
}

#[test]
fn each_call_of_a_run_that_restarts_may_fail(rt: HostRuntime) {
    fail_everywhere(&rt, rt.alloc(), &RESTARTS, false, 7);
}

#[test]
fn each_call_of_two_epochs_may_fail(rt: HostRuntime) {
    fail_everywhere(&rt, rt.alloc(), &PRINTS_IN_TWO_EPOCHS, false, 0);
}

#[test]
fn each_call_of_two_epochs_may_fail_and_all_that_was_queued_lands(rt: HostRuntime) {
    fail_everywhere(&rt, rt.alloc(), &PRINTS_IN_TWO_EPOCHS, false, 1);
}

#[test]
fn each_call_of_two_epochs_may_fail_late(rt: HostRuntime) {
    fail_everywhere(&rt, rt.alloc(), &PRINTS_IN_TWO_EPOCHS, true, 7);
}

#[test]
fn each_call_of_a_run_with_a_page_in_the_dram_may_fail(rt: HostRuntime) {
    fail_everywhere(&rt, rt.alloc(), &KEEPS_A_PAGE, false, 7);
}

#[test]
fn each_call_of_a_run_with_a_page_in_the_dram_may_fail_late(rt: HostRuntime) {
    fail_everywhere(&rt, rt.alloc(), &KEEPS_A_PAGE, true, 0);
}
