//! The program that exits with 7 over an NVM that fails at one call, each in turn, with each scheme: what is reported, and
//! how the saved image resumes, by tables worked out by hand.
use crate::support::by_scheme::{JOURNAL, SHADOW, line_of};
use crate::support::calls::{called, called_over, compare, failing_at};
use crate::support::programs::shelf;
use std::alloc::Global;
use std::process::Abort;
use thy_out::MemShelf;

/// What a run reports that fails while it loads, after that, and once the program has ended.
const LOADING: &str = "nvm failed\n";

const LOADED: &str = "commit 0 overlapped 0\nnvm failed\n";

const SEALED: &str = "commit 0 overlapped 0\nepoch 1 ends at 3 by end\nnvm failed\n";

/// What is reported from a restart at the start on, and from one at the end.
pub(crate) const FROM_THE_START: &str =
    "restart 0 at 0\nepoch 1 ends at 3 by end\ncommit 1 overlapped 0\nexit 7 at 3\n";

pub(crate) const FROM_THE_END: &str = "restart 1 at 3\nexit 7 at 3\n";

/// A call that writes a commit block. That is then the only write that is queued, and the next call lets it land: a drain or
/// a barrier.
#[derive(Clone, Copy)]
struct Commit {
    call: u64,
    is_drained: bool,
}

/// A scheme, and which calls of the run do what.
pub(crate) struct Calls {
    scheme: &'static str,
    /// The write of the commit block of epoch 0, and loading's last barrier.
    started: Commit,
    loaded: u64,
    /// The write of the commit block of epoch 1, and the last barrier.
    ended: Commit,
    last: u64,
}

/// Each cycle up to loading's last barrier, in cycle 700, is one call: the commit block of epoch 0 is written in cycle
/// 698, and a drain lets it land. After the barrier come calls 701 to 715. They are the read of the block that has the
/// program, the five blocks of the processor's record, one of each table and one of the counts, with three drains in
/// between. A barrier, the commit block of epoch 1 and its barrier follow.
static BY_THYNVM: Calls = Calls {
    scheme: "thynvm",
    started: Commit {
        call: 698,
        is_drained: true,
    },
    loaded: 700,
    ended: Commit {
        call: 714,
        is_drained: false,
    },
    last: 715,
};

/// Each cycle up to loading's last barrier, in cycle 696, is one call: the commit block of epoch 0 is written in cycle
/// 695. After the barrier come calls 697 to 709. They are the read of the block that has the program, the five blocks
/// of the processor's record and one of the table, with two drains in between. A barrier, the commit block of epoch 1, a
/// drain that lets it land, and its barrier follow.
pub(crate) static BY_JOURNAL: Calls = Calls {
    scheme: JOURNAL,
    started: Commit {
        call: 695,
        is_drained: false,
    },
    loaded: 696,
    ended: Commit {
        call: 707,
        is_drained: true,
    },
    last: 709,
};

/// The calls by shadow paging. They are as with the journal; the map takes the table's place.
pub(crate) static BY_SHADOW: Calls = Calls {
    scheme: SHADOW,
    started: Commit {
        call: 695,
        is_drained: false,
    },
    loaded: 696,
    ended: Commit {
        call: 707,
        is_drained: true,
    },
    last: 709,
};

/// A fault, and what the last cut does with the queue.
#[derive(Clone, Copy)]
struct Fault {
    /// The call that fails.
    call: u64,
    is_late: bool,
    /// Whether all that is queued lands; else nothing does.
    lands: bool,
}

impl Fault {
    /// Whether a commit block is in the image: the call after its own let it land, or it is queued and lands. A drain that
    /// fails late lets its write land; a barrier that does lets half of one write land, rounded down: none.
    fn leaves(self, commit: Commit) -> bool {
        let next = commit.call.saturating_add(1);
        let has_landed = next < self.call || next == self.call && self.is_late && commit.is_drained;
        let is_queued = commit.call < self.call || commit.call == self.call && self.is_late;
        has_landed || is_queued && self.lands
    }

    /// The status and the report of the run that resumes.
    fn goes_on(self, calls: &Calls) -> (u8, &'static str) {
        if self.leaves(calls.ended) {
            (0, FROM_THE_END)
        } else if self.leaves(calls.started) {
            (0, FROM_THE_START)
        } else {
            (5, "image 1 Empty\n")
        }
    }

    /// What the run that fails reports. The call after loading reads the block that has the program.
    fn reported(self, calls: &Calls) -> &'static str {
        if self.call <= calls.loaded {
            LOADING
        } else if self.call == calls.loaded.saturating_add(1) {
            LOADED
        } else {
            SEALED
        }
    }
}

/// The run of the program, up to the scheme's word.
const RUN: &str = "thynvm run F --pages 8 --btt 8 --ptt 8 --scheme";

/// Runs over a device with this fault, and saves what the last cut leaves under I.
fn fail(
    rt: &impl Abort,
    alloc: Global,
    calls: &Calls,
    fault: Fault,
    shelf: &mut MemShelf,
    at: &str,
) {
    let save = if fault.lands {
        " --save I --tears 1"
    } else {
        " --save I --tears 0"
    };
    let line = line_of(rt, alloc, RUN, calls.scheme, save);
    let mut nvm = failing_at(rt, alloc, fault.call, fault.is_late);
    let given = called_over(rt, alloc, line.as_str(), shelf, &mut nvm);
    compare(rt, at, &given, 7, "", fault.reported(calls));
}

/// Resumes it, and compares status and report.
fn go_on(
    rt: &impl Abort,
    alloc: Global,
    calls: &Calls,
    shelf: &mut MemShelf,
    status: u8,
    report: &str,
    at: &str,
) {
    let resume = "thynvm resume I --pages 8 --btt 8 --ptt 8 --scheme";
    let line = line_of(rt, alloc, resume, calls.scheme, "");
    let given = called(rt, alloc, line.as_str(), shelf);
    compare(rt, at, &given, status, "", report);
}

/// Both.
fn fail_and_go_on(
    rt: &impl Abort,
    alloc: Global,
    calls: &Calls,
    fault: Fault,
    status: u8,
    report: &str,
) {
    let (scheme, call, is_late, lands) = (calls.scheme, fault.call, fault.is_late, fault.lands);
    let at = format!(in alloc; "{scheme}, call {call}, late {is_late}, all lands {lands}").expect(
        rt, "memory",
    );
    let mut shelf = shelf(rt, alloc, &[]);
    fail(rt, alloc, calls, fault, &mut shelf, at.as_str());
    go_on(rt, alloc, calls, &mut shelf, status, report, at.as_str());
}

/// The call that fails, whether it is late, whether the last cut lets all land, and how the run resumes after that.
pub(crate) type Row = (u64, bool, bool, &'static str);

/// Faults of the commit block's write and of the last barrier.
static ROWS: [Row; 8] = [
    (714, false, false, FROM_THE_START),
    (714, false, true, FROM_THE_START),
    (714, true, false, FROM_THE_START),
    (714, true, true, FROM_THE_END),
    (715, false, false, FROM_THE_START),
    (715, false, true, FROM_THE_END),
    (715, true, false, FROM_THE_START),
    (715, true, true, FROM_THE_END),
];

/// Lets a call fail as a row says.
pub(crate) fn fail_by_row(rt: &impl Abort, alloc: Global, calls: &Calls, row: &Row) {
    let (call, is_late, lands, report) = *row;
    let fault = Fault {
        call,
        is_late,
        lands,
    };
    fail_and_go_on(rt, alloc, calls, fault, 0, report);
}

#[test]
fn the_last_commit_block_and_its_barrier_may_fail(rt: HostRuntime) {
    for row in &ROWS {
        fail_by_row(&rt, rt.alloc(), &BY_THYNVM, row);
    }
}

/// Lets a call fail.
fn fail_at(rt: &impl Abort, alloc: Global, calls: &Calls, call: u64, is_late: bool, lands: bool) {
    let fault = Fault {
        call,
        is_late,
        lands,
    };
    let (status, report) = fault.goes_on(calls);
    fail_and_go_on(rt, alloc, calls, fault, status, report);
}

/// Lets each call up to the last barrier fail.
pub(crate) fn fail_anywhere(
    rt: &impl Abort,
    alloc: Global,
    calls: &Calls,
    is_late: bool,
    lands: bool,
) {
    for call in 1..=calls.last {
        fail_at(rt, alloc, calls, call, is_late, lands);
    }
}

#[test]
fn any_call_may_fail_and_no_write_lands(rt: HostRuntime) {
    fail_anywhere(&rt, rt.alloc(), &BY_THYNVM, false, false);
}

#[test]
fn any_call_may_fail_and_every_write_lands(rt: HostRuntime) {
    fail_anywhere(&rt, rt.alloc(), &BY_THYNVM, false, true);
}

#[test]
fn any_call_may_fail_late_and_no_write_lands(rt: HostRuntime) {
    fail_anywhere(&rt, rt.alloc(), &BY_THYNVM, true, false);
}

#[test]
fn any_call_may_fail_late_and_every_write_lands(rt: HostRuntime) {
    fail_anywhere(&rt, rt.alloc(), &BY_THYNVM, true, true);
}

/// A put that fails after the last barrier did is reported in place of the device.
pub(crate) fn fail_to_save(rt: &impl Abort, alloc: Global, calls: &Calls) {
    let line = line_of(rt, alloc, RUN, calls.scheme, " --save I");
    let mut shelf = shelf(rt, alloc, &[2]);
    let mut nvm = failing_at(rt, alloc, calls.last, false);
    let given = called_over(rt, alloc, line.as_str(), &mut shelf, &mut nvm);
    let report = "commit 0 overlapped 0\nepoch 1 ends at 3 by end\nput I failed\n";
    compare(rt, line.as_str(), &given, 3, "", report);
}

#[test]
fn a_save_behind_a_fault_may_fail_too(rt: HostRuntime) {
    fail_to_save(&rt, rt.alloc(), &BY_THYNVM);
}
