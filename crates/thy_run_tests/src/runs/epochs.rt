//! Runs of several epochs: why each ends, and what is executed while its checkpoint is written.
use crate::runs::{expect, expect_reported};
use std::alloc::Global;
use std::process::Abort;

/// What is reported of nine stores if the block table has eight entries and the cache a line for each block:
/// the ninth store finds eight dirty lines and then, with those stored, no free entry.
const EXHAUSTED: &str = "commit 0 overlapped 0\n\
     epoch 1 ends at 8 by exhausted 8 8 1\n\
     commit 1 overlapped 0\n\
     epoch 2 ends at 8 by exhausted 0 0 1\n\
     commit 2 overlapped 0\n\
     epoch 3 ends at 11 by end\n\
     commit 3 overlapped 0\n\
     exit 0 at 11\n";

/// Runs that exit, with the report. First come four instructions in four epochs, each of which ends while the
/// checkpoint before it is written. Nine stores follow, with entries for all of them, and in caches of a line and of
/// four; and eighteen stores through one line, with the page in the DRAM once it was stored to, and with no page there.
static REPORTS: [(&str, &str); 7] = [
    (
        "thynvm run E --pages 8 --btt 8 --ptt 8 --epoch 1",
        "commit 0 overlapped 0\n\
         epoch 1 ends at 1 by length\n\
         commit 1 overlapped 1\n\
         epoch 2 ends at 2 by length\n\
         commit 2 overlapped 1\n\
         epoch 3 ends at 3 by length\n\
         commit 3 overlapped 1\n\
         epoch 4 ends at 4 by end\n\
         commit 4 overlapped 0\n\
         exit 6 at 4\n",
    ),
    ("thynvm run N --pages 8 --btt 8 --ptt 8", EXHAUSTED),
    (
        "thynvm run N --pages 8 --btt 16 --ptt 8",
        "commit 0 overlapped 0\nepoch 1 ends at 11 by end\ncommit 1 overlapped 0\nexit 0 at 11\n",
    ),
    (
        "thynvm run N --pages 8 --btt 8 --ptt 8 --sets 1 --ways 1",
        "commit 0 overlapped 0\n\
         epoch 1 ends at 8 by exhausted 0 0 1\n\
         commit 1 overlapped 0\n\
         epoch 2 ends at 8 by exhausted 0 0 1\n\
         commit 2 overlapped 0\n\
         epoch 3 ends at 11 by end\n\
         commit 3 overlapped 0\n\
         exit 0 at 11\n",
    ),
    (
        "thynvm run N --pages 8 --btt 8 --ptt 8 --sets 1 --ways 4",
        "commit 0 overlapped 0\n\
         epoch 1 ends at 8 by exhausted 3 3 1\n\
         commit 1 overlapped 0\n\
         epoch 2 ends at 8 by exhausted 0 0 1\n\
         commit 2 overlapped 0\n\
         epoch 3 ends at 11 by end\n\
         commit 3 overlapped 0\n\
         exit 0 at 11\n",
    ),
    (
        "thynvm run D --pages 8 --btt 8 --ptt 8 --sets 1 --ways 1 --high 0 --low 0",
        "commit 0 overlapped 0\n\
         epoch 1 ends at 8 by exhausted 0 0 1\n\
         commit 1 overlapped 0\n\
         epoch 2 ends at 8 by exhausted 0 0 1\n\
         commit 2 overlapped 0\n\
         epoch 3 ends at 20 by end\n\
         commit 3 overlapped 0\n\
         exit 0 at 20\n",
    ),
    (
        "thynvm run D --pages 8 --btt 8 --ptt 8 --sets 1 --ways 1",
        "commit 0 overlapped 0\n\
         epoch 1 ends at 8 by exhausted 0 0 1\n\
         commit 1 overlapped 0\n\
         epoch 2 ends at 8 by exhausted 0 0 1\n\
         commit 2 overlapped 0\n\
         epoch 3 ends at 16 by exhausted 0 0 1\n\
         commit 3 overlapped 0\n\
         epoch 4 ends at 16 by exhausted 0 0 1\n\
         commit 4 overlapped 0\n\
         epoch 5 ends at 20 by end\n\
         commit 5 overlapped 0\n\
         exit 0 at 20\n",
    ),
];

#[test]
fn each_epoch_ends_for_its_cause(rt: HostRuntime) {
    let alloc = rt.alloc();
    for (line, report) in &REPORTS {
        expect(&rt, alloc, line, 0, report);
    }
}

/// Runs whose epochs end alike whatever the schedule; of a commit's line the epoch alone is compared here, as how much
/// is executed meanwhile depends on the schedule.
static SCHEDULED: [(&str, &str); 3] = [
    (
        "thynvm run F --epoch 1",
        "commit 0\n\
         epoch 1 ends at 1 by length\n\
         commit 1\n\
         epoch 2 ends at 2 by length\n\
         commit 2\n\
         epoch 3 ends at 3 by end\n\
         commit 3\n\
         exit 7 at 3\n",
    ),
    (
        "thynvm run E --epoch 1",
        "commit 0\n\
         epoch 1 ends at 1 by length\n\
         commit 1\n\
         epoch 2 ends at 2 by length\n\
         commit 2\n\
         epoch 3 ends at 3 by length\n\
         commit 3\n\
         epoch 4 ends at 4 by end\n\
         commit 4\n\
         exit 6 at 4\n",
    ),
    (
        "thynvm run N",
        "commit 0\n\
         epoch 1 ends at 8 by exhausted 8 8 1\n\
         commit 1\n\
         epoch 2 ends at 8 by exhausted 0 0 1\n\
         commit 2\n\
         epoch 3 ends at 11 by end\n\
         commit 3\n\
         exit 0 at 11\n",
    ),
];

/// Runs one of these with one seed of the schedule and one length of both queues.
fn schedule(rt: &impl Abort, alloc: Global, start: &str, report: &str, seed: u64, queue: u64) {
    let line = format!(in alloc;
        "{start} --pages 8 --btt 8 --ptt 8 --mix {seed} --nvmq {queue} --dramq {queue}"
    ).expect(rt, "memory");
    expect_reported(rt, alloc, line.as_str(), report);
}

/// Runs one of these with six seeds and three lengths of queues.
fn schedules(rt: &impl Abort, alloc: Global, start: &str, report: &str) {
    for seed in 0..6u64 {
        schedule(rt, alloc, start, report, seed, 1);
        schedule(rt, alloc, start, report, seed, 2);
        schedule(rt, alloc, start, report, seed, 64);
    }
}

#[test]
fn every_schedule_and_queue_ends_alike(rt: HostRuntime) {
    for (start, report) in &SCHEDULED {
        schedules(&rt, rt.alloc(), start, report);
    }
}
