//! Runs whose power is cut again while it comes on, and boots between whose steps queued writes land.
use crate::support::calls::{called, check};
use std::alloc::Global;
use std::process::Abort;
use thy_test_support::{GREET, Given, THREE_WORDS, has, shelf_of};

/// `sd sp,-64*k(sp)` for k from 0 to 8, which stores to nine blocks of one page; `addi a7,zero,93`; `sd a7,-64*k(sp)`
/// for the same k; `ld a0,-512(sp); ecall`, which exits with the value that was stored last.
const TWO_VALUES: &[u32] = &[
    0x00213023, 0xfc213023, 0xf8213023, 0xf4213023, 0xf0213023, 0xec213023, 0xe8213023, 0xe4213023,
    0xe0213023, 0x05d00893, 0x01113023, 0xfd113023, 0xf9113023, 0xf5113023, 0xf1113023, 0xed113023,
    0xe9113023, 0xe5113023, 0xe1113023, 0xe0013503, 0x00000073,
];

/// The program that exits with 7 under F, the one that stores two values under V, `greet` under G, and its input
/// under W.
static PROGRAMS: [(&str, &[u32]); 3] = [("F", THREE_WORDS), ("V", TWO_VALUES), ("G", GREET)];

/// Calls over these programs.
fn ran(rt: &impl Abort, alloc: Global, line: &str) -> Given {
    let mut shelf = shelf_of(alloc, &PROGRAMS, &[("W", b"World\n")]).expect(rt, "memory");
    called(rt, alloc, line, &mut shelf)
}

/// What the plain machine makes of a program in the smallest memory, which exits.
fn on_plain(rt: &impl Abort, alloc: Global, program: &str) -> Given {
    let line = format!(in alloc; "thynvm plain {program} --pages 8 --digest").expect(rt, "memory");
    let plain = ran(rt, alloc, line.as_str());
    let is_reported = has(&plain.report, "\nmemory ");
    check(rt, plain.status == 0 && is_reported, line.as_str());
    plain
}

/// Compares a run with the plain machine's: what was printed, the end, and the digest of memory; and its report has
/// these lines.
fn compare(rt: &impl Abort, line: &str, given: &Given, plain: &Given, lines: &str) {
    let is_reported = has(&given.report, lines);
    let ends_so = given.status == 0
        && given.printed == plain.printed
        && given.report.as_slice().ends_with(plain.report.as_slice());
    check(rt, is_reported && ends_so, line);
}

/// A boot after a cut of power.
struct Boot {
    /// The program, and the run's options.
    program: &'static str,
    options: &'static str,
    /// What the cut leaves.
    tear: u64,
    /// How many actions the boot has. A boot takes at least that many cycles.
    actions: u64,
    /// What is reported with the last action.
    reported: &'static str,
}

/// With the first checkpoint of the README's run, whose three lines were printed.
static OF_GREET: Boot = Boot {
    program: "G --input W",
    options: " --epoch 240",
    tear: 0,
    actions: 80,
    reported: "restart 1 at 240",
};

/// The commit block of the checkpoint of epoch 1 was queued: it did not land, or it did.
static OF_THE_START: Boot = Boot {
    program: "F",
    options: " --btt 8 --ptt 8",
    tear: 0,
    actions: 10,
    reported: "restart 0 at 0",
};

static OF_THE_END: Boot = Boot {
    program: "F",
    options: " --btt 8 --ptt 8",
    tear: 1,
    actions: 10,
    reported: "restart 1 at 3",
};

/// With the first checkpoint that has a page in its alternate page: 64 of the actions copy that into the DRAM.
static OF_A_PAGE: Boot = Boot {
    program: "V",
    options: " --btt 8 --ptt 8 --sets 1 --ways 1 --high 0 --low 0",
    tear: 0,
    actions: 74,
    reported: "restart 2 at 8",
};

/// The line of a run without its cuts.
fn line_of(rt: &impl Abort, alloc: Global, boot: &Boot, schedule: &str) -> String {
    let (program, options) = (boot.program, boot.options);
    format!(in alloc; "thynvm run {program} --pages 8{options}{schedule} --digest").expect(
        rt, "memory",
    )
}

/// A run that is cut after two cycles, of which the second falls into the boot after the first: what the boot after both
/// reports, and the same end.
fn cut_boot(
    rt: &impl Abort,
    alloc: Global,
    boot: &Boot,
    run: &str,
    plain: &Given,
    cut: u64,
    again: u64,
) {
    let (tear, reported) = (boot.tear, boot.reported);
    let line = format!(in alloc; "{run} --cuts {cut},{again} --tears {tear},1").expect(
        rt, "memory",
    );
    let lines = format!(in alloc;
        "cut 1 at cycle {cut}\ncut 2 at cycle {again}\n{reported}\n"
    ).expect(rt, "memory");
    let given = ran(rt, alloc, line.as_str());
    compare(rt, line.as_str(), &given, plain, lines.as_str());
}

/// A run that is cut after a cycle, and once more after each that the boot takes at least but the last: the next boot
/// restarts what that one would have.
fn cut_again(rt: &impl Abort, alloc: Global, boot: &Boot, cut: u64) {
    let plain = on_plain(rt, alloc, boot.program);
    let run = line_of(rt, alloc, boot, "");
    for k in 1..boot.actions {
        cut_boot(
            rt,
            alloc,
            boot,
            run.as_str(),
            &plain,
            cut,
            cut.saturating_add(k),
        );
    }
}

#[test]
fn a_recovery_that_is_cut_shows_each_line_once(rt: HostRuntime) {
    cut_again(&rt, rt.alloc(), &OF_GREET, 2200);
}

#[test]
fn a_recovery_that_is_cut_restarts_what_the_first_cut_left(rt: HostRuntime) {
    cut_again(&rt, rt.alloc(), &OF_THE_START, 721);
    cut_again(&rt, rt.alloc(), &OF_THE_END, 721);
}

/// The fourth cycle before a run's last, in turn: between the last commit block and the barrier after it there is one
/// drain of each queue at most, so that this commit block is not yet written.
#[test]
fn a_recovery_that_is_cut_copies_a_page_again(rt: HostRuntime) {
    let alloc = rt.alloc();
    let run = line_of(&rt, alloc, &OF_A_PAGE, "");
    let whole = ran(&rt, alloc, run.as_str()).cycles;
    cut_again(&rt, alloc, &OF_A_PAGE, whole.saturating_sub(4));
}

/// Cuts after 300 cycles of loading and after this one.
fn cut_loading(rt: &impl Abort, alloc: Global, plain: &Given, cycle: u64, reported: &str) {
    let line = format!(in alloc;
        "thynvm run F --pages 8 --btt 8 --ptt 8 --digest --cuts 300,{cycle} --tears 7,7"
    ).expect(rt, "memory");
    let lines = format!(in alloc; "\ncut 2 at cycle {cycle}\n{reported}\n").expect(rt, "memory");
    let given = ran(rt, alloc, line.as_str());
    compare(rt, line.as_str(), &given, plain, lines.as_str());
}

/// Loading is cut after 300 cycles. What is loaded then has its commit block in cycle 698 of its own, which the second
/// cut does not let land (as no single write with the draws of seed 7). A drain lets it land in 699, and it is
/// committed in 700.
#[test]
fn a_loading_is_cut_anywhere_behind_one_that_was_cut(rt: HostRuntime) {
    let alloc = rt.alloc();
    let plain = on_plain(&rt, alloc, "F");
    for cycle in 301..999u64 {
        cut_loading(&rt, alloc, &plain, cycle, "reload");
    }
    for cycle in 999..1001u64 {
        cut_loading(&rt, alloc, &plain, cycle, "restart 0 at 0");
    }
}

/// No loading is over in fewer than 525 cycles, whatever lands between its actions.
const LOADED_ANEW: &str = "cut 1 at cycle 350\n\
     reload\n\
     cut 2 at cycle 700\n\
     reload\n\
     cut 3 at cycle 1100\n\
     reload\n\
     commit 0 overlapped ";

/// Loadings that are cut, by a schedule.
fn load_by(rt: &impl Abort, alloc: Global, plain: &Given, schedule: &str) {
    let line = format!(in alloc;
        "thynvm run V --pages 8 --btt 8 --ptt 8{schedule} --digest --cuts 350,700,1100 --tears 7,0,1"
    ).expect(rt, "memory");
    let given = ran(rt, alloc, line.as_str());
    compare(rt, line.as_str(), &given, plain, LOADED_ANEW);
}

/// Recoveries that are cut, by a schedule, with both queues of this length. Between the last commit block and the barrier
/// after it no more can land than that block and the DRAM's queue.
fn recover_by(rt: &impl Abort, alloc: Global, plain: &Given, schedule: &str, queue: u64) {
    let run = line_of(rt, alloc, &OF_A_PAGE, schedule);
    let whole = ran(rt, alloc, run.as_str()).cycles;
    let cut = whole.saturating_sub(3).saturating_sub(queue);
    for k in [1, 40, 72] {
        let again = cut.saturating_add(k);
        cut_boot(rt, alloc, &OF_A_PAGE, run.as_str(), plain, cut, again);
    }
}

/// Loadings and recoveries that are cut, by one seed of the schedule, with both queues of this length.
fn boot_by(rt: &impl Abort, alloc: Global, plain: &Given, seed: u64, queue: u64) {
    let schedule = format!(in alloc; " --mix {seed} --nvmq {queue} --dramq {queue}").expect(
        rt, "memory",
    );
    load_by(rt, alloc, plain, schedule.as_str());
    recover_by(rt, alloc, plain, schedule.as_str(), queue);
}

#[test]
fn writes_land_between_the_steps_of_boots(rt: HostRuntime) {
    let alloc = rt.alloc();
    let plain = on_plain(&rt, alloc, "V");
    for seed in 1..7u64 {
        boot_by(&rt, alloc, &plain, seed, 1);
        boot_by(&rt, alloc, &plain, seed, 2);
    }
}
