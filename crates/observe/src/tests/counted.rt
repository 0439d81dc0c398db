//! Cycles by their causes, in all and by epochs, and the places that were written.

use super::{
    EXIT_SEVEN, PCS, STORES_ONCE, called, check, ends_with, expect_section, follows, has_start,
    joined, line_of,
};
use std::alloc::Global;
use std::process::Abort;

/// Options, the text of a run of this program with them, and how many cycles it has of each cause.
static COUNTED: [(&str, &str, &str); 2] = [
    // The loading takes 700 cycles. In cycle 709 the line is stored, in 710 the epoch is sealed. The hart's next two instructions
    // end in 717, beside the checkpoint that is committed in 730; for the rest of it, and all of the next, the hart waits.
    (
        "run F --pages 8 --btt 8 --ptt 8 --epoch 2",
        "700 0 commit 0 overlapped 0\n\
         710 2 epoch 1 ends at 2 by length\n\
         730 4 commit 1 overlapped 2\n\
         731 4 epoch 2 ends at 4 by end\n\
         744 4 commit 2 overlapped 0\n\
         744 4 exit 0 at 4\n\
         cycles 744 boot 525 hart 15 engine 22 nvmdrain 182 dramdrain 0\n\
         hart moved 8 retired 4 flushed 1 merged 0 promoted 0 sealed 2\n\
         engine copied 0 page 0 state 10 table 6 barrier 2 commit 2 committed 2\n\
         waiting 14\n\
         nvm reads 449 writes 541 barriers 6\n\
         lost 0\n\
         epochs 2 early 0 overlapped 2\n",
        "causes\nboot 525\ninstructions 8\nmeanwhile 4\nflushes 1\nmerges 0\nseals 2\npromotions 0\ncopies 0\nhomes 0\n\
         pages 0\nprocessor 10\ntables 6\ncommits 2\nbarriers 4\nnvmdrains 182\ndramdrains 0\nnothing 0\nwaiting 14\n",
    ),
    // The line is stored in a buffer in cycle 705. Of the checkpoint that is sealed in 706 it is copied into the journal in 707,
    // and home in 721, after the commit; meanwhile the hart waits.
    (
        "run F --pages 8 --btt 8 --epoch 2 --scheme journal",
        "696 0 commit 0 overlapped 0\n\
         706 2 epoch 1 ends at 2 by length\n\
         720 2 commit 1 overlapped 0\n\
         727 4 epoch 2 ends at 4 by end\n\
         738 4 commit 2 overlapped 0\n\
         738 4 exit 0 at 4\n\
         cycles 738 boot 523 hart 15 engine 21 nvmdrain 178 dramdrain 1\n\
         hart moved 8 retired 4 flushed 1 merged 0 promoted 0 sealed 2\n\
         engine copied 2 page 0 state 10 table 2 barrier 3 commit 2 committed 2\n\
         waiting 14\n\
         nvm reads 449 writes 536 barriers 7\n\
         lost 0\n\
         epochs 2 early 0 overlapped 0\n",
        "causes\nboot 523\ninstructions 12\nmeanwhile 0\nflushes 1\nmerges 0\nseals 2\npromotions 0\ncopies 1\nhomes 1\n\
         pages 0\nprocessor 10\ntables 2\ncommits 2\nbarriers 5\nnvmdrains 178\ndramdrains 1\nnothing 0\nwaiting 14\n",
    ),
];

/// How many cycles the second of the first runs has of each cause: a cut in cycle 705 leaves no checkpoint under way; the ten
/// cycles of the recovery are a boot's too.
static CAUSES_CUT: &str =
    "causes\nboot 535\ninstructions 12\nmeanwhile 0\nflushes 0\nmerges 0\nseals 1\npromotions 0\ncopies 0\nhomes 0\n\
    pages 0\nprocessor 5\ntables 3\ncommits 1\nbarriers 2\nnvmdrains 177\ndramdrains 0\nnothing 0\nwaiting 8\n";

/// Runs the program that stores once with options, and compares what follows the totals.
fn counts(rt: &impl Abort, alloc: Global, options: &str, row: &(&str, &str, &str), section: &str) {
    let (call, text, _) = *row;
    let line = line_of(rt, alloc, options, call);
    expect_section(rt, alloc, line.as_str(), &STORES_ONCE, 0, text, section);
}

#[test]
fn causes_follow_the_totals(rt: HostRuntime) {
    let alloc = rt.alloc();
    for row in &COUNTED {
        counts(&rt, alloc, "--causes", row, row.2);
    }
    follows(&rt, alloc, "--causes", CAUSES_CUT);
    // What is found out by executing the run again comes first.
    let both = joined(&rt, alloc, &[PCS, CAUSES_CUT]);
    follows(&rt, alloc, "--causes --pcs", both.as_str());
}

/// The head of the stretches of cycles, and the rows of the second of the first runs: the five cycles before the cut are lost, and the
/// checkpoint is written in the cycles of the epoch after it.
static EPOCHS_CUT: [&str; 6] = [
    "epochs\nepoch\tfrom\tto\tend\tboot\tinstructions\tmeanwhile\tflushes\tmerges\tseals\tpromotions\tcopies\thomes\tpages\tprocessor\ttables\tcommits\tbarriers\tnvmdrains\tdramdrains\tnothing\twaiting\n",
    "-\t1\t700\tboot\t525\t0\t0\t0\t0\t0\t0\t0\t0\t0\t0\t0\t0\t0\t175\t0\t0\t0\n",
    "1\t701\t705\tcut\t0\t5\t0\t0\t0\t0\t0\t0\t0\t0\t0\t0\t0\t0\t0\t0\t0\t0\n",
    "-\t706\t715\tboot\t10\t0\t0\t0\t0\t0\t0\t0\t0\t0\t0\t0\t0\t0\t0\t0\t0\t0\n",
    "1\t716\t723\tseal\t0\t7\t0\t0\t0\t1\t0\t0\t0\t0\t0\t0\t0\t0\t0\t0\t0\t0\n",
    "2\t724\t736\trun\t0\t0\t0\t0\t0\t0\t0\t0\t0\t0\t5\t3\t1\t2\t2\t0\t0\t8\n",
];

/// The rows of the run by thynvm that stores once: the second epoch executes while the first one's checkpoint is written.
static EPOCHS_STORED: [&str; 5] = [
    "epochs\nepoch\tfrom\tto\tend\tboot\tinstructions\tmeanwhile\tflushes\tmerges\tseals\tpromotions\tcopies\thomes\tpages\tprocessor\ttables\tcommits\tbarriers\tnvmdrains\tdramdrains\tnothing\twaiting\n",
    "-\t1\t700\tboot\t525\t0\t0\t0\t0\t0\t0\t0\t0\t0\t0\t0\t0\t0\t175\t0\t0\t0\n",
    "1\t701\t710\tseal\t0\t8\t0\t1\t0\t1\t0\t0\t0\t0\t0\t0\t0\t0\t0\t0\t0\t0\n",
    "2\t711\t731\tseal\t0\t0\t4\t0\t0\t1\t0\t0\t0\t0\t5\t3\t1\t2\t5\t0\t0\t6\n",
    "3\t732\t744\trun\t0\t0\t0\t0\t0\t0\t0\t0\t0\t0\t5\t3\t1\t2\t2\t0\t0\t8\n",
];

#[test]
fn each_stretch_of_cycles_has_a_row(rt: HostRuntime) {
    let alloc = rt.alloc();
    let epochs = joined(&rt, alloc, &EPOCHS_CUT);
    follows(&rt, alloc, "--epochs", epochs.as_str());
    let (_, _, causes) = COUNTED[0];
    let epochs = joined(&rt, alloc, &EPOCHS_STORED);
    let both = format!(in alloc; "{causes}{epochs}").expect(&rt, "memory");
    counts(&rt, alloc, "--epochs --causes", &COUNTED[0], both.as_str());
}

/// Adds the line of a place that was written once.
fn push_place(rt: &impl Abort, alloc: Global, wear: &mut String, at: u64) {
    let line = format!(in alloc; "{at} 1\n").expect(rt, "memory");
    wear.push_str(line.as_str()).expect(rt, "memory");
}

#[test]
fn each_place_that_was_written_has_a_line(rt: HostRuntime) {
    let alloc = rt.alloc();
    let line = "thynvm --wear run F --pages 8 --btt 8 --ptt 8";
    let given = called(&rt, alloc, line, &EXIT_SEVEN);
    check(&rt, given.status == 0, line);
    // The header once and the commit block twice, then the homes of memory, behind the places of version 1's slots, and at last
    // both slots: 531 writes in all.
    let mut wear = String::from_str(alloc, "wear\n0 1\n1 2\n").expect(&rt, "memory");
    for at in 16u64..528 {
        push_place(&rt, alloc, &mut wear, at);
    }
    for at in 1048u64..1064 {
        push_place(&rt, alloc, &mut wear, at);
    }
    let text = given.put.as_slice();
    check(&rt, text.ends_with(wear.as_str().as_bytes()), line);
    check(&rt, has_start(text, "nvm reads 449 writes 531 "), line);
}
