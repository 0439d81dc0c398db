//! What is the same over the redo journal and over shadow paging, with the machine as a parameter: programs, the steps of the
//! engine around a commit, cycles and cuts of a run of three instructions, and restarts after one cut and after two.
use crate::machine::{
    Checkpoint, MOST, Powered, Row, Story, boot, ends_from, finished, plain_machines, stands, uncut,
};
use crate::support::expect::{expect, expect_at};
use std::alloc::Global;
use std::process::Abort;
use thy_base::{EndCause, Mark, Nvm};
use thy_computer::{Computer, Did};
use thy_isa::{Reg, Status};
use thy_layout::EngineStep;
use thy_plain::Plain;

/// `addi a0,zero,7; addi a7,zero,93; ecall`.
pub(super) static EXIT_SEVEN: Row = Row {
    words: &[0x00700513, 0x05d00893, 0x00000073],
    epoch: 10000,
    cache: (16, 4),
    ends: &[(3, EndCause::Ended)],
    overlapped: &[0],
    status: Status::Exited(7),
};

/// It stores into nine blocks of one page. The journal's table has eight entries, and shadow paging has eight frames; all of them
/// are free again in the second epoch.
pub(super) static NINE_STORES: Row = Row {
    words: thy_test_support::NINE_STORES,
    epoch: 10000,
    cache: (16, 4),
    ends: &[
        (
            8,
            EndCause::Exhausted {
                free: 8,
                dirty: 8,
                need: 1,
            },
        ),
        (11, EndCause::Ended),
    ],
    overlapped: &[0, 0],
    status: Status::Exited(0),
};

/// Four numbers, then 47 loads and stores of every width, sums, differences and exclusive ors, drawn once, over six blocks
/// below the stack pointer and the one above it; `addi a0,zero,9; addi a7,zero,93; ecall`. With a cache of one line almost
/// each load and store is one of the journal, and no epoch of six instructions fills the table.
pub(super) static DRAWN: Row = Row {
    words: &[
        0xb0d00293, 0x49a00313, 0x9d100393, 0x37a00e13, 0xfe713c23, 0x00613423, 0x006e4e33,
        0xee610523, 0xfdc10ba3, 0x0063ce33, 0x00734333, 0xf8513c23, 0x01c28333, 0x00014e03,
        0x41c382b3, 0xf9514283, 0x00728333, 0xf7013e03, 0xf9c12223, 0x00416e03, 0xf6510fa3,
        0xf3c13023, 0xf4514283, 0x005e0333, 0x41c302b3, 0xec711523, 0xf1e15e03, 0xf0015283,
        0xf4812383, 0xfc811283, 0xf7e11e03, 0xf4c16e03, 0xfe611b23, 0xfa611223, 0xec813283,
        0xf5c15383, 0xf6813303, 0xf8813303, 0xfe613023, 0xf0813383, 0xec613423, 0xfe713023,
        0xfe712023, 0xedc13c23, 0xf6016303, 0xec611723, 0x405e02b3, 0x02612823, 0xf6511c23,
        0xf6910283, 0x02013303, 0x00900513, 0x05d00893, 0x00000073,
    ],
    epoch: 6,
    cache: (1, 1),
    ends: &[
        (6, EndCause::Length),
        (12, EndCause::Length),
        (18, EndCause::Length),
        (24, EndCause::Length),
        (30, EndCause::Length),
        (36, EndCause::Length),
        (42, EndCause::Length),
        (48, EndCause::Length),
        (54, EndCause::Ended),
    ],
    overlapped: &[0, 0, 0, 0, 0, 0, 0, 0, 0],
    status: Status::Exited(9),
};

/// The steps that follow the blocks of a checkpoint: six blocks of the slot, of which the last is the table or the map, a barrier
/// and the commit block.
static SLOT: [EngineStep; 8] = [
    EngineStep::StateBlock,
    EngineStep::StateBlock,
    EngineStep::StateBlock,
    EngineStep::StateBlock,
    EngineStep::StateBlock,
    EngineStep::TableBlock,
    EngineStep::Barrier,
    EngineStep::CommitWritten,
];

/// What the engine of a scheme does around the first commit of the nine stores.
pub(super) struct Steps {
    /// The step that writes a block of the checkpoint.
    pub(super) block: EngineStep,
    /// How many blocks it has.
    pub(super) blocks: usize,
    /// The steps after the commit, and after each restart from there.
    pub(super) after: &'static [EngineStep],
}

/// The steps of the engine from here on, up to a commit or the hart's next cycle.
fn engine_steps<M: Computer>(
    rt: &impl Abort,
    alloc: Global,
    on: &mut Powered<M>,
) -> Vec<EngineStep> {
    let mut steps = Vec::new(alloc);
    for _ in 0..MOST {
        match on.step(rt).did {
            Did::NvmDrained | Did::DramDrained => {}
            Did::Engine(step) => steps.push(step).expect(rt, "memory"),
            _ => return steps,
        }
    }
    panic!(rt; "no end")
}

/// Takes cycles up to the next seal.
pub(super) fn to_seal<M: Computer>(rt: &impl Abort, on: &mut Powered<M>) {
    for _ in 0..MOST {
        if let Did::Sealed(_, _, _) = on.step(rt).did {
            return;
        }
    }
    panic!(rt; "no end")
}

/// What a restart finds after a cut of the program of three instructions, by the schedule of seed 0.
fn found_after<M: Computer>(rt: &impl Abort, alloc: Global, at: u64, pick: u64) -> Option<Mark> {
    let mut before = Powered::<M>::new(rt, alloc, &EXIT_SEVEN, 0);
    for _ in 0..at {
        before.step(rt);
    }
    let mut on = before.cut(rt, alloc, pick);
    boot(rt, &mut on).found
}

/// How many writes of the NVM a run has, by the schedule of seed 0.
pub(super) fn writes_of<M: Computer>(rt: &impl Abort, alloc: Global, row: &Row) -> u64 {
    let mut on = Powered::<M>::new(rt, alloc, row, 0);
    let booted = boot(rt, &mut on);
    let mut story = Story::from(alloc, 0);
    finished(rt, &mut on, &mut story, booted.ended);
    on.nvm.writes()
}

/// Takes the cycles of a checkpoint up to its commit, and compares the steps of the engine: the blocks, each by this step, and
/// what follows them.
pub(super) fn checkpoints<M: Computer>(
    rt: &impl Abort,
    alloc: Global,
    on: &mut Powered<M>,
    block: EngineStep,
    blocks: usize,
    at: u64,
) {
    let steps = engine_steps(rt, alloc, on);
    for (i, step) in steps.iter().enumerate() {
        if i < blocks {
            expect_at(rt, *step, block, at);
        }
    }
    let slot = steps.get(blocks..).unwrap_or(&[]);
    expect_at(rt, slot, SLOT.as_slice(), at);
}

/// A machine that has just committed the first epoch of the nine stores, with two cuts to come.
pub(super) fn committed<M: Computer>(
    rt: &impl Abort,
    alloc: Global,
    steps: &Steps,
    seed: u64,
) -> Powered<M> {
    let mut on = Powered::<M>::lasting(rt, alloc, &NINE_STORES, seed, 2);
    boot(rt, &mut on);
    to_seal(rt, &mut on);
    checkpoints(rt, alloc, &mut on, steps.block, steps.blocks, seed);
    on
}

/// Takes the steps of the engine that follow a commit or a restart from it, and compares them.
pub(super) fn follows<M: Computer>(
    rt: &impl Abort,
    alloc: Global,
    steps: &Steps,
    on: &mut Powered<M>,
    at: u64,
) {
    let taken = engine_steps(rt, alloc, on);
    expect_at(rt, taken.as_slice(), steps.after, at);
}

/// Power comes on after cuts in the second epoch: the first one's checkpoint is found, what follows its commit is done from its
/// first step on, and the program goes on to its end.
fn goes_on<M: Computer>(
    rt: &impl Abort,
    alloc: Global,
    steps: &Steps,
    plains: &[Plain],
    mut on: Powered<M>,
    at: u64,
) {
    let booted = boot(rt, &mut on);
    expect_at(rt, booted.found, Some(Mark { epoch: 1, count: 8 }), at);
    stands(rt, alloc, &mut on, plains, 8, at);
    follows(rt, alloc, steps, &mut on, at);
    ends_from(rt, alloc, &NINE_STORES, plains, &mut on, booted, at);
}

/// Cuts the power `first` cycles after the commit.
fn cut_once<M: Computer>(
    rt: &impl Abort,
    alloc: Global,
    steps: &Steps,
    seed: u64,
    first: u64,
) -> Powered<M> {
    let mut on = committed::<M>(rt, alloc, steps, seed);
    for _ in 0..first {
        on.step(rt);
    }
    on.cut(rt, alloc, first)
}

/// Cuts the power after the commit, and then a second time after each cycle from the recovery on up to `last`, with three picks.
pub(super) fn cut_twice<M: Computer>(
    rt: &impl Abort,
    alloc: Global,
    steps: &Steps,
    plains: &[Plain],
    seed: u64,
    first: u64,
    last: u64,
) {
    for second in 0..=last {
        for pick in [0, 1, 7] {
            let mut between = cut_once::<M>(rt, alloc, steps, seed, first);
            for _ in 0..second {
                between.step(rt);
            }
            let on = between.cut(rt, alloc, pick);
            goes_on(rt, alloc, steps, plains, on, second);
        }
    }
}

/// Cuts the power of eight schedules in each of 20 cycles after the commit.
pub(super) fn restarts<M: Computer>(rt: &impl Abort, alloc: Global, steps: &Steps) {
    let plains = plain_machines(rt, alloc, &NINE_STORES);
    for seed in 0..8 {
        for first in 0..=20 {
            let on = cut_once::<M>(rt, alloc, steps, seed, first);
            goes_on(rt, alloc, steps, &plains, on, first);
        }
    }
}

/// The cycles of the program of three instructions. 512 blocks of memory, six of the slot and the header are written in the
/// boot's cycles 2 to 693, except each fourth one, in which a write drains. A barrier follows, then the commit block, and the
/// barrier that commits it. Seven cycles are the hart's, one seals. The checkpoint has six blocks of the slot and none of memory,
/// and two of its cycles drain.
pub(super) fn takes_716_cycles<M: Computer>(rt: &impl Abort, alloc: Global) {
    let plains = plain_machines(rt, alloc, &EXIT_SEVEN);
    let whole = uncut::<M>(rt, alloc, &EXIT_SEVEN, 0, &plains);
    expect(rt, whole.cycles, 716);
    let want = [
        Checkpoint {
            mark: Mark { epoch: 0, count: 0 },
            written: 695,
            committed: 696,
        },
        Checkpoint {
            mark: Mark { epoch: 1, count: 3 },
            written: 714,
            committed: 716,
        },
    ];
    expect(rt, whole.checkpoints.as_slice(), want.as_slice());
}

/// Whether a machine shows the processor of that program's state at its start, and at its end: the call is its third instruction,
/// and an exit leaves program counter and registers.
pub(super) fn shows_the_processor<M: Computer>(rt: &impl Abort, alloc: Global) {
    let mut on = Powered::<M>::new(rt, alloc, &EXIT_SEVEN, 0);
    let booted = boot(rt, &mut on);
    let start = on.machine.processor();
    expect(rt, (start.pc, start.count), (65536, 0));
    expect(rt, start.status, Status::Running);
    let mut story = Story::from(alloc, 0);
    finished(rt, &mut on, &mut story, booted.ended);
    let end = on.machine.processor();
    expect(rt, (end.pc, end.count), (65544, 3));
    expect(rt, end.status, Status::Exited(7));
    expect(rt, end.regs.get(Reg::new(10)), 7);
    expect(rt, end.regs.get(Reg::new(17)), 93);
    expect(rt, (end.console_len, end.cursor), (0, 0));
}

/// What a restart finds of that program. Cycle 714 writes the commit block, 715 lets it land, and 716 is the barrier.
pub(super) fn finds_what_has_landed<M: Computer>(rt: &impl Abort, alloc: Global) {
    for (at, pick, epoch, count) in [
        (696, 0, 0, 0),
        (713, 0, 0, 0),
        (713, 1, 0, 0),
        (714, 0, 0, 0),
        (714, 1, 1, 3),
        (715, 0, 1, 3),
        (715, 1, 1, 3),
        (716, 0, 1, 3),
    ] {
        let found = found_after::<M>(rt, alloc, at, pick);
        expect_at(rt, found, Some(Mark { epoch, count }), at);
    }
    for (at, pick) in [(694, 1), (695, 0)] {
        let found = found_after::<M>(rt, alloc, at, pick);
        expect_at(rt, found, None, at);
    }
}
