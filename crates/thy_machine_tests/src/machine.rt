//! The whole machine over the simulated NVM, by its steps: two programs by the schedules of the seeds 0 to 8 and 0 to 7,
//! and cuts of power after every cycle of each run. What a restart finds is compared with the checkpoints that were
//! committed, and the state there and at the end with that of the plain machine.
ghost use Rattle.std.specs.Prelude.{◌≡◌, None};
ghost use Rattle.thy_block.specs.Geometry.{program_size};
ghost use Rattle.thy_computer.specs.Origin.{IsOrigin};
ghost use Rattle.thy_computer.specs.Kind.{IsDramOf};
ghost use Rattle.thy_machine_tests.specs.Powered.{origin_from};

mod by_scheme;
mod journal;
mod shadow;
mod waiting;

use crate::machine::by_scheme::shows_the_processor;
use crate::support::expect::{expect, expect_at};
use crate::support::starts::start_with;
use std::alloc::Global;
use std::marker::Model;
use std::process::Abort;
use thy_base::{Bytes, EndCause, Geometry, Lcg, Mark, Mix, Nvm, Parameters, Shape};
use thy_computer::{Computer, Did, Stepped};
use thy_core::Machine;
use thy_dram::Dram;
use thy_isa::{MachState, Status};
use thy_layout::{EngineStep, Start};
use thy_nvm::MemNvm;
use thy_plain::{Plain, recall_are_bytes, start_of};
use thy_schemes::Thynvm;
use thy_test_support::{FOUR_INSTRUCTIONS, SMALLEST, cpu_of, geometry_of, image_of};

/// A program, and the result of its run without cuts.
struct Row {
    words: &'static [u32],
    /// How many instructions an epoch has.
    epoch: u64,
    /// The sets of the cache, and the lines of each.
    cache: (u64, u64),
    /// The count at the end of each epoch, and why it ends there.
    ends: &'static [(u64, EndCause)],
    /// How many instructions are retired while each checkpoint is under way, by the schedule of seed 0.
    overlapped: &'static [u64],
    /// How the program ends.
    status: Status,
}

/// `addi a0,zero,5; addi a0,a0,1; addi a7,zero,93; ecall`, in epochs of one instruction. While the checkpoint of one is
/// written the next instruction is executed.
static EPOCH_OF_ONE: Row = Row {
    words: FOUR_INSTRUCTIONS,
    epoch: 1,
    cache: (16, 4),
    ends: &[
        (1, EndCause::Length),
        (2, EndCause::Length),
        (3, EndCause::Length),
        (4, EndCause::Ended),
    ],
    overlapped: &[1, 1, 1, 0],
    status: Status::Exited(6),
};

/// `sd zero,-64*k(sp)` for k from 0 to 8, `addi a7,zero,93; ecall`: it stores into nine blocks, and the block table has
/// eight entries. They are free again once two checkpoints were committed.
static NINE_STORES: Row = Row {
    words: thy_test_support::NINE_STORES,
    epoch: 10000,
    cache: (16, 4),
    ends: &[
        (
            8,
            EndCause::Exhausted {
                free: 8,
                dirty: 8,
                need: 1,
            },
        ),
        (
            8,
            EndCause::Exhausted {
                free: 0,
                dirty: 0,
                need: 1,
            },
        ),
        (11, EndCause::Ended),
    ],
    overlapped: &[0, 0, 0],
    status: Status::Exited(0),
};

/// A run has fewer cycles than this between two cuts.
const MOST: u64 = 5000;

/// The least memory, with the least tables, for a row and a schedule.
fn numbers_of(row: &Row, mix: u64) -> Parameters
    ensures pages { result.pages ≡ 8 }
    ensures console { result.console ≡ 1 }
    ensures harts { result.harts ≡ 1 }
{
    let (sets, ways) = row.cache;
    Parameters {
        epoch: row.epoch,
        sets,
        ways,
        mix,
        limit: 1_000_000_000,
        ..SMALLEST
    }
}

/// The start of a program of these words, with no input.
fn start_for(rt: &impl Abort, alloc: Global, geometry: &Geometry, words: &[u32]) -> Start
    requires size { program_size geometry.now ≡ 28672 }
    requires harts { geometry.now.harts ≡ 1 }
    ensures origin { IsOrigin (origin_from geometry.now result) }
    ensures made { result.kept ≡ None }
{
    let _numbers = geometry.numbers();
    let input = Bytes::new(alloc);
    recall_are_bytes(input.as_slice());
    let image = image_of(alloc, words).expect(rt, "memory");
    Start {
        state: start_of(alloc, image, geometry),
        kept: None,
        input,
    }
}

/// A DRAM that was never on.
fn new_dram(rt: &impl Abort, alloc: Global, geometry: &Geometry) -> Dram
    ensures { IsDramOf geometry.now result }
{
    Dram::new(alloc, geometry.dram_blocks(), geometry.numbers().dramq).expect(rt, "memory")
}

/// An NVM that was never on: whose blocks land whole for an even seed, and may be torn for an odd one.
fn new_nvm(alloc: Global, seed: u64) -> MemNvm {
    if seed % 2 == 0 {
        MemNvm::new(alloc)
    } else {
        MemNvm::tearing(alloc)
    }
}

/// A machine whose power is on, between two cycles.
#[derive(Drop)]
struct Powered<M: Computer> {
    geometry: Geometry,
    start: Start,
    machine: M,
    nvm: MemNvm,
    /// The schedule from here on.
    mix: Mix,
    /// How many cycles are done.
    cycles: u64,
    /// How many cuts are to come at most.
    cuts: u64,
}

impl<M: Computer> Model for Powered<M> {
    ghost use Rattle.thy_machine_tests.specs.Powered.{Powered as IsValue, IsPowered, powered};

    ghost Value = { IsValue M };

    ghost view = { λ m. powered m.geometry m.start m.machine m.nvm.device m.cycles m.cuts };

    ghost invariant = { λ m. IsPowered M.kind (powered m.geometry m.start m.machine m.nvm.device m.cycles m.cuts) };
}

impl<M: Computer> Powered<M> {
    /// A machine that was never on, at the start of a row's program, with the schedule of a seed and one cut to come.
    fn new(rt: &impl Abort, alloc: Global, row: &Row, seed: u64) -> Powered<M> {
        Powered::lasting(rt, alloc, row, seed, 1)
    }

    /// A machine that was never on, at the start of a row's program, with the schedule of a seed and at most `cuts`
    /// cuts to come.
    fn lasting(rt: &impl Abort, alloc: Global, row: &Row, seed: u64, cuts: u64) -> Powered<M> {
        let geometry = geometry_of(alloc, &numbers_of(row, seed)).expect(rt, "numbers in range");
        let start = start_for(rt, alloc, &geometry, row.words);
        let shape = Shape {
            blocks: M::nvm_blocks(&geometry),
            queue: geometry.numbers().nvmq,
            cuts,
        };
        assert!(rt; shape.blocks > 0);
        let mut nvm = new_nvm(alloc, seed);
        nvm.fit(alloc, &shape, Vec::new(alloc))
            .expect(rt, "a device");
        let dram = new_dram(rt, alloc, &geometry);
        let machine = M::power_on(alloc, &geometry, dram).expect(rt, "memory");
        Powered {
            geometry,
            start,
            machine,
            nvm,
            mix: Mix::new(seed),
            cycles: 0,
            cuts,
        }
    }

    /// Takes one cycle.
    fn step(&mut self, rt: &impl Abort) -> Stepped {
        assert!(rt; self.cycles < 2 * MOST);
        let pick = self.mix.next(1);
        let stepped = self
            .machine
            .step(pick, &self.start, &mut self.nvm)
            .expect(rt, "a step");
        self.cycles += 1;
        stepped
    }

    /// The state of the machine between two instructions.
    fn snapshot(&mut self, rt: &impl Abort, alloc: Global) -> MachState {
        self.machine
            .snapshot(alloc, &mut self.nvm)
            .expect(rt, "a snapshot")
    }

    /// Cuts the power of both devices with one pick, and lets it come on again.
    fn cut(self, rt: &impl Abort, alloc: Global, pick: u64) -> Powered<M> {
        assert!(rt; self.cuts > 0);
        let Powered {
            geometry,
            start,
            machine,
            mut nvm,
            mix,
            cycles,
            cuts,
        } = self;
        nvm.cut(pick);
        let dram = machine.cut(pick);
        let machine = M::power_on(alloc, &geometry, dram).expect(rt, "memory");
        Powered {
            geometry,
            start,
            machine,
            nvm,
            mix,
            cycles,
            cuts: cuts - 1,
        }
    }
}

/// The result of a boot.
#[derive(Clone, Copy, Debug, PartialEq, Eq)]
struct Booted {
    /// The checkpoint that was found; none if the program was loaded.
    found: Option<Mark>,
    /// The cycle of the boot's last action but one. A load writes the commit block in it.
    written: u64,
    /// The program had ended at the checkpoint.
    ended: bool,
}

/// Takes cycles until the boot is over.
fn boot<M: Computer>(rt: &impl Abort, on: &mut Powered<M>) -> Booted {
    let mut written = 0;
    for _ in 0..MOST {
        let Stepped { did, ended, .. } = on.step(rt);
        let found = match did {
            Did::Boot => {
                written = on.cycles;
                continue;
            }
            Did::NvmDrained | Did::DramDrained => continue,
            Did::Loaded => None,
            Did::Restarted(epoch, count) => Some(Mark { epoch, count }),
            did => panic!(rt; "{did:?} in a boot"),
        };
        return Booted {
            found,
            written,
            ended,
        };
    }
    panic!(rt; "no end")
}

/// A checkpoint of a run without cuts.
#[derive(Clone, Copy, Debug, PartialEq, Eq)]
struct Checkpoint {
    mark: Mark,
    /// The cycle that wrote the checkpoint's commit block.
    written: u64,
    /// The cycle of the barrier after that.
    committed: u64,
}

/// What a machine reported since its boot was over.
#[derive(Drop)]
struct Story {
    /// The epoch that executes.
    epoch: u64,
    /// The count at the end of each epoch that was sealed, and why it ended there.
    ends: Vec<(u64, EndCause)>,
    /// The checkpoint that is under way.
    sealed: Option<Mark>,
    /// How many instructions were retired since the latest seal.
    retired: u64,
    /// The cycle that wrote the latest commit block.
    written: u64,
    checkpoints: Vec<Checkpoint>,
    /// How many instructions each commit reported as retired while its checkpoint was under way.
    overlapped: Vec<u64>,
}

impl Story {
    /// A story that begins after a boot that restored the checkpoint of this epoch.
    fn from(alloc: Global, epoch: u64) -> Story {
        Story {
            epoch: epoch.saturating_add(1),
            ends: Vec::new(alloc),
            sealed: None,
            retired: 0,
            written: 0,
            checkpoints: Vec::new(alloc),
            overlapped: Vec::new(alloc),
        }
    }

    /// An epoch was sealed: the one that was to, and no checkpoint was under way.
    fn seal(&mut self, rt: &impl Abort, mark: Mark, cause: EndCause) {
        expect(rt, self.sealed, None);
        expect(rt, mark.epoch, self.epoch);
        self.ends.push((mark.count, cause)).expect(rt, "memory");
        self.sealed = Some(mark);
        self.epoch = self.epoch.saturating_add(1);
        self.retired = 0;
    }

    /// The checkpoint that was under way is committed.
    fn commit(&mut self, rt: &impl Abort, epoch: u64, overlapped: u64, cycle: u64) {
        let mark = self.sealed.expect(rt, "a checkpoint under way");
        expect(rt, epoch, mark.epoch);
        expect(rt, overlapped, self.retired);
        self.sealed = None;
        self.overlapped.push(overlapped).expect(rt, "memory");
        self.push(rt, mark, self.written, cycle);
    }

    fn push(&mut self, rt: &impl Abort, mark: Mark, written: u64, committed: u64) {
        let checkpoint = Checkpoint {
            mark,
            written,
            committed,
        };
        self.checkpoints.push(checkpoint).expect(rt, "memory");
    }

    /// Notes what a cycle did.
    fn note(&mut self, rt: &impl Abort, did: Did, cycle: u64) {
        match did {
            Did::Retired(_) => self.retired = self.retired.saturating_add(1),
            Did::Sealed(epoch, count, cause) => self.seal(rt, Mark { epoch, count }, cause),
            Did::Engine(EngineStep::CommitWritten) => self.written = cycle,
            Did::Committed { epoch, overlapped } => self.commit(rt, epoch, overlapped, cycle),
            _ => {}
        }
    }
}

/// Takes cycles until the machine halts, after a boot.
fn finished<M: Computer>(rt: &impl Abort, on: &mut Powered<M>, story: &mut Story, ended: bool) {
    let mut halted = ended;
    for _ in 0..MOST {
        if halted {
            return;
        }
        let stepped = on.step(rt);
        story.note(rt, stepped.did, on.cycles);
        halted = stepped.ended;
    }
    panic!(rt; "no end")
}

/// The plain machine at each state of a row's program, from its start to its end.
fn plain_machines(rt: &impl Abort, alloc: Global, row: &Row) -> Vec<Plain> {
    let mut plains = Vec::new(alloc);
    for count in 0..100 {
        let mut plain = start_with(rt, alloc, row.words, b"");
        expect(rt, plain.run(count), count);
        let status = plain.status();
        plains.push(plain).expect(rt, "memory");
        if status != Status::Running {
            expect(rt, status, row.status);
            return plains;
        }
    }
    panic!(rt; "no end")
}

/// Compares the state that a machine executes with the plain machine's at a count.
fn stands<M: Computer>(
    rt: &impl Abort,
    alloc: Global,
    on: &mut Powered<M>,
    plains: &[Plain],
    count: u64,
    at: u64,
) {
    let inside = (count as usize) < plains.len();
    assert!(rt; inside);
    let want = &plains[count as usize];
    let got = on.snapshot(rt, alloc);
    expect_at(rt, cpu_of(&got), want.cpu(0), at);
    expect_at(rt, on.machine.processor(), want.cpu(0), at);
    let same_memory = got.memory.as_slice() == want.memory().as_slice();
    expect_at(rt, same_memory, true, at);
    let same_console = got.console.as_slice() == want.console().as_slice();
    expect_at(rt, same_console, true, at);
}

/// The count at which a program ends.
fn last(plains: &[Plain]) -> u64 {
    (plains.len() as u64).saturating_sub(1)
}

/// A run without cuts: how many cycles it has, and its checkpoints.
#[derive(Drop)]
struct Whole {
    cycles: u64,
    checkpoints: Vec<Checkpoint>,
}

/// Runs a row's program without cuts by the schedule of a seed. Its epochs and its end are the row's.
fn uncut<M: Computer>(
    rt: &impl Abort,
    alloc: Global,
    row: &Row,
    seed: u64,
    plains: &[Plain],
) -> Whole {
    let mut on = Powered::<M>::new(rt, alloc, row, seed);
    let booted = boot(rt, &mut on);
    expect(rt, booted.found, None);
    let mut story = Story::from(alloc, 0);
    story.push(rt, Mark { epoch: 0, count: 0 }, booted.written, on.cycles);
    finished(rt, &mut on, &mut story, booted.ended);
    expect_at(rt, story.ends.as_slice(), row.ends, seed);
    if seed == 0 {
        expect_at(rt, story.overlapped.as_slice(), row.overlapped, seed);
    }
    stands(rt, alloc, &mut on, plains, last(plains), seed);
    Whole {
        cycles: on.cycles,
        checkpoints: story.checkpoints,
    }
}

impl Whole {
    /// The checkpoint that is committed after `cycles` cycles.
    fn committed(&self, cycles: u64) -> Option<Mark> {
        let mut mark = None;
        for checkpoint in self.checkpoints.iter() {
            if checkpoint.committed <= cycles {
                mark = Some(checkpoint.mark);
            }
        }
        mark
    }

    /// The one whose commit block is written then, and not yet confirmed.
    fn in_doubt(&self, cycles: u64) -> Option<Mark> {
        for checkpoint in self.checkpoints.iter() {
            if checkpoint.written <= cycles && cycles < checkpoint.committed {
                return Some(checkpoint.mark);
            }
        }
        None
    }

    /// Whether a cut after `cycles` cycles, with this pick, may leave a checkpoint: the committed one, or the one in
    /// doubt. If all writes land it is the one in doubt.
    fn may_leave(&self, found: Option<Mark>, cycles: u64, pick: u64) -> bool {
        let committed = self.committed(cycles);
        match self.in_doubt(cycles) {
            Some(mark) => found == Some(mark) || pick != 1 && found == committed,
            None => found == committed,
        }
    }
}

/// Cuts the power after a number of cycles, and compares what the machine restarts with, and how it ends.
fn cut<M: Computer>(
    rt: &impl Abort,
    alloc: Global,
    row: &Row,
    seed: u64,
    plains: &[Plain],
    whole: &Whole,
    at: u64,
    pick: u64,
) {
    let mut before = Powered::<M>::new(rt, alloc, row, seed);
    for _ in 0..at {
        before.step(rt);
    }
    let mut on = before.cut(rt, alloc, pick);
    let booted = boot(rt, &mut on);
    expect_at(rt, whole.may_leave(booted.found, at, pick), true, at);
    let mark = booted.found.unwrap_or(Mark { epoch: 0, count: 0 });
    stands(rt, alloc, &mut on, plains, mark.count, at);
    ends_from(rt, alloc, row, plains, &mut on, booted, at);
}

/// Takes cycles to the program's end, after a boot with this result, and compares the ends of the epochs and the last
/// state with the row's and the plain machine's.
fn ends_from<M: Computer>(
    rt: &impl Abort,
    alloc: Global,
    row: &Row,
    plains: &[Plain],
    on: &mut Powered<M>,
    booted: Booted,
    at: u64,
) {
    let epoch = booted.found.map_or(0, |mark| mark.epoch);
    let mut story = Story::from(alloc, epoch);
    finished(rt, on, &mut story, booted.ended);
    let done = epoch as usize;
    let inside = done <= row.ends.len();
    assert!(rt; inside);
    expect_at(rt, story.ends.as_slice(), &row.ends[done..], at);
    stands(rt, alloc, on, plains, last(plains), at);
}

/// Runs a row's program by the schedule of a seed, without cuts and then with a cut after each cycle but the last, with
/// three picks for what it leaves of the queued writes: none, all, and a draw. If the seed is even, blocks land whole, else a
/// cut may tear them. Each seed has a test of its own, since all of them would be too long for one.
fn survives<M: Computer>(rt: &impl Abort, alloc: Global, row: &Row, seed: u64) {
    let plains = plain_machines(rt, alloc, row);
    let whole = uncut::<M>(rt, alloc, row, seed, &plains);
    let mut draws = Lcg::new(seed);
    for at in 0..whole.cycles {
        for pick in [0, 1, draws.next()] {
            cut::<M>(rt, alloc, row, seed, &plains, &whole, at, pick);
        }
    }
}

/// The cycle in which the checkpoint of this epoch was committed in a run without cuts.
fn committed_in(rt: &impl Abort, whole: &Whole, epoch: usize) -> u64 {
    match whole.checkpoints.get(epoch) {
        Some(checkpoint) => checkpoint.committed,
        None => panic!(rt; "no checkpoint"),
    }
}

/// Runs a row's program by the schedule of a seed, without cuts and then with a cut after each cycle of its epochs but the
/// last, with three picks.
fn survives_once_loaded<M: Computer>(rt: &impl Abort, alloc: Global, row: &Row, seed: u64) {
    let plains = plain_machines(rt, alloc, row);
    let whole = uncut::<M>(rt, alloc, row, seed, &plains);
    for at in committed_in(rt, &whole, 0)..whole.cycles {
        for pick in [0, 1, 7] {
            cut::<M>(rt, alloc, row, seed, &plains, &whole, at, pick);
        }
    }
}

#[test]
fn the_processor_is_shown_at_start_and_end(rt: HostRuntime) {
    shows_the_processor::<Machine<Thynvm>>(&rt, rt.alloc());
}

#[test]
fn epochs_of_one_survive_every_cut_by_schedule_0(rt: HostRuntime) {
    survives::<Machine<Thynvm>>(&rt, rt.alloc(), &EPOCH_OF_ONE, 0);
}

#[test]
fn epochs_of_one_survive_every_cut_by_schedule_1(rt: HostRuntime) {
    survives::<Machine<Thynvm>>(&rt, rt.alloc(), &EPOCH_OF_ONE, 1);
}

#[test]
fn epochs_of_one_survive_every_cut_by_schedule_2(rt: HostRuntime) {
    survives::<Machine<Thynvm>>(&rt, rt.alloc(), &EPOCH_OF_ONE, 2);
}

#[test]
fn epochs_of_one_survive_every_cut_by_schedule_3(rt: HostRuntime) {
    survives::<Machine<Thynvm>>(&rt, rt.alloc(), &EPOCH_OF_ONE, 3);
}

#[test]
fn epochs_of_one_survive_every_cut_by_schedule_4(rt: HostRuntime) {
    survives::<Machine<Thynvm>>(&rt, rt.alloc(), &EPOCH_OF_ONE, 4);
}

#[test]
fn epochs_of_one_survive_every_cut_by_schedule_5(rt: HostRuntime) {
    survives::<Machine<Thynvm>>(&rt, rt.alloc(), &EPOCH_OF_ONE, 5);
}

#[test]
fn epochs_of_one_survive_every_cut_by_schedule_6(rt: HostRuntime) {
    survives::<Machine<Thynvm>>(&rt, rt.alloc(), &EPOCH_OF_ONE, 6);
}

#[test]
fn epochs_of_one_survive_every_cut_by_schedule_7(rt: HostRuntime) {
    survives::<Machine<Thynvm>>(&rt, rt.alloc(), &EPOCH_OF_ONE, 7);
}

#[test]
fn epochs_of_one_survive_every_cut_by_schedule_8(rt: HostRuntime) {
    survives::<Machine<Thynvm>>(&rt, rt.alloc(), &EPOCH_OF_ONE, 8);
}

#[test]
fn nine_stores_survive_every_cut_by_schedule_0(rt: HostRuntime) {
    survives::<Machine<Thynvm>>(&rt, rt.alloc(), &NINE_STORES, 0);
}

#[test]
fn nine_stores_survive_every_cut_by_schedule_1(rt: HostRuntime) {
    survives::<Machine<Thynvm>>(&rt, rt.alloc(), &NINE_STORES, 1);
}

#[test]
fn nine_stores_survive_every_cut_by_schedule_2(rt: HostRuntime) {
    survives::<Machine<Thynvm>>(&rt, rt.alloc(), &NINE_STORES, 2);
}

#[test]
fn nine_stores_survive_every_cut_by_schedule_3(rt: HostRuntime) {
    survives::<Machine<Thynvm>>(&rt, rt.alloc(), &NINE_STORES, 3);
}

#[test]
fn nine_stores_survive_every_cut_by_schedule_4(rt: HostRuntime) {
    survives::<Machine<Thynvm>>(&rt, rt.alloc(), &NINE_STORES, 4);
}

#[test]
fn nine_stores_survive_every_cut_by_schedule_5(rt: HostRuntime) {
    survives::<Machine<Thynvm>>(&rt, rt.alloc(), &NINE_STORES, 5);
}

#[test]
fn nine_stores_survive_every_cut_by_schedule_6(rt: HostRuntime) {
    survives::<Machine<Thynvm>>(&rt, rt.alloc(), &NINE_STORES, 6);
}

#[test]
fn nine_stores_survive_every_cut_by_schedule_7(rt: HostRuntime) {
    survives::<Machine<Thynvm>>(&rt, rt.alloc(), &NINE_STORES, 7);
}
