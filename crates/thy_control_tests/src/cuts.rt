//! Controller, engine and boot over the simulated NVM, through cuts of power at every step of a load and of two
//! epochs. Each restart is compared with what was stored.
ghost use Rattle.std.specs.Prelude.{◌≡◌, length};
ghost use Rattle.thy_isa.specs.Step.{state_of};
ghost use Rattle.thy_test_support.specs.Starts.{IsLeastStart};

use crate::support::expect::{expect, expect_at};
use crate::support::memory::{Memory, block_of};
use crate::support::starting::{Off, Starting, Taken};
use std::alloc::Global;
use std::process::Abort;
use thy_base::{Block, Parameters, Stored};
use thy_computer::BootStep;
use thy_layout::{EngineStep, Start};
use thy_test_support::{LEAST, geometry_of, start_over};

/// The least memory: seven pages of the program and one of the console. A page is stored to densely by more than 22 stores
/// of an epoch, and seldom by fewer than 16.
fn least() -> Parameters {
    Parameters { btt: 32, ..LEAST }
}

/// Byte `at` of the start's memory: each block holds its number, over and over.
fn byte_of(at: usize) -> u8 {
    let number = at / 64;
    if at % 2 == 0 {
        (number % 256) as u8
    } else {
        (number / 256 % 256) as u8
    }
}

fn number_blocks(memory: &mut [u8])
    ensures { length memory.new ≡ length memory.old }
{
    for at in 0..memory.len() {
        memory[at] = byte_of(at);
    }
}

fn start_of(rt: &impl Abort, alloc: Global) -> Start
    ensures { IsLeastStart (state_of result.state) }
{
    let mut memory = vec![in alloc; 0u8; 28672].expect(rt, "memory");
    number_blocks(&mut memory);
    start_over(alloc, memory).expect(rt, "memory")
}

/// Block `b` of memory as a start has it, whose console has 70 exclamation marks in the last page.
fn block_of_start(rt: &impl Abort, start: &Start, b: usize) -> Block {
    match b {
        0..=447 => block_of(rt, start.state.memory.as_slice(), b),
        448 => Block([33; 64]),
        449 => {
            let mut behind = Block::ZERO;
            behind.put(0, &[33; 6]);
            behind
        }
        _ => Block::ZERO,
    }
}

/// How many instructions a processor has retired that is sealed with an epoch. For epoch 0 it is the start's count.
fn count_of(epoch: u64) -> u64 {
    match epoch {
        0 => 5,
        1 => 10,
        2 => 20,
        _ => 30,
    }
}

/// What is done with the machine once it is booted.
#[derive(Clone, Copy, Debug, PartialEq, Eq)]
enum Action {
    /// A block of one letter is stored, with the copy that comes first if there is one.
    Store(u64, u8),
    /// The epoch is sealed.
    Seal(u64),
    /// All pages in promotion get their frames.
    Promote,
    /// All buffers over frames are merged into the frames.
    Merge,
    /// The engine takes one action.
    Step,
    /// The engine takes actions until it commits.
    Commit,
}

/// How many blocks of the first page are stored first.
const DENSE: usize = 23;

/// What follows these stores: two epochs with stores of one block and of a page, also while their checkpoints are under
/// way. The page gets a frame in the first one, and is written to its alternate page in the second.
const ACTIONS: [Action; 33] = [
    Action::Store(100, b'B'),
    Action::Store(200, b'C'),
    Action::Store(500, b'D'),
    Action::Seal(1),
    Action::Promote,
    Action::Store(100, b'E'),
    Action::Step,
    Action::Store(300, b'F'),
    Action::Step,
    Action::Store(7, b'G'),
    Action::Store(500, b'H'),
    Action::Step,
    Action::Commit,
    Action::Store(5, b'I'),
    Action::Store(100, b'J'),
    Action::Store(101, b'K'),
    Action::Store(500, b'L'),
    Action::Seal(2),
    Action::Store(200, b'M'),
    Action::Step,
    Action::Store(100, b'N'),
    Action::Store(5, b'O'),
    Action::Step,
    Action::Store(40, b'P'),
    Action::Step,
    Action::Store(300, b'Q'),
    Action::Store(500, b'R'),
    Action::Store(500, b'S'),
    Action::Commit,
    Action::Store(6, b'T'),
    Action::Merge,
    Action::Store(5, b'U'),
    Action::Store(100, b'V'),
];

/// The action after `done` others, if there is one.
fn action_of(done: usize) -> Option<Action> {
    if done < DENSE {
        return Some(Action::Store(done as u64, b'A'));
    }
    ACTIONS.get(done - DENSE).copied()
}

/// What was done and stored so far, which the machine is compared with.
#[derive(Drop)]
struct Beside {
    /// How many actions were done.
    done: usize,
    /// The blocks of memory.
    work: Vec<Block>,
    /// Memory at each seal, one after another; first the start's.
    sealed: Vec<Block>,
    /// The epoch that was committed last.
    committed: Option<u64>,
    /// The epoch whose commit block is written, and not yet confirmed.
    in_doubt: Option<u64>,
}

impl Beside {
    fn of(rt: &impl Abort, alloc: Global, start: &Start) -> Beside {
        let mut work = Vec::new(alloc);
        for b in 0..512 {
            work.push(block_of_start(rt, start, b)).expect(rt, "memory");
        }
        let mut sealed = Vec::new(alloc);
        sealed.extend_from_slice(&work).expect(rt, "memory");
        Beside {
            done: 0,
            work,
            sealed,
            committed: None,
            in_doubt: None,
        }
    }

    fn store(&mut self, rt: &impl Abort, b: u64, block: &Block) {
        let inside = (b as usize) < self.work.len();
        assert!(rt; inside);
        self.work[b as usize] = *block;
    }

    fn seal(&mut self, rt: &impl Abort) {
        self.sealed
            .extend_from_slice(&self.work)
            .expect(rt, "memory");
    }

    fn commit(&mut self, epoch: u64) {
        self.committed = Some(epoch);
        self.in_doubt = None;
    }

    /// Block `b` of the checkpoint of an epoch.
    fn sealed(&self, rt: &impl Abort, epoch: u64, b: u64) -> Block {
        assert!(rt; epoch < 3);
        assert!(rt; b < 512);
        let at = (512 * epoch + b) as usize;
        let inside = at < self.sealed.len();
        assert!(rt; inside);
        self.sealed[at]
    }

    fn is_done(&self) -> bool {
        action_of(self.done).is_none()
    }
}

/// A machine whose power is on.
#[derive(Drop)]
enum Machine {
    Boots(Starting),
    Runs(Memory),
}

/// A step of a boot.
fn boots(rt: &impl Abort, starting: Starting, beside: &mut Beside) -> Machine {
    match starting.step(rt) {
        Taken::Going(starting) => {
            if starting.is_in_doubt() {
                beside.in_doubt = Some(0);
            }
            Machine::Boots(starting)
        }
        Taken::Over(memory, reported) => {
            expect(rt, reported, BootStep::Loaded);
            beside.commit(0);
            Machine::Runs(memory)
        }
    }
}

/// Stores a block, and returns whether that was done.
fn store(rt: &impl Abort, memory: &mut Memory, beside: &mut Beside, b: u64, letter: u8) -> bool {
    assert!(rt; b < 512);
    let block = Block([letter; 64]);
    match memory.store(rt, b, &block) {
        Stored::Done => {
            beside.store(rt, b, &block);
            true
        }
        Stored::CopyFirst => false,
    }
}

/// Takes an action of the engine. Returns whether it committed the checkpoint.
fn step(rt: &impl Abort, memory: &mut Memory, beside: &mut Beside) -> bool {
    match memory.step(rt) {
        EngineStep::Committed(epoch) => {
            beside.commit(epoch);
            true
        }
        EngineStep::CommitWritten => {
            beside.in_doubt = beside.committed.map(|epoch| epoch.saturating_add(1));
            false
        }
        _ => false,
    }
}

/// Does a part of an action, and returns whether it is done.
fn act(rt: &impl Abort, memory: &mut Memory, beside: &mut Beside, action: Action) -> bool {
    match action {
        Action::Store(b, letter) => store(rt, memory, beside, b, letter),
        Action::Seal(epoch) => {
            memory.seal(rt, epoch, count_of(epoch));
            beside.seal(rt);
            true
        }
        Action::Promote => {
            memory.promote_one(rt);
            !memory.promoting()
        }
        Action::Merge => {
            memory.merge_one(rt);
            !memory.overlay()
        }
        Action::Step => {
            let committed = step(rt, memory, beside);
            expect(rt, committed, false);
            true
        }
        Action::Commit => step(rt, memory, beside),
    }
}

/// A tick of a machine that runs: a drain, or a part of the next action.
fn runs(rt: &impl Abort, memory: &mut Memory, beside: &mut Beside, tick: u64) {
    match tick % 5 {
        2 => memory.drain_nvm(rt),
        4 => memory.drain_dram(),
        _ => {
            if let Some(action) = action_of(beside.done) {
                if act(rt, memory, beside, action) {
                    beside.done = beside.done.saturating_add(1);
                }
            }
        }
    }
}

fn tick(rt: &impl Abort, machine: Machine, beside: &mut Beside, tick: u64) -> Machine {
    match machine {
        Machine::Boots(starting) => boots(rt, starting, beside),
        Machine::Runs(mut memory) => {
            runs(rt, &mut memory, beside, tick);
            Machine::Runs(memory)
        }
    }
}

/// A machine that was never on, with its power coming on.
fn begun(rt: &impl Abort, alloc: Global) -> (Machine, Beside) {
    let geometry = geometry_of(alloc, &least()).expect(rt, "numbers in range");
    let start = start_of(rt, alloc);
    let beside = Beside::of(rt, alloc, &start);
    let starting = Off::new(rt, alloc, geometry, 1).boot(rt, alloc, start);
    (Machine::Boots(starting), beside)
}

/// How many ticks a machine takes until all is done.
fn whole(rt: &impl Abort, alloc: Global) -> u64 {
    let (mut machine, mut beside) = begun(rt, alloc);
    for at in 0..5000 {
        if beside.is_done() {
            expect(rt, beside.committed, Some(2));
            return at;
        }
        machine = tick(rt, machine, &mut beside, at);
    }
    panic!(rt; "no end")
}

/// Boots after a cut, up to the end.
fn booted(rt: &impl Abort, starting: Starting) -> (Memory, BootStep) {
    let mut going = starting;
    for _ in 0..2000 {
        match going.step(rt) {
            Taken::Going(starting) => going = starting,
            Taken::Over(memory, reported) => return (memory, reported),
        }
    }
    panic!(rt; "no end")
}

/// The epoch whose checkpoint was found: the committed one, or the one in doubt. Nothing was committed if the start was
/// loaded again.
fn found(rt: &impl Abort, reported: BootStep, beside: &Beside, at: u64) -> u64 {
    match reported {
        BootStep::Restarted(cpu, epoch) => {
            let is_due = beside.committed == Some(epoch) || beside.in_doubt == Some(epoch);
            expect_at(rt, is_due, true, at);
            expect_at(rt, cpu.count, count_of(epoch), at);
            epoch
        }
        reported => {
            expect_at(rt, reported, BootStep::Loaded, at);
            expect_at(rt, beside.committed, None, at);
            0
        }
    }
}

/// Cuts the power after `ticks` ticks, and compares what the machine restarts with. Returns whether a checkpoint was in
/// doubt.
fn cut(rt: &impl Abort, alloc: Global, ticks: u64, pick: u64) -> bool {
    let (mut machine, mut beside) = begun(rt, alloc);
    for at in 0..ticks {
        machine = tick(rt, machine, &mut beside, at);
    }
    let off = match machine {
        Machine::Boots(starting) => starting.cut(rt, pick),
        Machine::Runs(memory) => memory.cut(rt, pick),
    };
    let (mut memory, reported) = booted(rt, off.boot(rt, alloc, start_of(rt, alloc)));
    let epoch = found(rt, reported, &beside, ticks);
    for b in 0..512 {
        expect_at(rt, memory.load(rt, b), beside.sealed(rt, epoch, b), ticks);
    }
    beside.in_doubt.is_some()
}

/// Cuts the power after `ticks` ticks with each of four picks for what that leaves of the queued writes: none, all, and
/// two draws. If a checkpoint is in doubt it is cut with 32 more draws, so that its commit block lands without others.
fn cuts(rt: &impl Abort, alloc: Global, ticks: u64) {
    for pick in [0, 1, 7] {
        cut(rt, alloc, ticks, pick);
    }
    if cut(rt, alloc, ticks, 12345) {
        for pick in 100..132 {
            cut(rt, alloc, ticks, pick);
        }
    }
}

// The power is cut after every tick: each step of the boot and of the engine, each store, seal and drain.
#[test]
fn every_cut_restarts_with_what_was_committed(rt: HostRuntime) {
    let ticks = whole(&rt, rt.alloc());
    for at in 0..=ticks {
        cuts(&rt, rt.alloc(), at);
    }
}
