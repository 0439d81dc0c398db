//! Plain lists of blocks, one for each version of memory: beside them random calls are made of what a scheme has for a
//! table, of its engine and of its boot, through cuts of power.
ghost use Rattle.std.specs.Prelude.{◌≡◌, ◌<◌};
ghost use Rattle.thy_block.specs.Geometry.{IsInRange};
ghost use Rattle.thy_isa.specs.Step.{state_of};
ghost use Rattle.thy_test_support.specs.Starts.{IsLeastStart};

use crate::support::expect::{expect, expect_at};
use std::alloc::Global;
use std::process::Abort;
use thy_base::{Block, Geometry, Lcg, Parameters, SchemeName};
use thy_computer::BootStep;
use thy_isa::{CpuState, Regs, Status};
use thy_layout::{EngineStep, Start};
use thy_test_support::{LEAST, cpu_at, start_over};

/// The least memory, of 512 blocks in eight pages, with the least table and the least frames of a scheme.
pub(crate) fn least(scheme: SchemeName) -> Parameters {
    Parameters { scheme, ..LEAST }
}

/// A start whose memory is full of sevens, and whose console has 70 exclamation marks.
pub(crate) fn start_of(rt: &impl Abort, alloc: Global) -> Start
    ensures { IsLeastStart (state_of result.state) }
{
    let memory = vec![in alloc; 7u8; 28672].expect(rt, "memory");
    start_over(alloc, memory).expect(rt, "memory")
}

/// Stops the test unless a geometry is of seven pages of a program, one of the console, and one hart.
pub(crate) fn has_least_memory(rt: &impl Abort, geometry: &Geometry)
    ensures pages { geometry.now.pages ≡ 8 }
    ensures console { geometry.now.console ≡ 1 }
    ensures harts { geometry.now.harts ≡ 1 }
    ensures in_range { IsInRange geometry.now }
{
    let numbers = geometry.numbers();
    assert!(rt; numbers.pages == 8);
    assert!(rt; numbers.console == 1);
    assert!(rt; numbers.harts == 1);
}

/// Block `b` of memory as the start has it, with the console in the last page.
fn block_of_start(b: usize) -> Block {
    match b {
        0..=447 => Block([7; 64]),
        448 => Block([33; 64]),
        449 => {
            let mut behind = Block::ZERO;
            behind.put(0, &[33; 6]);
            behind
        }
        _ => Block::ZERO,
    }
}

/// The processor of the start.
fn processor() -> CpuState {
    CpuState {
        pc: 65540,
        regs: Regs::new(),
        console_len: 70,
        cursor: 3,
        brk: 65600,
        floor: 65600,
        count: 5,
        status: Status::Running,
        other: None,
    }
}

/// How many instructions the processor has retired that is sealed with an epoch.
pub(crate) fn count_of(epoch: u64) -> u64 {
    epoch.saturating_mul(100)
}

/// A block's number: mostly one of twelve, or any.
pub(crate) fn drawn_number(lcg: &mut Lcg) -> u64
    ensures { result < 512 }
{
    let draw = lcg.next();
    match lcg.next() % 4 {
        0 => draw % 512,
        _ => draw % 12 * 43,
    }
}

/// A pick of a cut: of what is queued nothing, all, or a draw.
pub(crate) fn drawn_pick(lcg: &mut Lcg) -> u64 {
    let draw = lcg.next();
    match draw % 4 {
        0 => 0,
        1 => 1,
        _ => draw,
    }
}

/// Block `b` of a list.
fn block_in(rt: &impl Abort, blocks: &[Block], b: u64) -> Block {
    match blocks.get(b as usize) {
        Some(block) => *block,
        None => panic!(rt; "no block"),
    }
}

/// What memory has to hold, block by block, in each version.
#[derive(Drop)]
pub(crate) struct Versions {
    /// At the committed checkpoint, with its epoch. There is none until the program was loaded.
    committed: Vec<Block>,
    pub(crate) epoch: u64,
    /// The blocks at the last seal.
    last: Vec<Block>,
    /// The blocks now.
    work: Vec<Block>,
    /// The commit block of the last seal's checkpoint was written, and is not yet confirmed.
    pub(crate) written: bool,
    /// The commit block of the last seal's checkpoint has landed.
    landed: bool,
}

/// Which kinds of moments have come with every scheme.
#[derive(Clone, Copy, Debug, PartialEq)]
pub(crate) struct Seen {
    /// A commit.
    pub(crate) committed: bool,
    /// No entry or frame was free for a store.
    pub(crate) full: bool,
    /// A cut that left the checkpoint whose commit block was written, and one that left the one before.
    pub(crate) kept_new: bool,
    pub(crate) kept_old: bool,
    /// A cut while a checkpoint was written.
    pub(crate) cut_making: bool,
    /// A cut in a boot.
    pub(crate) cut_booting: bool,
}

/// Nothing is seen, and everything.
pub(crate) static NOTHING: Seen = Seen {
    committed: false,
    full: false,
    kept_new: false,
    kept_old: false,
    cut_making: false,
    cut_booting: false,
};

pub(crate) static ALL: Seen = Seen {
    committed: true,
    full: true,
    kept_new: true,
    kept_old: true,
    cut_making: true,
    cut_booting: true,
};

impl Versions {
    pub(crate) fn of_start(rt: &impl Abort, alloc: Global) -> Versions {
        let mut work = Vec::new(alloc);
        for b in 0..512 {
            work.push(block_of_start(b)).expect(rt, "memory");
        }
        Versions {
            committed: work.clone().expect(rt, "memory"),
            epoch: 0,
            last: work.clone().expect(rt, "memory"),
            work,
            written: false,
            landed: false,
        }
    }

    /// Notes that a store is done.
    pub(crate) fn store(&mut self, rt: &impl Abort, b: u64, block: &Block) {
        match self.work.get_mut(b as usize) {
            Some(place) => *place = *block,
            None => panic!(rt; "no block"),
        }
    }

    pub(crate) fn seal(&mut self, rt: &impl Abort) {
        self.last = self.work.clone().expect(rt, "memory");
    }

    /// The engine took a step.
    pub(crate) fn note(&mut self, rt: &impl Abort, step: EngineStep, seen: &mut Seen) {
        match step {
            EngineStep::CommitWritten => {
                self.written = true;
                self.landed = false;
            }
            EngineStep::Committed(epoch) => {
                expect(rt, epoch, self.epoch.saturating_add(1));
                self.commit(rt);
                seen.committed = true;
            }
            _ => {}
        }
    }

    /// A write of the NVM has landed, if one was queued.
    pub(crate) fn land(&mut self, drained: bool) {
        self.landed |= self.written && drained;
    }

    /// The last seal's checkpoint is the committed one.
    fn commit(&mut self, rt: &impl Abort) {
        self.committed = self.last.clone().expect(rt, "memory");
        self.epoch = self.epoch.saturating_add(1);
        self.written = false;
    }

    /// Notes that a boot after a cut with this pick has found the checkpoint of this epoch.
    fn found(&mut self, rt: &impl Abort, epoch: u64, pick: u64, seen: &mut Seen) {
        let is_new = self.written && epoch == self.epoch.saturating_add(1);
        if self.written {
            seen.kept_new |= is_new;
            seen.kept_old |= !is_new;
            let may_be = match pick {
                0 => self.landed == is_new,
                1 => is_new,
                _ => is_new || !self.landed,
            };
            assert!(rt; may_be);
        }
        if is_new {
            self.commit(rt);
        }
        expect(rt, epoch, self.epoch);
        self.written = false;
        self.work = self.committed.clone().expect(rt, "memory");
    }

    /// Compares what a boot returned with the committed checkpoint, or the one in doubt.
    pub(crate) fn compare_found(
        &mut self,
        rt: &impl Abort,
        reported: BootStep,
        pick: u64,
        seen: &mut Seen,
    ) {
        match reported {
            BootStep::Restarted(cpu, epoch) => {
                self.found(rt, epoch, pick, seen);
                let want = if epoch == 0 {
                    processor()
                } else {
                    cpu_at(count_of(epoch))
                };
                expect(rt, cpu, want);
            }
            _ => panic!(rt; "no checkpoint"),
        }
    }

    /// Compares a block as it is now and as the committed checkpoint has it.
    pub(crate) fn compare(&self, rt: &impl Abort, b: u64, work: Block, committed: Block) {
        expect_at(rt, work, block_in(rt, &self.work, b), b);
        expect_at(rt, committed, block_in(rt, &self.committed, b), b);
    }
}
