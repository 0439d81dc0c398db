//! Log, engine and boot of a redo journal of the least memory, and the NVM below them: what its calls are made of. Each call
//! here tests what it requires, and stops the test if that does not hold.
ghost use Rattle.std.specs.Prelude.{◌≡◌, ◌<◌, ◌≤◌, true, false, length};
ghost use Rattle.thy_block.specs.Device.{IsFramed};
ghost use Rattle.thy_block.specs.Places.{dram_blocks};
ghost use Rattle.thy_checkpoint.specs.Boot.{new_boot};
ghost use Rattle.thy_isa.specs.Step.{state_of};
ghost use Rattle.thy_journal_parts.specs.State.{new_state};
ghost use Rattle.thy_journal_parts.specs.Filling.{filling_journal};
ghost use Rattle.thy_machine_tests.specs.Least.{goes_on};
ghost use Rattle.thy_test_support.specs.Starts.{IsLeastStart};
ghost use Rattle.thy_machine_tests.specs.LogParts.{Boots, IsBegun};

use crate::beside::has_least_memory;
use std::alloc::Global;
use std::marker::Model;
use std::process::Abort;
use thy_base::{Block, Geometry, Nvm, Shape};
use thy_checkpoint::{Boot, Engine, a_boot_may_go_on};
use thy_computer::BootStep;
use thy_dram::Dram;
use thy_images::journal::blocks;
use thy_journal_parts::Log;
use thy_layout::{EngineStep, Start};
use thy_nvm::MemNvm;
use thy_schemes::Refill;
use thy_test_support::cpu_at;

/// Both devices while the power is off, and how many cuts are to come at most.
#[derive(Drop)]
pub(crate) struct Off {
    geometry: Geometry,
    dram: Dram,
    nvm: MemNvm,
    cuts: u64,
}

impl Model for Off {
    ghost use Rattle.thy_machine_tests.specs.Least.{Off as IsValue, off};
    ghost use Rattle.thy_machine_tests.specs.LogParts.{IsOff};

    ghost Value = { IsValue };

    ghost view = { λ m. off m.geometry m.dram m.nvm.device m.cuts };

    ghost invariant = { λ m. IsOff (off m.geometry m.dram m.nvm.device m.cuts) };
}

/// Log, engine and NVM once the boot is over.
#[derive(Drop)]
pub(crate) struct Parts {
    geometry: Geometry,
    log: Log,
    engine: Engine,
    nvm: MemNvm,
    cuts: u64,
}

impl Model for Parts {
    ghost use Rattle.thy_machine_tests.specs.LogParts.{Parts as IsValue, AreParts, parts};

    ghost Value = { IsValue };

    ghost view = { λ m. parts m.geometry m.log m.engine m.nvm.device m.cuts };

    ghost invariant = { λ m. AreParts (parts m.geometry m.log m.engine m.nvm.device m.cuts) };
}

/// The outcome of a boot.
#[derive(Drop)]
pub(crate) enum Booted {
    /// The boot is over, with what was returned.
    Over(Parts, BootStep),
    /// The power was cut before.
    Cut(Off),
}

fn new_boot(rt: &impl Abort, alloc: Global, geometry: &Geometry) -> Boot
    ensures { result ≡ new_boot filling_journal geometry.now }
{
    Boot::new::<Refill>(alloc, geometry).expect(rt, "memory")
}

fn new_log(rt: &impl Abort, alloc: Global, geometry: &Geometry, dram: Dram) -> Log
    requires { length dram.blocks ≡ dram_blocks geometry.now }
    ensures { result ≡ new_state geometry.now dram }
{
    Log::new(alloc, geometry, dram).expect(rt, "memory")
}

/// Takes a step of the boot, and returns what it returned.
fn step<N: Nvm>(
    rt: &impl Abort,
    boot: &mut Boot,
    log: &mut Log,
    start: &Start,
    nvm: &mut N,
) -> BootStep
    requires { Boots (state_of start.now.state) (N.device nvm.old) boot.old log.old }
    ensures on { goes_on result ≡ true → Boots (state_of start.now.state) (N.device nvm.new) boot.new log.new }
    ensures same_p { log.new.p ≡ log.old.p }
    ensures up { (N.device nvm.new).down ≡ false }
    ensures frame { IsFramed (N.device nvm.old) (N.device nvm.new) }
{
    a_boot_may_go_on::<Refill>();
    log.recall_sound();
    boot.step::<Refill, N>(log, start, nvm).expect(rt, "a step")
}

/// Takes at most `most` steps, and stops when the boot is over. Returns what the last one returned.
fn steps<N: Nvm>(
    rt: &impl Abort,
    boot: &mut Boot,
    log: &mut Log,
    start: &Start,
    nvm: &mut N,
    most: u64,
) -> BootStep
    requires boots { Boots (state_of start.now.state) (N.device nvm.old) boot.old log.old }
    requires some { 1 ≤ most }
    ensures same_p { log.new.p ≡ log.old.p }
    ensures up { (N.device nvm.new).down ≡ false }
    ensures frame { IsFramed (N.device nvm.old) (N.device nvm.new) }
{
    for _ in 1..most {
        let reported = step(rt, boot, log, start, nvm);
        match reported {
            BootStep::GoesOn => {}
            BootStep::Loaded | BootStep::Restarted(_, _) | BootStep::Refused(_) => return reported,
        }
    }
    step(rt, boot, log, start, nvm)
}

/// The engine after the last step of a boot, which must not refuse the image.
fn engine_after(rt: &impl Abort, geometry: &Geometry, reported: &BootStep) -> Engine
    ensures { IsBegun geometry.now result }
{
    let mut engine = Engine::new(geometry);
    match reported {
        BootStep::Restarted(_, _) => engine.apply(),
        BootStep::Refused(_) => panic!(rt; "refused"),
        BootStep::GoesOn | BootStep::Loaded => {}
    }
    engine
}

impl Off {
    /// Two devices that hold zeros: the machine was never on.
    pub(crate) fn new(rt: &impl Abort, alloc: Global, geometry: Geometry, cuts: u64) -> Off {
        has_least_memory(rt, &geometry);
        let shape = Shape {
            blocks: blocks(&geometry),
            queue: 4,
            cuts,
        };
        let mut nvm = MemNvm::new(alloc);
        nvm.fit(alloc, &shape, Vec::new(alloc))
            .expect(rt, "a device");
        Off {
            geometry,
            dram: Dram::new(alloc, geometry.dram_blocks(), 4).expect(rt, "memory"),
            nvm,
            cuts,
        }
    }

    /// The power comes on, and the boot takes its steps. After `most` steps the power is cut again, with one pick for
    /// both devices, unless the boot is over. The image must not be refused.
    pub(crate) fn boot(
        self,
        rt: &impl Abort,
        alloc: Global,
        start: &Start,
        most: u64,
        pick: u64,
    ) -> Booted
        requires start { IsLeastStart (state_of start.now.state) }
        requires some { 1 ≤ most }
    {
        let Off {
            geometry,
            dram,
            mut nvm,
            cuts,
        } = self;
        has_least_memory(rt, &geometry);
        let mut boot = new_boot(rt, alloc, &geometry);
        let mut log = new_log(rt, alloc, &geometry, dram);
        log.recall_sound();
        let reported = steps(rt, &mut boot, &mut log, start, &mut nvm, most);
        log.recall_sound();
        let engine = engine_after(rt, &geometry, &reported);
        let parts = Parts {
            geometry,
            log,
            engine,
            nvm,
            cuts,
        };
        match reported {
            BootStep::GoesOn => Booted::Cut(parts.cut(rt, pick)),
            _ => Booted::Over(parts, reported),
        }
    }
}

impl Parts {
    pub(crate) fn free(&self) -> u64 {
        self.log.free()
    }

    pub(crate) fn under_way(&self) -> bool {
        self.engine.under_way()
    }

    /// Whether the journal of the committed checkpoint is applied.
    pub(crate) fn applies(&self) -> bool {
        self.engine.applies()
    }

    pub(crate) fn load(&mut self, rt: &impl Abort, b: u64) -> Block
        requires inside { b < 512 }
    {
        self.log.load(b, &mut self.nvm).expect(rt, "a load")
    }

    /// The block as the committed checkpoint has it.
    pub(crate) fn committed(&mut self, rt: &impl Abort, b: u64) -> Block
        requires inside { b < 512 }
    {
        if self.engine.applies() {
            self.log.load(b, &mut self.nvm).expect(rt, "a load")
        } else {
            self.log.home(b, &mut self.nvm).expect(rt, "a load")
        }
    }

    pub(crate) fn store(&mut self, rt: &impl Abort, b: u64, block: &Block)
        requires inside { b < 512 }
    {
        let free = self.log.free();
        assert!(rt; free > 0);
        self.log.store(b, block);
        self.log.recall_sound();
    }

    /// Seals the epoch with a processor that retired `count` instructions: its checkpoint begins.
    pub(crate) fn seal(&mut self, rt: &impl Abort, epoch: u64, count: u64) {
        let under_way = self.engine.under_way();
        assert!(rt; !under_way);
        self.engine.begin(&cpu_at(count), epoch);
    }

    /// One action of the engine.
    pub(crate) fn step(&mut self, rt: &impl Abort) -> EngineStep {
        self.engine
            .step::<Refill, MemNvm>(&mut self.log, &mut self.nvm)
            .expect(rt, "a step")
    }

    /// Lets the oldest write that is queued in the NVM land, and returns whether there was one.
    pub(crate) fn drain_nvm(&mut self, rt: &impl Abort) -> bool {
        if self.nvm.queued() > 0 {
            self.nvm.drain().expect(rt, "a drain");
            return true;
        }
        false
    }

    /// Lets the oldest write that is queued in the DRAM land, if there is one.
    pub(crate) fn drain_dram(&mut self) {
        if self.log.queued() > 0 {
            self.log.drain();
        }
    }

    /// Cuts the power of both devices with one pick.
    pub(crate) fn cut(self, rt: &impl Abort, pick: u64) -> Off {
        assert!(rt; self.cuts > 0);
        self.log.recall_sound();
        let mut nvm = self.nvm;
        nvm.cut(pick);
        Off {
            geometry: self.geometry,
            dram: self.log.cut(pick),
            nvm,
            cuts: self.cuts - 1,
        }
    }
}
