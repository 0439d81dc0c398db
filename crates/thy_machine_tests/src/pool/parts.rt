//! Pool, engine and boot of shadow paging over the least memory, and the NVM below them: what its calls are made of. Each call
//! here tests what it requires, and stops the test if that does not hold.
ghost use Rattle.std.specs.Prelude.{◌≡◌, ◌<◌, ◌≤◌, true, false, length};
ghost use Rattle.thy_block.specs.Device.{IsFramed};
ghost use Rattle.thy_block.specs.Places.{dram_blocks};
ghost use Rattle.thy_checkpoint.specs.Boot.{new_boot};
ghost use Rattle.thy_checkpoint.specs.Progress.{is_under_way};
ghost use Rattle.thy_isa.specs.Step.{state_of};
ghost use Rattle.thy_shadow_parts.specs.Stores.{new_state};
ghost use Rattle.thy_shadow_parts.specs.Filling.{filling_shadow};
ghost use Rattle.thy_machine_tests.specs.Least.{goes_on};
ghost use Rattle.thy_test_support.specs.Starts.{IsLeastStart};
ghost use Rattle.thy_machine_tests.specs.PoolParts.{Boots};

use crate::beside::has_least_memory;
use std::alloc::Global;
use std::marker::Model;
use std::process::Abort;
use thy_base::{Block, Geometry, Nvm, Shape, Stored};
use thy_checkpoint::{Boot, Engine, a_boot_may_go_on};
use thy_computer::BootStep;
use thy_dram::Dram;
use thy_images::shadow::blocks;
use thy_layout::{EngineStep, Start};
use thy_nvm::MemNvm;
use thy_schemes::Relist;
use thy_shadow_parts::Pool;
use thy_test_support::cpu_at;

/// Both devices while the power is off, and how many cuts are to come at most.
#[derive(Drop)]
pub(crate) struct Off {
    geometry: Geometry,
    dram: Dram,
    nvm: MemNvm,
    cuts: u64,
}

impl Model for Off {
    ghost use Rattle.thy_machine_tests.specs.Least.{Off as IsValue, off};
    ghost use Rattle.thy_machine_tests.specs.PoolParts.{IsOff};

    ghost Value = { IsValue };

    ghost view = { λ m. off m.geometry m.dram m.nvm.device m.cuts };

    ghost invariant = { λ m. IsOff (off m.geometry m.dram m.nvm.device m.cuts) };
}

/// Pool, engine and NVM once the boot is over.
#[derive(Drop)]
pub(crate) struct Parts {
    geometry: Geometry,
    pool: Pool,
    engine: Engine,
    nvm: MemNvm,
    cuts: u64,
}

impl Model for Parts {
    ghost use Rattle.thy_machine_tests.specs.PoolParts.{Parts as IsValue, AreParts, parts};

    ghost Value = { IsValue };

    ghost view = { λ m. parts m.geometry m.pool m.engine m.nvm.device m.cuts };

    ghost invariant = { λ m. AreParts (parts m.geometry m.pool m.engine m.nvm.device m.cuts) };
}

/// The outcome of a boot.
#[derive(Drop)]
pub(crate) enum Booted {
    /// The boot is over, with what was returned.
    Over(Parts, BootStep),
    /// The power was cut before.
    Cut(Off),
}

fn new_boot(rt: &impl Abort, alloc: Global, geometry: &Geometry) -> Boot
    ensures { result ≡ new_boot filling_shadow geometry.now }
{
    Boot::new::<Relist>(alloc, geometry).expect(rt, "memory")
}

fn new_pool(rt: &impl Abort, alloc: Global, geometry: &Geometry, dram: Dram) -> Pool
    requires { length dram.blocks ≡ dram_blocks geometry.now }
    ensures { result ≡ new_state geometry.now dram }
{
    Pool::new(alloc, geometry, dram).expect(rt, "memory")
}

/// Stops the test if a checkpoint is under way.
fn is_idle(rt: &impl Abort, engine: &Engine)
    ensures { is_under_way engine.now.stage ≡ false }
{
    let under_way = engine.under_way();
    assert!(rt; !under_way);
}

/// Takes a step of the boot, and returns what it returned.
fn step<N: Nvm>(
    rt: &impl Abort,
    boot: &mut Boot,
    pool: &mut Pool,
    start: &Start,
    nvm: &mut N,
) -> BootStep
    requires { Boots (state_of start.now.state) (N.device nvm.old) boot.old pool.old }
    ensures on { goes_on result ≡ true → Boots (state_of start.now.state) (N.device nvm.new) boot.new pool.new }
    ensures same_p { pool.new.p ≡ pool.old.p }
    ensures up { (N.device nvm.new).down ≡ false }
    ensures frame { IsFramed (N.device nvm.old) (N.device nvm.new) }
{
    a_boot_may_go_on::<Relist>();
    pool.recall_sound();
    boot.step::<Relist, N>(pool, start, nvm)
        .expect(rt, "a step")
}

/// Takes at most `most` steps, and stops when the boot is over. Returns what the last one returned.
fn steps<N: Nvm>(
    rt: &impl Abort,
    boot: &mut Boot,
    pool: &mut Pool,
    start: &Start,
    nvm: &mut N,
    most: u64,
) -> BootStep
    requires boots { Boots (state_of start.now.state) (N.device nvm.old) boot.old pool.old }
    requires some { 1 ≤ most }
    ensures same_p { pool.new.p ≡ pool.old.p }
    ensures up { (N.device nvm.new).down ≡ false }
    ensures frame { IsFramed (N.device nvm.old) (N.device nvm.new) }
{
    for _ in 1..most {
        let reported = step(rt, boot, pool, start, nvm);
        match reported {
            BootStep::GoesOn => {}
            BootStep::Loaded | BootStep::Restarted(_, _) | BootStep::Refused(_) => return reported,
        }
    }
    step(rt, boot, pool, start, nvm)
}

impl Off {
    /// Two devices that hold zeros: the machine was never on.
    pub(crate) fn new(rt: &impl Abort, alloc: Global, geometry: Geometry, cuts: u64) -> Off {
        has_least_memory(rt, &geometry);
        let shape = Shape {
            blocks: blocks(&geometry),
            queue: 4,
            cuts,
        };
        let mut nvm = MemNvm::new(alloc);
        nvm.fit(alloc, &shape, Vec::new(alloc))
            .expect(rt, "a device");
        Off {
            geometry,
            dram: Dram::new(alloc, geometry.dram_blocks(), 4).expect(rt, "memory"),
            nvm,
            cuts,
        }
    }

    /// The power comes on, and the boot takes its steps. After `most` steps the power is cut again, with one pick for
    /// both devices, unless the boot is over. The image must not be refused.
    pub(crate) fn boot(
        self,
        rt: &impl Abort,
        alloc: Global,
        start: &Start,
        most: u64,
        pick: u64,
    ) -> Booted
        requires start { IsLeastStart (state_of start.now.state) }
        requires some { 1 ≤ most }
    {
        let Off {
            geometry,
            dram,
            mut nvm,
            cuts,
        } = self;
        has_least_memory(rt, &geometry);
        let mut boot = new_boot(rt, alloc, &geometry);
        let mut pool = new_pool(rt, alloc, &geometry, dram);
        pool.recall_sound();
        let reported = steps(rt, &mut boot, &mut pool, start, &mut nvm, most);
        pool.recall_sound();
        let engine = Engine::new(&geometry);
        if let BootStep::Refused(_) = reported {
            panic!(rt; "refused");
        }
        let parts = Parts {
            geometry,
            pool,
            engine,
            nvm,
            cuts,
        };
        match reported {
            BootStep::GoesOn => Booted::Cut(parts.cut(rt, pick)),
            _ => Booted::Over(parts, reported),
        }
    }
}

impl Parts {
    pub(crate) fn free(&self) -> u64 {
        self.pool.free()
    }

    pub(crate) fn under_way(&self) -> bool {
        self.engine.under_way()
    }

    pub(crate) fn load(&mut self, rt: &impl Abort, b: u64) -> Block
        requires inside { b < 512 }
    {
        self.pool.load(b, &mut self.nvm).expect(rt, "a load")
    }

    /// The block as the committed checkpoint has it.
    pub(crate) fn committed(&mut self, rt: &impl Abort, b: u64) -> Block
        requires inside { b < 512 }
    {
        self.pool.committed(b, &mut self.nvm).expect(rt, "a load")
    }

    /// One call of a store, while no checkpoint is under way: whether it is done, or a copy came first.
    pub(crate) fn store(&mut self, rt: &impl Abort, b: u64, block: &Block) -> bool
        requires inside { b < 512 }
    {
        is_idle(rt, &self.engine);
        let free = self.pool.free();
        assert!(rt; free > 0);
        let stored = self
            .pool
            .store(b, block, &mut self.nvm)
            .expect(rt, "a store");
        self.pool.recall_sound();
        match stored {
            Stored::Done => true,
            Stored::CopyFirst => false,
        }
    }

    /// Seals the epoch with a processor that retired `count` instructions: its checkpoint begins.
    pub(crate) fn seal(&mut self, rt: &impl Abort, epoch: u64, count: u64) {
        is_idle(rt, &self.engine);
        self.engine.begin(&cpu_at(count), epoch);
        self.pool.seal();
        self.pool.recall_sound();
    }

    /// One action of the engine.
    pub(crate) fn step(&mut self, rt: &impl Abort) -> EngineStep {
        self.engine
            .step::<Relist, MemNvm>(&mut self.pool, &mut self.nvm)
            .expect(rt, "a step")
    }

    /// Lets the oldest write that is queued in the NVM land, and returns whether there was one.
    pub(crate) fn drain_nvm(&mut self, rt: &impl Abort) -> bool {
        if self.nvm.queued() > 0 {
            self.nvm.drain().expect(rt, "a drain");
            return true;
        }
        false
    }

    /// Lets the oldest write that is queued in the DRAM land, if there is one.
    pub(crate) fn drain_dram(&mut self) {
        if self.pool.queued() > 0 {
            self.pool.drain();
            self.pool.recall_sound();
        }
    }

    /// Cuts the power of both devices with one pick.
    pub(crate) fn cut(self, rt: &impl Abort, pick: u64) -> Off {
        assert!(rt; self.cuts > 0);
        self.pool.recall_sound();
        let mut nvm = self.nvm;
        nvm.cut(pick);
        Off {
            geometry: self.geometry,
            dram: self.pool.cut(pick),
            nvm,
            cuts: self.cuts - 1,
        }
    }
}
