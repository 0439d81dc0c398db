//! A machine of the least memory whose power is off, and one that boots.
ghost use Rattle.std.specs.Prelude.{◌≡◌, true, false, length};
ghost use Rattle.thy_block.specs.Device.{IsFramed};
ghost use Rattle.thy_block.specs.Geometry.{IsInRange};
ghost use Rattle.thy_block.specs.Places.{dram_blocks};
ghost use Rattle.thy_checkpoint.specs.Boot.{new_boot};
ghost use Rattle.thy_control.specs.State.{new_state};
ghost use Rattle.thy_isa.specs.Step.{state_of};
ghost use Rattle.thy_thynvm_parts.specs.Filling.{filling_thynvm};
ghost use Rattle.thy_control_tests.specs.Boots.{Boots, goes_on};
ghost use Rattle.thy_test_support.specs.Starts.{IsLeastStart};
ghost use Rattle.thy_control_tests.specs.Starting.{is_refused};

use crate::support::memory::Memory;
use std::alloc::Global;
use std::marker::Model;
use std::process::Abort;
use thy_base::{Geometry, Nvm, Shape};
use thy_checkpoint::{Boot, Stage, a_boot_may_go_on};
use thy_computer::{BootStep, Round};
use thy_control::Control;
use thy_dram::Dram;
use thy_layout::Start;
use thy_nvm::MemNvm;
use thy_schemes::ThynvmTables;
use thy_table::blocks;

/// A machine whose power is off: both devices, and how many cuts are to come at most.
#[derive(Drop)]
pub(crate) struct Off {
    pub(crate) geometry: Geometry,
    pub(crate) dram: Dram,
    pub(crate) nvm: MemNvm,
    pub(crate) cuts: u64,
}

impl Model for Off {
    ghost use Rattle.thy_control_tests.specs.Starting.{Off as IsValue, IsOff};

    ghost Value = { IsValue };

    ghost view = { λ m. record { p = m.geometry; dram = m.dram; nvm = m.nvm.device; cuts = m.cuts } };

    ghost invariant = { λ m. IsOff (record { p = m.geometry; dram = m.dram; nvm = m.nvm.device; cuts = m.cuts }) };
}

/// Stops the test unless a geometry is of seven pages of a program, one of the console, and one hart.
pub(crate) fn has_least_memory(rt: &impl Abort, geometry: &Geometry)
    ensures pages { geometry.now.pages ≡ 8 }
    ensures console { geometry.now.console ≡ 1 }
    ensures harts { geometry.now.harts ≡ 1 }
    ensures in_range { IsInRange geometry.now }
{
    let numbers = geometry.numbers();
    assert!(rt; numbers.pages == 8);
    assert!(rt; numbers.console == 1);
    assert!(rt; numbers.harts == 1);
}

pub(crate) fn new_boot(rt: &impl Abort, alloc: Global, geometry: &Geometry) -> Boot
    ensures { result ≡ new_boot filling_thynvm geometry.now }
{
    Boot::new::<ThynvmTables>(alloc, geometry).expect(rt, "memory")
}

fn new_controller(rt: &impl Abort, alloc: Global, geometry: &Geometry, dram: Dram) -> Control
    requires { length dram.blocks ≡ dram_blocks geometry.now }
    ensures { result ≡ new_state geometry.now dram }
{
    Control::new(alloc, geometry, dram).expect(rt, "memory")
}

impl Off {
    /// A machine that was never on: both devices hold zeros.
    pub(crate) fn new(rt: &impl Abort, alloc: Global, geometry: Geometry, cuts: u64) -> Off {
        has_least_memory(rt, &geometry);
        let shape = Shape {
            blocks: blocks(&geometry),
            queue: 4,
            cuts,
        };
        let mut nvm = MemNvm::new(alloc);
        nvm.fit(alloc, &shape, Vec::new(alloc))
            .expect(rt, "a device");
        Off {
            geometry,
            dram: Dram::new(alloc, geometry.dram_blocks(), 4).expect(rt, "memory"),
            nvm,
            cuts,
        }
    }

    /// The power of both devices comes on.
    pub(crate) fn boot(self, rt: &impl Abort, alloc: Global, start: Start) -> Starting
        requires { IsLeastStart (state_of start.state) }
    {
        let Off {
            geometry,
            dram,
            nvm,
            cuts,
        } = self;
        has_least_memory(rt, &geometry);
        let boot = new_boot(rt, alloc, &geometry);
        let control = new_controller(rt, alloc, &geometry, dram);
        control.recall_tables();
        Starting {
            geometry,
            start,
            boot,
            control,
            nvm,
            cuts,
        }
    }
}

/// A machine that boots.
#[derive(Drop)]
pub(crate) struct Starting {
    geometry: Geometry,
    start: Start,
    boot: Boot,
    control: Control,
    nvm: MemNvm,
    cuts: u64,
}

impl Model for Starting {
    ghost use Rattle.thy_isa.specs.Step.{state_of};
    ghost use Rattle.thy_control_tests.specs.Starting.{Starting as IsValue, starting, IsStarting};

    ghost Value = { IsValue };

    ghost view = { λ m. starting m.geometry (state_of m.start.state) m.boot m.control m.nvm.device m.cuts };

    ghost invariant = { λ m. IsStarting (starting m.geometry (state_of m.start.state) m.boot m.control m.nvm.device m.cuts) };
}

/// What a step of a boot makes of the machine.
#[derive(Drop)]
pub(crate) enum Taken {
    Going(Starting),
    /// The boot is over, with what was returned.
    Over(Memory, BootStep),
}

/// Takes a step, and returns what it returned.
fn step<N: Nvm>(
    rt: &impl Abort,
    boot: &mut Boot,
    control: &mut Control,
    start: &Start,
    nvm: &mut N,
) -> BootStep
    requires boots { Boots (state_of start.now.state) (N.device nvm.old) boot.old control.old }
    requires idle { control.old.under_way ≡ false }
    ensures on { goes_on result ≡ true → Boots (state_of start.now.state) (N.device nvm.new) boot.new control.new }
    ensures idle { is_refused result ≡ false → control.new.under_way ≡ false }
    ensures same_p { control.new.p ≡ control.old.p }
    ensures same_boot { boot.new.p ≡ boot.old.p }
    ensures up { (N.device nvm.new).down ≡ false }
    ensures frame { IsFramed (N.device nvm.old) (N.device nvm.new) }
{
    a_boot_may_go_on::<ThynvmTables>();
    boot.step::<ThynvmTables, N>(control, start, nvm)
        .expect(rt, "a step")
}

impl Starting {
    /// Whether the commit block of loading is written.
    pub(crate) fn is_in_doubt(&self) -> bool {
        matches!(self.boot.stage(), Stage::Loads(Round::Confirm))
    }

    /// Takes a step, which must not refuse the image.
    pub(crate) fn step(self, rt: &impl Abort) -> Taken {
        let Starting {
            geometry,
            start,
            mut boot,
            mut control,
            mut nvm,
            cuts,
        } = self;
        let reported = step(rt, &mut boot, &mut control, &start, &mut nvm);
        match reported {
            BootStep::GoesOn => Taken::Going(Starting {
                geometry,
                start,
                boot,
                control,
                nvm,
                cuts,
            }),
            BootStep::Loaded | BootStep::Restarted(_, _) => {
                Taken::Over(Memory::booted(rt, geometry, control, nvm, cuts), reported)
            }
            BootStep::Refused(_) => panic!(rt; "refused"),
        }
    }

    /// Cuts the power of both devices with one pick.
    pub(crate) fn cut(self, rt: &impl Abort, pick: u64) -> Off {
        assert!(rt; self.cuts > 0);
        self.control.recall_tables();
        let mut nvm = self.nvm;
        nvm.cut(pick);
        Off {
            geometry: self.geometry,
            dram: self.control.cut(pick),
            nvm,
            cuts: self.cuts - 1,
        }
    }
}
