//! The boot over the simulated NVM: what it loads into zeros, and what it finds after cuts.
ghost use Rattle.std.specs.Prelude.{◌≡◌, ◌≤◌, true, false, length};
ghost use Rattle.thy_block.specs.Device.{IsFramed};
ghost use Rattle.thy_isa.specs.Step.{state_of};
ghost use Rattle.thy_control_tests.specs.Boots.{Boots, IsNew, IsReady, goes_on};
ghost use Rattle.thy_test_support.specs.Starts.{IsLeastStart};

use crate::support::expect::expect;
use crate::support::starting::{has_least_memory, new_boot};
use std::alloc::Global;
use std::process::Abort;
use thy_base::{Block, Geometry, Nvm, Parameters, Shape};
use thy_checkpoint::{Boot, End, Stage, a_boot_may_go_on};
use thy_computer::{BootStep, Round};
use thy_control::Control;
use thy_dram::Dram;
use thy_isa::{CpuState, Regs, Status};
use thy_layout::Start;
use thy_nvm::MemNvm;
use thy_schemes::ThynvmTables;
use thy_test_support::{LEAST, geometry_of, start_over};

/// The least memory: seven pages of the program and one of the console.
fn least() -> Parameters
    ensures pages { result.pages ≡ 8 }
    ensures console { result.console ≡ 1 }
    ensures btt { result.btt ≡ 8 }
    ensures ptt { result.ptt ≡ 8 }
{
    LEAST
}

/// A start whose memory is full of sevens, and whose console has 70 exclamation marks.
fn start_of(rt: &impl Abort, alloc: Global) -> Start
    ensures { IsLeastStart (state_of result.state) }
{
    let memory = vec![in alloc; 7u8; 28672].expect(rt, "memory");
    start_over(alloc, memory).expect(rt, "memory")
}

/// The controller of a machine whose power came on.
fn controller(rt: &impl Abort, alloc: Global, geometry: &Geometry) -> Control
    ensures { IsNew geometry.now result }
{
    let dram = Dram::new(alloc, geometry.dram_blocks(), 4).expect(rt, "memory");
    Control::new(alloc, geometry, dram).expect(rt, "memory")
}

/// Takes a step, and returns what it returned.
fn step<N: Nvm>(
    rt: &impl Abort,
    boot: &mut Boot,
    control: &mut Control,
    start: &Start,
    nvm: &mut N,
) -> BootStep
    requires { Boots (state_of start.now.state) (N.device nvm.old) boot.old control.old }
    ensures on { goes_on result ≡ true → Boots (state_of start.now.state) (N.device nvm.new) boot.new control.new }
    ensures same_p { control.new.p ≡ control.old.p }
    ensures up { (N.device nvm.new).down ≡ false }
    ensures frame { IsFramed (N.device nvm.old) (N.device nvm.new) }
{
    a_boot_may_go_on::<ThynvmTables>();
    boot.step::<ThynvmTables, N>(control, start, nvm)
        .expect(rt, "a step")
}

/// Takes at most `most` steps, and stops when the boot is over. Returns how many it took, and what the last one
/// returned.
fn steps<N: Nvm>(
    rt: &impl Abort,
    boot: &mut Boot,
    control: &mut Control,
    start: &Start,
    nvm: &mut N,
    most: u64,
) -> (u64, BootStep)
    requires boots { Boots (state_of start.now.state) (N.device nvm.old) boot.old control.old }
    requires some { 1 ≤ most }
    ensures same_p { control.new.p ≡ control.old.p }
    ensures up { (N.device nvm.new).down ≡ false }
    ensures frame { IsFramed (N.device nvm.old) (N.device nvm.new) }
{
    for taken in 1..most {
        let reported = step(rt, boot, control, start, nvm);
        match reported {
            BootStep::GoesOn => {}
            BootStep::Loaded | BootStep::Restarted(_, _) | BootStep::Refused(_) => {
                return (taken, reported);
            }
        }
    }
    (most, step(rt, boot, control, start, nvm))
}

/// Boots a machine whose power came on. Returns how many steps that took, what the last one returned, the boot's stage
/// after it, and which blocks a load then gives: the first one of memory, and two of the console.
fn boot<N: Nvm>(rt: &impl Abort, alloc: Global, nvm: &mut N, most: u64) -> Booted
    requires some { 1 ≤ most }
    requires ready { IsReady (N.device nvm.old) }
    ensures { IsFramed (N.device nvm.old) (N.device nvm.new) }
{
    let geometry = geometry_of(alloc, &least()).expect(rt, "numbers in range");
    let start = start_of(rt, alloc);
    has_least_memory(rt, &geometry);
    let mut boot = new_boot(rt, alloc, &geometry);
    let mut control = controller(rt, alloc, &geometry);
    control.recall_tables();
    let (taken, reported) = steps(rt, &mut boot, &mut control, &start, nvm, most);
    Booted {
        taken,
        reported,
        stage: boot.stage(),
        first: control.load(0, nvm).expect(rt, "a load"),
        console: control.load(448, nvm).expect(rt, "a load"),
        behind: control.load(449, nvm).expect(rt, "a load"),
    }
}

/// The result of a boot.
#[derive(Clone, Copy, Debug, PartialEq, Eq)]
struct Booted {
    taken: u64,
    reported: BootStep,
    stage: Stage,
    first: Block,
    console: Block,
    behind: Block,
}

/// The result of a boot once it is over, and memory is the start's.
fn with_start(taken: u64, reported: BootStep, end: End) -> Booted {
    let mut behind = Block::ZERO;
    behind.put(0, &[33; 6]);
    Booted {
        taken,
        reported,
        stage: Stage::Over(end),
        first: Block([7; 64]),
        console: Block([33; 64]),
        behind,
    }
}

/// The processor of the start.
fn processor() -> CpuState {
    CpuState {
        pc: 65540,
        regs: Regs::new(),
        console_len: 70,
        cursor: 3,
        brk: 65600,
        floor: 65600,
        count: 5,
        status: Status::Running,
        other: None,
    }
}

// A boot reads the commit block, and then loads 512 blocks of memory, 8 of the slot and the header, and has two barriers and
// the commit block between them. Its recovery reads the commit block, the header and 8 blocks of the slot.
#[test]
fn a_start_is_loaded_and_found_again(rt: HostRuntime) {
    let alloc = rt.alloc();
    let mut nvm = MemNvm::new(alloc);
    let shape = Shape {
        blocks: 1064,
        queue: 4,
        cuts: 3,
    };
    nvm.fit(alloc, &shape, Vec::new(alloc))
        .expect(&rt, "a device");
    let loading = boot(&rt, alloc, &mut nvm, 524);
    expect(&rt, loading.reported, BootStep::GoesOn);
    expect(&rt, loading.stage, Stage::Loads(Round::Confirm));
    nvm.cut(7);
    let loaded = boot(&rt, alloc, &mut nvm, 1000);
    let ended = with_start(525, BootStep::Loaded, End::Loaded);
    expect(&rt, loaded, ended);
    nvm.cut(8);
    let found = boot(&rt, alloc, &mut nvm, 1000);
    let restarted = BootStep::Restarted(processor(), 0);
    expect(&rt, found, with_start(10, restarted, End::Restored));
}
