//! The boot's turn.
ghost use Rattle.std.specs.Prelude.{◌≡◌, ◌+◌, ◌-◌, ◌<◌, ◌^◌, if◌then◌else◌};
ghost use Rattle.thy_isa.specs.Step.{state_of, cpu_of, is_running};
ghost use Rattle.thy_computer.specs.declared.did.Stall.TheVariants.{Booting};
ghost use Rattle.thy_computer.specs.Booting.{boot_did};
ghost use Rattle.thy_computer.specs.Origin.{Origin, Begins};
ghost use Rattle.thy_computer.specs.NextActor.{Stalled};
ghost use Rattle.thy_scheme.specs.MachineCalls.{running_from, after_boot};
ghost use Rattle.thy_core.specs.Cycles.{HasStart, CanTake, HasTaken};
ghost use Rattle.thy_core.specs.MachineParts.{machine_of, IsRestartBelow};

use crate::parts::{Checkpoints, Consoles, MachineParts};
use thy_block::{Mark, Nvm, NvmError};
use thy_computer::{BootStep, Did, Phase};
use thy_hart::Hart;
use thy_isa::{CpuState, MachState, is_running};
use thy_layout::Start;
use thy_scheme::Scheme;

/// Takes one action of the boot.
#[inline(never)]
pub(crate) fn boot<N: Nvm, S: Scheme>(
    m: &mut MachineParts<S>,
    start: &Start,
    nvm: &mut N,
) -> Result<Did, NvmError>
    requires { CanTake S.scheme (HasStart start.now) (Stalled Booting) (machine_of m.old) (N.device nvm.old) }
    ensures { HasTaken S.scheme (HasStart start.now) (Stalled Booting)
        (machine_of m.old) (N.device nvm.old) (machine_of m.new) (N.device nvm.new) result }
{
    let step = m.store.scheme.boot_step(start, nvm)?;
    Ok(boot_on(m, start, step))
}

/// Notes what the boot did: after its last step the hart is at the checkpoint that was loaded or restored.
fn boot_on<S>(m: &mut MachineParts<S>, start: &Start, step: BootStep) -> Did
    requires { IsRestartBelow (2 ^ 64 - 1) step }
    ensures parts { (o : Origin) → Begins o start.now → machine_of m.new ≡ after_boot o step m.old.store.scheme (machine_of m.old) }
    ensures did { result ≡ boot_did step }
{
    match step {
        BootStep::GoesOn => Did::Boot,
        BootStep::Loaded => {
            run_from(m, &start.state.cpu(), 0);
            Did::Loaded
        }
        BootStep::Restarted(cpu, epoch) => {
            run_from(m, &cpu, epoch);
            Did::Restarted(epoch, cpu.count)
        }
        BootStep::Refused(bad) => Did::Refused(bad),
    }
}

/// Begins to execute after the checkpoint of an epoch, with this processor.
fn run_from<S>(m: &mut MachineParts<S>, cpu: &CpuState, epoch: u64)
    requires { epoch + 1 < 2 ^ 64 }
    ensures { machine_of m.new ≡ running_from cpu.now epoch m.old.store.scheme (machine_of m.old) }
{
    let geometry = *m.hart.geometry();
    m.hart = Hart::new(cpu, epoch + 1, &geometry);
    m.phase = phase_of(cpu);
    m.checkpoints = Checkpoints {
        done: Mark {
            epoch,
            count: cpu.count,
        },
        sealed: None,
        written: false,
    };
    m.consoles = Consoles {
        done: cpu.console_len,
        sealed: 0,
    };
    m.begun = None;
    m.last = None;
}

/// The phase of a machine that begins with this processor.
fn phase_of(cpu: &CpuState) -> Phase
    ensures { result ≡ (if is_running cpu.now.status then Phase.Run else Phase.Halt) }
{
    if is_running(cpu.status) {
        Phase::Run
    } else {
        Phase::Halt
    }
}
