//! The checkpoint engine's turn, and that of the DRAM's queue.
ghost use Rattle.std.specs.Prelude.{◌≡◌, ◌+◌, ◌<◌, ◌^◌, if◌then◌else◌, Ok};
ghost use Rattle.thy_computer.specs.NextActor.{Dram, Checkpoint};
ghost use Rattle.thy_scheme.specs.Calls.{engine_did};
ghost use Rattle.thy_scheme.specs.MachineCalls.{after_engine};
ghost use Rattle.thy_core.specs.Cycles.{IsAnyRun, CanTake, HasTaken};
ghost use Rattle.thy_core.specs.MachineParts.{machine_of};

use crate::parts::{Checkpoints, MachineParts};
use thy_block::{Nvm, NvmError};
use thy_computer::{Did, Phase};
use thy_layout::EngineStep;
use thy_scheme::Scheme;

/// Takes one action of the checkpoint that is under way.
#[inline(always)]
pub(crate) fn checkpoint<N: Nvm, S: Scheme>(
    m: &mut MachineParts<S>,
    nvm: &mut N,
) -> Result<Did, NvmError>
    requires { CanTake S.scheme IsAnyRun Checkpoint (machine_of m.old) (N.device nvm.old) }
    ensures { HasTaken S.scheme IsAnyRun Checkpoint
        (machine_of m.old) (N.device nvm.old) (machine_of m.new) (N.device nvm.new) result }
{
    let step = m.store.scheme.engine_step(nvm)?;
    Ok(engine_on(m, step))
}

/// Notes what the engine did. With a commit the sealed checkpoint is the committed one, and the machine halts if its
/// state has ended.
fn engine_on<S>(m: &mut MachineParts<S>, step: EngineStep) -> Did
    requires { m.old.spent + 1 < 2 ^ 64 }
    ensures parts { machine_of m.new ≡ after_engine step m.old.store.scheme (machine_of m.old) }
    ensures did { result ≡ engine_did m.old.lap step }
{
    m.spent += 1;
    match step {
        EngineStep::Committed(epoch) => {
            m.checkpoints = Checkpoints {
                done: m.checkpoints.sealed.unwrap_or(m.checkpoints.done),
                sealed: None,
                written: false,
            };
            m.consoles.done = m.consoles.sealed;
            m.phase = phase_behind(m.ends);
            Did::Committed {
                epoch,
                overlapped: m.lap,
            }
        }
        EngineStep::CommitWritten => {
            m.checkpoints.written = true;
            Did::Engine(step)
        }
        EngineStep::Idle
        | EngineStep::Copied
        | EngineStep::PageBlock
        | EngineStep::StateBlock
        | EngineStep::TableBlock
        | EngineStep::Barrier => Did::Engine(step),
    }
}

/// The phase after a checkpoint: a halt if its state has ended, else the run.
fn phase_behind(ends: bool) -> Phase
    ensures { result ≡ (if ends then Phase.Halt else Phase.Run) }
{
    if ends { Phase::Halt } else { Phase::Run }
}

/// Lets the oldest queued write of the DRAM land.
pub(crate) fn drain<N: Nvm, S: Scheme>(m: &mut MachineParts<S>, nvm: &N) -> Did
    requires { CanTake S.scheme IsAnyRun Dram (machine_of m.old) (N.device nvm.now) }
    ensures { HasTaken S.scheme IsAnyRun Dram
        (machine_of m.old) (N.device nvm.now) (machine_of m.new) (N.device nvm.now) (Ok result) }
{
    m.store.scheme.drain();
    Did::DramDrained
}
