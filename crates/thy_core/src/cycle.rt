//! One cycle, at the turn of an actor.
ghost use Rattle.std.specs.Prelude.{◌≡◌, ◌&&◌, not, false, Ok};
ghost use Rattle.thy_computer.specs.declared.did.Stall.TheVariants.{Waiting, Halted};
ghost use Rattle.thy_computer.specs.NextActor.{Nvm, Advances, Stalled, stall_at};
ghost use Rattle.thy_computer.specs.Views.{is_halt};
ghost use Rattle.thy_core.specs.Calm.{KnowsCalm};
ghost use Rattle.thy_core.specs.Cycles.{IsAnyRun, HasStart, CanTake, HasTaken, HasReported, did_by, stepped_by, reported, noted};
ghost use Rattle.thy_core.specs.MachineParts.{machine_of, actor_seen};

use crate::boot::boot;
use crate::engine::{checkpoint, drain};
use crate::hart::execute;
use crate::parts::MachineParts;
use crate::sealing::prepare;
use crate::turn::Actor;
use thy_block::{Nvm, NvmError};
use thy_computer::{Advance, Did, Phase, Stall, Stepped};
use thy_layout::Start;
use thy_scheme::Scheme;

/// Takes the cycle of a hart that advances its instruction. Notes whether it failed.
#[inline(always)]
pub(crate) fn take_hart<N: Nvm, S: Scheme>(
    m: &mut MachineParts<S>,
    hart: u8,
    start: &Start,
    nvm: &mut N,
) -> Result<Advance, NvmError>
    requires take { CanTake S.scheme (HasStart start.now) (Advances hart) (machine_of m.old) (N.device nvm.old) }
    requires known { KnowsCalm S.scheme m.old }
    ensures steps { HasReported S.scheme (HasStart start.now) (Advances hart)
        (machine_of m.old) (N.device nvm.old) (machine_of m.new) (N.device nvm.new) (stepped_by result) }
    ensures known { KnowsCalm S.scheme m.new }
{
    let taken = execute(m, hart, start.input.as_slice(), nvm);
    note(m, taken)
}

/// Notes whether a hart's cycle failed.
#[inline(always)]
fn note<S>(m: &mut MachineParts<S>, taken: Result<Advance, NvmError>) -> Result<Advance, NvmError>
    ensures same { result ≡ taken }
    ensures notes { machine_of m.new ≡ noted (did_by taken) (machine_of m.old) }
    ensures store { m.new.store ≡ m.old.store }
{
    if taken.is_err() {
        m.failed = true;
    }
    taken
}

/// Takes a cycle in which no instruction advances, and reports it. Few cycles are of this kind: what calls this is never made
/// part of the loop, but this is made part of its caller, since what a cycle did would be passed on in memory. Whether the
/// machine is calm then is found out before the next cycle. Notes whether it failed.
#[inline(always)]
pub(crate) fn take_other<N: Nvm, S: Scheme>(
    m: &mut MachineParts<S>,
    actor: Actor,
    start: &Start,
    nvm: &mut N,
) -> Result<Stepped, NvmError>
    requires { CanTake S.scheme (HasStart start.now) (actor_seen actor) (machine_of m.old) (N.device nvm.old) }
    ensures steps { HasReported S.scheme (HasStart start.now) (actor_seen actor)
        (machine_of m.old) (N.device nvm.old) (machine_of m.new) (N.device nvm.new) result }
    ensures unmarked { m.new.store.calm ≡ false }
{
    let before = m.phase;
    let taken = cycle(m, actor, start, nvm);
    m.store.calm = false;
    let ended = has_halted(before, m.phase);
    report(m, taken, stall_reported(actor), ended)
}

/// What a cycle of this result is reported as, with this stall, and as the one that halts or not. Notes whether it failed.
#[inline(always)]
fn report<S>(
    m: &mut MachineParts<S>,
    taken: Result<Did, NvmError>,
    stall: Option<Stall>,
    ended: bool,
) -> Result<Stepped, NvmError>
    ensures says { result ≡ reported stall ended taken }
    ensures notes { machine_of m.new ≡ noted taken (machine_of m.old) }
    ensures store { m.new.store ≡ m.old.store }
{
    match taken {
        Ok(did) => Ok(Stepped { did, stall, ended }),
        Err(error) => {
            m.failed = true;
            Err(error)
        }
    }
}

/// The stall that is reported at an actor's turn.
fn stall_reported(actor: Actor) -> Option<Stall>
    ensures { result ≡ stall_at (actor_seen actor) }
{
    match actor {
        Actor::Nvm | Actor::Dram | Actor::Engine => None,
        Actor::Stalled(stall) => Some(stall),
    }
}

/// Whether a machine halted by a cycle, from the phases before and after it.
fn has_halted(before: Phase, after: Phase) -> bool
    ensures { result ≡ (not (is_halt before) && is_halt after) }
{
    before != Phase::Halt && after == Phase::Halt
}

/// Takes the cycle of another actor than a hart that advances. The engine works for a hart that waits.
fn cycle<N: Nvm, S: Scheme>(
    m: &mut MachineParts<S>,
    actor: Actor,
    start: &Start,
    nvm: &mut N,
) -> Result<Did, NvmError>
    requires { CanTake S.scheme (HasStart start.now) (actor_seen actor) (machine_of m.old) (N.device nvm.old) }
    ensures { HasTaken S.scheme (HasStart start.now) (actor_seen actor)
        (machine_of m.old) (N.device nvm.old) (machine_of m.new) (N.device nvm.new) result }
{
    match actor {
        Actor::Nvm => land(m, nvm),
        Actor::Dram => Ok(drain(m, nvm)),
        Actor::Engine => checkpoint(m, nvm),
        Actor::Stalled(why) => stalled(m, why, start, nvm),
    }
}

/// Takes the cycle of harts none of which advances an instruction, for this reason.
fn stalled<N: Nvm, S: Scheme>(
    m: &mut MachineParts<S>,
    why: Stall,
    start: &Start,
    nvm: &mut N,
) -> Result<Did, NvmError>
    requires { CanTake S.scheme (HasStart start.now) (Stalled why) (machine_of m.old) (N.device nvm.old) }
    ensures { HasTaken S.scheme (HasStart start.now) (Stalled why)
        (machine_of m.old) (N.device nvm.old) (machine_of m.new) (N.device nvm.new) result }
{
    match why {
        Stall::Booting => boot(m, start, nvm),
        Stall::Sealing => prepare(m, nvm),
        Stall::Waiting => wait(m, nvm),
        Stall::Halted => Ok(rest(m, nvm)),
    }
}

/// Lets the oldest queued write of the NVM land.
fn land<N: Nvm, S: Scheme>(m: &MachineParts<S>, nvm: &mut N) -> Result<Did, NvmError>
    requires { CanTake S.scheme IsAnyRun Nvm (machine_of m.now) (N.device nvm.old) }
    ensures { HasTaken S.scheme IsAnyRun Nvm
        (machine_of m.now) (N.device nvm.old) (machine_of m.now) (N.device nvm.new) result }
{
    nvm.drain()?;
    Ok(Did::NvmDrained)
}

/// Takes an action of the engine, for the hart that waits for it.
fn wait<N: Nvm, S: Scheme>(m: &mut MachineParts<S>, nvm: &mut N) -> Result<Did, NvmError>
    requires { CanTake S.scheme IsAnyRun (Stalled Waiting) (machine_of m.old) (N.device nvm.old) }
    ensures { HasTaken S.scheme IsAnyRun (Stalled Waiting)
        (machine_of m.old) (N.device nvm.old) (machine_of m.new) (N.device nvm.new) result }
{
    checkpoint(m, nvm)
}

/// Does nothing, if the machine has halted.
fn rest<N: Nvm, S: Scheme>(m: &MachineParts<S>, nvm: &N) -> Did
    ensures { HasTaken S.scheme IsAnyRun (Stalled Halted)
        (machine_of m.now) (N.device nvm.now) (machine_of m.now) (N.device nvm.now) (Ok result) }
{
    Did::Nothing
}
