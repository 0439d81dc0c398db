//! Whose turn a cycle is.
ghost use Rattle.std.specs.Prelude.{◌≡◌, ◌&&◌, ◌==◌, true, false, is_some, length, IfSome, IfNone};
ghost use Rattle.thy_core.specs.Calm.{is_calm, KnowsCalm};
ghost use Rattle.thy_scheme.specs.Machine.{shortage_of};
ghost use Rattle.thy_core.specs.MachineParts.{machine_of, actor_seen, next_actor_seen};
ghost use Rattle.thy_core.specs.Turns.{lacks, stopped_now, waits_now, stall_now, hart_of, hart_now, engine_now, actor_now};
ghost use Rattle.thy_block.specs.declared.mix.Pick.TheVariants.{Engine as EnginePick};
ghost use Rattle.thy_computer.specs.NextActor.{Checkpoint, rested, begins};

use crate::parts::MachineParts;
use thy_block::{Nvm, Pick};
use thy_computer::{Phase, Stall};
use thy_scheme::Scheme;

/// Who takes a cycle.
#[derive(Clone, Copy, Debug, PartialEq, Eq)]
pub(crate) enum NextActor {
    /// The hart with this number, 0 or 1, advances its instruction.
    Advances(u8),
    /// Another actor, and no instruction advances.
    Other(Actor),
}

/// Who takes a cycle in which no instruction advances.
#[derive(Clone, Copy, Debug, PartialEq, Eq)]
pub(crate) enum Actor {
    /// The NVM's queue.
    Nvm,
    /// The DRAM's queue.
    Dram,
    /// The checkpoint engine.
    Engine,
    /// The harts, none of which advances an instruction, for this reason.
    Stalled(Stall),
}

/// Whether fewer entries are free than the dirty lines and the blocks need that an instruction secures room for.
fn lacks(free: u64, dirty: u64, need: Option<u64>) -> bool
    ensures { result ≡ lacks free dirty need }
{
    match need {
        Some(need) => free < need || free - need < dirty,
        None => false,
    }
}

/// Whether too few entries are free for the room that the hart is to secure.
fn is_short<S: Scheme>(m: &MachineParts<S>) -> bool
    ensures { result ≡ is_some (shortage_of S.scheme (machine_of m.now)) }
{
    lacks(m.store.scheme.free(), m.cache.dirty(), m.hart.to_secure())
}

/// Whether the sealed state has ended, and nothing is left to be promoted.
fn has_stopped<S: Scheme>(m: &MachineParts<S>) -> bool
    ensures { result ≡ stopped_now S.scheme (machine_of m.now) }
{
    m.checkpoints.sealed.is_some() && m.ends && !m.store.scheme.promoting()
}

/// Whether the hart waits for the checkpoint that is under way.
fn waits<S: Scheme>(m: &MachineParts<S>) -> bool
    ensures { result ≡ waits_now S.scheme (machine_of m.now) }
{
    m.store.scheme.under_way()
        && (!S::overlaps() || m.hart.epoch().over().is_some() || is_short(m) || has_stopped(m))
}

/// Why the hart advances no instruction at its turn.
fn hart_stall<S: Scheme>(m: &MachineParts<S>) -> Option<Stall>
    ensures { result ≡ stall_now S.scheme m.now.phase (machine_of m.now) }
{
    match m.phase {
        // the rules of a hart's turn in docs/CONTROLLER.md: rule 1
        Phase::Boot => Some(Stall::Booting),
        // rule 2
        Phase::Halt => Some(Stall::Halted),
        // rules 3 to 5
        Phase::Run => run_stall(m),
    }
}

/// Why it advances none once the boot is over: it waits, or the epoch is over or a page is promoted.
fn run_stall<S: Scheme>(m: &MachineParts<S>) -> Option<Stall>
    ensures { result ≡ stall_now S.scheme Phase.Run (machine_of m.now) }
{
    if waits(m) {
        // rule 3
        Some(Stall::Waiting)
    } else if m.hart.epoch().over().is_some() || m.store.scheme.promoting() {
        // rule 4
        Some(Stall::Sealing)
    } else {
        // rule 5
        None
    }
}

/// The hart that did not retire the last instruction; hart 0 at first.
fn rested(last: Option<u8>) -> u8
    ensures { result ≡ rested last }
{
    match last {
        None => 0,
        Some(hart) => if hart == 0 { 1 } else { 0 },
    }
}

/// The hart whose instruction a pick begins.
fn begins(pick: Pick, last: Option<u8>) -> u8
    ensures { result ≡ begins pick last }
{
    match pick {
        Pick::Hart => 0,
        Pick::Second => 1,
        Pick::Engine | Pick::NvmDrain | Pick::DramDrain => rested(last),
    }
}

/// The hart that a pick comes to: the one whose instruction is begun. With one hart it is hart 0.
#[inline(always)]
pub(crate) fn hart_of<S: Scheme>(m: &MachineParts<S>, pick: Pick) -> u8
    ensures { result ≡ hart_of S.scheme pick (machine_of m.now) }
{
    if m.hart.geometry().harts() == 1 {
        return 0;
    }
    match m.begun {
        Some(hart) => hart,
        None => begins(pick, m.last),
    }
}

/// The turn of the hart that a pick comes to, unless there is a stall.
#[inline(always)]
fn hart_actor<S: Scheme>(m: &MachineParts<S>, pick: Pick) -> NextActor
    ensures { next_actor_seen result ≡ hart_now S.scheme pick (machine_of m.now) }
{
    match hart_stall(m) {
        None => NextActor::Advances(hart_of(m, pick)),
        Some(stall) => NextActor::Other(Actor::Stalled(stall)),
    }
}

/// Whether each pick is a hart's while no write is queued in the NVM.
fn is_calm<S: Scheme>(m: &MachineParts<S>) -> bool
    ensures { result ≡ is_calm S.scheme (machine_of m.now) }
{
    !m.store.scheme.under_way() && m.store.scheme.queued() == 0 && hart_stall(m).is_none()
}

/// Marks a machine as calm if it is. One that is marked stays so until a line is brought, the epoch is over, or another actor
/// takes a cycle.
#[inline(always)]
pub(crate) fn mark_calm<S: Scheme>(m: &mut MachineParts<S>)
    requires { KnowsCalm S.scheme m.old }
    ensures calm { m.new.store.calm ≡ is_calm S.scheme (machine_of m.old) }
    ensures same { machine_of m.new ≡ machine_of m.old }
{
    if m.store.calm {
        return;
    }
    m.store.calm = is_calm(m);
}

/// Whose turn a pick is: a hart's if the pick's actor has nothing to do. If only the harts have, no other is asked.
#[inline(always)]
pub(crate) fn actor_now<N: Nvm, S: Scheme>(m: &MachineParts<S>, pick: Pick, nvm: &N) -> NextActor
    requires known { KnowsCalm S.scheme m.now }
    requires up { (N.device nvm.now).down ≡ false }
    ensures { next_actor_seen result ≡ actor_now S.scheme pick (length (N.device nvm.now).queue) (machine_of m.now) }
{
    if only_harts(m, nvm) {
        return NextActor::Advances(hart_of(m, pick));
    }
    actor_of(m, pick, nvm.queued())
}

/// Whether a machine is marked as calm, and no write is queued in the NVM.
#[inline(always)]
pub(crate) fn only_harts<N: Nvm, S>(m: &MachineParts<S>, nvm: &N) -> bool
    requires { (N.device nvm.now).down ≡ false }
    ensures { result ≡ (m.now.store.calm && length (N.device nvm.now).queue == 0) }
{
    if m.store.calm {
        nvm.queued() == 0
    } else {
        false
    }
}

/// Whether the engine has an action to take at its pick: a checkpoint is under way.
fn engine_works<S: Scheme>(m: &MachineParts<S>) -> bool
    ensures yes { result ≡ true → Checkpoint ≡ engine_now S.scheme EnginePick m.now.phase (machine_of m.now) }
    ensures no { let now = machine_of m.now in
        result ≡ false → hart_now S.scheme EnginePick now ≡ engine_now S.scheme EnginePick m.now.phase now }
{
    match m.phase {
        Phase::Run => m.store.scheme.under_way(),
        Phase::Boot | Phase::Halt => false,
    }
}

/// The actor beside the harts that a pick names, if it has something to do, with `nvm` writes queued in the NVM.
#[inline(always)]
fn busy<S: Scheme>(m: &MachineParts<S>, pick: Pick, nvm: u64) -> Option<Actor>
    ensures some { IfSome result (λ actor. actor_seen actor ≡ actor_now S.scheme pick nvm (machine_of m.now)) }
    ensures none { let now = machine_of m.now in
        IfNone result (hart_now S.scheme pick now ≡ actor_now S.scheme pick nvm now) }
{
    let (actor, works) = match pick {
        Pick::Hart | Pick::Second => return None,
        Pick::Engine => (Actor::Engine, engine_works(m)),
        Pick::NvmDrain => (Actor::Nvm, nvm > 0),
        Pick::DramDrain => (Actor::Dram, m.store.scheme.queued() > 0),
    };
    if works { Some(actor) } else { None }
}

/// Whose turn a pick is, by what each actor has to do, with `nvm` writes queued in the NVM. Whether a hart is stalled is asked
/// only if the pick comes to one.
#[inline(always)]
pub(crate) fn actor_of<S: Scheme>(m: &MachineParts<S>, pick: Pick, nvm: u64) -> NextActor
    ensures { next_actor_seen result ≡ actor_now S.scheme pick nvm (machine_of m.now) }
{
    match busy(m, pick, nvm) {
        Some(actor) => NextActor::Other(actor),
        None => hart_actor(m, pick),
    }
}
