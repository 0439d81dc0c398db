//! The accesses to the NVM in some cycles of a run, which is made for them one cycle at a time.
ghost use Rattle.std.specs.Prelude.{◌≡◌, ◌≤◌, ◌++◌, ◌∷◌, [], IfSome, OnOk, take};
ghost use Rattle.std.specs.List.{flat_map};
ghost use Rattle.thy_run.specs.Due.{shows_console};
ghost use Rattle.thy_run.specs.Going.{IsPlanned};
ghost use Rattle.thy_run.specs.Rounds.{IsFitted};
ghost use Rattle.thy_observe.specs.Accesses.{HasAccesses, access_of, accessed, accesses_at, last_cycle, own};

use crate::causes::{Cause, cause_of, under_way_then};
use crate::kinds::kind_of;
use crate::listing::{Call, Listing};
use crate::tracing::{Window, is_within};
use std::alloc::{AllocError, Global};
use thy_base::{Nvm, Sink, SinkError};
use thy_computer::{Computer, Did};
use thy_run::{Plan, SingleCycle, begin, single};

/// An access to a block of the NVM.
#[derive(Clone, Copy, Debug, PartialEq, Eq, Drop)]
pub struct Accessed {
    /// The number, from 1, of the cycle in which the access was made.
    pub cycle: u64,
    /// Why the access's cycle was taken.
    pub cause: Cause,
    /// Whether the access is a write, and not a read.
    pub writes: bool,
    /// The place, in blocks of the NVM, that was read or written.
    pub at: u64,
}

/// A sink that keeps nothing and never fails.
#[derive(Drop)]
struct Nowhere;

impl Sink for Nowhere {
    ghost use Rattle.thy_observe.specs.Accesses.{nowhere};

    ghost stream = { λ w. nowhere };

    fn write(&mut self, _piece: &[u8]) -> Result<(), SinkError> {
        Ok(())
    }
}

/// Whether a cycle that did this makes another checkpoint known. Its console, and maybe a state, are read then for the report.
fn shows_console(did: Did) -> bool
    ensures { result ≡ shows_console did }
{
    matches!(
        did,
        Did::Loaded | Did::Restarted(..) | Did::Committed { .. }
    )
}

/// The first of some calls, if there is one.
fn first(calls: &[Call]) -> &[Call]
    ensures { result.now ≡ take 1 calls.now }
{
    if calls.is_empty() {
        return calls;
    }
    calls.split_at(1).0
}

/// The calls of a cycle that did this which the machine made itself.
fn own(did: Did, calls: &[Call]) -> &[Call]
    ensures { result.now ≡ own did calls.now }
{
    if shows_console(did) {
        first(calls)
    } else {
        calls
    }
}

/// Adds an access.
fn add(
    rows: &mut Vec<Accessed>,
    cycle: u64,
    cause: Cause,
    writes: bool,
    at: u64,
) -> Result<(), AllocError>
    ensures { OnOk result (rows.new.items ≡ rows.old.items ++ accessed cycle cause writes at ∷ []) }
{
    rows.push(Accessed {
        cycle,
        cause,
        writes,
        at,
    })?;
    Ok(())
}

/// Adds the access of a call, if it is one.
fn add_call(
    rows: &mut Vec<Accessed>,
    cycle: u64,
    cause: Cause,
    call: Call,
) -> Result<(), AllocError>
    ensures { OnOk result (rows.new.items ≡ rows.old.items ++ access_of cycle cause call) }
{
    match call {
        Call::Read(at) => add(rows, cycle, cause, false, at),
        Call::Write(at) => add(rows, cycle, cause, true, at),
        Call::Drain | Call::Barrier => Ok(()),
    }
}

/// Adds the accesses of some calls.
fn add_calls(
    rows: &mut Vec<Accessed>,
    cycle: u64,
    cause: Cause,
    calls: &[Call],
) -> Result<(), AllocError>
    ensures { OnOk result (rows.new.items ≡ rows.old.items ++ flat_map (access_of cycle cause) calls.now) }
{
    for call in calls {
        add_call(rows, cycle, cause, *call)?;
    }
    Ok(())
}

/// Adds the accesses of a cycle of this number, if it lies in the window: it did this and made these calls, and a checkpoint
/// was under way before it or not.
fn add_cycle(
    rows: &mut Vec<Accessed>,
    window: Window,
    under_way: bool,
    cycle: u64,
    did: Did,
    calls: &[Call],
) -> Result<(), AllocError>
    ensures { OnOk result (rows.new.items ≡ rows.old.items ++ accesses_at window under_way cycle did calls.now) }
{
    if !is_within(window, cycle) {
        return Ok(());
    }
    let cause = cause_of(under_way, kind_of(did));
    add_calls(rows, cycle, cause, own(did, calls))
}

/// The last cycle of a window of a run with this limit.
fn last_cycle(last: Option<u64>, limit: u64) -> u64
    ensures last { result ≡ last_cycle last limit }
    ensures within { result ≤ limit }
{
    match last {
        Some(last) => last.min(limit),
        None => limit,
    }
}

/// The accesses to the NVM in a window of a plan's run, in order. The run, which has no cuts, is made over this device,
/// which was fitted for it, up to the window's last cycle, and what it writes is read by nobody. None are returned if memory
/// ran out, or the device has failed.
pub fn list_accesses<M: Computer, N: Nvm>(
    alloc: Global,
    plan: &Plan,
    window: Window,
    nvm: &mut Listing<N>,
) -> Option<Vec<Accessed>>
    requires planned { IsPlanned plan.now }
    requires uncut { plan.now.config.cuts ≡ [] }
    requires fitted { IsFitted M.kind plan.now (N.device nvm.old.inner) }
    ensures { IfSome result (λ rows. HasAccesses M.kind plan.now (N.device nvm.old.inner) window rows.items) }
{
    let Ok(mut progress) = begin::<M>(alloc, plan) else {
        return None;
    };
    let mut rows = Vec::new(alloc);
    let mut under_way = false;
    let last = last_cycle(window.last, plan.geometry.numbers().limit);
    for done in 0..last {
        nvm.begin_list();
        let did = match single(
            alloc,
            &mut progress,
            plan,
            done,
            &mut Nowhere,
            &mut Nowhere,
            nvm,
        ) {
            SingleCycle::Goes(stepped) => stepped.did,
            SingleCycle::Stops(_) => return Some(rows),
            SingleCycle::Breaks(_) => return None,
        };
        let calls = nvm.calls()?;
        let Ok(()) = add_cycle(&mut rows, window, under_way, done + 1, did, calls) else {
            return None;
        };
        under_way = under_way_then(under_way, did, false);
    }
    Some(rows)
}
