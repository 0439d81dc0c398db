//! A device that lists the calls of another that succeed.
ghost use Rattle.std.specs.Prelude.{◌≡◌, ◌<◌, ◌≤◌, [], false, length, IfErr, IfOk, IfSome, MatchOption, OnErr, OnOk};
ghost use Rattle.thy_block.specs.Device.{CountsFault, HasFailed, HasFailedToFit, HasFailedToSettle, HasFailedToWrite, IsCut, IsFramed, IsSettled, drained, fitted, newest, written_to};
ghost use Rattle.thy_observe.specs.Listed.{HasCall, Lists};
ghost use Rattle.thy_observe.specs.declared.listing.Call.TheVariants.{Read, Write, Drain, Barrier};

use std::alloc::Global;
use thy_base::{Block, FitError, Nvm, NvmError, Shape};

/// A call of a device.
#[derive(Clone, Copy, Debug, PartialEq, Eq, Drop)]
pub enum Call {
    /// The block at this place was read.
    Read(u64),
    /// A block was queued for this place.
    Write(u64),
    /// The oldest queued write has landed.
    Drain,
    /// All queued writes have landed.
    Barrier,
}

/// A device that does what another one does, and lists its reads, writes, drains and barriers that succeed.
#[derive(Drop)]
pub struct Listing<N> {
    inner: N,
    /// The calls since the list was begun, in order; None if memory ran out for one of them.
    calls: Option<Vec<Call>>,
}

/// The list with one call more; none if there is none, or if memory ran out.
fn listed_with(calls: Option<Vec<Call>>, call: Call) -> Option<Vec<Call>>
    ensures { Lists call calls result }
{
    let Some(mut calls) = calls else {
        return None;
    };
    match calls.push(call) {
        Ok(()) => Some(calls),
        Err(_) => None,
    }
}

/// Lists a call.
fn list(calls: &mut Option<Vec<Call>>, call: Call)
    ensures { Lists call calls.old calls.new }
{
    *calls = listed_with(calls.take(), call);
}

/// The list without its calls.
fn emptied(calls: Option<Vec<Call>>) -> Option<Vec<Call>>
    ensures { IfSome result (λ v. v.items ≡ []) }
{
    let Some(mut calls) = calls else {
        return None;
    };
    calls.clear();
    Some(calls)
}

impl<N> Listing<N> {
    /// A device that lists the calls of `inner`. None is listed yet. Allocates nothing.
    pub fn over(alloc: Global, inner: N) -> Listing<N>
        ensures inner { result.inner ≡ inner }
        ensures none { IfSome result.calls (λ v. v.items ≡ []) }
    {
        Listing {
            inner,
            calls: Some(Vec::new(alloc)),
        }
    }

    /// Empties the list, unless memory has run out for a call.
    pub fn begin_list(&mut self)
        ensures inner { self.new.inner ≡ self.old.inner }
        ensures none { IfSome self.new.calls (λ v. v.items ≡ []) }
    {
        self.calls = emptied(self.calls.take());
    }

    /// The calls since the list was begun, in order; none if memory ran out for one of them.
    pub fn calls(&self) -> Option<&[Call]>
        ensures { IfSome result (λ listed. IfSome self.now.calls (λ v. v.items ≡ listed.now)) }
    {
        match &self.calls {
            Some(calls) => Some(calls.as_slice()),
            None => None,
        }
    }
}

/// Each read, write, drain and barrier is listed that has succeeded, and no other.
impl<N: Nvm> Nvm for Listing<N> {
    ghost device = { λ it. N.device it.inner };

    fn fit(&mut self, alloc: Global, shape: &Shape, start: Vec<Block>) -> Result<(), FitError>
        requires blocks { 0 < shape.now.blocks }
        requires queue { 0 < shape.now.queue }
        requires start { length start.items ≤ shape.now.blocks }
        ensures ok { OnOk result (N.device self.new.inner ≡ fitted shape.now start.items (N.device self.old.inner)) }
        ensures err { IfErr result (λ e. HasFailedToFit e (N.device self.old.inner) (N.device self.new.inner)) }
        ensures stays { self.new.calls ≡ self.old.calls }
    {
        self.inner.fit(alloc, shape, start)
    }

    fn queued(&self) -> u64 {
        self.inner.queued()
    }

    fn lands_whole(&self) -> bool {
        self.inner.lands_whole()
    }

    fn writes(&self) -> u64 {
        self.inner.writes()
    }

    /// Reads; the read is listed with its place if it succeeds.
    fn read(&mut self, at: u64) -> Result<Block, NvmError>
        requires place { at < length (N.device self.old.inner).image }
        requires up { (N.device self.old.inner).down ≡ false }
        ensures ok { IfOk result (λ block. block ≡ newest (N.device self.old.inner) at) }
        ensures same { OnOk result (N.device self.new.inner ≡ N.device self.old.inner) }
        ensures err { OnErr result (HasFailed (N.device self.old.inner) (N.device self.new.inner)) }
        ensures frame { IsFramed (N.device self.old.inner) (N.device self.new.inner) }
        ensures cause { CountsFault result (N.device self.old.inner).faults (N.device self.new.inner).faults }
        ensures lists { OnOk result (HasCall (Read at) self.old self.new) }
        ensures stays { OnErr result (self.new.calls ≡ self.old.calls) }
    {
        let block = self.inner.read(at)?;
        list(&mut self.calls, Call::Read(at));
        Ok(block)
    }

    /// Writes; the write is listed with its place if it succeeds.
    fn write(&mut self, at: u64, block: &Block) -> Result<(), NvmError>
        requires place { at < length (N.device self.old.inner).image }
        requires up { (N.device self.old.inner).down ≡ false }
        ensures ok { OnOk result (N.device self.new.inner ≡ written_to (N.device self.old.inner) at block.now) }
        ensures err { OnErr result (HasFailedToWrite at block.now (N.device self.old.inner) (N.device self.new.inner)) }
        ensures frame { IsFramed (N.device self.old.inner) (N.device self.new.inner) }
        ensures cause { CountsFault result (N.device self.old.inner).faults (N.device self.new.inner).faults }
        ensures lists { OnOk result (HasCall (Write at) self.old self.new) }
        ensures stays { OnErr result (self.new.calls ≡ self.old.calls) }
    {
        self.inner.write(at, block)?;
        list(&mut self.calls, Call::Write(at));
        Ok(())
    }

    /// Lets the oldest write land; the drain is listed if it succeeds.
    fn drain(&mut self) -> Result<(), NvmError>
        requires queued { 0 < length (N.device self.old.inner).queue }
        requires up { (N.device self.old.inner).down ≡ false }
        ensures ok { OnOk result (N.device self.new.inner ≡ drained (N.device self.old.inner)) }
        ensures err { OnErr result (HasFailed (N.device self.old.inner) (N.device self.new.inner)) }
        ensures frame { IsFramed (N.device self.old.inner) (N.device self.new.inner) }
        ensures cause { CountsFault result (N.device self.old.inner).faults (N.device self.new.inner).faults }
        ensures lists { OnOk result (HasCall Drain self.old self.new) }
        ensures stays { OnErr result (self.new.calls ≡ self.old.calls) }
    {
        self.inner.drain()?;
        list(&mut self.calls, Call::Drain);
        Ok(())
    }

    /// Makes a barrier, which is listed if it succeeds.
    fn barrier(&mut self) -> Result<(), NvmError>
        requires { (N.device self.old.inner).down ≡ false }
        ensures ok { OnOk result (IsSettled (N.device self.old.inner) (N.device self.new.inner)) }
        ensures err { OnErr result (HasFailedToSettle (N.device self.old.inner) (N.device self.new.inner)) }
        ensures frame { IsFramed (N.device self.old.inner) (N.device self.new.inner) }
        ensures cause { CountsFault result (N.device self.old.inner).faults (N.device self.new.inner).faults }
        ensures lists { OnOk result (HasCall Barrier self.old self.new) }
        ensures stays { OnErr result (self.new.calls ≡ self.old.calls) }
    {
        self.inner.barrier()?;
        list(&mut self.calls, Call::Barrier);
        Ok(())
    }

    fn cut(&mut self, pick: u64)
        requires { length (N.device self.old.inner).left < (N.device self.old.inner).left_room }
        ensures cut { IsCut pick (N.device self.old.inner) (N.device self.new.inner) }
        ensures stays { self.new.calls ≡ self.old.calls }
    {
        self.inner.cut(pick)
    }

    fn kept(&self, i: u64, at: u64) -> Block {
        self.inner.kept(i, at)
    }
}
