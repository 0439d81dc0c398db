//! A device that counts the calls of another that succeed, and the writes of each place.
ghost use Rattle.std.specs.Prelude.{◌≡◌, ◌<◌, ◌≤◌, [], false, is_ok, ℕ, List, length, IfErr, IfOk, OnErr, OnOk};
ghost use Rattle.thy_block.specs.Device.{CountsFault, HasFailed, HasFailedToFit, HasFailedToSettle, HasFailedToWrite, IsCut, IsFramed, IsSettled, drained, fitted, newest, written_to};
ghost use Rattle.thy_observe.specs.Counted.{HasFitted, HasRead, HasSettled, HasWritten, IsOver, calls_of, counted, no_calls};
ghost use Rattle.thy_observe.specs.Wear.{WearAddsUp, unworn, worn_at};
ghost use Rattle.thy_observe.specs.declared.counting.Calls.{Calls as CallsValue};

use std::alloc::{AllocError, Global};
use thy_base::{Block, FitError, Nvm, NvmError, Shape};

/// How many calls of a device have succeeded.
#[derive(Clone, Copy, Debug, PartialEq, Eq, Drop)]
pub struct Calls {
    pub reads: u64,
    pub writes: u64,
    pub barriers: u64,
}

/// Counts the calls of a device.
pub trait Counts {
    /// The calls that have succeeded so far.
    ghost calls: { Self → CallsValue };

    /// How many writes each place has taken since the last fit; of no place if that is not wanted.
    ghost wear: { Self → List ℕ };

    /// The calls that have succeeded so far.
    fn calls(&self) -> Calls
        ensures { result ≡ calls self.now };

    /// How many writes each place has taken.
    fn wear(&self) -> &[u64]
        ensures { result.now ≡ wear self.now };
}

/// A device that does what another one does, and counts its reads, writes and barriers that succeed, and, if that is wanted, the
/// writes of each place since the last fit. A count stops at the last value.
#[derive(Drop)]
pub struct Counting<N> {
    inner: N,
    reads: u64,
    writes: u64,
    barriers: u64,
    /// The writes of each place are wanted.
    wears: bool,
    wear: Vec<u64>,
}

/// Counts one write more to a place, if it has a count.
fn wear_out(wear: &mut [u64], at: u64)
    ensures { wear.new ≡ worn_at wear.old at }
{
    if at < wear.len() as u64 {
        wear[at as usize] = wear[at as usize].saturating_add(1);
    }
}

/// A count of no write for each place, if they are wanted.
fn unworn(alloc: Global, wanted: bool, blocks: u64) -> Result<Vec<u64>, AllocError>
    ensures { IfOk result (λ wear. wear.items ≡ unworn wanted blocks) }
{
    if wanted {
        Vec::from_elem(alloc, 0u64, blocks as usize)
    } else {
        Ok(Vec::new(alloc))
    }
}

impl<N> Counting<N> {
    /// A device that counts the calls of `inner`, and if wanted the writes of each place. All counts are 0.
    pub fn over(alloc: Global, inner: N, wears: bool) -> Counting<N>
        ensures inner { result.inner ≡ inner }
        ensures calls { calls_of result ≡ no_calls }
        ensures wears { result.wears ≡ wears }
        ensures unworn { result.wear.items ≡ [] }
    {
        Counting {
            inner,
            reads: 0,
            writes: 0,
            barriers: 0,
            wears,
            wear: Vec::new(alloc),
        }
    }
}

impl<N> Counts for Counting<N> {
    ghost calls = { λ it. calls_of it };

    ghost wear = { λ it. it.wear.items };

    fn calls(&self) -> Calls {
        Calls {
            reads: self.reads,
            writes: self.writes,
            barriers: self.barriers,
        }
    }

    fn wear(&self) -> &[u64] {
        self.wear.as_slice()
    }
}

/// The count of calls after one more call, if that has succeeded.
fn counted(count: u64, done: bool) -> u64
    ensures { result ≡ counted count done }
{
    if done { count.saturating_add(1) } else { count }
}

/// Each call is counted that has succeeded, a write at its place too, and no other. Only a fit sets the counts of places back to 0.
impl<N: Nvm> Nvm for Counting<N> {
    ghost device = { λ it. N.device it.inner };

    /// Fits the inner device. If that succeeds, no place has taken a write.
    fn fit(&mut self, alloc: Global, shape: &Shape, start: Vec<Block>) -> Result<(), FitError>
        requires blocks { 0 < shape.now.blocks }
        requires queue { 0 < shape.now.queue }
        requires start { length start.items ≤ shape.now.blocks }
        ensures ok { OnOk result (N.device self.new.inner ≡ fitted shape.now start.items (N.device self.old.inner)) }
        ensures err { IfErr result (λ e. HasFailedToFit e (N.device self.old.inner) (N.device self.new.inner)) }
        ensures fitted { OnOk result (HasFitted shape.now.blocks self.old self.new) }
        ensures stays { OnErr result (calls_of self.new ≡ calls_of self.old) }
    {
        let wear = match unworn(alloc, self.wears, shape.blocks) {
            Ok(wear) => wear,
            Err(error) => return Err(FitError::Memory(error)),
        };
        self.wear = wear;
        self.inner.fit(alloc, shape, start)
    }

    fn queued(&self) -> u64 {
        self.inner.queued()
    }

    fn lands_whole(&self) -> bool {
        self.inner.lands_whole()
    }

    fn writes(&self) -> u64 {
        self.inner.writes()
    }

    /// Reads; the read is counted if it succeeds.
    fn read(&mut self, at: u64) -> Result<Block, NvmError>
        requires place { at < length (N.device self.old.inner).image }
        requires up { (N.device self.old.inner).down ≡ false }
        ensures ok { IfOk result (λ block. block ≡ newest (N.device self.old.inner) at) }
        ensures same { OnOk result (N.device self.new.inner ≡ N.device self.old.inner) }
        ensures err { OnErr result (HasFailed (N.device self.old.inner) (N.device self.new.inner)) }
        ensures frame { IsFramed (N.device self.old.inner) (N.device self.new.inner) }
        ensures cause { CountsFault result (N.device self.old.inner).faults (N.device self.new.inner).faults }
        ensures counts { HasRead (is_ok result) self.old self.new }
    {
        let answer = self.inner.read(at);
        self.reads = counted(self.reads, answer.is_ok());
        answer
    }

    /// Writes; the write is counted if it succeeds, also at its place.
    fn write(&mut self, at: u64, block: &Block) -> Result<(), NvmError>
        requires place { at < length (N.device self.old.inner).image }
        requires up { (N.device self.old.inner).down ≡ false }
        ensures ok { OnOk result (N.device self.new.inner ≡ written_to (N.device self.old.inner) at block.now) }
        ensures err { OnErr result (HasFailedToWrite at block.now (N.device self.old.inner) (N.device self.new.inner)) }
        ensures frame { IsFramed (N.device self.old.inner) (N.device self.new.inner) }
        ensures cause { CountsFault result (N.device self.old.inner).faults (N.device self.new.inner).faults }
        ensures written { OnOk result (HasWritten at self.old self.new) }
        ensures stays { OnErr result (IsOver self.old self.new) }
    {
        self.inner.write(at, block)?;
        self.writes = counted(self.writes, true);
        wear_out(self.wear.as_mut_slice(), at);
        Ok(())
    }

    fn drain(&mut self) -> Result<(), NvmError>
        requires queued { 0 < length (N.device self.old.inner).queue }
        requires up { (N.device self.old.inner).down ≡ false }
        ensures ok { OnOk result (N.device self.new.inner ≡ drained (N.device self.old.inner)) }
        ensures err { OnErr result (HasFailed (N.device self.old.inner) (N.device self.new.inner)) }
        ensures frame { IsFramed (N.device self.old.inner) (N.device self.new.inner) }
        ensures cause { CountsFault result (N.device self.old.inner).faults (N.device self.new.inner).faults }
        ensures stays { IsOver self.old self.new }
    {
        self.inner.drain()
    }

    /// Makes a barrier, which is counted if it succeeds.
    fn barrier(&mut self) -> Result<(), NvmError>
        requires { (N.device self.old.inner).down ≡ false }
        ensures ok { OnOk result (IsSettled (N.device self.old.inner) (N.device self.new.inner)) }
        ensures err { OnErr result (HasFailedToSettle (N.device self.old.inner) (N.device self.new.inner)) }
        ensures frame { IsFramed (N.device self.old.inner) (N.device self.new.inner) }
        ensures cause { CountsFault result (N.device self.old.inner).faults (N.device self.new.inner).faults }
        ensures counts { HasSettled (is_ok result) self.old self.new }
    {
        let answer = self.inner.barrier();
        self.barriers = counted(self.barriers, answer.is_ok());
        answer
    }

    fn cut(&mut self, pick: u64)
        requires { length (N.device self.old.inner).left < (N.device self.old.inner).left_room }
        ensures cut { IsCut pick (N.device self.old.inner) (N.device self.new.inner) }
        ensures stays { IsOver self.old self.new }
    {
        self.inner.cut(pick)
    }

    fn kept(&self, i: u64, at: u64) -> Block {
        self.inner.kept(i, at)
    }
}

/// As long as no count has come to its last value, the counts of all places add up to the writes.
pub fn wear_adds_up()
    ensures { WearAddsUp }
{}
