//! A device that lies in the memory of the host.
ghost use Rattle.std.specs.Prelude.{◌≡◌, ◌+◌, ◌<◌, ◌≤◌, ◌^◌, true, false, length, is_err, is_some, IfOk, IfSome, OnOk, OnErr, IfErr, slice_index_or, []};
ghost use Rattle.thy_block.specs.declared.nvm.Write.{Write as Written};
ghost use Rattle.thy_block.specs.Counts.{Rose};
ghost use Rattle.thy_block.specs.Device.{Device, newest, block_at, written_to, drained, at_rest, fitted, IsCut, IsSettled, IsFramed, HasFailed, HasFailedToSettle, HasFailedToWrite, HasFailedToFit, CountsFault};
ghost use Rattle.thy_nvm.specs.Chosen.{AreChosen, numbers_from};
ghost use Rattle.thy_nvm.specs.DeviceInMemory.{InMemory, fresh_device, with_device, on_device, IsFit, IsFresh, written, with_write, half_settled, failed, left_after, IsCall};
ghost use Rattle.thy_nvm.specs.Pick.{cut_by};
ghost use Rattle.thy_dram.specs.Held.{as_device, held_by};
ghost use Rattle.thy_dram.specs.Lowest.{IsLowestOf};

use crate::call_faults::{CallFaults, Fault};
use crate::choices::{Choices, leave_chosen};
use crate::kept::Kept;
use crate::over::block_of_image;
use crate::pick::{leave, size_of};
use std::alloc::{AllocError, Global};
use std::marker::Model;
use thy_block::{Block, FitError, Nvm, NvmError, Shape, Write};
use thy_dram::Ring;

/// A non-volatile memory. It is empty until it is fitted. Its reads, writes, drains and barriers are numbered from 1 on,
/// through fits and cuts; after 2^64 - 1 of them each has this last number. One fails exactly if its number is listed. Its
/// blocks land whole, unless it was made by `tearing`.
#[derive(Drop)]
pub struct MemNvm {
    ring: Ring,
    kept: Kept,
    calls: CallFaults,
    // A call has failed since the last fit or cut.
    down: bool,
    // How many calls have failed. Saturates.
    faults: u64,
    // How many times it was fitted. Saturates.
    fits: u64,
    // How many writes it has taken since it was fitted. Saturates.
    writes: u64,
    // A cut leaves each block whole, and not only each word.
    whole: bool,
}

impl Model for MemNvm {
    ghost use Rattle.std.specs.Prelude.{◌≡◌, length};
    ghost use Rattle.thy_nvm.specs.DeviceInMemory.{InMemory, in_memory, device_in};

    ghost Value = { InMemory };

    ghost view = { λ m. in_memory (device_in m.ring m.kept m.down m.faults m.fits m.whole m.writes) m.calls };

    ghost invariant = { λ m. m.kept.size ≡ length m.ring.image };
}

impl MemNvm {
    /// A device without blocks that never fails. Allocates nothing.
    pub fn new(alloc: Global) -> MemNvm
        ensures { result ≡ fresh_device true [] [] }
    {
        MemNvm::with_calls(alloc, CallFaults::none(alloc), true)
    }

    /// A device without blocks that never fails and whose blocks may be torn. A cut draws for each place with queued writes, by
    /// rising number, eight times: for each word a block, of the image's and the queued ones, oldest first, whose word is left.
    /// With pick 0 no queued write lands, with pick 1 all land; another pick is the seed of the draws. Allocates nothing.
    pub fn tearing(alloc: Global) -> MemNvm
        ensures { result ≡ fresh_device false [] [] }
    {
        MemNvm::with_calls(alloc, CallFaults::none(alloc), false)
    }

    /// A device without blocks whose calls of these numbers, from 1 on, fail and do nothing. Fails if memory runs out.
    pub fn failing(alloc: Global, calls: &[u64]) -> Result<MemNvm, AllocError>
        ensures { IfOk result (λ m. m ≡ fresh_device true calls.now []) }
    {
        let calls = CallFaults::failing(alloc, calls)?;
        Ok(MemNvm::with_calls(alloc, calls, true))
    }

    /// A device without blocks whose calls of these numbers, from 1 on, fail late. A late write is queued as usual, a late drain lets its
    /// write land, a late barrier lets the older half of the queue land, rounded down; then each fails. A late read fails and does nothing.
    /// The constructor fails if memory runs out.
    pub fn late(alloc: Global, calls: &[u64]) -> Result<MemNvm, AllocError>
        ensures { IfOk result (λ m. m ≡ fresh_device true [] calls.now) }
    {
        let calls = CallFaults::late(alloc, calls)?;
        Ok(MemNvm::with_calls(alloc, calls, true))
    }

    /// How many reads, writes, drains and barriers were called since the device was made. The count saturates at `2^64 - 1`.
    pub fn calls(&self) -> u64
        ensures { result ≡ self.now.calls.made }
    {
        self.calls.made()
    }

    /// The queued write at position `i`, the oldest at 0, also while the device is down.
    pub fn waiting(&self, i: u64) -> Write
        requires { i < length self.now.device.queue }
        ensures write { (w : Written) → slice_index_or self.now.device.queue i w ≡ result }
        ensures place { result.at < length self.now.device.image }
    {
        self.ring.waiting(i)
    }

    /// The lowest place from `from` on for which a write is queued, also while the device is down; None if there is none.
    pub fn next_waiting(&self, from: u64) -> Option<u64>
        ensures lowest { IsLowestOf self.now.device.queue from result }
        ensures place { IfSome result (λ x. x < length self.now.device.image) }
        ensures small { IfSome result (λ x. x + 1 < 2 ^ 64) }
    {
        let _size = size_of(&self.ring);
        self.ring.next_queued(from)
    }

    /// How many writes are queued, also while the device is down.
    pub fn waits(&self) -> u64
        ensures { result ≡ length self.now.device.queue }
    {
        self.ring.queued()
    }

    /// The block that has landed at a place, whatever is queued for it.
    pub fn landed(&self, at: u64) -> Block
        requires { at < length self.now.device.image }
        ensures { result ≡ block_at self.now.device.image at }
    {
        block_of_image(self.ring.image(), at)
    }

    /// The blocks and the queue of the device.
    pub(crate) fn ring(&self) -> &Ring
        ensures { result.now ≡ held_by self.now.device }
    {
        &self.ring
    }

    /// Cuts the power of a device whose blocks may be torn. The choices say which words are left; the pick is only kept.
    pub(crate) fn cut_as_chosen(&mut self, pick: u64, choices: &mut Choices)
        requires room { length self.old.device.left < self.old.device.left_room }
        requires torn { self.old.device.whole ≡ false }
        ensures cut { IsCut pick self.old.device self.new.device }
        ensures words { AreChosen choices.old (held_by self.old.device) self.new.device.image }
        ensures taken { choices.new ≡ numbers_from choices.old self.old.device.queue (length self.old.device.image) }
        ensures calls { self.new.calls ≡ self.old.calls }
    {
        leave_chosen(&mut self.ring, choices);
        self.kept.keep(self.ring.image(), pick);
        self.down = false;
    }

    /// A device without blocks whose calls fail as listed, and whose blocks land whole or not.
    fn with_calls(alloc: Global, calls: CallFaults, whole: bool) -> MemNvm
        ensures { result ≡ record (fresh_device whole [] []) { calls = calls } }
    {
        MemNvm {
            ring: Ring::new(alloc),
            kept: Kept::new(alloc),
            calls,
            down: false,
            faults: 0,
            fits: 0,
            writes: 0,
            whole,
        }
    }

    /// Counts a call that failed, and returns the error.
    fn fail(&mut self) -> NvmError
        ensures failed { self.new ≡ with_device self.old (failed self.old.device) }
        ensures rose { Rose self.old.device.faults self.new.device.faults }
    {
        self.down = true;
        self.faults = self.faults.saturating_add(1);
        NvmError::Failed
    }

    /// Reads, unless the call has this fault.
    fn read_unless(&mut self, fault: Option<Fault>, at: u64) -> Result<Block, NvmError>
        requires { at < length self.old.device.image }
        ensures ok { IfOk result (λ block. block ≡ newest self.old.device at) }
        ensures fails { is_err result ≡ is_some fault }
        ensures leaves { self.new ≡ left_after fault (λ m. m) (λ n. n) self.old }
        ensures cause { CountsFault result self.old.device.faults self.new.device.faults }
    {
        match fault {
            None => Ok(self.ring.read(at)),
            Some(Fault::Undone) | Some(Fault::Late) => Err(self.fail()),
        }
    }

    /// Queues a block, unless the call has a fault.
    fn write_unless(&mut self, fault: Option<Fault>, at: u64, block: &Block) -> Result<(), NvmError>
        requires { at < length self.old.device.image }
        ensures fails { is_err result ≡ is_some fault }
        ensures leaves { self.new ≡ left_after fault (written at block.now) (with_write at block.now) self.old }
        ensures cause { CountsFault result self.old.device.faults self.new.device.faults }
    {
        match fault {
            None => {
                self.ring.write(at, block);
                self.writes = self.writes.saturating_add(1);
                Ok(())
            }
            Some(Fault::Undone) => Err(self.fail()),
            Some(Fault::Late) => {
                self.ring.write(at, block);
                Err(self.fail())
            }
        }
    }

    /// Lets the oldest write land, unless the call has a fault.
    fn drain_unless(&mut self, fault: Option<Fault>) -> Result<(), NvmError>
        ensures fails { is_err result ≡ is_some fault }
        ensures leaves { self.new ≡ left_after fault (on_device drained) drained self.old }
        ensures cause { CountsFault result self.old.device.faults self.new.device.faults }
    {
        match fault {
            None => {
                self.ring.drain();
                Ok(())
            }
            Some(Fault::Undone) => Err(self.fail()),
            Some(Fault::Late) => {
                self.ring.drain();
                Err(self.fail())
            }
        }
    }

    /// Lets every write land, unless the call has a fault.
    fn barrier_unless(&mut self, fault: Option<Fault>) -> Result<(), NvmError>
        ensures fails { is_err result ≡ is_some fault }
        ensures leaves { self.new ≡ left_after fault (on_device at_rest) half_settled self.old }
        ensures cause { CountsFault result self.old.device.faults self.new.device.faults }
    {
        match fault {
            None => {
                self.ring.settle();
                Ok(())
            }
            Some(Fault::Undone) => Err(self.fail()),
            Some(Fault::Late) => {
                settle_half(&mut self.ring);
                Err(self.fail())
            }
        }
    }
}

/// Lets the older half of the queued writes land, rounded down.
fn settle_half(ring: &mut Ring)
    ensures { ring.new ≡ as_device half_settled ring.old }
{
    for _ in 0..ring.queued() / 2 {
        ring.drain();
    }
}

/// The parts of a device of a shape, whose image begins with these blocks.
fn fresh(alloc: Global, shape: &Shape, start: Vec<Block>) -> Result<(Ring, Kept), AllocError>
    requires queue { 0 < shape.now.queue }
    requires start { length start.items ≤ shape.now.blocks }
    ensures { IfOk result (λ parts. IsFresh shape.now start.items parts.0 parts.1) }
{
    let Some(room) = shape.cuts.checked_add(1) else {
        return Err(AllocError);
    };
    let ring = Ring::with_blocks(alloc, shape.blocks, shape.queue, start)?;
    let kept = Kept::with_room(alloc, shape.blocks, room)?;
    Ok((ring, kept))
}

impl Nvm for MemNvm {
    ghost device = { λ m. m.device };

    /// Fails only if memory runs out, and is not one of the calls that are numbered.
    fn fit(&mut self, alloc: Global, shape: &Shape, start: Vec<Block>) -> Result<(), FitError>
        requires blocks { 0 < shape.now.blocks }
        requires queue { 0 < shape.now.queue }
        requires start { length start.items ≤ shape.now.blocks }
        ensures exact { IsFit shape.now start.items self.old result self.new }
        ensures ok { OnOk result (self.new.device ≡ fitted shape.now start.items self.old.device) }
        ensures err { IfErr result (λ e. HasFailedToFit e self.old.device self.new.device) }
    {
        self.fits = self.fits.saturating_add(1);
        match fresh(alloc, shape, start) {
            Ok((ring, kept)) => {
                self.ring = ring;
                self.kept = kept;
                self.down = false;
                self.writes = 0;
                Ok(())
            }
            Err(error) => Err(FitError::Memory(error)),
        }
    }

    fn queued(&self) -> u64 {
        self.ring.queued()
    }

    fn lands_whole(&self) -> bool {
        self.whole
    }

    fn writes(&self) -> u64 {
        self.writes
    }

    fn read(&mut self, at: u64) -> Result<Block, NvmError>
        requires place { at < length self.old.device.image }
        requires up { self.old.device.down ≡ false }
        ensures exact { IsCall (λ m. m) (λ n. n) self.old result self.new }
        ensures ok { IfOk result (λ block. block ≡ newest self.old.device at) }
        ensures same { OnOk result (self.new.device ≡ self.old.device) }
        ensures err { OnErr result (HasFailed self.old.device self.new.device) }
        ensures frame { IsFramed self.old.device self.new.device }
        ensures cause { CountsFault result self.old.device.faults self.new.device.faults }
    {
        let fault = self.calls.next();
        self.read_unless(fault, at)
    }

    fn write(&mut self, at: u64, block: &Block) -> Result<(), NvmError>
        requires place { at < length self.old.device.image }
        requires up { self.old.device.down ≡ false }
        ensures exact { IsCall (written at block.now) (with_write at block.now) self.old result self.new }
        ensures ok { OnOk result (self.new.device ≡ written_to self.old.device at block.now) }
        ensures err { OnErr result (HasFailedToWrite at block.now self.old.device self.new.device) }
        ensures frame { IsFramed self.old.device self.new.device }
        ensures cause { CountsFault result self.old.device.faults self.new.device.faults }
    {
        let fault = self.calls.next();
        self.write_unless(fault, at, block)
    }

    fn drain(&mut self) -> Result<(), NvmError>
        requires queued { 0 < length self.old.device.queue }
        requires up { self.old.device.down ≡ false }
        ensures exact { IsCall (on_device drained) drained self.old result self.new }
        ensures ok { OnOk result (self.new.device ≡ drained self.old.device) }
        ensures err { OnErr result (HasFailed self.old.device self.new.device) }
        ensures frame { IsFramed self.old.device self.new.device }
        ensures cause { CountsFault result self.old.device.faults self.new.device.faults }
    {
        let fault = self.calls.next();
        self.drain_unless(fault)
    }

    /// Lets every queued write land, in order. The device makes no write of its own.
    fn barrier(&mut self) -> Result<(), NvmError>
        requires { self.old.device.down ≡ false }
        ensures exact { IsCall (on_device at_rest) half_settled self.old result self.new }
        ensures ok { OnOk result (IsSettled self.old.device self.new.device) }
        ensures err { OnErr result (HasFailedToSettle self.old.device self.new.device) }
        ensures frame { IsFramed self.old.device self.new.device }
        ensures cause { CountsFault result self.old.device.faults self.new.device.faults }
    {
        let fault = self.calls.next();
        self.barrier_unless(fault)
    }

    fn cut(&mut self, pick: u64)
        requires { length self.old.device.left < self.old.device.left_room }
        ensures exact { self.new ≡ cut_by pick self.old }
        ensures cut { IsCut pick self.old.device self.new.device }
    {
        leave(&mut self.ring, pick, self.whole);
        self.kept.keep(self.ring.image(), pick);
        self.down = false;
    }

    fn kept(&self, i: u64, at: u64) -> Block {
        self.kept.block(i, at)
    }
}
