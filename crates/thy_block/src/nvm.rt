//! The non-volatile memory: a block device with a queue of writes, whose power can be cut.
ghost use Rattle.std.specs.Prelude.{◌≡◌, ◌<◌, ◌≤◌, false, length, IfOk, OnOk, OnErr, IfErr, slice_index_or, []};
ghost use Rattle.thy_block.specs.Device.{Device, newest, block_at, written_to, drained, fitted, IsCut, IsSettled, IsFramed, HasFailed, HasFailedToSettle, HasFailedToWrite, HasFailedToFit, CountsFault};

use crate::Block;
use std::alloc::{AllocError, Global};

/// A block on its way to a place of a device.
#[derive(Clone, Copy, Debug, PartialEq, Eq)]
pub struct Write {
    /// The place of the device, in blocks of 64 bytes.
    pub at: u64,
    /// What the place is to hold.
    pub block: Block,
}

/// The size of a device.
#[derive(Clone, Copy, Debug, PartialEq, Eq)]
pub struct Shape {
    /// How many blocks the device has.
    pub blocks: u64,
    /// How many writes the device's queue holds.
    pub queue: u64,
    /// How many cuts are to come. One image more than these can be kept.
    pub cuts: u64,
}

/// A call of a device failed. The device has counted a fault, and is down.
#[derive(Clone, Copy, Debug, PartialEq, Eq)]
pub enum NvmError {
    Failed,
}

/// A device could not be fitted.
#[derive(Clone, Copy, Debug, PartialEq, Eq)]
pub enum FitError {
    /// The device failed.
    Failed,
    /// An allocation failed. The device is as it was, except that the call may have been counted.
    Memory(AllocError),
}

/// A block device. A write is queued first, and lands later: by `drain`, by `barrier`, or because
/// the queue was full. What a cut of power leaves at a place is put together of the block that had landed there and those that
/// were queued for it. Each aligned word of 8 bytes is one of theirs, each word by itself: a block may be torn, a word is
/// failure-atomic. A device whose blocks land whole leaves one of these blocks. The same holds of what a call that failed
/// leaves.
///
/// Only `fit` allocates, also for what the cuts to come keep. Every `fit` counts, except that one which is
/// out of memory may not. A call that fails counts at least one fault, unless it was out of memory, and leaves the device
/// down until it is fitted again or its power is cut. A device that is down may not be read, written, drained, or asked
/// for a barrier or for the number of queued writes. Writes that succeed are counted since the last fit. All these counts
/// saturate at the last value of a `u64`.
pub trait Nvm {
    /// What the device holds.
    ghost device: { Self → Device };

    /// Replaces all that the device holds: by the blocks of `start`, which it takes over, and then zeros, an empty queue, no kept images
    /// and picks, and no writes. The call is counted, also if it fails; only one that is out of memory may go uncounted.
    fn fit(&mut self, alloc: Global, shape: &Shape, start: Vec<Block>) -> Result<(), FitError>
        requires blocks { 0 < shape.now.blocks }
        requires queue { 0 < shape.now.queue }
        requires start { length start.items ≤ shape.now.blocks }
        ensures ok { OnOk result (device self.new ≡ fitted shape.now start.items (device self.old)) }
        ensures err { IfErr result (λ e. HasFailedToFit e (device self.old) (device self.new)) };

    /// How many writes are queued, of a device that is not down.
    fn queued(&self) -> u64
        requires { (device self.now).down ≡ false }
        ensures { result ≡ length (device self.now).queue };

    /// Whether a cut leaves each block whole, and not only each word. No call changes it.
    fn lands_whole(&self) -> bool
        ensures { result ≡ (device self.now).whole };

    /// How many writes have succeeded since the last fit, those that a barrier made too.
    fn writes(&self) -> u64
        ensures { result ≡ (device self.now).writes };

    /// The block that a read of a place gives: the newest one queued for it, else the one that has landed there. Nothing changes if it
    /// succeeds.
    fn read(&mut self, at: u64) -> Result<Block, NvmError>
        requires place { at < length (device self.old).image }
        requires up { (device self.old).down ≡ false }
        ensures ok { IfOk result (λ block. block ≡ newest (device self.old) at) }
        ensures same { OnOk result (device self.new ≡ device self.old) }
        ensures err { OnErr result (HasFailed (device self.old) (device self.new)) }
        ensures frame { IsFramed (device self.old) (device self.new) }
        ensures cause { CountsFault result (device self.old).faults (device self.new).faults };

    /// Queues a block for a place. If the queue is full, its oldest write lands first. A write that fails may leave words of its block at
    /// the place.
    fn write(&mut self, at: u64, block: &Block) -> Result<(), NvmError>
        requires place { at < length (device self.old).image }
        requires up { (device self.old).down ≡ false }
        ensures ok { OnOk result (device self.new ≡ written_to (device self.old) at block.now) }
        ensures err { OnErr result (HasFailedToWrite at block.now (device self.old) (device self.new)) }
        ensures frame { IsFramed (device self.old) (device self.new) }
        ensures cause { CountsFault result (device self.old).faults (device self.new).faults };

    /// Lets the oldest queued write land. One must be queued.
    fn drain(&mut self) -> Result<(), NvmError>
        requires queued { 0 < length (device self.old).queue }
        requires up { (device self.old).down ≡ false }
        ensures ok { OnOk result (device self.new ≡ drained (device self.old)) }
        ensures err { OnErr result (HasFailed (device self.old) (device self.new)) }
        ensures frame { IsFramed (device self.old) (device self.new) }
        ensures cause { CountsFault result (device self.old).faults (device self.new).faults };

    /// Lets every queued write land, in order. A device may write more of its own accord, which counts too: its wear says how
    /// much, or nothing is known but that the count is no less.
    fn barrier(&mut self) -> Result<(), NvmError>
        requires { (device self.old).down ≡ false }
        ensures ok { OnOk result (IsSettled (device self.old) (device self.new)) }
        ensures err { OnErr result (HasFailedToSettle (device self.old) (device self.new)) }
        ensures frame { IsFramed (device self.old) (device self.new) }
        ensures cause { CountsFault result (device self.old).faults (device self.new).faults };

    /// Cuts the power. A device may choose by the pick what is left. A copy of that is kept, and so is the pick; the
    /// device is up again.
    fn cut(&mut self, pick: u64)
        requires { length (device self.old).left < (device self.old).left_room }
        ensures cut { IsCut pick (device self.old) (device self.new) };

    /// The block at a place of the kept image `i`, counted from 0 in the order of the cuts since the last fit.
    fn kept(&self, i: u64, at: u64) -> Block
        requires image { i < length (device self.now).left }
        requires place { at < length (device self.now).image }
        ensures { result ≡ block_at (slice_index_or (device self.now).left i []) at };
}

/// A device that is lent. Every call keeps the name of the loan. The lender knows by it, after any calls, that what they left is in the
/// device that was lent.
impl<N: Nvm> Nvm for &mut N {
    ghost use Rattle.thy_block.specs.Device.{lent_by};

    ghost device = { λ loan. lent_by loan.ghost_name (N.device loan.now) };

    fn fit(&mut self, alloc: Global, shape: &Shape, start: Vec<Block>) -> Result<(), FitError> {
        (**self).fit(alloc, shape, start)
    }

    fn queued(&self) -> u64 {
        (**self).queued()
    }

    fn lands_whole(&self) -> bool {
        (**self).lands_whole()
    }

    fn writes(&self) -> u64 {
        (**self).writes()
    }

    fn read(&mut self, at: u64) -> Result<Block, NvmError> {
        (**self).read(at)
    }

    fn write(&mut self, at: u64, block: &Block) -> Result<(), NvmError> {
        (**self).write(at, block)
    }

    fn drain(&mut self) -> Result<(), NvmError> {
        (**self).drain()
    }

    fn barrier(&mut self) -> Result<(), NvmError> {
        (**self).barrier()
    }

    fn cut(&mut self, pick: u64) {
        (**self).cut(pick)
    }

    fn kept(&self, i: u64, at: u64) -> Block {
        (**self).kept(i, at)
    }
}
