//! A device over the image of another.
ghost use Rattle.std.specs.Prelude.{◌≡◌, ◌<◌, ◌≤◌, false, ℕ, length, Ok, Err, IfOk, OnOk, OnErr, IfErr};
ghost use Rattle.thy_block.specs.Counts.{next};
ghost use Rattle.thy_block.specs.Device.{Crash, block_at, newest, written_to, drained, at_rest, fitted, IsCut, IsSettled, Plain, IsFramed, HasFailed, HasFailedToSettle, HasFailedToWrite, HasFailedToFit, CountsFault};
ghost use Rattle.thy_block.specs.declared.nvm.FitError.TheVariants.{Failed};
ghost use Rattle.thy_nvm.specs.Overlaid.{left_of, on_overlay, put_in, written_over, fit_failed};
ghost use Rattle.thy_nvm.specs.Pick.{cut_device};

use crate::kept::Kept;
use crate::mem_nvm::MemNvm;
use crate::over::{block_of_image, one_more, put_over, queue_as, take_up, take_up_all};
use crate::pick::leave;
use std::alloc::{AllocError, Global};
use std::marker::Model;
use thy_block::{Block, FitError, Nvm, NvmError, Shape};
use thy_dram::Ring;

/// Room for a device over another one that has a shape. The shape says how many cuts can be kept.
#[derive(Drop)]
pub struct Spare {
    ring: Ring,
    marks: Vec<bool>,
    kept: Kept,
}

impl Model for Spare {
    ghost use Rattle.std.specs.Prelude.{length};
    ghost use Rattle.thy_block.specs.declared.nvm.Shape.{Shape as Size};
    ghost use Rattle.thy_nvm.specs.Overlaid.{IsSoundSpare};

    ghost Value = { Size };

    ghost view = { λ s. record { blocks = length s.marks.items; queue = s.ring.room; cuts = s.kept.room } };

    ghost invariant = { λ s. IsSoundSpare s.ring s.marks.items s.kept.size };
}

impl Spare {
    /// Room for a device of a shape. Fails if memory runs out.
    pub fn new(alloc: Global, shape: &Shape) -> Result<Spare, AllocError>
        requires { 0 < shape.now.queue }
        ensures { IfOk result (λ spare. spare ≡ shape.now) }
    {
        let ring = Ring::with_blocks(alloc, shape.blocks, shape.queue, Vec::new(alloc))?;
        let marks = Vec::from_elem(alloc, false, shape.blocks as usize)?;
        let kept = Kept::with_room(alloc, shape.blocks, shape.cuts)?;
        Ok(Spare { ring, marks, kept })
    }
}

/// A device that began with what a power cut leaves of another one, and holds what was written to it since. The other device
/// is only read, and its image is not copied. Its blocks land whole if the other one's do. It never fails, but cannot be
/// fitted.
#[derive(Drop)]
pub struct Overlay<'a> {
    // The image of the other device.
    below: &'a [Block],
    // The blocks that were taken from there or written, and the queue.
    ring: Ring,
    // Which these are.
    marks: Vec<bool>,
    kept: Kept,
    // A fit has failed since the last cut.
    down: bool,
    // How many fits have failed. Saturates.
    faults: u64,
    // How many writes it has taken. Saturates.
    writes: u64,
    // A cut leaves each block whole, and not only each word.
    whole: bool,
}

impl<'a> Model for Overlay<'a> {
    ghost use Rattle.thy_nvm.specs.DeviceInMemory.{device_in};
    ghost use Rattle.thy_nvm.specs.Overlaid.{Overlaid, overlaid, over_below, IsSoundOverlay};

    ghost Value = { Overlaid };

    ghost view = { λ o. overlaid (device_in (over_below o.ring o.marks.items o.below.now) o.kept o.down o.faults o.faults o.whole o.writes) };

    ghost invariant = { λ o. IsSoundOverlay o.ring o.marks.items o.below.now o.kept.size };
}

impl<'a> Overlay<'a> {
    /// What a cut with this pick leaves of a device. Allocates nothing.
    pub fn of(spare: Spare, nvm: &'a MemNvm, pick: u64) -> Overlay<'a>
        requires blocks { spare.blocks ≡ length nvm.now.device.image }
        requires queue { spare.queue ≡ nvm.now.device.queue_room }
        ensures left { result ≡ left_of pick nvm.now spare.cuts }
        ensures crash { Crash nvm.now.device result.device.image }
    {
        let Spare {
            mut ring,
            mut marks,
            mut kept,
        } = spare;
        let held = nvm.ring();
        let below = held.image();
        ring.clear_queue();
        marks.fill(false);
        kept.clear();
        queue_as(&mut ring, &mut marks, below, held);
        let whole = nvm.lands_whole();
        leave(&mut ring, pick, whole);
        Overlay {
            below,
            ring,
            marks,
            kept,
            down: false,
            faults: 0,
            writes: 0,
            whole,
        }
    }

    /// Sets the block that has landed at a place, whatever is queued for it.
    pub fn put(&mut self, at: u64, block: &Block)
        requires { at < length self.old.device.image }
        ensures { self.new ≡ on_overlay (put_in at block.now) self.old }
    {
        put_over(&mut self.ring, &mut self.marks, at, block);
    }

    /// The block that has landed at a place, whatever is queued for it.
    pub fn landed(&self, at: u64) -> Block
        requires { at < length self.now.device.image }
        ensures { result ≡ block_at self.now.device.image at }
    {
        if self.marks[at as usize] {
            block_of_image(self.ring.image(), at)
        } else {
            block_of_image(self.below, at)
        }
    }

    /// Gives back the room in which the device was made.
    pub fn into_spare(self) -> Spare
        ensures blocks { result.blocks ≡ length self.entry.device.image }
        ensures queue { result.queue ≡ self.entry.device.queue_room }
        ensures cuts { result.cuts ≡ self.entry.device.left_room }
    {
        let Overlay {
            below: _,
            ring,
            marks,
            kept,
            ..
        } = self;
        Spare { ring, marks, kept }
    }
}

impl<'a> Nvm for Overlay<'a> {
    ghost device = { λ o. o.device };

    /// Fails always: `of` alone makes this device.
    fn fit(&mut self, alloc: Global, shape: &Shape, start: Vec<Block>) -> Result<(), FitError>
        requires blocks { 0 < shape.now.blocks }
        requires queue { 0 < shape.now.queue }
        requires start { length start.items ≤ shape.now.blocks }
        ensures exact { result ≡ Err Failed }
        ensures leaves { self.new ≡ on_overlay fit_failed self.old }
        ensures ok { OnOk result (self.new.device ≡ fitted shape.now start.items self.old.device) }
        ensures err { IfErr result (λ e. HasFailedToFit e self.old.device self.new.device) }
    {
        let _ = (alloc, shape, start);
        self.down = true;
        self.faults = self.faults.saturating_add(1);
        Err(FitError::Failed)
    }

    fn queued(&self) -> u64 {
        self.ring.queued()
    }

    fn lands_whole(&self) -> bool {
        self.whole
    }

    fn writes(&self) -> u64 {
        self.writes
    }

    fn read(&mut self, at: u64) -> Result<Block, NvmError>
        requires place { at < length self.old.device.image }
        requires up { self.old.device.down ≡ false }
        ensures exact { result ≡ Ok (newest self.old.device at) }
        ensures leaves { self.new ≡ self.old }
        ensures ok { IfOk result (λ block. block ≡ newest self.old.device at) }
        ensures same { OnOk result (self.new.device ≡ self.old.device) }
        ensures err { OnErr result (HasFailed self.old.device self.new.device) }
        ensures frame { IsFramed self.old.device self.new.device }
        ensures cause { CountsFault result self.old.device.faults self.new.device.faults }
    {
        Ok(self.block(at))
    }

    fn write(&mut self, at: u64, block: &Block) -> Result<(), NvmError>
        requires place { at < length self.old.device.image }
        requires up { self.old.device.down ≡ false }
        ensures exact { result ≡ Ok tt }
        ensures leaves { self.new ≡ written_over at block.now self.old }
        ensures ok { OnOk result (self.new.device ≡ written_to self.old.device at block.now) }
        ensures err { OnErr result (HasFailedToWrite at block.now self.old.device self.new.device) }
        ensures frame { IsFramed self.old.device self.new.device }
        ensures cause { CountsFault result self.old.device.faults self.new.device.faults }
    {
        self.write_over(at, block);
        Ok(())
    }

    fn drain(&mut self) -> Result<(), NvmError>
        requires queued { 0 < length self.old.device.queue }
        requires up { self.old.device.down ≡ false }
        ensures exact { result ≡ Ok tt }
        ensures leaves { self.new ≡ on_overlay drained self.old }
        ensures ok { OnOk result (self.new.device ≡ drained self.old.device) }
        ensures err { OnErr result (HasFailed self.old.device self.new.device) }
        ensures frame { IsFramed self.old.device self.new.device }
        ensures cause { CountsFault result self.old.device.faults self.new.device.faults }
    {
        self.land_oldest();
        Ok(())
    }

    fn barrier(&mut self) -> Result<(), NvmError>
        requires { self.old.device.down ≡ false }
        ensures exact { result ≡ Ok tt }
        ensures leaves { self.new ≡ on_overlay at_rest self.old }
        ensures ok { OnOk result (IsSettled self.old.device self.new.device) }
        ensures err { OnErr result (HasFailedToSettle self.old.device self.new.device) }
        ensures frame { IsFramed self.old.device self.new.device }
        ensures cause { CountsFault result self.old.device.faults self.new.device.faults }
    {
        self.land_all();
        Ok(())
    }

    /// Cuts the power; every block that was neither taken nor written yet is copied from below.
    fn cut(&mut self, pick: u64)
        requires { length self.old.device.left < self.old.device.left_room }
        ensures exact { self.new ≡ on_overlay (cut_device pick) self.old }
        ensures cut { IsCut pick self.old.device self.new.device }
    {
        take_up_all(&mut self.ring, &mut self.marks, self.below);
        leave(&mut self.ring, pick, self.whole);
        self.kept.keep(self.ring.image(), pick);
        self.down = false;
    }

    fn kept(&self, i: u64, at: u64) -> Block {
        self.kept.block(i, at)
    }
}

impl<'a> Overlay<'a> {
    /// The newest block queued for a place, else the one that has landed there.
    fn block(&self, at: u64) -> Block
        requires { at < length self.now.device.image }
        ensures { result ≡ newest self.now.device at }
    {
        if self.marks[at as usize] {
            self.ring.read(at)
        } else {
            block_of_image(self.below, at)
        }
    }

    /// Queues a block, and counts it.
    fn write_over(&mut self, at: u64, block: &Block)
        requires { at < length self.old.device.image }
        ensures { self.new ≡ written_over at block.now self.old }
    {
        take_up(&mut self.ring, &mut self.marks, self.below, at);
        self.ring.write(at, block);
        self.writes = one_more(self.writes);
    }

    /// Lets the oldest queued write land, if there is one.
    fn land_oldest(&mut self)
        ensures { self.new ≡ on_overlay drained self.old }
    {
        self.ring.drain();
    }

    /// Lets every queued write land, in order.
    fn land_all(&mut self)
        ensures leaves { self.new ≡ on_overlay at_rest self.old }
        ensures plain { self.old.device.wear ≡ Plain }
    {
        self.ring.settle();
    }
}
