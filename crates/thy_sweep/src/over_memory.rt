//! Devices of a run that lie on a device in memory.
ghost use Rattle.std.specs.Prelude.{◌≡◌, ◌<◌, Bool, true, false, length, slice_index_or};
ghost use Rattle.thy_block.specs.declared.nvm.Write.{Write as Written};
ghost use Rattle.thy_block.specs.Device.{Device, block_at};
ghost use Rattle.thy_sweep.specs.Lying.{LiesOn};

use thy_block::{Block, Nvm, Write};
use thy_gap::Gap;
use thy_nvm::MemNvm;

/// A device that is one in memory, or has the lines that one in memory holds. It shows what is queued and what has landed.
pub trait OverMemory: Nvm {
    /// It has lines.
    ghost levels: { Bool };

    /// The device in memory.
    ghost memory: { Self → Device };

    /// The device in memory, of which a cut leaves an image.
    fn below(&self) -> &MemNvm
        ensures { result.now.device ≡ memory self.now };

    /// The queued write at a position, the oldest at 0.
    fn waiting(&self, i: u64) -> Write
        requires up { (Self.device self.now).down ≡ false }
        requires index { i < length (Self.device self.now).queue }
        ensures write { (w : Written) → slice_index_or (Self.device self.now).queue i w ≡ result }
        ensures place { result.at < length (Self.device self.now).image };

    /// The block that has landed at a place, whatever is queued for it.
    fn landed(&self, at: u64) -> Block
        requires { at < length (Self.device self.now).image }
        ensures { result ≡ block_at (Self.device self.now).image at };

    /// What a cut may leave of the device in memory means what it may leave of this one. The call does nothing.
    fn recall_lying(&self)
        requires some { 0 < length (Self.device self.now).image }
        ensures { LiesOn levels (memory self.now) (Self.device self.now) };
}

impl OverMemory for MemNvm {
    ghost use Rattle.std.specs.Prelude.{false};

    ghost levels = { false };

    ghost memory = { λ m. m.device };

    fn below(&self) -> &MemNvm {
        self
    }

    fn waiting(&self, i: u64) -> Write {
        MemNvm::waiting(self, i)
    }

    fn landed(&self, at: u64) -> Block {
        MemNvm::landed(self, at)
    }

    fn recall_lying(&self) {}
}

/// The lines that a device in memory holds.
impl<'a> OverMemory for Gap<&'a mut MemNvm> {
    ghost use Rattle.std.specs.Prelude.{true};

    ghost levels = { true };

    ghost memory = { λ g. g.inner.now.device };

    fn below(&self) -> &MemNvm {
        let inner = self.inner();
        &**inner
    }

    fn waiting(&self, i: u64) -> Write {
        self.recall_queue();
        let write = self.below().waiting(i);
        self.line_write(i, &write)
    }

    fn landed(&self, at: u64) -> Block {
        self.below().landed(self.landed_at(at))
    }

    fn recall_lying(&self) {
        self.recall_size();
        self.recall_meaning();
    }
}
