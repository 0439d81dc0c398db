//! The memory.
ghost use Rattle.std.specs.Prelude.{◌≡◌, ◌<◌, ◌≤◌, length, IfOk, IfSome};
ghost use Rattle.thy_block.specs.Device.{block_at};
ghost use Rattle.thy_dram.specs.Contents.{fresh, written, drained, lost};

use crate::Ring;
use crate::draws::drawn_at;
use crate::jumps::{Jump, block_powers};
use std::alloc::{AllocError, Global};
use std::marker::Model;
use thy_block::Block;

/// A volatile memory whose writes are queued before they land. Only `new` allocates, and no other
/// call can fail. A loss of power takes no draws: a block that is read before it was written again takes its own then.
#[derive(Drop)]
pub struct Dram {
    ring: Ring,
    // Which blocks were written since power was lost last. If it never was, all count as written.
    marks: Vec<bool>,
    // The pick of that loss.
    pick: u64,
    // The jumps over 2^k blocks' draws.
    powers: Vec<Jump>,
}

impl Model for Dram {
    ghost use Rattle.thy_dram.specs.Contents.{Contents};
    ghost use Rattle.thy_dram.specs.Parts.{contents_in, IsSoundDram};

    ghost Value = { Contents };

    ghost view = { λ d. contents_in d.ring d.marks.items d.pick };

    ghost invariant = { λ d. IsSoundDram d.ring d.marks.items d.powers.items };
}

impl Dram {
    /// A memory of `blocks` blocks of zeros, whose queue holds at most `queue` writes. Fails if an allocation fails.
    pub fn new(alloc: Global, blocks: u64, queue: u64) -> Result<Dram, AllocError>
        requires { 0 < queue }
        ensures { IfOk result (λ d. d ≡ fresh blocks queue) }
    {
        let ring = Ring::with_blocks(alloc, blocks, queue, Vec::new(alloc))?;
        let marks = Vec::from_elem(alloc, true, blocks as usize)?;
        let powers = block_powers(alloc)?;
        Ok(Dram {
            ring,
            marks,
            pick: 0,
            powers,
        })
    }

    /// The block at a place, as it was last written, or as the last loss of power left it.
    pub fn read(&self, at: u64) -> Block
        requires { at < length self.now.blocks }
        ensures { result ≡ block_at self.now.blocks at }
    {
        if self.marks[at as usize] {
            self.ring.read(at)
        } else {
            drawn_at(&self.powers, at, self.pick)
        }
    }

    /// The block at a place, where it stands; None if it was not written since power was lost last.
    #[inline(always)]
    pub fn held(&self, at: u64) -> Option<&Block>
        requires { at < length self.now.blocks }
        ensures { IfSome result (λ block. block.now ≡ block_at self.now.blocks at) }
    {
        if self.marks[at as usize] {
            Some(self.ring.newest(at))
        } else {
            None
        }
    }

    /// Writes a block at a place. If the queue is full, its oldest write lands first.
    pub fn write(&mut self, at: u64, block: &Block)
        requires { at < length self.old.blocks }
        ensures { self.new ≡ written self.old at block.now }
    {
        self.marks[at as usize] = true;
        self.ring.write(at, block);
    }

    /// How many writes are queued.
    pub fn queued(&self) -> u64
        ensures queued { result ≡ self.now.queued }
        ensures within { result ≤ self.now.room }
    {
        self.ring.queued()
    }

    /// Lets the oldest queued write land. Every place reads as before.
    pub fn drain(&mut self)
        requires { 0 < self.old.queued }
        ensures { self.new ≡ drained self.old }
    {
        self.ring.drain();
    }

    /// Cuts the power: the queue is lost, and every byte becomes one that the pick draws.
    pub fn cut(&mut self, pick: u64)
        ensures { self.new ≡ lost self.old pick }
    {
        self.ring.clear_queue();
        self.marks.fill(false);
        self.pick = pick;
    }
}
