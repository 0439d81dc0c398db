//! What is kept of the cuts of a device.
ghost use Rattle.std.specs.Prelude.{◌≡◌, ◌<◌, ◌≤◌, ◌+◌, ◌*◌, length, IfOk, slice_index_or, [], ◌∷◌, ◌++◌, vec_len, vec_capacity};
ghost use Rattle.thy_block.specs.Device.{block_at};
ghost use Rattle.thy_nvm.specs.Kept.{no_cuts, with_cut};

use std::alloc::{AllocError, Global};
use std::marker::Model;
use thy_block::Block;

/// The images that cuts left, all of one size in blocks, and the picks of the cuts. Only `with_room`
/// allocates.
#[derive(Drop)]
pub(crate) struct Kept {
    size: u64,
    // The images, one after another.
    blocks: Vec<Block>,
    picks: Vec<u64>,
    // How many cuts there is space for.
    room: u64,
}

impl Model for Kept {
    ghost use Rattle.thy_nvm.specs.Kept.{Cuts, cuts_in, IsSoundKept};

    ghost Value = { Cuts };

    ghost view = { λ k. cuts_in k.size k.blocks.items k.picks.items k.room };

    ghost invariant = { λ k. IsSoundKept k.size k.blocks k.picks k.room };
}

impl Kept {
    /// A list of no cuts, with room for none. Allocates nothing.
    pub(crate) fn new(alloc: Global) -> Kept
        ensures { result ≡ no_cuts 0 0 }
    {
        Kept {
            size: 0,
            blocks: Vec::new(alloc),
            picks: Vec::new(alloc),
            room: 0,
        }
    }

    /// A list of no cuts, with room for `room` cuts that leave images of `size` blocks. Fails if memory runs out.
    pub(crate) fn with_room(alloc: Global, size: u64, room: u64) -> Result<Kept, AllocError>
        ensures { IfOk result (λ k. k ≡ no_cuts size room) }
    {
        let Some(blocks) = room.checked_mul(size) else {
            return Err(AllocError);
        };
        let blocks = Vec::with_capacity(alloc, blocks as usize)?;
        let picks = Vec::with_capacity(alloc, room as usize)?;
        Ok(Kept {
            size,
            blocks,
            picks,
            room,
        })
    }

    /// Removes all cuts. The room for cuts stays the same.
    pub(crate) fn clear(&mut self)
        ensures { self.new ≡ no_cuts self.old.size self.old.room }
    {
        self.blocks.clear();
        self.picks.clear();
    }

    /// Keeps a copy of the image that a cut left, and the cut's pick.
    pub(crate) fn keep(&mut self, image: &[Block], pick: u64)
        requires size { length image.now ≡ self.old.size }
        requires room { length self.old.left < self.old.room }
        ensures { self.new ≡ with_cut self.old pick image.now }
    {
        add_blocks(&mut self.blocks, image);
        add_pick(&mut self.picks, pick);
    }

    /// The block at a place of the kept image `i`, counted from 0 in the order of the cuts.
    pub(crate) fn block(&self, i: u64, at: u64) -> Block
        requires image { i < length self.now.left }
        requires place { at < self.now.size }
        ensures { result ≡ block_at (slice_index_or self.now.left i []) at }
    {
        block_of(&self.blocks, self.size as usize, i as usize, at as usize)
    }
}

/// Adds blocks, for which there is space.
fn add_blocks(blocks: &mut Vec<Block>, more: &[Block])
    requires { vec_len blocks.old + length more.now ≤ vec_capacity blocks.old }
    ensures items { blocks.new.items ≡ blocks.old.items ++ more.now }
    ensures space { vec_capacity blocks.old ≤ vec_capacity blocks.new }
{
    let _ = blocks.extend_from_slice(more);
}

/// Adds a pick, for which there is space.
fn add_pick(picks: &mut Vec<u64>, pick: u64)
    requires { vec_len picks.old < vec_capacity picks.old }
    ensures items { picks.new.items ≡ picks.old.items ++ pick ∷ [] }
    ensures space { vec_capacity picks.old ≤ vec_capacity picks.new }
{
    let _ = picks.push(pick);
}

/// The block at a place of image `i`, if images of one size lie one after another.
fn block_of(blocks: &[Block], size: usize, i: usize, at: usize) -> Block
    requires { i * size + at < length blocks.now }
    ensures { result ≡ block_at blocks.now (i * size + at) }
{
    blocks[i * size + at]
}
