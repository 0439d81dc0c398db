//! The ring.
ghost use Rattle.std.specs.Prelude.{◌≡◌, ◌<◌, ◌≤◌, ◌-◌, ◌^◌, ◌++◌, length, replicate, slice_index_or, IfOk, IfSome};
ghost use Rattle.thy_block.specs.Device.{zero_block, queued_for, newest, written_to, drained, at_rest};
ghost use Rattle.thy_block.specs.declared.nvm.Write.{Write as Written};
ghost use Rattle.thy_dram.specs.Lowest.{IsLowestOf};
ghost use Rattle.thy_dram.specs.Held.{nothing, device_of, as_device, made, choice_at, put_at, unqueued};

use crate::write_queue::room::{
    apply_all_in, apply_oldest_in, choice_in, clear_in, count_in, len_of, lowest_in, newest_in,
    push_in, waiting_in,
};
use circular_buffer::HeapCircularBuffer;
use std::alloc::{AllocError, Global};
use std::marker::Model;
use thy_block::{Block, Write};

/// An image of blocks, and the writes to it that have not landed yet, oldest first. Places are counted
/// in blocks. Only `with_blocks` allocates, and no other call can fail.
#[derive(Drop)]
pub struct Ring {
    image: Vec<Block>,
    queue: Option<HeapCircularBuffer<Write>>,
}

impl Model for Ring {
    ghost use Rattle.thy_dram.specs.Held.{Held, held_in, IsSoundRing};

    ghost Value = { Held };

    ghost view = { λ r. held_in r.image.items r.queue };

    ghost invariant = { λ r. IsSoundRing r.image.items r.queue };
}

impl Ring {
    /// A ring without blocks and without room for writes. Allocates nothing.
    pub fn new(alloc: Global) -> Ring
        ensures { result ≡ nothing }
    {
        Ring {
            image: Vec::new(alloc),
            queue: None,
        }
    }

    /// A ring of `blocks` blocks, the ones of `start` and then zeros, with room for `room` writes. It takes `start`
    /// over.
    pub fn with_blocks(
        alloc: Global,
        blocks: u64,
        room: u64,
        start: Vec<Block>,
    ) -> Result<Ring, AllocError>
        requires room { 0 < room }
        requires start { length start.items ≤ blocks }
        ensures { IfOk result (λ r. r ≡ made blocks room start.items) }
    {
        let image = fresh_image(start, blocks as usize)?;
        let queue = HeapCircularBuffer::with_capacity(alloc, room as usize)?;
        Ok(Ring {
            image,
            queue: Some(queue),
        })
    }

    /// The blocks that have landed, without the queued writes.
    pub fn image(&self) -> &[Block]
        ensures { result.now ≡ self.now.image }
    {
        &self.image
    }

    /// How many writes are queued.
    pub fn queued(&self) -> u64
        ensures queued { result ≡ length self.now.queue }
        ensures within { result ≤ self.now.room }
    {
        len_of(&self.queue) as u64
    }

    /// How many writes are queued for a place.
    pub fn queued_at(&self, at: u64) -> u64
        ensures count { result ≡ length (queued_for self.now.queue at) }
        ensures small { result < 2 ^ 63 }
    {
        count_in(&self.queue, at) as u64
    }

    /// The lowest place from one on for which a write is queued.
    pub fn next_queued(&self, from: u64) -> Option<u64>
        ensures lowest { IsLowestOf self.now.queue from result }
        ensures place { IfSome result (λ x. x < length self.now.image) }
    {
        let _ = &self.image;
        lowest_in(&self.queue, from)
    }

    /// The queued write at a position, the oldest at 0.
    pub fn waiting(&self, i: u64) -> Write
        requires { i < length self.now.queue }
        ensures write { (w : Written) → slice_index_or self.now.queue i w ≡ result }
        ensures place { result.at < length self.now.image }
    {
        waiting_in(&self.queue, i as usize)
    }

    /// The newest block queued for a place, else the image's block there, where it stands.
    #[inline(always)]
    pub fn newest(&self, at: u64) -> &Block
        requires { at < length self.now.image }
        ensures { result.now ≡ newest (device_of self.now) at }
    {
        newest_in(&self.queue, at, &self.image[at as usize])
    }

    /// The newest block queued for a place, else the image's block there.
    #[inline(always)]
    pub fn read(&self, at: u64) -> Block
        requires { at < length self.now.image }
        ensures { result ≡ newest (device_of self.now) at }
    {
        *self.newest(at)
    }

    /// The block with this index among the image's block at a place and the blocks queued for it, oldest first.
    pub fn choice(&self, at: u64, index: u64) -> Block
        requires place { at < length self.now.image }
        requires index { index ≤ length (queued_for self.now.queue at) }
        ensures { result ≡ choice_at self.now at index }
    {
        choice_in(&self.queue, at, self.image[at as usize], index)
    }

    /// Queues a block for a place. If the queue is full, its oldest write lands first.
    pub fn write(&mut self, at: u64, block: &Block)
        requires { at < length self.old.image }
        ensures held { self.new ≡ as_device (λ n. written_to n at block.now) self.old }
        ensures within { length self.new.queue ≤ self.new.room }
    {
        push_in(
            &mut self.image,
            &mut self.queue,
            Write { at, block: *block },
        );
    }

    /// Lets the oldest queued write land, if there is one.
    pub fn drain(&mut self)
        ensures { self.new ≡ as_device drained self.old }
    {
        apply_oldest_in(&mut self.image, &mut self.queue);
    }

    /// Lets every queued write land, in order.
    pub fn settle(&mut self)
        ensures { self.new ≡ as_device at_rest self.old }
    {
        apply_all_in(&mut self.image, &mut self.queue);
    }

    /// Replaces the block at a place of the image, whatever is queued for it.
    pub fn put(&mut self, at: u64, block: &Block)
        requires { at < length self.old.image }
        ensures { self.new ≡ put_at self.old at block.now }
    {
        self.image[at as usize] = *block;
    }

    /// Removes every queued write; none of them lands.
    pub fn clear_queue(&mut self)
        ensures { self.new ≡ unqueued self.old }
    {
        clear_in(&mut self.queue);
    }
}

/// An image that begins with the blocks of a start and continues with zeros.
#[tactic(auto, unfolding(thy_block::specs::Device::zero_block))]
fn fresh_image(start: Vec<Block>, blocks: usize) -> Result<Vec<Block>, AllocError>
    requires { length start.items ≤ blocks }
    ensures { IfOk result (λ v. v.items ≡ start.items ++ replicate (blocks - length start.items) zero_block) }
{
    let mut image = start;
    image.resize(blocks, Block::ZERO)?;
    Ok(image)
}
