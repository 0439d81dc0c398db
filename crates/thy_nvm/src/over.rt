//! Blocks that were written over those of another image.
ghost use Rattle.std.specs.Prelude.{◌≡◌, ◌<◌, [], true, length, replicate, slice_set};
ghost use Rattle.thy_block.specs.Counts.{next};
ghost use Rattle.thy_block.specs.Device.{block_at};
ghost use Rattle.thy_dram.specs.Held.{put_at};
ghost use Rattle.thy_dram.specs.Merged.{merged, AreMarked};

use thy_block::Block;
use thy_dram::Ring;

/// A count with 1 added, unless it has its last value, `2^64 - 1`.
pub(crate) fn one_more(count: u64) -> u64
    ensures { result ≡ next count }
{
    count.saturating_add(1)
}

/// The block at a place of an image, which is one of its places.
#[tactic(auto, unfolding(thy_block::specs::Device::zero_block))]
pub(crate) fn block_of_image(image: &[Block], at: u64) -> Block
    requires { at < length image.now }
    ensures { result ≡ block_at image.now at }
{
    image[at as usize]
}

/// Takes the block at a place from below, if it was not taken or written before.
pub(crate) fn take_up(ring: &mut Ring, marks: &mut [bool], below: &[Block], at: u64)
    requires place { at < length marks.old }
    requires blocks { length ring.old.image ≡ length marks.old }
    requires as_many { length below.now ≡ length marks.old }
    ensures image { merged marks.new ring.new.image below.now ≡ merged marks.old ring.old.image below.now }
    ensures marks { marks.new ≡ slice_set marks.old at true }
    ensures blocks { length ring.new.image ≡ length ring.old.image }
    ensures queue { ring.new.queue ≡ ring.old.queue }
    ensures room { ring.new.room ≡ ring.old.room }
{
    if marks[at as usize] {
        return;
    }
    ring.put(at, &below[at as usize]);
    marks[at as usize] = true;
}

/// Sets the block at a place, over the one below.
pub(crate) fn put_over(ring: &mut Ring, marks: &mut [bool], at: u64, block: &Block)
    requires place { at < length marks.old }
    requires blocks { length ring.old.image ≡ length marks.old }
    ensures ring { ring.new ≡ put_at ring.old at block.now }
    ensures marks { marks.new ≡ slice_set marks.old at true }
{
    ring.put(at, block);
    marks[at as usize] = true;
}

/// Takes every block from below that was not taken or written before.
pub(crate) fn take_up_all(ring: &mut Ring, marks: &mut [bool], below: &[Block])
    requires blocks { length ring.old.image ≡ length marks.old }
    requires as_many { length below.now ≡ length marks.old }
    ensures image { ring.new.image ≡ merged marks.old ring.old.image below.now }
    ensures marks { marks.new ≡ replicate (length marks.old) true }
    ensures queue { ring.new.queue ≡ ring.old.queue }
    ensures room { ring.new.room ≡ ring.old.room }
{
    for at in 0..marks.len() {
        take_up(ring, marks, below, at as u64);
    }
}

/// Queues what is queued in another ring, whose blocks these are below.
pub(crate) fn queue_as(ring: &mut Ring, marks: &mut [bool], below: &[Block], held: &Ring)
    requires blocks { length ring.old.image ≡ length marks.old }
    requires as_many { length below.now ≡ length marks.old }
    requires whose { below.now ≡ held.now.image }
    requires empty { ring.old.queue ≡ [] }
    requires room { ring.old.room ≡ held.now.room }
    ensures image { merged marks.new ring.new.image below.now ≡ merged marks.old ring.old.image below.now }
    ensures marked { AreMarked marks.new ring.new.queue }
    ensures marks { length marks.new ≡ length marks.old }
    ensures blocks { length ring.new.image ≡ length marks.new }
    ensures queue { ring.new.queue ≡ held.now.queue }
    ensures room { ring.new.room ≡ held.now.room }
{
    for i in 0..held.queued() {
        let write = held.waiting(i);
        take_up(ring, marks, below, write.at);
        ring.write(write.at, &write.block);
    }
}
