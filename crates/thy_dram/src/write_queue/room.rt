//! The queue of a ring; a ring without room for writes has none.
ghost use Rattle.std.specs.Prelude.{◌≡◌, ◌<◌, ◌≤◌, ◌^◌, ℕ, ◌++◌, [], ◌∷◌, length, slice_index_or, take, drop, All};
ghost use Rattle.thy_block.specs.Device.{newest_over, queued_for, applied};
ghost use Rattle.thy_block.specs.declared.nvm.Write.{Write as Written};
ghost use Rattle.thy_dram.specs.Held.{queued_in, room_in, due_in};
ghost use Rattle.thy_dram.specs.Lowest.{IsLowestOf};

use crate::write_queue::queue::{
    apply_all, apply_oldest, choice, count_for, lowest_queued, newest_queued, push_write, waiting,
};
use circular_buffer::HeapCircularBuffer;
use thy_block::{Block, Write};

/// How many writes are queued.
pub(crate) fn len_of(queue: &Option<HeapCircularBuffer<Write>>) -> usize
    ensures len { result ≡ length (queued_in queue.now) }
    ensures within { result ≤ room_in queue.now }
{
    match queue {
        None => 0,
        Some(queue) => queue.len(),
    }
}

/// The lowest place from one on for which a write is queued.
pub(crate) fn lowest_in(queue: &Option<HeapCircularBuffer<Write>>, from: u64) -> Option<u64>
    ensures { IsLowestOf (queued_in queue.now) from result }
{
    match queue {
        None => None,
        Some(queue) => lowest_queued(queue, from),
    }
}

/// How many writes are queued for a place.
pub(crate) fn count_in(queue: &Option<HeapCircularBuffer<Write>>, at: u64) -> usize
    ensures count { result ≡ length (queued_for (queued_in queue.now) at) }
    ensures small { result < 2 ^ 63 }
{
    match queue {
        None => 0,
        Some(queue) => count_for(queue, at),
    }
}

/// The queued write at a position, the oldest at 0.
pub(crate) fn waiting_in(queue: &Option<HeapCircularBuffer<Write>>, i: usize) -> Write
    requires { i < length (queued_in queue.now) }
    ensures { (w : Written) → slice_index_or (queued_in queue.now) i w ≡ result }
{
    match queue {
        None => unreachable!(),
        Some(queue) => waiting(queue, i),
    }
}

/// The newest block queued for a place, else the image's block there, where it stands.
pub(crate) fn newest_in<'a>(
    queue: &'a Option<HeapCircularBuffer<Write>>,
    at: u64,
    standing: &'a Block,
) -> &'a Block
    ensures { result.now ≡ newest_over standing.now (queued_in queue.now) at }
{
    match queue {
        None => standing,
        Some(queue) => newest_queued(queue, at, standing),
    }
}

/// The block with this index among the image's block at a place and the blocks queued for it, oldest first.
pub(crate) fn choice_in(
    queue: &Option<HeapCircularBuffer<Write>>,
    at: u64,
    standing: Block,
    index: u64,
) -> Block
    requires { index ≤ length (queued_for (queued_in queue.now) at) }
    ensures { result ≡ slice_index_or (standing ∷ queued_for (queued_in queue.now) at) index standing }
{
    match queue {
        None => standing,
        Some(queue) => choice(queue, at, standing, index),
    }
}

/// Queues a write. If the queue is full, its oldest write is applied first.
pub(crate) fn push_in(
    image: &mut [Block],
    queue: &mut Option<HeapCircularBuffer<Write>>,
    write: Write,
)
    requires placed { All (λ w. w.at < length image.old) (queued_in queue.old) }
    requires room { 0 < room_in queue.old }
    ensures image { image.new ≡ applied image.old (take (due_in queue.old) (queued_in queue.old)) }
    ensures queue { queued_in queue.new ≡ drop (due_in queue.old) (queued_in queue.old) ++ write ∷ [] }
    ensures room { room_in queue.new ≡ room_in queue.old }
    ensures within { length (queued_in queue.new) ≤ room_in queue.new }
{
    if let Some(queue) = queue {
        push_write(image, queue, write);
    }
}

/// Applies the oldest queued write, if there is one, and takes it from the queue.
pub(crate) fn apply_oldest_in(image: &mut [Block], queue: &mut Option<HeapCircularBuffer<Write>>)
    requires { All (λ w. w.at < length image.old) (queued_in queue.old) }
    ensures image { image.new ≡ applied image.old (take 1 (queued_in queue.old)) }
    ensures queue { queued_in queue.new ≡ drop 1 (queued_in queue.old) }
    ensures room { room_in queue.new ≡ room_in queue.old }
{
    if let Some(queue) = queue {
        apply_oldest(image, queue);
    }
}

/// Applies every queued write in order, and empties the queue.
pub(crate) fn apply_all_in(image: &mut [Block], queue: &mut Option<HeapCircularBuffer<Write>>)
    requires { All (λ w. w.at < length image.old) (queued_in queue.old) }
    ensures image { image.new ≡ applied image.old (queued_in queue.old) }
    ensures queue { queued_in queue.new ≡ [] }
    ensures room { room_in queue.new ≡ room_in queue.old }
{
    if let Some(queue) = queue {
        apply_all(image, queue);
        queue.clear();
    }
}

/// Empties the queue.
pub(crate) fn clear_in(queue: &mut Option<HeapCircularBuffer<Write>>)
    ensures queue { queued_in queue.new ≡ [] }
    ensures room { room_in queue.new ≡ room_in queue.old }
{
    if let Some(queue) = queue {
        queue.clear();
    }
}
