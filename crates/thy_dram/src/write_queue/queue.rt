//! A queue of writes over an image.
ghost use Rattle.std.specs.Prelude.{◌≡◌, ◌<◌, ◌≤◌, ◌^◌, ℕ, ◌++◌, [], ◌∷◌, length, slice_set, slice_index_or, take, drop, All};
ghost use Rattle.circular_buffer.specs.Buffer.{buffer};
ghost use Rattle.thy_block.specs.Device.{newest_over, queued_for, applied};
ghost use Rattle.thy_block.specs.declared.nvm.Write.{Write as Written};
ghost use Rattle.thy_dram.specs.Held.{due_in};
ghost use Rattle.thy_dram.specs.Lowest.{lower, lowest_over};

use circular_buffer::HeapCircularBuffer;
use thy_block::{Block, Write};

/// The newest block queued for a place, else the image's block there, where it stands.
pub(crate) fn newest_queued<'a>(
    queue: &'a HeapCircularBuffer<Write>,
    at: u64,
    standing: &'a Block,
) -> &'a Block
    ensures { result.now ≡ newest_over standing.now queue.now.items at }
{
    let mut newest = standing;
    for write in queue.iter() {
        if write.at == at {
            newest = &write.block;
        }
    }
    newest
}

/// The queued write at a position, the oldest at 0.
pub(crate) fn waiting(queue: &HeapCircularBuffer<Write>, i: usize) -> Write
    requires { i < length queue.now.items }
    ensures { (w : Written) → slice_index_or queue.now.items i w ≡ result }
{
    match queue.get(i) {
        Some(write) => *write,
        None => unreachable!(),
    }
}

/// The lower one of `lowest`, if there is one, and `at`. `at` does not count if it is below `from`.
fn lower(from: u64, lowest: Option<u64>, at: u64) -> Option<u64>
    ensures { result ≡ lower from lowest at }
{
    if at < from {
        return lowest;
    }
    match lowest {
        Some(x) if x <= at => lowest,
        _ => Some(at),
    }
}

/// The lowest place from one on for which a write is queued.
pub(crate) fn lowest_queued(queue: &HeapCircularBuffer<Write>, from: u64) -> Option<u64>
    ensures { result ≡ lowest_over from None queue.now.items }
{
    let mut lowest = None;
    for write in queue.iter() {
        lowest = lower(from, lowest, write.at);
    }
    lowest
}

/// How many writes are queued for a place.
pub(crate) fn count_for(queue: &HeapCircularBuffer<Write>, at: u64) -> usize
    ensures count { result ≡ length (queued_for queue.now.items at) }
    ensures small { result < 2 ^ 63 }
{
    let _len = queue.len();
    let mut count = 0;
    for write in queue.iter() {
        if write.at == at {
            count += 1;
        }
    }
    count
}

/// The block with this index among the image's block at a place and the blocks queued for it, oldest first.
pub(crate) fn choice(
    queue: &HeapCircularBuffer<Write>,
    at: u64,
    standing: Block,
    index: u64,
) -> Block
    requires { index ≤ length (queued_for queue.now.items at) }
    ensures { result ≡ slice_index_or (standing ∷ queued_for queue.now.items at) index standing }
{
    let mut chosen = standing;
    let mut left = index;
    for write in queue.iter() {
        if left > 0 && write.at == at {
            chosen = write.block;
            left -= 1;
        }
    }
    chosen
}

/// Applies one write to the image.
fn apply(image: &mut [Block], write: &Write)
    requires { write.now.at < length image.old }
    ensures { image.new ≡ slice_set image.old write.now.at write.now.block }
{
    image[write.at as usize] = write.block;
}

/// Applies every queued write to the image, in order.
pub(crate) fn apply_all(image: &mut [Block], queue: &HeapCircularBuffer<Write>)
    requires { All (λ w. w.at < length image.old) queue.now.items }
    ensures { image.new ≡ applied image.old queue.now.items }
{
    for write in queue.iter() {
        apply(image, write);
    }
}

/// Applies the oldest queued write, if there is one, and takes it from the queue.
pub(crate) fn apply_oldest(image: &mut [Block], queue: &mut HeapCircularBuffer<Write>)
    requires { All (λ w. w.at < length image.old) queue.old.items }
    ensures image { image.new ≡ applied image.old (take 1 queue.old.items) }
    ensures queue { queue.new ≡ buffer (drop 1 queue.old.items) queue.old.capacity }
{
    if let Some(write) = queue.pop_front() {
        apply(image, &write);
    }
}

/// Applies the oldest write of a full queue.
fn make_room(image: &mut [Block], queue: &mut HeapCircularBuffer<Write>)
    requires placed { All (λ w. w.at < length image.old) queue.old.items }
    requires room { 0 < queue.old.capacity }
    ensures image { image.new ≡ applied image.old (take (due_in (Some queue.old)) queue.old.items) }
    ensures items { queue.new.items ≡ drop (due_in (Some queue.old)) queue.old.items }
    ensures capacity { queue.new.capacity ≡ queue.old.capacity }
    ensures room { length queue.new.items < queue.new.capacity }
{
    if queue.len() >= queue.capacity() {
        apply_oldest(image, queue);
    }
}

/// Queues a write. If the queue is full, its oldest write is applied first.
pub(crate) fn push_write(image: &mut [Block], queue: &mut HeapCircularBuffer<Write>, write: Write)
    requires placed { All (λ w. w.at < length image.old) queue.old.items }
    requires room { 0 < queue.old.capacity }
    ensures image { image.new ≡ applied image.old (take (due_in (Some queue.old)) queue.old.items) }
    ensures items { queue.new.items ≡ drop (due_in (Some queue.old)) queue.old.items ++ write ∷ [] }
    ensures capacity { queue.new.capacity ≡ queue.old.capacity }
    ensures within { length queue.new.items ≤ queue.new.capacity }
{
    make_room(image, queue);
    let _ = queue.push_back(write);
}
