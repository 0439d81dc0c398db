//! What was seen of a device after a cycle, and whether it is still so.
ghost use Rattle.std.specs.Prelude.{◌≡◌, true, false};
ghost use Rattle.thy_block.specs.Device.{block_at};
ghost use Rattle.thy_sweep.specs.Repeats.{IsSeen, StaysSince};

use crate::over_memory::OverMemory;
use thy_block::{Block, Write};

/// Whether two writes have the same place and the same block.
fn is_same_write(a: &Write, b: &Write) -> bool
    ensures same { result ≡ true → a.now ≡ b.now }
    ensures every { a.now ≡ b.now → result ≡ true }
{
    a.at == b.at && a.block == b.block
}

/// Whether a device has this queue.
fn has_queue<N: OverMemory>(queue: &[Write], nvm: &N) -> bool
    requires { (N.device nvm.now).down ≡ false }
    ensures same { result ≡ true → (N.device nvm.now).queue ≡ queue.now }
    ensures every { (N.device nvm.now).queue ≡ queue.now → result ≡ true }
{
    if nvm.queued() != queue.len() as u64 {
        return false;
    }
    for i in 0..queue.len() {
        let write = nvm.waiting(i as u64);
        let same = is_same_write(&write, &queue[i]);
        if !same {
            return false;
        }
    }
    true
}

/// Whether this block has landed at the place of the oldest write of a device, if it has one.
fn has_first<N: OverMemory>(first: &Block, nvm: &N) -> bool
    requires { (N.device nvm.now).down ≡ false }
    ensures seen { result ≡ true → IsSeen (N.device nvm.now).queue first.now (N.device nvm.now) }
    ensures every { IsSeen (N.device nvm.now).queue first.now (N.device nvm.now) → result ≡ true }
{
    if nvm.queued() == 0 {
        return true;
    }
    let at = nvm.waiting(0).at;
    *first == nvm.landed(at)
}

/// Whether a device has this queue, and this block has landed at the place of its oldest write. One that has, and had when it was
/// seen, is as it was then if it was asked for one thing at most since.
pub fn is_still<N: OverMemory>(queue: &[Write], first: &Block, nvm: &N) -> bool
    requires { (N.device nvm.now).down ≡ false }
    ensures stays { result ≡ true → StaysSince queue.now first.now (N.device nvm.now) }
    ensures every { IsSeen queue.now first.now (N.device nvm.now) → result ≡ true }
{
    has_queue(queue, nvm) && has_first(first, nvm)
}
