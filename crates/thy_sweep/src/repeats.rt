//! How a cycle is recognised that leaves what a cut can leave as it was.
ghost use Rattle.thy_sweep.specs.Repeats.{SameQueueIsSameDevice};

/// If a device was asked for one thing at most, and its queue is the same afterwards, it is the same device, but for what it
/// counts. One case is left out: a full queue of equal writes takes one more of them, and the block at their place has landed.
pub fn the_same_queue_is_the_same_device()
    ensures { SameQueueIsSameDevice }
{}
