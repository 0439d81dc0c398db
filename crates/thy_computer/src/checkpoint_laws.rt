//! The laws, each the contract of a function that does nothing.
ghost use Rattle.thy_computer.specs.Issuing.{IssuingBegins, SlotGoesOn, ElsewhereKeepsIssued, DrainKeepsIssued, IssuedIsCheckpoint};
ghost use Rattle.thy_computer.specs.CheckpointLaws.{KeptIsSafe, KeptIsSafeForBoth, FirstHasKept, BootShows, MovesAreSafe, CutKeeps, EmptyKeeps, ActionSpares, FailedActionSpares};
ghost use Rattle.thy_computer.specs.Rounds.{RoundsMove, FailedRoundsMove};

/// Whatever a cut leaves is the checkpoint that is kept, whole, or the one in doubt. That is the one kept or the one
/// sealed, also after a call that failed.
pub fn what_is_kept_is_safe()
    ensures doubt { KeptIsSafe }
    ensures both { KeptIsSafeForBoth }
{}

/// A boot shows the mark whose checkpoint it finds; at the beginning of a run it shows the start's mark, if the start
/// has one.
pub fn a_boot_finds_its_mark()
    ensures first { FirstHasKept }
    ensures shows { BootShows }
{}

/// Whatever a cut leaves is one of these checkpoints also after any number of moves. A move is a call that spares the
/// guarded places, a seal, the barrier after the writes of a checkpoint, its commit block, or the barrier after that. The
/// commit block differs in one word at most from the one before.
pub fn moves_are_safe()
    ensures { MovesAreSafe }
{}

/// A cut leaves a device that keeps the checkpoint that was kept, or the one in doubt. A device with an empty queue
/// keeps the checkpoint of its image.
pub fn a_cut_keeps()
    ensures cut { CutKeeps }
    ensures empty { EmptyKeeps }
{}

/// An action of a cycle that writes none of some places spares them, whether or not it fails.
pub fn actions_spare()
    ensures done { ActionSpares }
    ensures failed { FailedActionSpares }
{}

/// What of a checkpoint's parts was issued: none at first, a block of the slot more with each write of the next one; and
/// it stays so over writes elsewhere and drains.
pub fn issuing_goes_on()
    ensures begins { IssuingBegins }
    ensures slot { SlotGoesOn }
    ensures elsewhere { ElsewhereKeepsIssued }
    ensures drain { DrainKeepsIssued }
{}

/// With the whole slot issued, and no fault in header, commit block and slot, the next image is the checkpoint: it
/// decodes to it, and all blocks that determine it were issued, except the commit block.
pub fn what_is_issued_is_a_checkpoint()
    ensures { IssuedIsCheckpoint }
{}

/// Each action of a round is a move, whether or not it fails, if no block goes to a place that the kept image is found
/// by, and the checkpoint is the sealed mark's. This may be the mark that is kept.
pub fn rounds_are_moves()
    ensures done { RoundsMove }
    ensures failed { FailedRoundsMove }
{}
