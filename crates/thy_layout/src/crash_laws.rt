//! The laws, each the contract of a function that does nothing.
ghost use Rattle.thy_layout.specs.Laws.{BlocksAreWords, WholeBlocksAreLeft, NoBlockIsNoMore, OneBlockIsQueued, OneWordIsEither, DevicesMaySayNothing, CutLeavesCopy, CutIsKept, EmptyIsKept, SparedStays, SameSpares, BothSpare, PartIsSpared, DrainSpares, BarrierSpares, WriteSpares, FailureSpares, FailedBarrierSpares, FailedWriteSpares, BarrierMakesReady, CommitLeavesDoubt, FailedCommitLeavesDoubt, BarrierEndsDoubt, NextIsIssued, NextHasReads, NextHasCommit, WriteIsRead, WriteKeepsRead, DrainKeepsRead, BarrierKeepsRead, FixedIsRead, NextWriteIsRead, WriteKeepsFirst, DrainKeepsFirst};

/// Each choice of whole blocks is a choice of words. So a device that keeps its laws by whole blocks keeps them by words,
/// after calls that failed too; and one whose blocks land whole leaves whole blocks alone.
pub fn whole_blocks_are_words()
    ensures words { BlocksAreWords }
    ensures whole { WholeBlocksAreLeft }
    ensures failed { NoBlockIsNoMore }
    ensures failed_write { OneBlockIsQueued }
{}

/// A word is failure-atomic: of two blocks that differ in one word at most a cut leaves one.
pub fn one_word_is_not_torn()
    ensures { OneWordIsEither }
{}

/// A cut leaves a copy of the image that is kept, at all places that determine what it means; in doubt, of one of the
/// two.
pub fn a_cut_leaves_a_copy()
    ensures { CutLeavesCopy }
{}

/// After a cut the device keeps the image that was left. A device with an empty queue keeps its image.
pub fn what_is_left_is_kept()
    ensures cut { CutIsKept }
    ensures empty { EmptyIsKept }
{}

/// A change that spares the guarded places keeps what is saved.
pub fn spared_stays()
    ensures { SparedStays }
{}

/// Places are spared by any number of calls that spare them.
pub fn sparing_adds_up()
    ensures none { SameSpares }
    ensures both { BothSpare }
    ensures part { PartIsSpared }
{}

/// A drain and a barrier spare every place, a write every place but its own. This also holds if they fail.
pub fn calls_spare()
    ensures drain { DrainSpares }
    ensures barrier { BarrierSpares }
    ensures write { WriteSpares }
    ensures failed { FailureSpares }
    ensures failed_barrier { FailedBarrierSpares }
    ensures failed_write { FailedWriteSpares }
{}

/// A barrier after all writes of the next image makes it ready: it lacks only its commit block.
pub fn a_barrier_makes_ready()
    ensures { BarrierMakesReady }
{}

/// The write of the next image's commit block leaves the two in doubt, whether or not it fails, if it differs in one
/// word at most from the commit block before it.
pub fn a_commit_leaves_doubt()
    ensures written { CommitLeavesDoubt }
    ensures failed { FailedCommitLeavesDoubt }
{}

/// The barrier after the write of the commit block ends the doubt: the next image is kept.
pub fn a_barrier_ends_the_doubt()
    ensures { BarrierEndsDoubt }
{}

/// The image that all writes make, with a commit block, is issued: a barrier makes it ready. Its blocks are those that
/// are read.
pub fn what_is_written_is_issued()
    ensures issued { NextIsIssued }
    ensures reads { NextHasReads }
    ensures commit { NextHasCommit }
{}

/// What was written is read until its place is written again. A block that every cut leaves at its place is read.
pub fn reads_stay()
    ensures written { WriteIsRead }
    ensures elsewhere { WriteKeepsRead }
    ensures drain { DrainKeepsRead }
    ensures barrier { BarrierKeepsRead }
    ensures fixed { FixedIsRead }
{}

/// Blocks that are written in turn, at places in a row, are read as far as they were written.
pub fn blocks_are_written_in_turn()
    ensures next { NextWriteIsRead }
    ensures elsewhere { WriteKeepsFirst }
    ensures drain { DrainKeepsFirst }
{}

/// A device may say nothing of what its barriers write: if its count is 0 after a fit, one more after a write, no less after a
/// barrier, and else stays, it obeys all laws of devices.
pub fn devices_may_say_nothing()
    ensures { DevicesMaySayNothing }
{}
