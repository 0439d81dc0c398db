//! Laws of places, each the contract of a function that does nothing.
ghost use Rattle.thy_table.specs.DeviceLaws.{WritesAreRead, OthersReadAsBefore, OthersHoldNoMore, OthersHoldNoMoreOnFailure, WritesKeepSizes, LandingMovesNothing};

/// A place reads as the block that was written there.
pub fn writes_are_read()
    ensures { WritesAreRead }
{}

/// Every other place of both devices reads as before the write.
pub fn others_read_as_before()
    ensures { OthersReadAsBefore }
{}

/// After a write nothing new may be left by a cut at any other place of the NVM.
pub fn others_hold_no_more()
    ensures { OthersHoldNoMore }
{}

/// After a write that failed nothing new may be left by a cut at any other place of the NVM either.
pub fn others_hold_no_more_on_failure()
    ensures { OthersHoldNoMoreOnFailure }
{}

/// A write leaves both devices as long as they were.
pub fn writes_keep_sizes()
    ensures { WritesKeepSizes }
{}

/// A drain or a barrier changes nothing that is read.
pub fn landing_moves_nothing()
    ensures { LandingMovesNothing }
{}
