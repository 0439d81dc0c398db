//! Laws of filling, each the contract of a function that does nothing.
ghost use Rattle.thy_checkpoint.specs.Filling.{IsFilling};
ghost use Rattle.thy_journal_parts.specs.Filling.{filling_journal};

/// A boot may fill the log: with no entry left to be filled, each block loads as the image has it; and what a start
/// writes is a checkpoint.
pub fn the_log_is_filled()
    ensures { IsFilling filling_journal }
{}
