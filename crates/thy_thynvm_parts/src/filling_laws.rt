//! Laws of this scheme's boot, each the contract of a function that does nothing.
ghost use Rattle.thy_checkpoint.specs.Filling.{IsFilling};
ghost use Rattle.thy_thynvm_parts.specs.Booted.{RestoredIsBooted, LoadedIsStarted};
ghost use Rattle.thy_thynvm_parts.specs.Filling.{filling_thynvm};

/// The laws of what the boot fills hold of this scheme.
pub fn the_filling_is_lawful()
    ensures { IsFilling filling_thynvm }
{}

/// A restart restores the mark that is kept, in the version that the commit block names, and the controller has its
/// tables, its counts and its memory.
pub fn a_restart_is_the_kept_one()
    ensures { RestoredIsBooted }
{}

/// After loading memory is the start's, and the start's checkpoint is kept.
pub fn a_loaded_start_is_the_first()
    ensures { LoadedIsStarted }
{}
