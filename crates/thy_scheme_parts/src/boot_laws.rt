//! Laws of what is seen of a boot, each the contract of a function that does nothing.
ghost use Rattle.thy_scheme_parts.specs.BootLaws.{FewerHasRead, FoundFailsUnwritten, FoundIsSettled, LoadsIfNone, OwnHasMark, ViewIsKept};

use thy_checkpoint::Fills;

/// While a boot of a run is not over, it shows the mark that is kept.
pub fn a_boot_shows_what_is_kept<F: Fills>()
    ensures { ViewIsKept F.filling }
{}

/// A boot of a run loads exactly if the commit block was read and the boot shows no checkpoint.
pub fn a_boot_loads_only_without_a_checkpoint<F: Fills>()
    ensures { LoadsIfNone F.filling }
{}

/// If a checkpoint was found nothing is queued, and a step that failed wrote nothing, unless the checkpoint is migrated.
pub fn a_boot_that_found_a_checkpoint_only_reads<F: Fills>()
    ensures settled { FoundIsSettled F.filling }
    ensures failed { FoundFailsUnwritten F.filling }
{}

/// A boot that has fewer actions left than one of its geometry has read the commit block; so has any after a step.
pub fn a_step_has_read_the_commit_block<F: Fills>()
    ensures { FewerHasRead F.filling }
{}

/// An image that is the run's own is the checkpoint of a mark, or the run began without one.
pub fn an_image_of_the_run_has_a_mark<F: Fills>()
    ensures { OwnHasMark F.filling }
{}
