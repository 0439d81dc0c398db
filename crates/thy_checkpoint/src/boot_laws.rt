//! Laws of every boot, each the contract of a function that does nothing.
ghost use Rattle.thy_checkpoint.specs.Laws.{NewHasRead, NewIsSound, SoundMayStep, MayGoOn, SoundIsSafe, StepsMove, FailuresMove};
ghost use Rattle.thy_checkpoint.specs.Laws.{RestoredIsKept, NeverRefused, DrainsKeepBoot, DrainsMove, ShowsImage, StepsAct};
ghost use Rattle.thy_checkpoint.specs.Laws.{NumberedCountNone, NumberedNeverMigrate, FoundStays, FailuresAct, StepsFill, StepsComeNearer};

use crate::fills::Fills;

/// A new boot with a controller that lists nothing has read nothing of the image.
pub fn a_new_boot_has_read_nothing<F: Fills>()
    ensures { NewHasRead F.filling }
{}

/// A new boot is one of a run if the controller lists nothing, nothing is queued and the image means the mark that is kept.
pub fn a_new_boot_is_one_of_the_run<F: Fills>()
    ensures { NewIsSound F.filling }
{}

/// While a boot is one of a run and not over, it may take a step; and if a step was taken, it may take the next.
pub fn a_boot_may_go_on<F: Fills>()
    ensures may { SoundMayStep F.filling }
    ensures on { MayGoOn F.filling }
{}

/// Whatever a cut leaves of a boot of a run is the committed checkpoint, whole, or the one in doubt.
pub fn a_boot_is_safe<F: Fills>()
    ensures { SoundIsSafe F.filling }
{}

/// Every step of a run's boot is a move of the run's checkpoints, and a step of the view; the boot is one of the run
/// afterwards.
pub fn steps_are_moves<F: Fills>()
    ensures { StepsMove F.filling }
{}

/// A step that failed is a move too, and leaves what is safe: with the start's mark in doubt only if loading's commit block
/// was written before, or that write failed. Whatever a migration writes, it is the mark that is kept.
pub fn failed_steps_are_moves<F: Fills>()
    ensures { FailuresMove F.filling }
{}

/// A restart restores the mark that is kept, and the boot of a run is never refused.
pub fn a_restart_is_the_kept_one<F: Fills>()
    ensures kept { RestoredIsKept F.filling }
    ensures never { NeverRefused F.filling }
{}

/// A scheme with a number above 0 has no older form, so its boots never migrate, and count no actions for that.
pub fn other_schemes_never_migrate<F: Fills>()
    ensures never { NumberedNeverMigrate F.filling }
    ensures none { NumberedCountNone F.filling }
{}

/// Drains of both devices keep the boot at each stage; a drain of the NVM is a move.
pub fn drains_keep_the_boot<F: Fills>()
    ensures keep { DrainsKeepBoot F.filling }
    ensures moves { DrainsMove F.filling }
{}

/// A boot shows what the image means, as long as it reads.
pub fn a_boot_shows_the_image<F: Fills>()
    ensures { ShowsImage F.filling }
{}

/// A step acts once on the NVM, as its result says; if a checkpoint was found it only reads, unless it migrates. A step that
/// failed did so in the one action of its stage.
pub fn steps_act_once<F: Fills>()
    ensures acts { StepsAct F.filling }
    ensures found { FoundStays F.filling }
    ensures failed { FailuresAct F.filling }
{}

/// A step queues one write of the DRAM at most, and else leaves what listing and filling leave of the controller.
pub fn steps_queue_one_write<F: Fills>()
    ensures { StepsFill F.filling }
{}

/// Each action of a boot, except one that repeats a refusal, lowers the number of actions left by at least one.
pub fn steps_come_nearer<F: Fills>()
    ensures { StepsComeNearer F.filling }
{}
