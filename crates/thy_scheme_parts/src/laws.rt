//! Laws of a scheme of parts, each the contract of a function that does nothing.
ghost use Rattle.thy_scheme_parts.specs.Design.{design_of};
ghost use Rattle.thy_scheme_parts.specs.Laws.{DramDrainKeeps, FailedItemsAreSafe, ItemsKeepSound, SameReadsKeep, SealKeepsSound, SoundIsSafe};
ghost use Rattle.thy_scheme_parts.specs.Laws.{DrainsKeep, ItemsAreSteps, MergesKeep, PromotionsKeep, SealsKeep, StepsBoot};
ghost use Rattle.thy_scheme_parts.specs.Scheme.{scheme_of};
ghost use Rattle.thy_scheme.specs.Laws.{IsLawful};

use crate::parts::Parts;

/// Every item of the engine reaches the checkpoints of the marks after it. The barrier before the commit block makes
/// the next one ready, the commit block's write leaves the two in doubt, and the barrier after it ends the doubt.
pub fn items_keep_the_checkpoints<P: Parts>()
    ensures { ItemsKeepSound (design_of P.filling P.items P.parts) }
{}

/// Whatever a cut leaves is the committed checkpoint, whole, or the sealed one, if its commit block was written. After an
/// item that failed this holds too, and then the sealed one is left only if its commit block was written before or that
/// write failed.
pub fn a_cut_is_safe<P: Parts>()
    ensures sound { SoundIsSafe (design_of P.filling P.items P.parts) }
    ensures failed { FailedItemsAreSafe (design_of P.filling P.items P.parts) }
{}

/// With a seal the mark that the machine is at is the sealed one.
pub fn a_seal_keeps_the_checkpoints<P: Parts>()
    ensures { SealKeepsSound (design_of P.filling P.items P.parts) }
{}

/// While every read gives the same, and a cut may leave no more, the checkpoints stay. So a write of the NVM may land at any
/// moment, and so may a write of the DRAM.
pub fn landing_keeps_the_checkpoints<P: Parts>()
    ensures nvm { SameReadsKeep (design_of P.filling P.items P.parts) }
    ensures dram { DramDrainKeeps (design_of P.filling P.items P.parts) }
{}

/// Every step of the engine, seal, drain of the DRAM, merge and promotion is what the trait of schemes asks: one action,
/// the checkpoints of the marks after it, each block as before, and one less to do at least.
pub fn calls_keep_the_run<P: Parts>()
    ensures items { ItemsAreSteps (design_of P.filling P.items P.parts) }
    ensures seals { SealsKeep (design_of P.filling P.items P.parts) }
    ensures drains { DrainsKeep (design_of P.filling P.items P.parts) }
    ensures merges { MergesKeep (design_of P.filling P.items P.parts) }
    ensures promotions { PromotionsKeep (design_of P.filling P.items P.parts) }
{}

/// A step of the boot is one of the view. When the boot ends, the checkpoint that was found or loaded is the committed
/// one, memory is that checkpoint's, and its processor can be recorded. After a restart the engine begins with what
/// follows the commit, if something does.
pub fn a_step_of_the_boot_is_one<P: Parts>()
    ensures { StepsBoot (design_of P.filling P.items P.parts) }
{}

/// A scheme of lawful parts is lawful: power can come on; in the boot, whatever a power cut leaves is what the view
/// shows; after it, all of memory is held while the NVM is up. Loads and stores preserve that, also if they fail, and
/// each number of what is left is at most its bound.
pub fn parts_make_a_lawful_scheme<P: Parts>()
    ensures { IsLawful (scheme_of (design_of P.filling P.items P.parts)) }
{}
