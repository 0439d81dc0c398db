//! Laws of the rules, each the contract of a function that does nothing.
ghost use Rattle.thy_table.specs.Store.{StoreKeepsSound, StoreGoesElsewhere, StoreLeavesTarget, StoreKeepsPlaces, StoreReads, StoreHolds};
ghost use Rattle.thy_table.specs.Checkpoint.{SealKeepsSound, SealMoves, SealTakesWork, ListingKeeps, CommitKeepsSound, CommitMoves};
ghost use Rattle.thy_table.specs.BetweenCheckpoints.{NewCellsAreSound, ListedCellsAreSound, FrameLoads, MergeKeeps, DirtyKeeps, PromotionKeeps, PromotionKeepsOthers, CopyKeeps, PageWriteKeeps, PageWriteKeepsOthers, OthersKeep};

/// A store leaves the entries of its block sound.
pub fn a_store_keeps_entries_sound()
    ensures { StoreKeepsSound }
{}

/// A store, and the copy that may come first, write neither the place of the committed version nor the place of the
/// version that the checkpoint under way has.
pub fn a_store_goes_elsewhere()
    ensures { StoreGoesElsewhere }
{}

/// A store does not write the place at which the checkpoint under way is to have the block, unless the copy comes first.
pub fn a_store_leaves_the_target()
    ensures { StoreLeavesTarget }
{}

/// A store moves no place of a checkpoint.
pub fn a_store_keeps_places()
    ensures { StoreKeepsPlaces }
{}

/// After a store both checkpoints read as before, and a load gives what was stored.
pub fn a_store_is_read()
    ensures { StoreReads }
{}

/// If the places of a block hold what they have to, they do after a store.
pub fn a_store_leaves_what_has_to_stand()
    ensures { StoreHolds }
{}

/// A block that no table lists is sound, and so is one whose page is to be promoted.
pub fn new_cells_are_sound()
    ensures { NewCellsAreSound }
{}

/// A block that the committed checkpoint lists is sound, and so is one whose page it lists.
pub fn listed_cells_are_sound()
    ensures { ListedCellsAreSound }
{}

/// A block of a page that was found listed holds what it has to, with its committed version in the page's frame.
pub fn a_frame_is_loaded()
    ensures { FrameLoads }
{}

/// A seal leaves the entries of a block sound.
pub fn a_seal_keeps_entries_sound()
    ensures { SealKeepsSound }
{}

/// A seal makes the working version the version of the checkpoint under way, and keeps the committed one.
pub fn a_seal_takes_the_work()
    ensures { SealMoves }
{}

/// A seal leaves no work of a block.
pub fn a_seal_leaves_no_work()
    ensures { SealTakesWork }
{}

/// The listing of a page that is to be promoted keeps every version of its blocks.
pub fn a_listing_keeps_versions()
    ensures { ListingKeeps }
{}

/// A commit leaves the entries of a block sound.
pub fn a_commit_keeps_entries_sound()
    ensures { CommitKeepsSound }
{}

/// A commit makes the checkpoint under way the committed one, and keeps the working version.
pub fn a_commit_takes_the_last()
    ensures { CommitMoves }
{}

/// A merge keeps every version of its block.
pub fn a_merge_keeps_versions()
    ensures { MergeKeeps }
{}

/// A write into a page's frame keeps every version of its other blocks.
pub fn a_dirty_page_keeps_others()
    ensures { DirtyKeeps }
{}

/// A promotion keeps every version of the block that it copies.
pub fn a_promotion_keeps_versions()
    ensures { PromotionKeeps }
{}

/// A promotion keeps every version of the other blocks of its page.
pub fn a_promotion_keeps_others()
    ensures { PromotionKeepsOthers }
{}

/// The copy of a pending version to its place keeps every version of its block.
pub fn a_copy_keeps_versions()
    ensures { CopyKeeps }
{}

/// The write of a page's block keeps every version of it, also if it is the last one and frees the frame.
pub fn a_page_write_keeps_versions()
    ensures { PageWriteKeeps }
{}

/// The write of a page's block keeps every version of the other blocks of the page.
pub fn a_page_write_keeps_others()
    ensures { PageWriteKeepsOthers }
{}

/// A block whose entries and places a step leaves keeps every version.
pub fn others_keep_versions()
    ensures { OthersKeep }
{}
