//! Laws of the scheme thynvm, each the contract of a function that does nothing.
ghost use Rattle.thy_thynvm_parts.specs.Bounds.{BootsAreShort, EpochsAreShort};
ghost use Rattle.thy_thynvm_parts.specs.Design.{thynvm_design};
ghost use Rattle.thy_thynvm_parts.specs.Fitting.{IdleFits, SealFits, StaysFit};
ghost use Rattle.thy_thynvm_parts.specs.Laws.{ItemsCount, NothingIsBarred, ReadyIsWhole, StaysKeep};
ghost use Rattle.thy_thynvm_parts.specs.Recovery.{FailuresWriteNothing, MigrationWrites, StepsLeaveNvm, VersionTwoStays};
ghost use Rattle.thy_thynvm_parts.specs.Scheme.{thynvm_scheme};
ghost use Rattle.thy_checkpoint.specs.Items.{AreItems};
ghost use Rattle.thy_scheme_parts.specs.AreParts.{AreParts};
ghost use Rattle.thy_scheme_parts.specs.IsDesign.{IsDesign};
ghost use Rattle.thy_scheme_parts.specs.Paging.{IsPaging};
ghost use Rattle.thy_scheme_parts.specs.Storing.{IsStoring};
ghost use Rattle.thy_scheme.specs.Laws.{IsLawful};

/// The body of a checkpoint is each version that is pending, copied to its place, and then each block of the pages that
/// are written, from its frame. Every position leads to the next one, and what is written is one less.
pub fn the_items_are_lawful()
    ensures { AreItems thynvm_design.filling thynvm_design.items }
{}

/// What is written of a checkpoint, in turn, makes it the committed one, with the tables and counts of the one under way,
/// and no place of the one that is kept is written. If nothing was stored since the last seal, nor in the epoch that this
/// seal ended, two entries are free at least once no checkpoint is under way.
pub fn the_checkpoints_are_lawful()
    ensures { IsDesign thynvm_design }
{}

/// A store changes one block, and loads and stores keep both checkpoints, also if they fail.
pub fn the_stores_are_lawful()
    ensures { IsStoring thynvm_design }
{}

/// A merge and a promotion write one block of the DRAM, and leave what loads give and both checkpoints.
pub fn the_pages_are_lawful()
    ensures { IsPaging thynvm_design }
{}

/// The scheme thynvm is made of lawful parts.
pub fn thynvm_is_made_of_parts()
    ensures { AreParts thynvm_design }
{}

/// The scheme thynvm is lawful.
pub fn thynvm_is_lawful()
    ensures { IsLawful thynvm_scheme }
{}

/// The hart may run during every checkpoint.
pub fn a_checkpoint_bars_nothing()
    ensures { NothingIsBarred }
{}

/// Blocks can be stored only while the NVM is up, and only if no page is being promoted.
pub fn a_ready_store_is_whole()
    ensures { ReadyIsWhole }
{}

/// Loads and stores keep the checkpoints, those that fail too, and bring the engine no more to do, also while a checkpoint is
/// under way.
pub fn stays_keep_the_checkpoints()
    ensures { StaysKeep }
{}

/// Every item of the engine takes exactly one of the cycles that a checkpoint has left: one for each copy and page block
/// that is left and for each block of the slot, and three more.
pub fn every_item_takes_one_cycle()
    ensures { ItemsCount }
{}

/// Engine and controller belong together if no checkpoint is under way in either. They do so after a seal with which a
/// checkpoint begins, and after every call of the controller in between, whether or not it failed: what was done stays so.
pub fn engine_and_controller_fit()
    ensures idle { IdleFits }
    ensures seal { SealFits }
    ensures stays { StaysFit }
{}

/// Let N be the number of an epoch's instructions, lines of the cache, entries of the block table, and blocks of the
/// pages that the page table can list, all together, with each number of the configuration in its range. An epoch of a
/// machine over the scheme spends less than 64 * (N + 16) cycles. A boot takes at most an action for each of memory's
/// blocks, two for each of the slot's, 64 for each entry of the page table, and eight more.
pub fn epochs_and_boots_are_short()
    ensures epochs { EpochsAreShort }
    ensures boots { BootsAreShort }
{}

/// While a machine over the scheme restores a checkpoint and does not migrate it, each step leaves the NVM as it was,
/// and one that failed wrote nothing; the last one reads.
pub fn a_recovery_without_migration_writes_nothing()
    ensures steps { StepsLeaveNvm }
    ensures failures { FailuresWriteNothing }
{}

/// A machine over the scheme migrates only a checkpoint of version 1. Its actions then are barriers, and writes of blocks
/// of the slot of that checkpoint's epoch in version 2 and of the commit block. Over an image of version 2 nothing is
/// migrated, but for the last barrier of a migration that has just written its commit block.
pub fn a_migration_writes_a_slot_and_the_commit_block()
    ensures writes { MigrationWrites }
    ensures stays { VersionTwoStays }
{}
