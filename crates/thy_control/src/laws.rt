//! Laws of the controller, each the contract of a function that does nothing.
ghost use Rattle.thy_control.specs.Seal.{SealMakesCells};
ghost use Rattle.thy_control.specs.Commit.{CommitMakesCells};
ghost use Rattle.thy_control.specs.Boot.{NewIsBooting, DrainKeepsBooting, BootHasTables, TablesMayListBlock, TablesMayListPage, FramedHoldsAll};
ghost use Rattle.thy_control.specs.Frees.{SealFrees};
ghost use Rattle.thy_control.specs.Holding.{BlocksAreWorks, MemoryIsHeld, NewIsReady};
ghost use Rattle.thy_control.specs.Once.{OneActionIsOneOfNvm};
ghost use Rattle.thy_control.specs.OverCalls.{StaysOverCalls, CopiedStays, PlacedStays};
ghost use Rattle.thy_control.specs.CheckpointTables.{CommittedTables, TablesUnderWay};
ghost use Rattle.thy_control.specs.Guarded.{CopiedIsPlaced, IssuedIsPlaced};
ghost use Rattle.thy_control.specs.Left.{NoneLeftIsCopied, CopiedHasNoneLeft};
ghost use Rattle.thy_control.specs.Drains.{LandingIsUnseen, NvmDrainIsUnseen, BarrierIsUnseen, DrainIsUnseen, DrainTakesOne};

/// What stays does so if nothing happens, and over two calls one after the other. If all blocks of the checkpoint under
/// way are copied and written, they stay so, and each block that it has at its place already stays there. To stay means
/// that both checkpoints keep their tables, the counts of the epoch before are as they were, and a cut may leave nothing
/// new at guarded places.
pub fn what_stays_does_so_over_calls()
    ensures calls { StaysOverCalls }
    ensures copied { CopiedStays }
    ensures placed { PlacedStays }
{}

/// The tables of either checkpoint, as the controller's tables give them, are those that a checkpoint may have, and
/// have each block of memory at the place at which the controller has it.
pub fn checkpoints_have_tables()
    ensures committed { CommittedTables }
    ensures under_way { TablesUnderWay }
{}

/// Seen as a store of blocks, the controller and the NVM hold the work of every block of memory, and no block if
/// the NVM has another size or is down.
pub fn blocks_are_works()
    ensures works { BlocksAreWorks }
    ensures all { MemoryIsHeld }
{}

/// Seen as a store of blocks, a new controller has room for a store for each entry of the block table, owes no copy, and
/// is ready if the NVM is up.
pub fn a_new_controller_is_ready()
    ensures { NewIsReady }
{}

/// What a call does once at both devices is one action of the NVM at most. That is nothing; one write, between the slots of
/// version 1 and of version 2, at a place that no checkpoint has; or a read or such a write that failed. If the NVM is up
/// afterwards it did not fail, and both devices together have one write more queued at most.
pub fn one_action_is_one_of_the_nvm()
    ensures { OneActionIsOneOfNvm }
{}

/// If no entry of the block table has work at a seal, and only the checkpoint's copies come before its commit, at least half
/// of the block table is free after the commit.
pub fn a_seal_without_work_frees_entries()
    ensures { SealFrees }
{}

/// After a seal each block has the entries that the seal makes of its own; its page may also have been listed, to be
/// promoted.
pub fn a_seal_makes_cells()
    ensures { SealMakesCells }
{}

/// After a commit each block has the entries that the commit makes of its own.
pub fn a_commit_makes_cells()
    ensures { CommitMakesCells }
{}

/// A new controller is as a boot has it, and so is one of which a write landed; both checkpoints have the same tables then.
pub fn a_new_controller_boots()
    ensures new { NewIsBooting }
    ensures drained { DrainKeepsBooting }
    ensures tables { BootHasTables }
{}

/// A block or a page may be listed if its entry is empty, and with it the tables are those that a checkpoint may have.
pub fn tables_allow_listing()
    ensures block { TablesMayListBlock }
    ensures page { TablesMayListPage }
{}

/// Once the frames of all listed pages are loaded, the places of every block hold what they have to.
pub fn loaded_frames_hold_all()
    ensures { FramedHoldsAll }
{}

/// If writes of the NVM landed, by a drain or by a barrier, every place reads as before, the places hold what they have to
/// if they did, and both checkpoints stay. The NVM may be down.
pub fn landing_is_unseen()
    ensures landing { LandingIsUnseen }
    ensures drain { NvmDrainIsUnseen }
    ensures barrier { BarrierIsUnseen }
{}

/// If a write of the DRAM landed, every place reads as before, the places hold what they have to if they did, and both
/// checkpoints stay. One write less is queued there then, if any was.
pub fn a_drain_of_the_dram_is_unseen()
    ensures unseen { DrainIsUnseen }
    ensures queued { DrainTakesOne }
{}

/// If no copy and no block of a page comes next, every block of the checkpoint under way is copied and written, and
/// the other way round.
pub fn nothing_left_is_all_copied()
    ensures copied { NoneLeftIsCopied }
    ensures none { CopiedHasNoneLeft }
{}

/// The checkpoint under way has a block at its place already once nothing is left of it, and, if its page is busy,
/// once it was issued.
pub fn copied_and_issued_blocks_are_placed()
    ensures copied { CopiedIsPlaced }
    ensures issued { IssuedIsPlaced }
{}
