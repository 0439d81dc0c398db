//! Laws of shadow paging, each the contract of a function that does nothing.
ghost use Rattle.thy_scheme_parts.specs.Schemes.{FirstHasRoom, HartIsBarred, NeverMigrates};
ghost use Rattle.thy_scheme_parts.specs.AreParts.{AreParts};
ghost use Rattle.thy_scheme.specs.Laws.{IsLawful};
ghost use Rattle.thy_shadow_parts.specs.Design.{shadow_design};
ghost use Rattle.thy_shadow_parts.specs.Laws.{BootsAreShort, CommittedIsSpared, EpochsAreShort, FramesAreFree};
ghost use Rattle.thy_shadow_parts.specs.Scheme.{shadow_scheme};

/// Shadow paging is a scheme of lawful parts. The body of a checkpoint is each block of each filled frame, written into
/// the frame's page of the pool. With the commit these pages take the place of the old ones, and every frame is free.
pub fn shadow_paging_is_made_of_parts()
    ensures { AreParts shadow_design }
{}

/// Shadow paging is a lawful scheme.
pub fn shadow_paging_is_lawful()
    ensures { IsLawful shadow_scheme }
{}

/// No item of the engine writes into a page of the pool that the committed map lists.
pub fn the_committed_pages_are_spared()
    ensures { CommittedIsSpared }
{}

/// A boot takes at most one action for each of memory's blocks and of the slot's, and five more. A checkpoint takes at
/// most one for each block of the frames and of the slot, and three more. No boot migrates.
pub fn boots_are_short()
    ensures short { BootsAreShort }
    ensures never { NeverMigrates shadow_scheme }
{}

/// The hart waits for each checkpoint: nothing overlaps.
pub fn a_checkpoint_bars_the_hart()
    ensures { HartIsBarred shadow_scheme }
{}

/// While nothing is under way, and nothing was stored since the last seal, every frame is free. So the first
/// instruction of an epoch always has room: none is exhausted before it has retired one.
pub fn an_epoch_begins_with_every_frame_free()
    ensures free { FramesAreFree }
    ensures room { FirstHasRoom shadow_scheme }
{}

/// An epoch spends fewer cycles of hart and engine than 17 for each of its instructions, 129 for each frame, one for
/// each block of a slot, and four more.
pub fn epochs_are_short()
    ensures { EpochsAreShort }
{}
