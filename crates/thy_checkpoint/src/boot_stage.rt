//! The stages of a boot.
use thy_computer::Round;
use thy_layout::BadImage;

/// The stage of a boot that reads.
#[derive(Clone, Copy, Debug, PartialEq, Eq)]
pub enum ReadStage {
    /// Nothing was read yet.
    Unread,
    /// The commit block was read.
    Header,
    /// Header and commit block have no fault, and this many blocks of the slot were read.
    Slot(u64),
    /// The slot has no fault, and is listed. This position is filled next.
    Fills(u64),
    /// The image is refused, for this reason.
    Refusing(BadImage),
}

/// How a boot ended.
#[derive(Clone, Copy, Debug, PartialEq, Eq)]
pub enum End {
    /// The checkpoint that was found is restored.
    Restored,
    /// The program is loaded, as the checkpoint of epoch 0.
    Loaded,
}

/// The stage of a boot.
#[derive(Clone, Copy, Debug, PartialEq, Eq)]
pub enum Stage {
    /// The boot reads, and is at this stage.
    Reads(ReadStage),
    /// There is no checkpoint: the program is loaded, and this action of loading comes next. The round writes memory's blocks, then the
    /// slot's, and the header.
    Loads(Round),
    /// The checkpoint that was found is of an older form: it is migrated, and this action of the migration comes next. The round writes the
    /// slot.
    Migrates(Round),
    /// The boot is over.
    Over(End),
}
