//! The kinds of cycles.
ghost use Rattle.std.specs.Prelude.{◌≡◌, ◌<◌};
ghost use Rattle.thy_observe.specs.Kinds.{kind_of, index_of, KindsAddUp};

use thy_computer::Did;
use thy_layout::EngineStep;

/// The kind of a cycle.
#[derive(Clone, Copy, Debug, PartialEq, Eq, Drop)]
pub enum Kind {
    /// An action of the boot.
    Boot,
    /// A queued write of the NVM has landed.
    NvmDrain,
    /// A queued write of the DRAM has landed.
    DramDrain,
    /// The hart moved on within an instruction.
    Moved,
    /// An instruction was retired.
    Retired,
    /// A dirty line of the cache was stored at an epoch's end.
    Flushed,
    /// A block was merged into its page.
    Merged,
    /// A block of a page was promoted.
    Promoted,
    /// An epoch was sealed.
    Sealed,
    /// The engine copied a block of memory.
    Copied,
    /// The engine wrote a block of a page back.
    Page,
    /// The engine wrote a block of the processor's record.
    State,
    /// The engine wrote a block of the tables.
    Table,
    /// The engine made the barrier before the commit block.
    Barrier,
    /// The engine wrote the commit block.
    Commit,
    /// The engine made the barrier after the commit block.
    Committed,
    /// The machine had nothing to do.
    Nothing,
}

/// How many kinds of cycles there are.
pub(crate) const KINDS: usize = 17;

/// The kind of a cycle in which the engine took this action.
fn kind_of_engine(step: EngineStep) -> Kind
    ensures { result ≡ kind_of (Did.Engine step) }
{
    match step {
        EngineStep::Copied => Kind::Copied,
        EngineStep::PageBlock => Kind::Page,
        EngineStep::StateBlock => Kind::State,
        EngineStep::TableBlock => Kind::Table,
        EngineStep::Barrier => Kind::Barrier,
        EngineStep::CommitWritten => Kind::Commit,
        EngineStep::Committed(_) => Kind::Committed,
        EngineStep::Idle => Kind::Nothing,
    }
}

/// The kind of a cycle that did this.
pub(crate) fn kind_of(did: Did) -> Kind
    ensures { result ≡ kind_of did }
{
    match did {
        Did::Boot | Did::Loaded | Did::Restarted(..) | Did::Refused(_) => Kind::Boot,
        Did::NvmDrained => Kind::NvmDrain,
        Did::DramDrained => Kind::DramDrain,
        Did::Moved => Kind::Moved,
        Did::Retired(_) => Kind::Retired,
        Did::Flushed => Kind::Flushed,
        Did::Merged => Kind::Merged,
        Did::Promoted => Kind::Promoted,
        Did::Sealed(..) => Kind::Sealed,
        Did::Engine(step) => kind_of_engine(step),
        Did::Committed { .. } => Kind::Committed,
        Did::Nothing => Kind::Nothing,
    }
}

/// The index of a kind among all.
pub(crate) fn index_of(kind: Kind) -> usize
    ensures index { result ≡ index_of kind }
    ensures within { result < 17 }
{
    match kind {
        Kind::Boot => 0,
        Kind::NvmDrain => 1,
        Kind::DramDrain => 2,
        Kind::Moved => 3,
        Kind::Retired => 4,
        Kind::Flushed => 5,
        Kind::Merged => 6,
        Kind::Promoted => 7,
        Kind::Sealed => 8,
        Kind::Copied => 9,
        Kind::Page => 10,
        Kind::State => 11,
        Kind::Table => 12,
        Kind::Barrier => 13,
        Kind::Commit => 14,
        Kind::Committed => 15,
        Kind::Nothing => 16,
    }
}

/// Each cycle is of one kind, so the kinds add up to the cycles.
pub fn kinds_add_up()
    ensures { KindsAddUp }
{}
