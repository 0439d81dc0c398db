//! The causes of cycles.
ghost use Rattle.std.specs.Prelude.{◌≡◌, ◌<◌};
ghost use Rattle.thy_observe.specs.Causes.{CausesAddUp, CausesAgree, all_causes, cause_index, cause_of, under_way_after_cut, under_way_after_step};
ghost use Rattle.thy_observe.specs.UnderWay.{KnowsUnderWay};

use crate::kinds::Kind;
use thy_computer::{Computer, Did};

/// Why a cycle was taken.
#[derive(Clone, Copy, Debug, PartialEq, Eq, Drop)]
pub enum Cause {
    /// An action of a boot.
    Boot,
    /// Within an instruction, or its retirement, while no checkpoint is under way.
    Instruction,
    /// Within an instruction, or its retirement, while one is.
    Meanwhile,
    /// A dirty line of the cache was stored at an epoch's end, or a copy made that comes first.
    Flush,
    /// A block was merged into its page.
    Merge,
    /// An epoch was sealed.
    Seal,
    /// A block of a page was promoted.
    Promotion,
    /// The engine copied a block of memory while a checkpoint is under way: the redo journal into its journal.
    Copy,
    /// The engine copied a block of memory while no checkpoint is under way: the redo journal home, after the commit or a restart.
    Home,
    /// The engine wrote a block of a page back.
    Page,
    /// The engine wrote a block of the processor's record.
    Processor,
    /// The engine wrote a block of the tables, or of what a slot has after them.
    Table,
    /// The engine wrote the commit block.
    Commit,
    /// The engine made a barrier.
    Barrier,
    /// A queued write of the NVM has landed.
    NvmDrain,
    /// A queued write of the DRAM has landed.
    DramDrain,
    /// The actor had nothing to do.
    Nothing,
}

/// How many causes there are.
pub(crate) const CAUSES: usize = 17;

impl Cause {
    /// All causes, by rising index.
    pub fn all() -> [Cause; CAUSES]
        ensures { result ≡ all_causes }
    {
        [
            Cause::Boot,
            Cause::Instruction,
            Cause::Meanwhile,
            Cause::Flush,
            Cause::Merge,
            Cause::Seal,
            Cause::Promotion,
            Cause::Copy,
            Cause::Home,
            Cause::Page,
            Cause::Processor,
            Cause::Table,
            Cause::Commit,
            Cause::Barrier,
            Cause::NvmDrain,
            Cause::DramDrain,
            Cause::Nothing,
        ]
    }
}

/// The cause of a cycle of this kind, by whether a checkpoint was under way before it.
pub(crate) fn cause_of(under_way: bool, kind: Kind) -> Cause
    ensures { result ≡ cause_of under_way kind }
{
    match kind {
        Kind::Boot => Cause::Boot,
        Kind::NvmDrain => Cause::NvmDrain,
        Kind::DramDrain => Cause::DramDrain,
        Kind::Moved | Kind::Retired => if under_way {
            Cause::Meanwhile
        } else {
            Cause::Instruction
        },
        Kind::Flushed => Cause::Flush,
        Kind::Merged => Cause::Merge,
        Kind::Promoted => Cause::Promotion,
        Kind::Sealed => Cause::Seal,
        Kind::Copied => if under_way { Cause::Copy } else { Cause::Home },
        Kind::Page => Cause::Page,
        Kind::State => Cause::Processor,
        Kind::Table => Cause::Table,
        Kind::Commit => Cause::Commit,
        Kind::Barrier | Kind::Committed => Cause::Barrier,
        Kind::Nothing => Cause::Nothing,
    }
}

/// The index of a cause among all.
pub(crate) fn index_of(cause: Cause) -> usize
    ensures index { result ≡ cause_index cause }
    ensures within { result < 17 }
{
    match cause {
        Cause::Boot => 0,
        Cause::Instruction => 1,
        Cause::Meanwhile => 2,
        Cause::Flush => 3,
        Cause::Merge => 4,
        Cause::Seal => 5,
        Cause::Promotion => 6,
        Cause::Copy => 7,
        Cause::Home => 8,
        Cause::Page => 9,
        Cause::Processor => 10,
        Cause::Table => 11,
        Cause::Commit => 12,
        Cause::Barrier => 13,
        Cause::NvmDrain => 14,
        Cause::DramDrain => 15,
        Cause::Nothing => 16,
    }
}

/// Whether a checkpoint is under way after a step that did this.
fn under_way_after_step(under_way: bool, did: Did) -> bool
    ensures { result ≡ under_way_after_step under_way did }
{
    match did {
        Did::Sealed(..) => true,
        Did::Committed { .. } => false,
        _ => under_way,
    }
}

/// Whether a checkpoint is under way after a step that did this, and the cut that may have fallen after it.
pub(crate) fn under_way_then(under_way: bool, did: Did, fell: bool) -> bool
    ensures { result ≡ under_way_after_cut (under_way_after_step under_way did) fell }
{
    if fell {
        return false;
    }
    under_way_after_step(under_way, did)
}

/// Each cycle has one cause, so the causes add up to the cycles.
pub fn causes_add_up()
    ensures { CausesAddUp }
{}

/// The causes agree with the kinds of cycles: without regard to what is under way, each belongs to some kinds.
pub fn causes_agree_with_kinds()
    ensures { CausesAgree }
{}

/// What counts as a checkpoint under way is one: after each cycle outside a boot, it is so exactly while the machine has one that
/// is sealed.
pub fn what_is_under_way_is_known<M: Computer>()
    ensures { KnowsUnderWay M.kind }
{}
