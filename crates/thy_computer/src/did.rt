//! What one cycle did.
ghost use Rattle.std.specs.Prelude.{◌≡◌};
ghost use Rattle.thy_computer.specs.Advances.{stepped_of};

use thy_block::EndCause;
use thy_layout::{BadImage, EngineStep};

/// What a cycle did.
#[derive(Clone, Copy, Debug, PartialEq, Eq)]
pub enum Did {
    /// One action of the boot but its last.
    Boot,
    /// The last action of loading: the program is loaded, as the checkpoint of epoch 0.
    Loaded,
    /// The last action of recovery: this epoch was restored, whose end is at this count.
    Restarted(u64, u64),
    /// The image is refused. This comes again at each later action of the boot.
    Refused(BadImage),
    /// The hart moved on within an instruction.
    Moved,
    /// An instruction was retired, by this hart, 0 or 1.
    Retired(u32),
    /// A dirty cache line was stored at the epoch's end.
    Flushed,
    /// A block was merged into its page at the epoch's end.
    Merged,
    /// The epoch was sealed, at this count and for this cause: its checkpoint is under way.
    Sealed(u64, u64, EndCause),
    /// A block of a page was promoted.
    Promoted,
    /// One action of the checkpoint engine but its last.
    Engine(EngineStep),
    /// The checkpoint of this epoch is committed. `overlapped` instructions were retired meanwhile.
    Committed { epoch: u64, overlapped: u64 },
    /// A queued write of the NVM has landed.
    NvmDrained,
    /// A queued write of the DRAM has landed.
    DramDrained,
    /// The machine is halted, and there was nothing to drain.
    Nothing,
}

/// Why the hart advanced no instruction at its turn.
#[derive(Clone, Copy, Debug, PartialEq, Eq)]
pub enum Stall {
    /// The boot is not over.
    Booting,
    /// The epoch is over and is being sealed.
    Sealing,
    /// A checkpoint is under way for which the hart waits; its engine took the cycle.
    Waiting,
    /// The program has ended.
    Halted,
}

/// What a step reports of its one cycle.
#[derive(Clone, Copy, Debug, PartialEq, Eq)]
pub struct Stepped {
    pub did: Did,
    /// The hart's stall, if the cycle was its turn and advanced no instruction.
    pub stall: Option<Stall>,
    /// Whether the machine is halted from this cycle on.
    pub ended: bool,
}

/// What a cycle did in which a hart advanced its instruction.
#[derive(Clone, Copy, Debug, PartialEq, Eq)]
pub enum Advance {
    /// The hart moved on within an instruction.
    Moved,
    /// An instruction was retired, by this hart, 0 or 1.
    Retired(u8),
}

impl Advance {
    /// What a step reports of the cycle.
    #[inline(always)]
    pub fn stepped(self) -> Stepped
        ensures { result ≡ stepped_of self }
    {
        let did = match self {
            Advance::Moved => Did::Moved,
            Advance::Retired(hart) => Did::Retired(hart as u32),
        };
        Stepped {
            did,
            stall: None,
            ended: false,
        }
    }
}

/// What a hart did in cycles one after another in which it advanced its instruction: it moved on this often, and then an
/// instruction was retired, by this hart, 0 or 1, or none was.
#[derive(Clone, Copy, Debug, PartialEq, Eq)]
pub struct Row {
    pub moved: u64,
    pub retired: Option<u8>,
}
