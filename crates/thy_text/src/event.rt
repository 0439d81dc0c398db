//! An event of a run.

use thy_base::{Bytes, EndCause};
use thy_isa::{MachState, Status};

/// What happened in a run. Epochs count from 0, which is loading; a count is one of instructions that
/// have retired; cycles count over the whole run, from 1.
#[derive(Debug, Drop)]
pub enum Event {
    /// A run by the scheme of this number begins, over a device that was just fitted.
    Scheme {
        number: u64,
    },
    /// The epoch was sealed at this count, for this cause.
    EpochEnd {
        epoch: u64,
        count: u64,
        cause: EndCause,
        /// The number, 0 or 1, of the hart that retired each instruction of the epoch, in order, if there are two. With one hart none are
        /// listed.
        turns: Bytes,
    },
    /// The sealed checkpoint of the epoch was committed. Meanwhile `overlapped` instructions retired.
    Commit {
        epoch: u64,
        cycle: u64,
        overlapped: u64,
    },
    /// Power was cut after the cycle. The first cut has the index 1.
    Cut {
        index: u64,
        cycle: u64,
    },
    /// The run went on from the committed checkpoint of the epoch, whose state has this count.
    Restart {
        epoch: u64,
        count: u64,
        state: MachState,
    },
    /// After a cut no checkpoint was found; the program is loaded again.
    Reload,
    /// The committed checkpoint has a state that no longer runs.
    Ended {
        status: Status,
        count: u64,
        cycle: u64,
        state: MachState,
    },
}
