//! Why a run stopped, and how it ended.

use thy_computer::CoreError;
use thy_isa::Status;
use thy_text::Events;

/// Why the cycles of a run stopped.
#[derive(Clone, Copy, Debug, PartialEq, Eq)]
pub enum Stop {
    /// The program has ended, and its last checkpoint is committed.
    Ended(Status),
    /// A call of the NVM failed.
    Nvm,
    /// An allocation failed.
    Memory,
    /// A write to the terminal failed.
    Terminal,
    /// A write to the report failed.
    Report,
    /// The number of cycles that the limit allows is done.
    Limit,
}

impl From<CoreError> for Stop {
    ghost use Rattle.thy_run.specs.Stopping.{stop_of};
    ghost use Rattle.std.specs.Prelude.{◌≡◌};

    ghost from_gives = { λ e stop. stop ≡ stop_of e };

    fn from(error: CoreError) -> Stop {
        match error {
            CoreError::Nvm => Stop::Nvm,
            CoreError::Memory(_) => Stop::Memory,
        }
    }
}

/// How a run ended, and what it did up to then.
#[derive(Debug, Drop)]
pub struct Ending {
    pub stop: Stop,
    pub events: Events,
    /// How many cycles the run has done.
    pub cycles: u64,
    /// Whether a write to the terminal has failed.
    pub terminal_failed: bool,
    /// Whether a write to the report has failed.
    pub report_failed: bool,
}
