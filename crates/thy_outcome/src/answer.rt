//! What the top call returns.

ghost use Rattle.std.specs.Prelude.{◌≡◌};
ghost use Rattle.thy_outcome.specs.Answering.{run_status, stop_status};
ghost use Rattle.thy_outcome.specs.Kept.{answer_of};

use std::alloc::Global;
use thy_base::PutError;
use thy_isa::Status;
use thy_run::Stop;
use thy_text::{Events, History};

/// The result of the top call.
#[derive(Drop)]
pub struct Answer {
    /// The exit status: 0 if the program exited, 1 if it trapped, 2 to 10 as `docs/FORMATS.md`
    /// lists them.
    pub status: u8,
    /// The events of the call's runs, in order.
    pub events: History,
    /// How many cycles the call has done; of the plain machine, how many steps.
    pub cycles: u64,
}

/// A run that was begun and has stopped.
#[derive(Drop)]
pub struct Ran {
    pub stop: Stop,
    pub status: u8,
    pub events: Events,
    pub cycles: u64,
}

impl Ran {
    /// The answer of a call that began this run alone.
    pub fn answer(self, alloc: Global) -> Answer
        ensures { result ≡ answer_of self }
    {
        Answer {
            status: self.status,
            events: History::of(alloc, self.events),
            cycles: self.cycles,
        }
    }
}

/// The exit status for a stop.
pub fn status_of(stop: Stop) -> u8
    ensures { result ≡ stop_status stop }
{
    match stop {
        Stop::Ended(Status::Trapped(_)) => 1,
        Stop::Ended(_) => 0,
        Stop::Terminal | Stop::Report => 6,
        Stop::Nvm => 7,
        Stop::Limit => 8,
        Stop::Memory => 9,
    }
}

/// The status of a run that stopped; if it was to be saved and was not, the status of the put.
pub fn run_status(stop: Stop, why: Option<PutError>) -> u8
    ensures { result ≡ run_status stop why }
{
    match why {
        None => status_of(stop),
        Some(PutError::Failed) => 3,
        Some(PutError::Memory(_)) => 9,
    }
}
