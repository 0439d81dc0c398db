//! What a run is: cycles, power cuts between them, and events; what follows from that for every run, whatever its cuts
//! left of the queued writes (`every_run_keeps_its_promise`); and the loop that makes a run, `run`.
//!
//! Open specs/World.antt first, then specs/Promises.antt, and src/cycles.rt. It depends on thy_text, thy_computer and their
//! dependencies, and is proved for every machine of the trait `Computer`; thy_outcome and
//! thy_execute depend on it.
#![tactic(auto)]

mod advance;
mod cycles;
mod ending;
mod gather;
mod laws;
mod note;
mod observer;
mod picks;
mod plan;
mod progress;
mod quiet;
mod singles;
mod write_report;

pub use cycles::run;
pub use ending::{Ending, Stop};
pub use laws::{
    every_run_is_busy, every_run_is_soon_over, every_run_keeps_its_promise, every_run_strides,
    no_cycle_of_a_run_rests, one_more_cut_is_safe, two_runs_are_one, two_runs_show_one,
};
pub use observer::{Observer, Silent};
pub use plan::Plan;
pub use progress::Progress;
pub use singles::{SingleCycle, begin, end, single};
pub use write_report::write_bytes;
