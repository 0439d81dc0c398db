//! Tests of programs on the whole machine by its steps, with each scheme, and of the parts of the redo journal and of
//! shadow paging, by their calls. They promise nothing that is proved; they show what no contract says: ends,
//! checkpoints and restarts compared with the plain machine's, and what is found after a cut, beside plain lists.
//!
//! `WaitingScheme` is the scheme thynvm, but the hart may not run while a checkpoint is under way, and after
//! each commit and each restart the engine makes three barriers before the hart runs: an example of a scheme of another
//! kind. No program runs on it, only tests.
//!
//! Open src/machine.rt first, then src/log/random.rt and src/log/parts.rt; src/pool is as src/log; of the scheme that waits
//! src/waiting.rt, specs/Calls.antt and src/scheme.rt. specs/ has what is asked of the values that tests pass on. It depends
//! on thy_core, thy_schemes, thy_test_support and thy_plain, with their dependencies; nothing depends on it.
#![tactic(auto)]

#[cfg(test)]
mod beside;
#[cfg(test)]
mod log;
#[cfg(test)]
mod machine;
#[cfg(test)]
mod pool;
mod scheme;
#[cfg(test)]
mod support;
mod waiting;

pub use waiting::WaitingScheme;
