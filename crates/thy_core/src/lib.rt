//! The machine of hart, cache and a scheme of checkpoints: the code of its calls, by which it is one of the machines
//! that the layers above run, whatever the scheme: `Machine` is a `Computer`.
//!
//! Open src/computer.rt first, then src/step.rt and specs/Cycles.antt. It depends on thy_scheme and its
//! dependencies; thy_cli, which names the machine's type, depends on it.
#![tactic(auto)]

mod boot;
mod computer;
mod cycle;
mod engine;
mod hart;
mod machine;
mod parts;
mod power;
mod reading;
mod sealing;
mod snapshot;
mod step;
mod turn;

pub use machine::Machine;
