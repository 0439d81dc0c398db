//! The top call, which does all that the program does: from the arguments of a command line to the exit status. The
//! contract of `thynvm` is the theorem of this repository: `Claim`, which is `Answered` and complete.
//!
//! Open src/top.rt first, then specs/Completing.antt (`Claim`), and of thy_outcome specs/Orders.antt (`Answered`) and
//! specs/Answering.antt. It depends on thy_core and thy_schemes, whose machines it names, on thy_commands, which does what
//! the arguments ask for, on thy_outcome, and on their dependencies; the programs and the tests of whole runs depend on it.
#![tactic(auto)]

mod top;

pub use thy_outcome::{Answer, Refusal, refuse};
pub use top::{observed, thynvm};
