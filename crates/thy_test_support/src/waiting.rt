//! What a scheme that waits is to its contracts: a scheme below, and the barriers that its engine makes after each commit
//! and each restart, while the hart may not run. The law: over a lawful scheme that applies nothing, it is lawful.
//!
//! Open specs/Waiting.antt first, then specs/WaitingScheme.antt, and src/waiting/laws.rt.
mod laws;

pub use laws::a_scheme_that_waits_is_lawful;
