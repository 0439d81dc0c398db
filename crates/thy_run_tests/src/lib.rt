//! Tests of command lines, and of whole runs by the program's call: programs, what they read and print, epochs, cuts,
//! comparisons and two harts. They promise nothing that is proved; they show what no contract says: reports as printed, and
//! ends and digests compared with the plain machine's.
//!
//! Open src/runs.rt first. It depends on thy_cli and thy_base, with what their calls need; nothing depends on it.
#![tactic(auto)]

#[cfg(test)]
mod runs;
#[cfg(test)]
mod support;
#[cfg(test)]
mod words;
