//! The parts of a redo journal, by their calls: log, engine and boot over the simulated NVM, through cuts: what is found after
//! a cut, beside plain lists.
pub(crate) mod parts;
mod random;
