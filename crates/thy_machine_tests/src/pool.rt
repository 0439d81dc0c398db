//! The parts of shadow paging, by their calls: pool, engine and boot over the simulated NVM, through cuts: what is found after
//! a cut, beside plain lists.
pub(crate) mod parts;
mod random;
