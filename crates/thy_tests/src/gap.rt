//! Wear levelling over the simulated NVM: the lines' places after each move, and what cuts leave if each call of the inner
//! device has failed in turn, before it has done anything or late.
mod cuts;
mod lines;
pub(crate) mod steps;
