//! Tests of controller, engine and boot, by their calls over the simulated NVM, through cuts. They promise nothing that is
//! proved; they show what no contract says: rows worked out by hand, and what is found after a cut, beside plain lists.
//!
//! Open src/controller_rows.rt first, then src/cuts.rt. specs/ has what is asked of the values that tests pass on. It depends
//! on thy_control, thy_checkpoint, thy_thynvm_parts, thy_schemes and their dependencies; nothing depends on it.
#![tactic(auto)]

#[cfg(test)]
mod boot;
#[cfg(test)]
mod controller;
#[cfg(test)]
mod controller_epochs;
#[cfg(test)]
mod controller_rows;
#[cfg(test)]
mod cuts;
#[cfg(test)]
mod engine_rows;
#[cfg(test)]
mod support;
