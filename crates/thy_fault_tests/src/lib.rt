//! Tests of whole runs, by the program's call, over what fails or was left, and with the redo journal and shadow paging: an
//! NVM or a shelf that fails, damaged or old files and images, saves, levelled wear, and power that is cut again while it
//! comes on. They promise nothing that is proved; they show what no contract says: reports as printed and as the rules of
//! the schemes give them, and what goes on compared with the plain machine's.
//!
//! Open src/support/calls.rt first. specs/ has what is asked of a shelf that tests pass on. It depends on thy_cli, with
//! what its call needs; nothing depends on it.
#![tactic(auto)]

#[cfg(test)]
mod boots;
#[cfg(test)]
mod fault_rows;
#[cfg(test)]
mod faults;
#[cfg(test)]
mod hostile;
#[cfg(test)]
mod inputs;
#[cfg(test)]
mod levelled;
#[cfg(test)]
mod migrated;
#[cfg(test)]
mod noted;
#[cfg(test)]
mod saved;
#[cfg(test)]
mod schemes;
#[cfg(test)]
mod second_cuts;
#[cfg(test)]
mod support;
