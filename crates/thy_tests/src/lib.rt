//! Tests of single crates, by their calls: devices, levelled wear, the cache, tables, counts, epochs, spans, files and
//! streams; and of programs on the plain machine, with one hart and with two, of made programs, and of the hart alone. They
//! promise nothing that is proved; they show what no contract says: what an operating system answers, ends compared with an
//! emulator's, and rows worked out by hand.
//!
//! Open src/lib.rt's list of files first, then the file of the crate in question. specs/ has what is asked of the values
//! that tests pass on. It depends on the crates that it tests; nothing depends on it. thy_format_tests has the tests of
//! what reads and writes formats.
#![tactic(auto)]

#[cfg(test)]
mod cache;
#[cfg(test)]
mod counts;
#[cfg(test)]
#[cfg(test)]
mod dram;
#[cfg(test)]
mod epochs;
#[cfg(test)]
mod flat;
#[cfg(test)]
mod gap;
#[cfg(test)]
mod hart;
#[cfg(test)]
mod made;
#[cfg(test)]
mod nvm;
#[cfg(test)]
mod out;
#[cfg(test)]
mod out_files;
#[cfg(test)]
mod out_reader;
#[cfg(test)]
mod out_sink;
#[cfg(test)]
mod plain;
#[cfg(test)]
mod support;
#[cfg(test)]
mod tables;
#[cfg(test)]
mod two_harts;
