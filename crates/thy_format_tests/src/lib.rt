//! Tests of the formats, by their calls: instructions and system calls, ELF files, records, images and the lines of the
//! report. They promise nothing that is proved; they show what no contract says: tables from outside, printed
//! text, and rows worked out by hand.
//!
//! Open src/lib.rt's list of files first, then the file of the crate in question. It depends on thy_isa, thy_elf,
//! thy_record, thy_text and their dependencies; nothing depends on it.
#![tactic(auto)]

#[cfg(test)]
mod calls;
#[cfg(test)]
mod elf;
#[cfg(test)]
mod image;
#[cfg(test)]
mod isa;
#[cfg(test)]
mod isa_rows;
#[cfg(test)]
mod record;
#[cfg(test)]
mod support;
#[cfg(test)]
mod text;
