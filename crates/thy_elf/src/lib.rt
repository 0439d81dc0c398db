//! The loader of ELF files: from the bytes of a file to the image that a run starts with, or the first reason why the file
//! is not one. Nothing in a file can make it fail otherwise. That is the contract of `read`. `made` has programs that are
//! made from a number: `file` gives exactly the stated bytes, which the loader takes (`made_files_are_images`).
//!
//! Open specs/Image.antt first, and src/image.rt. Of made programs open specs/MadeProgram.antt, and src/made/made.rt. It
//! stands on thy_block and thy_isa; on it stand thy_plain, thy_outcome and thy_files.
#![tactic(auto)]

mod error;
mod header;
mod image;
pub mod made;
mod number;
mod program_header;
mod segments;

pub use error::ElfError;
pub use image::{Image, read};
