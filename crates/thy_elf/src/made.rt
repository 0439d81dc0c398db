//! Made programs, one for each number: 16,000 stores to pages that are drawn, some of which are stored to often, and an
//! exit. `file` gives exactly the stated bytes, unless memory ran out; `made_files_are_images` says that the loader takes
//! them. How a program ends is tested.
//!
//! Open specs/MadeProgram.antt first, and src/made/made.rt.
mod encode;
mod laws;
mod made;
mod one_segment;
mod program;

pub use laws::{
    made_files_are_images, made_files_are_long, made_programs_loop, made_words_decode,
    stores_are_in_reach,
};
pub use made::file;
