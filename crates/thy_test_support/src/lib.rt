//! What tests of several crates share: geometries, images, starts, program files made of words, and what a call is given and
//! gave. It promises little that is proved; it is for tests alone. No function of it stops a test: each returns an error,
//! and the test stops. `waiting` says what a scheme that waits is, with the law that it is lawful
//! (`a_scheme_that_waits_is_lawful`): a test's `impl` can cite proofs of lower crates only.
//!
//! Open src/programs.rt for the programs, src/smallest.rt for the numbers of the smallest machine, and src/least.rt for what
//! the parts of a scheme are tested over. Of the scheme that waits open specs/Waiting.antt. It stands on thy_base, thy_isa,
//! thy_elf, thy_out, thy_layout and thy_scheme; on it stand the crates of tests.
#![tactic(auto)]

mod calls;
mod geometry;
mod least;
mod programs;
mod smallest;
mod waiting;

pub use calls::{Given, arguments_of, has, sink};
pub use geometry::geometry_of;
pub use least::{LEAST, cpu_at, cpu_of, drawn, start_over};
pub use programs::{
    EXIT_SEVEN, FOUR_INSTRUCTIONS, Files, GREET, HELLO, NINE_STORES, NINE_STORES_TWICE, READ_INPUT,
    SELF_MODIFYING, THREE_WORDS, file_of, files_of, hold, patched, shelf_of,
};
pub use smallest::{SMALLEST, image_of};
pub use waiting::a_scheme_that_waits_is_lawful;
