//! A processor as a list of harts, in which each hart keeps its place whichever takes a step; and the same processor with
//! one hart in front, as the contracts of other crates see it.
//!
//! Open specs/Processor.antt first, and src/processor/processor.rt.
mod fronted;
mod laws;
mod processor;

pub use fronted::Fronted;
pub use laws::a_list_of_harts_is_a_processor;
pub use processor::{HartOf, MOST_HARTS, Processor};
