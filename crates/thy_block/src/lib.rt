//! What every other crate depends on: blocks, bytes, words, the numbers of a machine and its sizes, the numbers drawn
//! for schedules, the traits of the outside world, and a list of blocks as a list of bytes. Callers rely on
//! `Geometry::new`, which gives a geometry exactly if what it is made of is in range; on the clauses of `Nvm`, `Shelf`,
//! `Sink` and `BlockStore`, all that is known of their implementations; and on `spans_are_bytes`: gathering a span, block
//! by block, gives the bytes at its place, and scattering bytes over it changes these and no other.
//!
//! Open specs/Device.antt and src/nvm.rt first, then specs/Geometry.antt and specs/Spans.antt. It depends on no crate of
//! this repository; every other depends on it. Options and their values are in thy_base.
#![tactic(auto)]

mod block;
mod bytes;
mod cause;
mod geometry;
mod inside;
mod laws;
mod lcg;
mod mark;
mod mix;
mod nvm;
mod outside;
mod page;
mod parameters;
mod piece;
mod places;
mod scheme_name;
mod span;
mod store;
mod words;

pub use block::{BLOCK_SIZE, Block};
pub use bytes::Bytes;
pub use cause::EndCause;
pub use geometry::{Configuration, Geometry};
pub use inside::is_inside;
pub use laws::spans_are_bytes;
pub use lcg::Lcg;
pub use mark::Mark;
pub use mix::{Mix, Pick};
pub use nvm::{FitError, Nvm, NvmError, Shape, Write};
pub use outside::{FetchError, PutError, Shelf, Sink, SinkError};
pub use page::{BLOCK_COUNTS, PAGE_BLOCKS, PAGE_SIZE, page_of};
pub use parameters::{Parameters, SchemeName};
pub use piece::{Piece, extend, take_head};
pub use places::{COMMIT_PLACE, HART_BLOCKS, HEADER_PLACE};
pub use span::Span;
pub use store::{BlockStore, Stored};
pub use words::{block_with, word};
