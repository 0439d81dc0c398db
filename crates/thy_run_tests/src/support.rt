//! What the tests of this crate share; no test stands here.
pub(crate) mod expect;
