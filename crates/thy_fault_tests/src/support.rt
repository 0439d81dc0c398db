//! What the tests of this crate share; no test stands here.
pub(crate) mod by_scheme;
pub(crate) mod calls;
pub(crate) mod expect;
pub(crate) mod naming;
pub(crate) mod programs;
