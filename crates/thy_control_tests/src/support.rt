//! What the tests of this crate share; no test stands here.
pub(crate) mod drawn;
pub(crate) mod driven;
pub(crate) mod expect;
pub(crate) mod memory;
pub(crate) mod rows;
pub(crate) mod starting;
