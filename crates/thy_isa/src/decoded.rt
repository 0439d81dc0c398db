//! Words of instructions, decoded once and kept. Callers depend on `DecodedWords::found`, which gives what `decode` of
//! thy_isa does in another form: nothing of what is kept is in any contract.
//!
//! Open src/decoded/found.rt first, then src/decoded/decoded_words.rt.
mod conditions;
mod decoded_words;
mod found;

pub use conditions::holds;
pub use decoded_words::DecodedWords;
pub use found::Found;
