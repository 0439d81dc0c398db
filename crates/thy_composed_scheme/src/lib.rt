//! The scheme of checkpoints over any parts: controller, engine and boot as one `Scheme`. Each call of it has a function
//! beside it that equals its specification in controller, engine, boot and NVM; from these, and from the laws of the parts,
//! follows what the trait promises.
//!
//! Open src/composed.rt first, then src/scheme.rt. It depends on thy_scheme_parts and its dependencies.
#![tactic(auto)]

mod composed;
mod scheme;

pub use composed::Composed;
