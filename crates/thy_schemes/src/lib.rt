//! The three schemes that programs run on, each the type that machines are made over: `Thynvm`, `Journal` and `Shadow`. What
//! their calls do is the contract of `Composed`; here are the three traits of a scheme's parts, implemented for each.
//!
//! Open src/thynvm.rt, src/journal.rt or src/shadow.rt first. It depends on thy_composed_scheme, on thy_control,
//! thy_thynvm_parts, thy_journal_parts, thy_shadow_parts and thy_images, and on their dependencies; thy_cli, observe and sweep,
//! which name the types, depend on it. The laws of a scheme's parts are in the crates below, because an `impl` can cite proofs of lower
//! crates only.
#![tactic(auto)]

mod journal;
mod shadow;
mod thynvm;

pub use journal::{Journal, Refill};
pub use shadow::{Relist, Shadow};
pub use thynvm::{Thynvm, ThynvmTables};
