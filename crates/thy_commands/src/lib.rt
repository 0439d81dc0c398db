//! From the arguments to what their command leaves, on any three machines. Callers rely on `carry_out`, whose result is
//! what the arguments ask for, or why they are refused, and on `compare`: the runs of one program by each scheme, and
//! their lines, as specified.
//!
//! Open src/order.rt first; then specs/Comparing.antt of thy_outcome, specs/Compared.antt, and src/comparing.rt. It
//! depends on thy_base, thy_execute, thy_files and thy_outcome, and on their dependencies; thy_cli depends on it.
#![tactic(auto)]

mod comparing;
mod order;

pub use comparing::compare;
pub use order::carry_out;
