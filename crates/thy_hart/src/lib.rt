//! One hart: an instruction in micro-steps through a write-back cache, over any store of blocks. Callers rely on
//! `Hart::step`, which equals its specification, and on `a_step_follows_on`: the step that retires an instruction makes
//! the plain machine's next state. `EpochState` is the state of the epoch under execution: its number, what it has
//! retired, and why it is over. Each of its calls equals its specification, and the epoch retires less than its length
//! until it is over.
//!
//! Open specs/Moments.antt first, then specs/OneStep.antt and specs/Epoch.antt, and src/hart.rt. It depends on thy_block,
//! thy_isa and thy_cache; thy_scheme and thy_core depend on it.
#![tactic(auto)]

mod bring;
mod epoch;
mod fetching;
mod hand;
mod hart;
mod in_hand;
mod laws;
mod micro_steps;
mod pieces;
mod taking;

pub use epoch::EpochState;
pub use hand::{Hand, HartStep};
pub use hart::Hart;
pub use laws::{
    a_hart_is_ready_with_no_page_open, a_hart_that_crosses_follows_the_other, a_step_follows_on,
    few_moves_are_left, the_next_state_is_to_come,
};
