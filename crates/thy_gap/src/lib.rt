//! Wear levelling after Start-Gap (Qureshi, Karidis, Franceschini, Srinivasan, Lastras, Abali, MICRO 2009): a device of n
//! blocks over any device of n + 2. The blocks that are seen, its lines, wander over the places of the inner device, one
//! at a time, into a gap that wanders the other way. `Gap` keeps the laws of the trait `Nvm`, through every cut and every
//! call that fails: an inner image means what is seen, by the registers in its own last block. Lines move over a device whose
//! blocks land whole.
//!
//! Open specs/Lines.antt first, then specs/Seen.antt and specs/Levelled.antt, and src/gap.rt. It stands on thy_block alone;
//! on it stand thy_outcome, thy_execute, thy_sweep and sweep, for the option `--gap`, and thy_tests tests it.
#![tactic(auto)]

mod gap;
mod laws;
mod moving;
mod registers;

pub use gap::Gap;
pub use laws::{a_move_moves_one_line, a_round_of_moves_rotates_the_lines, places_are_one_to_one};
pub use registers::Registers;
