//! The machine as it is seen from above: what a cycle did, what a step of the boot reports, the view that a cycle
//! changes, and the trait of machines, `Computer`. Its definitions say which changes are steps, and what a power cut
//! may leave at each of them. The laws of runs and the top call depend only on `Computer`.
//!
//! A run's checkpoints on a device are here too, for every layout: what an image means, which checkpoints a power cut
//! may leave, and how the next one takes the place of the last (`moves_are_safe`), in the marks that the machine shows.
//! A `Round` writes one: its blocks, a barrier, the commit block, and a barrier.
//!
//! Open specs/Kind.antt first, then specs/CoreStep.antt, and src/computer.rt; of checkpoints specs/Keeps.antt,
//! specs/Moves.antt and specs/Round.antt, and src/checkpoint_laws.rt. It depends on thy_layout, thy_dram and their
//! dependencies; thy_run, thy_scheme, thy_checkpoint, the images of all schemes and what is above them depend on it.
#![tactic(auto)]

mod boot_step;
mod checkpoint_laws;
mod computer;
mod did;
mod error;
mod laws;
mod round;
mod view;

pub use boot_step::BootStep;
pub use checkpoint_laws::{
    a_boot_finds_its_mark, a_cut_keeps, actions_spare, issuing_goes_on, moves_are_safe,
    rounds_are_moves, what_is_issued_is_a_checkpoint, what_is_kept_is_safe,
};
pub use computer::Computer;
pub use did::{Advance, Did, Row, Stall, Stepped};
pub use error::CoreError;
pub use laws::{
    a_kept_mark_is_never_in_doubt, a_run_goes_on_after_a_cut, a_run_goes_on_after_a_fault,
    a_run_without_turns_is_hart_zeros, a_step_reaches_no_less, a_turn_is_listed_at_the_end,
    an_instruction_is_retired_by_the_hart_that_began_it, an_instruction_reaches_beyond_its_count,
    hart_zero_takes_one_step_after_another, turns_are_found_for_each_cycle,
    turns_that_agree_lead_to_one_state, what_is_safe_stays_safe_with_turns_that_agree,
    what_retires_nothing_stays_there, with_one_hart_each_cycle_has_its_turn,
    with_one_hart_turns_do_not_matter,
};
pub use round::Round;
pub use view::{Phase, View};
