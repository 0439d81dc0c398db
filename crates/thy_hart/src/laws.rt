//! Laws of the hart's steps, each the contract of a function that does nothing.
ghost use Rattle.thy_hart.specs.Laws.{ReadyWithNoPageOpen, FewMovesAreLeft, NextStateIsToCome, StepFollowsOn, CrossesOn};

/// With no page open, a hart is ready if cache and store agree and there is room: so is a new one, and one
/// whose next epoch has begun.
pub fn a_hart_is_ready_with_no_page_open()
    ensures { ReadyWithNoPageOpen }
{}

/// An instruction has at most sixteen steps left before it retires, not counting copies that have to come first.
pub fn few_moves_are_left()
    ensures { FewMovesAreLeft }
{}

/// With nothing in hand, the state that is to come is the plain machine's next state.
pub fn the_next_state_is_to_come()
    ensures { NextStateIsToCome }
{}

/// A step of a hart that is at a state of the plain machine simulates it: the hart is at the next state if an
/// instruction retired, and else at the same.
pub fn a_step_follows_on()
    ensures { StepFollowsOn }
{}

/// With nothing in hand, a hart that is at a state of the plain machine is at the state with the other hart in front once
/// that is put there.
pub fn a_hart_that_crosses_follows_the_other()
    ensures { CrossesOn }
{}
