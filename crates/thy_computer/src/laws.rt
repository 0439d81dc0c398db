//! Laws of what a power cut may leave, of the plain machine by turns, of who retires an instruction, and of what follows a
//! cut or a fault, each the contract of a function that does nothing.
ghost use Rattle.thy_computer.specs.OneHart.{EachHasItsTurn, TurnsDontMatter};
ghost use Rattle.thy_computer.specs.Laws.{TurnsLeadTo, StaysSafe, HartZeroSteps, StepsWithoutTurns, StepsReach, RetiresReach, StaysThere, LastHasItsTurn, FindsTurns, BegunIsRetired};
ghost use Rattle.thy_computer.specs.Safe.{SameIsNoDoubt};
ghost use Rattle.thy_computer.specs.Again.{GoesOnAfterCut, GoesOnAfterFault};

use crate::Computer;

/// If the kept checkpoint is also the one in doubt, a power cut leaves that checkpoint. So a checkpoint that is migrated to another form of
/// the image is never in doubt.
pub fn a_kept_mark_is_never_in_doubt()
    ensures { SameIsNoDoubt }
{}

/// Turns that agree below a count lead to one state at it.
pub fn turns_that_agree_lead_to_one_state()
    ensures { TurnsLeadTo }
{}

/// With turns that agree below both marks' counts, what is safe is safe.
pub fn what_is_safe_stays_safe_with_turns_that_agree()
    ensures { StaysSafe }
{}

/// While each turn is hart 0's, the plain machine takes one step after another.
pub fn hart_zero_takes_one_step_after_another()
    ensures { HartZeroSteps }
{}

/// The plain machine takes one step after another also if no turns are listed.
pub fn a_run_without_turns_is_hart_zeros()
    ensures { StepsWithoutTurns }
{}

/// With one hart, whatever a cycle did has its turn if no turns are listed.
pub fn with_one_hart_each_cycle_has_its_turn()
    ensures { EachHasItsTurn }
{}

/// With one hart turns do not matter: whatever is listed, the plain machine is in the same state at each count.
pub fn with_one_hart_turns_do_not_matter()
    ensures { TurnsDontMatter }
{}

/// The view after a step reaches at least as far as the view before it.
pub fn a_step_reaches_no_less()
    ensures { StepsReach }
{}

/// A cycle that retires an instruction reaches beyond the count of that instruction.
pub fn an_instruction_reaches_beyond_its_count()
    ensures { RetiresReach }
{}

/// A cycle that retires no instruction reaches no further than the view before it.
pub fn what_retires_nothing_stays_there()
    ensures { StaysThere }
{}

/// A turn that is listed last is the turn of the next count, and changes none before it.
pub fn a_turn_is_listed_at_the_end()
    ensures { LastHasItsTurn }
{}

/// Whatever a cycle did, some turns that agree so far give it its hart.
pub fn turns_are_found_for_each_cycle()
    ensures { FindsTurns }
{}

/// With two harts an instruction that is begun is retired by the hart that began it.
pub fn an_instruction_is_retired_by_the_hart_that_began_it()
    ensures { BegunIsRetired }
{}

/// At each moment of a run power can be cut and come on again: that leads to a moment of the same run, whose view is what the
/// image means that the cut left.
pub fn a_run_goes_on_after_a_cut<M: Computer>()
    ensures { GoesOnAfterCut M.kind }
{}

/// After a step that failed, too, power can be cut and come on again: that leads to a moment of the same run, whose view
/// is what the image means that the cut left.
pub fn a_run_goes_on_after_a_fault<M: Computer>()
    ensures { GoesOnAfterFault M.kind }
{}
