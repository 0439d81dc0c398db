//! Laws.
ghost use Rattle.thy_isa.specs.FrontedLaws.{AloneAsCpu, CrossedAsCpu, FinishedAsCpu, KeepsCpu};

/// A processor with a list of harts does what a processor with a hart in front does. An effect of a hart is the effect of the hart
/// in front. To bring the other hart there is to take its number, and nothing is lost in the list.
pub fn a_list_of_harts_is_a_processor()
    ensures finished { FinishedAsCpu }
    ensures crossed { CrossedAsCpu }
    ensures alone { AloneAsCpu }
    ensures kept { KeepsCpu }
{}
