//! The laws of lines and registers, each the contract of a function that does nothing.
ghost use Rattle.thy_gap.specs.Laws.{PlaceIsRotated, PlaceIsOneToOne, PlaceIsBesideGap, PlaceIsOnto, MoveMovesOne, GapMoves, MovedIsWhole, RoundRotates, RoundShiftsLines, RoundMovesEach, EachPlaceComes};

/// The lines are at all places but the gap, each at a place of its own.
pub fn places_are_one_to_one()
    ensures rotated { PlaceIsRotated }
    ensures one_to_one { PlaceIsOneToOne }
    ensures beside { PlaceIsBesideGap }
    ensures onto { PlaceIsOnto }
{}

/// A move takes one line to the gap, and leaves the others where they are.
pub fn a_move_moves_one_line()
    ensures one { MoveMovesOne }
    ensures gap { GapMoves }
    ensures whole { MovedIsWhole }
{}

/// One move more than there are lines brings the gap back. The start has grown by 1, so each line is at the place that
/// the next one had, and has moved. With n lines, each line comes to each place within n such rounds.
pub fn a_round_of_moves_rotates_the_lines()
    ensures registers { RoundRotates }
    ensures lines { RoundShiftsLines }
    ensures each { RoundMovesEach }
    ensures places { EachPlaceComes }
{}
