//! Picks that nobody asks for, since a row's cycles are a hart's whatever the picks are. A schedule in turn passes them at once.
ghost use Rattle.std.specs.Prelude.{◌≡◌, ◌%◌, ◌<◌, ◌≤◌};
ghost use Rattle.thy_block.specs.declared.mix.Mix.TheVariants.{InTurn};
ghost use Rattle.thy_block.specs.Mix.{pick_of_four, pick_of_five};
ghost use Rattle.thy_run.specs.Picks.{after_picks, place_of_four, place_of_five};

use thy_base::{Mix, Pick};

/// Draws the picks of a row.
#[inline(always)]
pub(crate) fn pass_picks(mix: &mut Mix, harts: u64, picks: u64)
    requires { picks ≤ 5 }
    ensures { mix.new ≡ after_picks harts picks mix.old }
{
    if picks > 0 {
        pass_some(mix, harts, picks);
    }
}

/// Draws this many picks, one or more.
#[inline(always)]
fn pass_some(mix: &mut Mix, harts: u64, picks: u64)
    requires some { 0 < picks }
    requires few { picks ≤ 5 }
    ensures { mix.new ≡ after_picks harts picks mix.old }
{
    match mix {
        Mix::InTurn(turn) => *turn = turn_after(harts, *turn, picks),
        Mix::Drawn(_) => draw_picks(mix, harts, picks),
    }
}

/// Draws this many picks one by one. It is called: in the loop over rows the numbers of its draws would take registers.
#[inline(never)]
fn draw_picks(mix: &mut Mix, harts: u64, picks: u64)
    ensures { mix.new ≡ after_picks harts picks mix.old }
{
    for drawn in 0..picks {
        mix.next(harts);
    }
}

/// Whose turn it is after this many turns.
#[inline(always)]
fn turn_after(harts: u64, turn: Pick, picks: u64) -> Pick
    requires some { 0 < picks }
    requires few { picks ≤ 5 }
    ensures { InTurn result ≡ after_picks harts picks (InTurn turn) }
{
    if harts == 1 {
        at_four((place_of_four(turn) + picks) % 4)
    } else {
        at_five(wrapped(place_of_five(turn) + picks))
    }
}

/// The position of an actor among four, with one hart: what follows hart 1 is what follows hart 0.
#[inline(always)]
fn place_of_four(turn: Pick) -> u64
    ensures place { result ≡ place_of_four turn }
    ensures few { result ≤ 3 }
{
    match turn {
        Pick::Hart | Pick::Second => 0,
        Pick::Engine => 1,
        Pick::NvmDrain => 2,
        Pick::DramDrain => 3,
    }
}

/// The actor at a position from 0 to 3, with one hart.
#[inline(always)]
fn at_four(place: u64) -> Pick
    ensures { result ≡ pick_of_four place }
{
    match place {
        0 => Pick::Hart,
        1 => Pick::Engine,
        2 => Pick::NvmDrain,
        _ => Pick::DramDrain,
    }
}

/// The position of an actor among five, with two harts.
#[inline(always)]
fn place_of_five(turn: Pick) -> u64
    ensures place { result ≡ place_of_five turn }
    ensures few { result ≤ 4 }
{
    match turn {
        Pick::Hart => 0,
        Pick::Second => 1,
        Pick::Engine => 2,
        Pick::NvmDrain => 3,
        Pick::DramDrain => 4,
    }
}

/// A sum of a position among five and of at most five, as a position. A comparison takes less time than a division.
#[inline(always)]
fn wrapped(sum: u64) -> u64
    requires { sum ≤ 9 }
    ensures place { result ≡ sum % 5 }
    ensures few { result ≤ 4 }
{
    if sum < 5 { sum } else { sum - 5 }
}

/// The actor at a position from 0 to 4, with two harts.
#[inline(always)]
fn at_five(place: u64) -> Pick
    requires { place ≤ 4 }
    ensures { result ≡ pick_of_five place }
{
    match place {
        0 => Pick::Hart,
        1 => Pick::Second,
        2 => Pick::Engine,
        3 => Pick::NvmDrain,
        4 => Pick::DramDrain,
        _ => unreachable!(),
    }
}
