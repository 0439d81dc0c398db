//! The schedule of a run: which actor takes each cycle.
ghost use Rattle.std.specs.Prelude.{◌≡◌};
ghost use Rattle.thy_block.specs.Mix.{mix_start, mix_pick, mix_next, after_pick, pick_of, pick_of_four, pick_of_five};

use crate::Lcg;

/// Which of the actors takes a cycle.
#[derive(Clone, Copy, Debug, PartialEq, Eq)]
pub enum Pick {
    /// Hart 0 takes the cycle.
    Hart,
    /// Hart 1 takes the cycle, if there are two.
    Second,
    /// The checkpoint engine takes the cycle.
    Engine,
    /// The oldest write in the NVM's queue lands, if there is one.
    NvmDrain,
    /// The oldest write in the DRAM's queue lands, if there is one.
    DramDrain,
}

/// The schedule of a seed: seed 0 gives the actors in turn for ever, another seed the one
/// that each draw names. There are four actors with one hart, and five with two.
#[derive(Clone, Copy, Debug)]
pub enum Mix {
    /// The actor that takes the next cycle; the one after it in order takes the cycle after that.
    InTurn(Pick),
    /// The generator whose next draw names the actor of the next cycle.
    Drawn(Lcg),
}

impl Mix {
    /// The schedule of a seed, before its first cycle.
    pub fn new(seed: u64) -> Mix
        ensures { result ≡ mix_start seed }
    {
        if seed == 0 {
            Mix::InTurn(Pick::Hart)
        } else {
            Mix::Drawn(Lcg::new(seed))
        }
    }

    /// Which actor takes the next cycle of a machine with this number of harts. The schedule moves on by one.
    pub fn next(&mut self, harts: u64) -> Pick
        ensures pick { result ≡ mix_pick harts self.old }
        ensures after { self.new ≡ mix_next harts self.old }
    {
        match self {
            Mix::InTurn(turn) => {
                let pick = *turn;
                *turn = pick_after(harts, pick);
                pick
            }
            Mix::Drawn(draws) => pick_at(harts, draws.next()),
        }
    }
}

/// The actor whose turn comes after this one's, with this number of harts.
fn pick_after(harts: u64, pick: Pick) -> Pick
    ensures { result ≡ after_pick harts pick }
{
    if harts == 1 {
        after_of_four(pick)
    } else {
        after_of_five(pick)
    }
}

/// The actor whose turn comes after this one's, with one hart: hart, engine, NVM, DRAM, and again.
fn after_of_four(pick: Pick) -> Pick
    ensures { result ≡ after_pick 1 pick }
{
    match pick {
        Pick::Hart | Pick::Second => Pick::Engine,
        Pick::Engine => Pick::NvmDrain,
        Pick::NvmDrain => Pick::DramDrain,
        Pick::DramDrain => Pick::Hart,
    }
}

/// The actor whose turn comes after this one's, with two harts: hart 0, hart 1, engine, NVM, DRAM, and again.
fn after_of_five(pick: Pick) -> Pick
    ensures { result ≡ after_pick 2 pick }
{
    match pick {
        Pick::Hart => Pick::Second,
        Pick::Second => Pick::Engine,
        Pick::Engine => Pick::NvmDrain,
        Pick::NvmDrain => Pick::DramDrain,
        Pick::DramDrain => Pick::Hart,
    }
}

/// The actor that a draw names: the draw modulo 4 with one hart, modulo 5 with two.
fn pick_at(harts: u64, draw: u64) -> Pick
    ensures { result ≡ pick_of harts draw }
{
    if harts == 1 {
        pick_at_four(draw % 4)
    } else {
        pick_at_five(draw % 5)
    }
}

fn pick_at_four(position: u64) -> Pick
    ensures { result ≡ pick_of_four position }
{
    match position {
        0 => Pick::Hart,
        1 => Pick::Engine,
        2 => Pick::NvmDrain,
        _ => Pick::DramDrain,
    }
}

fn pick_at_five(position: u64) -> Pick
    ensures { result ≡ pick_of_five position }
{
    match position {
        0 => Pick::Hart,
        1 => Pick::Second,
        2 => Pick::Engine,
        3 => Pick::NvmDrain,
        _ => Pick::DramDrain,
    }
}
