//! What may look on while a program runs.
ghost use Rattle.std.specs.Prelude.{ℕ, List, [], false};
ghost use Rattle.thy_isa.specs.Step.{State, state_of};
ghost use Rattle.thy_computer.specs.declared.did.Stepped.{Stepped as Step};
ghost use Rattle.thy_run.specs.Watching.{Taken, CanSee, CanSeeCut, Forgets, Keeps, Sees, SeesCutAfter, taken};

use thy_computer::Stepped;
use thy_isa::MachState;

/// What sees the cycles of a run, and changes nothing of it.
pub trait Observer {
    /// The observer has seen these cycles of the machine, in order, and no others.
    ghost has_seen: { Self → List Taken → Type 0 };

    /// The observer has seen these cycles, and keeps the step of the next one.
    ghost keeps: { Self → List Taken → Step → Type 0 };

    /// The observer has seen the plain machine stop in this state, with this address of the first byte of memory.
    ghost has_seen_last: { Self → ℕ → State → Type 0 };

    /// Sees one more cycle of the machine that is done: what it did, and how many events were made in it. No cut fell
    /// after it. The cycle's number is one more than how many cycles were seen.
    fn see(&mut self, stepped: &Stepped, reported: usize, cycle: u64)
        requires { CanSee has_seen self.old cycle }
        ensures { Sees has_seen self.old self.new (taken stepped.now reported false) };

    /// Keeps the step of a cycle after which a cut falls.
    fn keep(&mut self, stepped: &Stepped)
        ensures { Keeps has_seen keeps self.old self.new stepped.now };

    /// Sees the cycle of the step that the observer keeps: the cut has fallen after it. `reported` events were made in it.
    fn see_cut(&mut self, reported: usize, cycle: u64)
        requires { CanSeeCut keeps self.old cycle }
        ensures { SeesCutAfter has_seen keeps self.old self.new reported };

    /// Forgets the step that the observer keeps: its cycle is not done.
    fn forget(&mut self)
        ensures { Forgets has_seen keeps self.old self.new };

    /// Sees the state in which the plain machine stops, which has no cycles; `base` is the address of the first byte of its memory.
    fn see_last(&mut self, base: u64, state: &MachState)
        requires { has_seen self.old [] }
        ensures { has_seen_last self.new base (state_of state.now) };
}

/// An observer that does nothing.
#[derive(Drop)]
pub struct Silent;

impl Observer for Silent {
    ghost has_seen = { λ o seen. Unit {0} };

    ghost keeps = { λ o seen step. Unit {0} };

    ghost has_seen_last = { λ o base state. Unit {0} };

    fn see(&mut self, _stepped: &Stepped, _reported: usize, _cycle: u64) {}

    fn keep(&mut self, _stepped: &Stepped) {}

    fn see_cut(&mut self, _reported: usize, _cycle: u64) {}

    fn forget(&mut self) {}

    fn see_last(&mut self, _base: u64, _state: &MachState) {}
}
