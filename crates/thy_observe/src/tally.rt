//! The tally of a run's cycles.
ghost use Rattle.std.specs.Prelude.{◌≡◌, ◌==◌, ◌++◌, ◌∷◌, [], true, false, if◌then◌else◌, ℕ, List, length, cond, count_by, IfNone, MatchOption};
ghost use Rattle.thy_observe.specs.Kinds.{index_of, has_waited, how_many, is_waiting};
ghost use Rattle.thy_observe.specs.EventCycles.{event_cycles_from, retired_after};
ghost use Rattle.thy_observe.specs.Shares.{nobodys, shares_after};
ghost use Rattle.thy_observe.specs.Tallied.{IsTally};
ghost use Rattle.thy_observe.specs.Trapping.{HasTrap, trap_of};
ghost use Rattle.thy_isa.specs.Step.{State};
ghost use Rattle.thy_run.specs.Watching.{CanSee, Sees, Taken, taken};

use crate::event_cycle::{EventCycle, RetiredCount, retired_after_cut, retired_after_step};
use crate::kinds::{KINDS, Kind, index_of, kind_of};
use crate::shares::{Shares, nobodys, shares_after_cut, shares_after_step};
use crate::trap::{Trap, trap_of};
use std::alloc::Global;
use thy_computer::{Stall, Stepped};
use thy_isa::MachState;
use thy_run::Observer;

/// How many cycles there were of each kind, what each hart did, and in which cycles events were made.
#[derive(Drop)]
pub struct Tally {
    /// How many cycles there were.
    cycles: u64,
    /// How many cycles there were of each kind, by the kind's index.
    kinds: [u64; KINDS],
    /// How many the engine took at the turn of the hart, which waited for it.
    waiting: u64,
    /// How many instructions are retired; none in a boot.
    retired: Option<RetiredCount>,
    /// What each hart did.
    shares: Shares,
    /// The cycles in which events were made.
    event_cycles: Vec<EventCycle>,
    /// Memory ran out for one of these.
    lost: bool,
    /// The step of the next cycle, if a cut falls after it.
    kept: Option<Stepped>,
    /// The trap of the plain machine, if it stopped by one.
    trap: Option<Trap>,
}

/// 1 for a cycle that the engine took at the turn of the hart.
pub(crate) fn waiting_in(stall: Option<Stall>) -> u64
    ensures { result ≡ cond (is_waiting stall) 1 0 }
{
    match stall {
        Some(Stall::Waiting) => 1,
        _ => 0,
    }
}

/// Adds a cycle if events were made in it, and returns whether one is lost, this one or an earlier one. None is lost if
/// none was made.
fn add_event_cycle(event_cycles: &mut Vec<EventCycle>, lost: bool, event_cycle: EventCycle) -> bool
    ensures due { event_cycle.reported ≡ 0 → result ≡ lost }
    ensures added { result ≡ false → (lost ≡ false)
        × (event_cycles.new.items ≡ event_cycles.old.items
        ++ (if event_cycle.reported == 0 then [] else event_cycle ∷ [])) }
{
    if event_cycle.reported != 0 && event_cycles.push(event_cycle).is_err() {
        return true;
    }
    lost
}

impl Tally {
    /// A tally of no cycle. Allocates nothing.
    pub fn new(alloc: Global) -> Tally
        ensures { IsTally result [] }
    {
        Tally {
            cycles: 0,
            kinds: [0; KINDS],
            waiting: 0,
            retired: None,
            shares: nobodys(),
            event_cycles: Vec::new(alloc),
            lost: false,
            kept: None,
            trap: None,
        }
    }

    /// Adds the cycle of a step, in which `reported` events were made, and after which a cut fell or not.
    fn add(&mut self, stepped: &Stepped, reported: usize, fell: bool, cycle: u64)
        requires { CanSee IsTally self.old cycle }
        ensures { Sees IsTally self.old self.new (taken stepped.now reported fell) }
    {
        self.cycles = cycle;
        let at = index_of(kind_of(stepped.did));
        self.kinds[at] += 1;
        self.waiting += waiting_in(stepped.stall);
        self.shares = shares_after_cut(shares_after_step(self.shares, stepped.did), fell);
        let retired = retired_after_step(self.retired, stepped.did);
        self.retired = retired_after_cut(retired, fell);
        let event_cycle = EventCycle {
            cycle,
            retired,
            reported,
            fell,
        };
        self.lost = add_event_cycle(&mut self.event_cycles, self.lost, event_cycle);
    }

    /// How many cycles were seen.
    pub fn cycles(&self) -> u64
        ensures { (seen : List Taken) → IsTally self.now seen → result ≡ length seen }
    {
        self.cycles
    }

    /// How many cycles of this kind were seen.
    pub fn of(&self, kind: Kind) -> u64
        ensures { (seen : List Taken) → IsTally self.now seen → result ≡ how_many (index_of kind) seen }
    {
        self.kinds[index_of(kind)]
    }

    /// How many cycles the engine took at the turn of the hart, which waited for it.
    pub fn waiting(&self) -> u64
        ensures { (seen : List Taken) → IsTally self.now seen → result ≡ count_by has_waited seen }
    {
        self.waiting
    }

    /// How many instructions are retired after the last cycle; None in a boot.
    pub fn retired(&self) -> Option<RetiredCount>
        ensures { (seen : List Taken) → IsTally self.now seen → result ≡ retired_after None seen }
    {
        self.retired
    }

    /// What each hart did: its instructions, and as its moves those since the last instruction, if no epoch was sealed
    /// and no cut fell between.
    pub fn shares(&self) -> Shares
        ensures { (seen : List Taken) → IsTally self.now seen → result ≡ shares_after nobodys seen }
    {
        self.shares
    }

    /// The trap of the plain machine, if it stopped by one.
    pub fn trap(&self) -> Option<Trap>
        ensures { (base : ℕ) (last : State) → HasTrap self.now base last → result ≡ trap_of base 0 last }
    {
        self.trap
    }

    /// The cycles in which events were made; none if memory ran out for one of them.
    pub fn event_cycles(&self) -> Option<&[EventCycle]>
        ensures cycles { (seen : List Taken) → IsTally self.now seen
            → MatchOption result (Unit {0}) (λ cycles. cycles.now ≡ event_cycles_from 1 None seen) }
        ensures lost { IfNone result (self.now.lost ≡ true) }
    {
        if self.lost {
            return None;
        }
        Some(self.event_cycles.as_slice())
    }
}

impl Observer for Tally {
    ghost use Rattle.thy_observe.specs.Tallied.{IsTally, KeepsTally};
    ghost use Rattle.thy_observe.specs.Trapping.{HasTrap};

    ghost has_seen = { IsTally };

    ghost has_seen_last = { HasTrap };

    ghost keeps = { KeepsTally };

    fn see(&mut self, stepped: &Stepped, reported: usize, cycle: u64) {
        self.add(stepped, reported, false, cycle);
    }

    fn keep(&mut self, stepped: &Stepped) {
        self.kept = Some(*stepped);
    }

    fn see_cut(&mut self, reported: usize, cycle: u64) {
        if let Some(stepped) = self.kept {
            self.add(&stepped, reported, true, cycle);
        }
    }

    fn forget(&mut self) {
        self.kept = None;
    }

    fn see_last(&mut self, base: u64, state: &MachState) {
        self.trap = trap_of(base, 0, state);
    }
}
