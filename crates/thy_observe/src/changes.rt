//! What a run's cycles made of the program's state.
ghost use Rattle.std.specs.Prelude.{◌≡◌, [], ℕ, Bool, false, None, is_some, IfNone, List, MatchOption, length, map};
ghost use Rattle.thy_observe.specs.Changes.{change_of, as_list, lost_in, dated, dated_of, lists_changes, AreChanges, Adds};
ghost use Rattle.thy_run.specs.Watching.{CanSee, Sees, Taken, taken};

use std::alloc::Global;
use thy_computer::{Did, Stepped};
use thy_isa::MachState;
use thy_run::Observer;

/// What a cycle made of the program's state.
#[derive(Clone, Copy, Debug, PartialEq, Eq, Drop)]
pub enum Change {
    /// The state is the start of the run.
    Loaded,
    /// The state is a checkpoint's, with this count.
    Restored(u64),
    /// The state is one instruction further, by this hart.
    Retired(u32),
    /// The state is lost, as power was cut.
    Lost,
}

/// A change, with the number of the cycle that made it.
#[derive(Clone, Copy, Debug, PartialEq, Eq, Drop)]
pub struct Dated {
    pub cycle: u64,
    pub change: Change,
}

/// What the cycles of a run made of the program's state, if that is wanted.
#[derive(Drop)]
pub struct Changes {
    /// How many cycles there were.
    cycles: u64,
    /// In order; none if it is not wanted, or if memory ran out for one of them.
    listed: Option<Vec<Dated>>,
    /// The step of the next cycle, if a cut falls after it.
    kept: Option<Stepped>,
}

/// What a step that did this made of the program's state, if anything.
fn change_of(did: Did) -> Option<Change>
    ensures { result ≡ change_of did }
{
    match did {
        Did::Loaded => Some(Change::Loaded),
        Did::Restarted(_, count) => Some(Change::Restored(count)),
        Did::Retired(hart) => Some(Change::Retired(hart)),
        _ => None,
    }
}

/// What the cut made of it that fell after the step, if one did.
fn lost_in(fell: bool) -> Option<Change>
    ensures { as_list result ≡ lost_in fell }
{
    if fell { Some(Change::Lost) } else { None }
}

/// The list with a change in this cycle, if there is one; none if there is no list, or if memory ran out.
fn listed_with(listed: Option<Vec<Dated>>, cycle: u64, change: Option<Change>) -> Option<Vec<Dated>>
    ensures adds { Adds listed result (map (dated cycle) (as_list change)) }
    ensures kept { change ≡ None → is_some result ≡ is_some listed }
{
    let Some(mut listed) = listed else {
        return None;
    };
    match change {
        None => Some(listed),
        Some(change) => match listed.push(Dated { cycle, change }) {
            Ok(()) => Some(listed),
            Err(_) => None,
        },
    }
}

impl Changes {
    /// The changes of no cycle. If they are not wanted, none will be listed. Allocates nothing.
    pub fn new(alloc: Global, wanted: bool) -> Changes
        ensures changes { AreChanges result [] }
        ensures wanted { lists_changes result ≡ wanted }
    {
        Changes {
            cycles: 0,
            listed: if wanted { Some(Vec::new(alloc)) } else { None },
            kept: None,
        }
    }

    /// Adds the cycle of a step, whatever events were made in it, after which a cut fell or not.
    fn add(&mut self, stepped: &Stepped, fell: bool, cycle: u64)
        requires { CanSee AreChanges self.old cycle }
        ensures { (reported : ℕ) → Sees AreChanges self.old self.new (taken stepped.now reported fell) }
    {
        let listed = listed_with(self.listed.take(), cycle, change_of(stepped.did));
        self.listed = listed_with(listed, cycle, lost_in(fell));
        self.cycles = cycle;
    }

    /// How many cycles were seen.
    pub fn cycles(&self) -> u64
        ensures { (seen : List Taken) → AreChanges self.now seen → result ≡ length seen }
    {
        self.cycles
    }

    /// What the cycles made of the program's state, in order; None if that was not wanted, or if memory ran out.
    pub fn listed(&self) -> Option<&[Dated]>
        ensures changes { (seen : List Taken) → AreChanges self.now seen
            → MatchOption result (Unit {0}) (λ listed. listed.now ≡ dated_of seen) }
        ensures lost { IfNone result (lists_changes self.now ≡ false) }
    {
        match &self.listed {
            Some(listed) => Some(listed.as_slice()),
            None => None,
        }
    }
}

impl Observer for Changes {
    ghost use Rattle.thy_observe.specs.Changes.{AreChanges, KeepsChanges};

    ghost has_seen = { AreChanges };

    ghost has_seen_last = { λ changes base state. Unit {0} };

    ghost keeps = { KeepsChanges };

    fn see(&mut self, stepped: &Stepped, _reported: usize, cycle: u64) {
        self.add(stepped, false, cycle);
    }

    fn keep(&mut self, stepped: &Stepped) {
        self.kept = Some(*stepped);
    }

    fn see_cut(&mut self, _reported: usize, cycle: u64) {
        if let Some(stepped) = self.kept {
            self.add(&stepped, true, cycle);
        }
    }

    fn forget(&mut self) {
        self.kept = None;
    }

    fn see_last(&mut self, _base: u64, _state: &MachState) {}
}
