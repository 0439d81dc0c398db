//! The ledger of a run's cycles: how many there were of each cause.
ghost use Rattle.std.specs.Prelude.{◌≡◌, [], ℕ, Bool, List};
ghost use Rattle.thy_observe.specs.Causes.{cause_index, how_many_by};
ghost use Rattle.thy_observe.specs.Ledgers.{IsLedger, count_in};
ghost use Rattle.thy_run.specs.Watching.{CanSee, Sees, Taken, taken};

use crate::causes::{CAUSES, Cause, cause_of, index_of, under_way_then};
use crate::kinds::kind_of;
use thy_computer::Stepped;
use thy_isa::MachState;
use thy_run::Observer;

/// How many cycles there were of each cause.
#[derive(Drop)]
pub struct Ledger {
    /// How many there were of each cause, by its index.
    causes: [u64; CAUSES],
    /// A checkpoint is under way.
    under_way: bool,
    /// The step of the next cycle, if a cut falls after it.
    kept: Option<Stepped>,
}

impl Ledger {
    /// A ledger of no cycle: each cause has 0.
    pub fn new() -> Ledger
        ensures { IsLedger result [] }
    {
        Ledger {
            causes: [0; CAUSES],
            under_way: false,
            kept: None,
        }
    }

    /// Adds the cycle of a step, whatever events were made in it, after which a cut fell or not.
    fn add(&mut self, stepped: &Stepped, fell: bool, cycle: u64)
        requires { CanSee IsLedger self.old cycle }
        ensures { (reported : ℕ) → Sees IsLedger self.old self.new (taken stepped.now reported fell) }
    {
        let at = index_of(cause_of(self.under_way, kind_of(stepped.did)));
        self.causes[at] += 1;
        self.under_way = under_way_then(self.under_way, stepped.did, fell);
    }

    /// How many cycles had this cause.
    pub fn of(&self, cause: Cause) -> u64
        ensures counted { result ≡ count_in self.now cause }
        ensures cycles { (seen : List Taken) → IsLedger self.now seen → result ≡ how_many_by (cause_index cause) seen }
    {
        self.causes[index_of(cause)]
    }
}

impl Observer for Ledger {
    ghost use Rattle.thy_observe.specs.Ledgers.{IsLedger, KeepsLedger};

    ghost has_seen = { IsLedger };

    ghost has_seen_last = { λ ledger base state. Unit {0} };

    ghost keeps = { KeepsLedger };

    fn see(&mut self, stepped: &Stepped, _reported: usize, cycle: u64) {
        self.add(stepped, false, cycle);
    }

    fn keep(&mut self, stepped: &Stepped) {
        self.kept = Some(*stepped);
    }

    fn see_cut(&mut self, _reported: usize, cycle: u64) {
        if let Some(stepped) = self.kept {
            self.add(&stepped, true, cycle);
        }
    }

    fn forget(&mut self) {
        self.kept = None;
    }

    fn see_last(&mut self, _base: u64, _state: &MachState) {}
}
