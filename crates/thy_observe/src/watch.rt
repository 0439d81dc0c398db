//! All that is seen of a run.
ghost use Rattle.std.specs.Prelude.{◌≡◌, []};
ghost use Rattle.thy_observe.specs.Changes.{lists_changes};
ghost use Rattle.thy_observe.specs.Epochs.{lists_rows};
ghost use Rattle.thy_observe.specs.Watched.{IsWatch};

use crate::changes::Changes;
use crate::epochs::Epochs;
use crate::ledger::Ledger;
use crate::tally::Tally;
use std::alloc::Global;
use thy_computer::Stepped;
use thy_isa::MachState;
use thy_run::Observer;

/// The tally of a run's cycles and their ledger, or the trap of the plain machine; and, if that is wanted, what the cycles made of
/// the program's state, and their stretches.
#[derive(Drop)]
pub struct Watch {
    pub tally: Tally,
    pub changes: Changes,
    pub ledger: Ledger,
    pub epochs: Epochs,
}

impl Watch {
    /// A watch that has seen no cycle. Allocates nothing.
    pub fn new(alloc: Global, wants_changes: bool, wants_epochs: bool) -> Watch
        ensures watch { IsWatch result [] }
        ensures changes { lists_changes result.changes ≡ wants_changes }
        ensures epochs { lists_rows result.epochs ≡ wants_epochs }
    {
        Watch {
            tally: Tally::new(alloc),
            changes: Changes::new(alloc, wants_changes),
            ledger: Ledger::new(),
            epochs: Epochs::new(alloc, wants_epochs),
        }
    }
}

impl Observer for Watch {
    ghost use Rattle.thy_observe.specs.Watched.{IsWatch, KeepsWatch, HasLast};

    ghost has_seen = { IsWatch };

    ghost has_seen_last = { HasLast };

    ghost keeps = { KeepsWatch };

    fn see(&mut self, stepped: &Stepped, reported: usize, cycle: u64) {
        self.tally.see(stepped, reported, cycle);
        self.changes.see(stepped, reported, cycle);
        self.ledger.see(stepped, reported, cycle);
        self.epochs.see(stepped, reported, cycle);
    }

    fn keep(&mut self, stepped: &Stepped) {
        self.tally.keep(stepped);
        self.changes.keep(stepped);
        self.ledger.keep(stepped);
        self.epochs.keep(stepped);
    }

    fn see_cut(&mut self, reported: usize, cycle: u64) {
        self.tally.see_cut(reported, cycle);
        self.changes.see_cut(reported, cycle);
        self.ledger.see_cut(reported, cycle);
        self.epochs.see_cut(reported, cycle);
    }

    fn forget(&mut self) {
        self.tally.forget();
        self.changes.forget();
        self.ledger.forget();
        self.epochs.forget();
    }

    fn see_last(&mut self, base: u64, state: &MachState) {
        self.tally.see_last(base, state);
        self.changes.see_last(base, state);
        self.ledger.see_last(base, state);
        self.epochs.see_last(base, state);
    }
}
