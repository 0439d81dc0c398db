//! The stretches of a run's cycles: boots, and each time that an epoch was executed.
ghost use Rattle.std.specs.Prelude.{◌≡◌, ◌+◌, ◌-◌, ◌^◌, ◌<◌, ◌++◌, ◌∷◌, [], ℕ, Bool, false, List, IfNone, IfSome, MatchOption, slice_index_or};
ghost use Rattle.thy_observe.specs.Epochs.{AreEpochs, EpochsAddUp, account_of, begun_after, end_of, epoch_by, epoch_of, last_row, lists_rows, with_cycle};
ghost use Rattle.thy_run.specs.Watching.{CanSee, Sees, Taken, taken};

use crate::causes::{CAUSES, cause_of, index_of, under_way_then};
use crate::kinds::kind_of;
use crate::tally::waiting_in;
use std::alloc::Global;
use thy_computer::{Did, Stepped};
use thy_isa::MachState;
use thy_run::Observer;

/// How a stretch of cycles has ended.
#[derive(Clone, Copy, Debug, PartialEq, Eq, Drop)]
pub enum End {
    /// The boot is over.
    Boot,
    /// Power was cut after its last cycle.
    Seal,
    /// Power was cut.
    Cut,
    /// The stretch has not ended: the run was over in it.
    Run,
}

/// A stretch of cycles.
#[derive(Clone, Copy, Drop)]
pub struct Row {
    /// The number of the epoch that executes in the stretch; None in a boot.
    pub epoch: Option<u64>,
    /// How many cycles there were before the stretch.
    pub before: u64,
    /// The number, from 1, of the stretch's last cycle.
    pub to: u64,
    pub end: End,
    /// How many of the stretch's cycles have each cause, by the cause's index.
    pub causes: [u64; CAUSES],
    /// How many of the stretch's cycles the engine took at the turn of the hart, which waited for it.
    pub waiting: u64,
}

/// The stretches of a run's cycles.
#[derive(Drop)]
pub struct Epochs {
    /// How many cycles there were.
    cycles: u64,
    /// A checkpoint is under way.
    under_way: bool,
    /// The stretches that have ended; None if they are not wanted, or if memory ran out for one of them.
    rows: Option<Vec<Row>>,
    /// The one that has not.
    open_row: Row,
    /// The step of the next cycle, if a cut falls after it.
    kept: Option<Stepped>,
}

/// A stretch that begins after a number of cycles.
fn begun_after(before: u64, epoch: Option<u64>) -> Row
    ensures { result ≡ begun_after before epoch }
{
    Row {
        epoch,
        before,
        to: before,
        end: End::Run,
        causes: [0; CAUSES],
        waiting: 0,
    }
}

/// A stretch with one cycle more, of this number, and of the cause with this index.
fn with_cycle(row: Row, cycle: u64, cause: usize, waited: u64) -> Row
    requires cause { cause < 17 }
    requires few { slice_index_or row.causes cause 0 < 2 ^ 64 - 1 }
    requires waits { row.waiting + waited < 2 ^ 64 }
    ensures { result ≡ with_cycle row cycle cause waited }
{
    let mut causes = row.causes;
    causes[cause] += 1;
    Row {
        to: cycle,
        causes,
        waiting: row.waiting + waited,
        ..row
    }
}

/// What ends a stretch with a step that did this, after which a cut fell or not.
fn end_of(did: Did, fell: bool) -> Option<End>
    ensures { result ≡ end_of did fell }
{
    if fell {
        return Some(End::Cut);
    }
    match did {
        Did::Loaded | Did::Restarted(..) => Some(End::Boot),
        Did::Sealed(..) => Some(End::Seal),
        _ => None,
    }
}

/// The epoch that executes after a step that did this.
fn epoch_by(epoch: Option<u64>, did: Did) -> Option<u64>
    ensures { result ≡ epoch_by epoch did }
{
    match did {
        Did::Loaded => Some(1),
        Did::Restarted(restored, _) => Some(restored.saturating_add(1)),
        Did::Sealed(sealed, _, _) => Some(sealed.saturating_add(1)),
        _ => epoch,
    }
}

/// The epoch that executes after that step and the cut that may have fallen after it.
fn epoch_of(epoch: Option<u64>, did: Did, fell: bool) -> Option<u64>
    ensures { result ≡ epoch_of epoch did fell }
{
    if fell { None } else { epoch_by(epoch, did) }
}

/// The list with one row more; none if there is none, or if memory ran out.
fn rows_with(rows: Option<Vec<Row>>, row: Row) -> Option<Vec<Row>>
    ensures { (before : List Row) → IfSome rows (λ v. v.items ≡ before)
        → IfSome result (λ v. v.items ≡ before ++ row ∷ []) }
{
    let Some(mut rows) = rows else {
        return None;
    };
    match rows.push(row) {
        Ok(()) => Some(rows),
        Err(_) => None,
    }
}

impl Epochs {
    /// The stretches of no cycle. If they are not wanted, none will be listed. Allocates nothing.
    pub fn new(alloc: Global, wanted: bool) -> Epochs
        ensures epochs { AreEpochs result [] }
        ensures wanted { lists_rows result ≡ wanted }
    {
        Epochs {
            cycles: 0,
            under_way: false,
            rows: if wanted { Some(Vec::new(alloc)) } else { None },
            open_row: begun_after(0, None),
            kept: None,
        }
    }

    /// Adds the cycle of a step, whatever events were made in it, after which a cut fell or not.
    fn add(&mut self, stepped: &Stepped, fell: bool, cycle: u64)
        requires { CanSee AreEpochs self.old cycle }
        ensures { (reported : ℕ) → Sees AreEpochs self.old self.new (taken stepped.now reported fell) }
    {
        let cause = index_of(cause_of(self.under_way, kind_of(stepped.did)));
        let row = with_cycle(self.open_row, cycle, cause, waiting_in(stepped.stall));
        self.cycles = cycle;
        self.under_way = under_way_then(self.under_way, stepped.did, fell);
        match end_of(stepped.did, fell) {
            None => self.open_row = row,
            Some(end) => {
                self.rows = rows_with(self.rows.take(), Row { end, ..row });
                self.open_row = begun_after(cycle, epoch_of(row.epoch, stepped.did, fell));
            }
        }
    }

    /// The stretches that have ended, in order; none if they were not wanted, or if memory ran out.
    pub fn rows(&self) -> Option<&[Row]>
        ensures rows { (seen : List Taken) → AreEpochs self.now seen
            → MatchOption result (Unit {0}) (λ rows. rows.now ≡ (account_of seen).rows) }
        ensures lost { IfNone result (lists_rows self.now ≡ false) }
    {
        match &self.rows {
            Some(rows) => Some(rows.as_slice()),
            None => None,
        }
    }

    /// The stretch that has not ended, if it has a cycle.
    pub fn last(&self) -> Option<Row>
        ensures { (seen : List Taken) → AreEpochs self.now seen → result ≡ last_row (account_of seen) }
    {
        if self.cycles <= self.open_row.before {
            return None;
        }
        Some(self.open_row)
    }
}

impl Observer for Epochs {
    ghost use Rattle.thy_observe.specs.Epochs.{AreEpochs, KeepsEpochs};

    ghost has_seen = { AreEpochs };

    ghost has_seen_last = { λ epochs base state. Unit {0} };

    ghost keeps = { KeepsEpochs };

    fn see(&mut self, stepped: &Stepped, _reported: usize, cycle: u64) {
        self.add(stepped, false, cycle);
    }

    fn keep(&mut self, stepped: &Stepped) {
        self.kept = Some(*stepped);
    }

    fn see_cut(&mut self, _reported: usize, cycle: u64) {
        if let Some(stepped) = self.kept {
            self.add(&stepped, true, cycle);
        }
    }

    fn forget(&mut self) {
        self.kept = None;
    }

    fn see_last(&mut self, _base: u64, _state: &MachState) {}
}

/// The stretches of a run add up to its cycles, cause by cause.
pub fn epochs_add_up()
    ensures { EpochsAddUp }
{}
