//! The sums of a sweep.
ghost use Rattle.std.specs.Prelude.{◌≡◌, ◌-◌, ◌*◌, ◌^◌, min};
ghost use Rattle.thy_sweep.specs.Sums.{no_rows, lost_to, reloads_of, with_lead, with_leads, with_row};

use crate::lead::Lead;
use thy_block::Mark;

/// What the rows of a sweep come to. Each number saturates at the last value of a `u64`.
#[derive(Clone, Copy, Debug)]
pub struct Sums {
    /// How many images were tried.
    pub states: u64,
    /// At how many cycles images were tried.
    pub cycles: u64,
    /// How many images led to no checkpoint.
    pub reloads: u64,
    /// After how many cycles the choice of what a cut leaves decides: images of one cycle led to two checkpoints, or to one and to none.
    pub decided: u64,
    /// How many cycles the longest boot took.
    pub longest: u64,
    /// The most instructions that were lost with one image.
    pub most_lost: u64,
    /// The sum of the instructions that were lost, over all images that were tried.
    pub lost: u64,
}

/// How many instructions are lost at a count by a restart of a checkpoint; all of them, if there is none.
fn lost_to(count: u64, mark: Option<Mark>) -> u64
    ensures { result ≡ lost_to count mark }
{
    match mark {
        None => count,
        Some(mark) => count.saturating_sub(mark.count),
    }
}

/// How many of these boots led to no checkpoint.
fn reloads_of(mark: Option<Mark>, times: u64) -> u64
    ensures { result ≡ reloads_of mark times }
{
    match mark {
        None => times,
        Some(_) => 0,
    }
}

impl Sums {
    /// The sums of no rows: each is 0.
    pub fn new() -> Sums
        ensures { result ≡ no_rows }
    {
        Sums {
            states: 0,
            cycles: 0,
            reloads: 0,
            decided: 0,
            longest: 0,
            most_lost: 0,
            lost: 0,
        }
    }

    /// The sums with the boots of one lead more, at a cycle whose count of instructions this is.
    fn with_lead(self, count: u64, lead: Lead) -> Sums
        ensures { result ≡ with_lead count self lead }
    {
        let lost = lost_to(count, lead.mark);
        Sums {
            states: self.states.saturating_add(lead.times),
            cycles: self.cycles,
            reloads: self
                .reloads
                .saturating_add(reloads_of(lead.mark, lead.times)),
            decided: self.decided,
            longest: self.longest.max(lead.most),
            most_lost: self.most_lost.max(lost),
            lost: self.lost.saturating_add(lost.saturating_mul(lead.times)),
        }
    }

    /// The sums with the boots of these leads more, at a cycle whose count of instructions this is.
    fn with_leads(self, count: u64, leads: &[Lead]) -> Sums
        ensures { result ≡ with_leads count self leads.now }
    {
        let mut sums = self;
        for lead in leads {
            sums = sums.with_lead(count, *lead);
        }
        sums
    }

    /// The sums with one row more: the leads of a cycle at whose end this many instructions were retired.
    pub fn with_row(self, count: u64, leads: &[Lead]) -> Sums
        ensures { result ≡ with_row count self leads.now }
    {
        let mut sums = self;
        sums.cycles = sums.cycles.saturating_add(1);
        if leads.len() > 1 {
            sums.decided = sums.decided.saturating_add(1);
        }
        sums.with_leads(count, leads)
    }
}
