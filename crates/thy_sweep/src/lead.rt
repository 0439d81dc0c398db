//! The boots of a cycle, by the checkpoints to which they led.
ghost use Rattle.std.specs.Prelude.{◌≡◌, ◌++◌, ◌∷◌, [], OnOk, OnErr};
ghost use Rattle.thy_sweep.specs.Leads.{is_same, lists, first_lead, with_boot, counted_in, noted, LeadsAreOfBoots};

use std::alloc::AllocError;
use thy_block::Mark;

/// How a boot over what a cut can leave has ended.
#[derive(Clone, Copy, Debug)]
pub struct Booted {
    /// The checkpoint that the boot restored; None if it loaded the start.
    pub mark: Option<Mark>,
    /// How many cycles the boot took.
    pub cycles: u64,
}

/// The boots of one cycle that led to the same checkpoint, or all to none.
#[derive(Clone, Copy, Debug)]
pub struct Lead {
    pub mark: Option<Mark>,
    /// How many boots led to the checkpoint.
    pub times: u64,
    /// The least cycles that one of these boots took.
    pub least: u64,
    /// The most cycles that one of these boots took.
    pub most: u64,
}

/// Whether two boots led to the same checkpoint, or both to none.
fn is_same(a: Option<Mark>, b: Option<Mark>) -> bool
    ensures { result ≡ is_same a b }
{
    match (a, b) {
        (None, None) => true,
        (Some(a), Some(b)) => a.epoch == b.epoch && a.count == b.count,
        _ => false,
    }
}

/// A lead with one more boot that led to its checkpoint.
fn with_boot(lead: Lead, boot: Booted) -> Lead
    ensures { result ≡ with_boot boot lead }
{
    Lead {
        mark: lead.mark,
        times: lead.times.saturating_add(1),
        least: lead.least.min(boot.cycles),
        most: lead.most.max(boot.cycles),
    }
}

/// Counts a boot if its checkpoint is listed, and returns whether it is.
fn count_in(leads: &mut [Lead], boot: Booted) -> bool
    ensures counted { leads.new ≡ counted_in boot leads.old }
    ensures listed { result ≡ lists boot.mark leads.old }
{
    for lead in leads.iter_mut() {
        if is_same(lead.mark, boot.mark) {
            *lead = with_boot(*lead, boot);
            return true;
        }
    }
    false
}

/// Lists the checkpoint of a boot, which is the first that led there.
fn list(leads: &mut Vec<Lead>, boot: Booted) -> Result<(), AllocError>
    ensures ok { OnOk result (leads.new.items ≡ leads.old.items ++ first_lead boot ∷ []) }
    ensures err { OnErr result (leads.new.items ≡ leads.old.items) }
{
    leads.push(Lead {
        mark: boot.mark,
        times: 1,
        least: boot.cycles,
        most: boot.cycles,
    })?;
    Ok(())
}

/// Notes a boot. It is counted if its checkpoint is listed; else the checkpoint is listed now.
///
/// # Errors
/// Memory ran out. Nothing has changed.
pub fn note_boot(leads: &mut Vec<Lead>, boot: Booted) -> Result<(), AllocError>
    ensures ok { OnOk result (leads.new.items ≡ noted boot leads.old.items) }
    ensures err { OnErr result (leads.new.items ≡ leads.old.items) }
{
    if count_in(leads, boot) {
        return Ok(());
    }
    list(leads, boot)
}

/// The leads of the boots that were noted list each checkpoint to which one of them led, once, with how many led there and
/// the least and the most cycles that one of these had.
pub fn leads_are_of_their_boots()
    ensures { LeadsAreOfBoots }
{}
