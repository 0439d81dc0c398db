//! What every text begins with that is put under OUT.
ghost use Rattle.std.specs.Prelude.{◌≡◌, IfOk, option_map, string_bytes};
ghost use Rattle.thy_base.specs.Settings.{order_of};
ghost use Rattle.observe.specs.HeadText.{IsHead, IsPlainText, IsRunText, asked_in};
ghost use Rattle.observe.specs.Observing.{was_begun};

use crate::lines::{add_lines, broken_after};
use crate::totals::{add_totals, totals_of};
use crate::trap::{add_trap, trap_in};
use std::alloc::{AllocError, Global};
use thy_base::Command;
use thy_cli::Answer;
use thy_observe::{Calls, Tally};
use thy_text::{Events, Reporting};

/// What has to be known of the arguments.
#[derive(Clone, Copy)]
pub struct Asked {
    /// The address of the first byte of memory.
    base: u64,
    harts: u64,
    /// The program runs on the plain machine.
    plain: bool,
}

impl Asked {
    /// What has to be known of a command, or of arguments that are none.
    pub fn of(command: Option<&Command>) -> Asked
        ensures { result ≡ asked_in (option_map (λ c. order_of c.now) command.entry) }
    {
        match command {
            Some(Command::Run { job, .. })
            | Some(Command::Resume { job, .. })
            | Some(Command::Bench { job, .. }) => Asked {
                base: job.config.base,
                harts: job.config.harts,
                plain: false,
            },
            Some(Command::Plain { job, .. }) => Asked {
                base: job.config.base,
                harts: job.config.harts,
                plain: true,
            },
            Some(Command::Compare { .. }) | Some(Command::Make { .. }) | None => Asked {
                base: 0,
                harts: 1,
                plain: false,
            },
        }
    }
}

/// Whether a run was begun, by its answer. One that did nothing counts as none.
pub fn was_begun(answer: &Answer) -> bool
    ensures { result ≡ was_begun answer.now }
{
    let status = answer.status;
    answer.cycles > 0 || answer.events.len() > 0 || status <= 1 || status == 6 || status == 8
}

/// The text of the plain machine's trap, if it stopped by one.
///
/// # Errors
/// Memory ran out.
fn plain_text(alloc: Global, tally: &Tally) -> Result<String, AllocError>
    ensures { IfOk result (λ text. IsPlainText tally.now (string_bytes text)) }
{
    let mut text = String::new(alloc);
    add_trap(alloc, &mut text, tally.trap(), 1)?;
    Ok(text)
}

/// The text of a run: a line for each event, the trap, and the totals.
///
/// # Errors
/// Memory ran out, or had for what was seen.
fn run_text(
    alloc: Global,
    asked: Asked,
    tally: &Tally,
    calls: &Calls,
    events: &Events,
) -> Result<String, AllocError>
    ensures { IfOk result (λ text. IsRunText asked tally.now calls.now events.now (string_bytes text)) }
{
    let Asked { base, harts, .. } = asked;
    let Some(cycles) = tally.event_cycles() else {
        return Err(AllocError);
    };
    let broken = broken_after(tally);
    let reporting = Reporting {
        digest: false,
        harts,
    };
    let totals = totals_of(tally);
    let mut text = String::new(alloc);
    let lost = add_lines(alloc, &mut text, broken, cycles, reporting, events)?;
    add_trap(alloc, &mut text, trap_in(events, base, harts), harts)?;
    add_totals(alloc, &mut text, harts, &totals, calls, lost, events)?;
    Ok(text)
}

/// What every text begins with.
///
/// # Errors
/// Memory ran out, or had for what was seen.
pub fn text_of(
    alloc: Global,
    asked: Asked,
    tally: &Tally,
    calls: &Calls,
    events: &Events,
) -> Result<String, AllocError>
    ensures { IfOk result (λ text. IsHead asked tally.now calls.now events.now (string_bytes text)) }
{
    if asked.plain {
        return plain_text(alloc, tally);
    }
    run_text(alloc, asked, tally, calls, events)
}
