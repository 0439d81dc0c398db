//! The line of a trap.
ghost use Rattle.std.specs.Prelude.{◌≡◌, ◌++◌, None, OnOk, string_bytes};
ghost use Rattle.thy_text.specs.Seen.{event_of};
ghost use Rattle.observe.specs.HeadText.{hart_part, hex_part, last_hart, last_turn, pc_part, trap_in, trap_text, turn_after};

use std::alloc::{AllocError, Global};
use thy_observe::{Trap, trap_of};
use thy_text::{Event, Events};

/// The last turn that an epoch's end lists, if this event is one that lists any; else the one before it.
fn turn_after(before: Option<u8>, event: &Event) -> Option<u8>
    ensures { result ≡ turn_after before (event_of event.now) }
{
    let Event::EpochEnd { turns, .. } = event else {
        return before;
    };
    let turns = turns.as_slice();
    let count = turns.len();
    if count == 0 {
        before
    } else {
        Some(turns[count - 1])
    }
}

/// The last turn that an epoch's end lists.
fn last_turn(events: &Events) -> Option<u8>
    ensures { result ≡ last_turn None events.now }
{
    let mut last = None;
    for i in 0..events.len() {
        last = turn_after(last, events.get(i));
    }
    last
}

/// The hart that retired the last instruction; none if there are two harts, and no epoch's end lists one.
fn last_hart(events: &Events, harts: u64) -> Option<u8>
    ensures { result ≡ last_hart harts events.now }
{
    if harts == 1 {
        return Some(0);
    }
    last_turn(events)
}

/// The trap by which a run ended, if it did, and if it is known which hart trapped.
pub fn trap_in(events: &Events, base: u64, harts: u64) -> Option<Trap>
    ensures { result ≡ trap_in events.now base harts }
{
    let count = events.len();
    if count == 0 {
        return None;
    }
    let Event::Ended { state, .. } = events.get(count - 1) else {
        return None;
    };
    let hart = last_hart(events, harts)?;
    trap_of(base, hart, state)
}

/// Adds the word at a trap, if there is one.
fn add_word(alloc: Global, text: &mut String, word: Option<u32>) -> Result<(), AllocError>
    ensures { OnOk result (string_bytes text.new ≡ string_bytes text.old ++ hex_part word) }
{
    let Some(word) = word else {
        return Ok(());
    };
    let part = format!(in alloc; " {word:x}")?;
    text.push_str(part.as_str())
}

/// Adds the address that was accessed, if there is one.
fn add_address(alloc: Global, text: &mut String, address: Option<u64>) -> Result<(), AllocError>
    ensures { OnOk result (string_bytes text.new ≡ string_bytes text.old ++ hex_part address) }
{
    let Some(address) = address else {
        return Ok(());
    };
    let part = format!(in alloc; " {address:x}")?;
    text.push_str(part.as_str())
}

/// Adds the hart, if there are two.
fn add_hart(alloc: Global, text: &mut String, harts: u64, hart: u8) -> Result<(), AllocError>
    ensures { OnOk result (string_bytes text.new ≡ string_bytes text.old ++ hart_part harts hart) }
{
    if harts != 2 {
        return Ok(());
    }
    let part = format!(in alloc; " hart {hart}")?;
    text.push_str(part.as_str())
}

/// Adds the program counter of a trap.
fn add_pc(alloc: Global, text: &mut String, pc: u64) -> Result<(), AllocError>
    ensures { OnOk result (string_bytes text.new ≡ string_bytes text.old ++ pc_part pc) }
{
    let part = format!(in alloc; "trap {pc:x}")?;
    text.push_str(part.as_str())
}

/// Adds the line of a trap, if there is one: with the hart, if there are two.
///
/// # Errors
/// Memory ran out.
pub fn add_trap(
    alloc: Global,
    text: &mut String,
    trap: Option<Trap>,
    harts: u64,
) -> Result<(), AllocError>
    ensures { OnOk result (string_bytes text.new ≡ string_bytes text.old ++ trap_text harts trap) }
{
    let Some(trap) = trap else {
        return Ok(());
    };
    add_pc(alloc, text, trap.pc)?;
    add_word(alloc, text, trap.word)?;
    add_address(alloc, text, trap.address)?;
    add_hart(alloc, text, harts, trap.hart)?;
    text.push_str("\n")
}
