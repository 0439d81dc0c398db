//! How many writes each place of the NVM has taken, as text.
ghost use Rattle.std.specs.Prelude.{◌≡◌, ◌<◌, ◌++◌, IfSome, OnOk, length, string_bytes};
ghost use Rattle.observe.specs.CountText.{wear_part, wear_row, wear_text};
ghost use Rattle.observe.specs.StateText.{rows_from};

use std::alloc::{AllocError, Global};

/// Adds the line of a place, unless it has taken no write.
fn add_place(alloc: Global, text: &mut String, wear: &[u64], at: usize) -> Result<(), AllocError>
    requires { at < length wear.now }
    ensures { OnOk result (string_bytes text.new ≡ string_bytes text.old ++ wear_row wear.now at) }
{
    let count = wear[at];
    if count == 0 {
        return Ok(());
    }
    let line = format!(in alloc; "{at} {count}\n")?;
    text.push_str(line.as_str())
}

/// Adds the lines of all places.
fn add_places(alloc: Global, text: &mut String, wear: &[u64]) -> Result<(), AllocError>
    ensures { OnOk result (string_bytes text.new
        ≡ string_bytes text.old ++ rows_from (wear_row wear.now) 0 (length wear.now)) }
{
    for at in 0..wear.len() {
        add_place(alloc, text, wear, at)?;
    }
    Ok(())
}

/// Adds how many writes each place has taken.
fn add_wear(alloc: Global, text: &mut String, wear: &[u64]) -> Result<(), AllocError>
    ensures { OnOk result (string_bytes text.new ≡ string_bytes text.old ++ wear_text wear.now) }
{
    text.push_str("wear\n")?;
    add_places(alloc, text, wear)
}

/// A text with the writes of each place, if that is asked for; none if memory ran out.
pub fn with_wear(alloc: Global, text: String, asked: bool, wear: &[u64]) -> Option<String>
    ensures { let head = string_bytes text in
        IfSome result (λ whole. string_bytes whole ≡ head ++ wear_part asked wear.now) }
{
    if !asked {
        return Some(text);
    }
    let mut whole = text;
    match add_wear(alloc, &mut whole, wear) {
        Ok(()) => Some(whole),
        Err(_) => None,
    }
}
