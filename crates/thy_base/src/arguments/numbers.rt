//! How numbers and lists of numbers are written in arguments.
ghost use Rattle.std.specs.Prelude.{◌≡◌, IfOk};
ghost use Rattle.std.specs.Char.{is_ascii_digit};
ghost use Rattle.std.specs.List.{list_all};
ghost use Rattle.thy_base.specs.Numbers.{is_list, is_number, number_in, number_or_zero, numbers_in};

use std::alloc::{AllocError, Global};

/// The most digits of a number.
const MOST_DIGITS: usize = 19;

/// Whether each byte of the text is a decimal digit.
fn has_digits_only(text: &str) -> bool
    ensures { result ≡ list_all is_ascii_digit text.now }
{
    text.bytes().all(|b| b.is_ascii_digit())
}

/// Whether the text is 1 to 19 decimal digits.
#[tactic(auto, unfolding(crate::specs::Numbers::is_number))]
pub fn is_number(text: &str) -> bool
    ensures { result ≡ is_number text.now }
{
    !text.is_empty() && text.len() <= MOST_DIGITS && has_digits_only(text)
}

/// The number that the text writes, if it is 1 to 19 decimal digits.
#[tactic(auto, unfolding(crate::specs::Numbers::number_in))]
pub fn number(text: &str) -> Option<u64>
    ensures { result ≡ number_in text.now }
{
    if is_number(text) {
        text.parse().ok()
    } else {
        None
    }
}

/// Whether the text is one number or more, with a comma between each two.
pub fn is_list(text: &str) -> bool
    ensures { result ≡ is_list text.now }
{
    text.split(',').all(|piece| is_number(piece))
}

/// The number that the text writes, or 0 if it does not write one.
#[tactic(auto, unfolding(crate::specs::Numbers::number_or_zero))]
fn number_or_zero(text: &str) -> u64
    ensures { result ≡ number_or_zero text.now }
{
    number(text).unwrap_or(0)
}

/// The numbers of a list of decimal digits with commas between. Fails if memory runs out.
pub fn list_of(alloc: Global, text: &str) -> Result<Vec<u64>, AllocError>
    ensures { IfOk result (λ v. v.items ≡ numbers_in text.now) }
{
    text.split(',')
        .map(|piece| number_or_zero(piece))
        .collect(alloc)
}
