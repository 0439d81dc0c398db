//! What is to be tried, as the words between OUT and the command say it.
ghost use Rattle.std.specs.Prelude.{◌≡◌, ◌≢◌, true, false, is_none, not, map, Some, IfErr, IfOk, IfSome, OnErr, OnOk, option_map};
ghost use Rattle.std.specs.String.{string_bytes};
ghost use Rattle.sweep.specs.Asking.{AreAccepted, IsAskedBy, IsAskedIn, TakesAll, TakesFlag, TakesText, compared_given, is_above_zero, is_acceptable, is_list_read, is_read, is_short, is_word_known, no_texts, number_given, option_named, picks_given, text_given, texts_of, with_flag, with_text};
ghost use Rattle.sweep.specs.Findings.{has};
ghost use Rattle.sweep.specs.Rows.{pick_of, picks_of};
ghost use Rattle.sweep.specs.Sweeping.{ends_at};

use std::alloc::{AllocError, Global};
use thy_base::{is_list, list_of, number};
use thy_sweep::Part;

/// How many options there are.
const OPTIONS: usize = 7;

/// The picks whose images are tried if nothing else is asked for.
static PICKS: [u64; 4] = [0, 1, 2, 3];

/// Which images are tried, and after which cycles.
#[derive(Drop)]
pub struct Asked {
    /// The first cycle after which images are tried, from 1 on.
    pub from: u64,
    /// The last cycle after which images are tried; None if the run's last is.
    pub to: Option<u64>,
    /// The distance, in cycles, from one cycle after which images are tried to the next.
    pub step: u64,
    /// The picks of the images; if none are listed, those below `all`.
    picks: Vec<u64>,
    /// If a cut can leave at most this number of images, all of them are tried. 0 if that is not asked for.
    pub all: u64,
    /// Whether the run goes over an NVM whose blocks may be torn.
    pub torn: bool,
    /// How much of a state that is restored is compared.
    pub compared: Part,
}

/// Why the options are refused.
#[derive(Clone, Copy, Debug)]
pub enum Unasked {
    /// Invalid usage.
    Usage,
    /// The option of this name has a text that is not a value of it.
    Word(&'static str),
    /// The option of this name has a value that is out of its range.
    Value(&'static str, u64),
    /// Memory ran out.
    Memory(AllocError),
}

/// An option.
#[derive(Clone, Copy, Debug, PartialEq, Eq)]
enum Name {
    From,
    To,
    Step,
    Tears,
    All,
    Compare,
}

/// The texts of the options that were given.
#[derive(Drop)]
struct Given {
    from: Option<String>,
    to: Option<String>,
    step: Option<String>,
    tears: Option<String>,
    all: Option<String>,
    compare: Option<String>,
    torn: bool,
}

/// The option that a word names.
fn name_of(word: &str) -> Option<Name>
    ensures { result ≡ option_named word.now }
{
    if word == "--from" {
        Some(Name::From)
    } else if word == "--to" {
        Some(Name::To)
    } else if word == "--step" {
        Some(Name::Step)
    } else if word == "--tears" {
        Some(Name::Tears)
    } else if word == "--all" {
        Some(Name::All)
    } else if word == "--compare" {
        Some(Name::Compare)
    } else {
        None
    }
}

/// Keeps an option's text, and returns whether it is the first one.
fn keep(place: &mut Option<String>, text: String) -> bool
    ensures first { result ≡ is_none place.old }
    ensures kept { place.new ≡ Some text }
{
    let first = place.is_none();
    *place = Some(text);
    first
}

impl Given {
    /// None of them.
    fn none() -> Given
        ensures { texts_of result ≡ no_texts }
    {
        Given {
            from: None,
            to: None,
            step: None,
            tears: None,
            all: None,
            compare: None,
            torn: false,
        }
    }

    /// Keeps that blocks may be torn, and returns whether that is said for the first time.
    fn tear(&mut self) -> bool
        ensures first { result ≡ not self.old.torn }
        ensures kept { texts_of self.new ≡ with_flag (texts_of self.old) }
    {
        let first = !self.torn;
        self.torn = true;
        first
    }

    /// Keeps the text of an option, and returns whether it is the first one.
    fn take(&mut self, name: Name, text: String) -> bool
        ensures first { result ≡ is_none (text_given (texts_of self.old) name) }
        ensures kept { texts_of self.new ≡ with_text (texts_of self.old) name (string_bytes text) }
    {
        match name {
            Name::From => keep(&mut self.from, text),
            Name::To => keep(&mut self.to, text),
            Name::Step => keep(&mut self.step, text),
            Name::Tears => keep(&mut self.tears, text),
            Name::All => keep(&mut self.all, text),
            Name::Compare => keep(&mut self.compare, text),
        }
    }
}

/// Takes an option and its text out of the arguments, where it follows the program's name, and returns whether it is the first one
/// of its name and has a text.
fn take_text(words: &mut Vec<String>, name: Name, given: &mut Given) -> bool
    ensures { result ≡ true → TakesText name (texts_of given.old) (map string_bytes words.old.items)
        (texts_of given.new) (map string_bytes words.new.items) }
{
    if words.len() < 3 {
        return false;
    }
    let _name = words.remove(1);
    let text = words.remove(1);
    given.take(name, text)
}

/// Takes the flag for torn blocks out of the arguments, where it follows the program's name, and returns whether it is the first one.
fn take_flag(words: &mut Vec<String>, given: &mut Given) -> bool
    ensures { result ≡ true → TakesFlag (texts_of given.old) (map string_bytes words.old.items)
        (texts_of given.new) (map string_bytes words.new.items) }
{
    if words.len() < 2 {
        return false;
    }
    let _flag = words.remove(1);
    given.tear()
}

/// Takes the options out of the arguments, where they follow the program's name; nothing is returned if one is given twice or has
/// no value.
fn take_given(words: &mut Vec<String>) -> Option<Given>
    ensures { IfSome result (λ given.
        TakesAll (map string_bytes words.old.items) (texts_of given) (map string_bytes words.new.items)) }
{
    let mut given = Given::none();
    for _ in 0..OPTIONS + 1 {
        if words.len() < 2 {
            return Some(given);
        }
        let taken = match name_of(words[1].as_str()) {
            Some(name) => take_text(words, name, &mut given),
            None if words[1].as_str() == "--torn" => take_flag(words, &mut given),
            None => return Some(given),
        };
        if !taken {
            return None;
        }
    }
    None
}

/// The number of an option, if it is given.
fn number_of(text: &Option<String>, name: &'static str) -> Result<Option<u64>, Unasked>
    ensures number { IfOk result (λ n. n ≡ number_given (option_map string_bytes text.now)) }
    ensures read { OnOk result (is_read (option_map string_bytes text.now) ≡ true) }
    ensures unread { OnErr result (is_read (option_map string_bytes text.now) ≡ false) }
{
    match text {
        None => Ok(None),
        Some(text) => match number(text.as_str()) {
            Some(value) => Ok(Some(value)),
            None => Err(Unasked::Word(name)),
        },
    }
}

/// An option's number, if it is above 0.
fn above_zero(value: Option<u64>, name: &'static str) -> Result<Option<u64>, Unasked>
    ensures same { IfOk result (λ n. n ≡ value) }
    ensures some { OnOk result (value ≢ Some 0) }
    ensures none { OnErr result (is_above_zero value ≡ false) }
{
    match value {
        Some(0) => Err(Unasked::Value(name, 0)),
        other => Ok(other),
    }
}

/// Whether a list of picks can be read, if it is given.
fn can_read(tears: &Option<String>) -> bool
    ensures { result ≡ is_list_read (option_map string_bytes tears.now) }
{
    match tears {
        Some(text) => is_list(text.as_str()),
        None => true,
    }
}

/// The picks that are listed, if every image is not asked for or they are given.
fn picks_of(alloc: Global, tears: &Option<String>, all: Option<u64>) -> Result<Vec<u64>, AllocError>
    ensures { IfOk result (λ v. v.items ≡ picks_given (option_map string_bytes tears.now) all) }
{
    match tears {
        Some(text) => list_of(alloc, text.as_str()),
        None if all.is_some() => Ok(Vec::new(alloc)),
        None => Vec::from_slice(alloc, &PICKS),
    }
}

/// How much is compared: all of a state, if nothing else is asked for.
fn compared_of(compare: &Option<String>) -> Result<Part, Unasked>
    ensures compared { IfOk result (λ c. c ≡ compared_given (option_map string_bytes compare.now)) }
    ensures known { OnOk result (is_word_known (option_map string_bytes compare.now) ≡ true) }
    ensures unknown { OnErr result (is_word_known (option_map string_bytes compare.now) ≡ false) }
{
    match compare {
        None => Ok(Part::State),
        Some(text) if text.as_str() == "registers" => Ok(Part::Processor),
        Some(_) => Err(Unasked::Word("compare")),
    }
}

/// What texts ask for. The first option whose text can't be read is refused, then the first whose value is out of range, in the
/// order from, to, step, tears, all, compare.
fn asked_by(alloc: Global, given: &Given) -> Result<Asked, Unasked>
    ensures asked { IfOk result (IsAskedBy (texts_of given.now)) }
    ensures accepted { IfOk result (AreAccepted (texts_of given.now)) }
    ensures refused { IfErr result (λ e. is_short e ≡ false → is_acceptable (texts_of given.now) ≡ false) }
{
    let from = number_of(&given.from, "from")?;
    let to = number_of(&given.to, "to")?;
    let step = number_of(&given.step, "step")?;
    if !can_read(&given.tears) {
        return Err(Unasked::Word("tears"));
    }
    let all = number_of(&given.all, "all")?;
    let compared = compared_of(&given.compare)?;
    let from = above_zero(from, "from")?.unwrap_or(1);
    let to = above_zero(to, "to")?;
    if let Some(last) = to {
        if last < from {
            return Err(Unasked::Value("to", last));
        }
    }
    let step = above_zero(step, "step")?.unwrap_or(1);
    let all = above_zero(all, "all")?;
    if given.torn && all.is_some() {
        return Err(Unasked::Usage);
    }
    match picks_of(alloc, &given.tears, all) {
        Ok(picks) => Ok(Asked {
            from,
            to,
            step,
            picks,
            all: all.unwrap_or(0),
            torn: given.torn,
            compared,
        }),
        Err(error) => Err(Unasked::Memory(error)),
    }
}

/// Takes the options out of the arguments, where they follow the program's name, and returns what they ask for.
///
/// # Errors
/// `Usage` if an option is given twice or has no value, or every image of torn blocks is asked for; `Word` or `Value` for the first one at fault; `Memory` if memory runs out.
pub fn take_asked(alloc: Global, words: &mut Vec<String>) -> Result<Asked, Unasked>
    ensures { IfOk result (λ asked. IsAskedIn (map string_bytes words.old.items) asked (map string_bytes words.new.items)) }
{
    match take_given(words) {
        Some(given) => asked_by(alloc, &given),
        None => Err(Unasked::Usage),
    }
}

impl Asked {
    /// How many picks are asked for; their images are tried after each cycle that is asked for.
    pub fn picks(&self) -> u64
        ensures { result ≡ picks_of self.now }
    {
        if self.picks.len() == 0 {
            self.all
        } else {
            self.picks.len() as u64
        }
    }

    /// The pick at position `at`, from 0: the listed one, or past the list `at` itself.
    pub fn pick(&self, at: u64) -> u64
        ensures { result ≡ pick_of self.now at }
    {
        if (at as usize) < self.picks.len() {
            self.picks[at as usize]
        } else {
            at
        }
    }

    /// Whether images are tried after a cycle.
    pub fn has(&self, cycle: u64) -> bool
        ensures { result ≡ has self.now cycle }
    {
        cycle >= self.from && self.step > 0 && (cycle - self.from) % self.step == 0
    }

    /// Whether a cycle is the last one after which images are tried.
    pub fn ends_at(&self, cycle: u64) -> bool
        ensures { result ≡ ends_at self.now cycle }
    {
        match self.to {
            Some(last) => last <= cycle,
            None => false,
        }
    }
}
