//! What is asked for by the words between OUT and the command.
ghost use Rattle.std.specs.Prelude.{◌≡◌, ◌≢◌, ◌<◌, ◌≤◌, [], map};
ghost use Rattle.std.specs.String.{string_bytes};
ghost use Rattle.thy_outcome.specs.Answering.{Closes};
ghost use Rattle.observe.specs.Wanting.{IsReading, IsWindowRefused, asks, counts, has, has_bound, lacks_trace, last_fault, needs_run, no_options, options_in, take_one, takes_number, window_fault, window_of, wish_of, with_wish, word_line};

use std::alloc::Global;
use thy_base::{Sink, WordsError, number};
use thy_cli::{Refusal, refuse};
use thy_observe::Window;

/// How many options there are.
const OPTIONS: usize = 12;

/// An option. In each of the functions below, and in what they are specified by, it has a row.
#[derive(Clone, Copy, Debug, PartialEq, Eq, Drop)]
pub enum Wish {
    Pcs,
    State,
    StateAt,
    Trace,
    TraceFrom,
    TraceTo,
    Causes,
    Epochs,
    Wear,
    Torn,
    AccessesFrom,
    AccessesTo,
}

/// The bound of a trace that is refused.
#[derive(Clone, Copy, Debug, PartialEq, Eq, Drop)]
pub enum WindowFault {
    /// The first count is 0.
    First,
    /// The last count, which this is, is below the first one.
    Last(u64),
}

/// What is asked for in addition to a run with its events, trap and totals.
#[derive(Clone, Copy, Debug, PartialEq, Eq, Drop)]
pub struct Options {
    /// Whether it is asked how often each program counter retired.
    pub pcs: bool,
    /// The number of the cycle after which the state is asked for.
    pub state: Option<u64>,
    /// The count of instructions at which the state is asked for.
    pub state_at: Option<u64>,
    /// Whether the instructions that retired are asked for.
    pub trace: bool,
    /// The count of the first instruction that is traced, if it is given.
    pub trace_from: Option<u64>,
    /// The count of the last instruction that is traced, if it is given.
    pub trace_to: Option<u64>,
    /// Whether it is asked how many cycles had each cause.
    pub causes: bool,
    /// Whether the cycles are asked for of each boot, and of each time that an epoch was executed.
    pub epochs: bool,
    /// Whether the number of writes is asked for that each place of the NVM has taken.
    pub wear: bool,
    /// Whether the run goes over an NVM whose blocks may be torn.
    pub torn: bool,
    /// The first cycle whose accesses are listed.
    pub accesses_from: Option<u64>,
    /// The last cycle whose accesses are listed.
    pub accesses_to: Option<u64>,
}

/// The option of a word.
fn wish_of(word: &str) -> Option<Wish>
    ensures { result ≡ wish_of word.now }
{
    if word == "--pcs" {
        Some(Wish::Pcs)
    } else if word == "--state" {
        Some(Wish::State)
    } else if word == "--state-at" {
        Some(Wish::StateAt)
    } else if word == "--trace" {
        Some(Wish::Trace)
    } else if word == "--trace-from" {
        Some(Wish::TraceFrom)
    } else if word == "--trace-to" {
        Some(Wish::TraceTo)
    } else if word == "--causes" {
        Some(Wish::Causes)
    } else if word == "--epochs" {
        Some(Wish::Epochs)
    } else if word == "--wear" {
        Some(Wish::Wear)
    } else if word == "--torn" {
        Some(Wish::Torn)
    } else if word == "--accesses-from" {
        Some(Wish::AccessesFrom)
    } else if word == "--accesses-to" {
        Some(Wish::AccessesTo)
    } else {
        None
    }
}

/// Whether a number follows an option.
fn takes_number(wish: Wish) -> bool
    ensures { result ≡ takes_number wish }
{
    match wish {
        Wish::Pcs | Wish::Trace | Wish::Causes | Wish::Epochs | Wish::Wear | Wish::Torn => false,
        Wish::State
        | Wish::StateAt
        | Wish::TraceFrom
        | Wish::TraceTo
        | Wish::AccessesFrom
        | Wish::AccessesTo => true,
    }
}

/// The line that refuses a number that can't be read.
fn word_line(wish: Wish) -> &'static str
    ensures { result.now ≡ word_line wish }
{
    match wish {
        Wish::Pcs => "word pcs\n",
        Wish::State => "word state\n",
        Wish::StateAt => "word state-at\n",
        Wish::Trace => "word trace\n",
        Wish::TraceFrom => "word trace-from\n",
        Wish::TraceTo => "word trace-to\n",
        Wish::Causes => "word causes\n",
        Wish::Epochs => "word epochs\n",
        Wish::Wear => "word wear\n",
        Wish::Torn => "word torn\n",
        Wish::AccessesFrom => "word accesses-from\n",
        Wish::AccessesTo => "word accesses-to\n",
    }
}

impl Options {
    /// Nothing is asked for.
    fn none() -> Options
        ensures { result ≡ no_options }
    {
        Options {
            pcs: false,
            state: None,
            state_at: None,
            trace: false,
            trace_from: None,
            trace_to: None,
            causes: false,
            epochs: false,
            wear: false,
            torn: false,
            accesses_from: None,
            accesses_to: None,
        }
    }

    /// Whether an option is asked for already.
    fn has(self, wish: Wish) -> bool
        ensures { result ≡ has self wish }
    {
        match wish {
            Wish::Pcs => self.pcs,
            Wish::State => self.state.is_some(),
            Wish::StateAt => self.state_at.is_some(),
            Wish::Trace => self.trace,
            Wish::TraceFrom => self.trace_from.is_some(),
            Wish::TraceTo => self.trace_to.is_some(),
            Wish::Causes => self.causes,
            Wish::Epochs => self.epochs,
            Wish::Wear => self.wear,
            Wish::Torn => self.torn,
            Wish::AccessesFrom => self.accesses_from.is_some(),
            Wish::AccessesTo => self.accesses_to.is_some(),
        }
    }

    /// The options and this wish more, with its number if it takes one.
    fn with(self, wish: Wish, number: u64) -> Options
        ensures { result ≡ with_wish self wish number }
    {
        match wish {
            Wish::Pcs => Options { pcs: true, ..self },
            Wish::State => Options {
                state: Some(number),
                ..self
            },
            Wish::StateAt => Options {
                state_at: Some(number),
                ..self
            },
            Wish::Trace => Options {
                trace: true,
                ..self
            },
            Wish::TraceFrom => Options {
                trace_from: Some(number),
                ..self
            },
            Wish::TraceTo => Options {
                trace_to: Some(number),
                ..self
            },
            Wish::Causes => Options {
                causes: true,
                ..self
            },
            Wish::Epochs => Options {
                epochs: true,
                ..self
            },
            Wish::Wear => Options { wear: true, ..self },
            Wish::Torn => Options { torn: true, ..self },
            Wish::AccessesFrom => Options {
                accesses_from: Some(number),
                ..self
            },
            Wish::AccessesTo => Options {
                accesses_to: Some(number),
                ..self
            },
        }
    }

    /// Whether something is asked for that is found out by executing the run again.
    pub fn asks(self) -> bool
        ensures { result ≡ asks self }
    {
        self.pcs || self.state.is_some() || self.state_at.is_some() || self.trace
    }

    /// Whether something is asked for that is counted while a machine runs.
    pub fn counts(self) -> bool
        ensures { result ≡ counts self }
    {
        self.causes || self.epochs || self.wear
    }

    /// Whether something is asked for that a machine is needed for.
    pub fn needs_run(self) -> bool
        ensures { result ≡ needs_run self }
    {
        self.asks() || self.counts()
    }

    /// Whether a bound of the trace is given.
    fn has_bound(self) -> bool
        ensures { result ≡ has_bound self }
    {
        self.trace_from.is_some() || self.trace_to.is_some()
    }

    /// Whether a bound is given of a trace that is not asked for.
    pub fn lacks_trace(self) -> bool
        ensures { result ≡ lacks_trace self }
    {
        self.has_bound() && !self.trace
    }

    /// The counts of the trace: if no bound is given, all.
    pub fn window(self) -> Window
        ensures { result ≡ window_of self }
    {
        Window {
            first: self.trace_from.unwrap_or(1),
            last: self.trace_to,
        }
    }

    /// The bound of the trace that is refused, if one is: counts begin with 1, and rise.
    pub fn window_fault(self) -> Option<WindowFault>
        ensures { result ≡ window_fault self }
    {
        let Window { first, last } = self.window();
        if first == 0 {
            return Some(WindowFault::First);
        }
        last_fault(first, last)
    }
}

/// The last count of a trace, if it is below the first one.
fn last_fault(first: u64, last: Option<u64>) -> Option<WindowFault>
    ensures { result ≡ last_fault first last }
{
    let last = last?;
    if last < first {
        Some(WindowFault::Last(last))
    } else {
        None
    }
}

/// Takes an option, and its number if it takes one, out of the arguments, if it follows the program's name and was not given
/// before. An option without its number is left, where a command has to be.
///
/// # Errors
/// The option whose number can't be read.
fn take_one(words: &mut Vec<String>, options: Options) -> Result<Options, Wish>
    ensures { IsReading (take_one options (map string_bytes words.old.items)) result (map string_bytes words.new.items) }
{
    if words.len() < 2 {
        return Ok(options);
    }
    let Some(wish) = wish_of(words[1].as_str()) else {
        return Ok(options);
    };
    if options.has(wish) {
        return Ok(options);
    }
    if !takes_number(wish) {
        let _word = words.remove(1);
        return Ok(options.with(wish, 0));
    }
    if words.len() < 3 {
        return Ok(options);
    }
    let Some(number) = number(words[2].as_str()) else {
        return Err(wish);
    };
    let _number = words.remove(2);
    let _word = words.remove(1);
    Ok(options.with(wish, number))
}

/// Takes the options out of the arguments, where they follow the program's name. An option that is given twice is left once,
/// where a command has to be.
///
/// # Errors
/// The first option whose number can't be read.
pub fn take_options(words: &mut Vec<String>) -> Result<Options, Wish>
    ensures { IsReading (options_in (map string_bytes words.old.items)) result (map string_bytes words.new.items) }
{
    let mut options = Options::none();
    for done in 0..OPTIONS {
        options = take_one(words, options)?;
    }
    Ok(options)
}

/// Writes a line that refuses an option, and returns the exit status.
fn refuse_by<R: Sink>(line: &str, report: &mut R) -> u8
    requires { line.now ≢ [] }
    ensures status { result ≡ 2 }
    ensures closes { Closes line.now (R.stream report.old) (R.stream report.new) }
{
    let _failed = report.write(line.as_bytes()).is_err();
    2
}

/// Refuses the number of an option, and returns the exit status.
pub fn refuse_word<R: Sink>(wish: Wish, report: &mut R) -> u8
    ensures status { result ≡ 2 }
    ensures closes { Closes (word_line wish) (R.stream report.old) (R.stream report.new) }
{
    refuse_by(word_line(wish), report)
}

/// Refuses a bound of the trace, and returns the exit status. If memory runs out for the line, that is reported.
pub fn refuse_window<R: Sink>(alloc: Global, fault: WindowFault, report: &mut R) -> u8
    ensures { IsWindowRefused fault (R.stream report.old) (R.stream report.new) result }
{
    match fault {
        WindowFault::First => refuse_by("value trace-from 0\n", report),
        WindowFault::Last(last) => match format!(in alloc; "value trace-to {last}\n") {
            Ok(line) => refuse_by(line.as_str(), report),
            Err(error) => {
                refuse(alloc, Refusal::Words(WordsError::Memory(error)), report).status
            }
        },
    }
}
