//! What the arguments ask for.
ghost use Rattle.std.specs.Prelude.{◌≡◌, IfOk, IfErr, map, option_map};
ghost use Rattle.std.specs.String.{string_bytes};
ghost use Rattle.clap.specs.Matches.{found_of};
ghost use Rattle.clap.specs.Simple.{subcommand_rows_of};
ghost use Rattle.clap.specs.Values.{kind_of};
ghost use Rattle.clap.specs.Walk.{first_of, rows_of};
ghost use Rattle.thy_base.specs.Settings.{Answers, IsInRange, ShowsOrMemory, job_of, job_with, number_fault, operand, order_for, order_in, order_named, order_of, order_with, ranged, settings_of, value_fault, values_at, values_in};
ghost use Rattle.thy_base.specs.Refused.{NeedsMemory, is_out_of_memory, refused};

use crate::arguments::command_line::thynvm;
use crate::arguments::fields::{config_at, has_flag, number_at, text_of, unreadable};
use crate::arguments::verb::{Verb, verb_of};
use crate::{Config, ConfigError, Configuration, Field, MOST_NUMBER};
use clap::ArgMatches;
use clap::error::ErrorKind;
use std::alloc::{AllocError, Global};

/// How a program is to be run. What a command has no option for has its default.
#[derive(Debug, Drop)]
pub struct Job {
    pub config: Config,
    /// The name on the shelf of what the program reads, if it has an input.
    pub input: Option<String>,
    /// The name on the shelf under which the image that the run leaves is saved, if it is.
    pub save: Option<String>,
    /// Whether digests of memory are to be reported.
    pub digest: bool,
}

/// A command that the arguments ask for. A number is at most 4294967295.
#[derive(Debug, Drop)]
pub enum Command {
    /// Run the program file on a fresh machine.
    Run { file: String, job: Job },
    /// Continue from what the image has saved.
    Resume { image: String, job: Job },
    /// Run the program that is made from the number, and sum the run up.
    Bench { number: u64, job: Job },
    /// Run the program file by each scheme in turn, and compare what the runs cost.
    Compare { file: String, job: Job },
    /// Run the program file on the plain machine.
    Plain { file: String, job: Job },
    /// Put the program that is made from the number under the name.
    Make { number: u64, name: String },
}

/// Why the arguments are refused, or could not be read.
#[derive(Clone, Copy, Debug)]
pub enum WordsError {
    /// Invalid usage.
    Usage,
    /// The first field whose text is not a value of it.
    Word(Field),
    /// The first field that is out of range, and the value that is.
    Value(Field, u64),
    /// Memory ran out.
    Memory(AllocError),
}

/// What the arguments give for the fields.
#[derive(Drop)]
struct Values {
    /// The number of a made program, or 0 if the arguments leave it out.
    number: u64,
    config: Config,
}

/// The error for the number of a made program, if that is out of range.
fn number_fault(number: u64) -> Option<ConfigError>
    ensures { result ≡ number_fault number }
{
    if number <= MOST_NUMBER {
        None
    } else {
        Some(ConfigError {
            field: Field::N,
            value: number,
        })
    }
}

/// The first value that is out of range.
fn value_fault(values: &Values) -> Option<ConfigError>
    ensures { result ≡ value_fault values.now }
{
    match number_fault(values.number) {
        None => values.config.first_fault(),
        Some(fault) => Some(fault),
    }
}

/// The values, unless one is out of range.
fn ranged(values: Values) -> Result<Values, WordsError>
    ensures { result ≡ ranged values (value_fault values) }
{
    match value_fault(&values) {
        None => Ok(values),
        Some(fault) => Err(WordsError::Value(fault.field, fault.value)),
    }
}

/// The values of what `clap` found for a command's arguments, in which each field is readable.
fn values_at(alloc: Global, matches: &ArgMatches<'_>) -> Result<Values, AllocError>
    ensures { IfOk result (λ v. v ≡ values_at (rows_of (found_of matches.now))) }
{
    Ok(Values {
        number: number_at(matches, Field::N),
        config: config_at(alloc, matches)?,
    })
}

/// The values of what `clap` found for a command's arguments. A field that is unreadable is found without memory.
fn values_in(alloc: Global, matches: &ArgMatches<'_>) -> Result<Values, WordsError>
    ensures exact { ShowsOrMemory (λ v. v) (values_in (rows_of (found_of matches.now))) result }
    ensures memory { IfErr result (NeedsMemory (values_in (rows_of (found_of matches.now)))) }
{
    match unreadable(matches) {
        Some(field) => Err(WordsError::Word(field)),
        None => match values_at(alloc, matches) {
            Ok(values) => ranged(values),
            Err(error) => Err(WordsError::Memory(error)),
        },
    }
}

/// The name that is given for an operand, as a copy.
fn operand(alloc: Global, matches: &ArgMatches<'_>, name: &str) -> Result<String, AllocError>
    ensures { IfOk result (λ s.
        string_bytes s ≡ operand name.now (rows_of (found_of matches.now))) }
{
    String::from_str(alloc, text_of(matches, name).unwrap_or(""))
}

/// The name that an option gives, if it is given, as a copy.
fn optional(
    alloc: Global,
    matches: &ArgMatches<'_>,
    name: &str,
) -> Result<Option<String>, AllocError>
    ensures { IfOk result (λ o. option_map string_bytes o
        ≡ first_of name.now (rows_of (found_of matches.now))) }
{
    match text_of(matches, name) {
        Some(text) => Ok(Some(String::from_str(alloc, text)?)),
        None => Ok(None),
    }
}

/// How a program is to be run, of what `clap` found for a command's arguments.
fn job_with(alloc: Global, matches: &ArgMatches<'_>, config: Config) -> Result<Job, AllocError>
    ensures { IfOk result (λ j. job_of j ≡ job_with (rows_of (found_of matches.now)) config) }
{
    let input = optional(alloc, matches, "input")?;
    let save = optional(alloc, matches, "save")?;
    Ok(Job {
        config,
        input,
        save,
        digest: has_flag(matches, "digest"),
    })
}

/// A command with its values, of what `clap` found for its arguments.
fn order_with(
    alloc: Global,
    verb: Verb,
    matches: &ArgMatches<'_>,
    values: Values,
) -> Result<Command, AllocError>
    ensures { IfOk result (λ c.
        order_of c ≡ order_with verb (rows_of (found_of matches.now)) values) }
{
    match verb {
        Verb::Run => Ok(Command::Run {
            file: operand(alloc, matches, "FILE")?,
            job: job_with(alloc, matches, values.config)?,
        }),
        Verb::Resume => Ok(Command::Resume {
            image: operand(alloc, matches, "IMAGE")?,
            job: job_with(alloc, matches, values.config)?,
        }),
        Verb::Bench => Ok(Command::Bench {
            number: values.number,
            job: job_with(alloc, matches, values.config)?,
        }),
        Verb::Compare => Ok(Command::Compare {
            file: operand(alloc, matches, "FILE")?,
            job: job_with(alloc, matches, values.config)?,
        }),
        Verb::Plain => Ok(Command::Plain {
            file: operand(alloc, matches, "FILE")?,
            job: job_with(alloc, matches, values.config)?,
        }),
        Verb::Make => Ok(Command::Make {
            number: values.number,
            name: operand(alloc, matches, "OUT")?,
        }),
    }
}

/// A command, of what `clap` found for its arguments.
fn order_for(alloc: Global, verb: Verb, matches: &ArgMatches<'_>) -> Result<Command, WordsError>
    ensures exact { Answers (order_for verb (rows_of (found_of matches.now))) result }
    ensures memory { IfErr result (NeedsMemory (order_for verb (rows_of (found_of matches.now)))) }
{
    let values = values_in(alloc, matches)?;
    match order_with(alloc, verb, matches, values) {
        Ok(command) => Ok(command),
        Err(error) => Err(WordsError::Memory(error)),
    }
}

/// What the arguments ask for, by the command's name and what `clap` found after it.
fn order_in(alloc: Global, name: &str, found: &ArgMatches<'_>) -> Result<Command, WordsError>
    ensures exact { Answers (order_in (name.now, rows_of (found_of found.now))) result }
    ensures memory { IfErr result
        (NeedsMemory (order_in (name.now, rows_of (found_of found.now)))) }
{
    match verb_of(name) {
        Some(verb) => order_for(alloc, verb, found),
        None => Err(WordsError::Usage),
    }
}

/// What the arguments ask for, by what `clap` found in them. That there is no command is found without memory too.
fn order(alloc: Global, matches: &ArgMatches<'_>) -> Result<Command, WordsError>
    ensures exact { Answers (order_named (subcommand_rows_of matches.now)) result }
    ensures memory { IfErr result (NeedsMemory (order_named (subcommand_rows_of matches.now))) }
{
    match matches.subcommand() {
        Some((name, found)) => order_in(alloc, name, found),
        None => Err(WordsError::Usage),
    }
}

/// Whether `clap` failed because memory ran out.
fn is_out_of_memory(kind: ErrorKind) -> bool
    ensures { result ≡ is_out_of_memory kind }
{
    matches!(kind, ErrorKind::OutOfMemory)
}

/// The error for arguments that `clap` refuses.
fn refused(error: &clap::Error) -> WordsError
    ensures { result ≡ refused (kind_of error.now) }
{
    if is_out_of_memory(error.kind()) {
        WordsError::Memory(AllocError)
    } else {
        WordsError::Usage
    }
}

/// The command and the configuration that the arguments ask for, the program's name first.
///
/// Invalid usage is refused as `Usage`. Else the first field whose text is not a value of it is refused as `Word`, and
/// else the first that is out of range as `Value`. The number of a made program is the first field, and the fields of
/// the configuration follow in their order. All this holds unless memory ran out; once `clap` has read the words,
/// `Usage` and `Word` are found without any.
pub fn settings(alloc: Global, words: &[String]) -> Result<Command, WordsError>
    ensures exact { Answers (settings_of (map string_bytes words.now)) result }
    ensures in_range { IfOk result (λ command. IsInRange (order_of command)) }
{
    let program = match thynvm(alloc) {
        Ok(program) => program,
        Err(error) => return Err(WordsError::Memory(error)),
    };
    match program.try_get_matches_from(words) {
        Ok(matches) => order(alloc, &matches),
        Err(error) => Err(refused(&error)),
    }
}
