//! The program's command line, as `clap` is given it.
ghost use Rattle.std.specs.Prelude.{◌≡◌, IfOk, false, fold};
ghost use Rattle.clap.specs.declared.builder.command.Command.TheViews.{out-Command};
ghost use Rattle.thy_base.specs.Options.{fields};
ghost use Rattle.clap.specs.Simple.{app_of, with_subcommand};
ghost use Rattle.thy_base.specs.CommandLine.{IsArg, IsBuilt, bare, begun, program, rule_for, with_argument, with_field};

use crate::{Commands, Field, fields};
use clap::{Arg, ArgAction, Command};
use std::alloc::{AllocError, Global};

/// An argument of a command, by its name.
#[derive(Clone, Copy)]
enum Argument {
    /// A name that is required at its position.
    Operand(&'static str),
    /// An option `--name value` or `--name=value`.
    Valued(&'static str),
    /// A flag `--name`.
    Flag(&'static str),
}

/// What `run`, `resume` and `bench` take in addition to the options of the table: the names of what is read and of what
/// is saved, and whether digests of memory are reported.
static RUN_NAMES: [Argument; 3] = [
    Argument::Valued("input"),
    Argument::Valued("save"),
    Argument::Flag("digest"),
];

/// What `compare` and `plain` take in addition: all of these but what is saved.
static READ_NAMES: [Argument; 2] = [Argument::Valued("input"), Argument::Flag("digest")];

/// What `make` takes in addition to a number: the name under which the program is put.
static MAKE_NAME: [Argument; 1] = [Argument::Operand("OUT")];

/// An argument, as `clap` is given it.
fn arg<'a>(alloc: Global, argument: Argument) -> Arg<'a>
    ensures { IsArg result (rule_for argument) }
{
    match argument {
        Argument::Operand(name) => Arg::new(alloc, name).required(true),
        Argument::Valued(name) => Arg::new(alloc, name).long(name),
        Argument::Flag(name) => Arg::new(alloc, name).long(name).action(ArgAction::SetTrue),
    }
}

/// A command that begins with an operand.
fn begun<'a>(alloc: Global, name: &'a str, first: &'static str) -> Result<Command<'a>, AllocError>
    ensures { IfOk result (λ c. IsBuilt c (begun name.entry.now first.entry.now)) }
{
    let operand = arg(alloc, Argument::Operand(first));
    let command = Command::new(alloc, name).arg(operand)?;
    Ok(command)
}

/// A command with one more option, if commands like it take it.
fn with_field<'a>(
    alloc: Global,
    command: Command<'a>,
    field: Field,
    commands: Commands,
) -> Result<Command<'a>, AllocError>
    requires { (out-Command command).has_globals ≡ false }
    ensures { IfOk result (λ c. IsBuilt c
        (with_field commands (app_of command.entry) field)) }
{
    let row = field.option();
    if commands.take(row.commands) {
        let option = arg(alloc, Argument::Valued(row.name));
        let wider = command.arg(option)?;
        Ok(wider)
    } else {
        Ok(command)
    }
}

/// A command with the operand that it begins with, and the options of the table that commands like it take.
fn with_fields<'a>(
    alloc: Global,
    name: &'a str,
    first: &'static str,
    commands: Commands,
) -> Result<Command<'a>, AllocError>
    ensures { IfOk result (λ c. IsBuilt c
        (fold (with_field commands) (begun name.entry.now first.entry.now) fields)) }
{
    let start = begun(alloc, name, first)?;
    let mut wider = start;
    for field in fields() {
        wider = with_field(alloc, wider, *field, commands)?;
    }
    Ok(wider)
}

/// A command with its arguments: the operand that it begins with, the options of the table, and the others.
fn command<'a>(
    alloc: Global,
    name: &'a str,
    first: &'static str,
    commands: Commands,
    others: &'static [Argument],
) -> Result<Command<'a>, AllocError>
    ensures { IfOk result (λ c. IsBuilt c (fold with_argument
        (fold (with_field commands) (begun name.entry.now first.entry.now) fields)
        others.entry.now)) }
{
    let start = with_fields(alloc, name, first, commands)?;
    let mut wider = start;
    for item in others {
        wider = wider.arg(arg(alloc, *item))?;
    }
    Ok(wider)
}

/// The program with one more command.
fn with_command<'a>(
    alloc: Global,
    program: Command<'a>,
    name: &'a str,
    first: &'static str,
    commands: Commands,
    others: &'static [Argument],
) -> Result<Command<'a>, AllocError>
    ensures { IfOk result (λ c. app_of c ≡ with_subcommand (app_of program.entry)
        (fold with_argument
        (fold (with_field commands) (begun name.entry.now first.entry.now) fields)
        others.entry.now).top) }
{
    program.subcommand(command(alloc, name, first, commands, others)?)
}

/// The program without its commands. It has no options for help or for a version.
fn bare<'a>(alloc: Global) -> Command<'a>
    ensures { app_of result ≡ bare }
{
    Command::new(alloc, "thynvm")
        .subcommand_required(true)
        .disable_help_flag(true)
        .disable_help_subcommand(true)
}

/// The description of the program for the reader of arguments, with its six commands. Fails if memory runs out.
pub(crate) fn thynvm<'a>(alloc: Global) -> Result<Command<'a>, AllocError>
    ensures { IfOk result (λ c. app_of c ≡ program) }
{
    let runs = Commands::Runs;
    let run_names = RUN_NAMES.as_slice();
    let read_names = READ_NAMES.as_slice();
    let program = with_command(alloc, bare(alloc), "run", "FILE", runs, run_names)?;
    let program = with_command(alloc, program, "resume", "IMAGE", runs, run_names)?;
    let program = with_command(alloc, program, "bench", "n", runs, run_names)?;
    let compare = Commands::AlsoCompare;
    let program = with_command(alloc, program, "compare", "FILE", compare, read_names)?;
    let plain = Commands::AlsoPlain;
    let program = with_command(alloc, program, "plain", "FILE", plain, read_names)?;
    let none = Commands::Operand;
    with_command(alloc, program, "make", "n", none, MAKE_NAME.as_slice())
}
