//! The options as a table: what each is called, what it may be, and which commands take it.
ghost use Rattle.std.specs.Prelude.{◌≡◌};
ghost use Rattle.thy_base.specs.Options.{default_of, field_name, fields, is_taken, option_of};

use crate::Field;

/// Which values of an option are in its range.
#[derive(Clone, Copy, Debug, PartialEq, Eq)]
pub enum Bounds {
    /// Every number is in the range.
    Any,
    /// Numbers from 0 to this one.
    AtMost(u64),
    /// Numbers from the first to the second, both included.
    Between(u64, u64),
    /// The multiples of 8 from the first number to the second, both included.
    Eights(u64, u64),
    /// The powers of two from 1 to 64.
    PowerOfTwo,
    /// The multiples of 4096 below `2^62`.
    PageAddress,
    /// Numbers from the first to the second, both included, that are below the number of another option.
    Below(u64, u64, Field),
    /// Numbers from 0 to the number of another option.
    AtMostOf(Field),
}

/// What the value of an option is.
#[derive(Clone, Copy, Debug, PartialEq, Eq)]
pub enum Value {
    /// A number: its default, and its range.
    Number(u64, Bounds),
    /// Cycles, each above the one before. The default is none.
    Rising,
    /// Picks, for each cut and a save. The default is none.
    Picks,
    /// The name of a scheme. The default is `thynvm`.
    Name,
}

/// Which commands take an option.
#[derive(Clone, Copy, Debug, PartialEq, Eq)]
pub enum Commands {
    /// No command takes it by name: it is the operand of `bench` and `make`.
    Operand,
    /// `run`, `resume` and `bench`.
    Runs,
    /// `run`, `resume`, `bench` and `compare`.
    AlsoCompare,
    /// `run`, `resume`, `bench`, `compare` and `plain`.
    AlsoPlain,
}

/// A row of the table: an option's name, what its value is, and which commands take it.
#[derive(Clone, Copy, Debug)]
pub struct OptionRow {
    pub name: &'static str,
    pub value: Value,
    pub commands: Commands,
}

/// The greatest number of which a program is made.
pub const MOST_NUMBER: u64 = 4_294_967_295;

/// The table of options, in the order in which their values are read, and then tested.
static FIELDS: [Field; 19] = [
    Field::Base,
    Field::Pages,
    Field::Console,
    Field::Epoch,
    Field::Btt,
    Field::Ptt,
    Field::Sets,
    Field::Ways,
    Field::Nvmq,
    Field::Dramq,
    Field::High,
    Field::Low,
    Field::Mix,
    Field::Cuts,
    Field::Tears,
    Field::Limit,
    Field::Scheme,
    Field::Harts,
    Field::Gap,
];

/// All options, in the order in which their values are read, and then tested.
pub fn fields() -> &'static [Field]
    ensures { result.now ≡ fields }
{
    FIELDS.as_slice()
}

impl Field {
    /// The row of the table for this field: the option's name, value and commands.
    pub fn option(self) -> OptionRow
        ensures name { result.name.now ≡ field_name self }
        ensures value { result.value ≡ (option_of self).value }
        ensures commands { result.commands ≡ (option_of self).commands }
    {
        match self {
            Field::Base => all("base", 65_536, Bounds::PageAddress),
            Field::Pages => all("pages", 256, Bounds::Between(8, 65_536)),
            Field::Console => all("console", 1, Bounds::Below(1, 16, Field::Pages)),
            Field::Epoch => machine("epoch", 10_000, Bounds::Between(1, 1_000_000)),
            Field::Btt => machine("btt", 512, Bounds::Eights(8, 4096)),
            Field::Ptt => machine("ptt", 64, Bounds::Eights(8, 512)),
            Field::Sets => machine("sets", 16, Bounds::PowerOfTwo),
            Field::Ways => machine("ways", 4, Bounds::Between(1, 8)),
            Field::Nvmq => machine("nvmq", 16, Bounds::Between(1, 64)),
            Field::Dramq => machine("dramq", 16, Bounds::Between(1, 64)),
            Field::High => machine("high", 22, Bounds::AtMost(63)),
            Field::Low => machine("low", 16, Bounds::AtMostOf(Field::High)),
            Field::Mix => machine("mix", 0, Bounds::Any),
            Field::Cuts => row("cuts", Value::Rising, Commands::Runs),
            Field::Tears => row("tears", Value::Picks, Commands::Runs),
            Field::Limit => all(
                "limit",
                1_000_000_000,
                Bounds::Between(1, 1_000_000_000_000),
            ),
            Field::Scheme => row("scheme", Value::Name, Commands::Runs),
            Field::Harts => machine("harts", 1, Bounds::Between(1, 2)),
            Field::Gap => machine("gap", 0, Bounds::AtMost(1_000_000)),
            Field::N => row(
                "n",
                Value::Number(0, Bounds::AtMost(MOST_NUMBER)),
                Commands::Operand,
            ),
        }
    }

    /// The option's name without the hyphens, which a refusal also gives to the field.
    pub fn name(self) -> &'static str
        ensures { result.now ≡ field_name self }
    {
        self.option().name
    }

    /// The number that the field has if the arguments leave it out. A field that is no number has 0.
    pub fn default_number(self) -> u64
        ensures { result ≡ default_of (option_of self).value }
    {
        match self.option().value {
            Value::Number(default, _) => default,
            _ => 0,
        }
    }
}

impl Commands {
    /// Whether commands of this kind take an option whose row has `option`.
    pub fn take(self, option: Commands) -> bool
        ensures { result ≡ is_taken self option }
    {
        match self {
            Commands::Operand => false,
            Commands::Runs => !matches!(option, Commands::Operand),
            Commands::AlsoCompare => {
                matches!(option, Commands::AlsoCompare | Commands::AlsoPlain)
            }
            Commands::AlsoPlain => matches!(option, Commands::AlsoPlain),
        }
    }
}

/// A row of the table.
fn row(name: &'static str, value: Value, commands: Commands) -> OptionRow
    ensures name { result.name.now ≡ name.now }
    ensures value { result.value ≡ value }
    ensures commands { result.commands ≡ commands }
{
    OptionRow {
        name,
        value,
        commands,
    }
}

/// The row of a number that every command takes but `make`.
fn all(name: &'static str, default: u64, bounds: Bounds) -> OptionRow
    ensures name { result.name.now ≡ name.now }
    ensures value { result.value ≡ Value.Number default bounds }
    ensures commands { result.commands ≡ Commands.AlsoPlain }
{
    row(name, Value::Number(default, bounds), Commands::AlsoPlain)
}

/// The row of a number that every command takes but `plain` and `make`.
fn machine(name: &'static str, default: u64, bounds: Bounds) -> OptionRow
    ensures name { result.name.now ≡ name.now }
    ensures value { result.value ≡ Value.Number default bounds }
    ensures commands { result.commands ≡ Commands.AlsoCompare }
{
    row(name, Value::Number(default, bounds), Commands::AlsoCompare)
}
