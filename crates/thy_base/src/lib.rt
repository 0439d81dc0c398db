//! The options of a run with their ranges, its configuration, and the command line. Callers rely on `Config`, which says of
//! each field whether it is in its range, and names the first one that is not; what thy_block has for crates that name
//! options is named here too. `arguments` is the command line: `settings` gives exactly what arguments ask for, as a command
//! with its configuration, or why they are refused, unless memory ran out.
//!
//! Open specs/Config.antt first, then specs/Options.antt and src/options.rt; of the command line specs/Settings.antt and
//! src/arguments/words.rt. It depends on thy_block and on `clap`; every crate that names an option depends on it.
#![tactic(auto)]

mod arguments;
mod config;
mod configuration;
mod numbers;
mod options;
mod ranges;

pub use arguments::{Command, Job, WordsError, is_list, is_number, list_of, number, settings};
pub use config::{Config, ConfigError, Field};
pub use numbers::Numbers;
pub use options::{Bounds, Commands, MOST_NUMBER, OptionRow, Value, fields};
pub use thy_block::{
    BLOCK_COUNTS, BLOCK_SIZE, Block, BlockStore, Bytes, COMMIT_PLACE, Configuration, EndCause,
    FetchError, FitError, Geometry, HART_BLOCKS, HEADER_PLACE, Lcg, Mark, Mix, Nvm, NvmError,
    PAGE_BLOCKS, PAGE_SIZE, Parameters, Pick, PutError, SchemeName, Shape, Shelf, Sink, SinkError,
    Stored, Write, block_with, is_inside, page_of, word,
};
