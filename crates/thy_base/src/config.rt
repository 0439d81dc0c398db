//! The configuration of a run, as its options give it.
ghost use Rattle.std.specs.Prelude.{◌≡◌, []};
ghost use Rattle.thy_base.specs.Config.{number_of, parameters_of};

use crate::Numbers;
use std::alloc::Global;
use thy_block::{Parameters, SchemeName};

/// Every value that an option gives. The table of options has their ranges, and `Geometry::new` tests them.
#[derive(Debug, Drop)]
pub struct Config {
    /// The first address of program memory, in bytes.
    pub base: u64,
    /// Memory in pages of 4096 bytes.
    pub pages: u64,
    /// The pages at the end of memory that hold the console's bytes.
    pub console: u64,
    /// The instructions of an epoch.
    pub epoch: u64,
    /// Entries of the block translation table.
    pub btt: u64,
    /// Entries of the page translation table.
    pub ptt: u64,
    /// Sets of the cache.
    pub sets: u64,
    /// Ways of each set.
    pub ways: u64,
    /// Writes that the NVM's queue holds.
    pub nvmq: u64,
    /// Writes that the DRAM's queue holds.
    pub dramq: u64,
    /// The store count above which a page is promoted.
    pub high: u64,
    /// The store count below which a page leaves.
    pub low: u64,
    /// The seed of the schedule. 0 gives the actors in turn.
    pub mix: u64,
    /// The cycles after which power is cut: at most 64, rising, the first above 0, and
    /// `pages * (cuts + 1)` at most 65536.
    pub cuts: Numbers,
    /// The picks of the cuts in order, and then of a save: at most one more than `cuts`.
    pub tears: Numbers,
    /// The cycles (or, for the plain machine, instructions) after which the run stops.
    pub limit: u64,
    /// The scheme of checkpoints.
    pub scheme: SchemeName,
    /// How many harts there are: 1 or 2.
    pub harts: u64,
    /// How many writes of the NVM come before a barrier moves a line of it: at most 1,000,000; 0 is never.
    pub gap: u64,
}

/// What an option sets: a field of the configuration, or the number from which a program is made (`N`).
#[derive(Clone, Copy, Debug, PartialEq, Eq)]
pub enum Field {
    Base,
    Pages,
    Console,
    Epoch,
    Btt,
    Ptt,
    Sets,
    Ways,
    Nvmq,
    Dramq,
    High,
    Low,
    Mix,
    Cuts,
    Tears,
    Limit,
    Scheme,
    Harts,
    Gap,
    N,
}

/// A value that is out of its range, with the field that has it.
#[derive(Clone, Copy, Debug, PartialEq, Eq)]
pub struct ConfigError {
    pub field: Field,
    pub value: u64,
}

impl Config {
    /// The configuration of a machine with these numbers, without cuts, picks or a gap. Allocates nothing.
    pub fn of(alloc: Global, numbers: &Parameters) -> Config
        ensures numbers { parameters_of result ≡ numbers.now }
        ensures cuts { result.cuts ≡ [] }
        ensures tears { result.tears ≡ [] }
        ensures gap { result.gap ≡ 0 }
    {
        Config {
            base: numbers.base,
            pages: numbers.pages,
            console: numbers.console,
            epoch: numbers.epoch,
            btt: numbers.btt,
            ptt: numbers.ptt,
            sets: numbers.sets,
            ways: numbers.ways,
            nvmq: numbers.nvmq,
            dramq: numbers.dramq,
            high: numbers.high,
            low: numbers.low,
            mix: numbers.mix,
            cuts: Numbers::from_vec(Vec::new(alloc)),
            tears: Numbers::from_vec(Vec::new(alloc)),
            limit: numbers.limit,
            scheme: numbers.scheme,
            harts: numbers.harts,
            gap: 0,
        }
    }

    /// The number that the field has. Fields without one have 0: the lists, the scheme, and `N`, which is no field of a configuration.
    pub fn number(&self, field: Field) -> u64
        ensures { result ≡ number_of self.now field }
    {
        match field {
            Field::Base => self.base,
            Field::Pages => self.pages,
            Field::Console => self.console,
            Field::Epoch => self.epoch,
            Field::Btt => self.btt,
            Field::Ptt => self.ptt,
            Field::Sets => self.sets,
            Field::Ways => self.ways,
            Field::Nvmq => self.nvmq,
            Field::Dramq => self.dramq,
            Field::High => self.high,
            Field::Low => self.low,
            Field::Mix => self.mix,
            Field::Limit => self.limit,
            Field::Harts => self.harts,
            Field::Gap => self.gap,
            Field::Cuts | Field::Tears | Field::Scheme | Field::N => 0,
        }
    }
}
