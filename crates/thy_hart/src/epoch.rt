//! The epoch.
ghost use Rattle.std.specs.Prelude.{◌≡◌, ◌≢◌, ◌<◌, ◌≤◌, ◌+◌, ◌^◌};
ghost use Rattle.thy_hart.specs.Epoch.{Epoch, begun, retired_once, exhausted, next_epoch, IsShort, HasRetired};

use std::marker::Model;
use thy_block::EndCause;

/// The epoch under execution.
#[derive(Drop)]
pub struct EpochState {
    span: u64,
    number: u64,
    retired: u64,
    over: Option<EndCause>,
}

impl Model for EpochState {
    ghost use Rattle.thy_hart.specs.Epoch.{Epoch, IsSoundEpoch};

    ghost Value = { Epoch };

    ghost view = { λ e. record { span = e.span; number = e.number; retired = e.retired; over = e.over } };

    ghost invariant = { λ e. IsSoundEpoch (record { span = e.span; number = e.number; retired = e.retired; over = e.over }) };
}

impl EpochState {
    /// The start of an epoch that has at most `span` instructions.
    pub fn new(span: u64, epoch: u64) -> EpochState
        requires { 0 < span }
        ensures { result ≡ begun span epoch }
    {
        EpochState {
            span,
            number: epoch,
            retired: 0,
            over: None,
        }
    }

    /// The number of the epoch that executes.
    pub fn epoch(&self) -> u64
        ensures { result ≡ self.now.number }
    {
        self.number
    }

    /// How many instructions the epoch has retired.
    pub fn retired(&self) -> u64
        ensures retired { result ≡ self.now.retired }
        ensures within { result ≤ self.now.span }
        ensures going { self.now.over ≡ None → result < self.now.span }
    {
        self.retired
    }

    /// Why the epoch is over, if it is: the program ended, else it has retired its length, or it was exhausted. An epoch
    /// that is over by its length has retired all of it.
    pub fn over(&self) -> Option<EndCause>
        ensures over { result ≡ self.now.over }
        ensures retired { HasRetired self.now.span self.now.retired result }
    {
        self.over
    }

    /// Counts an instruction that retired. The epoch is over if the program does not continue, or if this was its last
    /// instruction.
    pub fn retired_once(&mut self, running: bool)
        requires { self.old.over ≡ None }
        ensures { self.new ≡ retired_once running self.old }
    {
        self.retired += 1;
        if !running {
            self.over = Some(EndCause::Ended);
        } else if self.retired == self.span {
            self.over = Some(EndCause::Length);
        }
    }

    /// Ends the epoch before an instruction that stores into `need` blocks, because fewer than `dirty` + `need` table
    /// entries are free. `dirty` is the number of dirty lines of the cache.
    pub fn exhausted(&mut self, free: u64, dirty: u64, need: u64)
        requires going { self.old.over ≡ None }
        requires short { IsShort free dirty need }
        ensures { self.new ≡ exhausted free dirty need self.old }
    {
        self.over = Some(EndCause::Exhausted { free, dirty, need });
    }

    /// Begins the next epoch. This one must be over.
    pub fn sealed(&mut self)
        requires over { self.old.over ≢ None }
        requires number { self.old.number + 1 < 2 ^ 64 }
        ensures { self.new ≡ next_epoch self.old }
    {
        self.number += 1;
        self.retired = 0;
        self.over = None;
    }
}
