//! A round: what a checkpoint's blocks and its commit block take, one action a cycle.
ghost use Rattle.std.specs.Prelude.{◌≡◌};
ghost use Rattle.thy_computer.specs.Round.{IsInRound, next_round};

/// What a round does next. In docs/CONTROLLER.md the writes are actions 3 and 4 of a checkpoint, the others 5, 6 and 7.
#[derive(Clone, Copy, Debug, PartialEq, Eq)]
pub enum Round {
    /// The write of this block of the checkpoint.
    Write(u64),
    /// The barrier after all of these.
    Settle,
    /// The write of the commit block.
    Commit,
    /// The barrier after the commit block.
    Confirm,
}

impl Round {
    /// What comes next in a round that writes this number of blocks; after the last barrier nothing does.
    pub fn next(self, blocks: u64) -> Option<Round>
        requires { IsInRound blocks self }
        ensures { result ≡ next_round blocks self }
    {
        match self {
            Round::Write(k) if k + 1 < blocks => Some(Round::Write(k + 1)),
            Round::Write(_) => Some(Round::Settle),
            Round::Settle => Some(Round::Commit),
            Round::Commit => Some(Round::Confirm),
            Round::Confirm => None,
        }
    }
}
