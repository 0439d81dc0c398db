//! The instruction in hand, and how a step ends.
#![tactic(auto, unfolding(crate::specs::Outcomes::begun, crate::specs::Outcomes::written_on))]

ghost use Rattle.std.specs.Prelude.{◌≡◌, Option};
ghost use Rattle.thy_block.specs.declared.cause.EndCause.{EndCause};
ghost use Rattle.thy_hart.specs.MicroSteps.{EndsBy, micro_step};
ghost use Rattle.thy_hart.specs.Outcomes.{begun, written_on};
ghost use Rattle.thy_hart.specs.HartState.{blocks_of};

use thy_block::{EndCause, Span};
use thy_isa::Effect;

/// What the hart does next of the instruction in hand. A span that it names has bytes, at most 64, in one or
/// two blocks of memory; the first of these is next.
#[derive(Clone, Copy, Debug, PartialEq, Eq)]
pub enum Hand {
    /// No instruction is in hand: the next one is fetched, step 1 of an instruction in docs/CONTROLLER.md.
    Nothing,
    /// The effect reads the bytes at `from`, and will write at `to`, if that has bytes: step 2.
    Reading {
        effect: Effect,
        from: Span,
        to: Span,
    },
    /// The instruction secures room for the blocks that it will write: step 3.
    Securing {
        effect: Effect,
        to: Span,
    },
    /// The instruction writes at `to`, after `done` bytes that it has written: step 4.
    Writing {
        effect: Effect,
        to: Span,
        done: u64,
    },
    /// The instruction retires, and has written a block or has not: step 5.
    Retiring {
        effect: Effect,
        wrote: bool,
    },
}

/// How a step of the hart ended.
#[derive(Clone, Copy, Debug, PartialEq, Eq)]
pub enum HartStep {
    /// The instruction in hand is a step further, or a line was brought.
    Moved,
    /// The instruction retired, and the epoch continues.
    Retired,
    /// Too few table entries are free until the checkpoint that is under way is committed. Nothing was done.
    Waiting,
    /// The epoch is over: after the instruction, which retired, or before it if too few entries are free.
    Over(EndCause),
}

/// The outcome of the next micro-step.
#[derive(Clone, Copy, Debug, PartialEq, Eq)]
pub(crate) enum MicroStep {
    /// The line of this block, which it touches, is missing. Nothing was done.
    Missing(u64),
    /// The micro-step was taken, and the step of the hart ends so.
    Taken(HartStep),
}

/// The outcome of a micro-step that a function of its own took, as a rare one is. It has no cause for which an epoch is over, so
/// that it fits into two registers: an answer in memory would be cleared in each cycle.
#[derive(Clone, Copy, Debug, PartialEq, Eq)]
pub(crate) enum ShortStep {
    /// The line of this block, which it touches, is missing. Nothing was done.
    Missing(u64),
    /// The instruction is a step further.
    Moved,
    /// Too few table entries are free. Nothing was done.
    Waiting,
    /// The instruction retired, or the epoch is over, or both: the epoch says which.
    Ended,
}

impl MicroStep {
    /// This, without the cause for which the epoch is over.
    pub(crate) fn short(self) -> ShortStep
        ensures { (over : Option EndCause) → EndsBy self over → micro_step result over ≡ self }
    {
        match self {
            MicroStep::Missing(b) => ShortStep::Missing(b),
            MicroStep::Taken(HartStep::Moved) => ShortStep::Moved,
            MicroStep::Taken(HartStep::Waiting) => ShortStep::Waiting,
            MicroStep::Taken(HartStep::Retired | HartStep::Over(_)) => ShortStep::Ended,
        }
    }
}

/// What an effect does that still has to read at `from`, if that has bytes, and to write at `to`.
pub(crate) fn begun(effect: Effect, from: Span, to: Span) -> Hand
    ensures { result ≡ begun effect from to }
{
    if !from.is_empty() {
        Hand::Reading { effect, from, to }
    } else if !to.is_empty() {
        Hand::Securing { effect, to }
    } else {
        Hand::Retiring {
            effect,
            wrote: false,
        }
    }
}

/// What an effect does that has written `done` bytes and still has to write at `to`, if that has bytes.
pub(crate) fn written_on(effect: Effect, to: Span, done: u64) -> Hand
    ensures { result ≡ written_on effect to done }
{
    if to.is_empty() {
        Hand::Retiring {
            effect,
            wrote: true,
        }
    } else {
        Hand::Writing { effect, to, done }
    }
}
