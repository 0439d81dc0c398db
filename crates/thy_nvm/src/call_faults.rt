//! Which calls of a device fail, and how.
ghost use Rattle.std.specs.Prelude.{◌≡◌, [], IfOk};
ghost use Rattle.thy_nvm.specs.Calls.{no_calls, counted, next_fault, is_listed};

use std::alloc::{AllocError, Global};
use std::marker::Model;

/// How a call fails.
#[derive(Clone, Copy, Debug, PartialEq, Eq)]
pub(crate) enum Fault {
    /// The call does nothing.
    Undone,
    /// The call is done, a barrier by half.
    Late,
}

/// Counts the calls of a device, and knows the numbers of those that fail.
#[derive(Drop)]
pub(crate) struct CallFaults {
    // Saturates.
    made: u64,
    failing: Vec<u64>,
    late: Vec<u64>,
}

impl Model for CallFaults {
    ghost use Rattle.thy_nvm.specs.Calls.{Calls, calls_in};

    ghost Value = { Calls };

    ghost view = { λ c. calls_in c.made c.failing.items c.late.items };
}

impl CallFaults {
    /// A count at 0, by which no call fails. Allocates nothing.
    pub(crate) fn none(alloc: Global) -> CallFaults
        ensures { result ≡ no_calls [] [] }
    {
        CallFaults {
            made: 0,
            failing: Vec::new(alloc),
            late: Vec::new(alloc),
        }
    }

    /// A count at 0, by which the calls of these numbers do nothing and fail. Numbers begin at 1. Fails if memory runs out.
    pub(crate) fn failing(alloc: Global, numbers: &[u64]) -> Result<CallFaults, AllocError>
        ensures { IfOk result (λ c. c ≡ no_calls numbers.now []) }
    {
        let failing = Vec::from_slice(alloc, numbers)?;
        Ok(CallFaults {
            made: 0,
            failing,
            late: Vec::new(alloc),
        })
    }

    /// A count at 0, by which the calls of these numbers fail after they are done. Numbers begin at 1. Fails if memory runs out.
    pub(crate) fn late(alloc: Global, numbers: &[u64]) -> Result<CallFaults, AllocError>
        ensures { IfOk result (λ c. c ≡ no_calls [] numbers.now) }
    {
        let late = Vec::from_slice(alloc, numbers)?;
        Ok(CallFaults {
            made: 0,
            failing: Vec::new(alloc),
            late,
        })
    }

    /// How many calls were counted. The count saturates at `2^64 - 1`.
    pub(crate) fn made(&self) -> u64
        ensures { result ≡ self.now.made }
    {
        self.made
    }

    /// Counts a call, and returns its fault, None if it succeeds.
    #[inline(always)]
    pub(crate) fn next(&mut self) -> Option<Fault>
        ensures fault { result ≡ next_fault self.old }
        ensures counted { self.new ≡ counted self.old }
    {
        self.made = self.made.saturating_add(1);
        if lists(&self.failing, self.made) {
            Some(Fault::Undone)
        } else if lists(&self.late, self.made) {
            Some(Fault::Late)
        } else {
            None
        }
    }
}

/// Whether a number is listed. Mostly none is.
#[inline(always)]
fn lists(numbers: &[u64], number: u64) -> bool
    ensures { result ≡ is_listed number numbers.now }
{
    !numbers.is_empty() && contains(numbers, number)
}

/// Whether a number is one of some.
#[inline(never)]
fn contains(numbers: &[u64], number: u64) -> bool
    ensures { result ≡ is_listed number numbers.now }
{
    numbers.contains(&number)
}
