//! The cycles in which events were made, and how many instructions were retired by then.
ghost use Rattle.std.specs.Prelude.{◌≡◌, ◌-◌, ◌^◌};
ghost use Rattle.thy_observe.specs.EventCycles.{retired_after_step, retired_after_cut, IsShort};

use thy_computer::Did;

/// A count of retired instructions: where the run began or was restored last, and how many were retired since.
#[derive(Clone, Copy, Debug, PartialEq, Eq, Drop)]
pub struct RetiredCount {
    pub from: u64,
    pub since: u64,
}

/// A cycle in which events were made.
#[derive(Clone, Copy, Debug, PartialEq, Eq, Drop)]
pub struct EventCycle {
    pub cycle: u64,
    /// How many instructions are retired after the cycle's step; None in a boot.
    pub retired: Option<RetiredCount>,
    /// How many events were made in the cycle.
    pub reported: usize,
    /// Whether a cut fell after the cycle.
    pub fell: bool,
}

/// How many instructions are retired after a step that did this, from how many were before it; None in a boot.
pub(crate) fn retired_after_step(retired: Option<RetiredCount>, did: Did) -> Option<RetiredCount>
    requires { IsShort retired (2 ^ 64 - 1) }
    ensures { result ≡ retired_after_step retired did }
{
    match (did, retired) {
        (Did::Loaded, _) => Some(RetiredCount { from: 0, since: 0 }),
        (Did::Restarted(_, count), _) => Some(RetiredCount {
            from: count,
            since: 0,
        }),
        (Did::Retired(_), Some(RetiredCount { from, since })) => Some(RetiredCount {
            from,
            since: since + 1,
        }),
        _ => retired,
    }
}

/// How many instructions are retired after the cut that may fall after a step: None after one, as a boot follows.
pub(crate) fn retired_after_cut(retired: Option<RetiredCount>, fell: bool) -> Option<RetiredCount>
    ensures { result ≡ retired_after_cut retired fell }
{
    if fell { None } else { retired }
}
