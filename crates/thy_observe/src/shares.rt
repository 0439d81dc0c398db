//! What each hart did: the instructions that it retired, and the cycles within these.
ghost use Rattle.std.specs.Prelude.{◌≡◌, ◌+◌, ◌-◌, ◌^◌, ◌<◌};
ghost use Rattle.thy_observe.specs.Shares.{nobodys, with_one, retired_by, dropped, shares_after_step, shares_after_cut, AreOf, SharesAddUp};

use thy_computer::Did;

/// What a hart did.
#[derive(Clone, Copy, Debug, PartialEq, Eq, Drop)]
pub struct Share {
    /// The cycles in which the hart moved on within instructions that it retired later.
    pub moved: u64,
    /// The instructions that the hart retired.
    pub retired: u64,
}

/// What each hart did; and the moves of the instruction in hand, which are no hart's yet.
#[derive(Clone, Copy, Debug, PartialEq, Eq, Drop)]
pub struct Shares {
    pub first: Share,
    pub second: Share,
    pub in_hand: u64,
}

/// The shares while no hart has done anything.
pub(crate) fn nobodys() -> Shares
    ensures { result ≡ nobodys }
{
    let none = Share {
        moved: 0,
        retired: 0,
    };
    Shares {
        first: none,
        second: none,
        in_hand: 0,
    }
}

/// A share with an instruction more, and with the moves before it.
fn with_one(moves: u64, share: Share) -> Share
    requires moved { share.moved + moves < 2 ^ 64 }
    requires retired { share.retired < 2 ^ 64 - 1 }
    ensures { result ≡ with_one moves share }
{
    Share {
        moved: share.moved + moves,
        retired: share.retired + 1,
    }
}

/// A hart has retired the instruction in hand: its moves are that hart's.
fn retired_by(hart: u32, shares: Shares) -> Shares
    requires { AreOf shares (2 ^ 64 - 2) }
    ensures { result ≡ retired_by hart shares }
{
    if hart == 0 {
        Shares {
            first: with_one(shares.in_hand, shares.first),
            second: shares.second,
            in_hand: 0,
        }
    } else {
        Shares {
            first: shares.first,
            second: with_one(shares.in_hand, shares.second),
            in_hand: 0,
        }
    }
}

/// The shares after the instruction in hand is dropped: its moves count for no hart.
fn dropped(shares: Shares) -> Shares
    ensures { result ≡ dropped shares }
{
    Shares {
        in_hand: 0,
        ..shares
    }
}

/// What each hart did after a step.
pub(crate) fn shares_after_step(shares: Shares, did: Did) -> Shares
    requires { AreOf shares (2 ^ 64 - 2) }
    ensures { result ≡ shares_after_step shares did }
{
    match did {
        Did::Moved => Shares {
            in_hand: shares.in_hand + 1,
            ..shares
        },
        Did::Retired(hart) => retired_by(hart, shares),
        Did::Sealed(..) => dropped(shares),
        _ => shares,
    }
}

/// What each hart did after the cut that may fall after the step: the instruction in hand is dropped.
pub(crate) fn shares_after_cut(shares: Shares, fell: bool) -> Shares
    ensures { result ≡ shares_after_cut shares fell }
{
    if fell { dropped(shares) } else { shares }
}

/// The shares of both harts add up to the instructions, and to no more than the moves.
pub fn shares_add_up()
    ensures { SharesAddUp }
{}
