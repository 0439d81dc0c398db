//! An epoch of two instructions.
use crate::support::expect::expect;
use thy_base::EndCause;
use thy_hart::EpochState;

#[test]
fn an_epoch_ends_by_length_by_want_of_entries_and_by_the_end(rt: HostRuntime) {
    let mut epoch = EpochState::new(2, 7);
    epoch.retired_once(true);
    expect(&rt, epoch.over(), None);
    epoch.retired_once(true);
    expect(&rt, epoch.over(), Some(EndCause::Length));
    expect(&rt, epoch.retired(), 2);
    epoch.sealed();
    expect(&rt, epoch.epoch(), 8);
    expect(&rt, epoch.retired(), 0);
    epoch.exhausted(8, 8, 1);
    let exhausted = EndCause::Exhausted {
        free: 8,
        dirty: 8,
        need: 1,
    };
    expect(&rt, epoch.over(), Some(exhausted));
    epoch.sealed();
    epoch.retired_once(true);
    epoch.retired_once(false);
    expect(&rt, epoch.over(), Some(EndCause::Ended));
}
