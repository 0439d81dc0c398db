//! Runs with the journal over an NVM that fails at one call, each in turn.
use crate::fault_rows::{BY_JOURNAL, fail_anywhere};

#[test]
fn any_call_may_fail_and_no_write_lands(rt: HostRuntime) {
    fail_anywhere(&rt, rt.alloc(), &BY_JOURNAL, false, false);
}

#[test]
fn any_call_may_fail_and_every_write_lands(rt: HostRuntime) {
    fail_anywhere(&rt, rt.alloc(), &BY_JOURNAL, false, true);
}

#[test]
fn any_call_may_fail_late_and_no_write_lands(rt: HostRuntime) {
    fail_anywhere(&rt, rt.alloc(), &BY_JOURNAL, true, false);
}

#[test]
fn any_call_may_fail_late_and_every_write_lands(rt: HostRuntime) {
    fail_anywhere(&rt, rt.alloc(), &BY_JOURNAL, true, true);
}
