//! Runs with the journal whose power is cut, once or twice, at each of their cycles.
use crate::schemes::cuts::{
    EXHAUSTS, EXHAUSTS_BY_TWO, FOUR_EPOCHS, PRINTS, cut_everywhere, cut_seven, cut_twice,
};
use crate::schemes::second_cuts::BY_JOURNAL;
use crate::second_cuts::cut_loadings;
use crate::support::by_scheme::JOURNAL;

#[test]
fn a_cut_anywhere_of_which_no_write_lands(rt: HostRuntime) {
    cut_seven(&rt, rt.alloc(), JOURNAL, "0", false);
}

#[test]
fn a_cut_anywhere_of_which_every_write_lands(rt: HostRuntime) {
    cut_seven(&rt, rt.alloc(), JOURNAL, "1", true);
}

/// The first draw of seed 7 is 1059165278: even, so that a single write does not land.
#[test]
fn a_cut_anywhere_with_drawn_blocks(rt: HostRuntime) {
    cut_seven(&rt, rt.alloc(), JOURNAL, "7", false);
}

#[test]
fn a_text_is_printed_once_and_no_write_lands(rt: HostRuntime) {
    cut_everywhere(&rt, rt.alloc(), JOURNAL, &PRINTS, "0");
}

#[test]
fn a_text_is_printed_once_and_every_write_lands(rt: HostRuntime) {
    cut_everywhere(&rt, rt.alloc(), JOURNAL, &PRINTS, "1");
}

#[test]
fn a_text_is_printed_once_with_drawn_blocks(rt: HostRuntime) {
    cut_everywhere(&rt, rt.alloc(), JOURNAL, &PRINTS, "7");
}

#[test]
fn exhausted_epochs_are_cut_and_no_write_lands(rt: HostRuntime) {
    cut_everywhere(&rt, rt.alloc(), JOURNAL, &EXHAUSTS, "0");
}

#[test]
fn exhausted_epochs_are_cut_and_every_write_lands(rt: HostRuntime) {
    cut_everywhere(&rt, rt.alloc(), JOURNAL, &EXHAUSTS, "1");
}

#[test]
fn exhausted_epochs_are_cut_with_drawn_blocks(rt: HostRuntime) {
    cut_everywhere(&rt, rt.alloc(), JOURNAL, &EXHAUSTS, "7");
}

#[test]
fn four_epochs_are_cut_and_no_write_lands(rt: HostRuntime) {
    cut_everywhere(&rt, rt.alloc(), JOURNAL, &FOUR_EPOCHS, "0");
}

#[test]
fn four_epochs_are_cut_and_every_write_lands(rt: HostRuntime) {
    cut_everywhere(&rt, rt.alloc(), JOURNAL, &FOUR_EPOCHS, "1");
}

#[test]
fn four_epochs_are_cut_with_drawn_blocks(rt: HostRuntime) {
    cut_everywhere(&rt, rt.alloc(), JOURNAL, &FOUR_EPOCHS, "7");
}

#[test]
fn stores_that_need_two_entries_are_cut_with_drawn_blocks(rt: HostRuntime) {
    cut_everywhere(&rt, rt.alloc(), JOURNAL, &EXHAUSTS_BY_TWO, "7");
}

/// Recovery reads the commit block, the header, six blocks of the slot and up to eight of the journal, one a cycle.
#[test]
fn a_second_cut_falls_into_recovery(rt: HostRuntime) {
    cut_twice(&rt, rt.alloc(), JOURNAL, &EXHAUSTS, 9, "7,0");
}

/// The journal is applied again after the restart.
#[test]
fn a_second_cut_falls_into_application(rt: HostRuntime) {
    cut_twice(&rt, rt.alloc(), JOURNAL, &EXHAUSTS, 22, "7,9");
}

#[test]
fn a_loading_is_cut_at_each_of_its_cycles(rt: HostRuntime) {
    cut_loadings(&rt, rt.alloc(), &BY_JOURNAL);
}
