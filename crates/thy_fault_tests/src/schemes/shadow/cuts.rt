//! Runs with shadow paging whose power is cut, once or twice, at each of their cycles.
use crate::schemes::cuts::{
    EXHAUSTS, EXHAUSTS_BY_TWO, FOUR_EPOCHS, PRINTS, cut_everywhere, cut_seven, cut_twice,
};
use crate::schemes::second_cuts::BY_SHADOW;
use crate::second_cuts::cut_loadings;
use crate::support::by_scheme::SHADOW;

#[test]
fn a_cut_anywhere_of_which_no_write_lands(rt: HostRuntime) {
    cut_seven(&rt, rt.alloc(), SHADOW, "0", false);
}

#[test]
fn a_cut_anywhere_of_which_every_write_lands(rt: HostRuntime) {
    cut_seven(&rt, rt.alloc(), SHADOW, "1", true);
}

/// The first draw of seed 7 is 1059165278: even, so that a single write does not land.
#[test]
fn a_cut_anywhere_with_drawn_blocks(rt: HostRuntime) {
    cut_seven(&rt, rt.alloc(), SHADOW, "7", false);
}

#[test]
fn a_text_is_printed_once_and_no_write_lands(rt: HostRuntime) {
    cut_everywhere(&rt, rt.alloc(), SHADOW, &PRINTS, "0");
}

#[test]
fn a_text_is_printed_once_and_every_write_lands(rt: HostRuntime) {
    cut_everywhere(&rt, rt.alloc(), SHADOW, &PRINTS, "1");
}

#[test]
fn a_text_is_printed_once_with_drawn_blocks(rt: HostRuntime) {
    cut_everywhere(&rt, rt.alloc(), SHADOW, &PRINTS, "7");
}

#[test]
fn exhausted_epochs_are_cut_and_no_write_lands(rt: HostRuntime) {
    cut_everywhere(&rt, rt.alloc(), SHADOW, &EXHAUSTS, "0");
}

#[test]
fn exhausted_epochs_are_cut_and_every_write_lands(rt: HostRuntime) {
    cut_everywhere(&rt, rt.alloc(), SHADOW, &EXHAUSTS, "1");
}

#[test]
fn exhausted_epochs_are_cut_with_drawn_blocks(rt: HostRuntime) {
    cut_everywhere(&rt, rt.alloc(), SHADOW, &EXHAUSTS, "7");
}

#[test]
fn four_epochs_are_cut_and_no_write_lands(rt: HostRuntime) {
    cut_everywhere(&rt, rt.alloc(), SHADOW, &FOUR_EPOCHS, "0");
}

#[test]
fn four_epochs_are_cut_and_every_write_lands(rt: HostRuntime) {
    cut_everywhere(&rt, rt.alloc(), SHADOW, &FOUR_EPOCHS, "1");
}

#[test]
fn four_epochs_are_cut_with_drawn_blocks(rt: HostRuntime) {
    cut_everywhere(&rt, rt.alloc(), SHADOW, &FOUR_EPOCHS, "7");
}

#[test]
fn stores_to_two_blocks_are_cut_with_drawn_blocks(rt: HostRuntime) {
    cut_everywhere(&rt, rt.alloc(), SHADOW, &EXHAUSTS_BY_TWO, "7");
}

/// Recovery reads the commit block, the header and six blocks of the slot, one a cycle.
#[test]
fn a_second_cut_falls_into_recovery(rt: HostRuntime) {
    cut_twice(&rt, rt.alloc(), SHADOW, &EXHAUSTS, 6, "7,0");
}

/// After the restart the page is copied again.
#[test]
fn a_second_cut_falls_into_copies(rt: HostRuntime) {
    cut_twice(&rt, rt.alloc(), SHADOW, &EXHAUSTS, 60, "7,9");
}

#[test]
fn a_loading_is_cut_at_each_of_its_cycles(rt: HostRuntime) {
    cut_loadings(&rt, rt.alloc(), &BY_SHADOW);
}
