//! The store counts of three pages.
use crate::support::expect::expect;
use thy_base::Block;
use thy_table::Counts;

#[test]
fn pages_are_counted_to_63(rt: HostRuntime) {
    let mut counts = Counts::new(rt.alloc(), 3, 2, 2).expect(&rt, "memory");
    counts.count(1);
    counts.count(1);
    expect(&rt, counts.count_of(1), 2);
    expect(&rt, counts.is_dense(1), false);
    expect(&rt, counts.is_low(0), true);
    expect(&rt, counts.is_low(1), false);
    counts.count(1);
    expect(&rt, counts.is_dense(0), false);
    expect(&rt, counts.is_dense(1), true);
    counts.reset();
    expect(&rt, counts.is_dense(1), false);
    expect(&rt, counts.count_of(1), 0);
}

// A page of three stores is low after two seals, not after one.
#[test]
fn counts_of_the_epoch_before_are_kept(rt: HostRuntime) {
    let mut counts = Counts::new(rt.alloc(), 3, 2, 2).expect(&rt, "memory");
    counts.count(1);
    counts.count(1);
    counts.count(1);
    expect(&rt, counts.last(1), 0);
    counts.reset();
    expect(&rt, counts.last(1), 3);
    expect(&rt, counts.is_low(0), true);
    expect(&rt, counts.is_low(1), false);
    counts.reset();
    expect(&rt, counts.last(1), 0);
    expect(&rt, counts.is_low(1), true);
}

// A byte a page, and zeros past the last one.
#[test]
fn counts_of_the_epoch_before_are_bytes_of_a_block(rt: HostRuntime) {
    let mut counts = Counts::new(rt.alloc(), 3, 2, 2).expect(&rt, "memory");
    counts.set_last(0, 1);
    counts.set_last(2, 63);
    let mut want = [0; 64];
    want[0] = 1;
    want[2] = 63;
    expect(&rt, counts.last_block(0), Block(want));
    expect(&rt, counts.is_low(2), false);
}
