//! The memory that a cut fills with draws.
use crate::support::expect::expect;
use thy_base::Block;
use thy_dram::Dram;

// The low bytes of the draws of the seed 1, counted from 1: the 1st is 214 and the 128th 88.
#[test]
fn memory_is_lost_to_the_draws(rt: HostRuntime) {
    let mut dram = Dram::new(rt.alloc(), 2, 1).expect(&rt, "memory");
    dram.write(0, &Block([5; 64]));
    dram.write(1, &Block([6; 64]));
    expect(&rt, dram.queued(), 1);
    expect(&rt, dram.read(0), Block([5; 64]));
    dram.drain();
    expect(&rt, dram.read(1), Block([6; 64]));
    dram.cut(1);
    expect(&rt, dram.queued(), 0);
    expect(&rt, dram.read(0).0[0], 214);
    expect(&rt, dram.read(1).0[63], 88);
}
