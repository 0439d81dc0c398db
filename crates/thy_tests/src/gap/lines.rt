//! The places of lines.
ghost use Rattle.std.specs.Prelude.{◌≡◌, length};

use crate::gap::steps::{block_of, four_lines, step};
use crate::support::expect::{expect, expect_at};
use std::process::Abort;
use thy_base::Nvm;
use thy_gap::{Gap, Registers};
use thy_nvm::MemNvm;

/// The lines are at these places.
fn expect_places(rt: &impl Abort, gap: &Gap<MemNvm>, want: [u64; 4])
    requires { length (⟦<Gap<MemNvm> as Nvm>⟧.device gap.now).image ≡ 4 }
{
    for line in 0..4 {
        expect_at(rt, gap.place(line), want[line as usize], line);
    }
}

#[test]
fn lines_move_one_after_another(rt: HostRuntime) {
    let mut gap = four_lines(&rt, rt.alloc(), MemNvm::new(rt.alloc()));
    expect_places(&rt, &gap, [0, 1, 2, 3]);
    step(&mut gap, 0).expect(&rt, "a step");
    expect_places(&rt, &gap, [0, 1, 2, 4]);
    step(&mut gap, 1).expect(&rt, "a step");
    step(&mut gap, 2).expect(&rt, "a step");
    step(&mut gap, 3).expect(&rt, "a step");
    expect_places(&rt, &gap, [1, 2, 3, 4]);
    step(&mut gap, 4).expect(&rt, "a step");
    expect_places(&rt, &gap, [1, 2, 3, 0]);
    let registers = Registers {
        lines: 4,
        start: 1,
        gap: 4,
    };
    expect(&rt, gap.registers(), registers);
    // Line 0 was written again by the last step. Each step has made three writes: its own, a copy, the registers.
    expect(&rt, gap.read(0).expect(&rt, "a read"), block_of(4));
    expect(&rt, gap.read(3).expect(&rt, "a read"), block_of(3));
    expect(&rt, gap.writes(), 15);
}

// A move can change two words of the registers' block, which a cut may tear there.
#[test]
fn over_a_device_that_tears_no_line_moves(rt: HostRuntime) {
    let mut gap = four_lines(&rt, rt.alloc(), MemNvm::tearing(rt.alloc()));
    step(&mut gap, 0).expect(&rt, "a step");
    step(&mut gap, 1).expect(&rt, "a step");
    expect_places(&rt, &gap, [0, 1, 2, 3]);
    expect(&rt, gap.registers(), Registers::unmoved(4));
    expect(&rt, gap.writes(), 2);
}

/// The last call of the first step, a barrier, fails with the registers queued. A cut that drops them leaves the move
/// still to be made; a cut that lets them land completes it, and the next barrier moves nothing. Either way one line
/// has moved then.
#[test]
fn a_cut_that_completes_a_move_counts_the_writes_anew(rt: HostRuntime) {
    for pick in [0, 1] {
        let inner = MemNvm::failing(rt.alloc(), &[7]).expect(&rt, "memory");
        let mut gap = four_lines(&rt, rt.alloc(), inner);
        expect(&rt, step(&mut gap, 0).is_err(), true);
        gap.cut(pick);
        gap.barrier().expect(&rt, "a barrier");
        expect_places(&rt, &gap, [0, 1, 2, 4]);
    }
}
