//! What environment calls do, worked out by hand.

use crate::support::expect::expect_at;
use thy_isa::{Call, CallState, Reg, Regs, call};

// The negatives of the numbers of errors.
const BAD_DESCRIPTOR: Call = Call::Answer(0xffff_ffff_ffff_fff7);

const BAD_ADDRESS: Call = Call::Answer(0xffff_ffff_ffff_fff2);

const NO_SPACE: Call = Call::Answer(0xffff_ffff_ffff_ffe4);

const NO_SUCH_CALL: Call = Call::Answer(0xffff_ffff_ffff_ffda);

/// A number, a0 to a2, how many bytes of the input were read and how many more the console takes; and
/// what the call does.
type Row = (u64, [u64; 3], u64, u64, Call);

/// In a memory of 255 pages from 65536 on, so before 1110016, with a first stack pointer of 1109760, an
/// input of 100 bytes, a floor of 65552 and the break at 70000.
static ROWS: [Row; 26] = [
    (
        64,
        [1, 65536, 100],
        0,
        4096,
        Call::Give { at: 65536, len: 64 },
    ),
    (
        64,
        [2, 65600, 36],
        0,
        4032,
        Call::Give { at: 65600, len: 36 },
    ),
    (64, [1, 65536, 5], 0, 1, Call::Give { at: 65536, len: 1 }),
    (64, [1, 65536, 5], 0, 0, NO_SPACE),
    (64, [1, 0, 5], 0, 0, NO_SPACE),
    (64, [1, 0, 0], 0, 0, Call::Answer(0)),
    (64, [1, 1110015, 2], 0, 4096, BAD_ADDRESS),
    (
        64,
        [1, 1110015, 2],
        0,
        1,
        Call::Give {
            at: 1110015,
            len: 1,
        },
    ),
    (64, [1, u64::MAX, 64], 0, 4096, BAD_ADDRESS),
    (64, [3, 65536, 5], 0, 4096, BAD_DESCRIPTOR),
    (64, [3, 65536, 0], 0, 4096, BAD_DESCRIPTOR),
    (64, [0, 65536, 0], 0, 0, BAD_DESCRIPTOR),
    (
        63,
        [0, 65536, 1000],
        0,
        0,
        Call::Take { at: 65536, len: 64 },
    ),
    (
        63,
        [0, 1110012, 64],
        96,
        0,
        Call::Take {
            at: 1110012,
            len: 4,
        },
    ),
    (63, [0, 1110014, 64], 96, 0, BAD_ADDRESS),
    (63, [0, 0, 64], 100, 0, Call::Answer(0)),
    (63, [0, 0, 0], 0, 0, Call::Answer(0)),
    (63, [1, 65536, 64], 0, 0, BAD_DESCRIPTOR),
    (93, [256, 0, 0], 0, 0, Call::Exit(0)),
    (94, [511, 0, 0], 0, 0, Call::Exit(255)),
    (214, [65552, 0, 0], 0, 0, Call::Break(65552)),
    (214, [65551, 0, 0], 0, 0, Call::Answer(70000)),
    (214, [1044224, 0, 0], 0, 0, Call::Break(1044224)),
    (214, [1044225, 0, 0], 0, 0, Call::Answer(70000)),
    (214, [u64::MAX, 0, 0], 0, 0, Call::Answer(70000)),
    (1000, [1, 65536, 5], 0, 4096, NO_SUCH_CALL),
];

fn called(number: u64, arguments: &[u64; 3], cursor: u64, room: u64) -> Call {
    let mut regs = Regs::new();
    regs.set(Reg::new(17), number);
    regs.set(Reg::new(10), arguments[0]);
    regs.set(Reg::new(11), arguments[1]);
    regs.set(Reg::new(12), arguments[2]);
    let state = CallState {
        cursor,
        input_len: 100,
        console_len: 0,
        room,
        base: 65536,
        size: 1044480,
        floor: 65552,
        brk: 70000,
    };
    call(&regs, &state)
}

#[test]
fn each_call_does_what_is_due(rt: HostRuntime) {
    for (row, (number, arguments, cursor, room, want)) in ROWS.iter().enumerate() {
        let got = called(*number, arguments, *cursor, *room);
        expect_at(&rt, got, *want, row);
    }
}
