//! Runs over an NVM whose blocks may be torn.

use super::{EXIT_SEVEN, Given, called_over, check, has_line, shelf_of};
use std::alloc::Global;
use std::process::Abort;
use thy_nvm::MemNvm;

/// Calls with an NVM whose blocks may tear, with the status.
static MAY_TEAR: [(&str, u8); 10] = [
    ("thynvm --torn plain F --pages 8", 2),
    ("thynvm --torn run F --pages 8 --gap 5", 2),
    ("thynvm --torn bench 7 --gap 5", 2),
    ("thynvm --torn resume F --gap 5", 2),
    ("thynvm --torn --torn run F", 2),
    ("thynvm --torn --pcs --torn run F", 2),
    ("thynvm run F --torn", 2),
    (
        "thynvm --torn run F --pages 8 --btt 8 --ptt 8 --cuts 100,705 --tears 5,6",
        0,
    ),
    ("thynvm --torn --pcs run F --pages 8 --btt 8 --ptt 8", 0),
    ("thynvm --pcs --torn run F --pages 8 --btt 8 --ptt 8", 0),
];

/// What a call gives over a device whose blocks may tear.
fn called_tearing(rt: &impl Abort, alloc: Global, line: &str) -> Given {
    let mut shelf = shelf_of(rt, alloc, &EXIT_SEVEN, &[]);
    called_over(rt, alloc, "O", line, &mut shelf, MemNvm::tearing(alloc))
}

/// Something is put exactly if the call is not refused.
fn may_tear(rt: &impl Abort, alloc: Global, line: &str, status: u8) {
    let given = called_tearing(rt, alloc, line);
    check(rt, given.status == status, line);
    check(rt, given.is_put == (status == 0), line);
}

#[test]
fn torn_blocks_are_for_runs_without_a_gap(rt: HostRuntime) {
    for (line, status) in &MAY_TEAR {
        may_tear(&rt, rt.alloc(), line, *status);
    }
}

/// Cuts after the cycle in which a commit block was written, and what they lead to. By the rules of docs/CONTROLLER.md these
/// are cycle 698 for epoch 0 and cycle 721 for epoch 1, nothing else is queued then, and recovery takes ten cycles. With the
/// seed 90 the first four words land and no other, with 414 the last four, with 513 word 1 alone, and with 672 word 0. Word 0
/// has the name, which decides for epoch 0, and word 1 the epoch, which decides for epoch 1.
static TORN: [(&str, &str); 8] = [
    ("698 --tears 90", "708 0 restart 0 at 0"),
    ("698 --tears 414", "699 0 reload"),
    ("698 --tears 672", "708 0 restart 0 at 0"),
    ("698 --tears 513", "699 0 reload"),
    ("721 --tears 90", "731 3 restart 1 at 3"),
    ("721 --tears 414", "731 0 restart 0 at 0"),
    ("721 --tears 672", "731 0 restart 0 at 0"),
    ("721 --tears 513", "731 3 restart 1 at 3"),
];

/// A cut of the commit block leads to this event.
fn tears(rt: &impl Abort, alloc: Global, cut: &str, event: &str) {
    let line = format!(in alloc;
        "thynvm --torn run F --pages 8 --btt 8 --ptt 8 --cuts {cut}"
    ).expect(rt, "memory");
    let given = called_tearing(rt, alloc, line.as_str());
    check(rt, given.status == 0, cut);
    check(rt, has_line(given.put.as_slice(), event), cut);
}

#[test]
fn a_torn_commit_block_is_the_old_one_or_the_new_one(rt: HostRuntime) {
    for (cut, event) in &TORN {
        tears(&rt, rt.alloc(), cut, event);
    }
}
