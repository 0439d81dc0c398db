//! The machine over the scheme that waits: a program of two epochs, cut after every cycle, and how many barriers come
//! before the hart continues.
use crate::WaitingScheme;
use crate::machine::{
    Booted, MOST, Powered, Row, boot, committed_in, plain_machines, survives_once_loaded, uncut,
};
use crate::support::expect::{expect, expect_at};
use std::alloc::Global;
use std::process::Abort;
use thy_base::EndCause;
use thy_computer::Did;
use thy_core::Machine;
use thy_isa::Status;
use thy_layout::EngineStep;
use thy_test_support::HELLO;

/// A program that prints in its first epoch, and ends in its second.
pub(super) static TWO_EPOCHS: Row = Row {
    words: HELLO,
    epoch: 6,
    cache: (16, 4),
    ends: &[(6, EndCause::Length), (8, EndCause::Ended)],
    overlapped: &[0, 0],
    status: Status::Exited(3),
};

/// What a machine reported of the barriers after commits and restarts.
#[derive(Drop)]
struct Waits {
    /// An epoch is sealed, and not committed.
    sealed: bool,
    /// The barriers so far after a commit or a restart, until the hart continues.
    behind: Option<u64>,
    /// How many barriers there were each time that the hart continued.
    counts: Vec<u64>,
}

impl Waits {
    /// The waits after a boot with this result.
    fn from(alloc: Global, booted: Booted) -> Waits {
        Waits {
            sealed: false,
            behind: if booted.found.is_some() {
                Some(0)
            } else {
                None
            },
            counts: Vec::new(alloc),
        }
    }

    /// The engine took a step: one of a checkpoint, or a barrier after one.
    fn engine(&mut self, rt: &impl Abort, step: EngineStep) {
        match self.behind {
            Some(count) => {
                expect(rt, step, EngineStep::Barrier);
                self.behind = Some(count.saturating_add(1));
            }
            None => expect(rt, self.sealed, true),
        }
    }

    /// The hart continues, with no checkpoint under way.
    fn goes_on(&mut self, rt: &impl Abort) {
        expect(rt, self.sealed, false);
        if let Some(count) = self.behind {
            self.counts.push(count).expect(rt, "memory");
            self.behind = None;
        }
    }

    /// Notes what a cycle did.
    fn note(&mut self, rt: &impl Abort, did: Did) {
        match did {
            Did::NvmDrained | Did::DramDrained => {}
            Did::Engine(step) => self.engine(rt, step),
            Did::Committed { overlapped, .. } => {
                expect(rt, overlapped, 0);
                self.sealed = false;
                self.behind = Some(0);
            }
            Did::Sealed(_, _, _) => {
                self.goes_on(rt);
                self.sealed = true;
            }
            _ => self.goes_on(rt),
        }
    }
}

/// Takes cycles until the machine halts, and counts the barriers before the hart continues after the boot and each commit.
fn barriers(rt: &impl Abort, alloc: Global, on: &mut Powered<Machine<WaitingScheme>>) -> Vec<u64> {
    let booted = boot(rt, on);
    let mut waits = Waits::from(alloc, booted);
    for _ in 0..MOST {
        let stepped = on.step(rt);
        waits.note(rt, stepped.did);
        if stepped.ended {
            return waits.counts;
        }
    }
    panic!(rt; "no end")
}

/// Counts them in a run without cuts by the schedule of a seed, and after a cut in each of its epochs.
fn three_each(rt: &impl Abort, alloc: Global, seed: u64) {
    let plains = plain_machines(rt, alloc, &TWO_EPOCHS);
    let whole = uncut::<Machine<WaitingScheme>>(rt, alloc, &TWO_EPOCHS, seed, &plains);
    let mut on = Powered::new(rt, alloc, &TWO_EPOCHS, seed);
    let counts = barriers(rt, alloc, &mut on);
    expect_at(rt, counts.as_slice(), &[3], seed);
    for (epoch, want) in [(0, [3, 3].as_slice()), (1, [3].as_slice())] {
        let mut before = Powered::new(rt, alloc, &TWO_EPOCHS, seed);
        for _ in 0..committed_in(rt, &whole, epoch) {
            before.step(rt);
        }
        let mut on = before.cut(rt, alloc, 1);
        let counts = barriers(rt, alloc, &mut on);
        expect_at(rt, counts.as_slice(), want, seed);
    }
}

#[test]
fn three_barriers_come_behind_each_commit_and_restart(rt: HostRuntime) {
    for seed in 0..8 {
        three_each(&rt, rt.alloc(), seed);
    }
}

#[test]
fn two_epochs_over_the_scheme_that_waits_survive_every_cut(rt: HostRuntime) {
    for seed in 0..8 {
        survives_once_loaded::<Machine<WaitingScheme>>(&rt, rt.alloc(), &TWO_EPOCHS, seed);
    }
}
