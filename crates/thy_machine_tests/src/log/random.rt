//! Random calls of log, engine and boot of a redo journal, through cuts of power, beside plain lists of blocks: what a load
//! gives is what the list of that version has.
ghost use Rattle.std.specs.Prelude.{◌<◌};
ghost use Rattle.thy_isa.specs.Step.{state_of};
ghost use Rattle.thy_test_support.specs.Starts.{IsLeastStart};

use crate::beside::{
    ALL, NOTHING, Seen, Versions, count_of, drawn_number, drawn_pick, least, start_of,
};
use crate::log::parts::{Booted, Off, Parts};
use crate::support::expect::expect;
use std::alloc::Global;
use std::process::Abort;
use thy_base::{Block, Lcg, SchemeName};
use thy_computer::BootStep;
use thy_layout::{EngineStep, Start};
use thy_test_support::{drawn, geometry_of};

/// How many entries the table has.
const ENTRIES: usize = 8;

/// What memory has to hold, and what the table lists.
#[derive(Drop)]
struct Beside {
    versions: Versions,
    /// The blocks that the table lists.
    stored: Vec<u64>,
}

/// Which kinds of moments have come.
#[derive(Drop)]
struct Moments {
    seen: Seen,
    /// A cut while a journal was applied.
    cut_applying: bool,
}

impl Beside {
    fn store(&mut self, rt: &impl Abort, b: u64, block: &Block) {
        self.versions.store(rt, b, block);
        if !self.stored.contains(&b) {
            self.stored.push(b).expect(rt, "memory");
        }
    }

    /// The engine took a step; it is done with the checkpoint, or not.
    fn note(&mut self, rt: &impl Abort, step: EngineStep, done: bool, seen: &mut Seen) {
        self.versions.note(rt, step, seen);
        if done {
            self.stored.clear();
        }
    }
}

/// The power comes on after a cut with this pick, until a boot is over.
fn restart(
    rt: &impl Abort,
    alloc: Global,
    mut off: Off,
    start: &Start,
    beside: &mut Beside,
    pick: u64,
    seen: &mut Seen,
    lcg: &mut Lcg,
) -> Parts
    requires { IsLeastStart (state_of start.now.state) }
{
    for _ in 0..4 {
        let most = 1 + lcg.next() % 20;
        match off.boot(rt, alloc, start, most, drawn_pick(lcg)) {
            Booted::Over(parts, reported) => {
                beside.versions.compare_found(rt, reported, pick, seen);
                return parts;
            }
            Booted::Cut(next) => off = next,
        }
        seen.cut_booting = true;
    }
    match off.boot(rt, alloc, start, 1000, 0) {
        Booted::Over(parts, reported) => {
            beside.versions.compare_found(rt, reported, pick, seen);
            parts
        }
        Booted::Cut(_) => panic!(rt; "a boot without end"),
    }
}

/// Stores a drawn block; without a free entry, or now and then, it seals.
fn store_or_seal(
    rt: &impl Abort,
    parts: &mut Parts,
    beside: &mut Beside,
    seen: &mut Seen,
    lcg: &mut Lcg,
) {
    let full = parts.free() == 0;
    seen.full |= full;
    if full || lcg.next() % 12 == 0 {
        let epoch = beside.versions.epoch.saturating_add(1);
        parts.seal(rt, epoch, count_of(epoch));
        beside.versions.seal(rt);
        return;
    }
    let b = drawn_number(lcg);
    let block = drawn(lcg);
    parts.store(rt, b, &block);
    beside.store(rt, b, &block);
}

/// Makes one drawn call.
fn act(rt: &impl Abort, parts: &mut Parts, beside: &mut Beside, seen: &mut Seen, lcg: &mut Lcg) {
    match lcg.next() % 6 {
        0 => parts.drain_dram(),
        1 => {
            let drained = parts.drain_nvm(rt);
            beside.versions.land(drained);
        }
        _ if parts.under_way() => {
            let step = parts.step(rt);
            beside.note(rt, step, !parts.under_way(), seen);
        }
        _ => store_or_seal(rt, parts, beside, seen, lcg),
    }
}

/// Compares a block in both versions, and how many entries are free.
fn compare(rt: &impl Abort, parts: &mut Parts, beside: &Beside, b: u64)
    requires { b < 512 }
{
    let work = parts.load(rt, b);
    let committed = parts.committed(rt, b);
    beside.versions.compare(rt, b, work, committed);
    if !parts.under_way() {
        let listed = beside.stored.len();
        expect(rt, parts.free() as usize, ENTRIES.saturating_sub(listed));
    }
}

/// Compares every block.
fn compare_all(rt: &impl Abort, parts: &mut Parts, beside: &Beside) {
    for b in 0..512 {
        compare(rt, parts, beside, b);
    }
}

/// Makes 600 drawn calls, with some 30 cuts between them, and compares a block after each call and all blocks after each
/// cut.
fn play(rt: &impl Abort, alloc: Global, seed: u64, moments: &mut Moments) {
    let geometry = geometry_of(alloc, &least(SchemeName::Journal)).expect(rt, "numbers in range");
    let start = start_of(rt, alloc);
    let mut lcg = Lcg::new(seed);
    let mut beside = Beside {
        versions: Versions::of_start(rt, alloc),
        stored: Vec::new(alloc),
    };
    let off = Off::new(rt, alloc, geometry, 200);
    let mut parts = match off.boot(rt, alloc, &start, 1000, 0) {
        Booted::Over(parts, reported) => {
            expect(rt, reported, BootStep::Loaded);
            parts
        }
        Booted::Cut(_) => panic!(rt; "a boot without end"),
    };
    for _ in 0..600 {
        if lcg.next() % 20 == 0 {
            let pick = drawn_pick(&mut lcg);
            let applies = parts.applies();
            moments.cut_applying |= applies;
            moments.seen.cut_making |= parts.under_way() && !applies && !beside.versions.written;
            let off = parts.cut(rt, pick);
            let seen = &mut moments.seen;
            parts = restart(rt, alloc, off, &start, &mut beside, pick, seen, &mut lcg);
            compare_all(rt, &mut parts, &beside);
        }
        act(rt, &mut parts, &mut beside, &mut moments.seen, &mut lcg);
        let b = drawn_number(&mut lcg);
        compare(rt, &mut parts, &beside, b);
    }
}

#[test]
fn random_calls_through_cuts_keep_both_versions(rt: HostRuntime) {
    let mut moments = Moments {
        seen: NOTHING,
        cut_applying: false,
    };
    for seed in 1..9 {
        play(&rt, rt.alloc(), seed, &mut moments);
    }
    expect(&rt, moments.seen, ALL);
    expect(&rt, moments.cut_applying, true);
}
