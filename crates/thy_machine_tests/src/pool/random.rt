//! Random calls of pool, engine and boot of shadow paging, through cuts of power, beside plain lists of blocks: what a load
//! gives is what the list of that version has.
ghost use Rattle.std.specs.Prelude.{◌<◌};
ghost use Rattle.thy_isa.specs.Step.{state_of};
ghost use Rattle.thy_test_support.specs.Starts.{IsLeastStart};

use crate::beside::{
    ALL, NOTHING, Seen, Versions, count_of, drawn_number, drawn_pick, least, start_of,
};
use crate::pool::parts::{Booted, Off, Parts};
use crate::support::expect::expect;
use std::alloc::Global;
use std::process::Abort;
use thy_base::{Block, Lcg, SchemeName};
use thy_computer::BootStep;
use thy_layout::{EngineStep, Start};
use thy_test_support::{drawn, geometry_of};

/// How many frames there are.
const FRAMES: usize = 8;

/// What memory has to hold, and which frames there are.
#[derive(Drop)]
struct Beside {
    versions: Versions,
    /// The pages that have a frame.
    framed: Vec<u64>,
    /// The page that a frame is begun for.
    begun: Option<u64>,
}

/// Which kinds of moments have come.
#[derive(Drop)]
struct Moments {
    seen: Seen,
    /// A frame that was begun for a page was begun again for another one.
    begun_anew: bool,
    /// A cut while a page was copied.
    cut_copying: bool,
}

impl Beside {
    /// Notes that a store is done.
    fn store(&mut self, rt: &impl Abort, b: u64, block: &Block) {
        self.versions.store(rt, b, block);
        let page = b / 64;
        if !self.framed.contains(&page) {
            self.framed.push(page).expect(rt, "memory");
            self.begun = None;
        }
    }

    /// A copy came before a store of this block.
    fn copy(&mut self, b: u64, moments: &mut Moments) {
        let page = b / 64;
        moments.begun_anew |= self.begun.unwrap_or(page) != page;
        self.begun = Some(page);
    }

    fn seal(&mut self, rt: &impl Abort) {
        self.begun = None;
        self.versions.seal(rt);
    }

    /// The engine took a step.
    fn note(&mut self, rt: &impl Abort, step: EngineStep, seen: &mut Seen) {
        if let EngineStep::Committed(_) = step {
            self.framed.clear();
        }
        self.versions.note(rt, step, seen);
    }

    /// Clears the frames: after a cut no page has one.
    fn clear(&mut self) {
        self.framed.clear();
        self.begun = None;
    }
}

/// The power comes on after a cut with this pick, until a boot is over.
fn restart(
    rt: &impl Abort,
    alloc: Global,
    mut off: Off,
    start: &Start,
    beside: &mut Beside,
    pick: u64,
    seen: &mut Seen,
    lcg: &mut Lcg,
) -> Parts
    requires { IsLeastStart (state_of start.now.state) }
{
    for _ in 0..4 {
        let most = 1 + lcg.next() % 20;
        match off.boot(rt, alloc, start, most, drawn_pick(lcg)) {
            Booted::Over(parts, reported) => {
                beside.clear();
                beside.versions.compare_found(rt, reported, pick, seen);
                return parts;
            }
            Booted::Cut(next) => off = next,
        }
        seen.cut_booting = true;
    }
    match off.boot(rt, alloc, start, 1000, 0) {
        Booted::Over(parts, reported) => {
            beside.clear();
            beside.versions.compare_found(rt, reported, pick, seen);
            parts
        }
        Booted::Cut(_) => panic!(rt; "a boot without end"),
    }
}

/// Stores a drawn block, which it gives up now and then after a few copies; without a free frame, or now and then, it seals.
fn store_or_seal(
    rt: &impl Abort,
    parts: &mut Parts,
    beside: &mut Beside,
    moments: &mut Moments,
    lcg: &mut Lcg,
) {
    let full = parts.free() == 0;
    moments.seen.full |= full;
    if full || lcg.next() % 24 == 0 {
        let epoch = beside.versions.epoch.saturating_add(1);
        parts.seal(rt, epoch, count_of(epoch));
        beside.seal(rt);
        return;
    }
    let b = drawn_number(lcg);
    let block = drawn(lcg);
    for _ in 0..1 + lcg.next() % 130 {
        if parts.store(rt, b, &block) {
            beside.store(rt, b, &block);
            return;
        }
        beside.copy(b, moments);
    }
}

/// Takes at most `most` steps of the engine, up to the write of the commit block, or up to the commit.
fn take_steps(rt: &impl Abort, parts: &mut Parts, beside: &mut Beside, seen: &mut Seen, most: u64) {
    for _ in 0..most {
        if parts.under_way() {
            let written = beside.versions.written;
            let step = parts.step(rt);
            beside.note(rt, step, seen);
            if beside.versions.written && !written {
                return;
            }
        }
    }
}

/// Makes one drawn call, or a few of one kind.
fn act(
    rt: &impl Abort,
    parts: &mut Parts,
    beside: &mut Beside,
    moments: &mut Moments,
    lcg: &mut Lcg,
) {
    match lcg.next() % 6 {
        0 => parts.drain_dram(),
        1 => {
            let drained = parts.drain_nvm(rt);
            beside.versions.land(drained);
        }
        _ if parts.under_way() => {
            let most = 1 + lcg.next() % 80;
            take_steps(rt, parts, beside, &mut moments.seen, most);
        }
        _ => store_or_seal(rt, parts, beside, moments, lcg),
    }
}

/// Compares a block in both versions, and how many frames are free.
fn compare(rt: &impl Abort, parts: &mut Parts, beside: &Beside, b: u64)
    requires { b < 512 }
{
    let work = parts.load(rt, b);
    let committed = parts.committed(rt, b);
    beside.versions.compare(rt, b, work, committed);
    let framed = beside.framed.len();
    expect(rt, parts.free() as usize, FRAMES.saturating_sub(framed));
}

/// Compares every block.
fn compare_all(rt: &impl Abort, parts: &mut Parts, beside: &Beside) {
    for b in 0..512 {
        compare(rt, parts, beside, b);
    }
}

/// Makes 600 drawn calls, or more where one draw makes a few, with some 30 cuts between them, and compares a block after each
/// and all blocks after each cut.
fn play(rt: &impl Abort, alloc: Global, seed: u64, moments: &mut Moments) {
    let geometry = geometry_of(alloc, &least(SchemeName::Shadow)).expect(rt, "numbers in range");
    let start = start_of(rt, alloc);
    let mut lcg = Lcg::new(seed);
    let mut beside = Beside {
        versions: Versions::of_start(rt, alloc),
        framed: Vec::new(alloc),
        begun: None,
    };
    let off = Off::new(rt, alloc, geometry, 200);
    let mut parts = match off.boot(rt, alloc, &start, 1000, 0) {
        Booted::Over(parts, reported) => {
            expect(rt, reported, BootStep::Loaded);
            parts
        }
        Booted::Cut(_) => panic!(rt; "a boot without end"),
    };
    for _ in 0..600 {
        if lcg.next() % 20 == 0 {
            let pick = drawn_pick(&mut lcg);
            moments.cut_copying |= beside.begun.is_some();
            moments.seen.cut_making |= parts.under_way() && !beside.versions.written;
            let off = parts.cut(rt, pick);
            let seen = &mut moments.seen;
            parts = restart(rt, alloc, off, &start, &mut beside, pick, seen, &mut lcg);
            compare_all(rt, &mut parts, &beside);
        }
        act(rt, &mut parts, &mut beside, moments, &mut lcg);
        let b = drawn_number(&mut lcg);
        compare(rt, &mut parts, &beside, b);
    }
}

#[test]
fn random_calls_through_cuts_keep_both_versions(rt: HostRuntime) {
    let mut moments = Moments {
        seen: NOTHING,
        begun_anew: false,
        cut_copying: false,
    };
    for seed in 1..9 {
        play(&rt, rt.alloc(), seed, &mut moments);
    }
    expect(&rt, moments.seen, ALL);
    expect(&rt, moments.begun_anew && moments.cut_copying, true);
}
