//! The controller over the simulated NVM, compared with three lists of blocks: random calls of all kinds, over many epochs.
ghost use Rattle.std.specs.Prelude.{◌≡◌, ◌<◌, true, false, length, IfSome};
ghost use Rattle.thy_table.specs.Places.{image_blocks};
ghost use Rattle.thy_control_tests.specs.Driven.{Drives};

use crate::support::drawn::{block_in, drawn_image};
use crate::support::driven::{
    commit, committed, copy_next, drain_dram, drain_nvm, load, merge_one, page_next, power_on,
    promote_one, seal, store,
};
use crate::support::expect::expect;
use std::alloc::Global;
use std::process::Abort;
use thy_base::{Block, Geometry, Lcg, Nvm, Parameters, Stored};
use thy_control::Control;
use thy_nvm::MemNvm;
use thy_table::home;
use thy_test_support::{LEAST, drawn, geometry_of};

/// How many entries the block table has.
const ENTRIES: u64 = 16;

/// The least memory, 512 blocks. A page is stored to densely by more than 8 stores of an epoch, and no longer by fewer
/// than 3.
static DENSER: Parameters = Parameters {
    btt: 16,
    high: 8,
    low: 3,
    ..LEAST
};

/// What memory has to hold, block by block, in each version.
#[derive(Drop)]
struct Versions {
    /// The blocks at the committed checkpoint.
    committed: Vec<Block>,
    /// The blocks at the last seal.
    last: Vec<Block>,
    /// The blocks now.
    work: Vec<Block>,
    /// Some block was stored since the last seal.
    stored: bool,
    /// No block was stored in the epoch before it.
    quiet: bool,
}

impl Versions {
    /// Notes that a store is done.
    fn store(&mut self, rt: &impl Abort, b: u64, block: Block) {
        match self.work.get_mut(b as usize) {
            Some(place) => *place = block,
            None => panic!(rt; "no block"),
        }
        self.stored = true;
    }

    fn seal(&mut self, rt: &impl Abort) {
        self.last = self.work.clone().expect(rt, "memory");
        self.quiet = !self.stored;
        self.stored = false;
    }

    /// The last seal's checkpoint is the committed one.
    fn commit(&mut self, rt: &impl Abort) {
        self.committed = self.last.clone().expect(rt, "memory");
    }
}

/// Which kinds of calls have come.
#[derive(Clone, Copy, Debug, PartialEq)]
struct Seen {
    /// A store that made a copy first.
    copied_first: bool,
    /// A copy of a block that was not stored, so that its entry is free again.
    consolidated: bool,
    /// A page in promotion.
    promoted: bool,
    /// A buffer that was merged into a frame, so the frame of a page that stayed.
    stayed: bool,
    /// A commit after which no buffer lies over a frame any more, so the page has left.
    left: bool,
}

/// The blocks that stores go to for a time.
#[derive(Clone, Copy)]
enum Habit {
    Nowhere,
    Page(u64),
    Spots,
    Anywhere,
}

/// The habit, or after about every 20th call another one.
fn next_habit(lcg: &mut Lcg, habit: Habit) -> Habit {
    if lcg.next() % 20 == 0 {
        drawn_habit(lcg)
    } else {
        habit
    }
}

fn drawn_habit(lcg: &mut Lcg) -> Habit {
    match lcg.next() % 8 {
        0 => Habit::Nowhere,
        1 => Habit::Anywhere,
        2 | 3 => Habit::Spots,
        _ => Habit::Page(lcg.next() % 3),
    }
}

/// A block to be stored: one of six blocks of a page, one of twelve of all pages, or any.
fn drawn_block(lcg: &mut Lcg, habit: Habit) -> Option<u64>
    ensures { IfSome result (λ b. b < 512) }
{
    let draw = lcg.next();
    match habit {
        Habit::Nowhere => None,
        Habit::Page(page) => Some(page % 8 * 64 + draw % 6),
        Habit::Spots => Some(draw % 12 * 43),
        Habit::Anywhere => Some(draw % 512),
    }
}

/// A block to be compared, mostly one of those that are stored often.
fn drawn_spot(lcg: &mut Lcg) -> u64
    ensures { result < 512 }
{
    let draw = lcg.next();
    match lcg.next() % 3 {
        0 => draw % 512,
        1 => draw % 12 * 43,
        _ => draw % 3 * 64 + draw % 6,
    }
}

/// Stores a drawn block, if there is room and no page is in promotion.
fn store_drawn<N: Nvm>(
    rt: &impl Abort,
    control: &mut Control,
    nvm: &mut N,
    beside: &mut Versions,
    seen: &mut Seen,
    lcg: &mut Lcg,
    b: u64,
)
    requires inside { b < 512 }
    requires drives { Drives control.old (N.device nvm.old) }
    ensures drives { Drives control.new (N.device nvm.new) }
{
    if control.free() == 0 || control.promoting() {
        return;
    }
    let block = drawn(lcg);
    match store(rt, control, nvm, b, &block) {
        Stored::Done => beside.store(rt, b, block),
        Stored::CopyFirst => seen.copied_first = true,
    }
}

/// Copies `many` blocks of pages in promotion, or fewer if there are no more.
fn promote<N: Nvm>(rt: &impl Abort, control: &mut Control, nvm: &mut N, many: u64)
    requires drives { Drives control.old (N.device nvm.old) }
    ensures drives { Drives control.new (N.device nvm.new) }
{
    for _ in 0..many {
        if control.promoting() {
            promote_one(rt, control, nvm);
        }
    }
}

/// Merges a buffer that lies over a frame, or fills a frame, or with nothing of both left seals the epoch.
fn end_epoch<N: Nvm>(
    rt: &impl Abort,
    control: &mut Control,
    nvm: &mut N,
    beside: &mut Versions,
    seen: &mut Seen,
)
    requires idle { control.old.under_way ≡ false }
    requires drives { Drives control.old (N.device nvm.old) }
    ensures drives { Drives control.new (N.device nvm.new) }
{
    if control.overlay() {
        seen.stayed = true;
        merge_one(rt, control);
        return;
    }
    if control.promoting() {
        promote(rt, control, nvm, 64);
        return;
    }
    seal(rt, control);
    beside.seal(rt);
    seen.promoted |= control.promoting();
}

/// Makes `many` copies of the checkpoint under way, while some are left.
fn copy<N: Nvm>(rt: &impl Abort, control: &mut Control, nvm: &mut N, many: u64) -> bool
    requires drives { Drives control.old (N.device nvm.old) }
    ensures drives { Drives control.new (N.device nvm.new) }
{
    let mut copied = false;
    for _ in 0..many {
        copied |= copy_next(rt, control, nvm);
    }
    copied
}

/// Writes `many` blocks of the pages of the checkpoint under way, while some are left.
fn write<N: Nvm>(rt: &impl Abort, control: &mut Control, nvm: &mut N, many: u64)
    requires drives { Drives control.old (N.device nvm.old) }
    ensures drives { Drives control.new (N.device nvm.new) }
{
    for _ in 0..many {
        page_next(rt, control, nvm);
    }
}

/// Commits the checkpoint under way, unless there was something left to copy or to write.
fn commit_checkpoint<N: Nvm>(
    rt: &impl Abort,
    control: &mut Control,
    nvm: &mut N,
    beside: &mut Versions,
    seen: &mut Seen,
)
    requires busy { control.old.under_way ≡ true }
    requires drives { Drives control.old (N.device nvm.old) }
    ensures drives { Drives control.new (N.device nvm.new) }
{
    let copied = copy_next(rt, control, nvm);
    let written = page_next(rt, control, nvm);
    if copied || written {
        return;
    }
    let overlaid = control.overlay();
    commit(rt, control, nvm);
    beside.commit(rt);
    let still = control.overlay();
    seen.left |= overlaid && !still;
}

/// Commits the checkpoint under way, or begins the next one, as far as that may be.
fn seal_or_commit<N: Nvm>(
    rt: &impl Abort,
    control: &mut Control,
    nvm: &mut N,
    beside: &mut Versions,
    seen: &mut Seen,
)
    requires drives { Drives control.old (N.device nvm.old) }
    ensures drives { Drives control.new (N.device nvm.new) }
{
    if control.under_way() {
        commit_checkpoint(rt, control, nvm, beside, seen);
    } else {
        end_epoch(rt, control, nvm, beside, seen);
    }
}

/// Continues with the checkpoint and with promotions, or begins the next checkpoint.
fn checkpoint<N: Nvm>(
    rt: &impl Abort,
    control: &mut Control,
    nvm: &mut N,
    beside: &mut Versions,
    seen: &mut Seen,
    lcg: &mut Lcg,
)
    requires drives { Drives control.old (N.device nvm.old) }
    ensures drives { Drives control.new (N.device nvm.new) }
{
    let draw = lcg.next();
    match draw % 8 {
        0 | 1 => seal_or_commit(rt, control, nvm, beside, seen),
        2 | 3 => {
            let copied = copy(rt, control, nvm, draw % 4);
            seen.consolidated |= copied && beside.quiet;
        }
        4 | 5 => promote(rt, control, nvm, draw % 100),
        _ => write(rt, control, nvm, draw % 40),
    }
}

/// Lets a write land in each device, if one is queued.
fn land<N: Nvm>(rt: &impl Abort, control: &mut Control, nvm: &mut N)
    requires drives { Drives control.old (N.device nvm.old) }
    ensures drives { Drives control.new (N.device nvm.new) }
{
    drain_dram(control);
    drain_nvm(rt, control, nvm);
}

/// Compares both versions of a block.
fn compare<N: Nvm>(rt: &impl Abort, control: &Control, nvm: &mut N, beside: &Versions, b: u64)
    requires inside { b < 512 }
    requires drives { Drives control.now (N.device nvm.old) }
    ensures { N.device nvm.new ≡ N.device nvm.old }
{
    let work = load(rt, control, nvm, b);
    expect(rt, work, block_in(rt, &beside.work, b));
    let block = committed(rt, control, nvm, b);
    expect(rt, block, block_in(rt, &beside.committed, b));
}

/// Makes one drawn call.
fn act<N: Nvm>(
    rt: &impl Abort,
    control: &mut Control,
    nvm: &mut N,
    beside: &mut Versions,
    seen: &mut Seen,
    lcg: &mut Lcg,
    habit: Habit,
)
    requires drives { Drives control.old (N.device nvm.old) }
    ensures drives { Drives control.new (N.device nvm.new) }
{
    match lcg.next() % 8 {
        0 => land(rt, control, nvm),
        1 | 2 | 3 => checkpoint(rt, control, nvm, beside, seen, lcg),
        _ => if let Some(b) = drawn_block(lcg, habit) {
            store_drawn(rt, control, nvm, beside, seen, lcg, b);
        },
    }
}

/// Makes one drawn call, and compares a block.
fn call<N: Nvm>(
    rt: &impl Abort,
    control: &mut Control,
    nvm: &mut N,
    beside: &mut Versions,
    seen: &mut Seen,
    lcg: &mut Lcg,
    habit: Habit,
)
    requires drives { Drives control.old (N.device nvm.old) }
    ensures drives { Drives control.new (N.device nvm.new) }
{
    act(rt, control, nvm, beside, seen, lcg, habit);
    expect(rt, control.free() <= ENTRIES, true);
    let b = drawn_spot(lcg);
    compare(rt, control, nvm, beside, b);
}

/// Makes 3000 drawn calls.
fn calls<N: Nvm>(
    rt: &impl Abort,
    control: &mut Control,
    nvm: &mut N,
    beside: &mut Versions,
    seen: &mut Seen,
    lcg: &mut Lcg,
)
    requires drives { Drives control.old (N.device nvm.old) }
    ensures drives { Drives control.new (N.device nvm.new) }
{
    let mut habit = Habit::Spots;
    for _ in 0..3000 {
        habit = next_habit(lcg, habit);
        call(rt, control, nvm, beside, seen, lcg, habit);
    }
}

/// Compares both versions of every block.
fn compare_all<N: Nvm>(rt: &impl Abort, control: &Control, nvm: &mut N, beside: &Versions)
    requires drives { Drives control.now (N.device nvm.old) }
{
    for b in 0..512 {
        compare(rt, control, nvm, beside, b);
    }
}

/// The blocks of memory as an image has them.
fn memory_of(rt: &impl Abort, alloc: Global, geometry: &Geometry, image: &[Block]) -> Versions
    requires least { geometry.now.pages ≡ 8 }
    requires long { length image.now ≡ image_blocks geometry.now }
{
    let home = home(geometry, 0) as usize;
    let memory = &image[home..home + 512];
    Versions {
        committed: memory.to_vec(alloc).expect(rt, "memory"),
        last: memory.to_vec(alloc).expect(rt, "memory"),
        work: memory.to_vec(alloc).expect(rt, "memory"),
        stored: false,
        quiet: false,
    }
}

/// Random calls of one machine.
fn play<N: Nvm>(rt: &impl Abort, alloc: Global, nvm: &mut N, seed: u64, seen: &mut Seen) {
    let geometry = geometry_of(alloc, &DENSER).expect(rt, "numbers in range");
    let mut lcg = Lcg::new(seed);
    let image = drawn_image(rt, alloc, &geometry, &mut lcg);
    let mut beside = memory_of(rt, alloc, &geometry, &image);
    let mut control = power_on(rt, alloc, &geometry, nvm, &image);
    calls(rt, &mut control, nvm, &mut beside, seen, &mut lcg);
    compare_all(rt, &control, nvm, &beside);
}

// Pages come, stay and leave, entries become free again if few are, and stores owe copies.
#[test]
fn random_epochs_keep_three_versions(rt: HostRuntime) {
    let mut seen = Seen {
        copied_first: false,
        consolidated: false,
        promoted: false,
        stayed: false,
        left: false,
    };
    for seed in 1..5 {
        let mut nvm = MemNvm::new(rt.alloc());
        play(&rt, rt.alloc(), &mut nvm, seed, &mut seen);
    }
    let all = Seen {
        copied_first: true,
        consolidated: true,
        promoted: true,
        stayed: true,
        left: true,
    };
    expect(&rt, seen, all);
}
