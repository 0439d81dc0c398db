//! The hart on its cache over stores of blocks, compared with the plain machine, state by state.
ghost use Rattle.std.specs.Prelude.{◌≡◌, ◌<◌, ◌≤◌, ◌*◌, ◌^◌, None, length};
ghost use Rattle.thy_block.specs.Geometry.{memory_blocks};
ghost use Rattle.thy_hart.specs.Moments.{moment, IsReady};

use crate::plain::{smallest, start_with};
use crate::support::expect::{expect, expect_at};
use std::alloc::Global;
use std::process::Abort;
use thy_base::{Block, BlockStore, EndCause, NvmError, Stored};
use thy_cache::Cache;
use thy_hart::{Hart, HartStep, a_hart_is_ready_with_no_page_open};
use thy_isa::Status;
use thy_plain::Plain;
use thy_test_support::{GREET, cpu_of};

/// How many blocks of memory the smallest machine has, and how many of these are program memory.
const BLOCKS: usize = 512;

const PROGRAM_BLOCKS: usize = 448;

/// The page of the block at the start's sp, which is the fourth from the end of program memory.
const STACK_PAGE: u64 = 6;

/// A list of blocks that makes some copies before it stores, and has little room. From the first copy for a block
/// until that is stored, the block's page is open.
#[derive(Drop)]
struct Scarce {
    blocks: Vec<Block>,
    copies: u64,
    free: u64,
    /// The page that is open, if one is.
    page: Option<u64>,
    /// Changes with each call.
    turn: bool,
}

impl BlockStore<()> for Scarce {
    ghost use Rattle.std.specs.Prelude.{◌≡◌, not};
    ghost use Rattle.thy_tests.specs.Scarce.{scarce};

    ghost holding = { λ s n. scarce s.blocks.items s.free s.copies s.page };

    ghost once = { λ a m b n. b.turn ≡ not a.turn };

    ghost loads = { λ a m b n. (b.blocks.items ≡ a.blocks.items) × (b.copies ≡ a.copies) × (b.page ≡ a.page) };

    ghost stores = { λ b block stored a m c n. Unit {0} };

    ghost stays = { λ a m b n. Unit {0} };

    fn load(&mut self, b: u64, _nvm: &mut ()) -> Result<Block, NvmError> {
        self.turn = !self.turn;
        Ok(self.blocks[b as usize])
    }

    fn store(&mut self, b: u64, block: &Block, _nvm: &mut ()) -> Result<Stored, NvmError> {
        self.turn = !self.turn;
        if self.copies > 0 {
            self.copies -= 1;
            self.page = Some(b / 64);
            return Ok(Stored::CopyFirst);
        }
        self.blocks[b as usize] = *block;
        self.page = None;
        Ok(Stored::Done)
    }

    ghost once_stays = { λ a m b n once. tt };

    ghost stays_same = { λ s n. tt };

    ghost stays_on = { λ a m b n c o first second. tt };
}

/// The blocks of memory, with these bytes at their start.
fn memory_of(rt: &impl Abort, alloc: Global, bytes: &[u8]) -> Vec<Block>
    ensures { length result.items ≡ 512 }
{
    let mut blocks = Vec::new(alloc);
    blocks.resize(BLOCKS, Block::ZERO).expect(rt, "memory");
    fill(blocks.as_mut_slice(), bytes);
    blocks
}

fn fill(blocks: &mut [Block], bytes: &[u8]) {
    for i in 0..blocks.len() {
        if i < bytes.len() / 64 {
            blocks[i].put(0, &bytes[64 * i..64 * i + 64]);
        }
    }
}

/// Begins the next epoch if this one is over.
fn go_on(rt: &impl Abort, hart: &mut Hart)
    ensures over { hart.new.epoch.over ≡ None }
    ensures rest { hart.new ≡ record hart.old { epoch = hart.new.epoch } }
{
    match hart.epoch().over() {
        None => {}
        Some(_) => {
            assert!(rt; hart.epoch().epoch() < u64::MAX);
            hart.sealed();
        }
    }
}

/// The hart's next step, after the start of an epoch if one is over; None if the program has ended.
fn step<S: BlockStore<()>>(
    rt: &impl Abort,
    hart: &mut Hart,
    cache: &mut Cache,
    store: &mut S,
    free: u64,
    under_way: bool,
    input: &[u8],
) -> Option<HartStep>
    requires ready { IsReady (moment hart.old cache.old (S.holding store.old tt)) }
    requires free { free ≡ (S.holding store.old tt).free }
    ensures ready { IsReady (moment hart.new cache.new (S.holding store.new tt)) }
{
    go_on(rt, hart);
    let Status::Running = hart.cpu().status else {
        return None;
    };
    assert!(rt; hart.cpu().count < u64::MAX);
    let done = hart.step(cache, store, &mut (), free, under_way, input);
    Some(done.expect(rt, "nvm"))
}

/// Compares the processor with the plain machine's, which takes its step.
fn advance(rt: &impl Abort, plain: &mut Plain, hart: &Hart) {
    assert!(rt; plain.count() < 1 << 62);
    plain.step();
    expect(rt, hart.cpu(), plain.cpu(0));
}

/// A block as it is read through the cache.
fn block_at(cache: &Cache, blocks: &[Block], b: usize) -> Block
    requires { b < length blocks.now }
{
    match cache.peek(b as u64) {
        Some(block) => block,
        None => blocks[b],
    }
}

/// Compares the blocks from one on with bytes.
fn compare(rt: &impl Abort, cache: &Cache, blocks: &[Block], from: usize, bytes: &[u8])
    requires { from < 512 }
{
    for i in 0..bytes.len() {
        if from + i / 64 < blocks.len() {
            let block = block_at(cache, blocks, from + i / 64);
            expect_at(rt, block.bytes()[i % 64], bytes[i], i);
        }
    }
}

/// Runs a program on a hart over a list of blocks, in epochs of one length, and compares its state after each
/// instruction, and memory at the end. How many steps that took.
fn runs_beside(
    rt: &impl Abort,
    alloc: Global,
    words: &[u32],
    input: &[u8],
    sets: u64,
    ways: u64,
) -> u64
    requires sets { 0 < sets }
    requires ways { 0 < ways }
{
    let mut plain = start_with(rt, alloc, words, input);
    let mut blocks = memory_of(rt, alloc, plain.memory().as_slice());
    let mut cache = Cache::new(alloc, sets, ways).expect(rt, "memory");
    let mut hart = Hart::new(&plain.cpu(0), 1, &smallest(rt, alloc));
    a_hart_is_ready_with_no_page_open();
    for turn in 0..100_000_u64 {
        match step(
            rt,
            &mut hart,
            &mut cache,
            &mut blocks,
            u64::MAX,
            false,
            input,
        ) {
            Some(HartStep::Moved) => {}
            Some(HartStep::Waiting) => expect(rt, "waits", "moves"),
            Some(HartStep::Retired | HartStep::Over(_)) => advance(rt, &mut plain, &hart),
            None => {
                compare(rt, &cache, blocks.as_slice(), 0, plain.memory().as_slice());
                compare(
                    rt,
                    &cache,
                    blocks.as_slice(),
                    PROGRAM_BLOCKS,
                    plain.console().as_slice(),
                );
                return turn;
            }
        }
    }
    expect(rt, "runs on", "ends");
    100_000
}

/// Reads ten bytes to 60 bytes above the start's sp, which is a multiple of 64, writes the 60 bytes from 58 above it
/// on twice, and exits with 60: what each of these calls moves lies in two blocks.
static ACROSS: [u32; 13] = [
    0x03f00893, 0x03c10593, 0x00a00613, 0x00000073, 0x04000893, 0x00100513, 0x03a10593, 0x03c00613,
    0x00000073, 0x00100513, 0x00000073, 0x05d00893, 0x00000073,
];

/// The hart's results of each step over a store with room for `free` stores, that makes `copies` copies first, with one
/// line in the cache, while a checkpoint is under way or not. After the steps of these numbers, and no others, a page
/// is open: the page of the block at the start's sp.
fn answers(
    rt: &impl Abort,
    alloc: Global,
    words: &[u32],
    free: u64,
    copies: u64,
    steps: &[(bool, Option<HartStep>)],
    open: &[usize],
) {
    let plain = start_with(rt, alloc, words, b"");
    let mut store = Scarce {
        blocks: memory_of(rt, alloc, plain.memory().as_slice()),
        copies,
        free,
        page: None,
        turn: false,
    };
    let mut cache = Cache::new(alloc, 1, 1).expect(rt, "memory");
    let mut hart = Hart::new(&plain.cpu(0), 1, &smallest(rt, alloc));
    a_hart_is_ready_with_no_page_open();
    for (i, (under_way, want)) in steps.iter().enumerate() {
        let room = store.free;
        let done = step(rt, &mut hart, &mut cache, &mut store, room, *under_way, b"");
        expect_at(rt, done, *want, i);
        let page = open.contains(&i).then_some(STACK_PAGE);
        expect_at(rt, store.page, page, i);
    }
}

/// `sd zero,0(sp)`. What follows means no instruction.
static STORE: [u32; 1] = [0x00013023];

/// A line is filled in, and the store fetched. Without room it waits while a checkpoint is under way; else the epoch is
/// over, and in the next one the store is fetched again.
static WITHOUT_ROOM: [(bool, Option<HartStep>); 7] = [
    (false, Some(HartStep::Moved)),
    (false, Some(HartStep::Moved)),
    (true, Some(HartStep::Waiting)),
    (true, Some(HartStep::Waiting)),
    (
        false,
        Some(HartStep::Over(EndCause::Exhausted {
            free: 0,
            dirty: 0,
            need: 1,
        })),
    ),
    (false, Some(HartStep::Moved)),
    (true, Some(HartStep::Waiting)),
];

/// With room it is secured, the block filled in and written, and the store retires. The next fetch misses: two copies go
/// first, the dirty line is stored, the block filled in and fetched, and the hart traps.
static WITH_ROOM: [(bool, Option<HartStep>); 13] = [
    (true, Some(HartStep::Moved)),
    (true, Some(HartStep::Moved)),
    (true, Some(HartStep::Moved)),
    (true, Some(HartStep::Moved)),
    (true, Some(HartStep::Moved)),
    (true, Some(HartStep::Retired)),
    (true, Some(HartStep::Moved)),
    (true, Some(HartStep::Moved)),
    (true, Some(HartStep::Moved)),
    (true, Some(HartStep::Moved)),
    (true, Some(HartStep::Moved)),
    (true, Some(HartStep::Over(EndCause::Ended))),
    (true, None),
];

#[test]
fn a_compiled_program_runs_as_on_the_plain_machine(rt: HostRuntime) {
    runs_beside(&rt, rt.alloc(), &GREET, b"World\n", 16, 4);
    runs_beside(&rt, rt.alloc(), &GREET, b"World\n", 1, 1);
    runs_beside(&rt, rt.alloc(), &GREET, b"World\n", 2, 1);
}

#[test]
fn calls_move_bytes_across_blocks(rt: HostRuntime) {
    // Each of 13 instructions has a fetch and a retirement. In addition, the first call secures room and writes two
    // blocks, the second reads two and writes one, the third reads two and writes two. Five lines are filled in.
    expect(
        &rt,
        runs_beside(&rt, rt.alloc(), &ACROSS, b"0123456789", 16, 4),
        43,
    );
    runs_beside(&rt, rt.alloc(), &ACROSS, b"0123456789", 1, 1);
    runs_beside(&rt, rt.alloc(), &ACROSS, b"0123", 1, 2);
}

#[test]
fn a_store_without_room_waits_or_ends_its_epoch(rt: HostRuntime) {
    answers(&rt, rt.alloc(), &STORE, 0, 0, &WITHOUT_ROOM, &[]);
}

#[test]
fn copies_go_before_a_dirty_line_is_stored_and_leave_its_page_open(rt: HostRuntime) {
    answers(&rt, rt.alloc(), &STORE, 1, 2, &WITH_ROOM, &[6, 7]);
}
