//! The cache's results over two stores, worked out by hand.
ghost use Rattle.std.specs.Prelude.{◌≡◌, ◌≤◌, ◌-◌, ◌^◌, ◌<◌, true, length, OnOk, IfOk};
ghost use Rattle.thy_cache.specs.Contents.{dirty_count};
ghost use Rattle.thy_cache.specs.Flat.{Agrees, AgreesStill};

use crate::support::expect::expect;
use std::alloc::Global;
use std::process::Abort;
use thy_base::{Block, BlockStore, NvmError, Stored};
use thy_cache::{Cache, Flushed, Victim};

/// A list of blocks that makes some copies before it stores, or fails.
#[derive(Drop)]
struct Copying {
    blocks: Vec<Block>,
    copies: u64,
    failing: bool,
    faults: u64,
    /// Changes with each call.
    turn: bool,
}

impl BlockStore<()> for Copying {
    ghost use Rattle.std.specs.Prelude.{◌≡◌, ◌≤◌, not};
    ghost use Rattle.std.proofs.Common.{arith};
    ghost use Rattle.thy_tests.specs.Copying.{copying};

    ghost holding = { λ s n. copying s.blocks.items s.copies s.faults };

    ghost once = { λ a m b n. (b.turn ≡ not a.turn) × (a.faults ≤ b.faults) };

    ghost loads = { λ a m b n. (b.blocks.items ≡ a.blocks.items) × (b.copies ≡ a.copies) };

    ghost stores = { λ b block stored a m c n. Unit {0} };

    ghost stays = { λ a m b n. a.faults ≤ b.faults };

    fn load(&mut self, b: u64, _nvm: &mut ()) -> Result<Block, NvmError> {
        self.turn = !self.turn;
        if self.failing {
            self.faults = self.faults.saturating_add(1);
            return Err(NvmError::Failed);
        }
        Ok(self.blocks[b as usize])
    }

    fn store(&mut self, b: u64, block: &Block, _nvm: &mut ()) -> Result<Stored, NvmError> {
        self.turn = !self.turn;
        if self.failing {
            self.faults = self.faults.saturating_add(1);
            return Err(NvmError::Failed);
        }
        if self.copies > 0 {
            self.copies -= 1;
            return Ok(Stored::CopyFirst);
        }
        self.blocks[b as usize] = *block;
        Ok(Stored::Done)
    }

    ghost once_stays = { λ a m b n once. once.1 };

    ghost stays_same = { λ s n. Prim.omega arith };

    ghost stays_on = { λ a m b n c o first second. Prim.omega arith };
}

/// Eight blocks, each of bytes of its number.
static EIGHT: [Block; 8] = [
    Block([0; 64]),
    Block([1; 64]),
    Block([2; 64]),
    Block([3; 64]),
    Block([4; 64]),
    Block([5; 64]),
    Block([6; 64]),
    Block([7; 64]),
];

fn eight(rt: &impl Abort, alloc: Global) -> Vec<Block>
    ensures { length result.items ≡ 8 }
{
    EIGHT.to_vec(alloc).expect(rt, "memory")
}

/// What is asked of a cache.
#[derive(Clone, Copy)]
enum Call {
    Hit(u64),
    Victim(u64),
    Fill(u64),
    Read(u64, usize),
    Peek(u64, usize),
    Write(u64, u64, u8),
    Evict(u64),
    Flush,
    Dirty,
    Stored(u64, usize),
}

/// What a call of the cache returns.
#[derive(Clone, Copy, PartialEq)]
enum Answer {
    Is(bool),
    Room,
    Must(u64),
    Done,
    CopyFirst,
    Line,
    Clean,
    Byte(u8),
    Nothing,
    Count(u64),
    Refused,
}

fn byte_of(block: &Block, at: usize) -> Answer {
    if at < 64 {
        Answer::Byte(block.0[at])
    } else {
        Answer::Refused
    }
}

fn ask(cache: &Cache, call: Call) -> Answer {
    match call {
        Call::Hit(b) => Answer::Is(cache.find(b).is_some()),
        Call::Victim(b) => match cache.victim(b) {
            Victim::Room => Answer::Room,
            Victim::Dirty(block) => Answer::Must(block),
        },
        Call::Peek(b, at) => match cache.peek(b) {
            Some(block) => byte_of(&block, at),
            None => Answer::Nothing,
        },
        Call::Dirty => Answer::Count(cache.dirty()),
        _ => Answer::Refused,
    }
}

fn fill<S: BlockStore<()>>(cache: &mut Cache, store: &mut S, b: u64) -> Result<Answer, NvmError>
    requires eight { length (S.holding store.old tt).blocks ≡ 8 }
    requires agree { Agrees cache.old (S.holding store.old tt).blocks }
    ensures eight { OnOk result (length (S.holding store.new tt).blocks ≡ 8) }
    ensures agree { OnOk result (Agrees cache.new (S.holding store.new tt).blocks) }
{
    if b >= 8 || cache.find(b).is_some() || cache.victim(b) != Victim::Room {
        return Ok(Answer::Refused);
    }
    cache.fill(b, store, &mut ())?;
    Ok(Answer::Done)
}

fn evict<S: BlockStore<()>>(cache: &mut Cache, store: &mut S, b: u64) -> Result<Answer, NvmError>
    requires ready { (S.holding store.old tt).ready ≡ true }
    requires room { dirty_count cache.old ≤ (S.holding store.old tt).free }
    requires eight { length (S.holding store.old tt).blocks ≡ 8 }
    requires agree { Agrees cache.old (S.holding store.old tt).blocks }
    ensures eight { OnOk result (length (S.holding store.new tt).blocks ≡ 8) }
    ensures agree { OnOk result (Agrees cache.new (S.holding store.new tt).blocks) }
{
    match cache.victim(b) {
        Victim::Room => Ok(Answer::Refused),
        Victim::Dirty(_) => match cache.evict(b, store, &mut ())? {
            Stored::Done => Ok(Answer::Done),
            Stored::CopyFirst => Ok(Answer::CopyFirst),
        },
    }
}

fn flush<S: BlockStore<()>>(cache: &mut Cache, store: &mut S) -> Result<Answer, NvmError>
    requires ready { (S.holding store.old tt).ready ≡ true }
    requires room { dirty_count cache.old ≤ (S.holding store.old tt).free }
    requires eight { length (S.holding store.old tt).blocks ≡ 8 }
    requires agree { Agrees cache.old (S.holding store.old tt).blocks }
    ensures eight { OnOk result (length (S.holding store.new tt).blocks ≡ 8) }
    ensures agree { OnOk result (Agrees cache.new (S.holding store.new tt).blocks) }
{
    match cache.flush_one(store, &mut ())? {
        Flushed::Clean => Ok(Answer::Clean),
        Flushed::Line => Ok(Answer::Line),
        Flushed::CopyFirst => Ok(Answer::CopyFirst),
    }
}

fn use_line(cache: &mut Cache, call: Call) -> Answer
    ensures { AgreesStill cache.old cache.new }
{
    match call {
        Call::Read(b, at) => match cache.find(b) {
            Some(place) => byte_of(&cache.read_at(b, place), at),
            None => Answer::Refused,
        },
        Call::Write(b, at, byte) if at < 64 => match cache.find(b) {
            Some(place) => {
                cache.write_at(b, place, at, &[byte]);
                Answer::Done
            }
            None => Answer::Refused,
        },
        _ => ask(cache, call),
    }
}

fn stored<S: BlockStore<()>>(store: &mut S, b: u64, at: usize) -> Result<Answer, NvmError>
    requires { length (S.holding store.old tt).blocks ≡ 8 }
    ensures { OnOk result (S.holding store.new tt ≡ S.holding store.old tt) }
{
    if b >= 8 {
        return Ok(Answer::Refused);
    }
    let block = store.load(b, &mut ())?;
    Ok(byte_of(&block, at))
}

fn make_call<S: BlockStore<()>>(
    cache: &mut Cache,
    store: &mut S,
    call: Call,
) -> Result<Answer, NvmError>
    requires ready { (S.holding store.old tt).ready ≡ true }
    requires room { (S.holding store.old tt).free ≡ 2 ^ 64 - 1 }
    requires eight { length (S.holding store.old tt).blocks ≡ 8 }
    requires agree { Agrees cache.old (S.holding store.old tt).blocks }
    ensures eight { OnOk result (length (S.holding store.new tt).blocks ≡ 8) }
    ensures agree { OnOk result (Agrees cache.new (S.holding store.new tt).blocks) }
{
    let _dirty = cache.dirty();
    match call {
        Call::Fill(b) => fill(cache, store, b),
        Call::Evict(b) => evict(cache, store, b),
        Call::Flush => flush(cache, store),
        Call::Stored(b, at) => stored(store, b, at),
        _ => Ok(use_line(cache, call)),
    }
}

/// Makes the calls in order and compares what each returns.
fn play<S: BlockStore<()>>(
    rt: &impl Abort,
    cache: &mut Cache,
    store: &mut S,
    calls: &[(Call, Answer)],
)
    requires ready { (s : _) → (S.holding s tt).ready ≡ true }
    requires room { (s : _) → (S.holding s tt).free ≡ 2 ^ 64 - 1 }
    requires eight { length (S.holding store.old tt).blocks ≡ 8 }
    requires agree { Agrees cache.old (S.holding store.old tt).blocks }
{
    for (row, asked) in calls.iter().enumerate() {
        let (call, want) = *asked;
        let answer = make_call(cache, store, call).expect(rt, "an answer");
        assert!(rt; answer == want, "row {row}");
    }
}

/// Two sets of two ways: even blocks and odd ones. Block i of the store is filled with bytes i.
static TURNS: [(Call, Answer); 27] = [
    (Call::Hit(0), Answer::Is(false)),
    (Call::Victim(0), Answer::Room),
    (Call::Fill(0), Answer::Done),
    (Call::Fill(2), Answer::Done),
    (Call::Hit(2), Answer::Is(true)),
    (Call::Read(0, 5), Answer::Byte(0)),
    (Call::Write(2, 63, 200), Answer::Done),
    (Call::Dirty, Answer::Count(1)),
    // Block 0 was used before block 2, and is clean.
    (Call::Victim(4), Answer::Room),
    (Call::Read(0, 0), Answer::Byte(0)),
    (Call::Victim(4), Answer::Must(2)),
    // A peek does not count as a use.
    (Call::Peek(2, 63), Answer::Byte(200)),
    (Call::Peek(2, 62), Answer::Byte(2)),
    (Call::Victim(4), Answer::Must(2)),
    (Call::Peek(4, 0), Answer::Nothing),
    (Call::Evict(4), Answer::CopyFirst),
    (Call::Victim(4), Answer::Must(2)),
    (Call::Dirty, Answer::Count(1)),
    (Call::Stored(2, 63), Answer::Byte(2)),
    (Call::Evict(4), Answer::Done),
    (Call::Dirty, Answer::Count(0)),
    (Call::Stored(2, 63), Answer::Byte(200)),
    (Call::Victim(4), Answer::Room),
    (Call::Hit(2), Answer::Is(true)),
    (Call::Fill(4), Answer::Done),
    (Call::Hit(2), Answer::Is(false)),
    (Call::Read(4, 1), Answer::Byte(4)),
];

#[test]
fn a_cache_answers_each_call(rt: HostRuntime) {
    let mut cache = Cache::new(rt.alloc(), 2, 2).expect(&rt, "memory");
    let mut store = Copying {
        blocks: eight(&rt, rt.alloc()),
        copies: 1,
        failing: false,
        faults: 0,
        turn: false,
    };
    play(&rt, &mut cache, &mut store, &TURNS);
}

/// Three dirty lines are stored by set, then way: block 0 of set 0, then blocks 3 and 1 of set 1.
static FLUSHES: [(Call, Answer); 27] = [
    (Call::Fill(3), Answer::Done),
    (Call::Fill(1), Answer::Done),
    (Call::Fill(0), Answer::Done),
    (Call::Write(1, 0, 101), Answer::Done),
    (Call::Write(3, 0, 103), Answer::Done),
    (Call::Write(0, 0, 100), Answer::Done),
    (Call::Write(0, 1, 99), Answer::Done),
    (Call::Dirty, Answer::Count(3)),
    (Call::Flush, Answer::CopyFirst),
    (Call::Dirty, Answer::Count(3)),
    (Call::Flush, Answer::Line),
    (Call::Stored(0, 0), Answer::Byte(100)),
    (Call::Stored(3, 0), Answer::Byte(3)),
    (Call::Flush, Answer::Line),
    (Call::Stored(3, 0), Answer::Byte(103)),
    (Call::Stored(1, 0), Answer::Byte(1)),
    (Call::Flush, Answer::Line),
    (Call::Stored(1, 0), Answer::Byte(101)),
    (Call::Dirty, Answer::Count(0)),
    (Call::Flush, Answer::Clean),
    (Call::Hit(3), Answer::Is(true)),
    // Block 1 was used before block 3.
    (Call::Fill(5), Answer::Done),
    (Call::Hit(1), Answer::Is(false)),
    (Call::Hit(3), Answer::Is(true)),
    (Call::Fill(7), Answer::Done),
    (Call::Hit(3), Answer::Is(false)),
    (Call::Hit(5), Answer::Is(true)),
];

#[test]
fn a_flush_stores_by_set_then_way(rt: HostRuntime) {
    let mut cache = Cache::new(rt.alloc(), 2, 2).expect(&rt, "memory");
    let mut store = Copying {
        blocks: eight(&rt, rt.alloc()),
        copies: 1,
        failing: false,
        faults: 0,
        turn: false,
    };
    play(&rt, &mut cache, &mut store, &FLUSHES);
}

/// One line over a plain list of blocks.
static ONE_LINE: [(Call, Answer); 10] = [
    (Call::Fill(6), Answer::Done),
    (Call::Write(6, 7, 60), Answer::Done),
    (Call::Victim(1), Answer::Must(6)),
    (Call::Evict(1), Answer::Done),
    (Call::Fill(1), Answer::Done),
    (Call::Write(1, 0, 10), Answer::Done),
    (Call::Flush, Answer::Line),
    (Call::Flush, Answer::Clean),
    (Call::Stored(6, 7), Answer::Byte(60)),
    (Call::Stored(1, 0), Answer::Byte(10)),
];

#[test]
fn a_cache_of_one_line_over_a_list(rt: HostRuntime) {
    let mut cache = Cache::new(rt.alloc(), 1, 1).expect(&rt, "memory");
    let mut store = eight(&rt, rt.alloc());
    play(&rt, &mut cache, &mut store, &ONE_LINE);
}

// A store that fails changes no line.
#[test]
fn a_store_that_fails_changes_no_line(rt: HostRuntime) {
    let mut cache = Cache::new(rt.alloc(), 1, 1).expect(&rt, "memory");
    let mut store = Copying {
        blocks: eight(&rt, rt.alloc()),
        copies: 0,
        failing: true,
        faults: 0,
        turn: false,
    };
    let filled = fill(&mut cache, &mut store, 3);
    assert!(rt; filled == Err(NvmError::Failed));
    expect(&rt, cache.find(3).is_some(), false);
    expect(&rt, store.faults, 1);
}
