//! What the pick of a cut leaves.
ghost use Rattle.std.specs.Prelude.{◌≡◌, ◌≢◌, ◌<◌, ◌^◌, ℕ, List, length, Contains};
ghost use Rattle.thy_block.specs.declared.block.Block.{Block as BlockOf};
ghost use Rattle.thy_block.specs.Device.{possible, queued_for, block_at, word_bytes, IsMadeOf, Crash};
ghost use Rattle.thy_block.specs.Lcg.{lcg_next};
ghost use Rattle.thy_dram.specs.Held.{device_of};
ghost use Rattle.thy_nvm.specs.Pick.{drawn_block, drawn_seed, drawn, drawn_at, with_word, torn_block, torn_seed, torn, torn_at, left_by_draws, picked, left_by, landing};

use thy_block::{Block, Lcg};
use thy_dram::Ring;

/// Draws for one place, which has this number of queued writes, a block that may be left there.
fn draw_block(ring: &Ring, at: u64, count: u64, draws: &mut Lcg) -> Block
    requires place { at < length ring.now.image }
    requires count { count ≡ length (queued_for ring.now.queue at) }
    requires some { 0 < count }
    requires small { count < 2 ^ 63 }
    ensures block { result ≡ drawn_block draws.old (block_at ring.now.image at) (queued_for ring.now.queue at) }
    ensures draws { draws.new ≡ lcg_next draws.old }
    ensures one_of { Contains (possible (device_of ring.now) at) result }
{
    let index = draws.next() % (count + 1);
    ring.choice(at, index)
}

/// Draws for one place what it keeps, if a write is queued for it.
fn draw_place(ring: &mut Ring, at: u64, draws: &mut Lcg)
    requires { at < length ring.old.image }
    ensures ring { ring.new ≡ drawn_at draws.old at ring.old }
    ensures draws { draws.new ≡ drawn_seed draws.old (queued_for ring.old.queue at) }
{
    let count = ring.queued_at(at);
    if count > 0 {
        let chosen = draw_block(ring, at, count, draws);
        ring.put(at, &chosen);
    }
}

/// How many places, in blocks, the image of a ring has.
pub(crate) fn size_of(ring: &Ring) -> u64
    ensures size { result ≡ length ring.now.image }
    ensures small { result < 2 ^ 64 }
{
    ring.image().len() as u64
}

/// Lets each place with a queued write take its draw, by rising number. The queue stays.
fn draw_places(ring: &mut Ring, seed: u64)
    ensures { ring.new ≡ record ring.old { image = drawn seed 0 ring.old.image ring.old.queue } }
{
    let _size = size_of(ring);
    let mut draws = Lcg::new(seed);
    let mut from = 0;
    'places: while let Some(x) = ring.next_queued(from) {
        draw_place(ring, x, &mut draws);
        from = x + 1;
    }
}

/// How many bytes a block has.
fn bytes_of(block: &Block) -> usize
    ensures size { result ≡ length block.now.0 }
    ensures is_block { result ≡ 64 }
{
    let bytes: &[u8] = &block.0;
    bytes.len()
}

/// A block with word `k` of another one.
pub(crate) fn replace_word(block: &Block, k: usize, from: &Block) -> Block
    requires { k < 8 }
    ensures word { result ≡ with_word k from.now block.now }
    ensures there { word_bytes result k ≡ word_bytes from.now k }
    ensures others { (i : ℕ) → i ≢ k → word_bytes result i ≡ word_bytes block.now i }
    ensures made { (blocks : List BlockOf) → Contains blocks from.now → IsMadeOf blocks block.now → IsMadeOf blocks result }
{
    // In the logic a block is a list of any length: these two have 64 bytes because they are at hand.
    let _own = bytes_of(block);
    let _other = bytes_of(from);
    let mut replaced = *block;
    replaced.put(8 * k, &from.0[8 * k..8 * k + 8]);
    replaced
}

/// Makes for one place, which has this number of queued writes, a block that is torn: each word is from the block of a draw of
/// its own.
fn tear_block(ring: &Ring, at: u64, count: u64, draws: &mut Lcg) -> Block
    requires place { at < length ring.now.image }
    requires count { count ≡ length (queued_for ring.now.queue at) }
    requires some { 0 < count }
    requires small { count < 2 ^ 63 }
    ensures block { result ≡ torn_block draws.old (block_at ring.now.image at) (queued_for ring.now.queue at) }
    ensures draws { draws.new ≡ torn_seed draws.old (queued_for ring.now.queue at) }
    ensures made { IsMadeOf (possible (device_of ring.now) at) result }
{
    let mut torn = ring.choice(at, 0);
    for k in 0..8usize {
        let chosen = draw_block(ring, at, count, draws);
        torn = replace_word(&torn, k, &chosen);
    }
    torn
}

/// Draws for one place what it keeps, word by word, if a write is queued for it.
fn tear_place(ring: &mut Ring, at: u64, draws: &mut Lcg)
    requires { at < length ring.old.image }
    ensures ring { ring.new ≡ torn_at draws.old at ring.old }
    ensures draws { draws.new ≡ torn_seed draws.old (queued_for ring.old.queue at) }
    ensures made { IsMadeOf (possible (device_of ring.old) at) (block_at ring.new.image at) }
{
    let count = ring.queued_at(at);
    if count > 0 {
        let torn = tear_block(ring, at, count, draws);
        ring.put(at, &torn);
    }
}

/// Lets each place with a queued write take its draws, by rising number. The queue stays.
fn tear_places(ring: &mut Ring, seed: u64)
    ensures ring { ring.new ≡ record ring.old { image = torn seed 0 ring.old.image ring.old.queue } }
    ensures made { (x : ℕ) → x < length ring.old.image → IsMadeOf (possible (device_of ring.old) x) (block_at ring.new.image x) }
{
    let mut draws = Lcg::new(seed);
    for x in 0..ring.image().len() {
        tear_place(ring, x as u64, &mut draws);
    }
}

/// Lets each place with a queued write take its draws, one for a block that lands whole, else one for each word.
fn take_draws(ring: &mut Ring, seed: u64, whole: bool)
    ensures ring { ring.new ≡ record ring.old { image = left_by_draws whole seed ring.old.image ring.old.queue } }
    ensures left { Crash (landing whole ring.old) ring.new.image }
{
    if whole {
        draw_places(ring, seed);
    } else {
        tear_places(ring, seed);
    }
}

/// Sets the image of a ring to the one that the pick gives. The queue stays.
fn take_pick(ring: &mut Ring, pick: u64, whole: bool)
    ensures image { ring.new.image ≡ picked whole pick ring.old.image ring.old.queue }
    ensures room { ring.new.room ≡ ring.old.room }
    ensures left { Crash (landing whole ring.old) ring.new.image }
{
    match pick {
        0 => {}
        1 => ring.settle(),
        seed => take_draws(ring, seed, whole),
    }
}

/// Leaves the image that the pick gives, with nothing queued.
pub(crate) fn leave(ring: &mut Ring, pick: u64, whole: bool)
    ensures ring { ring.new ≡ left_by whole pick ring.old }
    ensures left { Crash (landing whole ring.old) ring.new.image }
{
    take_pick(ring, pick, whole);
    ring.clear_queue();
}
