//! The controller over the simulated NVM, compared with a plain list of blocks: random loads and stores of one epoch.
ghost use Rattle.std.specs.Prelude.{◌≡◌, ◌<◌, true, false, length};
ghost use Rattle.thy_table.specs.Places.{image_blocks};
ghost use Rattle.thy_control.specs.Holding.{holding_of};
ghost use Rattle.thy_control_tests.specs.Beside.{Takes};

use crate::support::drawn::{block_in, drawn_image};
use crate::support::expect::expect;
use std::alloc::Global;
use std::process::Abort;
use thy_base::{Block, BlockStore, Geometry, Lcg, Nvm, Parameters, Shape, Stored};
use thy_control::{Control, a_new_controller_is_ready, blocks_are_works};
use thy_dram::Dram;
use thy_nvm::MemNvm;
use thy_table::{blocks, home};
use thy_test_support::{LEAST, drawn, geometry_of};

/// The least memory, 512 blocks. The block table has room for 64 of them.
static ROOMY: Parameters = Parameters {
    btt: 64,
    high: 63,
    low: 0,
    ..LEAST
};

/// What memory has to hold, block by block.
#[derive(Drop)]
struct Beside {
    /// The blocks at the start, which is the committed checkpoint.
    start: Vec<Block>,
    /// The blocks now.
    blocks: Vec<Block>,
    /// The blocks that were stored.
    stored: Vec<u64>,
    /// How many blocks more the block table has room for.
    room: u64,
}

/// One of 60 blocks, eight a page and four of the last; or any block.
fn drawn_block(lcg: &mut Lcg, few: bool) -> u64
    ensures { result < 512 }
{
    let draw = lcg.next();
    if few {
        let spot = draw % 60;
        spot * 8 + spot % 8
    } else {
        draw % 512
    }
}

fn load<N, S: BlockStore<N>>(rt: &impl Abort, store: &mut S, nvm: &mut N, b: u64, want: Block)
    requires { b < length (S.holding store.old nvm.old).blocks }
    ensures { S.holding store.new nvm.new ≡ S.holding store.old nvm.old }
{
    let block = store.load(b, nvm).expect(rt, "a load");
    expect(rt, block, want);
}

/// A store in the first epoch needs no copy before it.
fn store<N, S: BlockStore<N>>(rt: &impl Abort, store: &mut S, nvm: &mut N, b: u64, block: &Block)
    requires inside { b < length (S.holding store.old nvm.old).blocks }
    requires ready { (S.holding store.old nvm.old).ready ≡ true }
    requires room { 0 < (S.holding store.old nvm.old).free }
    ensures long { length (S.holding store.new nvm.new).blocks ≡ length (S.holding store.old nvm.old).blocks }
    ensures ready { (S.holding store.new nvm.new).ready ≡ true }
{
    match store.store(b, block, nvm).expect(rt, "a store") {
        Stored::Done => {}
        Stored::CopyFirst => expect(rt, Stored::CopyFirst, Stored::Done),
    }
}

fn committed<N: Nvm>(rt: &impl Abort, control: &Control, nvm: &mut N, b: u64, want: Block)
    requires { b < length (holding_of control.now (N.device nvm.old)).blocks }
    ensures { N.device nvm.new ≡ N.device nvm.old }
{
    blocks_are_works();
    let block = control.committed(b, nvm).expect(rt, "a load");
    expect(rt, block, want);
}

impl Beside {
    /// Notes that a store is done.
    fn store(&mut self, rt: &impl Abort, b: u64, block: Block) {
        match self.blocks.get_mut(b as usize) {
            Some(place) => *place = block,
            None => panic!(rt; "no block"),
        }
        if !self.stored.contains(&b) {
            self.stored.push(b).expect(rt, "memory");
            self.room = self.room.saturating_sub(1);
        }
    }
}

/// Stores a drawn block while there is room.
fn store_drawn<N: Nvm>(
    rt: &impl Abort,
    control: &mut Control,
    nvm: &mut N,
    beside: &mut Beside,
    lcg: &mut Lcg,
    b: u64,
)
    requires inside { b < 512 }
    requires takes { Takes (holding_of control.old (N.device nvm.old)) }
    ensures takes { Takes (holding_of control.new (N.device nvm.new)) }
{
    if control.free() == 0 {
        return;
    }
    let block = drawn(lcg);
    store(rt, control, nvm, b, &block);
    beside.store(rt, b, block);
}

/// Makes one drawn call for block `b`, and compares what it gives.
fn call<N: Nvm>(
    rt: &impl Abort,
    control: &mut Control,
    nvm: &mut N,
    beside: &mut Beside,
    lcg: &mut Lcg,
    b: u64,
)
    requires inside { b < 512 }
    requires takes { Takes (holding_of control.old (N.device nvm.old)) }
    ensures takes { Takes (holding_of control.new (N.device nvm.new)) }
{
    match lcg.next() % 4 {
        0 => load(rt, control, nvm, b, block_in(rt, &beside.blocks, b)),
        1 => committed(rt, control, nvm, b, block_in(rt, &beside.start, b)),
        _ => store_drawn(rt, control, nvm, beside, lcg, b),
    }
    expect(rt, control.free(), beside.room);
}

/// Makes a number of drawn calls.
fn calls<N: Nvm>(
    rt: &impl Abort,
    control: &mut Control,
    nvm: &mut N,
    beside: &mut Beside,
    lcg: &mut Lcg,
    few: bool,
)
    requires takes { Takes (holding_of control.old (N.device nvm.old)) }
    ensures takes { Takes (holding_of control.new (N.device nvm.new)) }
{
    for _ in 0..3000 {
        let b = drawn_block(lcg, few);
        call(rt, control, nvm, beside, lcg, b);
    }
}

/// Loads every block, and the committed version of each.
fn compare<N: Nvm>(rt: &impl Abort, control: &mut Control, nvm: &mut N, beside: &Beside)
    requires takes { Takes (holding_of control.old (N.device nvm.old)) }
{
    for b in 0..512 {
        load(rt, control, nvm, b, block_in(rt, &beside.blocks, b));
        committed(rt, control, nvm, b, block_in(rt, &beside.start, b));
    }
}

fn fit<N: Nvm>(rt: &impl Abort, alloc: Global, nvm: &mut N, geometry: &Geometry, image: &[Block])
    requires { length image.now ≡ image_blocks geometry.now }
    ensures sized { length (N.device nvm.new).image ≡ image_blocks geometry.now }
    ensures up { (N.device nvm.new).down ≡ false }
{
    let shape = Shape {
        blocks: blocks(geometry),
        queue: 4,
        cuts: 0,
    };
    let start = Vec::from_slice(alloc, image).expect(rt, "memory");
    nvm.fit(alloc, &shape, start).expect(rt, "a device");
}

/// The controller of a machine whose power came on, over an NVM of its size.
fn controller<N: Nvm>(rt: &impl Abort, alloc: Global, geometry: &Geometry, nvm: &N) -> Control
    requires least { geometry.now.pages ≡ 8 }
    requires sized { length (N.device nvm.now).image ≡ image_blocks geometry.now }
    requires up { (N.device nvm.now).down ≡ false }
    ensures { Takes (holding_of result (N.device nvm.now)) }
{
    let dram = Dram::new(alloc, geometry.dram_blocks(), 4).expect(rt, "memory");
    let control = Control::new(alloc, geometry, dram).expect(rt, "memory");
    a_new_controller_is_ready();
    blocks_are_works();
    control
}

/// The blocks of memory as an image has them.
fn memory_of(rt: &impl Abort, alloc: Global, geometry: &Geometry, image: &[Block]) -> Beside
    requires least { geometry.now.pages ≡ 8 }
    requires long { length image.now ≡ image_blocks geometry.now }
{
    let home = home(geometry, 0) as usize;
    let memory = &image[home..home + 512];
    Beside {
        start: memory.to_vec(alloc).expect(rt, "memory"),
        blocks: memory.to_vec(alloc).expect(rt, "memory"),
        stored: Vec::new(alloc),
        room: 64,
    }
}

// First a few blocks are stored over and over, and then any, until no entry of the block table is free.
#[test]
fn random_calls_answer_as_a_list_of_blocks(rt: HostRuntime) {
    let geometry = geometry_of(rt.alloc(), &ROOMY).expect(&rt, "numbers in range");
    let mut lcg = Lcg::new(1);
    let image = drawn_image(&rt, rt.alloc(), &geometry, &mut lcg);
    let mut beside = memory_of(&rt, rt.alloc(), &geometry, &image);
    let mut nvm = MemNvm::new(rt.alloc());
    fit(&rt, rt.alloc(), &mut nvm, &geometry, &image);
    let mut control = controller(&rt, rt.alloc(), &geometry, &nvm);
    calls(&rt, &mut control, &mut nvm, &mut beside, &mut lcg, true);
    calls(&rt, &mut control, &mut nvm, &mut beside, &mut lcg, false);
    expect(&rt, control.free(), 0);
    compare(&rt, &mut control, &mut nvm, &beside);
}
