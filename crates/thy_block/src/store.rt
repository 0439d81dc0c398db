//! Stores of blocks: what a cache loads from and stores to.
ghost use Rattle.std.specs.Prelude.{◌≡◌, ◌<◌, true, length, IfOk, OnOk};
ghost use Rattle.thy_block.specs.Device.{block_at, CountsOneFault};
ghost use Rattle.thy_block.specs.Store.{Holding, IsKeptByLoad, HasStored, StoresOver};

use crate::{Block, NvmError};

/// How a store of a block ended.
#[derive(Clone, Copy, Debug, PartialEq, Eq)]
pub enum Stored {
    /// The block is stored.
    Done,
    /// A copy that had to come first was made in its place. The block was not stored: store it again.
    CopyFirst,
}

/// A list of blocks that is held by a store and the device `N` below it.
///
/// A call returns `NvmError` only if it raised the count of faults. Whatever it returns, `once` and `stays` hold from
/// before it to after it.
pub trait BlockStore<N> {
    /// What the store and the device hold together.
    ghost holding: { Self → N → Holding };

    /// From a store and a device before one load or one store to those after it, one that fails too.
    /// It need not hold if no call is made, nor over two calls: it shows that one call was made.
    ghost once: { Self → N → Self → N → Type 0 };

    /// From a store and a device before one load to those after it, one that fails too.
    ghost loads: { Self → N → Self → N → Type 0 };

    /// What a store of a block makes that succeeds and returns this.
    ghost stores: { StoresOver Self N };

    /// What every call keeps, one that fails too: a relation from an earlier store and device to
    /// later ones, over any number of calls.
    ghost stays: { Self → N → Self → N → Type 0 };

    /// Reads block `b`. Nothing changes if it succeeds.
    fn load(&mut self, b: u64, nvm: &mut N) -> Result<Block, NvmError>
        requires { b < length (holding self.old nvm.old).blocks }
        ensures ok { IfOk result (λ block. block ≡ block_at (holding self.old nvm.old).blocks b) }
        ensures same { OnOk result (holding self.new nvm.new ≡ holding self.old nvm.old) }
        ensures kept { IsKeptByLoad (holding self.old nvm.old) (holding self.new nvm.new) }
        ensures loads { loads self.old nvm.old self.new nvm.new }
        ensures once { once self.old nvm.old self.new nvm.new }
        ensures cause { CountsOneFault result (holding self.old nvm.old).faults (holding self.new nvm.new).faults };

    /// Stores block `b`, or makes the copy that has to come first.
    fn store(&mut self, b: u64, block: &Block, nvm: &mut N) -> Result<Stored, NvmError>
        requires inside { b < length (holding self.old nvm.old).blocks }
        requires ready { (holding self.old nvm.old).ready ≡ true }
        requires room { 0 < (holding self.old nvm.old).free }
        ensures ok { IfOk result (λ stored. HasStored stored b block.now (holding self.old nvm.old) (holding self.new nvm.new)) }
        ensures made { IfOk result (λ stored. stores b block.now stored self.old nvm.old self.new nvm.new) }
        ensures once { once self.old nvm.old self.new nvm.new }
        ensures cause { CountsOneFault result (holding self.old nvm.old).faults (holding self.new nvm.new).faults };

    /// What every call keeps stays.
    ghost once_stays: { (a : Self) (m : N) (b : Self) (n : N) → once a m b n → stays a m b n };

    /// What stays holds from a moment to itself.
    ghost stays_same: { (store : Self) (nvm : N) → stays store nvm store nvm };

    /// What stays from one moment to the next stays over both.
    ghost stays_on: { (a : Self) (m : N) (b : Self) (n : N) (c : Self) (o : N) → stays a m b n → stays b n c o → stays a m c o };
}

/// A plain list of blocks, with no device below it. Every store is done, and no call fails.
impl BlockStore<()> for Vec<Block> {
    ghost use Rattle.std.specs.Prelude.{slice_set};
    ghost use Rattle.thy_block.specs.declared.store.Stored.TheVariants.{Done};
    ghost use Rattle.thy_block.specs.Store.{flat_list, ChangesOne};

    ghost holding = { λ list nothing. flat_list list.items };

    ghost once = { λ a m b n. ChangesOne a.items b.items };

    ghost loads = { λ a m b n. b.items ≡ a.items };

    ghost stores = { λ b block stored list m new n. (stored ≡ Done) × (new.items ≡ slice_set list.items b block) };

    ghost stays = { λ a m b n. Unit {0} };

    fn load(&mut self, b: u64, _nvm: &mut ()) -> Result<Block, NvmError> {
        Ok(self[b as usize])
    }

    fn store(&mut self, b: u64, block: &Block, _nvm: &mut ()) -> Result<Stored, NvmError> {
        self[b as usize] = *block;
        Ok(Stored::Done)
    }

    ghost once_stays = { λ a m b n once. tt };

    ghost stays_same = { λ list nothing. tt };

    ghost stays_on = { λ a m b n c o first second. tt };
}
