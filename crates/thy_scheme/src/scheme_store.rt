//! A scheme as a store of blocks.
use crate::Scheme;
use thy_block::{Block, BlockStore, Nvm, NvmError, Stored};

/// A scheme as the store of blocks below cache and hart.
#[derive(Drop)]
pub struct SchemeStore<S> {
    pub scheme: S,
    /// The store's owner has marked it as calm, and no block was loaded or stored through it since.
    pub calm: bool,
}

impl<N: Nvm, S: Scheme> BlockStore<N> for SchemeStore<S> {
    ghost use Rattle.thy_scheme.specs.SchemeStore.{held_by_scheme, loads_by, stores_by, IsOneCall};

    ghost holding = { λ store nvm. held_by_scheme S.scheme store.scheme (N.device nvm) };

    ghost once = { λ a m b n. IsOneCall S.scheme a (N.device m) b (N.device n) };

    ghost loads = { loads_by N.device };

    ghost stores = { stores_by S.scheme N.device };

    ghost stays = { λ a m b n. S.scheme.stays a.scheme (N.device m) b.scheme (N.device n) };

    fn load(&mut self, b: u64, nvm: &mut N) -> Result<Block, NvmError> {
        self.calm = false;
        self.scheme.load(b, nvm)
    }

    fn store(&mut self, b: u64, block: &Block, nvm: &mut N) -> Result<Stored, NvmError> {
        self.calm = false;
        self.scheme.store(b, block, nvm)
    }

    ghost once_stays = { λ a m b n once. once.access.stays };

    ghost stays_same = { λ store nvm. S.lawful.stays_same store.scheme (N.device nvm) };

    ghost stays_on = { λ a m b n c o first second.
        S.lawful.stays_on a.scheme (N.device m) b.scheme (N.device n) c.scheme (N.device o) first second };
}
