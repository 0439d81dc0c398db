//! A line that is missing.
ghost use Rattle.std.specs.Prelude.{◌≡◌, true, false, ◌<◌, ◌≤◌, length, OnOk, OnErr};
ghost use Rattle.thy_block.specs.Device.{CountsOneFault};
ghost use Rattle.thy_cache.specs.Contents.{hits, victim_of, dirty_count};
ghost use Rattle.thy_cache.specs.Flat.{Agrees};
ghost use Rattle.thy_hart.specs.Bring.{BringsBy, IsBrought};
ghost use Rattle.thy_hart.specs.Moments.{IsOpenFor};

use thy_block::{BlockStore, NvmError};
use thy_cache::{Cache, Victim};

/// Brings the line of block `b`, which does not hit, a step nearer: stores the dirty line in its way, or makes
/// the copy that has to come first, or fills the block in. If the store fails nothing has changed here.
pub(crate) fn bring<N, S: BlockStore<N>>(
    cache: &mut Cache,
    b: u64,
    store: &mut S,
    nvm: &mut N,
) -> Result<(), NvmError>
    requires inside { b < length (S.holding store.old nvm.old).blocks }
    requires miss { hits cache.old b ≡ false }
    requires agree { Agrees cache.old (S.holding store.old nvm.old).blocks }
    requires ready { (S.holding store.old nvm.old).ready ≡ true }
    requires room { dirty_count cache.old ≤ (S.holding store.old nvm.old).free }
    requires opened { IsOpenFor cache.old (Some b) (S.holding store.old nvm.old).open_page }
    ensures brought { OnOk result (IsBrought b
        cache.old (S.holding store.old nvm.old)
        cache.new (S.holding store.new nvm.new)) }
    ensures called { OnOk result (BringsBy S.loads S.stores (victim_of cache.old b) b
        cache.old cache.new store.old nvm.old store.new nvm.new) }
    ensures err { OnErr result (cache.new ≡ cache.old) }
    ensures once { S.once store.old nvm.old store.new nvm.new }
    ensures loads { dirty_count cache.old ≡ 0 → S.loads store.old nvm.old store.new nvm.new }
    ensures stays { S.stays store.old nvm.old store.new nvm.new }
    ensures cause { CountsOneFault result (S.holding store.old nvm.old).faults (S.holding store.new nvm.new).faults }
{
    match cache.victim(b) {
        Victim::Dirty(_) => match cache.evict(b, store, nvm) {
            Ok(_) => Ok(()),
            Err(fault) => Err(fault),
        },
        Victim::Room => cache.fill(b, store, nvm),
    }
}
