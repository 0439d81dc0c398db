//! The hart's turn while its epoch is over or a page is promoted: what comes before a seal, and the seal.
ghost use Rattle.std.specs.Prelude.{◌≡◌, ◌≢◌, Ok, None, Some, true, false, ◌+◌, ◌<◌, ◌^◌};
ghost use Rattle.thy_cache.specs.Contents.{dirty_count};
ghost use Rattle.thy_computer.specs.declared.did.Stall.TheVariants.{Sealing};
ghost use Rattle.thy_computer.specs.NextActor.{Stalled};
ghost use Rattle.thy_scheme.specs.MachineCalls.{after_seal};
ghost use Rattle.thy_core.specs.Cycles.{IsAnyRun, CanTake, HasTaken};
ghost use Rattle.thy_core.specs.MachineParts.{machine_of};

use crate::parts::MachineParts;
use thy_block::{EndCause, Mark, Nvm, NvmError};
use thy_computer::Did;
use thy_isa::is_running;
use thy_scheme::Scheme;

/// Promotes a block of a page, or stores a dirty line, or merges a block into its page, or else seals the epoch: steps 5, 2, 3
/// and 4 of an epoch's end in docs/CONTROLLER.md.
#[inline(never)]
pub(crate) fn prepare<N: Nvm, S: Scheme>(
    m: &mut MachineParts<S>,
    nvm: &mut N,
) -> Result<Did, NvmError>
    requires { CanTake S.scheme IsAnyRun (Stalled Sealing) (machine_of m.old) (N.device nvm.old) }
    ensures { HasTaken S.scheme IsAnyRun (Stalled Sealing)
        (machine_of m.old) (N.device nvm.old) (machine_of m.new) (N.device nvm.new) result }
{
    if m.store.scheme.promoting() {
        promote(m, nvm)
    } else if m.cache.dirty() != 0 {
        flush(m, nvm)
    } else if m.store.scheme.overlay() {
        Ok(merge(m, nvm))
    } else {
        Ok(seal(m, nvm))
    }
}

/// Promotes a block of a page.
fn promote<N: Nvm, S: Scheme>(m: &mut MachineParts<S>, nvm: &mut N) -> Result<Did, NvmError>
    requires turn { CanTake S.scheme IsAnyRun (Stalled Sealing) (machine_of m.old) (N.device nvm.old) }
    requires promoting { S.scheme.promoting m.old.store.scheme ≡ true }
    ensures { HasTaken S.scheme IsAnyRun (Stalled Sealing)
        (machine_of m.old) (N.device nvm.old) (machine_of m.new) (N.device nvm.new) result }
{
    m.store.scheme.promote_one(nvm)?;
    m.spent += 1;
    Ok(Did::Promoted)
}

/// Stores a dirty line, or makes the copy that has to come first.
fn flush<N: Nvm, S: Scheme>(m: &mut MachineParts<S>, nvm: &mut N) -> Result<Did, NvmError>
    requires turn { CanTake S.scheme IsAnyRun (Stalled Sealing) (machine_of m.old) (N.device nvm.old) }
    requires whole { S.scheme.promoting m.old.store.scheme ≡ false }
    requires dirty { dirty_count m.old.cache ≢ 0 }
    ensures { HasTaken S.scheme IsAnyRun (Stalled Sealing)
        (machine_of m.old) (N.device nvm.old) (machine_of m.new) (N.device nvm.new) result }
{
    let _flushed = m.cache.flush_one(&mut m.store, nvm)?;
    m.spent += 1;
    Ok(Did::Flushed)
}

/// Merges a block into its page.
fn merge<N: Nvm, S: Scheme>(m: &mut MachineParts<S>, nvm: &N) -> Did
    requires turn { CanTake S.scheme IsAnyRun (Stalled Sealing) (machine_of m.old) (N.device nvm.now) }
    requires whole { S.scheme.promoting m.old.store.scheme ≡ false }
    requires clean { dirty_count m.old.cache ≡ 0 }
    requires overlaid { S.scheme.overlaid m.old.store.scheme ≡ true }
    ensures { HasTaken S.scheme IsAnyRun (Stalled Sealing)
        (machine_of m.old) (N.device nvm.now) (machine_of m.new) (N.device nvm.now) (Ok result) }
{
    m.store.scheme.merge_one();
    m.spent += 1;
    Did::Merged
}

/// Seals the epoch, which is over.
fn seal<N: Nvm, S: Scheme>(m: &mut MachineParts<S>, nvm: &N) -> Did
    requires turn { CanTake S.scheme IsAnyRun (Stalled Sealing) (machine_of m.old) (N.device nvm.now) }
    requires whole { S.scheme.promoting m.old.store.scheme ≡ false }
    requires clean { dirty_count m.old.cache ≡ 0 }
    requires bare { S.scheme.overlaid m.old.store.scheme ≡ false }
    ensures { HasTaken S.scheme IsAnyRun (Stalled Sealing)
        (machine_of m.old) (N.device nvm.now) (machine_of m.new) (N.device nvm.now) (Ok result) }
{
    let epoch = m.hart.epoch().epoch();
    let count = m.hart.cpu().count;
    let Some(cause) = m.hart.epoch().over() else {
        unreachable!()
    };
    m.store.scheme.seal(&m.hart.cpu(), epoch);
    begin_epoch(m);
    Did::Sealed(epoch, count, cause)
}

/// Notes that the epoch was sealed, and begins the next one.
fn begin_epoch<S>(m: &mut MachineParts<S>)
    requires over { m.old.hart.epoch.over ≢ None }
    requires number { m.old.hart.epoch.number + 1 < 2 ^ 64 }
    ensures { machine_of m.new ≡ after_seal m.old.store.scheme (machine_of m.old) }
{
    let cpu = m.hart.cpu();
    m.checkpoints.sealed = Some(Mark {
        epoch: m.hart.epoch().epoch(),
        count: cpu.count,
    });
    m.consoles.sealed = cpu.console_len;
    m.ends = !is_running(cpu.status);
    m.idle = m.hart.epoch().retired() == 0;
    m.hart.sealed();
    m.spent = 0;
    m.lap = 0;
}
