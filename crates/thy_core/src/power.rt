//! Power: it comes on, and is lost.
ghost use Rattle.std.specs.Prelude.{◌≡◌, ℕ, ◌<◌, false, IfOk, length};
ghost use Rattle.thy_block.specs.Device.{Device};
ghost use Rattle.thy_dram.specs.Contents.{lost};
ghost use Rattle.thy_computer.specs.declared.view.View.{View};
ghost use Rattle.thy_computer.specs.Kind.{IsDramOf, ShowsLoading};
ghost use Rattle.thy_computer.specs.Origin.{Origin};
ghost use Rattle.thy_isa.specs.Step.{zero_cpu};
ghost use Rattle.thy_scheme.specs.Kind.{kind_over};
ghost use Rattle.thy_core.specs.MachineParts.{machine_of};
ghost use Rattle.thy_scheme.specs.Sound.{IsAt, SoundStopped, IsPowered};

use crate::parts::{Checkpoints, Consoles, MachineParts};
use std::alloc::{AllocError, Global};
use thy_block::{Geometry, Mark};
use thy_cache::Cache;
use thy_computer::Phase;
use thy_dram::Dram;
use thy_hart::Hart;
use thy_isa::CpuState;
use thy_scheme::{Scheme, SchemeStore};

/// The parts of a machine whose power has just come on, over a DRAM of any content.
pub(crate) fn power_on<S: Scheme>(
    alloc: Global,
    geometry: &Geometry,
    dram: Dram,
) -> Result<MachineParts<S>, AllocError>
    requires { IsDramOf geometry.now dram }
    ensures powered { IfOk result (λ m. IsPowered S.scheme geometry.now (machine_of m)) }
    ensures processor { IfOk result (λ m. (machine_of m).hart.cpu ≡ zero_cpu) }
    ensures dram { IfOk result (λ m. S.scheme.dram m.store.scheme ≡ dram) }
    ensures unmarked { IfOk result (λ m. m.store.calm ≡ false) }
{
    let numbers = geometry.numbers();
    let cache = Cache::new(alloc, numbers.sets, numbers.ways)?;
    let scheme = S::new(alloc, geometry, dram)?;
    Ok(MachineParts {
        hart: Hart::new(&CpuState::zero(), 0, geometry),
        cache,
        store: SchemeStore {
            scheme,
            calm: false,
        },
        phase: Phase::Boot,
        checkpoints: Checkpoints {
            done: Mark { epoch: 0, count: 0 },
            sealed: None,
            written: false,
        },
        consoles: Consoles { done: 0, sealed: 0 },
        ends: false,
        spent: 0,
        lap: 0,
        idle: false,
        failed: false,
        begun: None,
        last: None,
    })
}

/// Whether the boot is not over and has found no checkpoint.
pub(crate) fn is_loading<S: Scheme>(m: &MachineParts<S>) -> bool
    ensures { ShowsLoading (kind_over S.scheme) (machine_of m.now) result }
{
    match m.phase {
        Phase::Boot => m.store.scheme.loading(),
        Phase::Run | Phase::Halt => false,
    }
}

/// Loses power: all is gone but the DRAM, whose bytes are those that the pick draws.
pub(crate) fn cut<S: Scheme>(m: MachineParts<S>, pick: u64) -> Dram
    ensures drawn { result ≡ lost (S.scheme.dram m.store.scheme) pick }
    ensures sized { (o : Origin) (k : ℕ) (n : Device) → IsAt S.scheme o k (machine_of m) n → IsDramOf o.geometry result }
    ensures stopped { (o : Origin) (before : View) → SoundStopped S.scheme o before (machine_of m) → IsDramOf o.geometry result }
{
    m.store.scheme.cut(pick)
}
