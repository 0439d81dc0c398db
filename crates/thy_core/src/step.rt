//! One cycle of a pick: a hart's that advances its instruction, or another actor's.
ghost use Rattle.std.specs.Prelude.{◌≡◌, ◌≤◌, Ok, None, is_err};
ghost use Rattle.thy_block.specs.Device.{IsFramed, CountsFault};
ghost use Rattle.thy_computer.specs.Advances.{IfAdvanced, IsOthersCycle, SimulatesRow, row_of};
ghost use Rattle.thy_computer.specs.Kind.{CanStep, Simulates, FailsSafe};
ghost use Rattle.thy_scheme.specs.Kind.{kind_over};
ghost use Rattle.thy_core.specs.Calm.{KnowsCalm};
ghost use Rattle.thy_core.specs.MachineParts.{machine_of};

use crate::cycle::{take_hart, take_other};
use crate::hart::execute_row;
use crate::parts::MachineParts;
use crate::turn::{NextActor, actor_now, actor_of, only_harts};
use thy_block::{Nvm, NvmError, Pick};
use thy_computer::{Advance, Row, Stepped};
use thy_layout::Start;
use thy_scheme::Scheme;

/// Takes the pick's cycle, if a hart advances in it. Notes whether it failed.
#[inline(always)]
pub(crate) fn step_hart<N: Nvm, S: Scheme>(
    m: &mut MachineParts<S>,
    pick: Pick,
    start: &Start,
    nvm: &mut N,
) -> Result<Option<Advance>, NvmError>
    requires can { CanStep (kind_over S.scheme) start.now (machine_of m.old) (N.device nvm.old) }
    requires known { KnowsCalm S.scheme m.old }
    ensures steps { IfAdvanced result (Simulates (kind_over S.scheme) start.now pick
        (machine_of m.old) (machine_of m.new) (N.device nvm.old) (N.device nvm.new)) }
    ensures safe { IfAdvanced result (FailsSafe (kind_over S.scheme) start.now pick
        (machine_of m.old) (machine_of m.new) (N.device nvm.old) (N.device nvm.new)) }
    ensures frame { IsFramed (N.device nvm.old) (N.device nvm.new) }
    ensures cause { CountsFault result (N.device nvm.old).faults (N.device nvm.new).faults }
    ensures left { result ≡ Ok None → (m.new ≡ m.old) × (nvm.new ≡ nvm.old) }
    ensures others { result ≡ Ok None → IsOthersCycle (kind_over S.scheme) pick (machine_of m.old) (N.device nvm.old) }
    ensures failed { m.new.failed ≡ is_err result }
    ensures known { KnowsCalm S.scheme m.new }
{
    match actor_now(m, pick, nvm) {
        NextActor::Advances(hart) => match take_hart(m, hart, start, nvm) {
            Ok(advance) => Ok(Some(advance)),
            Err(error) => Err(error),
        },
        NextActor::Other(_) => Ok(None),
    }
}

/// Takes cycles in a row in which a hart advances, the first of them this pick's, if only harts have something to do.
#[inline(always)]
pub(crate) fn step_row<N: Nvm, S: Scheme>(
    m: &mut MachineParts<S>,
    pick: Pick,
    start: &Start,
    nvm: &N,
) -> Row
    requires can { CanStep (kind_over S.scheme) start.now (machine_of m.old) (N.device nvm.now) }
    requires known { KnowsCalm S.scheme m.old }
    ensures steps { SimulatesRow (kind_over S.scheme) start.now pick (row_of result)
        (machine_of m.old) (machine_of m.new) (N.device nvm.now) }
    ensures few { result.moved ≤ 4 }
    ensures failed { m.new.failed ≡ m.old.failed }
    ensures known { KnowsCalm S.scheme m.new }
{
    if only_harts(m, nvm) {
        execute_row(m, pick, start, nvm)
    } else {
        Row {
            moved: 0,
            retired: None,
        }
    }
}

/// Takes the pick's cycle, if no hart advances in it. Notes whether it failed.
pub(crate) fn step_other<N: Nvm, S: Scheme>(
    m: &mut MachineParts<S>,
    pick: Pick,
    start: &Start,
    nvm: &mut N,
) -> Result<Stepped, NvmError>
    requires can { CanStep (kind_over S.scheme) start.now (machine_of m.old) (N.device nvm.old) }
    requires others { IsOthersCycle (kind_over S.scheme) pick (machine_of m.old) (N.device nvm.old) }
    ensures steps { Simulates (kind_over S.scheme) start.now pick
        (machine_of m.old) (machine_of m.new) (N.device nvm.old) (N.device nvm.new) result }
    ensures safe { FailsSafe (kind_over S.scheme) start.now pick
        (machine_of m.old) (machine_of m.new) (N.device nvm.old) (N.device nvm.new) result }
    ensures frame { IsFramed (N.device nvm.old) (N.device nvm.new) }
    ensures cause { CountsFault result (N.device nvm.old).faults (N.device nvm.new).faults }
    ensures failed { m.new.failed ≡ is_err result }
    ensures known { KnowsCalm S.scheme m.new }
{
    match actor_of(m, pick, nvm.queued()) {
        NextActor::Advances(_) => unreachable!(),
        NextActor::Other(actor) => take_other(m, actor, start, nvm),
    }
}
