//! A hart's turn while nothing keeps it.
ghost use Rattle.std.specs.Prelude.{◌≡◌, ℕ, None, Some, true, ◌+◌, ◌<◌, ◌≤◌, ◌^◌, ◌&&◌, not, length};
ghost use Rattle.thy_block.specs.declared.mix.Pick.{Pick as PickOf};
ghost use Rattle.thy_computer.specs.Advances.{did_of, SimulatesRow, row_of};
ghost use Rattle.thy_computer.specs.NextActor.{Advances};
ghost use Rattle.thy_hart.specs.declared.hand.Hand.TheVariants.{Nothing};
ghost use Rattle.thy_scheme.specs.MachineCalls.{retires_over, retires_by, ends_by, begun_by_hart, hart_did, after_hart};
ghost use Rattle.thy_scheme.specs.Machine.{cpu_fronted};
ghost use Rattle.thy_scheme.specs.Kind.{kind_over};
ghost use Rattle.thy_core.specs.Calm.{is_calm, KnowsCalm, is_over};
ghost use Rattle.thy_core.specs.Cycles.{HasStart, HasInput, CanTake, HasTaken, did_by};
ghost use Rattle.thy_core.specs.MachineParts.{machine_of};
ghost use Rattle.thy_core.specs.Row.{advances_by, after_row, ends_epoch, ends_last, put_back};
ghost use Rattle.thy_core.specs.Turns.{hart_of};

use crate::parts::MachineParts;
use crate::turn::hart_of;
use thy_block::{EndCause, Nvm, NvmError, Pick};
use thy_computer::{Advance, Row};
use thy_hart::HartStep;
use thy_layout::Start;
use thy_scheme::Scheme;

/// Takes a step of this hart, whose instruction is begun if none is. A machine stays marked as calm until a line is brought or
/// the epoch is over.
pub(crate) fn execute<N: Nvm, S: Scheme>(
    m: &mut MachineParts<S>,
    hart: u8,
    input: &[u8],
    nvm: &mut N,
) -> Result<Advance, NvmError>
    requires turn { CanTake S.scheme (HasInput input.now) (Advances hart) (machine_of m.old) (N.device nvm.old) }
    requires known { KnowsCalm S.scheme m.old }
    ensures taken { HasTaken S.scheme (HasInput input.now) (Advances hart)
        (machine_of m.old) (N.device nvm.old) (machine_of m.new) (N.device nvm.new) (did_by result) }
    ensures phase { m.new.phase ≡ m.old.phase }
    ensures known { KnowsCalm S.scheme m.new }
{
    begin(m, hart);
    let free = m.store.scheme.free();
    let under_way = m.store.scheme.under_way();
    let step = m
        .hart
        .step(&mut m.cache, &mut m.store, nvm, free, under_way, input)?;
    Ok(count(m, hart, step))
}

/// Whether there is one hart.
#[inline(always)]
fn is_single<S>(m: &MachineParts<S>) -> bool
    ensures one { result ≡ true → m.now.hart.geometry.harts ≡ 1 }
    ensures alone { result ≡ true → m.now.hart.cpu.other ≡ None }
{
    m.hart.geometry().harts() == 1 && m.hart.is_alone()
}

/// Takes cycles in a row, the first of them this pick's: steps of its hart's next instruction, as far as they bring no line.
/// Whatever the later picks are, each comes to the same hart. A machine stays marked as calm until the epoch is over. The row is
/// made part of the loop over cycles: once for a hart that is alone, whose number is a constant there, and once for one of two.
#[inline(always)]
pub(crate) fn execute_row<N: Nvm, S: Scheme>(
    m: &mut MachineParts<S>,
    pick: Pick,
    start: &Start,
    nvm: &N,
) -> Row
    requires turn { CanTake S.scheme (HasStart start.now) (Advances (hart_of S.scheme pick (machine_of m.old)))
        (machine_of m.old) (N.device nvm.now) }
    requires calm { is_calm S.scheme (machine_of m.old) ≡ true }
    requires empty { length (N.device nvm.now).queue ≡ 0 }
    ensures steps { SimulatesRow (kind_over S.scheme) start.now pick (row_of result)
        (machine_of m.old) (machine_of m.new) (N.device nvm.now) }
    ensures few { result.moved ≤ 4 }
    ensures failed { m.new.failed ≡ m.old.failed }
    ensures known { KnowsCalm S.scheme m.new }
{
    if is_single(m) {
        row_of::<N, S, (N, S)>(m, 0, true, start, nvm)
    } else {
        row_among(m, pick, start, nvm)
    }
}

/// Takes cycles in a row, as `execute_row` does, of one hart of several.
#[inline(always)]
fn row_among<N: Nvm, S: Scheme>(m: &mut MachineParts<S>, pick: Pick, start: &Start, nvm: &N) -> Row
    requires turn { CanTake S.scheme (HasStart start.now) (Advances (hart_of S.scheme pick (machine_of m.old)))
        (machine_of m.old) (N.device nvm.now) }
    requires calm { is_calm S.scheme (machine_of m.old) ≡ true }
    requires empty { length (N.device nvm.now).queue ≡ 0 }
    ensures steps { SimulatesRow (kind_over S.scheme) start.now pick (row_of result)
        (machine_of m.old) (machine_of m.new) (N.device nvm.now) }
    ensures few { result.moved ≤ 4 }
    ensures failed { m.new.failed ≡ m.old.failed }
    ensures known { KnowsCalm S.scheme m.new }
{
    let hart = hart_of(m, pick);
    row_of::<N, S, (N, ())>(m, hart, false, start, nvm)
}

/// Takes cycles in a row of this hart, to whom each pick comes. It is alone if `alone` says so. The type `C` makes a copy of the
/// hart's micro-steps for each caller.
#[inline(always)]
fn row_of<N: Nvm, S: Scheme, C>(
    m: &mut MachineParts<S>,
    hart: u8,
    alone: bool,
    start: &Start,
    nvm: &N,
) -> Row
    requires turn { CanTake S.scheme (HasStart start.now) (Advances hart) (machine_of m.old) (N.device nvm.now) }
    requires alone { alone ≡ true → m.old.hart.cpu.other ≡ None }
    requires calm { is_calm S.scheme (machine_of m.old) ≡ true }
    requires empty { length (N.device nvm.now).queue ≡ 0 }
    ensures steps { (pick : PickOf) → hart_of S.scheme pick (machine_of m.old) ≡ hart
        → SimulatesRow (kind_over S.scheme) start.now pick (row_of result) (machine_of m.old) (machine_of m.new) (N.device nvm.now) }
    ensures few { result.moved ≤ 4 }
    ensures failed { m.new.failed ≡ m.old.failed }
    ensures known { KnowsCalm S.scheme m.new }
{
    let begun = m.begun;
    begin(m, hart);
    let free = m.store.scheme.free();
    let input = start.input.as_slice();
    let (moved, last) = m.hart.step_on::<C>(alone, &mut m.cache, free, false, input);
    if moved == 0 {
        put_back(m, hart, begun);
        return Row {
            moved: 0,
            retired: None,
        };
    }
    count_row(m, hart, moved, last)
}

/// Begins the instruction of this hart, which comes to the front if none was begun.
#[inline(always)]
fn begin<S>(m: &mut MachineParts<S>, hart: u8)
    requires own { (begun : ℕ) → m.old.begun ≡ Some begun → begun ≡ hart }
    requires hand { m.old.begun ≡ None → m.old.hart.hand ≡ Nothing }
    ensures parts { machine_of m.new ≡ begun_by_hart hart (machine_of m.old) }
    ensures store { m.new.store ≡ m.old.store }
{
    if m.begun.is_none() {
        m.begun = Some(hart);
        front(m, hart);
    }
}

/// Undoes `begin`, before which this instruction was begun, if no step was taken.
fn put_back<S>(m: &mut MachineParts<S>, hart: u8, begun: Option<u8>)
    requires { begun ≡ None → m.old.hart.hand ≡ Nothing }
    ensures parts { machine_of m.new ≡ put_back hart begun (machine_of m.old) }
    ensures store { m.new.store ≡ m.old.store }
{
    if begun.is_none() {
        front(m, hart);
        m.begun = None;
    }
}

/// Brings this hart to the front if hart 0 is there, and hart 0 if this one is.
fn front<S>(m: &mut MachineParts<S>, hart: u8)
    requires { m.old.hart.hand ≡ Nothing }
    ensures { m.new ≡ record m.old { hart = record m.old.hart { cpu = cpu_fronted hart m.old.hart.cpu } } }
{
    if hart != 0 {
        m.hart.cross();
    }
}

/// Counts a step of this hart. Once its instruction has ended, hart 0 is in front again. Once the epoch is over, the machine is
/// not calm.
#[inline(always)]
fn count<S>(m: &mut MachineParts<S>, hart: u8, step: HartStep) -> Advance
    requires begun { m.old.begun ≡ Some hart }
    requires hand { ends_by step ≡ true → m.old.hart.hand ≡ Nothing }
    requires spent { m.old.spent + 1 < 2 ^ 64 }
    requires lap { m.old.lap + 1 < 2 ^ 64 }
    ensures parts { machine_of m.new ≡ after_hart hart step m.old.hart m.old.cache m.old.store.scheme (machine_of m.old) }
    ensures did { did_of result ≡ hart_did hart step }
    ensures calm { m.new.store.calm ≡ (not (is_over step) && m.old.store.calm) }
{
    m.spent += 1;
    if !ends(step) {
        return Advance::Moved;
    }
    front(m, hart);
    m.begun = None;
    unmark(m, step);
    if retires(step) {
        m.lap += 1;
        m.last = Some(hart);
        Advance::Retired(hart)
    } else {
        Advance::Moved
    }
}

/// Counts steps of this hart in a row: this many that moved its instruction on, and the one that ended the row, if one did.
#[inline(always)]
fn count_row<S>(m: &mut MachineParts<S>, hart: u8, moved: u64, last: Option<HartStep>) -> Row
    requires begun { m.old.begun ≡ Some hart }
    requires hand { ends_last last ≡ true → m.old.hart.hand ≡ Nothing }
    requires few { moved ≤ 3 }
    requires spent { m.old.spent + moved + 1 < 2 ^ 64 }
    requires lap { m.old.lap + 1 < 2 ^ 64 }
    ensures parts { machine_of m.new ≡ after_row hart moved last (machine_of m.old) }
    ensures row { row_of result ≡ advances_by hart moved last }
    ensures few { result.moved ≤ 4 }
    ensures calm { m.new.store.calm ≡ (not (ends_epoch last) && m.old.store.calm) }
{
    m.spent += moved;
    match last {
        None => Row {
            moved,
            retired: None,
        },
        Some(step) => match count(m, hart, step) {
            Advance::Moved => Row {
                moved: moved + 1,
                retired: None,
            },
            Advance::Retired(hart) => Row {
                moved,
                retired: Some(hart),
            },
        },
    }
}

/// Once the epoch is over, a machine is not marked as calm.
fn unmark<S>(m: &mut MachineParts<S>, step: HartStep)
    ensures { let calm = not (is_over step) && m.old.store.calm in
        m.new ≡ record m.old { store = record m.old.store { calm = calm } } }
{
    if is_over(step) {
        m.store.calm = false;
    }
}

/// Whether an epoch has ended by this step.
fn is_over(step: HartStep) -> bool
    ensures { result ≡ is_over step }
{
    match step {
        HartStep::Moved | HartStep::Retired | HartStep::Waiting => false,
        HartStep::Over(_) => true,
    }
}

/// Whether an instruction has ended by this step: it was retired, or dropped.
fn ends(step: HartStep) -> bool
    ensures { result ≡ ends_by step }
{
    match step {
        HartStep::Moved | HartStep::Waiting => false,
        HartStep::Retired | HartStep::Over(_) => true,
    }
}

/// Whether an instruction was retired by this step.
fn retires(step: HartStep) -> bool
    ensures { result ≡ retires_by step }
{
    match step {
        HartStep::Moved | HartStep::Waiting => false,
        HartStep::Retired => true,
        HartStep::Over(cause) => retires_over(cause),
    }
}

/// Whether the step that ended the epoch for this cause retired an instruction.
fn retires_over(cause: EndCause) -> bool
    ensures { result ≡ retires_over cause }
{
    match cause {
        EndCause::Length | EndCause::Ended => true,
        EndCause::Exhausted { .. } => false,
    }
}
