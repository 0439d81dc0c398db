//! The plain machine that runs beside the run, and the states that it had at the two checkpoints that a cut can lead to.
ghost use Rattle.std.specs.Prelude.{◌≡◌, ◌≤◌, true, None, IfOk, OnOk};
ghost use Rattle.thy_isa.specs.Step.{state_of};
ghost use Rattle.thy_sweep.specs.Trials.{IsReadOf};
ghost use Rattle.sweep.specs.Findings.{IsBeside, IsSealed, RunsTo, committed};

use crate::compared::{are_same, part_of};
use std::alloc::{AllocError, Global};
use thy_base::Geometry;
use thy_layout::Start;
use thy_plain::Plain;
use thy_sweep::{Part, Restored};
use thy_text::Event;

/// A run counts fewer instructions than this.
const MANY: u64 = 1 << 62;

/// The plain machine, at the count of the latest seal; its states at the counts of two checkpoints, as much of them as is compared; and
/// how much that is.
#[derive(Drop)]
pub struct Beside {
    plain: Plain,
    /// How much of a state is compared.
    compared: Part,
    /// The state of the committed checkpoint, or the start.
    done: Restored,
    /// The state of the checkpoint under way, if there is one.
    sealed: Option<Restored>,
}

/// Steps a plain machine with one hart to a count.
fn step_to(plain: &mut Plain, count: u64)
    ensures { RunsTo count plain.old plain.new }
{
    let now = plain.count();
    if count < now {
        return;
    }
    if count >= MANY {
        return;
    }
    let _done = plain.run(count - now);
}

/// The hart of a turn.
fn hart_of(turn: u8) -> u8
    ensures { result ≤ 1 }
{
    if turn == 0 { 0 } else { 1 }
}

/// Takes the step of a turn.
fn step_turn(plain: &mut Plain, turn: u8) {
    let now = plain.count();
    if now >= MANY {
        return;
    }
    let hart = hart_of(turn);
    plain.step_of(hart);
}

/// Steps a plain machine with two harts by their turns.
fn step_by(plain: &mut Plain, turns: &[u8]) {
    for turn in turns {
        step_turn(plain, *turn);
    }
}

/// What is read of the plain machine: as much as is compared. For the processor nothing is allocated.
fn read_of(alloc: Global, part: Part, plain: &Plain) -> Result<Restored, AllocError>
    ensures { IfOk result (IsReadOf plain.now.state part) }
{
    match part {
        Part::State => {
            let state = plain.state(alloc)?;
            Ok(Restored::State(state))
        }
        Part::Processor => Ok(Restored::Processor(plain.cpu(0))),
    }
}

impl Beside {
    /// The plain machine at the start of a run.
    pub fn new(
        alloc: Global,
        start: &Start,
        geometry: &Geometry,
        compared: Part,
    ) -> Result<Beside, AllocError>
        ensures compared { IfOk result (λ beside. beside.compared ≡ compared) }
        ensures done { IfOk result (λ beside. IsReadOf (state_of start.now.state) compared beside.done) }
        ensures sealed { IfOk result (λ beside. beside.sealed ≡ None) }
    {
        let input = start.input.duplicate(alloc)?;
        let plain = Plain::in_state(alloc, &start.state, geometry, input)?;
        let done = part_of(alloc, compared, &start.state)?;
        Ok(Beside {
            plain,
            compared,
            done,
            sealed: None,
        })
    }

    /// Keeps the state at the count of a checkpoint that is under way now, after these turns.
    fn seal(&mut self, alloc: Global, count: u64, turns: &[u8]) -> Result<(), AllocError>
        ensures compared { self.new.compared ≡ self.old.compared }
        ensures done { self.new.done ≡ self.old.done }
        ensures sealed { OnOk result (IsSealed self.new) }
    {
        if turns.is_empty() {
            step_to(&mut self.plain, count);
        } else {
            step_by(&mut self.plain, turns);
        }
        let state = read_of(alloc, self.compared, &self.plain)?;
        self.sealed = Some(state);
        Ok(())
    }

    /// The checkpoint under way is committed.
    fn commit(&mut self)
        ensures { self.new ≡ committed self.old }
    {
        if let Some(state) = self.sealed.take() {
            self.done = state;
        }
    }

    /// Follows the run past an event.
    ///
    /// # Errors
    /// Memory ran out.
    pub fn follow(&mut self, alloc: Global, event: &Event) -> Result<(), AllocError>
        ensures { self.new.compared ≡ self.old.compared }
    {
        match event {
            Event::EpochEnd { count, turns, .. } => self.seal(alloc, *count, turns.as_slice()),
            Event::Commit { .. } => {
                self.commit();
                Ok(())
            }
            Event::Scheme { .. }
            | Event::Cut { .. }
            | Event::Restart { .. }
            | Event::Reload
            | Event::Ended { .. } => Ok(()),
        }
    }

    /// Whether the plain machine has this state at the count of a checkpoint that a cut can lead to.
    pub fn has(&self, state: &Restored) -> bool
        ensures { result ≡ true → IsBeside self.now state.now }
    {
        if are_same(self.compared, &self.done, state) {
            return true;
        }
        match &self.sealed {
            Some(sealed) => are_same(self.compared, sealed, state),
            None => false,
        }
    }
}
