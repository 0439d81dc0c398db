//! The machine and its calls.
ghost use Rattle.std.specs.Prelude.{◌≡◌, ◌≤◌, ℕ, Ok, None, IfOk, IfErr, OnOk, is_err};
ghost use Rattle.thy_block.specs.Device.{Device, IsFramed, CountsFault};
ghost use Rattle.thy_dram.specs.Contents.{lost};
ghost use Rattle.thy_computer.specs.declared.view.View.{View};
ghost use Rattle.thy_computer.specs.Advances.{IfAdvanced, IsOthersCycle, SimulatesRow, row_of};
ghost use Rattle.thy_computer.specs.Kind.{CanStep, CanRead, CanSnapshot, Simulates, FailsSafe, IsDramOf, SnapshotsStopped, ShowsConsole, LeavesAlonePast, ShowsLoading, HasFailedToRead};
ghost use Rattle.thy_computer.specs.Origin.{Origin};
ghost use Rattle.thy_isa.specs.Step.{zero_cpu};
ghost use Rattle.thy_scheme.specs.Kind.{kind_over};
ghost use Rattle.thy_scheme.specs.Machine.{processor_of};
ghost use Rattle.thy_scheme.specs.Sound.{IsAt, SoundStopped, IsPowered};
ghost use Rattle.thy_core.specs.Reading.{ReadsBare, ReadsState, ShowsNone};

use crate::parts::MachineParts;
use crate::step::{step_hart, step_other, step_row};
use crate::turn::mark_calm;
use crate::{power, snapshot};
use std::alloc::{AllocError, Global};
use std::marker::Model;
use thy_block::{Bytes, Geometry, Nvm, NvmError, Pick};
use thy_computer::{Advance, CoreError, Row, Stepped};
use thy_dram::Dram;
use thy_isa::{CpuState, MachState};
use thy_layout::Start;
use thy_scheme::Scheme;

/// One hart or two, with a cache over a scheme of checkpoints. One step is one cycle.
#[derive(Drop)]
pub struct Machine<S: Scheme> {
    parts: MachineParts<S>,
}

impl<S: Scheme> Model for Machine<S> {
    ghost use Rattle.thy_scheme.specs.Machine.{Machine as MachineOver};

    ghost Value = { MachineOver S };

    ghost use Rattle.thy_core.specs.MachineParts.{machine_of};

    ghost view = { λ m. machine_of m.parts };

    ghost use Rattle.thy_core.specs.Calm.{KnowsCalm};

    ghost invariant = { λ m. KnowsCalm S.scheme m.parts };
}

impl<S: Scheme> Machine<S> {
    /// How many blocks of 64 bytes the machine's NVM has.
    pub fn nvm_blocks(geometry: &Geometry) -> u64
        ensures { result ≡ (kind_over S.scheme).blocks geometry.now }
    {
        S::nvm_blocks(geometry)
    }

    /// A machine whose power has just come on, over a DRAM of any content. On a refusal the DRAM is given up.
    pub fn power_on(
        alloc: Global,
        geometry: &Geometry,
        dram: Dram,
    ) -> Result<Machine<S>, AllocError>
        requires { IsDramOf geometry.now dram }
        ensures powered { IfOk result (λ m. IsPowered S.scheme geometry.now m) }
        ensures processor { IfOk result (λ m. m.hart.cpu ≡ zero_cpu) }
        ensures dram { IfOk result (λ m. S.scheme.dram m.scheme ≡ dram) }
    {
        let parts = power::power_on(alloc, geometry, dram)?;
        Ok(Machine { parts })
    }

    /// Loses power: all is gone but the DRAM, whose bytes are those that the pick draws. Power can come on over it
    /// again, after a step that failed too.
    pub fn cut(self, pick: u64) -> Dram
        ensures drawn { result ≡ lost (S.scheme.dram self.scheme) pick }
        ensures sized { (o : Origin) (k : ℕ) (n : Device) → IsAt S.scheme o k self n → IsDramOf o.geometry result }
        ensures stopped { (o : Origin) (before : View) → SoundStopped S.scheme o before self → IsDramOf o.geometry result }
    {
        power::cut(self.parts, pick)
    }

    /// Whether the boot is not over and has found no checkpoint.
    pub fn loading(&self) -> bool
        ensures { ShowsLoading (kind_over S.scheme) self.now result }
    {
        power::is_loading(&self.parts)
    }

    /// Whether a step has failed since power came on.
    pub fn failed(&self) -> bool
        ensures { result ≡ self.now.failed }
    {
        self.parts.failed
    }

    /// Takes the pick's cycle, if a hart advances its instruction in it: the pick names a hart, or an actor which has
    /// nothing to do. An instruction that is begun is carried to its end before another one is. If another actor is to
    /// act, nothing is done, and `take_other` with the same pick takes the cycle. Allocates nothing.
    ///
    /// After an error the NVM may hold what the failed call left, and only `failed`, `snapshot` and `cut` may be called
    /// on the machine.
    #[inline(always)]
    pub fn advance<N: Nvm>(
        &mut self,
        pick: Pick,
        start: &Start,
        nvm: &mut N,
    ) -> Result<Option<Advance>, NvmError>
        requires { CanStep (kind_over S.scheme) start.now self.old (N.device nvm.old) }
        ensures steps { IfAdvanced result (Simulates (kind_over S.scheme) start.now pick self.old self.new (N.device nvm.old) (N.device nvm.new)) }
        ensures safe { IfAdvanced result (FailsSafe (kind_over S.scheme) start.now pick self.old self.new (N.device nvm.old) (N.device nvm.new)) }
        ensures frame { IsFramed (N.device nvm.old) (N.device nvm.new) }
        ensures cause { CountsFault result (N.device nvm.old).faults (N.device nvm.new).faults }
        ensures left { result ≡ Ok None → (self.new ≡ self.old) × (nvm.new ≡ nvm.old) }
        ensures others { result ≡ Ok None → IsOthersCycle (kind_over S.scheme) pick self.old (N.device nvm.old) }
        ensures failed { self.new.failed ≡ is_err result }
    {
        mark_calm(&mut self.parts);
        step_hart(&mut self.parts, pick, start, nvm)
    }

    /// Takes cycles in a row in which a hart advances its instruction; the first is this pick's. It goes on within one
    /// instruction while no other actor has the turn, whatever the later picks are, and the hart needs nothing of the NVM.
    /// It may take none, and can't fail. Allocates nothing.
    #[inline(always)]
    pub fn advance_on<N: Nvm>(&mut self, pick: Pick, start: &Start, nvm: &N) -> Row
        requires { CanStep (kind_over S.scheme) start.now self.old (N.device nvm.now) }
        ensures steps { SimulatesRow (kind_over S.scheme) start.now pick (row_of result) self.old self.new (N.device nvm.now) }
        ensures few { result.moved ≤ 4 }
        ensures failed { self.new.failed ≡ self.old.failed }
    {
        step_row(&mut self.parts, pick, start, nvm)
    }

    /// Takes the pick's cycle, if no hart advances in it. Allocates nothing.
    ///
    /// After an error as after one of `advance`.
    pub fn take_other<N: Nvm>(
        &mut self,
        pick: Pick,
        start: &Start,
        nvm: &mut N,
    ) -> Result<Stepped, NvmError>
        requires can { CanStep (kind_over S.scheme) start.now self.old (N.device nvm.old) }
        requires others { IsOthersCycle (kind_over S.scheme) pick self.old (N.device nvm.old) }
        ensures steps { Simulates (kind_over S.scheme) start.now pick self.old self.new (N.device nvm.old) (N.device nvm.new) result }
        ensures safe { FailsSafe (kind_over S.scheme) start.now pick self.old self.new (N.device nvm.old) (N.device nvm.new) result }
        ensures frame { IsFramed (N.device nvm.old) (N.device nvm.new) }
        ensures cause { CountsFault result (N.device nvm.old).faults (N.device nvm.new).faults }
        ensures failed { self.new.failed ≡ is_err result }
    {
        step_other(&mut self.parts, pick, start, nvm)
    }

    /// One cycle: the pick's, or a hart's if the pick's actor has nothing to do. An instruction that is begun is
    /// carried to its end before another one is. Allocates nothing.
    ///
    /// After an error the NVM may hold what the failed call left, and only `failed`, `snapshot` and `cut` may be called
    /// on the machine.
    pub fn step<N: Nvm>(
        &mut self,
        pick: Pick,
        start: &Start,
        nvm: &mut N,
    ) -> Result<Stepped, NvmError>
        requires { CanStep (kind_over S.scheme) start.now self.old (N.device nvm.old) }
        ensures steps { Simulates (kind_over S.scheme) start.now pick self.old self.new (N.device nvm.old) (N.device nvm.new) result }
        ensures safe { FailsSafe (kind_over S.scheme) start.now pick self.old self.new (N.device nvm.old) (N.device nvm.new) result }
        ensures frame { IsFramed (N.device nvm.old) (N.device nvm.new) }
        ensures cause { CountsFault result (N.device nvm.old).faults (N.device nvm.new).faults }
        ensures failed { self.new.failed ≡ is_err result }
    {
        match self.advance(pick, start, nvm) {
            Ok(Some(advance)) => Ok(advance.stepped()),
            Ok(None) => self.take_other(pick, start, nvm),
            Err(error) => Err(error),
        }
    }

    /// Once the boot is over, the state that the machine executes, if no instruction that is under way has written a
    /// block: it is that from before this instruction. After a step that failed, once the boot is over, the processor's
    /// part of the state before the instruction under way, with no memory and no console, and the NVM is not read.
    ///
    /// # Errors
    /// `Nvm` if the NVM fails, `Memory` if memory runs out.
    pub fn snapshot<N: Nvm>(&self, alloc: Global, nvm: &mut N) -> Result<MachState, CoreError>
        requires { CanSnapshot (kind_over S.scheme) self.now (N.device nvm.old) }
        ensures state { ReadsState S.scheme self.now (N.device nvm.old) result }
        ensures bare { ReadsBare self.now result }
        ensures stopped { SnapshotsStopped (kind_over S.scheme) self.now result }
        ensures same { OnOk result (N.device nvm.new ≡ N.device nvm.old) }
        ensures err { IfErr result (λ e. HasFailedToRead e (N.device nvm.old) (N.device nvm.new)) }
        ensures frame { IsFramed (N.device nvm.old) (N.device nvm.new) }
    {
        snapshot::snapshot(alloc, &self.parts, nvm)
    }

    /// The processor from before the instruction under way, if there is one, with hart 0 in front. Nothing is read.
    pub fn processor(&self) -> CpuState
        ensures { result ≡ processor_of self.now }
    {
        snapshot::processor(&self.parts)
    }

    /// Once the boot is over, the console of the committed checkpoint from byte `from` on, also if the hart has
    /// retired more since. If there is no such byte, the NVM is not read. Not to be called after a step that failed.
    ///
    /// # Errors
    /// `Nvm` if the NVM fails, `Memory` if memory runs out.
    pub fn console<N: Nvm>(&self, alloc: Global, from: u64, nvm: &mut N) -> Result<Bytes, CoreError>
        requires { CanRead (kind_over S.scheme) self.now (N.device nvm.old) }
        ensures console { ShowsConsole (kind_over S.scheme) from self.now (N.device nvm.old) result }
        ensures past { LeavesAlonePast (kind_over S.scheme) from self.now (N.device nvm.old) (N.device nvm.new) result }
        ensures booting { ShowsNone self.now result }
        ensures same { OnOk result (N.device nvm.new ≡ N.device nvm.old) }
        ensures err { IfErr result (λ e. HasFailedToRead e (N.device nvm.old) (N.device nvm.new)) }
        ensures frame { IsFramed (N.device nvm.old) (N.device nvm.new) }
    {
        snapshot::console(alloc, &self.parts, from, nvm)
    }
}
