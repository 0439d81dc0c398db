//! What a machine is to the layers above it.
ghost use Rattle.std.specs.Prelude.{◌≡◌, ◌<◌, ◌≤◌, ℕ, Ok, None, IfOk, IfErr, OnOk};
ghost use Rattle.thy_block.specs.Device.{Device, IsFramed, CountsFault};
ghost use Rattle.thy_dram.specs.Contents.{lost};
ghost use Rattle.thy_computer.specs.Advances.{IfAdvanced, IsOthersCycle, SimulatesRow, row_of};
ghost use Rattle.thy_computer.specs.Kind.{KindOf, IsLawful, CanStep, CanRead, CanSnapshot, IsDramOf, Simulates, FailsSafe, Snapshots, SnapshotsStopped, ShowsProcessor, ShowsConsole, LeavesAlonePast, ShowsLoading, HasFailedToRead};
ghost use Rattle.thy_computer.specs.Origin.{Origin};
ghost use Rattle.thy_computer.specs.declared.view.View.{View};

use crate::{Advance, CoreError, Row, Stepped};
use std::alloc::{AllocError, Global};
use thy_block::{Bytes, Geometry, Nvm, NvmError, Pick};
use thy_dram::Dram;
use thy_isa::{CpuState, MachState};
use thy_layout::Start;

/// A machine: hart, memory and checkpoint engine, over an NVM. One step is one cycle. Only `power_on`, `snapshot`
/// and `console` allocate.
///
/// Its promises are about a run: each step leads from one moment of it to the next, and whatever a power cut leaves at
/// a moment is the committed checkpoint, whole, or the one in doubt.
pub trait Computer: Drop {
    /// What the machine means and shows.
    ghost kind: { KindOf Self };

    /// How many blocks the machine's NVM has.
    fn nvm_blocks(geometry: &Geometry) -> u64
        ensures { result ≡ kind.blocks geometry.now };

    /// A machine whose power has just come on, over a DRAM of any content. On a refusal the DRAM is given up.
    fn power_on(alloc: Global, geometry: &Geometry, dram: Dram) -> Result<Self, AllocError>
        requires { IsDramOf geometry.now dram }
        ensures powered { IfOk result (λ m. kind.powered geometry.now m) }
        ensures dram { IfOk result (λ m. kind.dram m ≡ dram) };

    /// Takes the pick's cycle, if a hart advances its instruction in it: the pick names a hart, or an actor which has
    /// nothing to do. If another actor is to act, nothing is done, and `take_other` with the same pick takes the cycle.
    /// Allocates nothing.
    ///
    /// After an error the device may hold what the failed call left. Then only `failed`, `snapshot` and `cut` may be
    /// called.
    fn advance<N: Nvm>(
        &mut self,
        pick: Pick,
        start: &Start,
        nvm: &mut N,
    ) -> Result<Option<Advance>, NvmError>
        requires { CanStep kind start.now self.old (N.device nvm.old) }
        ensures steps { IfAdvanced result (Simulates kind start.now pick self.old self.new (N.device nvm.old) (N.device nvm.new)) }
        ensures safe { IfAdvanced result (FailsSafe kind start.now pick self.old self.new (N.device nvm.old) (N.device nvm.new)) }
        ensures frame { IsFramed (N.device nvm.old) (N.device nvm.new) }
        ensures cause { CountsFault result (N.device nvm.old).faults (N.device nvm.new).faults }
        ensures left { result ≡ Ok None → (self.new ≡ self.old) × (nvm.new ≡ nvm.old) }
        ensures others { result ≡ Ok None → IsOthersCycle kind pick self.old (N.device nvm.old) };

    /// Takes cycles in a row in which a hart advances its instruction; the first is this pick's. It goes on within one
    /// instruction while no other actor has the turn, whatever the later picks are, and the hart needs nothing of the device.
    /// It may take none, and can't fail. Allocates nothing.
    fn advance_on<N: Nvm>(&mut self, pick: Pick, start: &Start, nvm: &N) -> Row
        requires { CanStep kind start.now self.old (N.device nvm.now) }
        ensures steps { SimulatesRow kind start.now pick (row_of result) self.old self.new (N.device nvm.now) }
        ensures few { result.moved ≤ 4 };

    /// Takes the pick's cycle, if no hart advances in it. Allocates nothing.
    ///
    /// After an error as after one of `advance`.
    fn take_other<N: Nvm>(
        &mut self,
        pick: Pick,
        start: &Start,
        nvm: &mut N,
    ) -> Result<Stepped, NvmError>
        requires can { CanStep kind start.now self.old (N.device nvm.old) }
        requires others { IsOthersCycle kind pick self.old (N.device nvm.old) }
        ensures steps { Simulates kind start.now pick self.old self.new (N.device nvm.old) (N.device nvm.new) result }
        ensures safe { FailsSafe kind start.now pick self.old self.new (N.device nvm.old) (N.device nvm.new) result }
        ensures frame { IsFramed (N.device nvm.old) (N.device nvm.new) }
        ensures cause { CountsFault result (N.device nvm.old).faults (N.device nvm.new).faults };

    /// One cycle: the pick's, or the hart's if the pick's actor has nothing to do. Allocates nothing.
    ///
    /// After an error as after one of `advance`.
    fn step<N: Nvm>(&mut self, pick: Pick, start: &Start, nvm: &mut N) -> Result<Stepped, NvmError>
        requires { CanStep kind start.now self.old (N.device nvm.old) }
        ensures steps { Simulates kind start.now pick self.old self.new (N.device nvm.old) (N.device nvm.new) result }
        ensures safe { FailsSafe kind start.now pick self.old self.new (N.device nvm.old) (N.device nvm.new) result }
        ensures frame { IsFramed (N.device nvm.old) (N.device nvm.new) }
        ensures cause { CountsFault result (N.device nvm.old).faults (N.device nvm.new).faults };

    /// Whether a step has failed since power came on.
    fn failed(&self) -> bool
        ensures { result ≡ kind.failed self.now };

    /// The state that the machine executes, if no instruction is under way. After a step that failed, once the boot is
    /// over, the processor's part of the state before the instruction under way, with no memory and no console,
    /// whatever the device is.
    ///
    /// # Errors
    /// `Nvm` if the device fails, `Memory` if memory runs out.
    fn snapshot<N: Nvm>(&self, alloc: Global, nvm: &mut N) -> Result<MachState, CoreError>
        requires { CanSnapshot kind self.now (N.device nvm.old) }
        ensures state { Snapshots kind self.now (N.device nvm.old) result }
        ensures stopped { SnapshotsStopped kind self.now result }
        ensures same { OnOk result (N.device nvm.new ≡ N.device nvm.old) }
        ensures err { IfErr result (λ e. HasFailedToRead e (N.device nvm.old) (N.device nvm.new)) }
        ensures frame { IsFramed (N.device nvm.old) (N.device nvm.new) };

    /// The processor of the state that `snapshot` reads, if no instruction is under way. Neither memory nor the device is
    /// read.
    fn processor(&self) -> CpuState
        ensures { ShowsProcessor kind self.now result };

    /// Once the boot is over, the console of the committed checkpoint from byte `from` on, also if the hart has gone
    /// on since. If there is no such byte, the device is left alone.
    ///
    /// # Errors
    /// `Nvm` if the device fails, `Memory` if memory runs out.
    fn console<N: Nvm>(&self, alloc: Global, from: u64, nvm: &mut N) -> Result<Bytes, CoreError>
        requires { CanRead kind self.now (N.device nvm.old) }
        ensures console { ShowsConsole kind from self.now (N.device nvm.old) result }
        ensures past { LeavesAlonePast kind from self.now (N.device nvm.old) (N.device nvm.new) result }
        ensures same { OnOk result (N.device nvm.new ≡ N.device nvm.old) }
        ensures err { IfErr result (λ e. HasFailedToRead e (N.device nvm.old) (N.device nvm.new)) }
        ensures frame { IsFramed (N.device nvm.old) (N.device nvm.new) };

    /// Whether the boot goes on and has found no checkpoint.
    fn loading(&self) -> bool
        ensures { ShowsLoading kind self.now result };

    /// Loses power: all is gone but the DRAM, whose bytes are those that the pick draws. Power can come on over it
    /// again, after a step that failed too.
    fn cut(self, pick: u64) -> Dram
        ensures drawn { result ≡ lost (kind.dram self) pick }
        ensures sized { (o : Origin) (k : ℕ) (n : Device) → kind.is_at o k self n → IsDramOf o.geometry result }
        ensures stopped { (o : Origin) (before : View) → kind.has_failed o before self → IsDramOf o.geometry result };

    /// The laws that every such machine keeps.
    ghost lawful: { IsLawful kind };
}
