//! A device of a run, and how a copy of what it lies on is booted.
ghost use Rattle.std.specs.Prelude.{◌≡◌, ◌<◌, ◌^◌, length, IfOk};
ghost use Rattle.thy_gap.specs.Seen.{seen_as};
ghost use Rattle.thy_sweep.specs.Lying.{HoldsLeft};
ghost use Rattle.thy_sweep.specs.Rooms.{CanTryOf, GivesBack, TriesOf};
ghost use Rattle.thy_computer.specs.Kind.{IsDramOf};

use crate::OverMemory;
use crate::trial::part::Part;
use crate::trial::room::{Found, Room, Trial};
use crate::trial::trial::{Tried, try_copy};
use std::alloc::Global;
use thy_block::{Mix, Nvm};
use thy_computer::{Computer, CoreError};
use thy_dram::Dram;
use thy_gap::Gap;
use thy_nvm::{MemNvm, Overlay};
use thy_run::Plan;

/// A device whose machine can boot over a copy of what a cut leaves.
pub trait Tryable: OverMemory {
    /// Tries what a copy of the device in memory holds, through lines as the device's if it has them, and gives the copy's
    /// room back. Of a state that is restored this part is read.
    ///
    /// # Errors
    /// `Memory` if memory runs out.
    fn try_over<'a, M: Computer>(
        &self,
        alloc: Global,
        plan: &Plan,
        copy: Overlay<'a>,
        dram: Dram,
        pick: u64,
        part: Part,
        mix: Mix,
        most: u64,
    ) -> Result<Trial, CoreError>
        requires dram { IsDramOf plan.now.geometry dram }
        requires can { CanTryOf M.kind plan.now (Self.device self.now) mix most }
        requires copy { HoldsLeft (Self.memory self.now) copy.device }
        requires room { copy.device.left_room < 2 ^ 64 }
        ensures tried { let image = seen_as Self.levels copy.entry.device.image in
            TriesOf M.kind plan.now pick part (Self.device self.now) image mix most result }
        ensures room { IfOk result (λ t. GivesBack plan.now copy.entry.device t.room) };
}

/// An image that was tried, and the room for the next one.
fn trial_of<'a>(tried: Tried, copy: Overlay<'a>) -> Trial
    ensures booted { result.found.booted ≡ tried.booted }
    ensures state { result.found.state ≡ tried.state }
    ensures dram { result.room.dram ≡ tried.dram }
    ensures blocks { result.room.spare.blocks ≡ length copy.entry.device.image }
    ensures queue { result.room.spare.queue ≡ copy.entry.device.queue_room }
    ensures cuts { result.room.spare.cuts ≡ copy.entry.device.left_room }
{
    let Tried {
        booted,
        state,
        dram,
    } = tried;
    let spare = copy.into_spare();
    Trial {
        found: Found { booted, state },
        room: Room { spare, dram },
    }
}

impl Tryable for MemNvm {
    fn try_over<'a, M: Computer>(
        &self,
        alloc: Global,
        plan: &Plan,
        copy: Overlay<'a>,
        dram: Dram,
        pick: u64,
        part: Part,
        mix: Mix,
        most: u64,
    ) -> Result<Trial, CoreError> {
        let mut copy = copy;
        let tried = try_copy::<M, Overlay<'a>>(
            alloc, plan, dram, pick, part, mix, most, &mut copy,
        )?;
        Ok(trial_of(tried, copy))
    }
}

/// The lines that a device in memory holds.
impl<'b> Tryable for Gap<&'b mut MemNvm> {
    fn try_over<'a, M: Computer>(
        &self,
        alloc: Global,
        plan: &Plan,
        copy: Overlay<'a>,
        dram: Dram,
        pick: u64,
        part: Part,
        mix: Mix,
        most: u64,
    ) -> Result<Trial, CoreError> {
        let mut lines = self.over_copy(copy);
        lines.recall_size();
        let tried = try_copy::<M, Gap<Overlay<'a>>>(
            alloc, plan, dram, pick, part, mix, most, &mut lines,
        )?;
        lines.recall_size();
        Ok(trial_of(tried, lines.into_inner()))
    }
}
