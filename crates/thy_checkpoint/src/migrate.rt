//! Migration: a checkpoint of an older form is written again, in the form that is written today.
ghost use Rattle.std.specs.Prelude.{◌≡◌, ◌*◌, ◌≤◌, false, length, OnOk, OnErr};
ghost use Rattle.thy_block.specs.Device.{block_at};
ghost use Rattle.thy_layout.specs.Files.{blocks_of};
ghost use Rattle.thy_computer.specs.Round.{IsInRound, next_round, round_action};
ghost use Rattle.thy_checkpoint.specs.Boot.{layout_in, slot_read};
ghost use Rattle.thy_checkpoint.specs.Loads.{Takes};
ghost use Rattle.thy_checkpoint.specs.Migrating.{CanMigrate, renewing, migrates_on, migrated_by, renewed, cleared};

use crate::boot::Boot;
use crate::boot_stage::{End, Stage};
use crate::fills::Fills;
use crate::reading::slot_at;
use thy_block::{BLOCK_SIZE, Block, COMMIT_PLACE, Nvm, NvmError};
use thy_computer::Round;
use thy_layout::{ImageLayout, block_in, commit_block, epoch_in};

// Makes the bytes from this one on zero.
fn clear_from(bytes: &mut [u8], from: usize)
    requires { from ≤ length bytes.old }
    ensures { bytes.new ≡ cleared from bytes.old }
{
    bytes[from..].fill(0);
}

// Block `k` of these bytes; past their end that is a block of zeros.
fn block_or_zero(bytes: &[u8], k: u64) -> Block
    ensures { result ≡ block_at (blocks_of bytes.now) k }
{
    if k < (bytes.len() / BLOCK_SIZE) as u64 {
        block_in(bytes, k as usize)
    } else {
        Block::ZERO
    }
}

impl Boot {
    ghost use Rattle.thy_checkpoint.specs.declared.boot_stage.Stage.TheVariants.{Migrates};

    /// Takes the next action of a migration: the slot of the same epoch is written, as it was read and with zeros after
    /// it, a barrier, the commit block of that epoch, and a barrier. If the NVM failed the boot is as before, and only
    /// the place of a write may hold more.
    pub(crate) fn migrate<F: Fills, N: Nvm>(
        &mut self,
        round: Round,
        nvm: &mut N,
    ) -> Result<(), NvmError>
        requires stage { self.old.stage ≡ Migrates round }
        requires room { length self.old.slot ≡ 64 * (layout_in F.filling self.old).most_slot }
        requires can { CanMigrate F.filling round (N.device nvm.old) self.old }
        ensures boot { OnOk result (self.new ≡ migrated_by F.filling round self.old) }
        ensures kept { OnErr result (self.new ≡ self.old) }
        ensures nvm { Takes (round_action (renewing F.filling self.old) round) result (N.device nvm.old) (N.device nvm.new) }
    {
        self.write_anew::<F, N>(round, nvm)?;
        self.stage = self.stage_after::<F>(round);
        match round {
            Round::Write(_) | Round::Settle | Round::Commit => {}
            Round::Confirm => self.renew::<F>(),
        }
        Ok(())
    }

    // Takes the action.
    fn write_anew<F: Fills, N: Nvm>(&self, round: Round, nvm: &mut N) -> Result<(), NvmError>
        requires room { length self.now.slot ≡ 64 * (layout_in F.filling self.now).most_slot }
        requires can { CanMigrate F.filling round (N.device nvm.old) self.now }
        ensures { Takes (round_action (renewing F.filling self.now) round) result (N.device nvm.old) (N.device nvm.new) }
    {
        let commit = commit_block(epoch_in(&self.commit));
        match round {
            Round::Write(k) => {
                let place = slot_at::<F>(&self.geometry, &commit, k);
                nvm.write(place, &block_or_zero(self.slot::<F>(), k))
            }
            Round::Settle | Round::Confirm => nvm.barrier(),
            Round::Commit => nvm.write(COMMIT_PLACE, &commit),
        }
    }

    // The stage after it.
    fn stage_after<F: Fills>(&self, round: Round) -> Stage
        requires { IsInRound (renewing F.filling self.now).blocks round }
        ensures { result ≡ migrates_on (next_round (renewing F.filling self.now).blocks round) }
    {
        let commit = commit_block(epoch_in(&self.commit));
        match round.next(F::Images::slot_blocks(&self.geometry, &commit)) {
            Some(next) => Stage::Migrates(next),
            None => Stage::Over(End::Restored),
        }
    }

    // The boot has the commit block and the slot that were written, as if it had read these.
    fn renew<F: Fills>(&mut self)
        requires { length self.old.slot ≡ 64 * (layout_in F.filling self.old).most_slot }
        ensures { self.new ≡ renewed F.filling self.old }
    {
        let read = BLOCK_SIZE * F::Images::slot_blocks(&self.geometry, &self.commit) as usize;
        clear_from(&mut self.slot, read);
        self.commit = commit_block(epoch_in(&self.commit));
    }
}
