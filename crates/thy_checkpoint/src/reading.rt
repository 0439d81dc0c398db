//! Reading: each step reads one block of the NVM, up to the last that determines what the image means.
ghost use Rattle.std.specs.Prelude.{◌≡◌, ◌+◌, ◌*◌, ◌<◌, ◌≤◌, false, length, None, OnOk, OnErr};
ghost use Rattle.thy_block.specs.Bytes.{written};
ghost use Rattle.thy_block.specs.Device.{newest};
ghost use Rattle.thy_block.specs.Places.{commit_place, header_place};
ghost use Rattle.thy_computer.specs.Action.{ReadAt};
ghost use Rattle.thy_checkpoint.specs.Boot.{IsBoot, layout_in, slot_fault, at_stage, stage_of_commit, after_commit, after_header, after_slot};
ghost use Rattle.thy_checkpoint.specs.Boot.{refusing_or, filled_by, filling_from, has_more, gone_on, IsJudged, GoesOn};
ghost use Rattle.thy_checkpoint.specs.Filling.{layout_at};
ghost use Rattle.thy_checkpoint.specs.Loads.{Takes};
ghost use Rattle.thy_checkpoint.specs.Reads.{read_action, read_on, slot_kept, FillsOn, IsBlock};
ghost use Rattle.thy_checkpoint.specs.Recovers.{HasRead};

use crate::boot::Boot;
use crate::boot_stage::{End, ReadStage, Stage};
use crate::fills::{CEILING, Fills};
use thy_block::{BLOCK_SIZE, Block, COMMIT_PLACE, Geometry, HEADER_PLACE, Nvm, NvmError};
use thy_computer::Round;
use thy_layout::{
    BadImage, ImageLayout, LayoutVersion, commit_fault, header_fault_in, is_zero, version_of,
};

/// Writes a block over the bytes of block `k`.
fn keep_block(bytes: &mut [u8], k: usize, block: &Block)
    requires { 64 * k + 64 ≤ length bytes.old }
    ensures { bytes.new ≡ written bytes.old (64 * k) block.now.0 }
{
    bytes[BLOCK_SIZE * k..BLOCK_SIZE * k + BLOCK_SIZE].copy_from_slice(&block.0);
}

/// The stage after a commit block.
fn stage_of_commit(commit: &Block) -> Stage
    ensures { result ≡ stage_of_commit commit.now }
{
    if is_zero(commit) {
        return Stage::Loads(Round::Write(0));
    }
    Stage::Reads(ReadStage::Header)
}

/// A refusal if there is a fault, else the next stage.
fn refusing_or(fault: Option<BadImage>, next: Stage) -> Stage
    ensures { result ≡ refusing_or fault next }
{
    match fault {
        Some(bad) => Stage::Reads(ReadStage::Refusing(bad)),
        None => next,
    }
}

/// The stage with all filled: a checkpoint of version 1 is written again first.
fn stage_when_filled(version: LayoutVersion) -> Stage
    ensures { result ≡ filled_by version }
{
    match version {
        LayoutVersion::VersionOne => Stage::Migrates(Round::Write(0)),
        LayoutVersion::VersionTwo => Stage::Over(End::Restored),
    }
}

/// The place of block `next` of the slot of a commit block.
pub(crate) fn slot_at<F: Fills>(geometry: &Geometry, commit: &Block, next: u64) -> u64
    requires { let l = layout_at F.filling geometry.now in l.slot_place commit.now + next < l.image_blocks }
    ensures { result ≡ (layout_at F.filling geometry.now).slot_place commit.now + next }
{
    let _few = F::Images::blocks(geometry);
    F::Images::slot_place(geometry, commit) + next
}

impl Boot {
    ghost use Rattle.thy_checkpoint.specs.declared.boot_stage.Stage.TheVariants.{Reads};
    ghost use Rattle.thy_checkpoint.specs.declared.boot_stage.ReadStage.TheVariants.{Slot, Fills as FillsAt};

    /// Reads the next block of the checkpoint in the NVM: commit block, header, the slot's blocks, and then what each
    /// position is filled with. Once header, commit block or slot was found at fault, it reads none.
    pub(crate) fn read_next<F: Fills, N: Nvm>(
        &mut self,
        at: ReadStage,
        control: &mut F::Control,
        nvm: &mut N,
    ) -> Result<(), NvmError>
        requires stage { self.old.stage ≡ Reads at }
        requires fits { IsBoot F.filling self.old }
        requires read { HasRead F.filling (N.device nvm.old) self.old control.old }
        requires up { (N.device nvm.old).down ≡ false }
        ensures goes { OnOk result (self.new ≡ read_on F.filling at (N.device nvm.old) self.old) }
        ensures fills { OnOk result (FillsOn F.filling at (N.device nvm.old) self.old control.old control.new) }
        ensures block { OnOk result (IsBlock F.filling at (N.device nvm.old) self.old) }
        ensures boot { OnErr result (self.new ≡ self.old) }
        ensures control { OnErr result (control.new ≡ control.old) }
        ensures nvm { Takes (read_action F.filling self.old control.old at) result (N.device nvm.old) (N.device nvm.new) }
    {
        match at {
            ReadStage::Unread => self.read_commit(nvm),
            ReadStage::Header => self.read_header::<F, N>(nvm),
            ReadStage::Slot(next) => self.read_slot::<F, N>(next, control, nvm),
            ReadStage::Fills(k) => self.read_fill::<F, N>(k, control, nvm),
            ReadStage::Refusing(_) => Ok(()),
        }
    }

    /// Reads the commit block.
    fn read_commit<N: Nvm>(&mut self, nvm: &mut N) -> Result<(), NvmError>
        requires place { commit_place < length (N.device nvm.old).image }
        requires up { (N.device nvm.old).down ≡ false }
        ensures state { OnOk result (self.new ≡ after_commit (newest (N.device nvm.old) commit_place) self.old) }
        ensures kept { OnErr result (self.new ≡ self.old) }
        ensures reads { Takes (ReadAt commit_place) result (N.device nvm.old) (N.device nvm.new) }
    {
        let commit = nvm.read(COMMIT_PLACE)?;
        self.commit = commit;
        self.stage = stage_of_commit(&commit);
        Ok(())
    }

    /// Reads the header, and judges it, and then the commit block.
    fn read_header<F: Fills, N: Nvm>(&mut self, nvm: &mut N) -> Result<(), NvmError>
        requires place { header_place < length (N.device nvm.old).image }
        requires up { (N.device nvm.old).down ≡ false }
        ensures state { let next = after_header (layout_in F.filling self.old) (newest (N.device nvm.old) header_place) self.old in
            OnOk result (self.new ≡ at_stage next self.old) }
        ensures kept { OnErr result (self.new ≡ self.old) }
        ensures reads { Takes (ReadAt header_place) result (N.device nvm.old) (N.device nvm.new) }
    {
        let header = nvm.read(HEADER_PLACE)?;
        let of_commit = commit_fault(&header, &self.commit, CEILING);
        let fault = header_fault_in::<F::Images>(&self.geometry, &header, true).or(of_commit);
        self.stage = refusing_or(fault, Stage::Reads(ReadStage::Slot(0)));
        Ok(())
    }

    /// Reads block `next` of the slot; with the last, the slot is judged.
    fn read_slot<F: Fills, N: Nvm>(
        &mut self,
        next: u64,
        control: &mut F::Control,
        nvm: &mut N,
    ) -> Result<(), NvmError>
        requires stage { self.old.stage ≡ Reads (Slot next) }
        requires fits { IsBoot F.filling self.old }
        requires read { HasRead F.filling (N.device nvm.old) self.old control.old }
        requires up { (N.device nvm.old).down ≡ false }
        ensures goes { OnOk result (self.new ≡ read_on F.filling (Slot next) (N.device nvm.old) self.old) }
        ensures fills { OnOk result (FillsOn F.filling (Slot next) (N.device nvm.old) self.old control.old control.new) }
        ensures block { OnOk result (IsBlock F.filling (Slot next) (N.device nvm.old) self.old) }
        ensures boot { OnErr result (self.new ≡ self.old) }
        ensures control { OnErr result (control.new ≡ control.old) }
        ensures nvm { Takes (read_action F.filling self.old control.old (Slot next)) result (N.device nvm.old) (N.device nvm.new) }
    {
        self.read_block::<F, N>(next, nvm)?;
        self.go_on::<F>(next, control);
        Ok(())
    }

    /// Reads block `next` of the slot, and keeps its bytes.
    fn read_block<F: Fills, N: Nvm>(&mut self, next: u64, nvm: &mut N) -> Result<(), NvmError>
        requires image { let l = layout_in F.filling self.old in l.slot_place self.old.commit + next < l.image_blocks }
        requires room { 64 * next + 64 ≤ length self.old.slot }
        requires sized { length (N.device nvm.old).image ≡ (layout_in F.filling self.old).image_blocks }
        requires up { (N.device nvm.old).down ≡ false }
        ensures state { OnOk result (self.new ≡ slot_kept F.filling next (N.device nvm.old) self.old) }
        ensures block { OnOk result (IsBlock F.filling (Slot next) (N.device nvm.old) self.old) }
        ensures kept { OnErr result (self.new ≡ self.old) }
        ensures reads { let at = (layout_in F.filling self.old).slot_place self.old.commit + next in
            Takes (ReadAt at) result (N.device nvm.old) (N.device nvm.new) }
    {
        let block = nvm.read(slot_at::<F>(&self.geometry, &self.commit, next))?;
        keep_block(&mut self.slot, next as usize, &block);
        Ok(())
    }

    /// Continues after block `next` of the slot; with the last, the slot is judged.
    fn go_on<F: Fills>(&mut self, next: u64, control: &mut F::Control)
        requires inside { next < (layout_in F.filling self.old).slot_blocks self.old.commit }
        requires room { length self.old.slot ≡ 64 * (layout_in F.filling self.old).most_slot }
        requires geometry { F.filling.p control.old ≡ self.old.p }
        requires fresh { F.filling.fresh control.old }
        ensures boot { self.new ≡ gone_on F.filling next self.old }
        ensures control { GoesOn F.filling (has_more F.filling next self.old) self.old control.old control.new }
    {
        let blocks = F::Images::slot_blocks(&self.geometry, &self.commit);
        if next + 1 < blocks {
            self.stage = Stage::Reads(ReadStage::Slot(next + 1));
        } else {
            self.judge::<F>(control);
        }
    }

    /// Judges the slot: if it has no fault, the controller lists it.
    fn judge<F: Fills>(&mut self, control: &mut F::Control)
        requires room { length self.old.slot ≡ 64 * (layout_in F.filling self.old).most_slot }
        requires geometry { F.filling.p control.old ≡ self.old.p }
        requires fresh { F.filling.fresh control.old }
        ensures boot { self.new ≡ at_stage (after_slot F.filling self.old) self.old }
        ensures control { IsJudged F.filling (slot_fault F.filling self.old) self.old control.old control.new }
    {
        let slot = self.slot::<F>();
        match F::Images::slot_fault(&self.geometry, &self.commit, slot, CEILING) {
            Some(bad) => self.stage = Stage::Reads(ReadStage::Refusing(bad)),
            None => {
                F::list(&self.geometry, &self.commit, slot, control);
                self.go_to_fill::<F>(0);
            }
        }
    }

    /// Goes to the first position from one on that has to be filled. If there is none, all is restored, unless the checkpoint
    /// is of an older form: then it is written again.
    fn go_to_fill<F: Fills>(&mut self, from: u64)
        requires { length self.old.slot ≡ 64 * (layout_in F.filling self.old).most_slot }
        ensures { self.new ≡ at_stage (filling_from F.filling from self.old) self.old }
    {
        let slot = self.slot::<F>();
        let next = F::next_fill(&self.geometry, &self.commit, slot, from);
        let scheme = F::Images::scheme(&self.geometry);
        let version = version_of(scheme, &self.commit, &self.geometry);
        self.stage = match next {
            Some(k) => Stage::Reads(ReadStage::Fills(k)),
            None => stage_when_filled(version),
        };
    }

    /// Fills position `k`.
    fn read_fill<F: Fills, N: Nvm>(
        &mut self,
        k: u64,
        control: &mut F::Control,
        nvm: &mut N,
    ) -> Result<(), NvmError>
        requires stage { self.old.stage ≡ Reads (FillsAt k) }
        requires fits { IsBoot F.filling self.old }
        requires read { HasRead F.filling (N.device nvm.old) self.old control.old }
        requires up { (N.device nvm.old).down ≡ false }
        ensures goes { OnOk result (self.new ≡ read_on F.filling (FillsAt k) (N.device nvm.old) self.old) }
        ensures fills { OnOk result (FillsOn F.filling (FillsAt k) (N.device nvm.old) self.old control.old control.new) }
        ensures boot { OnErr result (self.new ≡ self.old) }
        ensures control { OnErr result (control.new ≡ control.old) }
        ensures nvm { Takes (read_action F.filling self.old control.old (FillsAt k)) result (N.device nvm.old) (N.device nvm.new) }
    {
        let _positions = F::most_fills(&self.geometry);
        F::fill(control, &self.commit, k, nvm)?;
        self.go_to_fill::<F>(k + 1);
        Ok(())
    }
}
