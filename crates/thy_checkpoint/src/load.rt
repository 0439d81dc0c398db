//! Loading: if the NVM has no checkpoint, that of the start is written, as epoch 0.
ghost use Rattle.std.specs.Prelude.{◌≡◌, ◌<◌, length, OnOk, OnErr};
ghost use Rattle.thy_isa.specs.Step.{state_of};
ghost use Rattle.thy_layout.specs.Header.{header_of};
ghost use Rattle.thy_computer.specs.Round.{IsInRound, next_round, round_action};
ghost use Rattle.thy_checkpoint.specs.Boot.{at_stage};
ghost use Rattle.thy_checkpoint.specs.Filling.{layout_at, first_by};
ghost use Rattle.thy_checkpoint.specs.Loads.{CanLoad, Takes, first_writes, loads_on, place_of_first, block_of_first};
ghost use Rattle.thy_checkpoint.specs.Start.{CanStart};

use crate::boot::Boot;
use crate::boot_stage::{End, Stage};
use crate::fills::Fills;
use crate::reading::slot_at;
use crate::start::start_block;
use thy_block::{Block, COMMIT_PLACE, Geometry, HEADER_PLACE, Nvm, NvmError, Write};
use thy_computer::Round;
use thy_isa::MachState;
use thy_layout::{ImageLayout, commit_block, header_block_of};

/// The header of the images of a geometry.
fn header<F: Fills>(geometry: &Geometry) -> Block
    ensures { result ≡ header_of (layout_at F.filling geometry.now).scheme geometry.now }
{
    header_block_of(F::Images::scheme(geometry), geometry)
}

/// How many blocks of memory are written.
fn blocks_of_memory<F: Fills>(geometry: &Geometry, state: &MachState) -> u64
    ensures { result ≡ length (first_by F.filling geometry.now (state_of state.now)).parts.memory }
{
    let _state = state;
    geometry.memory_blocks()
}

/// How many blocks the slot of a start's checkpoint has.
fn blocks_of_slot<F: Fills>(geometry: &Geometry, state: &MachState) -> u64
    ensures { result ≡ (first_by F.filling geometry.now (state_of state.now)).parts.slot_blocks }
{
    let _state = state;
    F::Images::slot_blocks(geometry, &commit_block(0))
}

/// How many blocks loading writes: memory's, the slot's, and the header.
fn blocks_of_start<F: Fills>(geometry: &Geometry, state: &MachState) -> u64
    ensures { result ≡ (first_writes (first_by F.filling geometry.now (state_of state.now))).blocks }
{
    let _few = F::Images::blocks(geometry);
    let _range = geometry.memory_blocks();
    blocks_of_memory::<F>(geometry, state) + blocks_of_slot::<F>(geometry, state) + 1
}

/// The write of block `k`, from 0, of those that loading writes: its place and its block.
fn write_of<F: Fills>(geometry: &Geometry, state: &MachState, k: u64) -> Write
    requires start { CanStart geometry.now (state_of state.now) }
    requires inside { k < (first_writes (first_by F.filling geometry.now (state_of state.now))).blocks }
    ensures place { result.at ≡ place_of_first (first_by F.filling geometry.now (state_of state.now)) k }
    ensures block { result.block ≡ block_of_first (first_by F.filling geometry.now (state_of state.now)) k }
{
    let memory = blocks_of_memory::<F>(geometry, state);
    let slot = blocks_of_slot::<F>(geometry, state);
    if k < memory {
        let at = F::first_place(geometry, state, k);
        let block = start_block(geometry, state, k);
        Write { at, block }
    } else if k - memory < slot {
        let at = slot_at::<F>(geometry, &commit_block(0), k - memory);
        let block = F::first_slot(geometry, state, k - memory);
        Write { at, block }
    } else {
        let block = header::<F>(geometry);
        Write {
            at: HEADER_PLACE,
            block,
        }
    }
}

/// The stage after an action of loading.
fn stage_after<F: Fills>(geometry: &Geometry, round: Round, state: &MachState) -> Stage
    requires { IsInRound (first_writes (first_by F.filling geometry.now (state_of state.now))).blocks round }
    ensures { result ≡ loads_on (next_round (first_writes (first_by F.filling geometry.now (state_of state.now))).blocks round) }
{
    match round.next(blocks_of_start::<F>(geometry, state)) {
        Some(next) => Stage::Loads(next),
        None => Stage::Over(End::Loaded),
    }
}

impl Boot {
    ghost use Rattle.thy_checkpoint.specs.declared.boot_stage.Stage.TheVariants.{Loads};

    /// Takes the next action of loading: memory's blocks are written to their places, then the slot, the header, a
    /// barrier, the commit block of epoch 0, and a barrier. If the NVM failed the boot is as before, and only the
    /// place of a write may hold more.
    pub(crate) fn load<F: Fills, N: Nvm>(
        &mut self,
        round: Round,
        state: &MachState,
        nvm: &mut N,
    ) -> Result<(), NvmError>
        requires stage { self.old.stage ≡ Loads round }
        requires can { CanLoad F.filling (state_of state.now) round (N.device nvm.old) self.old }
        ensures boot { let w = first_writes (first_by F.filling self.old.p (state_of state.now)) in
            OnOk result (self.new ≡ at_stage (loads_on (next_round w.blocks round)) self.old) }
        ensures kept { OnErr result (self.new ≡ self.old) }
        ensures nvm { let w = first_writes (first_by F.filling self.old.p (state_of state.now)) in
            Takes (round_action w round) result (N.device nvm.old) (N.device nvm.new) }
    {
        self.write_first::<F, N>(round, state, nvm)?;
        self.stage = stage_after::<F>(&self.geometry, round, state);
        Ok(())
    }

    // Takes the action.
    fn write_first<F: Fills, N: Nvm>(
        &self,
        round: Round,
        state: &MachState,
        nvm: &mut N,
    ) -> Result<(), NvmError>
        requires can { CanLoad F.filling (state_of state.now) round (N.device nvm.old) self.now }
        ensures { let w = first_writes (first_by F.filling self.now.p (state_of state.now)) in
            Takes (round_action w round) result (N.device nvm.old) (N.device nvm.new) }
    {
        match round {
            Round::Write(k) => {
                let write = write_of::<F>(&self.geometry, state, k);
                nvm.write(write.at, &write.block)
            }
            Round::Settle | Round::Confirm => nvm.barrier(),
            Round::Commit => nvm.write(COMMIT_PLACE, &commit_block(0)),
        }
    }
}
