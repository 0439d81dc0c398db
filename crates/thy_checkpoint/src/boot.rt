//! The boot.
ghost use Rattle.std.specs.Prelude.{◌≡◌, ◌*◌, ◌≤◌, false, length, take, IfOk};
ghost use Rattle.thy_isa.specs.Step.{state_of};
ghost use Rattle.thy_layout.specs.Files.{blocks_of};
ghost use Rattle.thy_checkpoint.specs.Boot.{IsBoot, layout_in, new_boot, slot_read, answer_of};
ghost use Rattle.thy_checkpoint.specs.Steps.{CanStep, TakesStep};

use crate::boot_stage::{End, ReadStage, Stage};
use crate::fills::Fills;
use std::alloc::{AllocError, Global};
use std::marker::Model;
use thy_block::{BLOCK_SIZE, Block, Geometry, Nvm, NvmError};
use thy_computer::BootStep;
use thy_layout::{ImageLayout, Start, cpu_in, epoch_in};

/// A boot, with the commit block and the bytes of the slot, as far as they were read. Only `new` allocates: the room for
/// the slot.
#[derive(Drop)]
pub struct Boot {
    pub(crate) geometry: Geometry,
    pub(crate) commit: Block,
    pub(crate) slot: Vec<u8>,
    pub(crate) stage: Stage,
}

impl Model for Boot {
    ghost use Rattle.thy_checkpoint.specs.Boot.{Booting};

    ghost Value = { Booting };

    ghost view = { λ b. record { p = b.geometry; commit = b.commit; slot = b.slot.items; stage = b.stage } };
}

// The first blocks of these bytes.
fn first_blocks(bytes: &[u8], count: u64) -> &[u8]
    requires { 64 * count ≤ length bytes.now }
    ensures length { length result.now ≡ 64 * count }
    ensures blocks { blocks_of result.now ≡ take count (blocks_of bytes.now) }
{
    &bytes[..BLOCK_SIZE * count as usize]
}

impl Boot {
    /// The boot of a machine whose power came on.
    #[tactic(auto, unfolding(thy_block::specs::Device::zero_block))]
    pub fn new<F: Fills>(alloc: Global, geometry: &Geometry) -> Result<Boot, AllocError>
        ensures { IfOk result (λ boot. boot ≡ new_boot F.filling geometry.now) }
    {
        let size = BLOCK_SIZE * F::Images::most_slot(geometry) as usize;
        let mut slot = Vec::with_capacity(alloc, size)?;
        slot.resize(size, 0)?;
        Ok(Boot {
            geometry: *geometry,
            commit: Block::ZERO,
            slot,
            stage: Stage::Reads(ReadStage::Unread),
        })
    }

    /// What the boot does next, or how it ended.
    pub fn stage(&self) -> Stage
        ensures { result ≡ self.now.stage }
    {
        self.stage
    }

    /// The geometry of the machine that boots.
    pub fn geometry(&self) -> &Geometry
        ensures { result.now ≡ self.now.p }
    {
        &self.geometry
    }

    /// The commit block of the image; zeros before it was read.
    pub fn commit(&self) -> &Block
        ensures { result.now ≡ self.now.commit }
    {
        &self.commit
    }

    /// The bytes of the slot that the commit block names, as far as they were read.
    pub fn slot<F: Fills>(&self) -> &[u8]
        requires { length self.now.slot ≡ 64 * (layout_in F.filling self.now).most_slot }
        ensures length { length result.now ≡ 64 * (layout_in F.filling self.now).slot_blocks self.now.commit }
        ensures blocks { blocks_of result.now ≡ slot_read F.filling self.now }
    {
        let blocks = F::Images::slot_blocks(&self.geometry, &self.commit);
        first_blocks(&self.slot, blocks)
    }

    /// Takes one action on the NVM: it reads the next block of the checkpoint there, loads the start if there is none, or migrates a
    /// checkpoint of an older form. Once the image was found at fault, it takes none, and returns the refusal at each step. If the NVM
    /// failed, boot and controller are as before. If the boot continues, its stage says whether it reads, loads or migrates.
    pub fn step<F: Fills, N: Nvm>(
        &mut self,
        control: &mut F::Control,
        start: &Start,
        nvm: &mut N,
    ) -> Result<BootStep, NvmError>
        requires can { CanStep F.filling (state_of start.now.state) (N.device nvm.old) self.old control.old }
        requires fits { IsBoot F.filling self.old }
        requires up { (N.device nvm.old).down ≡ false }
        ensures answer { IfOk result (λ answer. answer ≡ answer_of F.filling self.new) }

        // A read leaves the NVM as it was; boot and controller become what the definition makes of its block, and
        // what was read is what the image means. An action of loading or of a migration equals its definition.
        ensures step { let s = state_of start.now.state in
            TakesStep F.filling result s (N.device nvm.old) self.old control.old (N.device nvm.new) self.new control.new }
    {
        self.take_next::<F, N>(control, start, nvm)?;
        Ok(self.answer::<F>())
    }

    /// Takes the next action, at whatever stage the boot is.
    fn take_next<F: Fills, N: Nvm>(
        &mut self,
        control: &mut F::Control,
        start: &Start,
        nvm: &mut N,
    ) -> Result<(), NvmError>
        requires can { CanStep F.filling (state_of start.now.state) (N.device nvm.old) self.old control.old }
        requires fits { IsBoot F.filling self.old }
        requires up { (N.device nvm.old).down ≡ false }
        ensures { let s = state_of start.now.state in
            TakesStep F.filling result s (N.device nvm.old) self.old control.old (N.device nvm.new) self.new control.new }
    {
        match self.stage() {
            Stage::Reads(at) => self.read_next::<F, N>(at, control, nvm),
            Stage::Loads(round) => self.load::<F, N>(round, &start.state, nvm),
            Stage::Migrates(round) => self.migrate::<F, N>(round, nvm),
            Stage::Over(_) => Ok(()),
        }
    }

    /// What a step returns that left the boot in this state.
    pub fn answer<F: Fills>(&self) -> BootStep
        requires { length self.now.slot ≡ 64 * (layout_in F.filling self.now).most_slot }
        ensures { result ≡ answer_of F.filling self.now }
    {
        match self.stage {
            Stage::Reads(ReadStage::Refusing(bad)) => BootStep::Refused(bad),
            Stage::Reads(_) | Stage::Loads(_) | Stage::Migrates(_) => BootStep::GoesOn,
            Stage::Over(End::Restored) => {
                let cpu = cpu_in(self.slot::<F>(), &self.geometry);
                BootStep::Restarted(cpu, epoch_in(&self.commit))
            }
            Stage::Over(End::Loaded) => BootStep::Loaded,
        }
    }
}
