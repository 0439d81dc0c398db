//! The engine.
ghost use Rattle.std.specs.Prelude.{◌≡◌, ◌<◌, false, length, IfOk, OnOk, OnErr};
ghost use Rattle.thy_block.specs.Device.{IsFramed, CountsFault};

use crate::Fills;
use crate::engine_stage::EngineStage;
use crate::items::Checkpoints;
use std::marker::Model;
use thy_block::{Block, COMMIT_PLACE, Geometry, Nvm, NvmError};
use thy_computer::Round;
use thy_isa::CpuState;
use thy_layout::{EngineStep, ImageLayout, commit_block, cpu_block};

/// The checkpoint engine of any scheme. Each step makes of the NVM what one action makes of it.
#[derive(Drop)]
pub struct Engine {
    geometry: Geometry,
    stage: EngineStage,
    cpu: CpuState,
    epoch: u64,
}

impl Model for Engine {
    ghost use Rattle.std.specs.Prelude.{◌≡◌, length};
    ghost use Rattle.thy_checkpoint.specs.Progress.{Progress};

    ghost Value = { Progress };

    ghost view = { λ e. record { p = e.geometry; stage = e.stage; cpu = e.cpu; epoch = e.epoch } };

    ghost invariant = { λ e. length e.cpu.regs ≡ 32 };
}

/// What the engine did, and the stage after it.
#[derive(Clone, Copy)]
struct Done {
    step: EngineStep,
    stage: EngineStage,
}

impl Engine {
    ghost use Rattle.thy_checkpoint.specs.Loads.{Takes};
    ghost use Rattle.thy_checkpoint.specs.declared.engine_stage.EngineStage.TheVariants.{Body as BodyFrom, Tail as TailFrom};
    ghost use Rattle.thy_checkpoint.specs.Progress.{RoundItem, is_under_way, is_applying, item, report_in, next_after, control_after};
    ghost use Rattle.thy_checkpoint.specs.Progress.{new_engine, begun, applying, Fits, slot_blocks, slot_place, slot_block, slot_round, layout_of, report, item_of, engine_next, control_next, action_next};
    ghost use Rattle.thy_computer.specs.Round.{IsInRound, round_action};
    ghost use Rattle.thy_checkpoint.specs.Progress.{Ends, ReleaseItem};
    ghost use Rattle.thy_checkpoint.specs.Items.{Made};
    ghost use Rattle.thy_computer.specs.Action.{IsAfter, FailsTo};

    /// An engine without a checkpoint under way.
    pub fn new(geometry: &Geometry) -> Engine
        ensures { result ≡ new_engine geometry.now }
    {
        Engine {
            geometry: *geometry,
            stage: EngineStage::Idle,
            cpu: CpuState::zero(),
            epoch: 0,
        }
    }

    /// What the engine does next.
    pub fn stage(&self) -> EngineStage
        ensures { result ≡ self.now.stage }
    {
        self.stage
    }

    /// Recalls that the engine's processor has 32 registers. The call does nothing.
    pub fn recall_sound(&self)
        ensures { length self.now.cpu.regs ≡ 32 }
    {
        let _cpu = &self.cpu;
    }

    /// Begins the checkpoint of an epoch, with the processor as it was sealed. Nothing may be under way.
    pub fn begin(&mut self, cpu: &CpuState, epoch: u64)
        requires idle { is_under_way self.old.stage ≡ false }
        requires regs { length cpu.now.regs ≡ 32 }
        ensures { self.new ≡ begun cpu.now epoch self.old }
    {
        self.stage = EngineStage::Body(0);
        self.cpu = *cpu;
        self.epoch = epoch;
    }

    /// Begins to write the tail, which follows the commit, of a checkpoint that was restored.
    pub fn apply(&mut self)
        ensures { self.new ≡ applying self.old }
    {
        self.stage = EngineStage::Tail(0);
    }

    /// Whether the engine is not idle.
    pub fn under_way(&self) -> bool
        ensures { result ≡ is_under_way self.now.stage }
    {
        match self.stage {
            EngineStage::Idle => false,
            EngineStage::Body(_) | EngineStage::InRound(_) | EngineStage::Tail(_) => true,
        }
    }

    /// Whether the engine writes the tail, which follows the commit.
    pub fn applies(&self) -> bool
        ensures { result ≡ is_applying self.now.stage }
    {
        match self.stage {
            EngineStage::Tail(_) => true,
            EngineStage::Idle | EngineStage::Body(_) | EngineStage::InRound(_) => false,
        }
    }

    /// Takes one action: nothing if there is nothing to do. A position that need not be written takes no step of its own. If
    /// the NVM failed, engine and controller are as they were, and only the place of a write that failed may hold more.
    pub fn step<E: Checkpoints, N: Nvm>(
        &mut self,
        control: &mut E::Control,
        nvm: &mut N,
    ) -> Result<EngineStep, NvmError>
        requires fits { Fits E.filling E.items self.old control.old }
        requires sized { length (N.device nvm.old).image ≡ (layout_of E.filling self.old).image_blocks }
        requires up { (N.device nvm.old).down ≡ false }
        ensures answer { IfOk result (λ step. step ≡ report E.items self.old (item_of E.items self.old control.old)) }
        ensures engine { OnOk result (self.new ≡ engine_next E.filling E.items self.old control.old) }
        ensures control { OnOk result (control.new ≡ control_next E.items self.old control.old) }
        ensures device { let n = N.device nvm.old in
            OnOk result (IsAfter (action_next E.filling E.items self.old control.old n) n (N.device nvm.new)) }
        ensures kept { OnErr result (self.new ≡ self.old) }
        ensures kept_control { OnErr result (control.new ≡ control.old) }
        ensures err { let n = N.device nvm.old in
            OnErr result (FailsTo (action_next E.filling E.items self.old control.old n) n (N.device nvm.new)) }

        // Whether or not it failed, they belong together still.
        ensures fits { Fits E.filling E.items self.new control.new }
        ensures frame { IsFramed (N.device nvm.old) (N.device nvm.new) }
        ensures cause { CountsFault result (N.device nvm.old).faults (N.device nvm.new).faults }
    {
        E::recall_items();
        let done = self.act::<E, N>(control, nvm)?;
        self.stage = done.stage;
        Ok(done.step)
    }

    /// Takes the action that is next.
    fn act<E: Checkpoints, N: Nvm>(
        &self,
        control: &mut E::Control,
        nvm: &mut N,
    ) -> Result<Done, NvmError>
        requires fits { Fits E.filling E.items self.now control.old }
        requires sized { length (N.device nvm.old).image ≡ (layout_of E.filling self.now).image_blocks }
        requires up { (N.device nvm.old).down ≡ false }
        ensures { let i = item_of E.items self.now control.old in
            Ends E.filling E.items i self.now control.old (N.device nvm.old) result control.new (N.device nvm.new) }
    {
        match self.stage {
            EngineStage::Idle => Ok(Done {
                step: EngineStep::Idle,
                stage: EngineStage::Idle,
            }),
            EngineStage::Body(from) => self.write_body::<E, N>(from, control, nvm),
            EngineStage::InRound(round) => self.take_round::<E, N>(round, control, nvm),
            EngineStage::Tail(from) => self.write_tail::<E, N>(from, control, nvm),
        }
    }

    /// Writes the first position of the body from one on, actions 1 and 2 of a checkpoint in docs/CONTROLLER.md; if there is
    /// none, the slot's first block.
    fn write_body<E: Checkpoints, N: Nvm>(
        &self,
        from: u64,
        control: &mut E::Control,
        nvm: &mut N,
    ) -> Result<Done, NvmError>
        requires stage { self.now.stage ≡ BodyFrom from }
        requires fits { Fits E.filling E.items self.now control.old }
        requires sized { length (N.device nvm.old).image ≡ (layout_of E.filling self.now).image_blocks }
        requires up { (N.device nvm.old).down ≡ false }
        ensures { let i = item E.items (BodyFrom from) control.old in
            Ends E.filling E.items i self.now control.old (N.device nvm.old) result control.new (N.device nvm.new) }
    {
        E::recall_items();
        match E::next_body(control, from) {
            Some(k) => {
                E::write_body(control, self.epoch, k, nvm)?;
                Ok(Done {
                    step: E::step_of(&self.geometry, k),
                    stage: EngineStage::Body(k + 1),
                })
            }
            None => self.take_round::<E, N>(Round::Write(0), control, nvm),
        }
    }

    /// Takes an action of the round. With the last barrier the controller commits.
    fn take_round<E: Checkpoints, N: Nvm>(
        &self,
        round: Round,
        control: &mut E::Control,
        nvm: &mut N,
    ) -> Result<Done, NvmError>
        requires inside { IsInRound (slot_blocks E.filling self.now) round }
        requires same_p { E.filling.p control.old ≡ self.now.p }
        requires made { E.items.stands Made control.old }
        requires sized { length (N.device nvm.old).image ≡ (layout_of E.filling self.now).image_blocks }
        requires up { (N.device nvm.old).down ≡ false }
        ensures { Ends E.filling E.items (RoundItem round) self.now control.old (N.device nvm.old) result control.new (N.device nvm.new) }
    {
        self.write_round::<E, N>(round, control, nvm)?;
        self.commit_in::<E>(round, control);
        Ok(Done {
            step: self.step_in(round),
            stage: self.after_round::<E>(round),
        })
    }

    /// Writes a block of the slot, or the commit block, or makes a barrier.
    fn write_round<E: Checkpoints, N: Nvm>(
        &self,
        round: Round,
        control: &E::Control,
        nvm: &mut N,
    ) -> Result<(), NvmError>
        requires inside { IsInRound (slot_blocks E.filling self.now) round }
        requires same_p { E.filling.p control.now ≡ self.now.p }
        requires made { E.items.stands Made control.now }
        requires sized { length (N.device nvm.old).image ≡ (layout_of E.filling self.now).image_blocks }
        requires up { (N.device nvm.old).down ≡ false }
        ensures { let w = slot_round E.filling E.items self.now control.now in
            Takes (round_action w round) result (N.device nvm.old) (N.device nvm.new) }
    {
        match round {
            // actions 3 and 4 of a checkpoint
            Round::Write(k) => {
                let at = self.slot_at::<E>(k);
                nvm.write(at, &self.slot_block::<E>(k, control))
            }
            // actions 5 and 7
            Round::Settle | Round::Confirm => nvm.barrier(),
            // action 6
            Round::Commit => nvm.write(COMMIT_PLACE, &commit_block(self.epoch)),
        }
    }

    /// The controller commits with the last barrier.
    fn commit_in<E: Checkpoints>(&self, round: Round, control: &mut E::Control)
        requires { E.items.stands Made control.old }
        ensures { control.new ≡ control_after E.items (RoundItem round) control.old }
    {
        match round {
            Round::Write(_) | Round::Settle | Round::Commit => {}
            Round::Confirm => E::commit(control),
        }
    }

    /// What the engine reports of an action of the round.
    fn step_in(&self, round: Round) -> EngineStep
        ensures { result ≡ report_in self.now round }
    {
        match round {
            Round::Write(k) if k < self.geometry.record_blocks() => EngineStep::StateBlock,
            Round::Write(_) => EngineStep::TableBlock,
            Round::Settle => EngineStep::Barrier,
            Round::Commit => EngineStep::CommitWritten,
            Round::Confirm => EngineStep::Committed(self.epoch),
        }
    }

    /// The stage after an action of the round.
    fn after_round<E: Checkpoints>(&self, round: Round) -> EngineStage
        requires { IsInRound (slot_blocks E.filling self.now) round }
        ensures { result ≡ next_after E.filling E.items self.now (RoundItem round) }
    {
        let blocks = E::Images::slot_blocks(&self.geometry, &commit_block(self.epoch));
        match round.next(blocks) {
            Some(next) => EngineStage::InRound(next),
            None if E::has_tail() => EngineStage::Tail(0),
            None => EngineStage::Idle,
        }
    }

    /// The place of block `k` of the slot.
    fn slot_at<E: Checkpoints>(&self, k: u64) -> u64
        requires { slot_place E.filling self.now k < (layout_of E.filling self.now).image_blocks }
        ensures { result ≡ slot_place E.filling self.now k }
    {
        let _few = E::Images::blocks(&self.geometry);
        E::Images::slot_place(&self.geometry, &commit_block(self.epoch)) + k
    }

    /// Block `k` of the slot.
    fn slot_block<E: Checkpoints>(&self, k: u64, control: &E::Control) -> Block
        requires block { k < slot_blocks E.filling self.now }
        requires same_p { E.filling.p control.now ≡ self.now.p }
        requires made { E.items.stands Made control.now }
        ensures { result ≡ slot_block E.items self.now control.now k }
    {
        let record = self.geometry.record_blocks();
        if k < record {
            cpu_block(&self.cpu, self.epoch, k)
        } else {
            E::rest(control, self.epoch, k - record)
        }
    }

    /// Writes the first position of the tail from one on; if there is none, the barrier after the tail.
    fn write_tail<E: Checkpoints, N: Nvm>(
        &self,
        from: u64,
        control: &mut E::Control,
        nvm: &mut N,
    ) -> Result<Done, NvmError>
        requires stage { self.now.stage ≡ TailFrom from }
        requires fits { Fits E.filling E.items self.now control.old }
        requires sized { length (N.device nvm.old).image ≡ (layout_of E.filling self.now).image_blocks }
        requires up { (N.device nvm.old).down ≡ false }
        ensures { let i = item E.items (TailFrom from) control.old in
            Ends E.filling E.items i self.now control.old (N.device nvm.old) result control.new (N.device nvm.new) }
    {
        E::recall_items();
        match E::next_tail(control, from) {
            Some(k) => {
                E::write_tail(control, k, nvm)?;
                Ok(Done {
                    step: E::step_of(&self.geometry, k),
                    stage: EngineStage::Tail(k + 1),
                })
            }
            None => self.release::<E, N>(control, nvm),
        }
    }

    /// The barrier after the tail.
    fn release<E: Checkpoints, N: Nvm>(
        &self,
        control: &mut E::Control,
        nvm: &mut N,
    ) -> Result<Done, NvmError>
        requires up { (N.device nvm.old).down ≡ false }
        ensures { Ends E.filling E.items ReleaseItem self.now control.old (N.device nvm.old) result control.new (N.device nvm.new) }
    {
        nvm.barrier()?;
        E::release(control);
        Ok(Done {
            step: EngineStep::Barrier,
            stage: EngineStage::Idle,
        })
    }
}
