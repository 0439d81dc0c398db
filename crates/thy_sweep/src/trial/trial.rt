//! One image that a power cut can leave, tried.
ghost use Rattle.std.specs.Prelude.{◌≡◌, IfOk, IfErr};
ghost use Rattle.thy_block.specs.Counts.{Rose};
ghost use Rattle.thy_block.specs.Device.{IsFramed};
ghost use Rattle.thy_sweep.specs.Trials.{CanTry, IsLostDram, ReadsAs, ReadsRestored, Tries, has_restored};
ghost use Rattle.thy_computer.specs.Kind.{CanRead, HasFailedToRead, IsDramOf};
ghost use Rattle.thy_computer.specs.declared.error.CoreError.TheVariants.{Nvm as NvmFailed};

use crate::Booted;
use crate::trial::booting::boot;
use crate::trial::part::{Part, Restored};
use std::alloc::Global;
use thy_block::{Mix, Nvm};
use thy_computer::{Computer, CoreError};
use thy_dram::Dram;
use thy_run::Plan;

/// What trying an image came to.
#[derive(Drop)]
pub struct Tried {
    /// How the image's boot ended; None if it did not end within the cycles that it had.
    pub booted: Option<Booted>,
    /// What was read of the state that was restored, if one was.
    pub state: Option<Restored>,
    /// The DRAM, for the next one.
    pub dram: Dram,
}

/// A machine whose power comes on over a DRAM that has lost its bytes.
fn power_over<M: Computer>(
    alloc: Global,
    plan: &Plan,
    dram: Dram,
    pick: u64,
) -> Result<M, CoreError>
    requires { IsDramOf plan.now.geometry dram }
    ensures powered { IfOk result (λ m. M.kind.powered plan.now.geometry m) }
    ensures dram { IfOk result (λ m. IsLostDram plan.now.geometry pick (M.kind.dram m)) }
    ensures memory { IfErr result (λ e. e ≡ NvmFailed → ⊥) }
{
    let mut dram = dram;
    dram.cut(pick);
    match M::power_on(alloc, &plan.geometry, dram) {
        Ok(machine) => Ok(machine),
        Err(error) => Err(CoreError::Memory(error)),
    }
}

/// Whether a boot restored a checkpoint.
fn has_restored(booted: Option<Booted>) -> bool
    ensures { result ≡ has_restored booted }
{
    match booted {
        Some(booted) => booted.mark.is_some(),
        None => false,
    }
}

/// Reads this part of the state of a machine between two instructions. For the processor the device is left alone.
fn read<M: Computer, N: Nvm>(
    alloc: Global,
    machine: &M,
    part: Part,
    nvm: &mut N,
) -> Result<Restored, CoreError>
    requires { CanRead M.kind machine.now (N.device nvm.old) }
    ensures state { ReadsAs M.kind machine.now (N.device nvm.old) part result }
    ensures frame { IsFramed (N.device nvm.old) (N.device nvm.new) }
    ensures err { IfErr result (λ e. HasFailedToRead e (N.device nvm.old) (N.device nvm.new)) }
{
    match part {
        Part::State => {
            let state = machine.snapshot(alloc, nvm)?;
            Ok(Restored::State(state))
        }
        Part::Processor => Ok(Restored::Processor(machine.processor())),
    }
}

/// Reads this part of the state that a boot restored, if it restored a checkpoint; else nothing is read, and nothing fails.
fn restored<M: Computer, N: Nvm>(
    alloc: Global,
    machine: &M,
    part: Part,
    booted: Option<Booted>,
    nvm: &mut N,
) -> Result<Option<Restored>, CoreError>
    requires { CanRead M.kind machine.now (N.device nvm.old) }
    ensures state { ReadsRestored M.kind machine.now (N.device nvm.old) part booted result }
    ensures frame { IsFramed (N.device nvm.old) (N.device nvm.new) }
    ensures err { IfErr result (λ e. HasFailedToRead e (N.device nvm.old) (N.device nvm.new)) }
{
    if !has_restored(booted) {
        return Ok(None);
    }
    let state = read(alloc, machine, part, nvm)?;
    Ok(Some(state))
}

/// Lets power come on over a device that holds what a cut may leave of a run's device, boots the machine by the run's schedule,
/// and reads this part of the state that it restored.
///
/// # Errors
/// `Memory` if memory runs out, `Nvm` if the device fails.
pub fn try_copy<M: Computer, N: Nvm>(
    alloc: Global,
    plan: &Plan,
    dram: Dram,
    pick: u64,
    part: Part,
    mix: Mix,
    most: u64,
    nvm: &mut N,
) -> Result<Tried, CoreError>
    requires dram { IsDramOf plan.now.geometry dram }
    requires can { CanTry M.kind plan.now (N.device nvm.old) mix most }
    ensures tried { Tries M.kind plan.now pick part (N.device nvm.old) mix most result }
    ensures dram { IfOk result (λ t. IsDramOf plan.now.geometry t.dram) }
    ensures frame { IsFramed (N.device nvm.old) (N.device nvm.new) }
    ensures fault { IfErr result (λ e. e ≡ NvmFailed → Rose (N.device nvm.old).faults (N.device nvm.new).faults) }
    ensures memory { IfErr result (λ e. (e ≡ NvmFailed → ⊥) → (N.device nvm.new).faults ≡ (N.device nvm.old).faults) }
{
    let mut machine = power_over::<M>(alloc, plan, dram, pick)?;
    let Ok(booted) = boot(&mut machine, plan, mix, most, nvm) else {
        return Err(CoreError::Nvm);
    };
    let state = restored(alloc, &machine, part, booted, nvm)?;
    let dram = machine.cut(pick);
    Ok(Tried {
        booted,
        state,
        dram,
    })
}
