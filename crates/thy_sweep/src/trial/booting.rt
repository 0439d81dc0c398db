//! The boot of a machine whose power has come on over a copy.
ghost use Rattle.thy_block.specs.Device.{CountsFault, IsFramed};
ghost use Rattle.thy_sweep.specs.Trials.{BootsFrom, CanBoot, IsEndOf};

use crate::Booted;
use thy_block::{Mark, Mix, Nvm, NvmError};
use thy_computer::{Computer, Did};
use thy_run::Plan;

/// Whether a boot is over after a cycle.
#[derive(Clone, Copy, Debug)]
pub enum BootEnd {
    /// The boot is not over.
    On,
    /// The boot restored this checkpoint, or, if there is none, loaded the start.
    At(Option<Mark>),
    /// The boot refused the image.
    Refused,
}

/// Whether a boot is over after a cycle that did this.
fn end_of(did: Did) -> BootEnd
    ensures { IsEndOf did result }
{
    match did {
        Did::Loaded => BootEnd::At(None),
        Did::Restarted(epoch, count) => BootEnd::At(Some(Mark { epoch, count })),
        Did::Refused(_) => BootEnd::Refused,
        _ => BootEnd::On,
    }
}

/// Steps a machine whose power has come on over a device that a cut may have left, by this schedule, until it has restored a
/// checkpoint or loaded the start. Nothing is returned if that takes more than `most` cycles, or if the image is refused.
///
/// # Errors
/// The device failed.
pub fn boot<M: Computer, N: Nvm>(
    machine: &mut M,
    plan: &Plan,
    mix: Mix,
    most: u64,
    nvm: &mut N,
) -> Result<Option<Booted>, NvmError>
    requires { CanBoot M.kind plan.now machine.old (N.device nvm.old) mix most }
    ensures boots { let n = N.device nvm.old in
        BootsFrom M.kind plan.now machine.old machine.new n (N.device nvm.new) mix most result }
    ensures frame { IsFramed (N.device nvm.old) (N.device nvm.new) }
    ensures cause { CountsFault result (N.device nvm.old).faults (N.device nvm.new).faults }
{
    let harts = plan.geometry.harts();
    let mut mix = mix;
    for done in 0..most {
        let pick = mix.next(harts);
        let stepped = machine.step(pick, &plan.start, nvm)?;
        match end_of(stepped.did) {
            BootEnd::On => {}
            BootEnd::At(mark) => {
                return Ok(Some(Booted {
                    mark,
                    cycles: done + 1,
                }));
            }
            BootEnd::Refused => return Ok(None),
        }
    }
    Ok(None)
}
