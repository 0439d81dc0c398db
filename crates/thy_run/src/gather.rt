//! What the machine is read for after a step, before any event of it is made.
ghost use Rattle.std.specs.Prelude.{◌≡◌, ◌&&◌, true, IfErr, OnOk, OnErr};
ghost use Rattle.thy_block.specs.Device.{IsFramed};
ghost use Rattle.thy_computer.specs.Kind.{CanRead, HasFailedToRead};
ghost use Rattle.thy_computer.specs.Views.{loads};
ghost use Rattle.thy_run.specs.Due.{shows_console, IsReported};
ghost use Rattle.thy_run.specs.Promises.{BoxesSnapshot, ReadsRestart, ReadsDue, ReadsEnd, ReportsReload, GathersAll};

use crate::progress::Progress;
use std::alloc::{AllocError, Global};
use thy_base::{Bytes, Nvm};
use thy_computer::{Computer, CoreError, Did, Stepped};
use thy_isa::MachState;

/// What was read of the machine and the NVM for the events and the terminal.
#[derive(Drop)]
pub struct Readings {
    /// Whether the program is loaded again: the first cycle after a cut found no checkpoint.
    pub reload: bool,
    /// The state that was restored, if one was.
    pub restored: Option<Box<MachState>>,
    /// The bytes of the console that the terminal has to get.
    pub bytes: Bytes,
    /// The last state, if this step ended the run.
    pub ended: Option<Box<MachState>>,
}

/// Whether a step makes the console of another checkpoint known.
fn shows_console(did: Did) -> bool
    ensures { result ≡ shows_console did }
{
    matches!(
        did,
        Did::Loaded | Did::Restarted(..) | Did::Committed { .. }
    )
}

/// The state between two instructions, in a box: few cycles have one, and the others move a pointer.
fn boxed_snapshot<M: Computer, N: Nvm>(
    alloc: Global,
    machine: &M,
    nvm: &mut N,
) -> Result<Box<MachState>, CoreError>
    requires { CanRead M.kind machine.now (N.device nvm.old) }
    ensures state { BoxesSnapshot M.kind machine.now (N.device nvm.old) result }
    ensures same { OnOk result (N.device nvm.new ≡ N.device nvm.old) }
    ensures err { IfErr result (λ e. HasFailedToRead e (N.device nvm.old) (N.device nvm.new)) }
    ensures frame { IsFramed (N.device nvm.old) (N.device nvm.new) }
{
    let state = machine.snapshot(alloc, nvm)?;
    match Box::new(alloc, state) {
        Ok(state) => Ok(state),
        Err(_) => Err(CoreError::Memory(AllocError)),
    }
}

/// The state that was restored, if one was.
fn restored<M: Computer, N: Nvm>(
    alloc: Global,
    progress: &Progress<M>,
    did: Did,
    nvm: &mut N,
) -> Result<Option<Box<MachState>>, CoreError>
    requires { CanRead M.kind progress.now.machine (N.device nvm.old) }
    ensures read { ReadsRestart M.kind progress.now (N.device nvm.old) did result }
    ensures same { OnOk result (N.device nvm.new ≡ N.device nvm.old) }
    ensures err { IfErr result (λ e. HasFailedToRead e (N.device nvm.old) (N.device nvm.new)) }
    ensures due { OnErr result (shows_console did ≡ true) }
    ensures frame { IsFramed (N.device nvm.old) (N.device nvm.new) }
{
    match did {
        Did::Restarted(..) => {
            let state = boxed_snapshot(alloc, &progress.machine, nvm)?;
            Ok(Some(state))
        }
        _ => Ok(None),
    }
}

/// The bytes of the console that the terminal has not taken yet, if a step makes another checkpoint known.
fn due<M: Computer, N: Nvm>(
    alloc: Global,
    progress: &Progress<M>,
    did: Did,
    nvm: &mut N,
) -> Result<Bytes, CoreError>
    requires { CanRead M.kind progress.now.machine (N.device nvm.old) }
    ensures read { ReadsDue M.kind progress.now (N.device nvm.old) did result }
    ensures same { OnOk result (N.device nvm.new ≡ N.device nvm.old) }
    ensures err { IfErr result (λ e. HasFailedToRead e (N.device nvm.old) (N.device nvm.new)) }
    ensures due { OnErr result (shows_console did ≡ true) }
    ensures frame { IsFramed (N.device nvm.old) (N.device nvm.new) }
{
    if !shows_console(did) {
        return Ok(Bytes::new(alloc));
    }
    let bytes = progress.machine.console(alloc, progress.released, nvm)?;
    Ok(bytes)
}

/// The last state, if a step ended the run.
fn ending<M: Computer, N: Nvm>(
    alloc: Global,
    progress: &Progress<M>,
    ended: bool,
    nvm: &mut N,
) -> Result<Option<Box<MachState>>, CoreError>
    requires { CanRead M.kind progress.now.machine (N.device nvm.old) }
    ensures read { ReadsEnd M.kind progress.now (N.device nvm.old) ended result }
    ensures same { OnOk result (N.device nvm.new ≡ N.device nvm.old) }
    ensures err { IfErr result (λ e. HasFailedToRead e (N.device nvm.old) (N.device nvm.new)) }
    ensures due { OnErr result (ended ≡ true) }
    ensures frame { IsFramed (N.device nvm.old) (N.device nvm.new) }
{
    if !ended {
        return Ok(None);
    }
    let state = boxed_snapshot(alloc, &progress.machine, nvm)?;
    Ok(Some(state))
}

/// Whether the step is the first after a cut, and found no checkpoint.
fn reloads<M: Computer>(progress: &Progress<M>) -> bool
    ensures { ReportsReload M.kind progress.now result }
{
    let loads = progress.machine.loading();
    progress.fresh && loads
}

/// Reads what a step's events and the terminal need. The state of a restart comes before the console. If no event needs
/// a state and no console is shown, nothing is read, and nothing fails.
pub fn gather<M: Computer, N: Nvm>(
    alloc: Global,
    progress: &Progress<M>,
    stepped: &Stepped,
    nvm: &mut N,
) -> Result<Readings, CoreError>
    requires { CanRead M.kind progress.now.machine (N.device nvm.old) }
    ensures read { GathersAll M.kind progress.now (N.device nvm.old) stepped.now result }
    ensures same { OnOk result (N.device nvm.new ≡ N.device nvm.old) }
    ensures err { IfErr result (λ e. HasFailedToRead e (N.device nvm.old) (N.device nvm.new)) }
    ensures due { OnErr result (IsReported stepped.now) }
    ensures frame { IsFramed (N.device nvm.old) (N.device nvm.new) }
{
    let reload = reloads(progress);
    let restored = restored(alloc, progress, stepped.did, nvm)?;
    let bytes = due(alloc, progress, stepped.did, nvm)?;
    let ended = ending(alloc, progress, stepped.ended, nvm)?;
    Ok(Readings {
        reload,
        restored,
        bytes,
        ended,
    })
}
