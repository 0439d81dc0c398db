//! The cycles of a run, one after another.
ghost use Rattle.std.specs.Prelude.{◌≡◌, ◌<◌, ◌+◌, [], IfOk};
ghost use Rattle.thy_block.specs.Bytes.{bytes_of, room_of};
ghost use Rattle.thy_block.specs.Places.{dram_blocks};
ghost use Rattle.thy_dram.specs.Contents.{fresh};
ghost use Rattle.thy_computer.specs.Kind.{IsDramOf};
ghost use Rattle.thy_run.specs.Going.{IsPlanned, HasTurnsRoom};
ghost use Rattle.thy_run.specs.Promises.{IsAwaiting, RunsTo};
ghost use Rattle.thy_run.specs.Seeing.{RunsSeen, SeesCut};
ghost use Rattle.thy_run.specs.Watching.{CanSeeCut};
ghost use Rattle.thy_run.specs.Sending.{sinks};
ghost use Rattle.thy_run.specs.Rounds.{ending_of, IsFitted, IsStarted};

use crate::advance::{Outcome, cut, report_cycle};
use crate::ending::{Ending, Stop};
use crate::observer::Observer;
use crate::plan::Plan;
use crate::progress::Progress;
use crate::quiet::{Pause, run_quiet};
use crate::write_report::write_report;
use std::alloc::{AllocError, Global};
use thy_base::{Bytes, Geometry, Mix, Nvm, Sink};
use thy_computer::Computer;
use thy_dram::Dram;
use thy_text::{Events, Reporting};

/// Cuts the power after a cycle, and then gives the sinks what they have to get for it.
///
/// # Errors
/// How the run ends: if a sink failed, or an allocation. Then nothing was cut, and the cycle is not done.
fn cut_power<M: Computer, T: Sink, R: Sink, N: Nvm, O: Observer>(
    alloc: Global,
    progress: Progress<M>,
    bytes: Bytes,
    plan: &Plan,
    done: u64,
    first: usize,
    terminal: &mut T,
    report: &mut R,
    nvm: &mut N,
    observer: &mut O,
) -> Result<Progress<M>, Ending>
    requires planned { IsPlanned plan.now }
    requires awaits { let before = sinks (T.stream terminal.old) (R.stream report.old) in
        IsAwaiting M.kind plan.now progress (N.device nvm.old) done (bytes_of bytes) first before }
    requires few { done < plan.now.geometry.limit }
    requires unseen { CanSeeCut O.keeps observer.old (done + 1) }
    ensures { let before = sinks (T.stream terminal.old) (R.stream report.old) in
        let after = sinks (T.stream terminal.new) (R.stream report.new) in
        let n = N.device nvm.old in
        let new = N.device nvm.new in
        let o = observer.old in
        let bytes = bytes_of bytes in
        SeesCut M.kind O.has_seen O.keeps plan.now progress n new done bytes first before after o observer.new result }
{
    let reporting = Reporting {
        digest: plan.digest,
        harts: plan.config.harts,
    };
    let mut next = match cut(alloc, progress, plan, done + 1, nvm) {
        Ok(next) => next,
        Err(events) => {
            observer.forget();
            let failures = write_report(
                bytes.as_slice(),
                &events,
                first,
                reporting,
                terminal,
                report,
            );
            return Err(Ending {
                stop: Stop::Memory,
                events,
                cycles: done,
                terminal_failed: failures.terminal,
                report_failed: failures.report,
            });
        }
    };
    let failures = write_report(
        bytes.as_slice(),
        &next.events,
        first,
        reporting,
        terminal,
        report,
    );
    next.terminal_failed = failures.terminal;
    next.report_failed = failures.report;
    observer.see_cut(next.events.len() - first, done + 1);
    match failures.stop() {
        Some(stop) => Err(ended_by(stop, next, done + 1)),
        None => Ok(next),
    }
}

/// The DRAM of a machine whose power comes on for the first time.
fn first_dram(alloc: Global, geometry: &Geometry) -> Result<Dram, AllocError>
    ensures of { IfOk result (λ d. IsDramOf geometry.now d) }
    ensures zeros { IfOk result (λ d. d ≡ fresh (dram_blocks geometry.now) geometry.now.dramq) }
{
    Dram::new(alloc, geometry.dram_blocks(), geometry.numbers().dramq)
}

/// A machine whose power comes on for the first time.
fn first_machine<M: Computer>(alloc: Global, geometry: &Geometry) -> Result<M, AllocError>
    ensures powered { IfOk result (λ m. M.kind.powered geometry.now m) }
    ensures dram { IfOk result (λ m. M.kind.dram m ≡ fresh (dram_blocks geometry.now) geometry.now.dramq) }
{
    let dram = first_dram(alloc, geometry)?;
    let machine = M::power_on(alloc, geometry, dram)?;
    Ok(machine)
}

/// The list of turns before the first cycle: with two harts it has room for the turns of an epoch.
fn first_turns(alloc: Global, geometry: &Geometry) -> Result<Bytes, AllocError>
    ensures empty { IfOk result (λ turns. bytes_of turns ≡ []) }
    ensures room { IfOk result (λ turns. HasTurnsRoom geometry.now (room_of turns)) }
{
    if geometry.harts() == 1 {
        return Ok(Bytes::new(alloc));
    }
    Bytes::with_room(alloc, geometry.numbers().epoch as usize)
}

/// A run before its first cycle.
pub(crate) fn started<M: Computer>(alloc: Global, plan: &Plan) -> Result<Progress<M>, AllocError>
    ensures { IfOk result (IsStarted M.kind plan.now) }
{
    let machine = first_machine::<M>(alloc, &plan.geometry)?;
    let turns = first_turns(alloc, &plan.geometry)?;
    Ok(Progress {
        machine,
        mix: Mix::new(plan.config.mix),
        events: Events::new(alloc),
        passed: 0,
        released: 0,
        fresh: false,
        turns,
        terminal_failed: false,
        report_failed: false,
    })
}

/// Runs the machine over a device that was fitted, until the program ends or the run stops. The observer, which has seen
/// nothing yet, sees each cycle that is done.
pub fn run<M: Computer, T: Sink, R: Sink, N: Nvm, O: Observer>(
    alloc: Global,
    plan: &Plan,
    terminal: &mut T,
    report: &mut R,
    nvm: &mut N,
    observer: &mut O,
) -> Ending
    requires planned { IsPlanned plan.now }
    requires fitted { IsFitted M.kind plan.now (N.device nvm.old) }
    requires unseen { O.has_seen observer.old [] }
    ensures ran { let before = sinks (T.stream terminal.old) (R.stream report.old) in
        let after = sinks (T.stream terminal.new) (R.stream report.new) in
        RunsTo M.kind plan.now (N.device nvm.old) (N.device nvm.new) result before after }
    ensures seen { let before = sinks (T.stream terminal.old) (R.stream report.old) in
        let after = sinks (T.stream terminal.new) (R.stream report.new) in
        let n = N.device nvm.old in
        RunsSeen M.kind O.has_seen plan.now n (N.device nvm.new) result before after observer.new }
{
    let Ok(mut progress) = started::<M>(alloc, plan) else {
        return Ending {
            stop: Stop::Memory,
            events: Events::new(alloc),
            cycles: 0,
            terminal_failed: false,
            report_failed: false,
        };
    };
    let mut done = 0;
    loop {
        let (now, pause) = run_quiet(&mut progress, plan, done, nvm, observer);
        let stepped = match pause {
            Pause::Limit => return ended_by(Stop::Limit, progress, now),
            Pause::Stuck => return ended_by(Stop::Nvm, progress, now),
            Pause::Steps(stepped) => stepped,
        };
        let first = progress.events.len();
        match report_cycle(
            alloc,
            &mut progress,
            plan,
            stepped,
            now,
            terminal,
            report,
            nvm,
            observer,
        ) {
            Outcome::Goes => {}
            Outcome::Cuts(bytes) => {
                match cut_power(
                    alloc, progress, bytes, plan, now, first, terminal, report, nvm, observer,
                ) {
                    Ok(next) => progress = next,
                    Err(ending) => return ending,
                }
            }
            Outcome::Stops(stop) => return ended_by(stop, progress, now + 1),
            Outcome::Breaks(stop) => return ended_by(stop, progress, now),
        }
        done = now + 1;
    }
}

/// The ending of a run that stops after this number of cycles.
pub(crate) fn ended_by<M: Computer>(stop: Stop, progress: Progress<M>, cycles: u64) -> Ending
    ensures { result ≡ ending_of stop progress cycles }
{
    Ending {
        stop,
        events: progress.events,
        cycles,
        terminal_failed: progress.terminal_failed,
        report_failed: progress.report_failed,
    }
}
