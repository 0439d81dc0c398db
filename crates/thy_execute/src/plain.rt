//! A program on the plain machine.
ghost use Rattle.std.specs.Prelude.{◌≡◌, [], None, length, IfOk, IfErr, OnOk, option_map};
ghost use Rattle.thy_block.specs.Bytes.{bytes_of};
ghost use Rattle.thy_base.specs.Config.{fault_of as range_fault};
ghost use Rattle.thy_block.specs.Device.{Device as DeviceValue};
ghost use Rattle.thy_block.specs.Geometry.{IsInRange, program_size};
ghost use Rattle.thy_block.specs.Outside.{HasNotFailed};
ghost use Rattle.thy_text.specs.Lines.{ended_lines};
ghost use Rattle.thy_base.specs.Settings.{Job as JobValue, job_of};
ghost use Rattle.thy_outcome.specs.Answering.{outside, plain_stop};
ghost use Rattle.thy_files.specs.Beginnings.{IsJobOf, IsPlannedFor, IsProgramOf};
ghost use Rattle.thy_outcome.specs.Sources.{ProgramDue, file};
ghost use Rattle.thy_outcome.specs.Watching.{PlainSeen};
ghost use Rattle.thy_run.specs.Sending.{Sent};

use std::alloc::Global;
use thy_base::{Config, Geometry, Job, Shelf, Sink};
use thy_files::{Program, fetch_both, program_of};
use thy_isa::{MachState, Status};
use thy_outcome::{Answer, ProgramSource, Refusal, refuse, stopped};
use thy_plain::Plain;
use thy_run::{Ending, Observer, Stop, write_bytes};
use thy_text::{Events, write_ended};

/// Writes how the program has ended, if it has, and returns whether the report failed.
fn write_end<R: Sink>(state: &MachState, digest: bool, report: &mut R) -> bool
    ensures { let s = state.now in
        let lines = ended_lines digest s.status s.count (bytes_of s.memory) in
        Sent result (R.stream report.old) (R.stream report.new) lines }
{
    write_ended(state, digest, report).is_err()
}

/// Why the plain machine stopped: for a sink that failed, else by its status.
fn plain_stop(terminal_failed: bool, report_failed: bool, status: Status) -> Stop
    ensures { result ≡ plain_stop terminal_failed report_failed status }
{
    if report_failed {
        return Stop::Report;
    }
    if terminal_failed {
        return Stop::Terminal;
    }
    match status {
        Status::Running => Stop::Limit,
        Status::Exited(_) | Status::Trapped(_) => Stop::Ended(status),
    }
}

/// Fetches a program file and its input, and reads the file.
fn plain_program<'a, H: Shelf>(
    alloc: Global,
    name: &'a str,
    input: Option<&'a str>,
    geometry: Geometry,
    shelf: &mut H,
) -> Result<Program, Refusal<'a>>
    requires { IsInRange geometry }
    ensures refusal { (job : JobValue) → IsPlannedFor job geometry (option_map (λ n. n.now) input.entry)
        → IfErr result (ProgramDue (file name.now) job (H.stock shelf.old) (H.stock shelf.new)) }
    ensures held { (H.stock shelf.new).held ≡ (H.stock shelf.old).held }
    ensures calm { OnOk result (HasNotFailed (H.stock shelf.old) (H.stock shelf.new)) }
    ensures program { (job : JobValue) → IsPlannedFor job geometry (option_map (λ n. n.now) input.entry)
        → IfOk result (λ p. IsProgramOf (file name.now) job (H.stock shelf.old) p) }
    ensures size { IfOk result (λ p. length (bytes_of p.image.memory) ≡ program_size p.geometry) }
{
    match fetch_both(alloc, ProgramSource::File(name), input, shelf) {
        Ok(fetched) => program_of(alloc, geometry, fetched),
        Err(refusal) => Err(refusal),
    }
}

/// Runs a program file on the plain machine, with what this job says.
fn run_plain<'a, H: Shelf, T: Sink, R: Sink, O: Observer>(
    alloc: Global,
    name: &'a str,
    input: Option<&'a str>,
    config: &Config,
    digest: bool,
    shelf: &mut H,
    terminal: &mut T,
    report: &mut R,
    observer: &mut O,
) -> Answer
    requires range { range_fault config.now ≡ None }
    requires unseen { O.has_seen observer.old [] }
    ensures { (n : DeviceValue) (job : JobValue) → IsJobOf job config.now (option_map (λ n. n.now) input.entry) digest →
        let before = outside (H.stock shelf.old) n (T.stream terminal.old) (R.stream report.old) in
        let after = outside (H.stock shelf.new) n (T.stream terminal.new) (R.stream report.new) in
        PlainSeen O.has_seen O.has_seen_last name.now job before after result observer.new }
{
    let geometry = Geometry::of(config);
    let Program {
        geometry,
        image,
        input,
    } = match plain_program(alloc, name, input, geometry, shelf) {
        Ok(program) => program,
        Err(refusal) => return refuse(alloc, refusal, report),
    };
    let limit = geometry.numbers().limit;
    match Plain::load(alloc, &image, &geometry, input) {
        Ok(mut machine) => {
            let cycles = machine.run(limit);
            let state = machine.into_state();
            observer.see_last(geometry.numbers().base, &state);
            let terminal_failed = write_bytes(state.console.as_slice(), terminal);
            let report_failed = write_end(&state, digest, report);
            let ending = Ending {
                stop: plain_stop(terminal_failed, report_failed, state.status),
                events: Events::new(alloc),
                cycles,
                terminal_failed,
                report_failed,
            };
            stopped(ProgramSource::File(name), None, ending, None, limit, report).answer(alloc)
        }
        Err(error) => refuse(alloc, Refusal::Memory(error), report),
    }
}

/// Runs a program file on the plain machine. The console of its last state goes to the terminal, and
/// how it has ended to the report; `cycles` is the number of its steps, and there are no events. The observer sees the
/// last state.
pub fn plain_file<H: Shelf, T: Sink, R: Sink, O: Observer>(
    alloc: Global,
    name: &str,
    job: Job,
    shelf: &mut H,
    terminal: &mut T,
    report: &mut R,
    observer: &mut O,
) -> Answer
    requires range { range_fault job.config ≡ None }
    requires unseen { O.has_seen observer.old [] }
    ensures { (n : DeviceValue) →
        let before = outside (H.stock shelf.old) n (T.stream terminal.old) (R.stream report.old) in
        let after = outside (H.stock shelf.new) n (T.stream terminal.new) (R.stream report.new) in
        PlainSeen O.has_seen O.has_seen_last name.now (job_of job) before after result observer.new }
{
    let Job {
        config,
        input,
        save: _,
        digest,
    } = job;
    let input = input.as_deref();
    run_plain(
        alloc, name, input, &config, digest, shelf, terminal, report, observer,
    )
}
