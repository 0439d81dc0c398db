//! A comparison of a program's runs by each scheme.
ghost use Rattle.std.specs.Prelude.{◌≡◌, ◌++◌, ◌∷◌, [], None, OnOk, OnErr};
ghost use Rattle.thy_base.specs.Config.{fault_of as range_fault};
ghost use Rattle.thy_block.specs.Schemes.{scheme_number};
ghost use Rattle.thy_block.specs.declared.parameters.Parameters.{Parameters as Numbers};
ghost use Rattle.thy_run.specs.Cuts.{has_ended, is_end};
ghost use Rattle.thy_run.specs.Sending.{Sent};
ghost use Rattle.thy_text.specs.Event.{Scheme};
ghost use Rattle.thy_text.specs.Seen.{event_of};
ghost use Rattle.thy_base.specs.Settings.{job_of};
ghost use Rattle.thy_outcome.specs.Answering.{around, Closes, nvm_of, stop_line};
ghost use Rattle.thy_commands.specs.Compared.{Compares, RunsNext, events_of, plan_under, recorded_of};
ghost use Rattle.thy_outcome.specs.Comparing.{CompareAnswered, line_status, scheme_lines};
ghost use Rattle.thy_outcome.specs.Machines.{by_scheme};
ghost use Rattle.thy_execute.specs.Planning.{CanRun};
ghost use Rattle.thy_outcome.specs.Kept.{refused_line, refused_status};
ghost use Rattle.thy_files.specs.Restoring.{ReadsFiles};

use std::alloc::{AllocError, Global};
use thy_base::{Geometry, Job, Nvm, SchemeName, Shelf, Sink, SinkError};
use thy_computer::Computer;
use thy_execute::run_plan;
use thy_files::{Beginning, prepare};
use thy_outcome::{
    Answer, ProgramSource, Ran, Refusal, close, close_stop, refuse, report_of_refusal,
};
use thy_run::{Plan, Silent};
use thy_text::{Event, Events, History, write_scheme};

/// A sink that keeps nothing and never fails.
#[derive(Drop)]
struct Nowhere;

impl Sink for Nowhere {
    ghost use Rattle.thy_outcome.specs.Comparing.{nowhere};

    ghost stream = { λ w. nowhere };

    fn write(&mut self, _piece: &[u8]) -> Result<(), SinkError> {
        Ok(())
    }
}

/// What was compared so far.
#[derive(Drop)]
struct Compared {
    /// The events before the run that was begun last; the last of these is the event of its scheme.
    earlier: Events,
    /// The events of the run that was begun last. If another was to begin and did not, they are among the earlier ones,
    /// unless memory ran out for that.
    last: Events,
    /// The status of that run, or of the other one, which did not begin.
    status: u8,
    /// The cycles of that run.
    cycles: u64,
}

impl Compared {
    /// What is compared before the first run: nothing.
    fn nothing(alloc: Global) -> Compared
        ensures events { events_of result ≡ [] }
        ensures status { result.status ≡ 0 }
        ensures cycles { result.cycles ≡ 0 }
    {
        Compared {
            earlier: Events::new(alloc),
            last: Events::new(alloc),
            status: 0,
            cycles: 0,
        }
    }

    /// The result of the call.
    fn answer(self) -> Answer
        ensures status { result.status ≡ self.status }
        ensures events { result.events ≡ recorded_of self }
        ensures cycles { result.cycles ≡ self.cycles }
    {
        Answer {
            status: self.status,
            events: History::new(self.earlier, self.last),
            cycles: self.cycles,
        }
    }
}

/// Sets the scheme of a plan.
fn put_under(plan: &mut Plan, scheme: SchemeName)
    requires { range_fault plan.old.config ≡ None }
    ensures under { plan.new ≡ plan_under scheme plan.old }
    ensures range { range_fault plan.new.config ≡ None }
{
    plan.config.scheme = scheme;
    plan.geometry = Geometry::of(&plan.config);
}

/// Joins the events so far, and adds the event of a run which is about to begin. If memory runs out, they are all there
/// still.
fn make_room(earlier: &mut Events, last: &mut Events, scheme: SchemeName) -> Result<(), AllocError>
    ensures made { OnOk result (earlier.new
        ≡ (earlier.old ++ last.old) ++ Scheme (scheme_number scheme) ∷ []) }
    ensures emptied { OnOk result (last.new ≡ []) }
    ensures kept { OnErr result (earlier.new ++ last.new ≡ earlier.old ++ last.old) }
{
    earlier.append(last)?;
    earlier.push(Event::Scheme {
        number: scheme.number(),
    })
}

/// Whether an event is the end of a run.
fn is_end(event: &Event) -> bool
    ensures { result ≡ is_end (event_of event.now) }
{
    matches!(event, Event::Ended { .. })
}

/// Whether a run has ended, by its events.
fn has_ended(events: &Events) -> bool
    ensures { result ≡ has_ended events.now }
{
    let mut ended = false;
    for i in 0..events.len() {
        if is_end(events.get(i)) {
            ended = true;
        }
    }
    ended
}

/// Writes the line of a run by a scheme, if the run has ended, and returns whether the report failed.
fn write_sums<R: Sink>(scheme: SchemeName, events: &Events, writes: u64, report: &mut R) -> bool
    ensures { Sent result (R.stream report.old) (R.stream report.new)
        (scheme_lines scheme events.now writes) }
{
    if has_ended(events) {
        write_scheme(scheme, events, writes, report).is_err()
    } else {
        false
    }
}

/// Writes the line of a run by a scheme and its closing line, and returns whether the report failed.
fn write_run<R: Sink>(
    scheme: SchemeName,
    ran: &Ran,
    writes: u64,
    limit: u64,
    report: &mut R,
) -> bool
    ensures { Sent result (R.stream report.old) (R.stream report.new)
        (scheme_lines scheme ran.now.events writes ++ stop_line limit ran.now.stop) }
{
    if write_sums(scheme, &ran.events, writes, report) {
        return true;
    }
    close_stop(ran.stop, limit, report)
}

/// The status of a run: if it has ended and the report refused its line, the status of a report that failed.
fn line_status(ended: bool, failed: bool, status: u8) -> u8
    ensures { result ≡ line_status ended failed status }
{
    if ended && failed { 6 } else { status }
}

/// Ends a comparison with a run that was not begun.
fn end_before<R: Sink>(refusal: Refusal, so_far: Compared, report: &mut R) -> Compared
    ensures events { events_of result ≡ events_of so_far }
    ensures status { result.status ≡ refused_status refusal.entry }
    ensures cycles { result.cycles ≡ so_far.cycles }
    ensures closes { Closes (refused_line refusal.entry) (R.stream report.old) (R.stream report.new) }
{
    let (status, closing) = report_of_refusal(refusal);
    close(closing, report);
    Compared {
        earlier: so_far.earlier,
        last: so_far.last,
        status,
        cycles: so_far.cycles,
    }
}

/// Makes the next run of a comparison, by the scheme of this plan, over a device that is made for it. Its event is added
/// first, so that no memory is asked for once the device was fitted.
fn run_next<M: Computer, H: Shelf, U: Sink, R: Sink, N: Nvm>(
    alloc: Global,
    name: &str,
    plan: &Plan,
    so_far: Compared,
    shelf: &mut H,
    terminal: &mut U,
    report: &mut R,
    nvm: &mut N,
) -> Compared
    requires can { CanRun plan.now [] }
    requires reads { ReadsFiles M.kind plan.now.geometry }
    ensures { let d = nvm_of N.device in
        let old = around (H.stock shelf.old) nvm.old (U.stream terminal.old) (R.stream report.old) in
        let new = around (H.stock shelf.new) nvm.new (U.stream terminal.new) (R.stream report.new) in
        RunsNext M.kind d name.now plan.now old new so_far result }
{
    let mut so_far = so_far;
    let scheme = plan.config.scheme;
    if let Err(error) = make_room(&mut so_far.earlier, &mut so_far.last, scheme) {
        return end_before(Refusal::Memory(error), so_far, report);
    }
    match run_plan::<M, H, U, Nowhere, N, Silent>(
        alloc,
        ProgramSource::File(name),
        None,
        plan,
        Vec::new(alloc),
        shelf,
        terminal,
        &mut Nowhere,
        nvm,
        &mut Silent,
    ) {
        Ok(ran) => {
            let writes = nvm.writes();
            let limit = plan.geometry.numbers().limit;
            let failed = write_run(scheme, &ran, writes, limit, report);
            let ended = has_ended(&ran.events);
            Compared {
                earlier: so_far.earlier,
                last: ran.events,
                status: line_status(ended, failed, ran.status),
                cycles: ran.cycles,
            }
        }
        Err(error) => {
            so_far.earlier.pop();
            end_before(Refusal::Device(error), so_far, report)
        }
    }
}

/// Runs a plan by each scheme in turn: on the machine `A` by `SchemeName::Thynvm`, on `B` by `SchemeName::Journal`, on `C`
/// by `SchemeName::Shadow`. Only the first run writes to the terminal.
fn compare_plan<A: Computer, B: Computer, C: Computer, H: Shelf, T: Sink, R: Sink, N: Nvm>(
    alloc: Global,
    name: &str,
    plan: Plan,
    shelf: &mut H,
    terminal: &mut T,
    report: &mut R,
    nvm: &mut N,
) -> Answer
    requires range { range_fault plan.config ≡ None }
    requires thynvm { (p : Numbers) → p.scheme ≡ SchemeName.Thynvm → ReadsFiles A.kind p }
    requires journal { (p : Numbers) → p.scheme ≡ SchemeName.Journal → ReadsFiles B.kind p }
    requires shadow { (p : Numbers) → p.scheme ≡ SchemeName.Shadow → ReadsFiles C.kind p }
    requires can { (scheme : SchemeName) → CanRun (plan_under scheme plan) [] }
    ensures { let machines = by_scheme A.kind B.kind C.kind in
        let d = nvm_of N.device in
        let before = around (H.stock shelf.old) nvm.old (T.stream terminal.old) (R.stream report.old) in
        let after = around (H.stock shelf.new) nvm.new (T.stream terminal.new) (R.stream report.new) in
        Compares machines d name.now plan before after result }
{
    let mut plan = plan;
    put_under(&mut plan, SchemeName::Thynvm);
    let nothing = Compared::nothing(alloc);
    let first = run_next::<A, H, T, R, N>(
        alloc, name, &plan, nothing, shelf, terminal, report, nvm,
    );
    if first.status > 1 {
        return first.answer();
    }
    put_under(&mut plan, SchemeName::Journal);
    let second = run_next::<B, H, Nowhere, R, N>(
        alloc,
        name,
        &plan,
        first,
        shelf,
        &mut Nowhere,
        report,
        nvm,
    );
    if second.status > 1 {
        return second.answer();
    }
    put_under(&mut plan, SchemeName::Shadow);
    let third = run_next::<C, H, Nowhere, R, N>(
        alloc,
        name,
        &plan,
        second,
        shelf,
        &mut Nowhere,
        report,
        nvm,
    );
    third.answer()
}

/// Compares the runs of a program file by each scheme. File and input are fetched once. Each run is over a device that is
/// fitted again; the first whose status is neither 0 nor 1, or whose line the report refuses, is the last.
pub fn compare<A: Computer, B: Computer, C: Computer, H: Shelf, T: Sink, R: Sink, N: Nvm>(
    alloc: Global,
    name: &str,
    job: Job,
    shelf: &mut H,
    terminal: &mut T,
    report: &mut R,
    nvm: &mut N,
) -> Answer
    requires range { range_fault job.config ≡ None }
    requires thynvm { (p : Numbers) → p.scheme ≡ SchemeName.Thynvm → ReadsFiles A.kind p }
    requires journal { (p : Numbers) → p.scheme ≡ SchemeName.Journal → ReadsFiles B.kind p }
    requires shadow { (p : Numbers) → p.scheme ≡ SchemeName.Shadow → ReadsFiles C.kind p }
    ensures { let machines = by_scheme A.kind B.kind C.kind in
        let d = nvm_of N.device in
        let before = around (H.stock shelf.old) nvm.old (T.stream terminal.old) (R.stream report.old) in
        let after = around (H.stock shelf.new) nvm.new (T.stream terminal.new) (R.stream report.new) in
        CompareAnswered machines d name.now (job_of job) before after result }
{
    let Job {
        config,
        input,
        save: _,
        digest,
    } = job;
    let geometry = Geometry::of(&config);
    let Beginning { start, blocks: _ } = match prepare(
        alloc,
        ProgramSource::File(name),
        input.as_deref(),
        geometry,
        shelf,
    ) {
        Ok(beginning) => beginning,
        Err(refusal) => return refuse(alloc, refusal, report),
    };
    let plan = Plan {
        config,
        geometry,
        start,
        digest,
    };
    compare_plan::<A, B, C, H, T, R, N>(alloc, name, plan, shelf, terminal, report, nvm)
}
