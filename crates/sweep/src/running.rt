//! The run of a sweep, cycle by cycle, with what is tried after each.
ghost use Rattle.std.specs.Prelude.{◌≡◌, ◌<◌, ◌^◌, true, false, [], None, IfOk, OnOk, length};
ghost use Rattle.thy_execute.specs.Planning.{HasStayed};
ghost use Rattle.thy_run.specs.Going.{IsPlanned};
ghost use Rattle.thy_run.specs.Rounds.{IsFitted};
ghost use Rattle.thy_run.specs.Sending.{sinks};
ghost use Rattle.sweep.specs.Findings.{counted};
ghost use Rattle.sweep.specs.Kept.{KeepsRows, LooksTo, OpensRow};
ghost use Rattle.sweep.specs.Still.{IsLooked};
ghost use Rattle.sweep.specs.Sweeping.{CanLook, SweepsRun};
ghost use Rattle.thy_sweep.specs.Lying.{blocks_below, lying};
ghost use Rattle.thy_sweep.specs.Sums.{no_rows};
ghost use Rattle.thy_sweep.specs.Rooms.{HasRoomFor};

use crate::account::{Account, Last};
use crate::asked::Asked;
use crate::beside::Beside;
use crate::row::Row;
use crate::trying::try_cycle;
use std::alloc::{AllocError, Global};
use thy_base::{Nvm, Shape, Sink};
use thy_computer::{Computer, CoreError, Did};
use thy_isa::Status;
use thy_run::{Ending, Plan, Progress, SingleCycle, Stop, begin, end, single};
use thy_sweep::{OverMemory, Part, Room, Tryable};
use thy_text::{Event, Events};

/// What is known of a run in addition to its machine.
#[derive(Drop)]
pub struct Watch {
    pub account: Account,
    beside: Beside,
    /// How many instructions are retired.
    count: u64,
    /// How many events were followed.
    followed: usize,
}

/// How a sweep ended.
#[derive(Drop)]
pub enum Swept {
    /// The run stopped.
    Stopped(Ending),
    /// The last cycle that was asked for is done.
    Reached(u64),
    /// Memory ran out while an image was tried.
    Short,
}

/// How many instructions are retired once a cycle did this.
fn counted(count: u64, start: u64, did: Did) -> u64
    ensures { result ≡ counted count start did }
{
    match did {
        Did::Retired(_) => count.saturating_add(1),
        Did::Restarted(_, count) => count,
        Did::Loaded => start,
        _ => count,
    }
}

impl Watch {
    /// Before the first cycle of a plan's run, of whose states this is compared.
    pub fn new(alloc: Global, plan: &Plan, compared: Part) -> Result<Watch, AllocError>
        ensures compared { IfOk result (λ watch. watch.beside.compared ≡ compared) }
        ensures current { IfOk result (λ watch. watch.account.current ≡ None) }
        ensures unkept { IfOk result (λ watch. watch.account.kept.changed ≡ true) }
        ensures same { IfOk result (λ watch. watch.account.differs ≡ false) }
        ensures sums { IfOk result (λ watch. watch.account.sums ≡ no_rows) }
    {
        Ok(Watch {
            account: Account::new(alloc),
            beside: Beside::new(alloc, &plan.start, &plan.geometry, compared)?,
            count: 0,
            followed: 0,
        })
    }

    /// Follows the run past the events that are new.
    fn follow(&mut self, alloc: Global, events: &Events) -> Result<(), AllocError>
        ensures account { self.new.account ≡ self.old.account }
        ensures compared { self.new.beside.compared ≡ self.old.beside.compared }
    {
        for i in self.followed..events.len() {
            self.beside.follow(alloc, events.get(i))?;
        }
        self.followed = events.len();
        Ok(())
    }

    /// Follows the run past a cycle that did this.
    fn pass<N: OverMemory>(
        &mut self,
        alloc: Global,
        did: Did,
        start: u64,
        events: &Events,
        nvm: &N,
    ) -> Result<(), AllocError>
        requires { (N.device nvm.now).down ≡ false }
        ensures compared { self.new.beside.compared ≡ self.old.beside.compared }
        ensures looked { IsLooked self.old.account.kept self.new.account.kept (N.device nvm.now) }
        ensures differs { self.new.account.differs ≡ self.old.account.differs }
        ensures current { self.new.account.current ≡ self.old.account.current }
        ensures sums { self.new.account.sums ≡ self.old.account.sums }
    {
        self.count = counted(self.count, start, did);
        self.account.look(nvm);
        self.follow(alloc, events)
    }
}

/// Tries the images of a cycle that leaves others than the open row does, and opens a row.
fn try_row<M: Computer, N: Tryable>(
    alloc: Global,
    plan: &Plan,
    room: Room,
    asked: &Asked,
    progress: &Progress<M>,
    cycle: u64,
    watch: &mut Watch,
    nvm: &N,
) -> Result<Room, CoreError>
    requires can { CanLook M.kind plan.now progress.now (N.memory nvm.now) (N.device nvm.now) room }
    requires compared { watch.old.beside.compared ≡ asked.now.compared }
    ensures room { IfOk result (HasRoomFor plan.now (N.memory nvm.now)) }
    ensures compared { watch.new.beside.compared ≡ watch.old.beside.compared }
    ensures opens { let d = lying N.levels (N.memory nvm.now) (N.device nvm.now) in
        let mix = progress.now.mix in
        OnOk result (OpensRow M.kind plan.now d mix asked.now cycle watch.old.account watch.new.account) }
{
    nvm.recall_lying();
    let mut row = Row::new(alloc, cycle, watch.count, nvm.queued());
    let room = try_cycle::<M, N>(
        alloc,
        plan,
        room,
        asked,
        progress.mix,
        &watch.beside,
        &mut row,
        nvm,
    )?;
    match watch.account.open(alloc, row, nvm) {
        Ok(()) => Ok(room),
        Err(error) => Err(CoreError::Memory(error)),
    }
}

/// Looks at a run after a cycle, and tries the images that a cut can leave then, if that is asked for and the cycle is not one more
/// of the open row.
fn look<M: Computer, N: Tryable>(
    alloc: Global,
    plan: &Plan,
    room: Room,
    asked: &Asked,
    progress: &Progress<M>,
    did: Did,
    cycle: u64,
    watch: &mut Watch,
    nvm: &N,
) -> Result<Room, CoreError>
    requires can { CanLook M.kind plan.now progress.now (N.memory nvm.now) (N.device nvm.now) room }
    requires compared { watch.old.beside.compared ≡ asked.now.compared }
    ensures room { IfOk result (HasRoomFor plan.now (N.memory nvm.now)) }
    ensures compared { watch.new.beside.compared ≡ watch.old.beside.compared }
    ensures looks { let d = lying N.levels (N.memory nvm.now) (N.device nvm.now) in
        let mix = progress.now.mix in
        OnOk result (LooksTo M.kind plan.now d mix asked.now cycle watch.old.account watch.new.account) }
{
    let start = plan.start.state.count;
    if let Err(error) = watch.pass(alloc, did, start, &progress.events, nvm) {
        return Err(CoreError::Memory(error));
    }
    let count = watch.count;
    if !asked.has(cycle) {
        return Ok(room);
    }
    let more = watch.account.repeats(cycle, count);
    if more {
        return Ok(room);
    }
    try_row::<M, N>(alloc, plan, room, asked, progress, cycle, watch, nvm)
}

/// Makes the run of a plan over a device that was fitted for it, and tries after each cycle that is asked for the images that a cut
/// can leave then. The shape is of the device in memory.
pub fn sweep_run<M: Computer, T: Sink, R: Sink, N: Tryable>(
    alloc: Global,
    plan: &Plan,
    shape: &Shape,
    asked: &Asked,
    terminal: &mut T,
    report: &mut R,
    watch: &mut Watch,
    nvm: &mut N,
) -> Swept
    requires planned { IsPlanned plan.now }
    requires uncut { plan.now.config.cuts ≡ [] }
    requires fitted { IsFitted M.kind plan.now (N.device nvm.old) }
    requires sized { 0 < length (N.device nvm.old).image }
    requires blocks { shape.now.blocks ≡ blocks_below N.levels (length (N.device nvm.old).image) }
    requires queue { shape.now.queue ≡ (N.device nvm.old).queue_room }
    requires cuts { shape.now.cuts < 2 ^ 64 }
    requires some { 0 < shape.now.queue }
    requires closed { watch.old.account.current ≡ None }
    requires unkept { watch.old.account.kept.changed ≡ true }
    requires same { watch.old.account.differs ≡ false }
    requires fresh { watch.old.account.sums ≡ no_rows }
    requires compared { watch.old.beside.compared ≡ asked.now.compared }
    ensures rows { KeepsRows M.kind plan.now (N.device nvm.old) N.levels asked.now watch.new.account result }
    ensures run { let before = sinks (T.stream terminal.old) (R.stream report.old) in
        let after = sinks (T.stream terminal.new) (R.stream report.new) in
        SweepsRun M.kind plan.now (N.device nvm.old) (N.device nvm.new) asked.now before after result }
    ensures stays { HasStayed (N.device nvm.old) (N.device nvm.new) }
{
    let Ok(mut progress) = begin::<M>(alloc, plan) else {
        return Swept::Short;
    };
    let Ok(mut room) = Room::new(alloc, plan, shape) else {
        return Swept::Short;
    };
    let limit = plan.geometry.numbers().limit;
    for done in 0..limit {
        let stepped = match single(alloc, &mut progress, plan, done, terminal, report, nvm) {
            SingleCycle::Goes(stepped) => stepped,
            SingleCycle::Stops(stop) => return Swept::Stopped(end(stop, progress, done + 1)),
            SingleCycle::Breaks(stop) => return Swept::Stopped(end(stop, progress, done)),
        };
        let did = stepped.did;
        nvm.recall_lying();
        let Ok(next) = look::<M, N>(
            alloc,
            plan,
            room,
            asked,
            &progress,
            did,
            done + 1,
            watch,
            nvm,
        ) else {
            return Swept::Short;
        };
        room = next;
        if asked.ends_at(done + 1) {
            return Swept::Reached(done + 1);
        }
    }
    Swept::Stopped(end(Stop::Limit, progress, limit))
}

/// The last count among the events of a run that ended.
fn last_count(events: &Events) -> u64 {
    let many = events.len();
    if many == 0 {
        return 0;
    }
    match events.get(many - 1) {
        Event::Ended { count, .. } => *count,
        _ => 0,
    }
}

/// Why a sweep stopped, as its text says it.
pub fn last_of(swept: &Swept) -> Last {
    match swept {
        Swept::Short => Last::Memory,
        Swept::Reached(cycle) => Last::To(*cycle),
        Swept::Stopped(ending) => match ending.stop {
            Stop::Ended(Status::Exited(value)) => Last::Exited(value, last_count(&ending.events)),
            Stop::Ended(Status::Trapped(number)) => {
                Last::Trapped(number, last_count(&ending.events))
            }
            Stop::Ended(Status::Running) => Last::Limit(ending.cycles),
            Stop::Limit => Last::Limit(ending.cycles),
            Stop::Nvm => Last::Nvm,
            Stop::Terminal => Last::Terminal,
            Stop::Report => Last::Report,
            Stop::Memory => Last::Memory,
        },
    }
}
