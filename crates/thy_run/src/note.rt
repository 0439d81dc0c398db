//! The events of a step. Each is made in a function of its own, so that a cycle without one makes none.
ghost use Rattle.std.specs.Prelude.{◌≡◌, ◌≢◌, ◌++◌, ◌∷◌, [], true, is_some, if◌then◌else◌, OnOk, OnErr, IfOk};
ghost use Rattle.thy_block.specs.Bytes.{bytes_of};
ghost use Rattle.thy_computer.specs.Origin.{Origin};
ghost use Rattle.thy_computer.specs.declared.view.View.{View};
ghost use Rattle.thy_run.specs.World.{did_events};
ghost use Rattle.thy_isa.specs.Step.{state_of};
ghost use Rattle.thy_text.specs.Event.{Reload, Commit, Ended};
ghost use Rattle.thy_run.specs.Promises.{NotesRestart, NotesSeal, NotesDid, NotesEnd, AnswersEnd, NotesAll, NotesSome};

use std::alloc::{AllocError, Global};
use thy_base::{Bytes, EndCause};
use thy_computer::Did;
use thy_isa::{MachState, Status};
use thy_text::{Event, Events};

/// Adds the event that the program is loaded again. Fails if memory runs out.
fn note_load(events: &mut Events) -> Result<(), AllocError>
    ensures ok { OnOk result (events.new ≡ events.old ++ Reload ∷ []) }
    ensures err { OnErr result (events.new ≡ events.old) }
{
    events.push(Event::Reload)
}

/// Notes that the file is loaded again, if it is. If there is no such event, nothing fails.
fn note_reload(events: &mut Events, reload: bool) -> Result<(), AllocError>
    ensures ok { OnOk result (events.new ≡ events.old ++ (if reload then Reload ∷ [] else [])) }
    ensures err { OnErr result (events.new ≡ events.old) }
    ensures due { OnErr result (reload ≡ true) }
{
    if reload {
        return note_load(events);
    }
    Ok(())
}

/// Adds the event of a commit. Fails if memory runs out.
fn note_commit(
    events: &mut Events,
    epoch: u64,
    cycle: u64,
    overlapped: u64,
) -> Result<(), AllocError>
    ensures ok { OnOk result (events.new ≡ events.old ++ Commit epoch cycle overlapped ∷ []) }
    ensures err { OnErr result (events.new ≡ events.old) }
{
    events.push(Event::Commit {
        epoch,
        cycle,
        overlapped,
    })
}

/// Adds the event of an epoch's end, with the harts that retired its instructions. Fails if memory runs out.
fn note_seal(
    alloc: Global,
    events: &mut Events,
    epoch: u64,
    count: u64,
    cause: EndCause,
    turns: &Bytes,
) -> Result<(), AllocError>
    ensures ok { NotesSeal epoch count cause (bytes_of turns.now) events.old events.new result }
    ensures err { OnErr result (events.new ≡ events.old) }
{
    let turns = turns.duplicate(alloc)?;
    events.push(Event::EpochEnd {
        epoch,
        count,
        cause,
        turns,
    })
}

/// Adds the event of a restart, with the state that was restored. Fails if memory runs out.
fn note_restart(
    events: &mut Events,
    epoch: u64,
    count: u64,
    restored: Option<Box<MachState>>,
) -> Result<(), AllocError>
    ensures ok { NotesRestart epoch count restored events.old events.new result }
    ensures err { OnErr result (events.new ≡ events.old) }
{
    match restored {
        Some(state) => events.push(Event::Restart {
            epoch,
            count,
            state: Box::into_inner(state),
        }),
        None => Ok(()),
    }
}

/// Notes what a step did, if that is an event; an epoch's end has these turns. If there is no such event, nothing fails.
fn note_did(
    alloc: Global,
    events: &mut Events,
    did: Did,
    turns: &Bytes,
    restored: Option<Box<MachState>>,
    cycle: u64,
) -> Result<(), AllocError>
    ensures ok { NotesDid did (bytes_of turns.now) restored cycle events.old events.new result }
    ensures err { OnErr result (events.new ≡ events.old) }
    ensures due { (o : Origin) (v : View) → OnErr result (did_events o v did cycle ≢ []) }
{
    match did {
        Did::Loaded => note_commit(events, 0, cycle, 0),
        Did::Sealed(epoch, count, cause) => { note_seal(alloc, events, epoch, count, cause, turns) }
        Did::Committed { epoch, overlapped } => note_commit(events, epoch, cycle, overlapped),
        Did::Restarted(epoch, count) => note_restart(events, epoch, count, restored),
        _ => Ok(()),
    }
}

/// Adds the event of the run's end, and returns the program's status. Fails if memory runs out.
fn note_last(events: &mut Events, state: Box<MachState>, cycle: u64) -> Result<Status, AllocError>
    ensures ok { let s = state.value in
        OnOk result (events.new ≡ events.old ++ Ended s.status s.count cycle (state_of s) ∷ []) }
    ensures status { IfOk result (λ s. s ≡ state.value.status) }
    ensures err { OnErr result (events.new ≡ events.old) }
{
    let state = Box::into_inner(state);
    let status = state.status;
    let count = state.count;
    events.push(Event::Ended {
        status,
        count,
        cycle,
        state,
    })?;
    Ok(status)
}

/// If the run has ended, notes its end and returns the program's status. If it has not, nothing fails.
fn note_end(
    events: &mut Events,
    ended: Option<Box<MachState>>,
    cycle: u64,
) -> Result<Option<Status>, AllocError>
    ensures ok { NotesEnd ended cycle events.old events.new result }
    ensures status { AnswersEnd ended result }
    ensures err { OnErr result (events.new ≡ events.old) }
    ensures due { OnErr result (is_some ended ≡ true) }
{
    match ended {
        Some(state) => {
            let status = note_last(events, state, cycle)?;
            Ok(Some(status))
        }
        None => Ok(None),
    }
}

/// Makes the events of a step, an epoch's end with these turns, and returns the program's status if it has ended.
pub fn note(
    alloc: Global,
    events: &mut Events,
    did: Did,
    turns: &Bytes,
    reload: bool,
    restored: Option<Box<MachState>>,
    ended: Option<Box<MachState>>,
    cycle: u64,
) -> Result<Option<Status>, AllocError>
    ensures ok { NotesAll did (bytes_of turns.now) reload restored ended cycle events.old events.new result }
    ensures status { AnswersEnd ended result }
    ensures err { NotesSome did (bytes_of turns.now) reload restored ended cycle events.old events.new result }
{
    note_reload(events, reload)?;
    note_did(alloc, events, did, turns, restored, cycle)?;
    let status = note_end(events, ended, cycle)?;
    Ok(status)
}
