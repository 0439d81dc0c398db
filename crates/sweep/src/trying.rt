//! The images of one cycle, tried one after another.
ghost use Rattle.std.specs.Prelude.{◌≡◌, ◌<◌, ◌-◌, ◌^◌, ◌&&◌, min, nat_le, nat_lt, true, false, [], ◌∷◌, ◌++◌, IfOk, IfSome, IfNone, OnOk};
ghost use Rattle.thy_block.specs.Counts.{next};
ghost use Rattle.thy_sweep.specs.Choices.{count_of, places_of};
ghost use Rattle.thy_sweep.specs.Images.{crash_images};
ghost use Rattle.thy_sweep.specs.Lying.{lying};
ghost use Rattle.thy_sweep.specs.Rooms.{CanTryOf, HasRoomFor};
ghost use Rattle.sweep.specs.Findings.{IsKnown, IsNamed, is_load};
ghost use Rattle.sweep.specs.Rows.{NotesNumber, NotesPick, TriesAsked, TriesImages, TriesPicks, noted_if, picks_of, wants};
ghost use Rattle.sweep.specs.Sweeping.{most_cycles};

use crate::asked::Asked;
use crate::beside::Beside;
use crate::row::{Name, Row};
use std::alloc::{AllocError, Global};
use thy_base::Mix;
use thy_computer::{Computer, CoreError};
use thy_run::Plan;
use thy_sweep::{
    Booted, Choices, Found, Part, PickTrial, Room, Trial, Tryable, note_boot, try_number, try_pick,
};

/// The most cycles of a boot, as of a run.
const MOST: u64 = 1_000_000_000_000;

/// Whether a boot loaded the start.
fn is_load(booted: Option<Booted>) -> bool
    ensures { result ≡ is_load booted }
{
    match booted {
        Some(booted) => booted.mark.is_none(),
        None => false,
    }
}

/// Whether what was found is a boot that loaded the start, or one that restored a state of the plain machine.
fn is_known(found: &Found, beside: &Beside) -> bool
    ensures { result ≡ true → IsKnown beside.now found.now }
{
    match &found.state {
        Some(state) => beside.has(state),
        None => is_load(found.booted),
    }
}

/// Adds a name.
fn add_name(names: &mut Vec<Name>, name: Name) -> Result<(), AllocError>
    ensures { OnOk result (names.new.items ≡ names.old.items ++ name ∷ []) }
{
    names.push(name)?;
    Ok(())
}

/// Notes the name of an image, unless what was found is known.
fn note_difference(
    found: &Found,
    name: Name,
    beside: &Beside,
    differs: &mut Vec<Name>,
) -> Result<(), AllocError>
    ensures { OnOk result (IsNamed beside.now found.now name differs.old.items differs.new.items) }
{
    let known = is_known(found, beside);
    if known {
        return Ok(());
    }
    add_name(differs, name)
}

/// Notes what trying an image of this name came to.
fn note(found: &Found, name: Name, beside: &Beside, row: &mut Row) -> Result<(), AllocError>
    ensures leads { OnOk result (row.new.leads.items ≡ noted_if found.now.booted row.old.leads.items) }
    ensures named { OnOk result (IsNamed beside.now found.now name row.old.differs.items row.new.differs.items) }
    ensures tried { row.new.tried ≡ next row.old.tried }
    ensures first { row.new.first ≡ row.old.first }
    ensures last { row.new.last ≡ row.old.last }
    ensures queued { row.new.queued ≡ row.old.queued }
    ensures images { row.new.images ≡ row.old.images }
{
    row.tried = row.tried.saturating_add(1);
    note_difference(found, name, beside, &mut row.differs)?;
    match found.booted {
        Some(booted) => note_boot(&mut row.leads, booted),
        None => Ok(()),
    }
}

/// Tries the image of a pick, unless it was tried in this cycle already, and notes it. Of a state that is restored this part is read.
fn note_pick<M: Computer, N: Tryable>(
    alloc: Global,
    plan: &Plan,
    room: Room,
    choices: &Choices,
    numbers: &mut Vec<u128>,
    pick: u64,
    part: Part,
    mix: &Mix,
    beside: &Beside,
    row: &mut Row,
    nvm: &N,
) -> Result<Room, CoreError>
    requires room { HasRoomFor plan.now (N.memory nvm.now) room }
    requires can { CanTryOf M.kind plan.now (N.device nvm.now) mix.now most_cycles }
    requires choices { choices.now ≡ places_of (N.memory nvm.now) }
    ensures room { IfOk result (HasRoomFor plan.now (N.memory nvm.now)) }
    ensures tried { let d = lying N.levels (N.memory nvm.now) (N.device nvm.now) in
        let before = numbers.old.items in
        let after = numbers.new.items in
        OnOk result (NotesPick M.kind part plan.now d mix.now pick before after row.old row.new) }
{
    let trial = try_pick::<M, N>(
        alloc, plan, room, choices, numbers, pick, part, *mix, MOST, nvm,
    )?;
    let PickTrial { found, room } = trial;
    match found {
        None => Ok(room),
        Some(found) => match note(&found, Name::Pick(pick), beside, row) {
            Ok(()) => Ok(room),
            Err(error) => Err(CoreError::Memory(error)),
        },
    }
}

/// Tries the images of picks, each once.
fn try_picks<M: Computer, N: Tryable>(
    alloc: Global,
    plan: &Plan,
    room: Room,
    choices: &Choices,
    asked: &Asked,
    mix: &Mix,
    beside: &Beside,
    row: &mut Row,
    nvm: &N,
) -> Result<Room, CoreError>
    requires room { HasRoomFor plan.now (N.memory nvm.now) room }
    requires can { CanTryOf M.kind plan.now (N.device nvm.now) mix.now most_cycles }
    requires choices { choices.now ≡ places_of (N.memory nvm.now) }
    ensures room { IfOk result (HasRoomFor plan.now (N.memory nvm.now)) }
    ensures tried { let d = lying N.levels (N.memory nvm.now) (N.device nvm.now) in
        let count = picks_of asked.now in
        OnOk result (TriesPicks M.kind plan.now d mix.now asked.now count row.old row.new) }
{
    let mut numbers = Vec::new(alloc);
    let mut room = room;
    for i in 0..asked.picks() {
        let pick = asked.pick(i);
        room = note_pick::<M, N>(
            alloc,
            plan,
            room,
            choices,
            &mut numbers,
            pick,
            asked.compared,
            mix,
            beside,
            row,
            nvm,
        )?;
    }
    Ok(room)
}

/// Tries the image of a number, of the `count` images that there are, and notes it, as `note_pick` does.
fn note_number<M: Computer, N: Tryable>(
    alloc: Global,
    plan: &Plan,
    room: Room,
    choices: &Choices,
    count: u64,
    number: u64,
    part: Part,
    mix: &Mix,
    beside: &Beside,
    row: &mut Row,
    nvm: &N,
) -> Result<Room, CoreError>
    requires room { HasRoomFor plan.now (N.memory nvm.now) room }
    requires can { CanTryOf M.kind plan.now (N.device nvm.now) mix.now most_cycles }
    requires choices { choices.now ≡ places_of (N.memory nvm.now) }
    requires count { count ≡ count_of choices.now }
    requires number { number < count }
    ensures room { IfOk result (HasRoomFor plan.now (N.memory nvm.now)) }
    ensures tried { let d = lying N.levels (N.memory nvm.now) (N.device nvm.now) in
        OnOk result (NotesNumber M.kind part plan.now d mix.now number row.old row.new) }
{
    let trial = try_number::<M, N>(
        alloc, plan, room, choices, count, number, part, *mix, MOST, nvm,
    )?;
    let Trial { found, room } = trial;
    match note(&found, Name::Number(number), beside, row) {
        Ok(()) => Ok(room),
        Err(error) => Err(CoreError::Memory(error)),
    }
}

/// Tries every image that there is.
fn try_all<M: Computer, N: Tryable>(
    alloc: Global,
    plan: &Plan,
    room: Room,
    choices: &Choices,
    count: u64,
    part: Part,
    mix: &Mix,
    beside: &Beside,
    row: &mut Row,
    nvm: &N,
) -> Result<Room, CoreError>
    requires room { HasRoomFor plan.now (N.memory nvm.now) room }
    requires can { CanTryOf M.kind plan.now (N.device nvm.now) mix.now most_cycles }
    requires choices { choices.now ≡ places_of (N.memory nvm.now) }
    requires count { count ≡ count_of choices.now }
    ensures room { IfOk result (HasRoomFor plan.now (N.memory nvm.now)) }
    ensures tried { let d = lying N.levels (N.memory nvm.now) (N.device nvm.now) in
        OnOk result (TriesImages M.kind part plan.now d mix.now (crash_images d.memory) row.old row.new) }
{
    let mut room = room;
    for number in 0..count {
        room = note_number::<M, N>(
            alloc, plan, room, choices, count, number, part, mix, beside, row, nvm,
        )?;
    }
    Ok(room)
}

/// Whether this many images are all to be tried: there are at most `all`, which is above 0.
fn is_wanted(all: u64, count: u128) -> bool
    ensures { result ≡ (nat_lt 0 all && nat_le count all) }
{
    0 < all && count <= all as u128
}

/// How many images there are, if all of them are to be tried.
fn count_for(choices: &Choices, all: u64) -> Option<u64>
    ensures count { IfSome result (λ count. count ≡ count_of choices.now) }
    ensures some { IfSome result (λ count. wants all choices.now ≡ true) }
    ensures none { IfNone result (wants all choices.now ≡ false) }
{
    let count = choices.count();
    let wanted = is_wanted(all, count);
    if !wanted {
        return None;
    }
    Some(count as u64)
}

/// Tries the images that are asked for, of those that a cut can leave now, and notes them in a row.
///
/// # Errors
/// `Memory` if memory runs out.
pub fn try_cycle<M: Computer, N: Tryable>(
    alloc: Global,
    plan: &Plan,
    room: Room,
    asked: &Asked,
    mix: Mix,
    beside: &Beside,
    row: &mut Row,
    nvm: &N,
) -> Result<Room, CoreError>
    requires room { HasRoomFor plan.now (N.memory nvm.now) room }
    requires can { CanTryOf M.kind plan.now (N.device nvm.now) mix most_cycles }
    ensures room { IfOk result (HasRoomFor plan.now (N.memory nvm.now)) }
    ensures images { OnOk result (row.new.images ≡ min (count_of (places_of (N.memory nvm.now))) (2 ^ 128 - 1)) }
    ensures tried { let d = lying N.levels (N.memory nvm.now) (N.device nvm.now) in
        let old = record row.old { images = row.new.images } in
        OnOk result (TriesAsked M.kind plan.now d mix asked.now old row.new) }
{
    let choices = match Choices::of(alloc, nvm.below()) {
        Ok(choices) => choices,
        Err(error) => return Err(CoreError::Memory(error)),
    };
    let images = choices.count();
    row.images = images;
    match count_for(&choices, asked.all) {
        Some(count) => {
            try_all::<M, N>(
                alloc,
                plan,
                room,
                &choices,
                count,
                asked.compared,
                &mix,
                beside,
                row,
                nvm,
            )
        }
        None => try_picks::<M, N>(alloc, plan, room, &choices, asked, &mix, beside, row, nvm),
    }
}
