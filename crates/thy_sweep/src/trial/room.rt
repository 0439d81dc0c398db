//! Images that a cut can leave of a run's device, tried over the image of the device in memory on which it lies, one after another.
ghost use Rattle.std.specs.Prelude.{◌≡◌, ◌<◌, ◌&&◌, [], ◌∷◌, ◌++◌, IfOk, OnOk};
ghost use Rattle.thy_gap.specs.Seen.{seen_as};
ghost use Rattle.thy_nvm.specs.Calls.{is_listed};
ghost use Rattle.thy_nvm.specs.Pick.{picked};
ghost use Rattle.thy_sweep.specs.Choices.{chosen, count_of, places_of};
ghost use Rattle.thy_sweep.specs.Rooms.{CanTryOf, HasRoomFor, ListsPick, TriesNew, TriesOf};
ghost use Rattle.thy_computer.specs.Kind.{IsDramOf};

use crate::trial::part::{Part, Restored};
use crate::trial::tryable::Tryable;
use crate::{Booted, Choices};
use std::alloc::{AllocError, Global};
use thy_block::{Mix, Nvm, Shape};
use thy_computer::{Computer, CoreError};
use thy_dram::Dram;
use thy_nvm::{Overlay, Spare};
use thy_run::Plan;

/// The room in which images are tried, one after another.
#[derive(Drop)]
pub struct Room {
    /// The room for the copy of the device.
    pub spare: Spare,
    /// The DRAM for the machine that boots.
    pub dram: Dram,
}

/// What trying an image came to.
#[derive(Drop)]
pub struct Found {
    /// How the image's boot ended; None if it did not end within the cycles that it had.
    pub booted: Option<Booted>,
    /// What was read of the state that was restored, if one was.
    pub state: Option<Restored>,
}

/// What an image that was tried came to, and the room for the next one.
#[derive(Drop)]
pub struct Trial {
    pub found: Found,
    pub room: Room,
}

/// What an image that was tried came to, None if its number was listed; and the room for the next one.
#[derive(Drop)]
pub struct PickTrial {
    pub found: Option<Found>,
    pub room: Room,
}

impl Room {
    /// Room for the images that a cut can leave of a device of this shape, and for a machine of a plan. Fails if memory runs out.
    pub fn new(alloc: Global, plan: &Plan, shape: &Shape) -> Result<Room, AllocError>
        requires { 0 < shape.now.queue }
        ensures dram { IfOk result (λ room. IsDramOf plan.now.geometry room.dram) }
        ensures spare { IfOk result (λ room. room.spare ≡ shape.now) }
    {
        let geometry = &plan.geometry;
        let spare = Spare::new(alloc, shape)?;
        let dram = Dram::new(alloc, geometry.dram_blocks(), geometry.numbers().dramq)?;
        Ok(Room { spare, dram })
    }
}

/// Whether a number is listed.
fn lists(numbers: &[u128], number: u128) -> bool
    ensures { result ≡ is_listed number numbers.now }
{
    !numbers.is_empty() && numbers.contains(&number)
}

/// Whether an image is known by its number: only where blocks land whole has each image a number of its own.
fn is_known(whole: bool, numbers: &[u128], number: u128) -> bool
    ensures { result ≡ (whole && is_listed number numbers.now) }
{
    whole && lists(numbers, number)
}

/// Lists a number.
fn list(numbers: &mut Vec<u128>, number: u128) -> Result<(), CoreError>
    ensures { OnOk result (numbers.new.items ≡ numbers.old.items ++ number ∷ []) }
{
    match numbers.push(number) {
        Ok(()) => Ok(()),
        Err(error) => Err(CoreError::Memory(error.into())),
    }
}

/// Tries the image that a cut with this pick leaves of the device in memory on which a run's device lies, unless its number is listed;
/// then it is. The image is not copied. An image of torn blocks has no number, and is tried in any case.
///
/// # Errors
/// `Memory` if memory runs out.
pub fn try_pick<M: Computer, N: Tryable>(
    alloc: Global,
    plan: &Plan,
    room: Room,
    choices: &Choices,
    numbers: &mut Vec<u128>,
    pick: u64,
    part: Part,
    mix: Mix,
    most: u64,
    nvm: &N,
) -> Result<PickTrial, CoreError>
    requires room { HasRoomFor plan.now (N.memory nvm.now) room }
    requires can { CanTryOf M.kind plan.now (N.device nvm.now) mix most }
    requires choices { choices.now ≡ places_of (N.memory nvm.now) }
    ensures tried { let n = N.memory nvm.now in
        let image = seen_as N.levels (picked n.whole pick n.image n.queue) in
        TriesNew M.kind plan.now pick part (N.device nvm.now) image mix most result }
    ensures listed { let n = N.memory nvm.now in
        IfOk result (λ t. ListsPick pick n numbers.old.items numbers.new.items t.found) }
    ensures room { IfOk result (λ t. HasRoomFor plan.now (N.memory nvm.now) t.room) }
{
    let Room { spare, dram } = room;
    let below = nvm.below();
    let copy = Overlay::of(spare, below, pick);
    let number = choices.number_of(&copy);
    let known = is_known(below.lands_whole(), numbers.as_slice(), number);
    if known {
        let spare = copy.into_spare();
        return Ok(PickTrial {
            found: None,
            room: Room { spare, dram },
        });
    }
    list(numbers, number)?;
    match nvm.try_over::<M>(alloc, plan, copy, dram, pick, part, mix, most) {
        Ok(trial) => Ok(PickTrial {
            found: Some(trial.found),
            room: trial.room,
        }),
        Err(error) => Err(error),
    }
}

/// Tries the image of a number, of the `count` images that a cut can leave of the device in memory on which a run's device lies.
///
/// # Errors
/// `Memory` if memory runs out.
pub fn try_number<M: Computer, N: Tryable>(
    alloc: Global,
    plan: &Plan,
    room: Room,
    choices: &Choices,
    count: u64,
    number: u64,
    part: Part,
    mix: Mix,
    most: u64,
    nvm: &N,
) -> Result<Trial, CoreError>
    requires room { HasRoomFor plan.now (N.memory nvm.now) room }
    requires can { CanTryOf M.kind plan.now (N.device nvm.now) mix most }
    requires choices { choices.now ≡ places_of (N.memory nvm.now) }
    requires count { count ≡ count_of choices.now }
    requires number { number < count }
    ensures tried { let n = N.memory nvm.now in
        let image = seen_as N.levels (chosen (places_of n) number n.image) in
        TriesOf M.kind plan.now 0 part (N.device nvm.now) image mix most result }
    ensures room { IfOk result (λ t. HasRoomFor plan.now (N.memory nvm.now) t.room) }
{
    let Room { spare, dram } = room;
    let mut copy = Overlay::of(spare, nvm.below(), 0);
    choices.choose(count, number, &mut copy);
    nvm.try_over::<M>(alloc, plan, copy, dram, 0, part, mix, most)
}
