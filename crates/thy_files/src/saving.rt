//! Saving a run: one more cut of power after it, whose image goes to a shelf.
ghost use Rattle.std.specs.Prelude.{◌≡◌, ◌<◌, ◌++◌, length, IfOk, OnOk};
ghost use Rattle.thy_block.specs.Blocks.{block_bytes};
ghost use Rattle.thy_block.specs.Device.{block_at, IsCut};
ghost use Rattle.thy_block.specs.Flat.{flat};
ghost use Rattle.thy_text.specs.Seen.{event_of};
ghost use Rattle.thy_run.specs.Cuts.{is_cut, cuts_among};
ghost use Rattle.thy_outcome.specs.Saving.{image_left, saves, save_pick, IsPut};

use std::alloc::{AllocError, Global};
use thy_base::{BLOCK_SIZE, Config, Nvm, PutError, Shelf};
use thy_run::Stop;
use thy_text::{Event, Events};

/// Whether a run that stopped so is saved: its program has ended, its limit is reached, or its device failed.
pub fn is_saved(stop: Stop) -> bool
    ensures { result ≡ saves stop }
{
    match stop {
        Stop::Ended(_) | Stop::Limit | Stop::Nvm => true,
        Stop::Memory | Stop::Terminal | Stop::Report => false,
    }
}

/// The pick of a save's cut: the tear after the tears of the listed cuts, or 0 if none is given.
pub fn save_pick(config: &Config) -> u64
    ensures { result ≡ save_pick config.now }
{
    let place = config.cuts.len();
    if place < config.tears.len() {
        config.tears.get(place)
    } else {
        0
    }
}

/// Whether an event is a cut of power.
fn is_cut(event: &Event) -> bool
    ensures { result ≡ is_cut (event_of event.now) }
{
    matches!(event, Event::Cut { .. })
}

/// How many cuts of power the events report.
pub fn cuts_in(events: &Events) -> u64
    ensures { result ≡ length (cuts_among events.now) }
{
    let mut count = 0;
    for i in 0..events.len() {
        if is_cut(events.get(i)) {
            count += 1;
        }
    }
    count
}

/// Adds the bytes of the block at a place of the kept image `i`.
fn add_block<N: Nvm>(bytes: &mut Vec<u8>, nvm: &N, i: u64, at: u64) -> Result<(), AllocError>
    requires image { i < length (N.device nvm.now).left }
    requires place { at < length (N.device nvm.now).image }
    ensures { let block = block_at (image_left (N.device nvm.now) i) at in
        OnOk result (bytes.new.items ≡ bytes.old.items ++ block_bytes block) }
{
    let block = nvm.kept(i, at);
    bytes.extend_from_slice(block.bytes())?;
    Ok(())
}

/// The bytes of the kept image `i` of a device. Device and image have `blocks` blocks each.
fn image_bytes<N: Nvm>(alloc: Global, nvm: &N, i: u64, blocks: u64) -> Result<Vec<u8>, AllocError>
    requires image { i < length (N.device nvm.now).left }
    requires blocks { blocks ≡ length (N.device nvm.now).image }
    requires whole { blocks ≡ length (image_left (N.device nvm.now) i) }
    ensures { IfOk result (λ bytes. bytes.items ≡ flat (image_left (N.device nvm.now) i)) }
{
    let Some(size) = blocks.checked_mul(BLOCK_SIZE as u64) else {
        return Err(AllocError);
    };
    let mut bytes = Vec::with_capacity(alloc, size as usize)?;
    for at in 0..blocks {
        add_block(&mut bytes, nvm, i, at)?;
    }
    Ok(bytes)
}

/// Stores bytes under a name, or returns why they were not put there.
fn put_bytes<H: Shelf>(alloc: Global, name: &str, bytes: &[u8], shelf: &mut H) -> Option<PutError>
    ensures { IsPut name.now bytes.now (H.stock shelf.old) (H.stock shelf.new) result }
{
    match shelf.put(alloc, name, bytes) {
        Ok(()) => None,
        Err(error) => Some(error),
    }
}

/// Cuts the power once more after a run whose device has kept `kept` images and has `blocks` blocks, and stores the
/// bytes of what this cut left under a name.
///
/// The result is why they were not put there, if they were not.
pub fn save<H: Shelf, N: Nvm>(
    alloc: Global,
    name: &str,
    pick: u64,
    kept: u64,
    blocks: u64,
    nvm: &mut N,
    shelf: &mut H,
) -> Option<PutError>
    requires room { length (N.device nvm.old).left < (N.device nvm.old).left_room }
    requires kept { kept ≡ length (N.device nvm.old).left }
    requires blocks { blocks ≡ length (N.device nvm.old).image }
    ensures cut { IsCut pick (N.device nvm.old) (N.device nvm.new) }
    ensures put { let image = (N.device nvm.new).image in
        IsPut name.now (flat image) (H.stock shelf.old) (H.stock shelf.new) result }
{
    nvm.cut(pick);
    match image_bytes(alloc, nvm, kept, blocks) {
        Ok(bytes) => put_bytes(alloc, name, bytes.as_slice(), shelf),
        Err(error) => Some(PutError::Memory(error)),
    }
}
