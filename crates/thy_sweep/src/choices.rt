//! Which blocks a power cut can leave of a device, and the images that they make, by number.
ghost use Rattle.std.specs.Prelude.{◌≡◌, ◌<◌, ◌+◌, ◌-◌, ◌*◌, ◌/◌, ◌^◌, min, length, map, IfOk, OnOk};
ghost use Rattle.thy_block.specs.Device.{block_at};
ghost use Rattle.thy_nvm.specs.Overlaid.{on_overlay, put_in};
ghost use Rattle.thy_sweep.specs.Images.{choices_at, is_same_block};
ghost use Rattle.thy_sweep.specs.Choices.{ArePlaces, NumberImages, chosen_on, count_of, index_of, listed, lists_block, number_of, place, place_in, places_of, with_write};

use std::alloc::{AllocError, Global};
use std::marker::Model;
use thy_block::{Block, Write};
use thy_nvm::{MemNvm, Overlay};

/// A place for which writes are queued, and the blocks that a cut can leave there, each once: first the one that has landed, then
/// the queued ones, oldest first.
#[derive(Drop)]
pub(crate) struct Choice {
    at: u64,
    blocks: Vec<Block>,
}

/// The places of a device for which writes are queued, by rising number, and what a cut can leave at each. An image that it can
/// leave has one of the blocks at each of them.
#[derive(Drop)]
pub struct Choices {
    places: Vec<Choice>,
}

impl Model for Choices {
    ghost use Rattle.std.specs.Prelude.{List, map};
    ghost use Rattle.thy_sweep.specs.Choices.{Place, place_in};

    ghost Value = { List Place };

    ghost view = { λ c. map place_in c.places.items };
}

/// Whether two blocks have the same bytes.
fn is_same_block(a: &Block, b: &Block) -> bool
    ensures { result ≡ is_same_block a.now b.now }
{
    a.0 == b.0
}

/// Whether a block is listed.
fn lists(blocks: &[Block], block: &Block) -> bool
    ensures { result ≡ lists_block blocks.now block.now }
{
    for i in 0..blocks.len() {
        if is_same_block(&blocks[i], block) {
            return true;
        }
    }
    false
}

/// Lists a block, unless it is listed already.
fn list(blocks: &mut Vec<Block>, block: Block) -> Result<(), AllocError>
    ensures { OnOk result (blocks.new.items ≡ listed blocks.old.items block) }
{
    if lists(blocks, &block) {
        return Ok(());
    }
    blocks.push(block)?;
    Ok(())
}

/// Lists the block of a write, if that is for this place.
fn list_write(blocks: &mut Vec<Block>, write: &Write, at: u64) -> Result<(), AllocError>
    ensures { OnOk result (blocks.new.items ≡ with_write at write.now blocks.old.items) }
{
    if write.at != at {
        return Ok(());
    }
    list(blocks, write.block)
}

/// The blocks that a cut can leave at a place, each once.
fn blocks_at(alloc: Global, nvm: &MemNvm, at: u64) -> Result<Vec<Block>, AllocError>
    requires { at < length nvm.now.device.image }
    ensures { let n = nvm.now.device in
        IfOk result (λ blocks. blocks.items ≡ choices_at at (block_at n.image at) n.queue) }
{
    let mut blocks = Vec::new(alloc);
    blocks.push(nvm.landed(at))?;
    for i in 0..nvm.waits() {
        let write = nvm.waiting(i);
        list_write(&mut blocks, &write, at)?;
    }
    Ok(blocks)
}

/// What a cut can leave at a place.
fn choice_at(alloc: Global, nvm: &MemNvm, at: u64) -> Result<Choice, AllocError>
    requires { at < length nvm.now.device.image }
    ensures { let n = nvm.now.device in
        IfOk result (λ choice. place_in choice ≡ place at (choices_at at (block_at n.image at) n.queue)) }
{
    let blocks = blocks_at(alloc, nvm, at)?;
    Ok(Choice { at, blocks })
}

/// How many images there are if one of the blocks of one more place is chosen, at most the last value of a `u128`.
fn count_with(count: u128, choice: &Choice) -> u128
    ensures { result ≡ min (count * length (place_in choice.now).blocks) (2 ^ 128 - 1) }
{
    count.saturating_mul(choice.blocks.len() as u128)
}

/// How many images these places give, at most the last value of a `u128`.
fn count_all(places: &[Choice]) -> u128
    ensures { result ≡ min (count_of (map place_in places.now)) (2 ^ 128 - 1) }
{
    let mut count: u128 = 1;
    for choice in places {
        count = count_with(count, choice);
    }
    count
}

/// How many images the places after this one give, if it and they give `count`.
fn count_after(count: u64, choice: &Choice) -> u64
    requires { 0 < length (place_in choice.now).blocks }
    ensures { result ≡ count / length (place_in choice.now).blocks }
{
    count / choice.blocks.len() as u64
}

/// Sets the block with this index at its place.
fn put_block(choice: &Choice, index: u64, overlay: &mut Overlay<'_>)
    requires index { index < length (place_in choice.now).blocks }
    requires place { (place_in choice.now).at < length overlay.old.device.image }
    ensures { let p = place_in choice.now in
        overlay.new ≡ on_overlay (put_in p.at (block_at p.blocks index)) overlay.old }
{
    let block = choice.blocks[index as usize];
    overlay.put(choice.at, &block);
}

/// Sets the blocks of the image of a number at these places, which give `count` images.
fn put_chosen(places: &[Choice], count: u64, number: u64, overlay: &mut Overlay<'_>)
    requires count { count ≡ count_of (map place_in places.now) }
    requires number { number < count }
    requires within { ArePlaces (length overlay.old.device.image) (map place_in places.now) }
    ensures image { overlay.new ≡ on_overlay (chosen_on (map place_in places.now) number) overlay.old }
    ensures size { length overlay.new.device.image ≡ length overlay.old.device.image }
{
    let mut rest = count;
    let mut index = number;
    for choice in places {
        let after = count_after(rest, choice);
        put_block(choice, index / after, overlay);
        index %= after;
        rest = after;
    }
}

/// The index of a block among others; their number if it is not one of them.
fn index_of(blocks: &[Block], block: &Block) -> usize
    ensures { result ≡ index_of blocks.now block.now }
{
    for i in 0..blocks.len() {
        if is_same_block(&blocks[i], block) {
            return i;
        }
    }
    blocks.len()
}

/// A number with one more digit: the index of the block that a copy has at this place. Stops at the last value of a `u128`.
fn number_with(number: u128, choice: &Choice, copy: &Overlay<'_>) -> u128
    requires { (place_in choice.now).at < length copy.now.device.image }
    ensures { let p = place_in choice.now in
        let index = index_of p.blocks (block_at copy.now.device.image p.at) in
        result ≡ min (min (number * length p.blocks) (2 ^ 128 - 1) + index) (2 ^ 128 - 1) }
{
    let index = index_of(&choice.blocks, &copy.landed(choice.at));
    let shifted = number.saturating_mul(choice.blocks.len() as u128);
    shifted.saturating_add(index as u128)
}

/// The number of the image that a copy holds, by these places, at most the last value of a `u128`.
fn number_in(places: &[Choice], copy: &Overlay<'_>) -> u128
    requires { ArePlaces (length copy.now.device.image) (map place_in places.now) }
    ensures { result ≡ min (number_of (map place_in places.now) copy.now.device.image) (2 ^ 128 - 1) }
{
    let mut number: u128 = 0;
    for choice in places {
        number = number_with(number, choice, copy);
    }
    number
}

impl Choices {
    /// What a cut can leave of a device, place by place. Fails if memory runs out.
    pub fn of(alloc: Global, nvm: &MemNvm) -> Result<Choices, AllocError>
        ensures { IfOk result (λ choices. choices ≡ places_of nvm.now.device) }
    {
        let mut places = Vec::new(alloc);
        let mut from = 0;
        'places: while let Some(at) = nvm.next_waiting(from) {
            let choice = choice_at(alloc, nvm, at)?;
            places.push(choice)?;
            from = at + 1;
        }
        Ok(Choices { places })
    }

    /// How many images the choices give. The number saturates at the last value of a `u128`.
    pub fn count(&self) -> u128
        ensures { result ≡ min (count_of self.now) (2 ^ 128 - 1) }
    {
        count_all(&self.places)
    }

    /// Sets the blocks of the image of a number at their places. There are `count` images.
    pub fn choose(&self, count: u64, number: u64, overlay: &mut Overlay<'_>)
        requires count { count ≡ count_of self.now }
        requires number { number < count }
        requires within { ArePlaces (length overlay.old.device.image) self.now }
        ensures image { overlay.new ≡ on_overlay (chosen_on self.now number) overlay.old }
        ensures size { length overlay.new.device.image ≡ length overlay.old.device.image }
    {
        put_chosen(&self.places, count, number, overlay);
    }

    /// The number of the image that a copy holds, which has one of the blocks of each place there. Stops at the last value of a
    /// `u128`.
    pub fn number_of(&self, copy: &Overlay<'_>) -> u128
        requires { ArePlaces (length copy.now.device.image) self.now }
        ensures { result ≡ min (number_of self.now copy.now.device.image) (2 ^ 128 - 1) }
    {
        number_in(&self.places, copy)
    }
}

/// By their numbers from 0 on, the images that the choices of a device give are those that are listed for it (`crash_images`): all of
/// them, no other, and each once, in the order in which they are listed.
pub fn the_images_of_a_cut_are_numbered()
    ensures { NumberImages }
{}
