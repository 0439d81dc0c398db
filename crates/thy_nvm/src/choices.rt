//! What a cut leaves that is given its choices.
ghost use Rattle.std.specs.Prelude.{◌≡◌, ◌*◌, ◌<◌, ◌^◌, [], false, length, drop, Contains};
ghost use Rattle.thy_block.specs.Device.{possible, queued_for, IsMadeOf, Crash};
ghost use Rattle.thy_dram.specs.Held.{device_of};
ghost use Rattle.thy_nvm.specs.Chosen.{number_at, one_if_any, chosen_at, numbers_from, HasChosenWords, IsChosenAt, AreChosen};
ghost use Rattle.thy_nvm.specs.Pick.{landing};

use crate::pick::replace_word;
use std::marker::Model;
use thy_block::Block;
use thy_dram::Ring;

/// Which words cuts leave: of each place with queued writes, by rising number, eight numbers, one for each of its words. A
/// number chooses a block: 0 the image's, 1 the one that was queued first for the place, and so on, from 0 again after
/// the last. Each cut takes the next numbers. After the last one all are 0.
#[derive(Drop)]
pub struct Choices {
    numbers: Vec<u8>,
    taken: usize,
}

impl Model for Choices {
    ghost use Rattle.std.specs.Prelude.{ℕ, List, drop};

    ghost Value = { List ℕ };

    ghost view = { λ c. drop c.taken c.numbers.items };
}

impl Choices {
    /// Choices by these numbers.
    pub fn new(numbers: Vec<u8>) -> Choices
        ensures { result ≡ numbers.items }
    {
        Choices { numbers, taken: 0 }
    }

    /// The next number.
    fn next(&mut self) -> u64
        ensures number { result ≡ number_at self.old 0 }
        ensures taken { self.new ≡ drop 1 self.old }
    {
        if self.taken < self.numbers.len() {
            let number = self.numbers[self.taken];
            self.taken += 1;
            u64::from(number)
        } else {
            0
        }
    }
}

/// The block that is chosen next for a place with `count` queued writes: the image's, or one that is queued for it.
fn choose_block(ring: &Ring, at: u64, count: u64, choices: &mut Choices) -> Block
    requires place { at < length ring.now.image }
    requires count { count ≡ length (queued_for ring.now.queue at) }
    requires small { count < 2 ^ 63 }
    ensures block { result ≡ chosen_at ring.now at (number_at choices.old 0) }
    ensures taken { choices.new ≡ drop 1 choices.old }
    ensures one_of { Contains (possible (device_of ring.now) at) result }
{
    let index = choices.next() % (count + 1);
    ring.choice(at, index)
}

/// Makes a block for one place, which has this number of queued writes, of the words that are chosen next.
fn choose_words(ring: &Ring, at: u64, count: u64, choices: &mut Choices) -> Block
    requires place { at < length ring.now.image }
    requires count { count ≡ length (queued_for ring.now.queue at) }
    requires small { count < 2 ^ 63 }
    ensures words { HasChosenWords choices.old ring.now at result }
    ensures taken { choices.new ≡ drop 8 choices.old }
    ensures made { IsMadeOf (possible (device_of ring.now) at) result }
{
    let mut chosen = ring.choice(at, 0);
    for k in 0..8usize {
        let from = choose_block(ring, at, count, choices);
        chosen = replace_word(&chosen, k, &from);
    }
    chosen
}

/// Sets one place to what is chosen for it, if a write is queued for it.
fn choose_place(ring: &mut Ring, at: u64, choices: &mut Choices)
    requires { at < length ring.old.image }
    ensures ring { IsChosenAt choices.old ring.old ring.new at }
    ensures taken { choices.new ≡ drop (8 * one_if_any (queued_for ring.old.queue at)) choices.old }
{
    let count = ring.queued_at(at);
    if count > 0 {
        let chosen = choose_words(ring, at, count, choices);
        ring.put(at, &chosen);
    }
}

/// Sets each place with queued writes to what is chosen for it, by rising number. The queue stays.
fn choose_places(ring: &mut Ring, choices: &mut Choices)
    ensures words { AreChosen choices.old ring.old ring.new.image }
    ensures taken { choices.new ≡ numbers_from choices.old ring.old.queue (length ring.old.image) }
    ensures left { Crash (landing false ring.old) ring.new.image }
    ensures room { ring.new.room ≡ ring.old.room }
{
    for x in 0..ring.image().len() {
        choose_place(ring, x as u64, choices);
    }
}

/// Leaves the image that is chosen, with nothing queued.
pub(crate) fn leave_chosen(ring: &mut Ring, choices: &mut Choices)
    ensures words { AreChosen choices.old ring.old ring.new.image }
    ensures taken { choices.new ≡ numbers_from choices.old ring.old.queue (length ring.old.image) }
    ensures left { Crash (landing false ring.old) ring.new.image }
    ensures queue { ring.new.queue ≡ [] }
    ensures room { ring.new.room ≡ ring.old.room }
{
    choose_places(ring, choices);
    ring.clear_queue();
}
