//! The table.
ghost use Rattle.std.specs.Prelude.{ℕ, ◌≡◌, ◌≢◌, ◌<◌, ◌≤◌, ◌+◌, ◌^◌, ◌++◌, [], ◌∷◌, Some, None, true, length, replicate, slice_index_or, is_none, is_some, position, option_and_then, IfOk, IsSome, IfSome, ◌↔◌, if◌then◌else◌};
ghost use Rattle.thy_table.specs.Listing.{empty_table, entry_at, passes, lists, leads, IsLastOf, AreLiveBelow, index_of, free_index, free_count, with_entry, added, mapped, first_from, next_from, indexed_at, IsListing};

use crate::keyed::Keyed;
use crate::rules::{Rule, Test};
use std::alloc::{AllocError, Global};
use std::marker::Model;

/// How many numbers a group has, by which the index finds them.
const GROUP: usize = 16;

/// Entries by their places, some of them free. Each live one lists a number, and no two list the same.
/// Only `new` allocates.
#[derive(Drop)]
pub struct Table<E: Keyed> {
    entries: Vec<Option<E>>,
    /// The numbers below this one can be listed.
    numbers: u64,
    /// By group of `GROUP` numbers, the place of its leader: an entry that lists one of them, if any does.
    leaders: Vec<u32>,
    /// By place of a leader, for each number of its group that is listed, the place of the entry that lists it.
    places: Vec<[u32; GROUP]>,
    /// No entry below this place is free.
    lowest: usize,
    /// Every entry from this place on is free: what goes over the live ones ends here.
    live_end: usize,
    free: u64,
}

impl<E: Keyed> Model for Table<E> {
    ghost use Rattle.thy_table.specs.Listing.{Listing, listing, listing_code, IsSoundTable, AreLiveBelow};

    ghost Value = { Listing E };

    ghost coded = { listing_code E.code };

    ghost view = { λ t. listing t.entries.items t.numbers };

    ghost invariant = { λ t.
        (IsSoundTable E.key t.entries.items t.numbers t.leaders.items t.places.items t.lowest t.free)
        × (AreLiveBelow t.entries.items t.live_end) };
}

/// A list of this many copies of an element.
fn copies<X: Copy>(alloc: Global, x: X, len: usize) -> Result<Vec<X>, AllocError>
    ensures { IfOk result (λ v. v.items ≡ replicate len x) }
{
    let mut all = Vec::with_capacity(alloc, len)?;
    for _i in 0..len {
        all.push(x)?;
    }
    Ok(all)
}

/// The place that an index has for a number: the place of the entry which lists it, if one does.
fn indexed(leaders: &[u32], places: &[[u32; GROUP]], number: u64) -> usize
    ensures { result ≡ indexed_at leaders.now places.now number }
{
    let leader = match leaders.get((number / GROUP as u64) as usize) {
        Some(leader) => *leader,
        None => 0,
    };
    match places.get(leader as usize) {
        Some(group) => group[(number % GROUP as u64) as usize] as usize,
        None => 0,
    }
}

/// Whether the entry at a place lists a number.
fn lists<E: Keyed>(entries: &[Option<E>], place: usize, number: u64) -> bool
    ensures { result ≡ lists E.key number (slice_index_or entries.now place None) }
{
    match entries.get(place) {
        Some(Some(entry)) => entry.key() == number,
        _ => false,
    }
}

/// Whether the entry at a place lists a number of a group.
fn leads<E: Keyed>(entries: &[Option<E>], place: usize, group: u64) -> bool
    ensures { result ≡ leads E.key group (slice_index_or entries.now place None) }
{
    match entries.get(place) {
        Some(Some(entry)) => entry.key() / GROUP as u64 == group,
        _ => false,
    }
}

/// The leader of a group once one more entry lists a number of it, at a place: the old one, if there is one.
fn leader_with<E: Keyed>(entries: &[Option<E>], leader: usize, group: u64, place: usize) -> usize
    ensures { let old = slice_index_or entries.now leader None in
        result ≡ (if leads E.key group old then leader else place) }
{
    if leads(entries, leader, group) {
        leader
    } else {
        place
    }
}

/// The leader of a group once the entry at a place is cleared: the old one, or another that lists a number of the group; that
/// place, if none does.
fn leader_without<E: Keyed>(
    entries: &[Option<E>],
    places: &[u32; GROUP],
    leader: usize,
    group: u64,
    place: usize,
) -> usize
    requires leads { leads E.key group (slice_index_or entries.now leader None) ≡ true }
    requires few { group < 2 ^ 60 }
    ensures leads { leads E.key group (slice_index_or entries.now result None) ≡ true }
    ensures last { result ≡ place → IsLastOf E.key group entries.now places.now leader place }
{
    if leader != place {
        return leader;
    }
    for k in 0..GROUP {
        let other = places[k] as usize;
        if other != place && lists(entries, other, GROUP as u64 * group + k as u64) {
            return other;
        }
    }
    place
}

/// The first free entry from a place on.
fn free_from<E: Keyed>(entries: &[Option<E>], from: usize) -> Option<usize>
    ensures { result ≡ first_from is_none from entries.now }
{
    for i in from..entries.len() {
        if entries[i].is_none() {
            return Some(i);
        }
    }
    None
}

/// A place that no free entry lies below, after one more entry is taken.
fn raised(lowest: usize, taken: usize) -> usize
    requires { taken < 2 ^ 32 }
    ensures { (k : ℕ) → k < result → k ≢ taken → k < lowest }
{
    if lowest == taken { taken + 1 } else { lowest }
}

/// The end of the live entries once one more is taken, at a place.
fn raised_end(end: usize, taken: usize) -> usize
    requires { taken < 2 ^ 32 }
    ensures kept { end ≤ result }
    ensures over { taken < result }
    ensures least { (n : ℕ) → end ≤ n → taken < n → result ≤ n }
{
    if taken < end { end } else { taken + 1 }
}

/// The end of the live entries, from a place which none of them lies at or above.
fn lowered_end<E: Keyed>(entries: &[Option<E>], end: usize) -> usize
    requires { AreLiveBelow entries.now end }
    ensures live { AreLiveBelow entries.now result }
    ensures last { (k : ℕ) → result ≡ k + 1 → is_some (slice_index_or entries.now k None) ≡ true }
{
    for past in 0..end {
        let last = end - 1 - past;
        if entries[last].is_some() {
            return last + 1;
        }
    }
    0
}

impl<E: Keyed> Table<E> {
    /// A table of `size` free entries, at most `2^32`, that can list the numbers below `numbers`.
    pub fn new(alloc: Global, size: u64, numbers: u64) -> Result<Table<E>, AllocError>
        requires { size ≤ 2 ^ 32 }
        ensures { IfOk result (λ table. table ≡ empty_table size numbers) }
    {
        let entries = copies(alloc, None, size as usize)?;
        let leaders = copies(alloc, 0, (numbers / GROUP as u64 + 1) as usize)?;
        let places = copies(alloc, [0; GROUP], size as usize)?;
        Ok(Table {
            entries,
            numbers,
            leaders,
            places,
            lowest: 0,
            live_end: 0,
            free: size,
        })
    }

    /// How many entries the table has, free ones included.
    pub fn size(&self) -> usize
        ensures size { result ≡ length self.now.entries }
        ensures small { result ≤ 2 ^ 32 }
    {
        self.entries.len()
    }

    /// How many entries are free.
    pub fn free(&self) -> u64
        ensures { result ≡ free_count self.now }
    {
        self.free
    }

    /// A place that each live entry lies below: what goes over them can end there.
    pub fn live_end(&self) -> usize
        ensures free { (i : ℕ) → result ≤ i → entry_at self.now i ≡ None }
        ensures within { result ≤ length self.now.entries }
    {
        self.live_end
    }

    /// The index of the entry that lists a number, if one does.
    pub fn find(&self, number: u64) -> Option<usize>
        ensures place { result ≡ index_of E.key number self.now }
        ensures inside { IfSome result (λ i. i < length self.now.entries) }
        ensures lists { IfSome result (λ i. lists E.key number (entry_at self.now i) ≡ true) }
    {
        let place = indexed(&self.leaders, &self.places, number);
        if lists(&self.entries, place, number) {
            Some(place)
        } else {
            None
        }
    }

    /// The entry at a place, None if it is free.
    pub fn entry(&self, i: usize) -> Option<E>
        requires { i < length self.now.entries }
        ensures { result ≡ entry_at self.now i }
    {
        self.entries[i]
    }

    /// Adds an entry in the lowest free place, and returns that place. If none is free, returns None and changes
    /// nothing; otherwise it succeeds. Its number must not be listed.
    pub fn add(&mut self, entry: E) -> Option<usize>
        requires unlisted { index_of E.key (E.key entry) self.old ≡ None }
        requires number { E.key entry < self.old.numbers }
        ensures place { result ≡ free_index self.old }
        ensures room { IsSome result ↔ (0 < free_count self.old) }
        ensures table { self.new ≡ added entry self.old }
    {
        match self.lowest_free() {
            Some(place) => {
                // No place below it is free, and none up to it will be.
                self.lowest = place;
                self.put(place, entry);
                Some(place)
            }
            None => None,
        }
    }

    /// The lowest free place, which the next entry that is added takes.
    pub fn lowest_free(&self) -> Option<usize>
        ensures place { result ≡ free_index self.now }
        ensures room { IsSome result ↔ (0 < free_count self.now) }
    {
        if self.free == 0 {
            return None;
        }
        free_from(&self.entries, self.lowest)
    }

    /// Writes an entry into a free place. Its number must not be listed.
    pub fn put(&mut self, place: usize, entry: E)
        requires inside { place < length self.old.entries }
        requires free { entry_at self.old place ≡ None }
        requires unlisted { index_of E.key (E.key entry) self.old ≡ None }
        requires number { E.key entry < self.old.numbers }
        ensures { self.new ≡ with_entry place (Some entry) self.old }
    {
        let number = entry.key();
        let group = number / GROUP as u64;
        let leader = leader_with(
            &self.entries,
            self.leaders[group as usize] as usize,
            group,
            place,
        );
        self.leaders[group as usize] = leader as u32;
        self.entries[place] = Some(entry);
        self.places[leader][(number % GROUP as u64) as usize] = place as u32;
        self.lowest = raised(self.lowest, place);
        self.live_end = raised_end(self.live_end, place);
        self.free -= 1;
    }

    /// Replaces the entry at a place by one that lists the same number.
    pub fn set(&mut self, i: usize, entry: E)
        requires { lists E.key (E.key entry) (entry_at self.old i) ≡ true }
        ensures { self.new ≡ with_entry i (Some entry) self.old }
    {
        self.entries[i] = Some(entry);
    }

    /// Frees an entry.
    pub fn clear(&mut self, i: usize)
        requires { i < length self.old.entries }
        ensures { self.new ≡ with_entry i None self.old }
    {
        if let Some(entry) = self.entries[i] {
            let group = entry.key() / GROUP as u64;
            let leader = self.leaders[group as usize] as usize;
            let places = self.places[leader];
            let next = leader_without(&self.entries, &places, leader, group, i);
            self.places[next] = places;
            self.leaders[group as usize] = next as u32;
            self.entries[i] = None;
            self.lowest = self.lowest.min(i);
            self.live_end = lowered_end(&self.entries, self.live_end);
            self.free += 1;
        }
    }

    /// Applies a rule to every live entry; it clears those for which it gives None.
    pub fn map_entries<R: Rule<E>>(&mut self, rule: &R)
        ensures { self.new ≡ mapped (R.gives rule.now) self.old }
    {
        let end = self.live_end();
        for i in 0..end {
            self.map_entry(i, rule);
        }
    }

    /// Applies a rule to an entry, if that is live.
    fn map_entry<R: Rule<E>>(&mut self, i: usize, rule: &R)
        requires { i < length self.old.entries }
        ensures { self.new ≡ with_entry i (option_and_then (R.gives rule.now) (entry_at self.old i)) self.old }
    {
        if let Some(entry) = self.entry(i) {
            match rule.apply(&entry) {
                Some(next) => self.set(i, next),
                None => self.clear(i),
            }
        }
    }

    /// The first live entry from a place on that passes a test.
    pub fn next<T: Test<E>>(&self, from: usize, test: &T) -> Option<usize>
        ensures place { result ≡ next_from (T.holds test.now) from self.now }
        ensures inside { IfSome result (λ i. i < length self.now.entries) }
    {
        for i in from..self.live_end {
            if let Some(entry) = self.entries[i]
                && test.test(&entry)
            {
                return Some(i);
            }
        }
        None
    }

    /// Recalls that no number is listed twice, and none that the table cannot list. The call does nothing.
    pub fn recall_lists_once(&self)
        ensures { IsListing E.key self.now }
    {
        let _entries = &self.entries;
    }
}
