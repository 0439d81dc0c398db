//! The cache.
ghost use Rattle.std.specs.Prelude.{◌≡◌, ◌≢◌, ◌<◌, ◌≤◌, ◌+◌, ◌↔◌, Ok, Some, true, false, if◌then◌else◌, length, position, is_some, IfOk, IfSome, IfNone, OnOk, OnErr};
ghost use Rattle.thy_block.specs.Device.{block_at, CountsOneFault};
ghost use Rattle.thy_block.specs.Store.{IsKeptByLoad};
ghost use Rattle.thy_cache.specs.Ways.{is_dirty, line_at, victim_way, has_dirty};
ghost use Rattle.thy_cache.specs.Contents.{Contents, empty_cache, set_at, set_of, index_of, victim_line_of, is_dirty_victim, cleaned_at, filled_with, evicted_for, stored_at, dirty_set, dirty_way, dirty_line, HasNoneDirty, IsSized, KeepsSize, KeepsOpen, flushed_from, HasFlushed, CountsFlushed, StoresLine, StoresBy, FlushesBy, CountsStored, line_of, location_of, peeked, hits, victim_of, dirty_count, read_from, written_at};
ghost use Rattle.thy_cache.specs.Flat.{flat, Agrees, PeeksSame, HitsSame, ReadsAs, AgreesWithAll, ReadsAsStore, KeepsLines, IsWritten};

use crate::line::{Flushed, Line, LineLocation, Victim};
use crate::modulus::Modulus;
use crate::ways::{WaySet, empty_sets};
use std::alloc::{AllocError, Global};
use std::marker::Model;
use thy_block::{Block, BlockStore, NvmError, Stored};

/// A write-back cache over a store of blocks. Block `b` belongs to set `b` modulo the number of sets.
/// Only `new` allocates.
#[derive(Drop)]
pub struct Cache {
    sets: Vec<WaySet>,
    dirty: u64,
    /// The number of sets.
    modulus: Modulus,
}

impl Model for Cache {
    ghost use Rattle.thy_cache.specs.Contents.{Contents, IsSoundCache};

    ghost Value = { Contents };

    ghost view = { λ c. record { sets = c.sets.items } };

    ghost invariant = { λ c. IsSoundCache c.sets.items c.dirty c.modulus };
}

impl Cache {
    /// A cache without lines, of `sets` sets with `ways` ways each.
    pub fn new(alloc: Global, sets: u64, ways: u64) -> Result<Cache, AllocError>
        requires sets { 0 < sets }
        requires ways { 0 < ways }
        ensures cache { IfOk result (λ cache. cache ≡ empty_cache sets ways) }
        ensures dirty { IfOk result (λ cache. dirty_count cache ≡ 0) }
        ensures sized { IfOk result (λ cache. IsSized sets ways cache) }

        // It agrees with every store, and reads as that store.
        ensures agree { IfOk result (λ cache. AgreesWithAll cache) }
        ensures flat { IfOk result (λ cache. ReadsAsStore cache) }
    {
        // More ways than a number can count do not fit into memory.
        if sets.checked_mul(ways).is_none() {
            return Err(AllocError);
        }
        let modulus = Modulus::new(sets);
        let sets = empty_sets(alloc, sets, ways as usize)?;
        Ok(Cache {
            sets,
            dirty: 0,
            modulus,
        })
    }

    /// The number of the set of block `b`.
    #[inline(always)]
    fn index_of(&self, b: u64) -> usize
        ensures index { result ≡ index_of self.now b }
        ensures inside { result < length self.now.sets }
    {
        self.modulus.rest(b) as usize
    }

    /// The line of block `b`.
    fn line_of(&self, b: u64) -> Option<Line>
        ensures { result ≡ line_of self.now b }
    {
        let set = self.index_of(b);
        self.sets[set].line_of(b)
    }

    /// The location of the line of block `b`, if the cache has one.
    #[inline(always)]
    pub fn find(&self, b: u64) -> Option<LineLocation>
        ensures location { result ≡ location_of self.now b }
        ensures hit { is_some result ≡ hits self.now b }
    {
        let set = self.index_of(b);
        match self.sets[set].way_of(b) {
            Some(way) => Some(LineLocation { set, way }),
            None => None,
        }
    }

    /// The location of the line of block `b`, if no other line of its set was used after it, as is mostly so: a caller for whom the
    /// rest is rare asks for this first.
    #[inline(always)]
    pub fn latest(&self, b: u64) -> Option<LineLocation>
        ensures location { IfSome result (λ location. location_of self.now b ≡ Some location) }
        ensures hit { IfSome result (λ location. hits self.now b ≡ true) }
    {
        let set = self.index_of(b);
        match self.sets[set].latest_of(b) {
            Some(way) => Some(LineLocation { set, way }),
            None => None,
        }
    }

    /// What the line of block `b` holds, if there is one. It does not count as a use.
    pub fn peek(&self, b: u64) -> Option<Block>
        ensures block { result ≡ peeked self.now b }
        ensures hit { is_some result ≡ hits self.now b }
    {
        match self.line_of(b) {
            Some(line) => Some(line.block),
            None => None,
        }
    }

    /// How many lines of the cache are dirty.
    pub fn dirty(&self) -> u64
        ensures { result ≡ dirty_count self.now }
    {
        self.dirty
    }

    /// What has to happen before block `b` can be filled in: nothing if no line is dirty.
    pub fn victim(&self, b: u64) -> Victim
        ensures victim { result ≡ victim_of self.now b }
        ensures clean { dirty_count self.now ≡ 0 → result ≡ Victim.Room }
    {
        let set = self.index_of(b);
        let ways = &self.sets[set];
        match ways.line(ways.victim()) {
            Some(line) if line.dirty => Victim::Dirty(line.at),
            _ => Victim::Room,
        }
    }

    /// Notes that the line of block `b`, which is at this location, was used.
    #[inline(always)]
    fn use_line(&mut self, b: u64, location: LineLocation)
        requires { location_of self.old b ≡ Some location }
        ensures cache { self.new ≡ read_from b self.old }
        ensures inside { index_of self.old b < length self.old.sets }
    {
        self.sets[location.set].touch(location.way);
    }

    /// The line of block `b`, which is at this location, where it stands.
    #[inline(always)]
    fn line_in(&self, b: u64, location: LineLocation) -> &Line
        requires { location_of self.now b ≡ Some location }
        ensures { line_of self.now b ≡ Some result.now }
    {
        match self.sets[location.set].line_ref(location.way) {
            Some(line) => line,
            None => unreachable!(),
        }
    }

    /// Block `b`, whose line is at this location, where it stands. It does not count as a use: `touch` makes it one.
    #[inline(always)]
    pub fn block_in(&self, b: u64, location: LineLocation) -> &Block
        requires { location_of self.now b ≡ Some location }
        ensures block { peeked self.now b ≡ Some result.now }
        ensures reads { ReadsAs self.now b result.now }
    {
        let line = self.line_in(b, location);
        &line.block
    }

    /// Uses block `b`, whose line is at this location. It is now the most recently used of its set.
    #[inline(always)]
    pub fn touch(&mut self, b: u64, location: LineLocation)
        requires { location_of self.old b ≡ Some location }
        ensures cache { self.new ≡ read_from b self.old }
        ensures lines { KeepsLines self.old self.new }
    {
        self.use_line(b, location);
    }

    /// Block `b`, whose line is at this location. It is now the most recently used of its set.
    pub fn read_at(&mut self, b: u64, location: LineLocation) -> Block
        requires { location_of self.old b ≡ Some location }
        ensures block { peeked self.old b ≡ Some result }
        ensures reads { ReadsAs self.old b result }
        ensures cache { self.new ≡ read_from b self.old }
        ensures lines { KeepsLines self.old self.new }
    {
        let block = self.line_in(b, location).block;
        self.use_line(b, location);
        block
    }

    /// Writes bytes over block `b`, whose line is at this location, from byte `at` on. It is dirty then, and
    /// the most recently used of its set.
    #[inline(always)]
    pub fn write_at(&mut self, b: u64, location: LineLocation, at: u64, bytes: &[u8])
        requires location { location_of self.old b ≡ Some location }
        requires within { at + length bytes.now ≤ 64 }
        ensures cache { self.new ≡ written_at b at bytes.now self.old }
        ensures lines { IsWritten b at bytes.now self.old self.new }
    {
        self.write_line(b, location, at as usize, bytes);
    }

    /// Writes bytes over the line of block `b`, which is at this location, from byte `at` on. The use of its way, which may be a call,
    /// comes last.
    #[inline(always)]
    fn write_line(&mut self, b: u64, location: LineLocation, at: usize, bytes: &[u8])
        requires location { location_of self.old b ≡ Some location }
        requires within { at + length bytes.now ≤ 64 }
        ensures cache { self.new ≡ written_at b at bytes.now self.old }
        ensures inside { index_of self.old b < length self.old.sets }
    {
        let was_dirty = self.line_in(b, location).dirty;
        if !was_dirty {
            self.dirty += 1;
        }
        self.sets[location.set].write(location.way, at, bytes);
    }

    /// Loads block `b`, which does not hit, into the way of its victim, as a clean line.
    fn location(&mut self, b: u64, block: &Block)
        requires room { is_dirty (victim_line_of self.old b) ≡ false }
        requires miss { hits self.old b ≡ false }
        ensures cache { self.new ≡ filled_with b block.now self.old }
        ensures inside { index_of self.old b < length self.old.sets }
        ensures way { victim_way (set_of self.old b) < length (set_of self.old b).lines }
    {
        let set = self.index_of(b);
        let _way = self.sets[set].victim();
        self.sets[set].fill(b, block);
    }

    /// Loads block `b`, which does not hit, into its set, which has room for it. If the store fails, nothing has
    /// changed here.
    pub fn fill<N, S: BlockStore<N>>(
        &mut self,
        b: u64,
        store: &mut S,
        nvm: &mut N,
    ) -> Result<(), NvmError>
        requires inside { b < length (S.holding store.old nvm.old).blocks }
        requires miss { hits self.old b ≡ false }
        requires room { victim_of self.old b ≡ Victim.Room }
        requires agree { Agrees self.old (S.holding store.old nvm.old).blocks }
        ensures cache { OnOk result (self.new ≡ filled_with b (block_at (S.holding store.old nvm.old).blocks b) self.old) }
        ensures same { OnOk result (S.holding store.new nvm.new ≡ S.holding store.old nvm.old) }
        ensures err { OnErr result (self.new ≡ self.old) }

        // The flat list is as before, and the block hits now.
        ensures hit { OnOk result (hits self.new b ≡ true) }
        ensures flat { OnOk result
            (flat self.new (S.holding store.new nvm.new).blocks ≡ flat self.old (S.holding store.old nvm.old).blocks) }
        ensures agree { OnOk result (Agrees self.new (S.holding store.new nvm.new).blocks) }
        ensures dirty { dirty_count self.new ≡ dirty_count self.old }
        ensures sized { KeepsSize self.old self.new }

        // The store makes one load.
        ensures once { S.once store.old nvm.old store.new nvm.new }
        ensures loads { S.loads store.old nvm.old store.new nvm.new }
        ensures kept { IsKeptByLoad (S.holding store.old nvm.old) (S.holding store.new nvm.new) }
        ensures stays { S.stays store.old nvm.old store.new nvm.new }
        ensures cause { CountsOneFault result (S.holding store.old nvm.old).faults (S.holding store.new nvm.new).faults }
    {
        let block = store.load(b, nvm)?;
        self.location(b, &block);
        Ok(())
    }

    /// The line in a way of a set, where it stands.
    fn line_at(&self, set: usize, way: usize) -> &Line
        requires set { set < length self.now.sets }
        requires dirty { is_dirty (line_at (set_at self.now set) way) ≡ true }
        ensures { line_at (set_at self.now set) way ≡ Some result.now }
    {
        let ways = &self.sets[set];
        match ways.line_ref(way) {
            Some(line) => line,
            None => unreachable!(),
        }
    }

    /// Notes that the store has the dirty line in a way of a set.
    fn clean(&mut self, set: usize, way: usize)
        requires set { set < length self.old.sets }
        requires dirty { is_dirty (line_at (set_at self.old set) way) ≡ true }
        ensures { self.new ≡ cleaned_at set way self.old }
    {
        self.sets[set].clean(way);
        self.dirty -= 1;
    }

    /// Stores the dirty line in a way of a set, or makes the copy that has to come first.
    fn store_line<N, S: BlockStore<N>>(
        &mut self,
        set: usize,
        way: usize,
        store: &mut S,
        nvm: &mut N,
    ) -> Result<Stored, NvmError>
        requires set { set < length self.old.sets }
        requires dirty { is_dirty (line_at (set_at self.old set) way) ≡ true }
        requires agree { Agrees self.old (S.holding store.old nvm.old).blocks }
        requires ready { (S.holding store.old nvm.old).ready ≡ true }
        requires room { dirty_count self.old ≤ (S.holding store.old nvm.old).free }
        ensures cache { IfOk result (λ stored. self.new ≡ stored_at stored set way self.old) }
        ensures store { IfOk result (λ stored.
            StoresLine stored (line_at (set_at self.old set) way) (S.holding store.old nvm.old) (S.holding store.new nvm.new)) }
        ensures made { IfOk result (λ stored.
            StoresBy S.stores stored (line_at (set_at self.old set) way) store.old nvm.old store.new nvm.new) }
        ensures err { OnErr result (self.new ≡ self.old) }

        ensures peeks { PeeksSame self.old self.new }
        ensures hits { HitsSame self.old self.new }
        ensures flat { OnOk result
            (flat self.new (S.holding store.new nvm.new).blocks ≡ flat self.old (S.holding store.old nvm.old).blocks) }
        ensures agree { OnOk result (Agrees self.new (S.holding store.new nvm.new).blocks) }
        ensures dirty { IfOk result (λ stored. CountsStored stored (dirty_count self.old) (dirty_count self.new)) }
        ensures sized { KeepsSize self.old self.new }

        // The store makes one store.
        ensures once { S.once store.old nvm.old store.new nvm.new }
        ensures stays { S.stays store.old nvm.old store.new nvm.new }
        ensures cause { CountsOneFault result (S.holding store.old nvm.old).faults (S.holding store.new nvm.new).faults }
    {
        let line = self.line_at(set, way);
        match store.store(line.at, &line.block, nvm)? {
            Stored::Done => {
                self.clean(set, way);
                Ok(Stored::Done)
            }
            Stored::CopyFirst => Ok(Stored::CopyFirst),
        }
    }

    /// Stores the dirty line that is in the way of block `b`, or makes the copy that has to come first. If the line
    /// was stored, it is clean afterwards and stays.
    pub fn evict<N, S: BlockStore<N>>(
        &mut self,
        b: u64,
        store: &mut S,
        nvm: &mut N,
    ) -> Result<Stored, NvmError>
        requires dirty { is_dirty_victim (victim_of self.old b) ≡ true }
        requires agree { Agrees self.old (S.holding store.old nvm.old).blocks }
        requires ready { (S.holding store.old nvm.old).ready ≡ true }
        requires room { dirty_count self.old ≤ (S.holding store.old nvm.old).free }
        ensures cache { IfOk result (λ stored. self.new ≡ evicted_for stored b self.old) }
        ensures store { IfOk result (λ stored.
            StoresLine stored (victim_line_of self.old b) (S.holding store.old nvm.old) (S.holding store.new nvm.new)) }
        ensures made { IfOk result (λ stored.
            StoresBy S.stores stored (victim_line_of self.old b) store.old nvm.old store.new nvm.new) }
        ensures err { OnErr result (self.new ≡ self.old) }
        ensures room { result ≡ Ok Stored.Done → victim_of self.new b ≡ Victim.Room }

        // What the lines hold stays, and the flat list is as before.
        ensures peeks { PeeksSame self.old self.new }
        ensures hits { HitsSame self.old self.new }
        ensures flat { OnOk result
            (flat self.new (S.holding store.new nvm.new).blocks ≡ flat self.old (S.holding store.old nvm.old).blocks) }
        ensures agree { OnOk result (Agrees self.new (S.holding store.new nvm.new).blocks) }
        ensures dirty { IfOk result (λ stored. CountsStored stored (dirty_count self.old) (dirty_count self.new)) }
        ensures sized { KeepsSize self.old self.new }

        // The store makes one store.
        ensures once { S.once store.old nvm.old store.new nvm.new }
        ensures stays { S.stays store.old nvm.old store.new nvm.new }
        ensures cause { CountsOneFault result (S.holding store.old nvm.old).faults (S.holding store.new nvm.new).faults }
    {
        let (set, way) = self.victim_location(b);
        self.store_line(set, way, store, nvm)
    }

    /// The set of block `b`, and the way in it for the next line.
    fn victim_location(&self, b: u64) -> (usize, usize)
        ensures set { result.0 ≡ index_of self.now b }
        ensures inside { result.0 < length self.now.sets }
        ensures way { result.1 ≡ victim_way (set_of self.now b) }
    {
        let set = self.index_of(b);
        (set, self.sets[set].victim())
    }

    /// Stores the first dirty line by set, then way, or makes the copy that has to come first, or reports
    /// that no line is dirty. No line is evicted.
    pub fn flush_one<N, S: BlockStore<N>>(
        &mut self,
        store: &mut S,
        nvm: &mut N,
    ) -> Result<Flushed, NvmError>
        requires agree { Agrees self.old (S.holding store.old nvm.old).blocks }
        requires ready { (S.holding store.old nvm.old).ready ≡ true }
        requires room { dirty_count self.old ≤ (S.holding store.old nvm.old).free }
        ensures cache { IfOk result (λ flushed. self.new ≡ flushed_from flushed self.old) }
        ensures store { IfOk result (λ flushed. HasFlushed flushed self.old (S.holding store.old nvm.old) (S.holding store.new nvm.new)) }
        ensures made { IfOk result (λ flushed. FlushesBy S.stores flushed self.old store.old nvm.old store.new nvm.new) }
        ensures err { OnErr result (self.new ≡ self.old) }

        // Once no line is dirty the store's list is the flat list.
        ensures clean { (result ≡ Ok Flushed.Clean) ↔ (dirty_count self.old ≡ 0) }
        ensures none { result ≡ Ok Flushed.Clean → HasNoneDirty self.new }
        ensures written { result ≡ Ok Flushed.Clean →
            flat self.new (S.holding store.new nvm.new).blocks ≡ (S.holding store.new nvm.new).blocks }

        // What the lines hold stays, and the flat list is as before.
        ensures peeks { PeeksSame self.old self.new }
        ensures hits { HitsSame self.old self.new }
        ensures flat { OnOk result
            (flat self.new (S.holding store.new nvm.new).blocks ≡ flat self.old (S.holding store.old nvm.old).blocks) }
        ensures agree { OnOk result (Agrees self.new (S.holding store.new nvm.new).blocks) }
        ensures dirty { IfOk result (λ flushed. CountsFlushed flushed (dirty_count self.old) (dirty_count self.new)) }
        ensures sized { KeepsSize self.old self.new }

        // If no page was open, or only that of the first dirty line, this holds afterwards too.
        ensures open { OnOk result (KeepsOpen self.old (S.holding store.old nvm.old) self.new (S.holding store.new nvm.new)) }

        // The store makes one store, or nothing if no line is dirty.
        ensures once { result ≢ Ok Flushed.Clean → S.once store.old nvm.old store.new nvm.new }
        ensures untouched { result ≡ Ok Flushed.Clean → (store.new ≡ store.old) × (nvm.new ≡ nvm.old) }
        ensures stays { S.stays store.old nvm.old store.new nvm.new }
        ensures cause { CountsOneFault result (S.holding store.old nvm.old).faults (S.holding store.new nvm.new).faults }
    {
        let Some((set, way)) = self.dirty_place() else {
            return Ok(Flushed::Clean);
        };
        match self.store_line(set, way, store, nvm)? {
            Stored::Done => Ok(Flushed::Line),
            Stored::CopyFirst => Ok(Flushed::CopyFirst),
        }
    }

    /// The set and the way of the first dirty line.
    fn dirty_place(&self) -> Option<(usize, usize)>
        ensures none { IfNone result (dirty_count self.now ≡ 0) }
        ensures clean { IfNone result (HasNoneDirty self.now) }
        ensures some { IfSome result (λ location. 0 < dirty_count self.now) }
        ensures set { IfSome result (λ location. location.0 ≡ dirty_set self.now) }
        ensures inside { IfSome result (λ location. location.0 < length self.now.sets) }
        ensures way { IfSome result (λ location. location.1 ≡ dirty_way self.now) }
        ensures dirty { IfSome result (λ location. is_dirty (line_at (set_at self.now location.0) location.1) ≡ true) }
        ensures first { IfSome result (λ location. dirty_line self.now ≡ line_at (set_at self.now location.0) location.1) }
    {
        match self.dirty_set() {
            None => None,
            Some(set) => match self.dirty_way(set) {
                Some(way) => Some((set, way)),
                None => None,
            },
        }
    }

    /// The first way of a set whose line is dirty.
    fn dirty_way(&self, set: usize) -> Option<usize>
        requires { set < length self.now.sets }
        ensures { result ≡ position is_dirty (set_at self.now set).lines }
    {
        self.sets[set].dirty_way()
    }

    /// The first set with a dirty line.
    fn dirty_set(&self) -> Option<usize>
        ensures set { result ≡ position has_dirty self.now.sets }
        ensures inside { IfSome result (λ set. set < length self.now.sets) }
    {
        self.sets.iter().position(|set| set.has_dirty())
    }
}
