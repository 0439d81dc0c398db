//! The pool and its frames.
ghost use Rattle.std.specs.Prelude.{◌≡◌, ℕ, ◌+◌, ◌*◌, ◌/◌, ◌%◌, ◌<◌, ◌≤◌, true, false, is_some, length, replicate, map, take, drop, IfOk, IfSome, OnOk, OnErr, None, Some};
ghost use Rattle.thy_block.specs.Device.{HasFailed, HasFailedToWrite, IsFramed, CountsFault, newest, written_to};
ghost use Rattle.thy_block.specs.Geometry.{memory_blocks};
ghost use Rattle.thy_block.specs.Places.{dram_blocks};
ghost use Rattle.thy_block.specs.Store.{page_of};
ghost use Rattle.thy_layout.specs.Files.{blocks_of};
ghost use Rattle.thy_layout.specs.Entries.{entry_at as listed_at};
ghost use Rattle.thy_table.specs.Listing.{Listing, listing, free_count, entry_at, index_of};
ghost use Rattle.thy_computer.specs.Action.{after, FailsTo};
ghost use Rattle.thy_images.specs.ShadowPlaces.{map_blocks, slot_blocks, image_blocks, pool_pages as pages_of_pool, pool_page};
ghost use Rattle.thy_images.specs.ShadowSlots.{IsMap, table_in};
ghost use Rattle.thy_shadow_parts.specs.Stores.{first_entries};

use crate::committing::commit_all;
use crate::entry::{Begun, Framed, FreeFrames, Held};
use crate::listing::list_all;
use std::alloc::{AllocError, Global};
use std::marker::Model;
use thy_block::{Block, Geometry, Nvm, NvmError, Stored};
use thy_dram::Dram;
use thy_images::shadow::{pool as pool_number, pool_pages};
use thy_layout::table_block;
use thy_table::Table;

/// Pages of memory: those that were stored to in frames, all others where they were committed. Only `new` allocates.
#[derive(Drop)]
pub struct Pool {
    geometry: Geometry,
    pool: Table<Held>,
    frames: Table<Framed>,
    begun: Option<Begun>,
    dram: Dram,
}

impl Model for Pool {
    ghost use Rattle.thy_shadow_parts.specs.State.{State, state_in, IsSoundState};

    ghost Value = { State };

    ghost view = { λ l. state_in l.geometry l.pool l.frames l.begun l.dram };

    ghost invariant = { λ l. IsSoundState (state_in l.geometry l.pool l.frames l.begun l.dram) };
}

/// The page of the pool at a place of its table.
fn as_page(place: Option<usize>) -> Option<u64>
    ensures { result ≡ place }
{
    match place {
        Some(q) => Some(q as u64),
        None => None,
    }
}

/// Page `x` of memory is page `x` of the pool.
fn first_pages(geometry: &Geometry, pool: &mut Table<Held>)
    requires { pool.old ≡ listing (replicate (pages_of_pool geometry.now) None) (pages_of_pool geometry.now) }
    ensures { pool.new ≡ listing (first_entries geometry.now) (pages_of_pool geometry.now) }
{
    let pages = geometry.numbers().pages;
    for x in 0..pages {
        pool.put(x as usize, Held::new(x));
    }
}

impl Pool {
    ghost use Rattle.thy_dram.specs.Contents.{lost};
    ghost use Rattle.thy_layout.specs.TableSlots.{table_block_of};
    ghost use Rattle.thy_shadow_parts.specs.Commit.{sealed_state, committed_state};
    ghost use Rattle.thy_shadow_parts.specs.Items.{next_block};
    ghost use Rattle.thy_shadow_parts.specs.State.{IsSoundState, IsSized, frame_of, pool_of, target, next_page, next_table, committed_table, page_place, target_place, frame_block, committed_of, work_of};
    ghost use Rattle.thy_shadow_parts.specs.Stores.{copies_for, free_frame as lowest_frame, store_case, stored_by, store_action, put_into, filled, copied_into, after_store, after_drain, new_state};

    /// The pool of a machine whose power came on, over a DRAM of the geometry's size.
    pub fn new(alloc: Global, geometry: &Geometry, dram: Dram) -> Result<Pool, AllocError>
        requires { length dram.blocks ≡ dram_blocks geometry.now }
        ensures { IfOk result (λ pool. pool ≡ new_state geometry.now dram) }
    {
        let numbers = geometry.numbers();
        let size = pool_pages(geometry);
        let mut pool = Table::new(alloc, size, size)?;
        first_pages(geometry, &mut pool);
        pool.recall_lists_once();
        let frames = Table::new(alloc, numbers.ptt, numbers.pages)?;
        frames.recall_lists_once();
        Ok(Pool {
            geometry: *geometry,
            pool,
            frames,
            begun: None,
            dram,
        })
    }

    /// Recalls that tables and DRAM have their sizes, that no page is listed twice, and that each filled frame has a page of
    /// the pool. The call does nothing.
    pub fn recall_sound(&self)
        ensures { IsSoundState self.now }
    {
        let _pool = &self.pool;
    }

    /// How many frames are not filled.
    pub fn free(&self) -> u64
        ensures { result ≡ free_count self.now.frames }
    {
        self.frames.free()
    }

    /// The page of the pool that has page `x` of memory in the committed checkpoint.
    fn page(&self, x: u64) -> u64
        requires { x < self.now.p.pages }
        ensures page { result ≡ pool_page (pool_of self.now x) }
        ensures inside { result < pages_of_pool self.now.p }
    {
        self.recall_sound();
        match self.pool.find(x) {
            Some(q) => q as u64,
            None => 0,
        }
    }

    /// Where block `c` of page `x` was committed.
    fn place(&self, x: u64, c: u64) -> u64
        requires page { x < self.now.p.pages }
        requires block { c < 64 }
        ensures place { result ≡ page_place self.now x c }
        ensures inside { result < image_blocks self.now.p }
    {
        pool_number(&self.geometry, self.page(x), c)
    }

    /// Block `c` of frame `j`.
    fn frame(&self, j: usize, c: u64) -> Block
        requires frame { j < self.now.p.ptt }
        requires block { c < 64 }
        ensures { result ≡ frame_block self.now j c }
    {
        self.recall_sound();
        self.dram.read(self.geometry.frame(j, c))
    }

    /// Reads block `b` of memory as it was stored last. It fails only if that block is in the NVM.
    pub fn load<N: Nvm>(&self, b: u64, nvm: &mut N) -> Result<Block, NvmError>
        requires block { b < memory_blocks self.now.p }
        requires sized { IsSized self.now (N.device nvm.old) }
        requires up { (N.device nvm.old).down ≡ false }
        ensures ok { IfOk result (λ block. block ≡ work_of self.now (N.device nvm.old) b) }
        ensures same { OnOk result (N.device nvm.new ≡ N.device nvm.old) }
        ensures err { OnErr result (HasFailed (N.device nvm.old) (N.device nvm.new)) }
        ensures side { OnErr result (frame_of self.now (page_of b) ≡ None) }
        ensures frame { IsFramed (N.device nvm.old) (N.device nvm.new) }
        ensures cause { CountsFault result (N.device nvm.old).faults (N.device nvm.new).faults }
    {
        self.recall_sound();
        match self.frames.find(b / 64) {
            Some(j) => Ok(self.frame(j, b % 64)),
            None => self.committed(b, nvm),
        }
    }

    /// Reads block `b` of memory as the committed checkpoint has it.
    pub fn committed<N: Nvm>(&self, b: u64, nvm: &mut N) -> Result<Block, NvmError>
        requires block { b < memory_blocks self.now.p }
        requires sized { IsSized self.now (N.device nvm.old) }
        requires up { (N.device nvm.old).down ≡ false }
        ensures ok { IfOk result (λ block. block ≡ committed_of self.now (N.device nvm.old) b) }
        ensures same { OnOk result (N.device nvm.new ≡ N.device nvm.old) }
        ensures err { OnErr result (HasFailed (N.device nvm.old) (N.device nvm.new)) }
        ensures frame { IsFramed (N.device nvm.old) (N.device nvm.new) }
        ensures cause { CountsFault result (N.device nvm.old).faults (N.device nvm.new).faults }
    {
        let at = self.place(b / 64, b % 64);
        nvm.read(at)
    }

    /// Stores block `b`: into the frame of its page. If that has none, its blocks are first copied into the lowest
    /// free frame, one in each call. If the read of a copy failed, the pool is as it was.
    #[tactic(auto, unfolding(crate::specs::Stores::after_store))]
    pub fn store<N: Nvm>(&mut self, b: u64, block: &Block, nvm: &mut N) -> Result<Stored, NvmError>
        requires block { b < memory_blocks self.old.p }
        requires room { 0 < free_count self.old.frames }
        requires sized { IsSized self.old (N.device nvm.old) }
        requires up { (N.device nvm.old).down ≡ false }
        ensures answer { IfOk result (λ stored. stored ≡ stored_by (store_case b self.old)) }
        ensures pool { OnOk result (self.new ≡ after_store b block.now (N.device nvm.old) self.old) }
        ensures kept { OnErr result (self.new ≡ self.old) }
        ensures same { OnOk result (N.device nvm.new ≡ N.device nvm.old) }
        ensures err { let action = store_action (store_case b self.old) b self.old in
            OnErr result (FailsTo action (N.device nvm.old) (N.device nvm.new)) }
        ensures frame { IsFramed (N.device nvm.old) (N.device nvm.new) }
        ensures cause { CountsFault result (N.device nvm.old).faults (N.device nvm.new).faults }
    {
        let x = b / 64;
        if let Some(j) = self.frames.find(x) {
            self.put(j, b % 64, block);
            return Ok(Stored::Done);
        }
        let k = self.copies(x);
        if k < 64 {
            self.copy(x, k, nvm)?;
            return Ok(Stored::CopyFirst);
        }
        let j = self.claim(x);
        self.put(j, b % 64, block);
        Ok(Stored::Done)
    }

    /// How many blocks of page `x` were copied into the frame that is begun for it.
    fn copies(&self, x: u64) -> u64
        ensures { result ≡ copies_for x self.now }
    {
        match self.begun {
            Some(begun) => { if begun.page == x { begun.copied } else { 0 } }
            None => 0,
        }
    }

    /// The lowest free frame.
    fn free_frame(&self) -> usize
        requires { 0 < free_count self.now.frames }
        ensures frame { result ≡ lowest_frame self.now }
        ensures inside { result < self.now.p.ptt }
    {
        self.recall_sound();
        match self.frames.lowest_free() {
            Some(j) => j,
            None => unreachable!(),
        }
    }

    /// Copies block `k` of page `x`, which has no frame, into the lowest free one, which is begun for it.
    fn copy<N: Nvm>(&mut self, x: u64, k: u64, nvm: &mut N) -> Result<(), NvmError>
        requires page { x < self.old.p.pages }
        requires block { k < 64 }
        requires unframed { frame_of self.old x ≡ None }
        requires room { 0 < free_count self.old.frames }
        requires sized { IsSized self.old (N.device nvm.old) }
        requires up { (N.device nvm.old).down ≡ false }
        ensures pool { let block = newest (N.device nvm.old) (page_place self.old x k) in
            OnOk result (self.new ≡ copied_into (lowest_frame self.old) x k block self.old) }
        ensures kept { OnErr result (self.new ≡ self.old) }
        ensures same { OnOk result (N.device nvm.new ≡ N.device nvm.old) }
        ensures err { OnErr result (HasFailed (N.device nvm.old) (N.device nvm.new)) }
        ensures frame { IsFramed (N.device nvm.old) (N.device nvm.new) }
        ensures cause { CountsFault result (N.device nvm.old).faults (N.device nvm.new).faults }
    {
        let block = nvm.read(self.place(x, k))?;
        let j = self.free_frame();
        self.put(j, k, &block);
        self.begun = Some(Begun::new(x, k + 1));
        Ok(())
    }

    /// Makes the lowest free frame page `x`'s, which has none, and the lowest free page of the pool that frame's.
    fn claim(&mut self, x: u64) -> usize
        requires page { x < self.old.p.pages }
        requires unframed { frame_of self.old x ≡ None }
        requires room { 0 < free_count self.old.frames }
        ensures frame { result ≡ lowest_frame self.old }
        ensures inside { result < self.old.p.ptt }
        ensures pool { self.new ≡ filled (lowest_frame self.old) x self.old }
    {
        let j = self.free_frame();
        self.frames.add(Framed::new(x));
        self.pool
            .add(Held::new(self.geometry.numbers().pages + j as u64));
        self.begun = None;
        j
    }

    /// Writes a block into frame `j`, as block `c` of its page.
    fn put(&mut self, j: usize, c: u64, block: &Block)
        requires frame { j < self.old.p.ptt }
        requires block { c < 64 }
        ensures { self.new ≡ put_into j c block.now self.old }
    {
        self.recall_sound();
        let at = self.geometry.frame(j, c);
        self.dram.write(at, block);
    }

    /// How many writes are queued in the DRAM.
    pub fn queued(&self) -> u64
        ensures { result ≡ self.now.dram.queued }
    {
        self.dram.queued()
    }

    /// Lets the oldest queued write of the DRAM land.
    pub fn drain(&mut self)
        requires { 0 < self.old.dram.queued }
        ensures { self.new ≡ after_drain self.old }
    {
        self.dram.drain();
    }

    /// Loses power: all is gone but the DRAM, whose bytes are those that the pick draws.
    pub fn cut(self, pick: u64) -> Dram
        ensures { result ≡ lost self.dram pick }
    {
        let mut dram = self.dram;
        dram.cut(pick);
        dram
    }

    /// Seals an epoch: a frame that is begun and not filled is given up.
    pub fn seal(&mut self)
        ensures { self.new ≡ sealed_state self.old }
    {
        self.begun = None;
    }

    /// The pages of the frames are committed: they take the place of those that were, and all frames are free.
    pub fn commit(&mut self)
        ensures { self.new ≡ committed_state self.old }
    {
        self.recall_sound();
        commit_all(&self.geometry, &self.frames, &mut self.pool);
        self.frames.map_entries(&FreeFrames);
        self.begun = None;
    }

    /// The first block of the frames from one on that a checkpoint writes, 64 to a frame.
    pub fn next_block(&self, from: u64) -> Option<u64>
        ensures next { result ≡ next_block from self.now }
        ensures few { IfSome result (λ k. k < 4294967296) }
    {
        self.recall_sound();
        if self.is_filled((from / 64) as usize) {
            Some(from)
        } else {
            None
        }
    }

    /// Whether frame `j` is filled; past the last none is.
    fn is_filled(&self, j: usize) -> bool
        ensures filled { result ≡ is_some (entry_at self.now.frames j) }
        ensures inside { result ≡ true → j < self.now.p.ptt }
    {
        self.recall_sound();
        if j < self.frames.size() {
            self.frames.entry(j).is_some()
        } else {
            false
        }
    }

    /// Writes block `c` of frame `j`, which is filled, into the frame's page of the pool.
    pub fn write_frame<N: Nvm>(&self, j: usize, c: u64, nvm: &mut N) -> Result<(), NvmError>
        requires frame { j < self.now.p.ptt }
        requires block { c < 64 }
        requires sized { IsSized self.now (N.device nvm.old) }
        requires up { (N.device nvm.old).down ≡ false }
        ensures ok { let at = target_place self.now j c in
            OnOk result (N.device nvm.new ≡ written_to (N.device nvm.old) at (frame_block self.now j c)) }
        ensures err { let at = target_place self.now j c in
            OnErr result (HasFailedToWrite at (frame_block self.now j c) (N.device nvm.old) (N.device nvm.new)) }
        ensures frame { IsFramed (N.device nvm.old) (N.device nvm.new) }
        ensures cause { CountsFault result (N.device nvm.old).faults (N.device nvm.new).faults }
    {
        let at = pool_number(&self.geometry, self.target_page(j), c);
        nvm.write(at, &self.frame(j, c))
    }

    /// The page of the pool that frame `j` goes to.
    fn target_page(&self, j: usize) -> u64
        requires { j < self.now.p.ptt }
        ensures page { result ≡ pool_page (target self.now j) }
        ensures inside { result < pages_of_pool self.now.p }
    {
        self.recall_sound();
        match self.pool.find(self.geometry.numbers().pages + j as u64) {
            Some(q) => q as u64,
            None => 0,
        }
    }

    /// Block `k` of the next checkpoint's map, eight pages a block.
    pub fn table_block(&self, k: u64) -> Block
        requires { k < map_blocks self.now.p }
        ensures { result ≡ table_block_of (next_table self.now) k }
    {
        self.recall_sound();
        table_block(&self.listed_in(k))
    }

    /// The eight entries of block `k` of the next checkpoint's map.
    fn listed_in(&self, k: u64) -> [Option<u64>; 8]
        requires { k < map_blocks self.now.p }
        ensures { result ≡ take 8 (drop (8 * k) (next_table self.now)) }
    {
        self.recall_sound();
        let mut entries = [None; 8];
        for i in 0..8 {
            entries[i] = self.listed_at(8 * k + i as u64);
        }
        entries
    }

    /// The page of the pool that page `x` has in it; none past the last page.
    fn listed_at(&self, x: u64) -> Option<u64>
        requires { x < 8 * map_blocks self.now.p }
        ensures { result ≡ listed_at (next_table self.now) x }
    {
        if x < self.geometry.numbers().pages {
            self.next_page(x)
        } else {
            None
        }
    }

    /// The page of the pool that a page of memory has in the next checkpoint: its frame's, or the one that was
    /// committed.
    fn next_page(&self, x: u64) -> Option<u64>
        requires { x < self.now.p.pages }
        ensures { result ≡ next_page self.now x }
    {
        self.recall_sound();
        match self.frames.find(x) {
            Some(j) => as_page(self.pool.find(self.geometry.numbers().pages + j as u64)),
            None => as_page(self.pool.find(x)),
        }
    }

    /// Lists the map of a slot, in place of the map of a start. No frame may be filled or begun.
    pub fn list(&mut self, slot: &[u8])
        requires slot { length slot.now ≡ 64 * slot_blocks self.old.p }
        requires map { IsMap self.old.p (table_in self.old.p (blocks_of slot.now)) }
        requires free { (j : ℕ) → entry_at self.old.frames j ≡ None }
        requires unbegun { self.old.begun ≡ None }
        ensures map { committed_table self.new ≡ table_in self.old.p (blocks_of slot.now) }
        ensures same { self.new ≡ record self.old { pool = self.new.pool } }
    {
        self.recall_sound();
        list_all(slot, &self.geometry, &mut self.pool);
        self.pool.recall_lists_once();
    }
}
