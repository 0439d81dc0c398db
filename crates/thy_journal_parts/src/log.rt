//! The table and its buffers.
ghost use Rattle.std.specs.Prelude.{◌≡◌, ◌+◌, ◌*◌, ◌/◌, ◌<◌, ◌≤◌, false, length, map, take, drop, IfOk, OnOk, OnErr, IfSome, None};
ghost use Rattle.std.specs.Option.{option_map};
ghost use Rattle.thy_block.specs.Device.{HasFailed, HasFailedToWrite, IsFramed, CountsFault, written_to};
ghost use Rattle.thy_block.specs.Geometry.{memory_blocks};
ghost use Rattle.thy_block.specs.Places.{dram_blocks};
ghost use Rattle.thy_layout.specs.Entries.{entry_at as listed_at};
ghost use Rattle.thy_table.specs.Listing.{free_count, entry_at, index_of};
ghost use Rattle.thy_journal_parts.specs.Keys.{block_key};
ghost use Rattle.thy_journal_parts.specs.Items.{listed_by};

use crate::entry::{Listed, Live, Release};
use std::alloc::{AllocError, Global};
use std::marker::Model;
use thy_block::{Block, Geometry, Nvm, NvmError};
use thy_dram::Dram;
use thy_images::journal::{home as home_number, journal as journal_number};
use thy_layout::table_block;
use thy_table::Table;

/// Blocks of memory as they were stored last: those that the table lists in the buffers of their entries, all others
/// at home in the NVM. Only `new` allocates.
#[derive(Drop)]
pub struct Log {
    geometry: Geometry,
    table: Table<Listed>,
    dram: Dram,
}

impl Model for Log {
    ghost use Rattle.thy_journal_parts.specs.State.{State, state_in, IsSoundState};

    ghost Value = { State };

    ghost view = { λ l. state_in l.geometry l.table l.dram };

    ghost invariant = { λ l. IsSoundState (state_in l.geometry l.table l.dram) };
}

/// The block that an entry lists.
fn listed_block(entry: Option<Listed>) -> Option<u64>
    ensures { result ≡ option_map block_key entry }
{
    match entry {
        Some(entry) => Some(entry.block),
        None => None,
    }
}

/// The block that an entry lists, 0 if the entry is free.
fn block_or_zero(entry: Option<Listed>) -> u64
    ensures { result ≡ listed_by entry }
{
    match entry {
        Some(entry) => entry.block,
        None => 0,
    }
}

impl Log {
    ghost use Rattle.std.specs.Prelude.{Some};
    ghost use Rattle.thy_dram.specs.Contents.{lost};
    ghost use Rattle.thy_images.specs.JournalPlaces.{home_place, journal_place};
    ghost use Rattle.thy_layout.specs.TableSlots.{table_block_of};
    ghost use Rattle.thy_journal_parts.specs.Items.{next_live, block_listed};
    ghost use Rattle.thy_journal_parts.specs.State.{IsSoundState, IsSized, table_of, entry_for, home_of, buffer_of, work_of, new_state};
    ghost use Rattle.thy_journal_parts.specs.Stores.{store_entry, listing_for, put_into, after_store, with_listing_at, filled, after_drain, released};

    /// The log of a machine whose power came on, over a DRAM of the geometry's size.
    pub fn new(alloc: Global, geometry: &Geometry, dram: Dram) -> Result<Log, AllocError>
        requires { length dram.blocks ≡ dram_blocks geometry.now }
        ensures { IfOk result (λ log. log ≡ new_state geometry.now dram) }
    {
        let numbers = geometry.numbers();
        let table = Table::new(alloc, numbers.btt, geometry.memory_blocks())?;
        table.recall_lists_once();
        Ok(Log {
            geometry: *geometry,
            table,
            dram,
        })
    }

    /// Recalls that table and DRAM have their sizes, and that no block is listed twice. The call does nothing.
    pub fn recall_sound(&self)
        ensures { IsSoundState self.now }
    {
        let _table = &self.table;
    }

    /// How many entries of the table are free.
    pub fn free(&self) -> u64
        ensures { result ≡ free_count self.now.table }
    {
        self.table.free()
    }

    /// Reads block `b` of memory as it was stored last. It fails only if that block is in the NVM.
    pub fn load<N: Nvm>(&self, b: u64, nvm: &mut N) -> Result<Block, NvmError>
        requires block { b < memory_blocks self.now.p }
        requires sized { IsSized self.now (N.device nvm.old) }
        requires up { (N.device nvm.old).down ≡ false }
        ensures ok { IfOk result (λ block. block ≡ work_of self.now (N.device nvm.old) b) }
        ensures same { OnOk result (N.device nvm.new ≡ N.device nvm.old) }
        ensures err { OnErr result (HasFailed (N.device nvm.old) (N.device nvm.new)) }
        ensures side { OnErr result (entry_for self.now b ≡ None) }
        ensures frame { IsFramed (N.device nvm.old) (N.device nvm.new) }
        ensures cause { CountsFault result (N.device nvm.old).faults (N.device nvm.new).faults }
    {
        self.recall_sound();
        match self.table.find(b) {
            Some(i) => Ok(self.buffer(i)),
            None => self.home(b, nvm),
        }
    }

    /// Reads block `b` of memory from its home.
    pub fn home<N: Nvm>(&self, b: u64, nvm: &mut N) -> Result<Block, NvmError>
        requires block { b < memory_blocks self.now.p }
        requires sized { IsSized self.now (N.device nvm.old) }
        requires up { (N.device nvm.old).down ≡ false }
        ensures ok { IfOk result (λ block. block ≡ home_of self.now (N.device nvm.old) b) }
        ensures same { OnOk result (N.device nvm.new ≡ N.device nvm.old) }
        ensures err { OnErr result (HasFailed (N.device nvm.old) (N.device nvm.new)) }
        ensures frame { IsFramed (N.device nvm.old) (N.device nvm.new) }
        ensures cause { CountsFault result (N.device nvm.old).faults (N.device nvm.new).faults }
    {
        let at = home_number(&self.geometry, b);
        nvm.read(at)
    }

    /// The block in the buffer of entry `i`.
    fn buffer(&self, i: usize) -> Block
        requires { i < self.now.p.btt }
        ensures { result ≡ buffer_of self.now i }
    {
        self.recall_sound();
        self.dram.read(self.geometry.buffer(i))
    }

    /// Stores block `b`: into the buffer of its entry, the lowest free one if it has none. The NVM is not touched.
    #[tactic(auto, unfolding(crate::specs::Stores::after_store))]
    pub fn store(&mut self, b: u64, block: &Block)
        requires block { b < memory_blocks self.old.p }
        requires room { 0 < free_count self.old.table }
        ensures { self.new ≡ after_store b block.now self.old }
    {
        let i = self.list(b);
        self.put(i, block);
    }

    /// Lists block `b`, if no entry does, and gives its entry.
    fn list(&mut self, b: u64) -> usize
        requires block { b < memory_blocks self.old.p }
        requires room { 0 < free_count self.old.table }
        ensures entry { result ≡ store_entry b self.old }
        ensures inside { result < self.old.p.btt }
        ensures log { self.new ≡ listing_for b self.old }
    {
        self.recall_sound();
        match self.table.find(b) {
            Some(i) => i,
            None => self.add(b),
        }
    }

    /// Lists block `b`, which no entry does, at the lowest free entry.
    fn add(&mut self, b: u64) -> usize
        requires block { b < memory_blocks self.old.p }
        requires room { 0 < free_count self.old.table }
        requires unlisted { index_of block_key b self.old.table ≡ None }
        ensures entry { result ≡ store_entry b self.old }
        ensures inside { result < self.old.p.btt }
        ensures log { self.new ≡ listing_for b self.old }
    {
        self.recall_sound();
        let place = self.table.add(Listed::new(b));
        self.table.recall_lists_once();
        match place {
            Some(i) => i,
            None => unreachable!(),
        }
    }

    /// Writes a block into the buffer of entry `i`.
    pub fn put(&mut self, i: usize, block: &Block)
        requires { i < self.old.p.btt }
        ensures { self.new ≡ put_into i block.now self.old }
    {
        self.recall_sound();
        let at = self.geometry.buffer(i);
        self.dram.write(at, block);
    }

    /// Lists block `b`, which no entry does, at entry `i`, which is free.
    pub fn list_at(&mut self, i: usize, b: u64)
        requires inside { i < self.old.p.btt }
        requires block { b < memory_blocks self.old.p }
        requires free { entry_at self.old.table i ≡ None }
        requires unlisted { index_of block_key b self.old.table ≡ None }
        ensures { self.new ≡ with_listing_at i b self.old }
    {
        self.recall_sound();
        self.table.put(i, Listed::new(b));
        self.table.recall_lists_once();
    }

    /// Reads the block of entry `i` in the journal of slot `s`, 0 or 1, into its buffer. If the NVM failed, the log
    /// is as it was.
    pub fn fill<N: Nvm>(&mut self, s: u64, i: usize, nvm: &mut N) -> Result<(), NvmError>
        requires slot { s < 2 }
        requires entry { i < self.old.p.btt }
        requires sized { IsSized self.old (N.device nvm.old) }
        requires up { (N.device nvm.old).down ≡ false }
        ensures ok { OnOk result (self.new ≡ filled s i (N.device nvm.old) self.old) }
        ensures kept { OnErr result (self.new ≡ self.old) }
        ensures same { OnOk result (N.device nvm.new ≡ N.device nvm.old) }
        ensures err { OnErr result (HasFailed (N.device nvm.old) (N.device nvm.new)) }
        ensures frame { IsFramed (N.device nvm.old) (N.device nvm.new) }
        ensures cause { CountsFault result (N.device nvm.old).faults (N.device nvm.new).faults }
    {
        let at = journal_number(&self.geometry, s, i);
        let block = nvm.read(at)?;
        self.put(i, &block);
        Ok(())
    }

    /// How many writes are queued in the DRAM.
    pub fn queued(&self) -> u64
        ensures { result ≡ self.now.dram.queued }
    {
        self.dram.queued()
    }

    /// Lets the oldest queued write of the DRAM land.
    pub fn drain(&mut self)
        requires { 0 < self.old.dram.queued }
        ensures { self.new ≡ after_drain self.old }
    {
        self.dram.drain();
    }

    /// Loses power: all is gone but the DRAM, whose bytes are those that the pick draws.
    pub fn cut(self, pick: u64) -> Dram
        ensures { result ≡ lost self.dram pick }
    {
        let mut dram = self.dram;
        dram.cut(pick);
        dram
    }

    /// The first entry, `from` or later, that lists a block; None if there is none.
    pub fn next_live(&self, from: usize) -> Option<usize>
        ensures entry { result ≡ next_live from self.now }
        ensures inside { IfSome result (λ i. i < self.now.p.btt) }
    {
        self.recall_sound();
        self.table.next(from, &Live)
    }

    /// Writes the buffer of entry `i` into the journal of slot `s`, 0 or 1.
    pub fn write_journal<N: Nvm>(&self, s: u64, i: usize, nvm: &mut N) -> Result<(), NvmError>
        requires slot { s < 2 }
        requires entry { i < self.now.p.btt }
        requires sized { IsSized self.now (N.device nvm.old) }
        requires up { (N.device nvm.old).down ≡ false }
        ensures ok { let at = journal_place self.now.p s i in
            OnOk result (N.device nvm.new ≡ written_to (N.device nvm.old) at (buffer_of self.now i)) }
        ensures err { let at = journal_place self.now.p s i in
            OnErr result (HasFailedToWrite at (buffer_of self.now i) (N.device nvm.old) (N.device nvm.new)) }
        ensures frame { IsFramed (N.device nvm.old) (N.device nvm.new) }
        ensures cause { CountsFault result (N.device nvm.old).faults (N.device nvm.new).faults }
    {
        let at = journal_number(&self.geometry, s, i);
        nvm.write(at, &self.buffer(i))
    }

    /// Writes the buffer of entry `i`, which is live, to the home of the block that it lists.
    pub fn write_home<N: Nvm>(&self, i: usize, nvm: &mut N) -> Result<(), NvmError>
        requires entry { i < self.now.p.btt }
        requires sized { IsSized self.now (N.device nvm.old) }
        requires up { (N.device nvm.old).down ≡ false }
        ensures ok { let at = home_place self.now.p (block_listed i self.now) in
            OnOk result (N.device nvm.new ≡ written_to (N.device nvm.old) at (buffer_of self.now i)) }
        ensures err { let at = home_place self.now.p (block_listed i self.now) in
            OnErr result (HasFailedToWrite at (buffer_of self.now i) (N.device nvm.old) (N.device nvm.new)) }
        ensures frame { IsFramed (N.device nvm.old) (N.device nvm.new) }
        ensures cause { CountsFault result (N.device nvm.old).faults (N.device nvm.new).faults }
    {
        let at = home_number(&self.geometry, self.listed(i));
        nvm.write(at, &self.buffer(i))
    }

    /// The block that entry `i` lists, 0 if it is free.
    fn listed(&self, i: usize) -> u64
        requires { i < self.now.p.btt }
        ensures listed { result ≡ block_listed i self.now }
        ensures inside { result < memory_blocks self.now.p }
    {
        self.recall_sound();
        block_or_zero(self.table.entry(i))
    }

    /// Frees all entries of the table.
    pub fn release(&mut self)
        ensures { self.new ≡ released self.old }
    {
        self.recall_sound();
        self.table.map_entries(&Release);
        self.table.recall_lists_once();
    }

    /// Block `k` of the table, eight entries a block.
    pub fn table_block(&self, k: u64) -> Block
        requires { k < self.now.p.btt / 8 }
        ensures { result ≡ table_block_of (table_of self.now) k }
    {
        self.recall_sound();
        table_block(&self.listed_in(k))
    }

    /// The eight entries of a block of the table.
    fn listed_in(&self, k: u64) -> [Option<u64>; 8]
        requires { k < self.now.p.btt / 8 }
        ensures { result ≡ take 8 (drop (8 * k) (table_of self.now)) }
    {
        self.recall_sound();
        let mut entries = [None; 8];
        for i in 0..8 {
            entries[i] = self.listed_at(8 * k as usize + i);
        }
        entries
    }

    /// The block that entry `i` lists, if it is live.
    fn listed_at(&self, i: usize) -> Option<u64>
        requires { i < self.now.p.btt }
        ensures { result ≡ listed_at (table_of self.now) i }
    {
        self.recall_sound();
        listed_block(self.table.entry(i))
    }
}
