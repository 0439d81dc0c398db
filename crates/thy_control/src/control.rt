//! The controller.
ghost use Rattle.std.specs.Prelude.{◌≡◌, ◌≢◌, true, nat_lt, None, ◌<◌, ◌≤◌, ◌*◌, false, length, IfOk, OnOk, OnErr};
ghost use Rattle.thy_block.specs.Device.{HasFailed, IsFramed, CountsFault, block_at};
ghost use Rattle.thy_block.specs.Geometry.{memory_blocks};
ghost use Rattle.thy_block.specs.Places.{dram_blocks};
ghost use Rattle.thy_table.specs.Places.{in_dram, number_of, IsPlace};
ghost use Rattle.thy_table.specs.Listing.{free_count, lists, entry_at, index_of};
ghost use Rattle.thy_table.specs.BlockEntry.{new_entry};
ghost use Rattle.thy_table.specs.PageEntry.{no_page};
ghost use Rattle.thy_control.specs.Find.{index_for, entry_for, with_entry_for};
ghost use Rattle.thy_control.specs.Keys.{block_key, page_key};
ghost use Rattle.thy_table.specs.Cells.{work as work_place};
ghost use Rattle.thy_table.specs.Store.{put_by};
ghost use Rattle.thy_control.specs.StoredTables.{btt_with, btt_after, ptt_after, counts_after, answer_of};

mod boot;
mod copying;
mod merging;
mod moving;
mod positions;
mod promoting;
mod queue;
mod tables;
mod writing;

use crate::cursors::Cursors;
use crate::overlay::WorkCounts;
use crate::seal::{CommitBlocks, CommitPages, seal_blocks, seal_pages};
use std::alloc::{AllocError, Global};
use std::marker::Model;
use thy_block::{Block, Geometry, Nvm, NvmError, PAGE_BLOCKS, Stored, page_of};
use thy_dram::Dram;
use thy_table::{
    Btt, BttEntry, Cell, Counts, Place, Ptt, PttEntry, StoreRule, Table,
    a_commit_keeps_entries_sound, a_commit_takes_the_last, a_listing_keeps_versions,
    a_seal_keeps_entries_sound, a_seal_leaves_no_work, a_seal_takes_the_work,
    a_store_goes_elsewhere, a_store_is_read, a_store_leaves_the_target,
    a_store_leaves_what_has_to_stand, new_cells_are_sound, read_place, write_place,
};

/// The controller of two memories. Blocks are numbered from the start of memory; only `new` allocates.
#[derive(Drop)]
pub struct Control {
    geometry: Geometry,
    btt: Btt,
    ptt: Ptt,
    counts: Counts,
    under_way: bool,
    dram: Dram,
    marks: WorkCounts,
    cursors: Cursors,
}

impl Model for Control {
    ghost use Rattle.thy_control.specs.State.{State, state_in};
    ghost use Rattle.thy_control.specs.Cursors.{IsControl};

    ghost Value = { State };

    ghost view = { λ c. state_in c.geometry c.btt c.ptt c.counts c.under_way c.dram };

    ghost invariant = { λ c. IsControl (state_in c.geometry c.btt c.ptt c.counts c.under_way c.dram) c.marks c.cursors };
}

/// The place of a block's entry, 0 if it has none, and the entry, or one as a new one would be.
fn block_entry(btt: &Btt, b: u64) -> (usize, BttEntry)
    ensures place { result.0 ≡ index_for block_key new_entry b btt.now }
    ensures entry { result.1 ≡ entry_for block_key new_entry b btt.now }
{
    match btt.find(b) {
        Some(i) => match btt.entry(i) {
            Some(entry) => (i, entry),
            None => (i, BttEntry::new(b)),
        },
        None => (0, BttEntry::new(b)),
    }
}

/// The place of a page's entry, 0 if it has none, and the entry, or one that says that the page has none.
fn page_entry(ptt: &Ptt, page: u64) -> (usize, PttEntry)
    ensures place { result.0 ≡ index_for page_key no_page page ptt.now }
    ensures entry { result.1 ≡ entry_for page_key no_page page ptt.now }
{
    match ptt.find(page) {
        Some(j) => match ptt.entry(j) {
            Some(entry) => (j, entry),
            None => (j, PttEntry::new(page)),
        },
        None => (0, PttEntry::new(page)),
    }
}

/// The place of a block's entry, 0 before if it has none; then the place of the entry which the rule of its store adds.
fn place_for_rule(btt: &Btt, b: u64, before: usize, rule: StoreRule) -> usize
    requires room { 0 < free_count btt.now }
    requires before { before ≡ index_for block_key new_entry b btt.now }
    ensures { result ≡ index_for block_key new_entry b (btt_with rule b btt.now) }
{
    match rule {
        StoreRule::ToFrame | StoreRule::PendingFirst => before,
        StoreRule::ToBuffer | StoreRule::ToNvm => match btt.find(b) {
            Some(i) => i,
            None => place_to_add(btt, b),
        },
    }
}

/// The place that an entry of a block without one takes.
fn place_to_add(btt: &Btt, b: u64) -> usize
    requires room { 0 < free_count btt.now }
    requires unlisted { index_of block_key b btt.now ≡ None }
    ensures { result ≡ index_for block_key new_entry b (with_entry_for block_key new_entry b btt.now) }
{
    match btt.lowest_free() {
        Some(i) => i,
        None => unreachable!(),
    }
}

/// Adds an entry of a block without one, if the rule of its store names one.
fn add_for_rule(btt: &mut Btt, b: u64, rule: StoreRule)
    requires { b < btt.old.numbers }
    ensures { btt.new ≡ btt_with rule b btt.old }
{
    match rule {
        StoreRule::ToFrame | StoreRule::PendingFirst => {}
        StoreRule::ToBuffer | StoreRule::ToNvm => match btt.find(b) {
            Some(_) => {}
            None => add_entry(btt, b),
        },
    }
}

/// Adds an entry of a block without one, if one is free.
fn add_entry(btt: &mut Btt, b: u64)
    requires number { b < btt.old.numbers }
    requires unlisted { index_of block_key b btt.old ≡ None }
    ensures { btt.new ≡ with_entry_for block_key new_entry b btt.old }
{
    let _place = btt.add(BttEntry::new(b));
}

/// What a rule writes at its place: the block that is stored, or what the buffer holds.
fn block_to_put(
    rule: StoreRule,
    cell: &Cell,
    block: &Block,
    geometry: &Geometry,
    dram: &Dram,
) -> Block
    requires entry { cell.now.i < geometry.now.btt }
    requires dram { length dram.now.blocks ≡ dram_blocks geometry.now }
    ensures { result ≡ put_by rule block.now (λ place. block_at dram.now.blocks (number_of geometry.now place)) cell.now }
{
    match rule {
        StoreRule::PendingFirst => dram.read(geometry.buffer(cell.i)),
        StoreRule::ToFrame | StoreRule::ToBuffer | StoreRule::ToNvm => *block,
    }
}

/// Writes the entries of a block into the tables, as far as a rule changes them.
fn set_cell(rule: StoreRule, cell: &Cell, btt: &mut Btt, ptt: &mut Ptt)
    requires block { rule ≢ StoreRule.ToFrame → lists block_key cell.now.entry.block (entry_at btt.old cell.now.i) ≡ true }
    requires page { rule ≡ StoreRule.ToFrame → lists page_key cell.now.page.page (entry_at ptt.old cell.now.j) ≡ true }
    ensures btt { btt.new ≡ btt_after rule cell.now btt.old }
    ensures ptt { ptt.new ≡ ptt_after rule cell.now ptt.old }
{
    match rule {
        StoreRule::ToFrame => ptt.set(cell.j, cell.page),
        StoreRule::ToBuffer | StoreRule::ToNvm | StoreRule::PendingFirst => {
            btt.set(cell.i, cell.entry)
        }
    }
}

/// Counts a store that was done for its page.
fn count_store(rule: StoreRule, page: u64, counts: &mut Counts)
    requires { page < length counts.old.counts }
    ensures { counts.new ≡ counts_after rule page counts.old }
{
    match rule {
        StoreRule::ToFrame | StoreRule::ToBuffer | StoreRule::ToNvm => counts.count(page),
        StoreRule::PendingFirst => {}
    }
}

/// How a store by a rule ends.
fn answer(rule: StoreRule) -> Stored
    ensures { result ≡ answer_of rule }
{
    match rule {
        StoreRule::ToFrame | StoreRule::ToBuffer | StoreRule::ToNvm => Stored::Done,
        StoreRule::PendingFirst => Stored::CopyFirst,
    }
}

impl Control {
    ghost use Rattle.thy_block.specs.Device.{Device};
    ghost use Rattle.thy_control.specs.CheckpointTables.{tables0};
    ghost use Rattle.thy_control.specs.Frees.{HasNoWork};
    ghost use Rattle.thy_control.specs.Holding.{promoted};
    ghost use Rattle.thy_control.specs.Overlay.{overlaid, IsOverlaid, IsPromoting};
    ghost use Rattle.thy_control.specs.Seal.{is_few, sealed_state, IsBareState, Seals};
    ghost use Rattle.thy_control.specs.Commit.{committed_state, Commits, CommitsTables, CommitsTargets};
    ghost use Rattle.thy_control.specs.Stays.{AreCopied};
    ghost use Rattle.thy_control.specs.Rules.{rule_for, devices_after, state_after, IsWholeState, StoresFree, FailsStore};
    ghost use Rattle.thy_control.specs.State.{AreSoundTables, IsSized, cell_of, penult_of, work_of, reads, new_state};
    ghost use Rattle.thy_control.specs.Stays.{HoldAll, Stays};
    ghost use Rattle.thy_control.specs.Versions.{KeepsCheckpoints, KeepsCommitted, PutsWork};

    /// The controller of a machine whose power has come on, over a DRAM of the geometry's size. Both tables are empty. Fails if memory runs
    /// out; then the DRAM is given up.
    pub fn new(alloc: Global, geometry: &Geometry, dram: Dram) -> Result<Control, AllocError>
        requires { length dram.blocks ≡ dram_blocks geometry.now }
        ensures { IfOk result (λ control. control ≡ new_state geometry.now dram) }
    {
        let numbers = geometry.numbers();
        let btt = Table::new(alloc, numbers.btt, geometry.memory_blocks())?;
        let ptt = Table::new(alloc, numbers.ptt, numbers.pages)?;
        let counts = Counts::new(alloc, numbers.pages, numbers.high, numbers.low)?;
        let cursors = Cursors::start();
        new_cells_are_sound();
        Ok(Control {
            geometry: *geometry,
            btt,
            ptt,
            counts,
            under_way: false,
            dram,
            marks: WorkCounts {
                overlaid: 0,
                promoted: 0,
            },
            cursors,
        })
    }

    /// Recalls that the tables are sound and that the sizes fit. The call does nothing.
    pub fn recall_tables(&self)
        ensures { AreSoundTables self.now }
    {
        let _under_way = &self.under_way;
    }

    /// Whether a checkpoint is under way: an epoch was sealed, and its checkpoint is not committed.
    pub fn under_way(&self) -> bool
        ensures { result ≡ self.now.under_way }
    {
        self.under_way
    }

    /// How many entries of the block table list no block.
    pub fn free(&self) -> u64
        ensures { result ≡ free_count self.now.btt }
    {
        self.btt.free()
    }

    /// Whether some block has work in a buffer over the frame of its page.
    pub fn overlay(&self) -> bool
        ensures overlay { result ≡ nat_lt 0 (overlaid self.now.ptt self.now.btt) }
        ensures some { result ≡ true → IsOverlaid self.now }
        ensures none { result ≡ false → IsBareState self.now }
    {
        self.marks.overlaid > 0
    }

    /// Whether a page is being promoted.
    pub fn promoting(&self) -> bool
        ensures promoting { result ≡ nat_lt 0 (promoted self.now.ptt) }
        ensures some { result ≡ true → IsPromoting self.now }
        ensures none { result ≡ false → IsWholeState self.now }
    {
        self.marks.promoted > 0
    }

    /// A block as both tables have it.
    fn cell(&self, b: u64) -> Cell
        ensures { result ≡ cell_of self.now b }
    {
        let (i, entry) = block_entry(&self.btt, b);
        let (j, page) = page_entry(&self.ptt, page_of(b));
        Cell { i, entry, j, page }
    }

    /// The block at a place of either device.
    fn read<N: Nvm>(&self, place: Place, nvm: &mut N) -> Result<Block, NvmError>
        requires place { IsPlace self.now.p place }
        requires sized { IsSized self.now (N.device nvm.old) }
        requires up { (N.device nvm.old).down ≡ false }
        ensures ok { IfOk result (λ block. block ≡ reads self.now (N.device nvm.old) place) }
        ensures same { OnOk result (N.device nvm.new ≡ N.device nvm.old) }
        ensures err { OnErr result (HasFailed (N.device nvm.old) (N.device nvm.new)) }
        ensures side { OnErr result (in_dram place ≡ false) }
        ensures frame { IsFramed (N.device nvm.old) (N.device nvm.new) }
        ensures cause { CountsFault result (N.device nvm.old).faults (N.device nvm.new).faults }
    {
        read_place(place, &self.geometry, nvm, &self.dram)
    }

    /// Reads block `b` as the committed checkpoint has it. Nothing changes if it succeeds.
    pub fn committed<N: Nvm>(&self, b: u64, nvm: &mut N) -> Result<Block, NvmError>
        requires block { b < memory_blocks self.now.p }
        requires sized { IsSized self.now (N.device nvm.old) }
        requires up { (N.device nvm.old).down ≡ false }
        ensures ok { IfOk result (λ block. block ≡ penult_of self.now (N.device nvm.old) b) }
        ensures same { OnOk result (N.device nvm.new ≡ N.device nvm.old) }
        ensures stays { Stays self.now (N.device nvm.old) self.now (N.device nvm.new) }
        ensures err { OnErr result (HasFailed (N.device nvm.old) (N.device nvm.new)) }
        ensures frame { IsFramed (N.device nvm.old) (N.device nvm.new) }
        ensures cause { CountsFault result (N.device nvm.old).faults (N.device nvm.new).faults }
    {
        let cell = self.cell(b);
        self.recall_tables();
        self.read(cell.penult(), nvm)
    }

    /// Reads block `b` as it was stored last. Nothing changes if it succeeds. It fails only if that block is in the NVM.
    pub fn load<N: Nvm>(&self, b: u64, nvm: &mut N) -> Result<Block, NvmError>
        requires block { b < memory_blocks self.now.p }
        requires sized { IsSized self.now (N.device nvm.old) }
        requires up { (N.device nvm.old).down ≡ false }
        ensures ok { IfOk result (λ block. block ≡ work_of self.now (N.device nvm.old) b) }
        ensures same { OnOk result (N.device nvm.new ≡ N.device nvm.old) }
        ensures stays { Stays self.now (N.device nvm.old) self.now (N.device nvm.new) }
        ensures err { OnErr result (HasFailed (N.device nvm.old) (N.device nvm.new)) }
        ensures side { OnErr result (in_dram (work_place (cell_of self.now b)) ≡ false) }
        ensures frame { IsFramed (N.device nvm.old) (N.device nvm.new) }
        ensures cause { CountsFault result (N.device nvm.old).faults (N.device nvm.new).faults }
    {
        let cell = self.cell(b);
        self.recall_tables();
        self.read(cell.work(), nvm)
    }

    /// Stores block `b`, or makes the copy that has to come first: one write at one place. Both checkpoints of every
    /// block stay. If the NVM failed, the tables are as they were, and the place, which no checkpoint has, may
    /// hold the block or not.
    pub fn store<N: Nvm>(&mut self, b: u64, block: &Block, nvm: &mut N) -> Result<Stored, NvmError>
        requires block { b < memory_blocks self.old.p }
        requires sized { IsSized self.old (N.device nvm.old) }
        requires up { (N.device nvm.old).down ≡ false }
        requires room { 0 < free_count self.old.btt }
        requires whole { IsWholeState self.old }
        ensures answer { IfOk result (λ stored. stored ≡ answer_of (rule_for b self.old)) }

        // A load of the block gives what was stored, and of every other what it gave.
        ensures work { IfOk result (λ stored. PutsWork stored b block.now self.old (N.device nvm.old) self.new (N.device nvm.new)) }
        ensures keeps { OnOk result (KeepsCheckpoints self.old (N.device nvm.old) self.new (N.device nvm.new)) }

        // Tables and devices are those of the definition: these tables and this one write.
        ensures state { OnOk result (self.new ≡ state_after b block.now self.old (N.device nvm.old)) }
        ensures nvm { OnOk result (N.device nvm.new ≡ (devices_after b block.now self.old (N.device nvm.old)).nvm) }

        // The place that is written is none that a checkpoint has.
        ensures free { StoresFree b self.old }

        // The frames and targets hold what they have to, if they did.
        ensures holds { OnOk result (HoldAll self.old (N.device nvm.old) → HoldAll self.new (N.device nvm.new)) }

        // Whether or not it failed, nothing new is possible at the checkpoints' places, and both tables are as they were.
        ensures stays { Stays self.old (N.device nvm.old) self.new (N.device nvm.new) }

        ensures kept { OnErr result (self.new ≡ self.old) }
        ensures err { OnErr result (FailsStore b block.now self.old (N.device nvm.old) (N.device nvm.new)) }
        ensures frame { IsFramed (N.device nvm.old) (N.device nvm.new) }
        ensures cause { CountsFault result (N.device nvm.old).faults (N.device nvm.new).faults }
    {
        a_store_is_read();
        a_store_goes_elsewhere();
        a_store_leaves_the_target();
        a_store_leaves_what_has_to_stand();
        self.recall_tables();
        self.put(b, block, nvm)
    }

    /// Seals the epoch: what the program stored since the last seal goes to the checkpoint that begins. No checkpoint
    /// may be under way, no page in promotion, and no work in a buffer over a frame. Writes to no device.
    pub fn seal(&mut self)
        requires idle { self.old.under_way ≡ false }
        requires whole { IsWholeState self.old }
        requires bare { IsBareState self.old }
        ensures state { self.new ≡ sealed_state self.old }

        // The last version of each block is what a load gave, and gives; the committed one stays.
        ensures versions { (n : Device) → HoldAll self.old n → Seals self.old self.new n }
        ensures committed { (n : Device) → KeepsCommitted self.old n self.new n }
        ensures tables { tables0 self.new ≡ tables0 self.old }

        // No work is left, and as many entries are free.
        ensures idle { HasNoWork self.new }
        ensures free { free_count self.new.btt ≡ free_count self.old.btt }
    {
        a_seal_keeps_entries_sound();
        a_seal_takes_the_work();
        a_seal_leaves_no_work();
        a_listing_keeps_versions();
        self.recall_tables();
        // the steps of a seal in docs/CONTROLLER.md: step 1
        let few = self.has_few();
        seal_blocks(&mut self.btt, &self.ptt, few);
        // steps 2 and 3
        seal_pages(&mut self.ptt, &self.counts);
        // step 4
        self.counts.reset();
        // step 5
        self.under_way = true;
        self.marks = WorkCounts::of(&self.btt, &self.ptt);
        self.cursors = Cursors::start();
    }

    /// Whether under half of the block table's entries are free.
    fn has_few(&self) -> bool
        ensures { result ≡ is_few self.now }
    {
        2 * self.btt.free() < self.btt.size() as u64
    }

    /// Commits the checkpoint under way: it becomes the committed one. One must be under way, with every copy made
    /// and every page written. Writes to no device.
    pub fn commit(&mut self)
        requires way { self.old.under_way ≡ true }
        requires copied { AreCopied self.old }
        ensures state { self.new ≡ committed_state self.old }

        // The committed version of each block is what was the last one; that and what a load gives stay.
        ensures versions { (n : Device) → HoldAll self.old n → Commits self.old self.new n }
        ensures targets { (n : Device) → CommitsTargets self.old self.new n }
        ensures tables { CommitsTables self.old self.new }

        // There is no new work, and not fewer entries are free.
        ensures idle { HasNoWork self.old → HasNoWork self.new }
        ensures free { free_count self.old.btt ≤ free_count self.new.btt }
    {
        a_commit_keeps_entries_sound();
        a_commit_takes_the_last();
        self.recall_tables();
        self.btt.map_entries(&CommitBlocks);
        self.ptt.map_entries(&CommitPages);
        self.under_way = false;
        self.marks = WorkCounts::of(&self.btt, &self.ptt);
        self.cursors = Cursors::start();
    }

    /// Stores block `b` by its rule, or makes the copy that has to come first: one write at one place.
    fn put<N: Nvm>(&mut self, b: u64, block: &Block, nvm: &mut N) -> Result<Stored, NvmError>
        requires block { b < memory_blocks self.old.p }
        requires sized { IsSized self.old (N.device nvm.old) }
        requires up { (N.device nvm.old).down ≡ false }
        requires room { 0 < free_count self.old.btt }
        requires whole { IsWholeState self.old }
        ensures state { OnOk result (self.new ≡ state_after b block.now self.old (N.device nvm.old)) }
        ensures nvm { OnOk result (N.device nvm.new ≡ (devices_after b block.now self.old (N.device nvm.old)).nvm) }
        ensures answer { IfOk result (λ stored. stored ≡ answer_of (rule_for b self.old)) }
        ensures kept { OnErr result (self.new ≡ self.old) }
        ensures err { OnErr result (FailsStore b block.now self.old (N.device nvm.old) (N.device nvm.new)) }
        ensures frame { IsFramed (N.device nvm.old) (N.device nvm.new) }
        ensures cause { CountsFault result (N.device nvm.old).faults (N.device nvm.new).faults }
    {
        self.recall_tables();
        let found = self.cell(b);
        let rule = found.store_rule();
        let i = place_for_rule(&self.btt, b, found.i, rule);
        let cell = Cell { i, ..found };
        let put = block_to_put(rule, &cell, block, &self.geometry, &self.dram);
        write_place(
            cell.store_place(rule),
            &put,
            &self.geometry,
            nvm,
            &mut self.dram,
        )?;
        add_for_rule(&mut self.btt, b, rule);
        set_cell(rule, &cell.after(rule), &mut self.btt, &mut self.ptt);
        self.btt.recall_lists_once();
        self.ptt.recall_lists_once();
        count_store(rule, b / PAGE_BLOCKS, &mut self.counts);
        self.marks = self.marks.after(rule, &cell);
        self.cursors = self.cursors.lowered(rule, &cell);
        Ok(answer(rule))
    }
}
