//! What a seal and a commit make of the tables.
ghost use Rattle.std.specs.Prelude.{◌≡◌, ◌<◌, ◌≤◌, ◌+◌, length, option_and_then};
ghost use Rattle.thy_table.specs.Listing.{entry_at, with_entry, mapped};
ghost use Rattle.thy_table.specs.PageEntry.{promoted_page};
ghost use Rattle.thy_table.specs.Checkpoint.{committed_entry, committed_page};
ghost use Rattle.thy_control.specs.Find.{with_entry_for};
ghost use Rattle.thy_control.specs.Keys.{page_key};
ghost use Rattle.thy_control.specs.Seal.{block_is_framed, sealed_in, sealed_as_counted, dense_below, with_pages, with_dense, sealed_ptt, ListsDense};

use thy_block::{BLOCK_COUNTS, page_of};
use thy_table::{
    Btt, BttEntry, Counts, Ptt, PttEntry, Rule, committed_entry, committed_page, sealed_entry,
    sealed_page,
};

/// Whether the page of block `b` is framed by this page table.
pub fn block_is_framed(ptt: &Ptt, b: u64) -> bool
    ensures { result ≡ block_is_framed ptt.now b }
{
    match ptt.find(page_of(b)) {
        Some(j) => match ptt.entry(j) {
            Some(page) => page.is_framed(),
            None => false,
        },
        None => false,
    }
}

/// Step 1 of a seal in docs/CONTROLLER.md: seals every entry of the block table, by whether few of them are free, and by the
/// page table.
pub fn seal_blocks(btt: &mut Btt, ptt: &Ptt, few: bool)
    ensures { btt.new ≡ mapped (sealed_in few ptt.now) btt.old }
{
    let end = btt.live_end();
    for i in 0..end {
        seal_block(btt, i, ptt, few);
    }
}

/// Seals one entry of the block table, if it is live.
fn seal_block(btt: &mut Btt, i: usize, ptt: &Ptt, few: bool)
    requires { i < length btt.old.entries }
    ensures { btt.new ≡ with_entry i (option_and_then (sealed_in few ptt.now) (entry_at btt.old i)) btt.old }
{
    if let Some(entry) = btt.entry(i) {
        let framed = block_is_framed(ptt, entry.block);
        btt.set(i, sealed_entry(&entry, framed, few));
    }
}

/// Seals every entry of the page table by the counts, and then lists the pages that are to be promoted.
pub fn seal_pages(ptt: &mut Ptt, counts: &Counts)
    requires { ptt.old.numbers ≡ length counts.now.counts }
    ensures { ptt.new ≡ sealed_ptt counts.now ptt.old }
{
    seal_listed(ptt, counts);
    list_dense(ptt, counts);
}

/// Step 2 of a seal: seals every entry of the page table.
fn seal_listed(ptt: &mut Ptt, counts: &Counts)
    requires { ptt.old.numbers ≡ length counts.now.counts }
    ensures { ptt.new ≡ mapped (sealed_as_counted counts.now) ptt.old }
{
    let end = ptt.live_end();
    for j in 0..end {
        seal_page(ptt, j, counts);
    }
}

/// Seals one entry of the page table, if it is live.
fn seal_page(ptt: &mut Ptt, j: usize, counts: &Counts)
    requires inside { j < length ptt.old.entries }
    requires counted { ptt.old.numbers ≡ length counts.now.counts }
    ensures { ptt.new ≡ with_entry j (option_and_then (sealed_as_counted counts.now) (entry_at ptt.old j)) ptt.old }
{
    if let Some(entry) = ptt.entry(j) {
        ptt.recall_lists_once();
        match sealed_page(&entry, counts.is_low(entry.page)) {
            Some(next) => ptt.set(j, next),
            None => ptt.clear(j),
        }
    }
}

/// Step 3 of a seal: lists each page that was stored to densely and is not yet listed, by rising number, while entries are
/// free.
fn list_dense(ptt: &mut Ptt, counts: &Counts)
    requires { ptt.old.numbers ≡ length counts.now.counts }
    ensures { ptt.new ≡ with_pages (dense_below counts.now (length counts.now.counts)) ptt.old }
{
    let pages = counts.pages();
    for k in 0..pages / BLOCK_COUNTS {
        list_dense_of(
            ptt,
            BLOCK_COUNTS * k,
            BLOCK_COUNTS * k + BLOCK_COUNTS,
            counts,
        );
    }
    list_dense_of(ptt, pages / BLOCK_COUNTS * BLOCK_COUNTS, pages, counts);
}

/// Lists the dense ones of the pages from one to before another.
fn list_dense_of(ptt: &mut Ptt, first: u64, end: u64, counts: &Counts)
    requires order { first ≤ end }
    requires inside { end ≤ length counts.now.counts }
    requires numbers { ptt.old.numbers ≡ length counts.now.counts }
    ensures numbers { ptt.new.numbers ≡ ptt.old.numbers }
    ensures lists { ListsDense counts.now first end ptt.old ptt.new }
{
    if !counts.are_sparse(first, end) {
        list_each_dense(ptt, first, end, counts);
    }
}

/// Lists the dense ones of the pages from one to before another, page by page.
fn list_each_dense(ptt: &mut Ptt, first: u64, end: u64, counts: &Counts)
    requires order { first ≤ end }
    requires inside { end ≤ length counts.now.counts }
    requires numbers { ptt.old.numbers ≡ length counts.now.counts }
    ensures numbers { ptt.new.numbers ≡ ptt.old.numbers }
    ensures lists { ListsDense counts.now first end ptt.old ptt.new }
{
    for page in first..end {
        list_if_dense(ptt, page, counts);
    }
}

/// Lists a page if it was stored to densely.
fn list_if_dense(ptt: &mut Ptt, page: u64, counts: &Counts)
    requires counted { page < length counts.now.counts }
    requires number { page < ptt.old.numbers }
    ensures { ptt.new ≡ with_dense counts.now page ptt.old }
{
    if counts.is_dense(page) {
        list_page(ptt, page);
    }
}

/// Lists a page that is to be promoted, if it is not listed and an entry is free.
fn list_page(ptt: &mut Ptt, page: u64)
    requires { page < ptt.old.numbers }
    ensures { ptt.new ≡ with_entry_for page_key promoted_page page ptt.old }
{
    match ptt.find(page) {
        Some(_) => {}
        None => {
            ptt.add(PttEntry::promoted(page));
        }
    }
}

/// A commit of the block table's entries.
#[derive(Drop)]
pub struct CommitBlocks;

impl Rule<BttEntry> for CommitBlocks {
    ghost use Rattle.thy_table.specs.Checkpoint.{committed_entry};
    ghost use Rattle.thy_control.specs.CommitKeys.{committed_entry-block};

    ghost gives = { λ rule e. committed_entry e };

    fn apply(&self, entry: &BttEntry) -> Option<BttEntry> {
        committed_entry(entry)
    }

    ghost keeps_key = { λ rule e f h. committed_entry-block e f h };
}

/// A commit of the page table's entries.
#[derive(Drop)]
pub struct CommitPages;

impl Rule<PttEntry> for CommitPages {
    ghost use Rattle.thy_table.specs.Checkpoint.{committed_page};
    ghost use Rattle.thy_control.specs.CommitKeys.{committed_page-page};

    ghost gives = { λ rule e. committed_page e };

    fn apply(&self, entry: &PttEntry) -> Option<PttEntry> {
        committed_page(entry)
    }

    ghost keeps_key = { λ rule e f h. committed_page-page e f h };
}
