//! Work in buffers over the frames of pages, and pages in promotion: how many there are.
ghost use Rattle.std.specs.Prelude.{◌≡◌, ◌<◌, ◌≤◌, ◌+◌, ◌^◌, length};
ghost use Rattle.thy_table.specs.Listing.{entry_at, passes};
ghost use Rattle.thy_control.specs.Holding.{is_promoted, promoted};
ghost use Rattle.thy_control.specs.Overlay.{is_buffered, is_overlaid, overlaid, covers, AreWorkCounts};

use crate::seal::block_is_framed;
use thy_table::{Btt, Cell, Ptt, StoreRule, Working};

/// How many entries of each kind the tables have, so that one comparison shows whether there is any.
#[derive(Clone, Copy, Debug)]
pub struct WorkCounts {
    /// How many entries of the block table have work in a buffer over the frame of their page.
    pub overlaid: u64,
    /// How many pages are being promoted.
    pub promoted: u64,
}

impl WorkCounts {
    /// The numbers of two tables. Goes over all their live entries.
    pub fn of(btt: &Btt, ptt: &Ptt) -> WorkCounts
        ensures { AreWorkCounts ptt.now btt.now result }
    {
        WorkCounts {
            overlaid: count_overlaid(btt, ptt),
            promoted: count_promoted(ptt),
        }
    }

    /// The numbers after a store by this rule of a block that was such before.
    pub fn after(self, rule: StoreRule, cell: &Cell) -> WorkCounts
        requires { self.overlaid ≤ 2 ^ 32 }
        ensures overlaid { result.overlaid ≡ self.overlaid + covers rule cell.now }
        ensures promoted { result.promoted ≡ self.promoted }
    {
        match rule {
            StoreRule::ToBuffer if cell.page.is_framed() && !is_buffered(cell.entry.work) =>
                WorkCounts {
                    overlaid: self.overlaid + 1,
                    ..self
                },
            _ => self,
        }
    }
}

/// Whether work is held in a buffer.
fn is_buffered(work: Working) -> bool
    ensures { result ≡ is_buffered work }
{
    matches!(work, Working::InBuffer)
}

fn count_overlaid(btt: &Btt, ptt: &Ptt) -> u64
    ensures { result ≡ overlaid ptt.now btt.now }
{
    let mut count = 0;
    let end = btt.live_end();
    for i in 0..end {
        if is_overlaid(btt, i, ptt) {
            count += 1;
        }
    }
    count
}

fn is_overlaid(btt: &Btt, i: usize, ptt: &Ptt) -> bool
    requires { i < length btt.now.entries }
    ensures { result ≡ passes (is_overlaid ptt.now) (entry_at btt.now i) }
{
    match btt.entry(i) {
        Some(entry) => is_buffered(entry.work) && block_is_framed(ptt, entry.block),
        None => false,
    }
}

fn count_promoted(ptt: &Ptt) -> u64
    ensures { result ≡ promoted ptt.now }
{
    let mut count = 0;
    let end = ptt.live_end();
    for j in 0..end {
        if is_promoted(ptt, j) {
            count += 1;
        }
    }
    count
}

fn is_promoted(ptt: &Ptt, j: usize) -> bool
    requires { j < length ptt.now.entries }
    ensures { result ≡ passes is_promoted (entry_at ptt.now j) }
{
    match ptt.entry(j) {
        Some(page) => !page.is_framed() && page.fresh,
        None => false,
    }
}
