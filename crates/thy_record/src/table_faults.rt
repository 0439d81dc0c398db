//! The faults of tables, over the bytes of each, eight an entry.
ghost use Rattle.std.specs.Prelude.{◌≡◌, ◌/◌};
ghost use Rattle.thy_layout.specs.Files.{table_in};
ghost use Rattle.thy_layout.specs.EntryFaults.{first_clash};
ghost use Rattle.thy_record.specs.TableFaults.{under_rule, tables_fault as fault_of_tables};

use thy_block::{Geometry, PAGE_BLOCKS};
use thy_layout::{BadImage, entry, entry_of, index_fault, twice_fault};

// The first entry of the block table that lists a block of a page that the page table lists.
fn under_fault(btt: &[u8], ptt: &[u8]) -> Option<BadImage>
    ensures { result ≡ first_clash (under_rule (table_in ptt.now)) 0 (table_in btt.now) }
{
    for i in 0..btt.len() / 8 {
        if let Some(block) = entry(btt, i)
            && let Some(j) = entry_of(ptt, block / PAGE_BLOCKS)
        {
            return Some(BadImage::BlockUnderPage(i as u64, j as u64));
        }
    }
    None
}

/// The first fault of the tables with these bytes, if they have one.
#[tactic(auto, unfolding(crate::specs::TableFaults::tables_fault))]
pub(crate) fn tables_fault(btt: &[u8], ptt: &[u8], geometry: &Geometry) -> Option<BadImage>
    ensures { result
        ≡ fault_of_tables geometry.now (record { btt = table_in btt.now; ptt = table_in ptt.now }) }
{
    let p = geometry.numbers();
    let index = index_fault(btt, 0, geometry.memory_blocks()).or(index_fault(ptt, p.btt, p.pages));
    let twice = twice_fault(btt, 0).or(twice_fault(ptt, p.btt));
    index.or(twice.or(under_fault(btt, ptt)))
}
