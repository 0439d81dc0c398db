//! Tables of blocks and pages, and the rules of the scheme thynvm. `Table` is one generic table whose entries
//! each list a number, none twice; the block table (BTT) and the page table (PTT) are two of it. `Counts` has the store
//! counts of pages, of this epoch and of the last one, up to 63. A `Place` of the NVM or the DRAM has a number in its
//! device (`number`), and no two have the same; a written place reads as its block, and every other as before
//! (`write_place`, `read_place`).
//!
//! A `Cell` is a block as both tables have it, with the places of its versions. Callers depend on `Cell::store_rule`
//! and the laws of src/cell_laws.rt: a store writes no place of either checkpoint, a seal makes the work the last
//! version, a commit makes the last version the committed one, and nothing else moves a version.
//!
//! Open specs/Listing.antt first, and src/table.rt; then specs/Counts.antt, specs/Places.antt and specs/Devices.antt;
//! then specs/Cells.antt, specs/Sound.antt and src/cell.rt. It depends on thy_block and thy_dram; thy_record,
//! thy_control and what else lists blocks or pages depend on it.
#![tactic(auto)]

mod between_checkpoints;
mod block_entry;
mod cell;
mod cell_laws;
mod checkpoint;
mod counts;
mod keyed;
mod move_laws;
mod moves;
mod page_entry;
mod place;
mod place_laws;
mod places;
mod rules;
mod table;

pub use block_entry::{BttEntry, Pending, Version, Working};
pub use cell::{Cell, StoreRule};
pub use cell_laws::{
    a_commit_keeps_entries_sound, a_commit_takes_the_last, a_copy_keeps_versions,
    a_dirty_page_keeps_others, a_frame_is_loaded, a_listing_keeps_versions, a_merge_keeps_versions,
    a_page_write_keeps_others, a_page_write_keeps_versions, a_promotion_keeps_others,
    a_promotion_keeps_versions, a_seal_keeps_entries_sound, a_seal_leaves_no_work,
    a_seal_takes_the_work, a_store_goes_elsewhere, a_store_is_read, a_store_keeps_entries_sound,
    a_store_keeps_places, a_store_leaves_the_target, a_store_leaves_what_has_to_stand,
    listed_cells_are_sound, new_cells_are_sound, others_keep_versions,
};
pub use checkpoint::{committed_entry, committed_page, sealed_entry, sealed_page};
pub use counts::{Counts, MOST};
pub use keyed::Keyed;
pub use move_laws::{
    landing_moves_nothing, others_hold_no_more, others_hold_no_more_on_failure,
    others_read_as_before, writes_are_read, writes_keep_sizes,
};
pub use moves::{held_at, is_in_dram, read_place, write_place};
pub use page_entry::{PttEntry, Site, WHOLE_PAGE};
pub use place::Place;
pub use place_laws::{
    numbers_name_places, places_are_between_slots, places_are_in_dram, slots_are_apart,
};
pub use places::{
    blocks, blocks_one, count_blocks, home, number, slot, slot_blocks, slot_blocks_one, slot_one,
    table_blocks,
};
pub use rules::{Rule, Test};
pub use table::Table;

/// The block translation table.
pub type Btt = Table<BttEntry>;

/// The page translation table.
pub type Ptt = Table<PttEntry>;
