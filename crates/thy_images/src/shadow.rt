//! Images of shadow paging: the places of an image, what it means, and what of a checkpoint was written. A checkpoint has
//! each page of memory in the page of a pool that its map lists. Callers rely on `a_checkpoint_is_issued`,
//! `free_is_not_looked_at`, `listed_page` over the bytes of a slot, and `ShadowImages`, by which files and devices are read.
//!
//! Open specs/ShadowPlaces.antt first, then specs/ShadowSlots.antt and specs/ShadowLayout.antt, and src/shadow/laws.rt.
mod images;
mod index;
mod laws;
mod map;
mod places;
mod slot_faults;

pub use images::ShadowImages;
pub use laws::{
    a_checkpoint_is_issued, a_slot_reads_back, free_is_not_looked_at,
    refusals_name_the_first_entries,
};
pub use map::listed_page;
pub use places::{SCHEME, blocks, header_block, map_blocks, pool, pool_pages, slot, slot_blocks};
pub use slot_faults::slot_fault;
