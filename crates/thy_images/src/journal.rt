//! Images of the redo journal: the places of an image, what it means, and what of a checkpoint was written. A checkpoint has
//! each block of memory at home or, if its table lists the block, in the journal of its slot. Callers rely on
//! `a_checkpoint_is_issued`, `free_is_not_looked_at`, and `JournalImages`, by which files and devices are read.
//!
//! Open specs/JournalPlaces.antt first, then specs/JournalSlots.antt and specs/JournalLayout.antt, and src/journal/laws.rt.
mod images;
mod index;
mod laws;
mod places;
mod slot_faults;

pub use images::JournalImages;
pub use laws::{
    a_checkpoint_is_issued, a_slot_reads_back, free_is_not_looked_at,
    refusals_name_the_first_entries,
};
pub use places::{SCHEME, blocks, header_block, home, journal, slot, slot_blocks};
pub use slot_faults::{listed_block, slot_fault};
