//! Images of the two schemes without tables of versions: of the redo journal (`journal`) and of shadow paging (`shadow`). Each
//! module has the places of its images, what an image means, and what of a checkpoint was written. A record of a layout
//! speaks for each, `JournalImages` and `ShadowImages`, by which files and devices are read.
//!
//! Open src/journal.rt or src/shadow.rt first. It depends on thy_block, thy_isa, thy_layout and thy_computer;
//! thy_journal_parts, thy_shadow_parts and thy_outcome depend on it.
#![tactic(auto)]

pub mod journal;
pub mod shadow;
