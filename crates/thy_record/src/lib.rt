//! Images of the scheme thynvm: checkpoints of layout version 2, and images of version 1. What every layout has is in
//! thy_layout; here are this layout's own header, tables, counts and slots, images in files, and laws of which writes leave a
//! checkpoint alone. Callers rely on `check` and `state`, exactly what the bytes of a file mean, and on `written_decodes` and
//! `decoded_has_tables`: what was written decodes, and what decodes has tables that a checkpoint may have.
//!
//! Open specs/ThynvmLayouts.antt first, then specs/Images.antt, specs/Slots.antt and src/images.rt. It depends on thy_layout,
//! thy_table, thy_computer and their dependencies; thy_control, thy_thynvm_parts and thy_outcome depend on it.
#![tactic(auto)]

mod header;
mod images;
mod index;
mod laws;
mod slot;
mod table_faults;
mod version_slots;

pub use header::{header_block, header_fault, version_of};
pub use images::{ThynvmImages, check, state};
pub use laws::{
    a_migration_decodes, a_slot_anew_means_the_same, decoded_has_tables, each_block_has_its_place,
    faultless_tables, free_is_not_looked_at, memory_is_read_at_its_places,
    refusals_name_the_first_entries, slot_reads_back, tables_read_back, thynvm_layouts_are_issued,
    unused_places, written_decodes,
};
pub use slot::{btt_in, head_fault, listed_block, listed_count, listed_page, slot_fault};
pub use thy_layout::{
    BadImage, EngineStep, Found, Start, commit_block, commit_fault, cpu_block, cpu_in, is_zero,
};
pub use version_slots::{slot_blocks_of, slot_of};
