//! What every image has, whatever its layout, and what power cuts leave of it. An image has a header and a commit
//! block, by the number of the scheme, the processor's record, and entries of tables; a file may be refused. A layout
//! says where slot and memory are and what else a slot has; with it an image means a state or nothing.
//!
//! A checkpoint is a whole image, and which of its places determine what it means is a function of the image, a list.
//! The laws of src/crash_laws.rt say what each device call keeps of it and how the next image takes its place; a
//! controller must show that its other writes spare the guarded places, and that two commit blocks in a row differ in
//! one word. `a_cut_leaves_a_copy` is the first law.
//!
//! Open specs/Layout.antt first, then specs/Commit.antt, specs/Cpu.antt and specs/Saved.antt, and src/slot.rt. It
//! depends on thy_block and thy_isa; thy_text, thy_computer and what is above them depend on it.
#![tactic(auto)]

mod bad_image;
mod commit;
mod cpu;
mod crash_laws;
mod engine_step;
mod file_blocks;
mod found;
mod header;
mod image_layout;
mod laws;
mod layout_version;
mod reader;
mod restored;
mod slot;
mod start;
mod table_faults;
mod table_slot;
mod tables;

pub use bad_image::BadImage;
pub use commit::{commit_block, commit_fault, epoch_in, is_zero, slot_of_epoch, version_of};
pub use cpu::cpu_block;
pub use crash_laws::{
    a_barrier_ends_the_doubt, a_barrier_makes_ready, a_commit_leaves_doubt, a_cut_leaves_a_copy,
    blocks_are_written_in_turn, calls_spare, devices_may_say_nothing, one_word_is_not_torn,
    reads_stay, spared_stays, sparing_adds_up, what_is_left_is_kept, what_is_written_is_issued,
    whole_blocks_are_words,
};
pub use engine_step::EngineStep;
pub use file_blocks::block_in;
pub use found::Found;
pub use header::header_block_of;
pub use image_layout::ImageLayout;
pub use laws::{
    a_record_is_written_again, ceiling_grows, copies_mean_the_same, file_decodes,
    filled_up_decodes, header_and_commit_read_back, record_reads_back,
    version_one_is_refused_if_unknown, whole_images_decode,
};
pub use layout_version::LayoutVersion;
pub use reader::{check_image, header_fault_in, state_of_image};
pub use slot::{cpu_fault, cpu_in, record_size, second_fault, status_fault, word_in};
pub use start::Start;
pub use table_faults::{entry, entry_of, index_fault, twice_fault};
pub use table_slot::{fault_with_table, table_behind};
pub use tables::table_block;
