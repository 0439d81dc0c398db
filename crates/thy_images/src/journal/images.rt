//! The layout of the journal's images.
use crate::journal::index::places;
use crate::journal::places::{SCHEME, blocks, slot as first_of_slot, slot_blocks};
use crate::journal::slot_faults::slot_fault;
use std::alloc::{AllocError, Global};
use thy_block::{Block, Geometry};
use thy_layout::{BadImage, ImageLayout, epoch_in, slot_of_epoch};

/// Images of the journal: a slot has one table, which lists the blocks of memory in the slot's journal.
#[derive(Drop)]
pub struct JournalImages;

impl ImageLayout for JournalImages {
    ghost use Rattle.thy_images.specs.JournalLayout.{journal_layouts};

    ghost layouts = { journal_layouts };

    fn scheme(geometry: &Geometry) -> u64 {
        SCHEME
    }

    fn blocks(geometry: &Geometry) -> u64 {
        blocks(geometry)
    }

    fn older_blocks(geometry: &Geometry, commit: &Block) -> Option<u64> {
        None
    }

    fn most_slot(geometry: &Geometry) -> u64 {
        slot_blocks(geometry)
    }

    fn slot_place(geometry: &Geometry, commit: &Block) -> u64 {
        first_of_slot(geometry, slot_of_epoch(epoch_in(commit)))
    }

    fn slot_blocks(geometry: &Geometry, commit: &Block) -> u64 {
        slot_blocks(geometry)
    }

    fn slot_fault(
        geometry: &Geometry,
        commit: &Block,
        slot: &[u8],
        ceiling: u64,
    ) -> Option<BadImage> {
        slot_fault(slot, epoch_in(commit), geometry, ceiling)
    }

    fn memory_places(
        alloc: Global,
        geometry: &Geometry,
        commit: &Block,
        slot: &[u8],
    ) -> Result<Vec<u64>, AllocError> {
        places(alloc, slot, slot_of_epoch(epoch_in(commit)), geometry)
    }

    fn recall_laws() {}
}
