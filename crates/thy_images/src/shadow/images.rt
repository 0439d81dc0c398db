//! The layout of the images of shadow paging.
use crate::shadow::index::places;
use crate::shadow::places::{SCHEME, blocks, slot as first_of_slot, slot_blocks};
use crate::shadow::slot_faults::slot_fault;
use std::alloc::{AllocError, Global};
use thy_block::{Block, Geometry};
use thy_layout::{BadImage, ImageLayout, epoch_in, slot_of_epoch};

/// Images of shadow paging: a slot has a map, which lists the page of the pool that has each page of memory.
#[derive(Drop)]
pub struct ShadowImages;

impl ImageLayout for ShadowImages {
    ghost use Rattle.thy_images.specs.ShadowLayout.{shadow_layouts};

    ghost layouts = { shadow_layouts };

    fn scheme(geometry: &Geometry) -> u64 {
        SCHEME
    }

    fn blocks(geometry: &Geometry) -> u64 {
        blocks(geometry)
    }

    fn older_blocks(geometry: &Geometry, commit: &Block) -> Option<u64> {
        None
    }

    fn most_slot(geometry: &Geometry) -> u64 {
        slot_blocks(geometry)
    }

    fn slot_place(geometry: &Geometry, commit: &Block) -> u64 {
        first_of_slot(geometry, slot_of_epoch(epoch_in(commit)))
    }

    fn slot_blocks(geometry: &Geometry, commit: &Block) -> u64 {
        slot_blocks(geometry)
    }

    fn slot_fault(
        geometry: &Geometry,
        commit: &Block,
        slot: &[u8],
        ceiling: u64,
    ) -> Option<BadImage> {
        slot_fault(slot, epoch_in(commit), geometry, ceiling)
    }

    fn memory_places(
        alloc: Global,
        geometry: &Geometry,
        commit: &Block,
        slot: &[u8],
    ) -> Result<Vec<u64>, AllocError> {
        places(alloc, slot, geometry)
    }

    fn recall_laws() {}
}
