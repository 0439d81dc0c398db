//! The layout of this scheme's images, and what stands in files by it.
ghost use Rattle.std.specs.Prelude.{◌≡◌, IfOk};
ghost use Rattle.thy_isa.specs.Step.{state_of};
ghost use Rattle.thy_layout.specs.Files.{found_in, decode_file, HasCheckpointOf, HasState};
ghost use Rattle.thy_record.specs.ThynvmLayouts.{thynvm_layouts};

use crate::header::{SCHEME, version_of};
use crate::index::places;
use crate::slot::slot_fault;
use crate::version_slots::{slot_blocks_of, slot_of};
use std::alloc::{AllocError, Global};
use thy_block::{Block, Geometry};
use thy_isa::MachState;
use thy_layout::{
    BadImage, Found, ImageLayout, LayoutVersion, check_image, epoch_in, slot_of_epoch,
    state_of_image,
};
use thy_table::{blocks, blocks_one};

/// Images of both versions: the commit block names the version of its slot.
#[derive(Drop)]
pub struct ThynvmImages;

impl ImageLayout for ThynvmImages {
    ghost layouts = { thynvm_layouts };

    fn scheme(geometry: &Geometry) -> u64 {
        SCHEME
    }

    fn blocks(geometry: &Geometry) -> u64 {
        blocks(geometry)
    }

    fn older_blocks(geometry: &Geometry, commit: &Block) -> Option<u64> {
        match version_of(commit, geometry) {
            LayoutVersion::VersionOne => Some(blocks_one(geometry)),
            LayoutVersion::VersionTwo => None,
        }
    }

    fn most_slot(geometry: &Geometry) -> u64 {
        slot_blocks_of(geometry, LayoutVersion::VersionTwo)
    }

    fn slot_place(geometry: &Geometry, commit: &Block) -> u64 {
        slot_of(
            geometry,
            version_of(commit, geometry),
            slot_of_epoch(epoch_in(commit)),
        )
    }

    fn slot_blocks(geometry: &Geometry, commit: &Block) -> u64 {
        slot_blocks_of(geometry, version_of(commit, geometry))
    }

    fn slot_fault(
        geometry: &Geometry,
        commit: &Block,
        slot: &[u8],
        ceiling: u64,
    ) -> Option<BadImage> {
        let version = version_of(commit, geometry);
        slot_fault(slot, version, epoch_in(commit), geometry, ceiling)
    }

    fn memory_places(
        alloc: Global,
        geometry: &Geometry,
        commit: &Block,
        slot: &[u8],
    ) -> Result<Vec<u64>, AllocError> {
        places(alloc, slot, geometry)
    }

    fn recall_laws() {}
}

/// What the bytes of a file have for a geometry: nothing, if there are at least 128 of them and the commit block is
/// all zero; else the first of the refusals; else the checkpoint of an epoch. Epochs and counts have to be
/// below the ceiling.
pub fn check(image: &[u8], geometry: &Geometry, ceiling: u64) -> Result<Found, BadImage>
    ensures { result ≡ found_in (decode_file (thynvm_layouts geometry.now) ceiling image.now) }
{
    check_image::<ThynvmImages>(image, geometry, ceiling)
}

/// The state of the checkpoint in the bytes of a file, of which `check` has found one. Goes once over both tables. Fails if memory runs
/// out.
pub fn state(alloc: Global, image: &[u8], geometry: &Geometry) -> Result<MachState, AllocError>
    requires { HasCheckpointOf (thynvm_layouts geometry.now) image.now }
    ensures { IfOk result (λ m. HasState (thynvm_layouts geometry.now) image.now (state_of m)) }
{
    state_of_image::<ThynvmImages>(alloc, image, geometry)
}
