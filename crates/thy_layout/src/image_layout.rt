//! How a scheme lays out its images.
ghost use Rattle.std.specs.Prelude.{◌≡◌, ◌*◌, ◌<◌, length, IfOk};
ghost use Rattle.thy_layout.specs.AreLayouts.{AreLayouts, Fits};
ghost use Rattle.thy_layout.specs.Files.{blocks_of};
ghost use Rattle.thy_layout.specs.Layout.{Layouts, memory_places};

use crate::bad_image::BadImage;
use std::alloc::{AllocError, Global};
use thy_block::{Block, Geometry};

/// What a scheme says of its images: its number, how many blocks they have, where the slot of a commit block is, what a
/// fault of it is, and where memory is by a slot without a fault. Header, commit block and the processor's record are the
/// same for all schemes.
pub trait ImageLayout: Drop {
    /// The layout for each geometry.
    ghost layouts: { Layouts };

    /// The number of the scheme, which the header of its images has. It is below 256.
    fn scheme(geometry: &Geometry) -> u64
        ensures { result ≡ (layouts geometry.now).scheme };

    /// How many blocks an image has.
    fn blocks(geometry: &Geometry) -> u64
        ensures blocks { result ≡ (layouts geometry.now).image_blocks }
        ensures few { result < 4294967296 };

    /// How many blocks an image of an older form has, if the commit block names one.
    fn older_blocks(geometry: &Geometry, commit: &Block) -> Option<u64>
        ensures { result ≡ (layouts geometry.now).older_blocks commit.now };

    /// The most blocks that a slot has, below `2^32`.
    fn most_slot(geometry: &Geometry) -> u64
        ensures most { result ≡ (layouts geometry.now).most_slot }
        ensures few { result < 4294967296 };

    /// The first place, in blocks of the image, of the slot that a commit block names.
    fn slot_place(geometry: &Geometry, commit: &Block) -> u64
        ensures { result ≡ (layouts geometry.now).slot_place commit.now };

    /// How many blocks the slot has that a commit block names.
    fn slot_blocks(geometry: &Geometry, commit: &Block) -> u64
        ensures { result ≡ (layouts geometry.now).slot_blocks commit.now };

    /// The first fault of the slot that a commit block names, from the slot's bytes. Epochs and counts of instructions have to be below the
    /// ceiling.
    fn slot_fault(
        geometry: &Geometry,
        commit: &Block,
        slot: &[u8],
        ceiling: u64,
    ) -> Option<BadImage>
        requires { length slot.now ≡ 64 * (layouts geometry.now).slot_blocks commit.now }
        ensures { result ≡ (layouts geometry.now).slot_bad ceiling commit.now (blocks_of slot.now) };

    /// For each block of memory, by rising number, its place in the image, from the bytes of a slot without a fault. Fails if memory runs
    /// out.
    fn memory_places(
        alloc: Global,
        geometry: &Geometry,
        commit: &Block,
        slot: &[u8],
    ) -> Result<Vec<u64>, AllocError>
        requires slot { length slot.now ≡ 64 * (layouts geometry.now).slot_blocks commit.now }
        requires fits { Fits (layouts geometry.now) commit.now (blocks_of slot.now) }
        ensures { let l = layouts geometry.now in
            IfOk result (λ places. places.items ≡ memory_places l commit.now (blocks_of slot.now)) };

    /// Recalls the laws of layouts. The call does nothing.
    fn recall_laws()
        ensures { AreLayouts layouts };
}
