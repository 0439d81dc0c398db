//! The check of an image that stands in a file, and the state of its checkpoint.
ghost use Rattle.std.specs.Prelude.{◌≡◌, IfOk};
ghost use Rattle.thy_isa.specs.Step.{state_of};
ghost use Rattle.thy_layout.specs.Files.{found_in, HasCheckpointOf, HasState};
ghost use Rattle.thy_outcome.specs.Meaning.{own_layout, decode_bytes};

use std::alloc::{AllocError, Global};
use thy_block::{Geometry, SchemeName};
use thy_images::journal::JournalImages;
use thy_images::shadow::ShadowImages;
use thy_isa::MachState;
use thy_layout::{BadImage, Found, check_image, state_of_image};
use thy_record::ThynvmImages;

/// What the bytes of a file have for a geometry: nothing, a refusal, or the checkpoint of an epoch. They have nothing
/// if there are at least 128 of them and the commit block is all zero. A refusal is the first one that the scheme has.
/// Epochs and counts have to be below the ceiling.
pub fn check(image: &[u8], geometry: &Geometry, ceiling: u64) -> Result<Found, BadImage>
    ensures { result ≡ found_in (decode_bytes geometry.now ceiling image.now) }
{
    match geometry.numbers().scheme {
        SchemeName::Thynvm => check_image::<ThynvmImages>(image, geometry, ceiling),
        SchemeName::Journal => check_image::<JournalImages>(image, geometry, ceiling),
        SchemeName::Shadow => check_image::<ShadowImages>(image, geometry, ceiling),
    }
}

/// The state of the checkpoint in the bytes of a file. A `check` of these bytes has found one.
pub fn state(alloc: Global, image: &[u8], geometry: &Geometry) -> Result<MachState, AllocError>
    requires { HasCheckpointOf (own_layout geometry.now) image.now }
    ensures { IfOk result (λ m. HasState (own_layout geometry.now) image.now (state_of m)) }
{
    match geometry.numbers().scheme {
        SchemeName::Thynvm => state_of_image::<ThynvmImages>(alloc, image, geometry),
        SchemeName::Journal => state_of_image::<JournalImages>(alloc, image, geometry),
        SchemeName::Shadow => state_of_image::<ShadowImages>(alloc, image, geometry),
    }
}
