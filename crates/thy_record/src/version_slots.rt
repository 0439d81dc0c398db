//! The slots of both versions.
ghost use Rattle.std.specs.Prelude.{◌≡◌, ◌<◌};
ghost use Rattle.thy_block.specs.Geometry.{IsInRange};
ghost use Rattle.thy_record.specs.VersionSlots.{blocks_of_slot, place_of_slot};

use thy_block::Geometry;
use thy_layout::LayoutVersion;
use thy_table::{slot, slot_blocks, slot_blocks_one, slot_one};

/// How many blocks each of the two slots of a version has: in version 1 the record of one hart and both tables, whatever
/// the harts; in version 2 the processor's record, both tables, and the counts.
pub fn slot_blocks_of(geometry: &Geometry, version: LayoutVersion) -> u64
    ensures blocks { result ≡ blocks_of_slot version geometry.now }
    ensures in_range { IsInRange geometry.now }
{
    match version {
        LayoutVersion::VersionOne => slot_blocks_one(geometry),
        LayoutVersion::VersionTwo => slot_blocks(geometry),
    }
}

/// The place, in blocks of the image, of the first block of slot `s`, 0 or 1, of a version.
pub fn slot_of(geometry: &Geometry, version: LayoutVersion, s: u64) -> u64
    requires { s < 2 }
    ensures place { result ≡ place_of_slot version geometry.now s }
    ensures in_range { IsInRange geometry.now }
{
    match version {
        LayoutVersion::VersionOne => slot_one(geometry, s),
        LayoutVersion::VersionTwo => slot(geometry, s),
    }
}
