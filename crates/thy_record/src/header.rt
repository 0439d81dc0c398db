//! The header by this scheme's number, and the version of a slot.
ghost use Rattle.std.specs.Prelude.{◌≡◌};
ghost use Rattle.thy_layout.specs.Commit.{version_of as version_named};
ghost use Rattle.thy_layout.specs.Header.{header_of, header_fault as fault_of_header};
ghost use Rattle.thy_record.specs.Number.{scheme_number};

use crate::images::ThynvmImages;
use thy_block::{Block, Geometry};
use thy_layout::{BadImage, LayoutVersion, header_block_of, header_fault_in};

// The number of this scheme.
pub(crate) const SCHEME: u64 = 0;

/// The header of an image of this geometry.
pub fn header_block(geometry: &Geometry) -> Block
    ensures { result ≡ header_of scheme_number geometry.now }
{
    header_block_of(SCHEME, geometry)
}

/// The first fault of a header, if it has one: another name; a version that is not 2 and, with one hart, not 1 either;
/// another geometry, or another scheme's. `long` says whether the image has the number of blocks that the geometry asks
/// for; if it has not, that is another geometry.
pub fn header_fault(block: &Block, geometry: &Geometry, long: bool) -> Option<BadImage>
    ensures { result ≡ fault_of_header scheme_number block.now geometry.now long }
{
    header_fault_in::<ThynvmImages>(geometry, block, long)
}

/// The version of the slot that a commit block names; with two harts there is no slot of version 1.
pub fn version_of(block: &Block, geometry: &Geometry) -> LayoutVersion
    ensures { result ≡ version_named scheme_number geometry.now block.now }
{
    thy_layout::version_of(SCHEME, block, geometry)
}
