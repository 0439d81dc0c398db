//! The header, block 0 of an image.
ghost use Rattle.std.specs.Prelude.{◌≡◌, ◌<◌};
ghost use Rattle.thy_layout.specs.Header.{header_of, header_fault as fault_of_header, last_word as word_of_last, knows_version_one as knows_one, is_of_geometry as of_geometry, is_of_version as of_version};

use crate::bad_image::BadImage;
use thy_block::{Block, Geometry, block_with, word};

// The bytes `THYNHDR1`, with which a header begins, as a number.
const HEADER_MAGIC: u64 = 0x3152_4448_4e59_4854;

// The version of the layout that is written.
const VERSION: u64 = 2;

// The last word of a header: the number of the scheme, with two harts 256 more.
fn last_word(scheme: u64, geometry: &Geometry) -> u64
    requires { scheme < 256 }
    ensures { result ≡ word_of_last scheme geometry.now }
{
    scheme + 256 * (geometry.numbers().harts - 1)
}

// Whether images of version 1 are read: they have no scheme and one hart, so that their last word is 0.
pub(crate) fn knows_version_one(scheme: u64, geometry: &Geometry) -> bool
    requires { scheme < 256 }
    ensures { result ≡ knows_one scheme geometry.now }
{
    last_word(scheme, geometry) == 0
}

/// The header of an image of this geometry by the scheme of this number, which is below 256, in eight words. They are
/// its name, the version, base, pages, console, the sizes of both tables, and the scheme's number, with two harts 256
/// more.
pub fn header_block_of(scheme: u64, geometry: &Geometry) -> Block
    requires { scheme < 256 }
    ensures { result ≡ header_of scheme geometry.now }
{
    let p = geometry.numbers();
    block_with(&[
        HEADER_MAGIC,
        VERSION,
        p.base,
        p.pages,
        p.console,
        p.btt,
        p.ptt,
        last_word(scheme, geometry),
    ])
}

/// The first fault of a header for the scheme of this number, which is below 256, if it has one: another name; a
/// version that is not 2 and, by scheme 0 with one hart, not 1 either; another geometry. `long` says whether the image
/// has the number of blocks that the geometry asks for; if it has not, or is another scheme's, that is another
/// geometry.
#[tactic(auto, unfolding(crate::specs::Header::header_fault))]
pub(crate) fn header_fault_of(
    scheme: u64,
    block: &Block,
    geometry: &Geometry,
    long: bool,
) -> Option<BadImage>
    requires { scheme < 256 }
    ensures { result ≡ fault_of_header scheme block.now geometry.now long }
{
    if word(block, 0) != HEADER_MAGIC {
        Some(BadImage::Header)
    } else if !is_of_version(scheme, block, geometry) {
        Some(BadImage::Version)
    } else if is_of_geometry(scheme, block, geometry) && long {
        None
    } else {
        Some(BadImage::Geometry)
    }
}

// Whether the version of a header is one of those that are read.
fn is_of_version(scheme: u64, block: &Block, geometry: &Geometry) -> bool
    requires { scheme < 256 }
    ensures { result ≡ of_version scheme geometry.now block.now }
{
    let version = word(block, 1);
    version == VERSION || (version == 1 && knows_version_one(scheme, geometry))
}

// Whether the numbers of a header are those of the geometry and of this scheme.
fn is_of_geometry(scheme: u64, block: &Block, geometry: &Geometry) -> bool
    requires { scheme < 256 }
    ensures { result ≡ of_geometry scheme block.now geometry.now }
{
    let p = geometry.numbers();
    let memory = word(block, 2) == p.base
        && word(block, 3) == p.pages
        && word(block, 4) == p.console;
    let last = last_word(scheme, geometry);
    let tables = word(block, 5) == p.btt && word(block, 6) == p.ptt && word(block, 7) == last;
    memory && tables
}
