//! The commit block, block 1 of an image.
ghost use Rattle.std.specs.Prelude.{◌≡◌, ◌<◌};
ghost use Rattle.thy_layout.specs.Commit.{commit_of, version_of as version_named, is_named as names_version, commit_fault as fault_of_commit, is_zero as has_zeros, has_zero_rest as zero_rest, epoch_of as epoch_named, slot_of_epoch as slot_named};

use crate::bad_image::BadImage;
use crate::header::knows_version_one;
use crate::layout_version::LayoutVersion;
use thy_block::{Block, Geometry, block_with, word};

// The bytes `THYNCMT1`, with which a commit block of version 1 begins, as a number.
const COMMIT_MAGIC_VERSION_ONE: u64 = 0x3154_4d43_4e59_4854;

// The bytes `THYNCMT2`, with which one of version 2 does.
const COMMIT_MAGIC_VERSION_TWO: u64 = 0x3254_4d43_4e59_4854;

/// The commit block of an epoch, of version 2: its name, the epoch and six zeros.
pub fn commit_block(epoch: u64) -> Block
    ensures { result ≡ commit_of epoch }
{
    block_with(&[COMMIT_MAGIC_VERSION_TWO, epoch, 0, 0, 0, 0, 0, 0])
}

/// The number of the epoch that a commit block names, in its second word.
pub fn epoch_in(commit: &Block) -> u64
    ensures { result ≡ epoch_named commit.now }
{
    word(commit, 1)
}

/// The slot of an epoch's checkpoint, 0 or 1: two epochs in a row have different ones.
pub fn slot_of_epoch(epoch: u64) -> u64
    ensures slot { result ≡ slot_named epoch }
    ensures below { result < 2 }
{
    epoch % 2
}

/// Whether all 64 bytes of a block are zero. A commit block of zeros means that there is no checkpoint.
#[tactic(auto, unfolding(crate::specs::Commit::is_zero, thy_block::specs::Device::zero_block))]
pub fn is_zero(block: &Block) -> bool
    ensures { result ≡ has_zeros block.now }
{
    *block == Block::ZERO
}

/// The version of the slot that a commit block names, by the scheme of this number, which is below 256. Only scheme 0 with one
/// hart has slots of version 1.
pub fn version_of(scheme: u64, block: &Block, geometry: &Geometry) -> LayoutVersion
    requires { scheme < 256 }
    ensures { result ≡ version_named scheme geometry.now block.now }
{
    if word(block, 0) == COMMIT_MAGIC_VERSION_ONE && knows_version_one(scheme, geometry) {
        LayoutVersion::VersionOne
    } else {
        LayoutVersion::VersionTwo
    }
}

// Whether a commit block behind this header names a version.
fn is_named(header: &Block, block: &Block) -> bool
    ensures { result ≡ names_version header.now block.now }
{
    let name = word(block, 0);
    name == COMMIT_MAGIC_VERSION_TWO || (name == COMMIT_MAGIC_VERSION_ONE && word(header, 1) == 1)
}

/// The fault of a commit block after a header, if it has one: another name, or version 1's name after a header of
/// version 2; an epoch that is not below the ceiling; or more than the epoch.
#[tactic(auto, unfolding(crate::specs::Commit::commit_fault))]
pub fn commit_fault(header: &Block, block: &Block, ceiling: u64) -> Option<BadImage>
    ensures { result ≡ fault_of_commit header.now block.now ceiling }
{
    let named = is_named(header, block) && epoch_in(block) < ceiling;
    if named && has_zero_rest(block) {
        None
    } else {
        Some(BadImage::Commit)
    }
}

// Whether it has nothing but a name and an epoch.
#[tactic(auto, unfolding(crate::specs::Commit::has_zero_rest))]
fn has_zero_rest(block: &Block) -> bool
    ensures { result ≡ zero_rest block.now }
{
    *block == block_with(&[word(block, 0), word(block, 1), 0, 0, 0, 0, 0, 0])
}
