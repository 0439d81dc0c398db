//! What every scheme has at the same places or in the same size: header and commit block of an image, the processor's
//! record, and the DRAM.
ghost use Rattle.std.specs.Prelude.{◌≡◌, ◌<◌};

use crate::Geometry;
use crate::page::PAGE_BLOCKS;

/// The place of the header in an image of the NVM.
pub const HEADER_PLACE: u64 = 0;

/// The place of the commit block in an image of the NVM.
pub const COMMIT_PLACE: u64 = 1;

/// How many blocks the record of one hart has.
pub const HART_BLOCKS: u64 = 5;

impl Geometry {
    ghost use Rattle.thy_block.specs.Geometry.{IsInRange};
    ghost use Rattle.thy_block.specs.Places.{record_blocks, dram_blocks, buffer_place, frame_place};

    /// How many blocks the processor's record has, five for each hart.
    pub fn record_blocks(&self) -> u64
        ensures blocks { result ≡ record_blocks self.now }
        ensures in_range { IsInRange self.now }
    {
        HART_BLOCKS * self.numbers().harts
    }

    /// How many blocks the DRAM has: the buffers, and after them the frames.
    pub fn dram_blocks(&self) -> u64
        ensures blocks { result ≡ dram_blocks self.now }
        ensures in_range { IsInRange self.now }
    {
        let p = self.numbers();
        p.btt + PAGE_BLOCKS * p.ptt
    }

    /// The place of buffer `i` in the DRAM; there is one for each entry of the block table.
    pub fn buffer(&self, i: usize) -> u64
        requires { i < self.now.btt }
        ensures place { result ≡ buffer_place self.now i }
        ensures in_range { IsInRange self.now }
    {
        let _numbers = self.numbers();
        i as u64
    }

    /// The place of block `k` of frame `j` in the DRAM; there is a frame for each entry of the page table.
    pub fn frame(&self, j: usize, k: u64) -> u64
        requires entry { j < self.now.ptt }
        requires block { k < 64 }
        ensures place { result ≡ frame_place self.now j k }
        ensures in_range { IsInRange self.now }
    {
        self.numbers().btt + PAGE_BLOCKS * j as u64 + k
    }
}
