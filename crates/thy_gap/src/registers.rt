//! The registers: where the lines of a levelled device lie.
ghost use Rattle.std.specs.Prelude.{◌≡◌, ◌≢◌, ◌<◌, ◌≤◌, Some};
ghost use Rattle.thy_gap.specs.Lines.{IsWhole, place as place_of_line, line_at, source as source_of, moved as moved_on, unmoved, no_lines, registers_block, registers_of};

use thy_block::{Block, block_with, word};

/// The bytes `THYNGAP1`, with which the block of the registers begins, as a number.
pub const GAP_MAGIC: u64 = 0x3150_4147_4e59_4854;

/// Where the lines of a levelled device lie. A line is a block that is seen; a place is a block of the inner device.
#[derive(Clone, Copy, Debug, PartialEq, Eq)]
pub struct Registers {
    /// How many lines there are, in blocks of 64 bytes. The inner device has two blocks more.
    pub lines: u64,
    /// By how many places the lines are rotated, below `lines`.
    pub start: u64,
    /// The place without a line, at most `lines`.
    pub gap: u64,
}

impl Registers {
    /// The registers of no lines, as before a fit.
    pub fn none() -> Registers
        ensures { result ≡ no_lines }
    {
        Registers {
            lines: 0,
            start: 0,
            gap: 0,
        }
    }

    /// The registers after a fit to `lines` lines: each line is at the place of its own number, and the gap after the last.
    pub fn unmoved(lines: u64) -> Registers
        ensures { result ≡ unmoved lines }
    {
        Registers {
            lines,
            start: 0,
            gap: lines,
        }
    }

    /// The place, in the inner device, of a line, which is below `lines`.
    #[tactic(auto, unfolding(crate::specs::Lines::place))]
    pub fn place(&self, line: u64) -> u64
        requires whole { IsWhole self.now }
        requires line { line < self.now.lines }
        ensures { result ≡ place_of_line self.now line }
    {
        let before_end = self.lines - self.start;
        let turned = if line < before_end {
            line + self.start
        } else {
            line - before_end
        };
        if turned < self.gap {
            turned
        } else {
            turned + 1
        }
    }

    /// The line of a place that has one.
    pub fn line(&self, place: u64) -> u64
        requires whole { IsWhole self.now }
        requires other { place ≢ self.now.gap }
        requires within { place ≤ self.now.lines }
        ensures { line_at self.now place ≡ Some result }
    {
        let turned = if place < self.gap { place } else { place - 1 };
        if turned < self.start {
            turned + (self.lines - self.start)
        } else {
            turned - self.start
        }
    }

    /// The place whose line moves next.
    pub fn source(&self) -> u64
        ensures { result ≡ source_of self.now }
    {
        if self.gap == 0 {
            self.lines
        } else {
            self.gap - 1
        }
    }

    /// The registers after one move: the gap is where the moved line was.
    pub fn moved(&self) -> Registers
        requires { IsWhole self.now }
        ensures { result ≡ moved_on self.now }
    {
        Registers {
            lines: self.lines,
            start: self.start_moved(),
            gap: self.source(),
        }
    }

    // By how many places the lines are rotated after one move.
    fn start_moved(&self) -> u64
        requires { IsWhole self.now }
        ensures { result ≡ (moved_on self.now).start }
    {
        let around = self.gap == 0;
        let next = if self.start + 1 < self.lines {
            self.start + 1
        } else {
            0
        };
        if around { next } else { self.start }
    }

    /// The block that stores the registers: its name, start and gap, then five zeros, as words of 64 bits.
    pub fn block(&self) -> Block
        ensures { result ≡ registers_block self.now }
    {
        block_with(&[GAP_MAGIC, self.start, self.gap, 0, 0, 0, 0, 0])
    }

    /// The registers that a block stores, for a device of `lines` lines. Nothing is tested.
    pub fn of_block(lines: u64, block: &Block) -> Registers
        ensures { result ≡ registers_of lines block.now }
    {
        Registers {
            lines,
            start: word(block, 1),
            gap: word(block, 2),
        }
    }
}
