//! A span of bytes of a list of blocks.
ghost use Rattle.std.specs.Prelude.{◌≡◌, ◌==◌, ◌+◌, ◌<◌, ◌≤◌, ◌^◌};
ghost use Rattle.thy_block.specs.Spans.{first_block, first_byte, head_len, rest_of};

use crate::BLOCK_SIZE;

/// Bytes in a row of a list of blocks. One of at most 64 bytes lies in at most two blocks: its first,
/// and the next.
#[derive(Clone, Copy, Debug, PartialEq, Eq)]
pub struct Span {
    /// The index in the list of the span's first byte.
    pub at: u64,
    /// How many bytes the span has.
    pub len: u64,
}

impl Span {
    /// Whether the span has no bytes.
    pub fn is_empty(self) -> bool
        ensures { result ≡ (self.len == 0) }
    {
        self.len == 0
    }

    /// The index in the list of the block in which the span begins.
    pub fn first_block(self) -> u64
        ensures { result ≡ first_block self }
    {
        self.at / BLOCK_SIZE as u64
    }

    /// The index, 0 to 63, of the span's first byte in the block in which it begins.
    pub fn first_byte(self) -> u64
        ensures { result ≡ first_byte self }
    {
        self.at % BLOCK_SIZE as u64
    }

    /// How many of the span's bytes lie in the block in which it begins, at most 64.
    pub fn head_len(self) -> u64
        ensures len { result ≡ head_len self }
        ensures inside { result + first_byte self ≤ 64 }
        ensures most { result ≤ self.len }
    {
        self.len.min(BLOCK_SIZE as u64 - self.first_byte())
    }

    /// The rest of the span, which begins with the next block, or has no bytes.
    pub fn rest(self) -> Span
        requires { self.at + self.len < 2 ^ 64 }
        ensures { result ≡ rest_of self }
    {
        let head = self.head_len();
        Span {
            at: self.at + head,
            len: self.len - head,
        }
    }
}
