//! The bytes that one instruction or call moves, taken from the blocks of a span.
ghost use Rattle.std.specs.Prelude.{◌≡◌, ◌+◌, ◌≤◌, ◌++◌, length};
ghost use Rattle.arrayvec.specs.ArrayVec.{array_vec_len};
ghost use Rattle.thy_block.specs.Spans.{head_len, head_in};

use crate::Block;
use crate::span::Span;
use arrayvec::ArrayVec;

/// The bytes that one instruction or call moves: at most 64.
pub type Piece = ArrayVec<u8, 64>;

/// Adds to a piece those bytes of a span that lie in its first block, which is `block`. They fit in the piece.
pub fn take_head(piece: &mut Piece, block: &Block, span: Span)
    requires { array_vec_len piece.old + head_len span ≤ 64 }
    ensures { piece.new.items ≡ piece.old.items ++ head_in block.now span }
{
    let from = span.first_byte() as usize;
    let end = from + span.head_len() as usize;
    extend(piece, &block.bytes()[from..end]);
}

/// Adds bytes at the end of a piece, in which there is room for them.
pub fn extend(piece: &mut Piece, bytes: &[u8])
    requires { array_vec_len piece.old + length bytes.now ≤ 64 }
    ensures { piece.new.items ≡ piece.old.items ++ bytes.now }
{
    match piece.try_extend_from_slice(bytes) {
        Ok(()) => {}
        Err(_) => unreachable!(),
    }
}
