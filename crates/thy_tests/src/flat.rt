//! Spans of a list of blocks.

use crate::support::expect::expect;
use thy_base::Block;
use thy_block::{Piece, Span, take_head};

/// The bytes of a span that lie in its first block, which is this one.
fn head(block: &Block, span: Span) -> Piece {
    let mut piece = Piece::new();
    take_head(&mut piece, block, span);
    piece
}

#[test]
fn a_span_over_two_blocks_is_read_block_by_block(rt: HostRuntime) {
    let mut first = Block::ZERO;
    first.put(61, &[9, 1, 2]);
    let mut second = Block::ZERO;
    second.put(0, &[3, 4, 5, 9]);
    let span = Span { at: 62, len: 5 };
    expect(&rt, span.first_block(), 0);
    expect(&rt, span.first_byte(), 62);
    expect(&rt, span.head_len(), 2);
    let rest = span.rest();
    expect(&rt, rest, Span { at: 64, len: 3 });
    expect(&rt, rest.first_block(), 1);
    expect(&rt, rest.rest().is_empty(), true);
    let piece = head(&first, span);
    expect(&rt, piece.as_slice(), [1, 2].as_slice());
    let piece = head(&second, rest);
    expect(&rt, piece.as_slice(), [3, 4, 5].as_slice());
}
