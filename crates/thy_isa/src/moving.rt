//! What an instruction or an environment call moves.
#![tactic(auto, unfolding(crate::specs::Moves::moves_of, crate::specs::Moves::call_moves, crate::specs::Moves::brings, crate::specs::Moves::call_brings, crate::specs::Moves::number_in, thy_block::specs::LittleEndian::number_bytes))]

ghost use Rattle.std.specs.Prelude.{◌≡◌, ◌+◌, ◌^◌, ◌<◌, ◌≤◌, [], ◌++◌, length};
ghost use Rattle.thy_block.specs.LittleEndian.{number_at, number_bytes};
ghost use Rattle.thy_isa.specs.Access.{IsWithin, HasRead};
ghost use Rattle.thy_isa.specs.Atomics.{modified};
ghost use Rattle.thy_isa.specs.Calls.{call_of};
ghost use Rattle.thy_isa.specs.Effects.{size_of};
ghost use Rattle.thy_isa.specs.Moves.{no_moves, moves_of, call_moves, brings, call_brings, number_in};

use crate::atomics::modified;
use crate::effects::bytes_in;
use crate::environment::call;
use crate::instr::{Amo, Width};
use crate::numbers::number;
use crate::regs::Regs;
use crate::state::{Call, CallState, Effect, Moves};
use thy_block::{Piece, Span, extend};

/// A span without bytes.
const NONE: Span = Span { at: 0, len: 0 };

/// Which bytes an effect reads and writes, as spans of memory's blocks, with these registers and this state of the calls.
pub fn moves(regs: &Regs, calls: &CallState, effect: &Effect) -> Moves
    requires inside { IsWithin calls.now.base calls.now.size effect.now }
    requires console { 1 ≤ calls.now.room → calls.now.size + calls.now.console_len < 2 ^ 64 }
    ensures { result ≡ moves_of regs.now calls.now effect.now }
{
    match *effect {
        Effect::Read { at, width, .. } | Effect::Reserve { at, width, .. } => Moves {
            from: Span {
                at: at - calls.base,
                len: bytes_in(width),
            },
            to: NONE,
        },
        Effect::Write { at, width, .. } | Effect::Conditional { at, width, .. } => Moves {
            from: NONE,
            to: Span {
                at: at - calls.base,
                len: bytes_in(width),
            },
        },
        Effect::Modify { at, width, .. } => {
            let span = Span {
                at: at - calls.base,
                len: bytes_in(width),
            };
            Moves {
                from: span,
                to: span,
            }
        }
        Effect::Environment => call_moves(regs, calls),
        _ => Moves {
            from: NONE,
            to: NONE,
        },
    }
}

/// Which bytes the environment call that the registers name reads and writes, as spans of memory's blocks.
fn call_moves(regs: &Regs, calls: &CallState) -> Moves
    requires { 1 ≤ calls.now.room → calls.now.size + calls.now.console_len < 2 ^ 64 }
    ensures { result ≡ call_moves calls.now (call_of regs.now calls.now) }
{
    match call(regs, calls) {
        Call::Take { at, len } => Moves {
            from: NONE,
            to: Span {
                at: at - calls.base,
                len,
            },
        },
        Call::Give { at, len } => Moves {
            from: Span {
                at: at - calls.base,
                len,
            },
            to: Span {
                at: calls.size + calls.console_len,
                len,
            },
        },
        _ => Moves {
            from: NONE,
            to: NONE,
        },
    }
}

/// The bytes that an effect brings along, before any are read: the low bytes of a number that is stored,
/// or those that a call takes of the input.
pub fn brought(input: &[u8], regs: &Regs, calls: &CallState, effect: &Effect) -> Piece
    requires { calls.now.input_len ≡ length input.now }
    ensures { result.items ≡ brings input.now regs.now calls.now effect.now }
{
    let mut piece = Piece::new();
    match *effect {
        Effect::Write { width, value, .. } | Effect::Conditional { width, value, .. } => {
            add_number(&mut piece, width, value);
        }
        Effect::Environment => add_input(&mut piece, input, regs, calls),
        _ => {}
    }
    piece
}

/// Adds the low `width` bytes of a number to a piece that has room for them, lowest byte first.
pub fn add_number(piece: &mut Piece, width: Width, value: u64)
    requires { piece.old.items ≡ [] }
    ensures { piece.new.items ≡ number_bytes (size_of width) value }
{
    let len = bytes_in(width) as usize;
    extend(piece, &value.to_le_bytes()[..len]);
}

/// Adds to a piece the bytes of the input that the call takes which the registers name.
fn add_input(piece: &mut Piece, input: &[u8], regs: &Regs, calls: &CallState)
    requires empty { piece.old.items ≡ [] }
    requires input { calls.now.input_len ≡ length input.now }
    ensures { piece.new.items ≡ call_brings input.now calls.now (call_of regs.now calls.now) }
{
    if let Call::Take { len, .. } = call(regs, calls) {
        let from = calls.cursor as usize;
        extend(piece, &input[from..from + len as usize]);
    }
}

/// The number of 64 bits that an effect reads, from the bytes that it has read.
pub fn number_in(effect: &Effect, bytes: &[u8]) -> u64
    requires { HasRead effect.now bytes.now }
    ensures { result ≡ number_in effect.now bytes.now }
{
    match *effect {
        Effect::Read { width, .. } | Effect::Reserve { width, .. } | Effect::Modify { width, .. } =>
            number(bytes, 0, width),
        _ => 0,
    }
}

/// The bytes that an atomic memory operation writes, from those that it has read and the number of rs2.
pub fn modified_bytes(op: Amo, width: Width, value: u64, bytes: &[u8]) -> Piece
    requires { size_of width ≤ length bytes.now }
    ensures bytes { result.items ≡ number_bytes (size_of width) (modified op width (number_at (size_of width) bytes.now 0) value) }
    ensures len { length result.items ≡ size_of width }
    ensures range { size_of width ≤ 8 }
{
    let mut piece = Piece::new();
    let old = number(bytes, 0, width);
    add_number(&mut piece, width, modified(op, width, old, value));
    piece
}
