//! The instruction in hand, as the hart keeps it. An instruction that moves at most 8 bytes within one block is a stage and a few
//! numbers. Any other one is kept with its spans and bytes, as a `Hand`: an environment call, an atomic instruction, an access to
//! two blocks, a trap.
#![tactic(auto)]

ghost use Rattle.std.specs.Prelude.{◌≡◌, ◌+◌, ◌%◌, ◌≤◌, IfSome};
ghost use Rattle.thy_block.specs.Spans.{first_byte};
ghost use Rattle.thy_isa.specs.Effects.{size_of};
ghost use Rattle.thy_isa.specs.declared.state.Effect.TheVariants.{Next, Set};
ghost use Rattle.thy_hart.specs.declared.in_hand.Stage.TheVariants.{Idle};
ghost use Rattle.thy_hart.specs.HartState.{blocks_of};
ghost use Rattle.thy_hart.specs.InHand.{span_of, load_of, store_of};

use crate::hand::Hand;
use std::marker::Model;
use thy_block::{BLOCK_SIZE, Piece, Span};
use thy_isa::{Effect, Extend, Reg, Width, bytes_in};

/// The bytes that a load or a store moves, which lie within one block: where in memory the first is, and how many they are.
#[derive(Clone, Copy)]
pub(crate) struct Access {
    at: u64,
    width: Width,
}

impl Model for Access {
    ghost use Rattle.std.specs.Prelude.{ℕ, ◌+◌, ◌%◌, ◌≤◌};
    ghost use Rattle.thy_isa.specs.declared.instr.Width.{Width as AccessWidth};
    ghost use Rattle.thy_isa.specs.Effects.{size_of};

    ghost Value = { ℕ × AccessWidth };

    ghost view = { λ a. (a.at, a.width) };

    ghost invariant = { λ a. a.at % 64 + size_of a.width ≤ 64 };

    ghost inverse = { λ v. record { at = v.0; width = v.1 } };
}

impl Access {
    /// The access to these bytes, if they lie within one block.
    #[inline(always)]
    pub(crate) fn within_block(at: u64, width: Width) -> Option<Access>
        ensures access { IfSome result (λ access. access ≡ (at, width)) }
        ensures whole { IfSome result (λ access. at % 64 + size_of width ≤ 64) }
    {
        if at % BLOCK_SIZE as u64 + bytes_in(width) <= BLOCK_SIZE as u64 {
            Some(Access { at, width })
        } else {
            None
        }
    }

    /// The span of the bytes.
    #[inline(always)]
    pub(crate) fn span(&self) -> Span
        ensures span { result ≡ span_of self.now }
        ensures whole { first_byte result + result.len ≤ 64 }
    {
        Span {
            at: self.at,
            len: bytes_in(self.width),
        }
    }

    /// How many blocks the bytes lie in, for which a store secures room: one.
    #[inline(always)]
    pub(crate) fn blocks(&self) -> u64
        ensures { result ≡ blocks_of (span_of self.now) }
    {
        let _whole = self.span();
        1
    }

    /// How many bytes are moved.
    #[inline(always)]
    pub(crate) fn width(&self) -> Width
        ensures { result ≡ self.now.1 }
    {
        self.width
    }
}

/// What a hart does next.
#[derive(Clone, Copy)]
pub(crate) enum Stage {
    /// No instruction is in hand: it fetches the next one.
    Idle,
    /// An instruction retires that does nothing but continue at `pc`.
    Jumps,
    /// An instruction retires that sets `rd` to `value`.
    Sets,
    /// A load reads its bytes.
    Loads,
    /// A load retires, which has read the number `value`.
    Loaded,
    /// A store of `value` secures room for the block that it writes.
    Secures,
    /// A store writes its block.
    Stores,
    /// A store retires, which has written.
    Stored,
    /// The instruction is at the step that `pieces` names.
    InPieces,
}

/// The instruction in hand: its stage, and the numbers that this names.
#[derive(Drop)]
pub(crate) struct InHand {
    pub stage: Stage,
    /// The register that the instruction sets.
    pub rd: Reg,
    /// How a load fills the bits above its bytes.
    pub extend: Extend,
    /// The program counter after the instruction.
    pub pc: u64,
    /// The address of the bytes that the instruction moves.
    pub address: u64,
    /// The bytes that are moved.
    pub access: Access,
    /// The number that is set, was loaded or is stored.
    pub value: u64,
    /// What is next of any other instruction.
    pub pieces: Hand,
    /// The bytes of that: those that it brought along or has read.
    pub bytes: Piece,
}

impl InHand {
    /// No instruction is in hand.
    pub(crate) fn nothing() -> InHand
        ensures { result.stage ≡ Idle }
    {
        InHand {
            stage: Stage::Idle,
            rd: Reg::new(0),
            extend: Extend::Zero,
            pc: 0,
            address: 0,
            access: Access {
                at: 0,
                width: Width::Byte,
            },
            value: 0,
            pieces: Hand::Nothing,
            bytes: Piece::new(),
        }
    }

    /// What is set, was loaded or is stored.
    #[inline(always)]
    pub(crate) fn number(&self) -> u64
        ensures { result ≡ self.now.value }
    {
        self.value
    }

    /// The effect of an instruction that does nothing but continue.
    #[inline(always)]
    pub(crate) fn jump(&self) -> Effect
        ensures { result ≡ Next self.now.pc }
    {
        Effect::Next { pc: self.pc }
    }

    /// The effect of an instruction that sets a register.
    #[inline(always)]
    pub(crate) fn set(&self) -> Effect
        ensures { result ≡ Set self.now.rd self.now.pc self.now.value }
    {
        Effect::Set {
            rd: self.rd,
            pc: self.pc,
            value: self.value,
        }
    }

    /// The effect of a load.
    #[inline(always)]
    pub(crate) fn load(&self) -> Effect
        ensures { result ≡ load_of self.now }
    {
        Effect::Read {
            rd: self.rd,
            width: self.access.width(),
            extend: self.extend,
            pc: self.pc,
            at: self.address,
        }
    }

    /// The effect of a store.
    #[inline(always)]
    pub(crate) fn store(&self) -> Effect
        ensures { result ≡ store_of self.now }
    {
        Effect::Write {
            width: self.access.width(),
            pc: self.pc,
            at: self.address,
            value: self.value,
        }
    }
}
