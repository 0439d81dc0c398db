//! The micro-steps of an instruction in pieces, whose bytes may lie in two blocks: an environment call, an atomic instruction, a
//! load or a store of two blocks, and a trap. They are rare, and called from one place that is not part of the loop over cycles.
#![tactic(auto, unfolding(crate::specs::Outcomes::room_secured, crate::specs::Outcomes::room_answer, thy_isa::specs::OnBlocks::cpu_after))]

ghost use Rattle.std.specs.Prelude.{◌≡◌, ◌≢◌, None, Some, ◌+◌, ◌*◌, ◌<◌, ◌≤◌, ◌^◌, drop};
ghost use Rattle.arrayvec.specs.ArrayVec.{array_vec_len};
ghost use Rattle.thy_block.specs.Geometry.{IsInRange, memory_blocks, program_size};
ghost use Rattle.thy_cache.specs.Contents.{dirty_count, location_of, read_from, KeepsSize};
ghost use Rattle.thy_cache.specs.Flat.{AgreesStill, KeepsLines};
ghost use Rattle.thy_block.specs.Spans.{first_block};
ghost use Rattle.thy_isa.specs.Access.{IsWithin};
ghost use Rattle.thy_isa.specs.declared.state.Effect.TheVariants.{Environment, Trap};
ghost use Rattle.thy_isa.specs.Moves.{outgoing};
ghost use Rattle.thy_isa.specs.OnBlocks.{calls_in};
ghost use Rattle.thy_isa.specs.Step.{AreCallsOf};
ghost use Rattle.thy_hart.specs.declared.hand.Hand.TheVariants.{Nothing, Reading, Writing};
ghost use Rattle.thy_hart.specs.declared.in_hand.Stage.TheVariants.{InPieces};
ghost use Rattle.thy_hart.specs.HartState.{IsReading, IsWriting, IsSoundHart, blocks_of, read_len, secured, to_secure};
ghost use Rattle.thy_hart.specs.Outcomes.{Given, begun_with, finished, written_by, block_written, room_secured, room_answer, retired, over_or_retired, epoch_retired, given};
ghost use Rattle.thy_hart.specs.InHand.{pieces_of, hart_state_of, ArePieces, IsSoundParts};
ghost use Rattle.thy_hart.specs.declared.hand.MicroStep.TheVariants.{Taken};
ghost use Rattle.thy_hart.specs.MicroSteps.{ReadsIn, WritesIn, IsActed, EndsBy, micro_step};

use crate::hand::{Hand, HartStep, MicroStep, ShortStep, begun, written_on};
use crate::in_hand::Stage;
use crate::micro_steps::{HartParts, blocks_of};
use thy_block::{EndCause, Piece, Span, take_head};
use thy_cache::{Cache, LineLocation};
use thy_isa::{CallState, Cause, Effect, brought, is_running, modified_bytes, moves, number_in};

impl HartParts {
    /// What an environment call depends on in addition to the registers, with an input of this length.
    fn calls(&self, input_len: u64) -> CallState
        ensures calls { result ≡ calls_in self.now.geometry self.now.cpu input_len }
        ensures fits { AreCallsOf self.now.cpu result }
    {
        CallState {
            cursor: self.cpu.cursor(),
            input_len,
            console_len: self.cpu.console_len(),
            room: self
                .geometry
                .console_room()
                .saturating_sub(self.cpu.console_len()),
            base: self.geometry.numbers().base,
            size: self.geometry.program_size(),
            floor: self.cpu.floor(),
            brk: self.cpu.brk(),
        }
    }

    /// Takes an effect in hand, and the bytes that it brings along. Only an environment call depends on the `CallState`.
    #[inline(never)]
    pub(crate) fn begin_in_pieces(&mut self, effect: Effect, input: &[u8])
        requires range { IsInRange self.old.geometry }
        requires inside { IsWithin self.old.geometry.base (program_size self.old.geometry) effect }
        ensures hart { hart_state_of self.new ≡ begun_with input.now effect (hart_state_of self.old) }
        ensures pieces { ArePieces self.new.hand }
    {
        let calls = self.calls(input.len() as u64);
        let moves = moves(self.cpu.regs(false), &calls, &effect);
        self.hand.bytes = brought(input, self.cpu.regs(false), &calls, &effect);
        self.hand.pieces = begun(effect, moves.from, moves.to);
        self.hand.stage = Stage::InPieces;
    }

    /// Takes a trap in hand.
    #[inline(never)]
    pub(crate) fn begin_trap(&mut self, cause: Cause, input: &[u8])
        requires { IsInRange self.old.geometry }
        ensures hart { hart_state_of self.new ≡ begun_with input.now (Trap cause) (hart_state_of self.old) }
        ensures pieces { ArePieces self.new.hand }
    {
        self.begin_in_pieces(Effect::Trap(cause), input);
    }

    /// Reads the bytes of a span that lie in its first block, whose line is at this location.
    fn read_piece(
        &mut self,
        cache: &mut Cache,
        location: LineLocation,
        effect: Effect,
        from: Span,
        to: Span,
    )
        requires range { IsInRange self.old.geometry }
        requires reading { IsReading self.old.geometry effect from to (array_vec_len self.old.hand.bytes) }
        requires found { location_of cache.old (first_block from) ≡ Some location }
        ensures hart { ReadsIn cache.old effect from to (pieces_of self.old) (pieces_of self.new) }
        ensures sound { IsSoundHart (pieces_of self.new) }
        ensures unsecured { secured self.new.hand.pieces ≡ 0 }
        ensures cache { cache.new ≡ read_from (first_block from) cache.old }
        ensures lines { KeepsLines cache.old cache.new }
    {
        let b = from.first_block();
        take_head(&mut self.hand.bytes, cache.block_in(b, location), from);
        cache.touch(b, location);
        self.hand.pieces = begun(effect, from.rest(), to);
    }

    /// Reads the bytes of a span that lie in its first block.
    fn read_pieces(&mut self, cache: &mut Cache, effect: Effect, from: Span, to: Span) -> MicroStep
        requires sound { IsSoundHart (pieces_of self.old) }
        requires hand { self.old.hand.pieces ≡ Reading effect from to }
        ensures acts { (g : Given) → IsActed g
            cache.old cache.new (pieces_of self.old) (pieces_of self.new) result }
        ensures ends { EndsBy result self.new.epoch.over }
        ensures sound { IsSoundHart (pieces_of self.new) }
    {
        match cache.find(from.first_block()) {
            Some(location) => {
                self.read_piece(cache, location, effect, from, to);
                MicroStep::Taken(HartStep::Moved)
            }
            None => MicroStep::Missing(from.first_block()),
        }
    }

    /// Secures room for the blocks that will be written, or waits for it if a checkpoint is under way, or
    /// else ends the epoch and drops the instruction.
    fn secure_pieces(
        &mut self,
        dirty: u64,
        free: u64,
        under_way: bool,
        effect: Effect,
        to: Span,
    ) -> HartStep
        requires range { IsInRange self.old.geometry }
        requires writing { IsWriting self.old.geometry effect to 0 (array_vec_len self.old.hand.bytes) }
        requires going { self.old.epoch.over ≡ None }
        ensures hart { pieces_of self.new ≡ room_secured free under_way dirty effect to (pieces_of self.old) }
        ensures says { result ≡ room_answer free under_way dirty to }
        ensures ends { EndsBy (Taken result) self.new.epoch.over }
    {
        let need = blocks_of(to);
        if free >= need && free - need >= dirty {
            self.hand.pieces = Hand::Writing {
                effect,
                to,
                done: 0,
            };
            return HartStep::Moved;
        }
        if under_way {
            return HartStep::Waiting;
        }
        self.epoch.exhausted(free, dirty, need);
        self.hand.pieces = Hand::Nothing;
        self.hand.bytes.clear();
        HartStep::Over(EndCause::Exhausted { free, dirty, need })
    }

    /// Writes the bytes that an effect makes of those that it has, as far as they fall into the first block of a span,
    /// whose line is at this location. Only an atomic memory operation makes new bytes.
    fn put_outgoing(
        &self,
        cache: &mut Cache,
        location: LineLocation,
        effect: &Effect,
        to: Span,
        done: u64,
    )
        requires range { IsInRange self.now.geometry }
        requires writing { IsWriting self.now.geometry effect.now to done (array_vec_len self.now.hand.bytes) }
        requires found { location_of cache.old (first_block to) ≡ Some location }
        ensures short { done + to.len < 2 ^ 64 }
        ensures cache { cache.new ≡ written_by cache.old to (drop done (outgoing effect.now self.now.hand.bytes.items)) }
        ensures memory { WritesIn (memory_blocks self.now.geometry) cache.old cache.new to
            (drop done (outgoing effect.now self.now.hand.bytes.items)) }
        ensures agree { AgreesStill cache.old cache.new }
        ensures room { dirty_count cache.new ≤ dirty_count cache.old + 1 }
        ensures sized { KeepsSize cache.old cache.new }
    {
        match *effect {
            Effect::Modify {
                op,
                width,
                value,
                ..
            } => {
                let bytes = modified_bytes(op, width, value, self.hand.bytes.as_slice());
                self.put::<()>(cache, location, bytes.as_slice(), to, done);
            }
            Effect::Next { .. }
            | Effect::Set { .. }
            | Effect::Read { .. }
            | Effect::Write { .. }
            | Effect::Reserve { .. }
            | Effect::Conditional { .. }
            | Effect::Fail { .. }
            | Effect::Environment
            | Effect::Trap(_) => self.put::<()>(
                cache,
                location,
                self.hand.bytes.as_slice(),
                to,
                done,
            ),
        }
    }

    /// Writes those bytes of a span that fall into its first block, whose line is at this location.
    fn write_piece(
        &mut self,
        cache: &mut Cache,
        location: LineLocation,
        effect: Effect,
        to: Span,
        done: u64,
    )
        requires range { IsInRange self.old.geometry }
        requires writing { IsWriting self.old.geometry effect to done (array_vec_len self.old.hand.bytes) }
        requires found { location_of cache.old (first_block to) ≡ Some location }
        ensures hart { pieces_of self.new ≡ block_written effect to done (pieces_of self.old) }
        ensures sound { IsSoundHart (pieces_of self.new) }
        ensures cache { cache.new ≡ written_by cache.old to (drop done (outgoing effect self.old.hand.bytes.items)) }
        ensures memory { WritesIn (memory_blocks self.old.geometry) cache.old cache.new to
            (drop done (outgoing effect self.old.hand.bytes.items)) }
        ensures agree { AgreesStill cache.old cache.new }
        ensures room { dirty_count cache.new ≤ dirty_count cache.old + 1 }
        ensures sized { KeepsSize cache.old cache.new }
    {
        self.put_outgoing(cache, location, &effect, to, done);
        let len = to.head_len();
        self.hand.pieces = written_on(effect, to.rest(), done + len);
    }

    /// Writes those bytes of a span that fall into its first block.
    fn write_pieces(&mut self, cache: &mut Cache, effect: Effect, to: Span, done: u64) -> MicroStep
        requires sound { IsSoundHart (pieces_of self.old) }
        requires hand { self.old.hand.pieces ≡ Writing effect to done }
        ensures acts { (g : Given) → IsActed g
            cache.old cache.new (pieces_of self.old) (pieces_of self.new) result }
        ensures ends { EndsBy result self.new.epoch.over }
        ensures sound { IsSoundHart (pieces_of self.new) }
    {
        match cache.find(to.first_block()) {
            Some(location) => {
                self.write_piece(cache, location, effect, to, done);
                MicroStep::Taken(HartStep::Moved)
            }
            None => MicroStep::Missing(to.first_block()),
        }
    }

    /// Takes an effect that has read and written. Only an environment call depends on the `CallState`.
    fn finish_pieces(&mut self, effect: Effect, input: &[u8])
        requires number { read_len effect ≤ array_vec_len self.old.hand.bytes }
        requires count { self.old.cpu.count + 1 < 2 ^ 64 }
        ensures { pieces_of self.new ≡ finished input.now effect (pieces_of self.old) }
    {
        match effect {
            Effect::Environment => self.serve(input),
            Effect::Next { .. }
            | Effect::Set { .. }
            | Effect::Read { .. }
            | Effect::Write { .. }
            | Effect::Reserve { .. }
            | Effect::Conditional { .. }
            | Effect::Fail { .. }
            | Effect::Modify { .. }
            | Effect::Trap(_) => {
                let number = number_in(&effect, self.hand.bytes.as_slice());
                self.cpu.finish_alone(false, &effect, number);
            }
        }
    }

    /// Serves the environment call in hand.
    #[tactic(auto, unfolding(thy_isa::specs::Moves::number_in, thy_isa::specs::OnBlocks::cpu_after))]
    fn serve(&mut self, input: &[u8])
        requires { self.old.cpu.count + 1 < 2 ^ 64 }
        ensures { pieces_of self.new ≡ finished input.now Environment (pieces_of self.old) }
    {
        let calls = self.calls(input.len() as u64);
        self.cpu.finish(&Effect::Environment, 0, &calls);
    }

    /// Retires the instruction, which has read and written.
    fn retire_pieces(&mut self, effect: Effect, input: &[u8]) -> HartStep
        requires number { read_len effect ≤ array_vec_len self.old.hand.bytes }
        requires count { self.old.cpu.count + 1 < 2 ^ 64 }
        requires going { self.old.epoch.over ≡ None }
        ensures hart { pieces_of self.new ≡ retired input.now effect (pieces_of self.old) }
        ensures says { result ≡ over_or_retired (epoch_retired input.now effect (pieces_of self.old)).over }
        ensures ends { EndsBy (Taken result) self.new.epoch.over }
    {
        self.finish_pieces(effect, input);
        self.epoch.retired_once(is_running(self.cpu.status()));
        self.hand.pieces = Hand::Nothing;
        self.hand.bytes = Piece::new();
        self.ended()
    }

    /// Takes the next micro-step of the instruction in hand.
    fn act_on_pieces(
        &mut self,
        cache: &mut Cache,
        free: u64,
        under_way: bool,
        input: &[u8],
    ) -> MicroStep
        requires sound { IsSoundHart (pieces_of self.old) }
        requires some { self.old.hand.pieces ≢ Nothing }
        requires count { self.old.cpu.count + 1 < 2 ^ 64 }
        requires going { self.old.epoch.over ≡ None }
        ensures acts { IsActed (given input.now free under_way)
            cache.old cache.new (pieces_of self.old) (pieces_of self.new) result }
        ensures ends { EndsBy result self.new.epoch.over }
        ensures sound { IsSoundHart (pieces_of self.new) }
    {
        match self.hand.pieces {
            Hand::Nothing => unreachable!(),
            Hand::Reading { effect, from, to } => self.read_pieces(cache, effect, from, to),
            Hand::Securing { effect, to } => {
                MicroStep::Taken(self.secure_pieces(cache.dirty(), free, under_way, effect, to))
            }
            Hand::Writing { effect, to, done } => self.write_pieces(cache, effect, to, done),
            Hand::Retiring { effect, .. } => MicroStep::Taken(self.retire_pieces(effect, input)),
        }
    }

    /// No instruction is in hand any more if none is in pieces.
    fn settle(&mut self)
        requires { IsSoundHart (pieces_of self.old) }
        ensures hart { hart_state_of self.new ≡ pieces_of self.old }
        ensures pieces { ArePieces self.new.hand }
    {
        match self.hand.pieces {
            Hand::Nothing => self.hand.stage = Stage::Idle,
            Hand::Reading { .. }
            | Hand::Securing { .. }
            | Hand::Writing { .. }
            | Hand::Retiring { .. } => self.hand.stage = Stage::InPieces,
        }
    }

    /// Takes the next micro-step of an instruction in pieces.
    #[inline(never)]
    pub(crate) fn act_in_pieces(
        &mut self,
        cache: &mut Cache,
        free: u64,
        under_way: bool,
        input: &[u8],
    ) -> ShortStep
        requires sound { IsSoundParts self.old }
        requires stage { self.old.hand.stage ≡ InPieces }
        requires count { self.old.cpu.count + 1 < 2 ^ 64 }
        requires going { self.old.epoch.over ≡ None }
        ensures acts { IsActed (given input.now free under_way)
            cache.old cache.new (hart_state_of self.old) (hart_state_of self.new) (micro_step result self.new.epoch.over) }
        ensures sound { IsSoundParts self.new }
    {
        let step = self.act_on_pieces(cache, free, under_way, input);
        self.settle();
        step.short()
    }

    /// How many blocks it is to secure room for, if that is its next micro-step.
    pub(crate) fn pieces_to_secure(&self) -> Option<u64>
        requires { IsSoundHart (pieces_of self.now) }
        ensures { result ≡ to_secure self.now.hand.pieces }
    {
        match self.hand.pieces {
            Hand::Securing { to, .. } => Some(blocks_of(to)),
            Hand::Nothing | Hand::Reading { .. } | Hand::Writing { .. } | Hand::Retiring { .. } =>
                None,
        }
    }
}
