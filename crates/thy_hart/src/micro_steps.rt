//! The micro-steps of an instruction whose block is in the cache.
#![tactic(auto, unfolding(crate::specs::HartState::fetched_block, crate::specs::Outcomes::fetched, crate::specs::Outcomes::room_secured, crate::specs::Outcomes::room_answer, thy_isa::specs::OnBlocks::effect_in, thy_isa::specs::OnBlocks::cpu_after))]

ghost use Rattle.std.specs.Prelude.{◌≡◌, ◌≢◌, ℕ, List, length, None, Some, ◌+◌, ◌-◌, ◌<◌, ◌≤◌, ◌^◌, take, drop, IfSome};
ghost use Rattle.thy_block.specs.Geometry.{IsInRange, memory_blocks};
ghost use Rattle.thy_block.specs.LittleEndian.{number_bytes};
ghost use Rattle.thy_cache.specs.Contents.{Contents, dirty_count, location_of, read_from, KeepsSize};
ghost use Rattle.thy_cache.specs.Flat.{AgreesStill, KeepsLines};
ghost use Rattle.thy_block.specs.Spans.{IsSpanOf, span, first_block, first_byte};
ghost use Rattle.thy_isa.specs.declared.state.CallState.{CallState as Calls};
ghost use Rattle.thy_isa.specs.declared.state.Effect.TheVariants.{Environment};
ghost use Rattle.thy_isa.specs.Effects.{size_of};
ghost use Rattle.thy_isa.specs.Moves.{number_in};
ghost use Rattle.thy_isa.specs.Step.{finished as effect_finished};
ghost use Rattle.thy_hart.specs.declared.in_hand.Stage.TheVariants.{Idle, Loads, Secures, Stores};
ghost use Rattle.thy_isa.specs.Processor.{IsAloneIf};
ghost use Rattle.thy_hart.specs.HartState.{secured, blocks_of, to_secure};
ghost use Rattle.thy_hart.specs.Outcomes.{Given, written_by, block_written, room_secured, room_answer, retired, over_or_retired, epoch_retired, given};
ghost use Rattle.thy_hart.specs.InHand.{span_of, load_of, store_of, value_bytes, at_stage, hart_state_of, ArePieces, IsSoundParts};
ghost use Rattle.thy_hart.specs.Rows.{moved_then};
ghost use Rattle.thy_hart.specs.declared.hand.HartStep.TheVariants.{Moved};
ghost use Rattle.thy_hart.specs.declared.hand.MicroStep.TheVariants.{Taken};
ghost use Rattle.thy_hart.specs.MicroSteps.{ActsAll, ReadsIn, WritesIn, IsActed, micro_step};

use crate::EpochState;
use crate::hand::{HartStep, MicroStep, ShortStep};
use crate::in_hand::{Access, InHand, Stage};
use thy_block::{EndCause, Geometry, Span};
use thy_cache::{Cache, LineLocation};
use thy_isa::{DecodedWords, Effect, Fronted, is_running, number};

/// What a hart is made of.
#[derive(Drop)]
pub(crate) struct HartParts {
    pub geometry: Geometry,
    pub cpu: Fronted,
    pub epoch: EpochState,
    pub hand: InHand,
    pub decoded: DecodedWords,
}

/// The number that an access reads from the bytes of its block.
#[inline(always)]
fn number_of(access: &Access, bytes: &[u8]) -> u64
    requires { length bytes.now ≡ 64 }
    ensures { number_bytes (size_of access.now.1) result
        ≡ take (size_of access.now.1) (drop (first_byte (span_of access.now)) bytes.now) }
{
    number(bytes, access.span().first_byte() as usize, access.width())
}

/// How many blocks a span lies in that has bytes: 1 or 2.
pub(crate) fn blocks_of(span: Span) -> u64
    requires { span.at + span.len < 2 ^ 64 }
    ensures { result ≡ blocks_of span }
{
    if span.rest().is_empty() { 1 } else { 2 }
}

// The micro-steps take a type `N`, which none of them uses: that of device and store together, and in a row of one hart of
// several a pair with it. So the compiler has a copy of them for each device, scheme and whether the hart is alone, called from
// one place, and makes it part of the loop over cycles. What is rare is called, and takes no reference to what the loop has in
// registers.
impl HartParts {
    /// How many blocks the instruction in hand is to secure room for, if that is its next micro-step.
    pub fn to_secure(&self) -> Option<u64>
        requires { IsSoundParts self.now }
        ensures { result ≡ to_secure (hart_state_of self.now).hand }
    {
        match self.hand.stage {
            Stage::Secures => Some(self.hand.access.blocks()),
            Stage::InPieces => self.pieces_to_secure(),
            Stage::Idle
            | Stage::Jumps
            | Stage::Sets
            | Stage::Loads
            | Stage::Loaded
            | Stage::Stores
            | Stage::Stored => None,
        }
    }

    /// Reads the bytes of a load, whose block's line is at this location.
    #[inline(always)]
    fn load_at<N>(&mut self, cache: &mut Cache, location: LineLocation)
        requires sound { IsSoundParts self.old }
        requires stage { self.old.hand.stage ≡ Loads }
        requires found { location_of cache.old (first_block (span_of self.old.hand.access)) ≡ Some location }
        ensures hart { ReadsIn cache.old (load_of self.old.hand) (span_of self.old.hand.access) (span 0 0)
            (at_stage Loads self.old) (hart_state_of self.new) }
        ensures sound { IsSoundParts self.new }
        ensures unsecured { secured (hart_state_of self.new).hand ≡ 0 }
        ensures cache { cache.new ≡ read_from (first_block (span_of self.old.hand.access)) cache.old }
        ensures lines { KeepsLines cache.old cache.new }
    {
        let b = self.hand.access.span().first_block();
        self.hand.value = number_of(&self.hand.access, cache.block_in(b, location).bytes());
        cache.touch(b, location);
        self.hand.stage = Stage::Loaded;
    }

    /// Reads the bytes of a load.
    #[inline(always)]
    fn load<N>(&mut self, cache: &mut Cache) -> MicroStep
        requires sound { IsSoundParts self.old }
        requires stage { self.old.hand.stage ≡ Loads }
        ensures acts { (g : Given) → IsActed g
            cache.old cache.new (hart_state_of self.old) (hart_state_of self.new) result }
        ensures sound { IsSoundParts self.new }
    {
        let b = self.hand.access.span().first_block();
        match cache.latest(b) {
            Some(location) => {
                self.load_at::<N>(cache, location);
                MicroStep::Taken(HartStep::Moved)
            }
            None => {
                let step = self.load_far(cache);
                self.came(step)
            }
        }
    }

    /// Reads the bytes of a load from any line.
    #[inline(never)]
    fn load_far(&mut self, cache: &mut Cache) -> ShortStep
        requires sound { IsSoundParts self.old }
        requires stage { self.old.hand.stage ≡ Loads }
        ensures acts { (g : Given) → IsActed g
            cache.old cache.new (hart_state_of self.old) (hart_state_of self.new) (micro_step result self.new.epoch.over) }
        ensures sound { IsSoundParts self.new }
    {
        let b = self.hand.access.span().first_block();
        match cache.find(b) {
            Some(location) => {
                self.load_at::<()>(cache, location);
                ShortStep::Moved
            }
            None => ShortStep::Missing(b),
        }
    }

    /// Secures room for the block that a store writes, or waits for it if a checkpoint is under way, or else ends the epoch and
    /// drops the instruction.
    #[inline(always)]
    fn secure<N>(&mut self, dirty: u64, free: u64, under_way: bool) -> HartStep
        requires sound { IsSoundParts self.old }
        requires stage { self.old.hand.stage ≡ Secures }
        requires going { self.old.epoch.over ≡ None }
        ensures hart { hart_state_of self.new ≡ room_secured free under_way dirty (store_of self.old.hand)
            (span_of self.old.hand.access) (at_stage Secures self.old) }
        ensures says { result ≡ room_answer free under_way dirty (span_of self.old.hand.access) }
        ensures stage { result ≡ Moved → self.new.hand.stage ≡ Stores }
        ensures pieces { ArePieces self.new.hand }
    {
        let need = self.hand.access.blocks();
        if free >= need && free - need >= dirty {
            self.hand.stage = Stage::Stores;
            return HartStep::Moved;
        }
        if under_way {
            return HartStep::Waiting;
        }
        self.epoch.exhausted(free, dirty, need);
        self.hand.stage = Stage::Idle;
        HartStep::Over(EndCause::Exhausted { free, dirty, need })
    }

    /// Secures room for the block that a store writes, over this cache, as `secure` does.
    #[inline(always)]
    fn room<N>(&mut self, cache: &Cache, free: u64, under_way: bool) -> HartStep
        requires sound { IsSoundParts self.old }
        requires stage { self.old.hand.stage ≡ Secures }
        requires going { self.old.epoch.over ≡ None }
        ensures acts { (input : List ℕ) → IsActed (given input free under_way)
            cache.now cache.now (hart_state_of self.old) (hart_state_of self.new) (Taken result) }
        ensures sound { IsSoundParts self.new }
        ensures stage { result ≡ Moved → self.new.hand.stage ≡ Stores }
    {
        self.secure::<N>(cache.dirty(), free, under_way)
    }

    /// Writes those bytes of a span that fall into its first block, whose line is at this location, after `done` of these bytes.
    #[inline(always)]
    pub(crate) fn put<N>(
        &self,
        cache: &mut Cache,
        location: LineLocation,
        bytes: &[u8],
        to: Span,
        done: u64,
    )
        requires range { IsInRange self.now.geometry }
        requires span { IsSpanOf (memory_blocks self.now.geometry) to }
        requires some { 0 < to.len }
        requires least { done + to.len ≤ length bytes.now }
        requires found { location_of cache.old (first_block to) ≡ Some location }
        ensures cache { cache.new ≡ written_by cache.old to (drop done bytes.now) }
        ensures memory { WritesIn (memory_blocks self.now.geometry) cache.old cache.new to (drop done bytes.now) }
        ensures agree { AgreesStill cache.old cache.new }
        ensures room { dirty_count cache.new ≤ dirty_count cache.old + 1 }
        ensures sized { KeepsSize cache.old cache.new }
    {
        let len = to.head_len();
        let left = &bytes[done as usize..];
        cache.write_at(
            to.first_block(),
            location,
            to.first_byte(),
            &left[..len as usize],
        );
    }

    /// Writes the bytes of the number that is stored into the line of their block, which is at this location. This is never made
    /// part of the loop: there the bytes would be cleared for every instruction.
    #[inline(never)]
    fn put_value(&self, cache: &mut Cache, location: LineLocation)
        requires sound { IsSoundParts self.now }
        requires stage { self.now.hand.stage ≡ Stores }
        requires found { location_of cache.old (first_block (span_of self.now.hand.access)) ≡ Some location }
        ensures whole { first_byte (span_of self.now.hand.access) + (span_of self.now.hand.access).len ≤ 64 }
        ensures cache { cache.new ≡ written_by cache.old (span_of self.now.hand.access) (drop 0 (value_bytes self.now.hand)) }
        ensures memory { WritesIn (memory_blocks self.now.geometry) cache.old cache.new (span_of self.now.hand.access)
            (drop 0 (value_bytes self.now.hand)) }
        ensures agree { AgreesStill cache.old cache.new }
        ensures room { dirty_count cache.new ≤ dirty_count cache.old + 1 }
        ensures sized { KeepsSize cache.old cache.new }
    {
        let to = self.hand.access.span();
        let bytes = self.hand.value.to_le_bytes();
        self.put::<()>(cache, location, &bytes[..to.len as usize], to, 0);
    }

    /// Writes the bytes of a store, whose block's line is at this location.
    #[inline(always)]
    fn store_at<N>(&mut self, cache: &mut Cache, location: LineLocation)
        requires sound { IsSoundParts self.old }
        requires stage { self.old.hand.stage ≡ Stores }
        requires found { location_of cache.old (first_block (span_of self.old.hand.access)) ≡ Some location }
        ensures hart { hart_state_of self.new ≡ block_written (store_of self.old.hand) (span_of self.old.hand.access) 0
            (at_stage Stores self.old) }
        ensures sound { IsSoundParts self.new }
        ensures cache { cache.new ≡ written_by cache.old (span_of self.old.hand.access) (drop 0 (value_bytes self.old.hand)) }
        ensures memory { WritesIn (memory_blocks self.old.geometry) cache.old cache.new (span_of self.old.hand.access)
            (drop 0 (value_bytes self.old.hand)) }
        ensures agree { AgreesStill cache.old cache.new }
        ensures room { dirty_count cache.new ≤ dirty_count cache.old + 1 }
        ensures sized { KeepsSize cache.old cache.new }
    {
        self.put_value(cache, location);
        self.hand.stage = Stage::Stored;
    }

    /// Writes the bytes of a store.
    #[inline(always)]
    fn store<N>(&mut self, cache: &mut Cache) -> MicroStep
        requires sound { IsSoundParts self.old }
        requires stage { self.old.hand.stage ≡ Stores }
        ensures acts { (g : Given) → IsActed g
            cache.old cache.new (hart_state_of self.old) (hart_state_of self.new) result }
        ensures sound { IsSoundParts self.new }
    {
        let b = self.hand.access.span().first_block();
        match cache.latest(b) {
            Some(location) => {
                self.store_at::<N>(cache, location);
                MicroStep::Taken(HartStep::Moved)
            }
            None => {
                let step = self.store_far(cache);
                self.came(step)
            }
        }
    }

    /// Writes the bytes of a store to any line.
    #[inline(never)]
    fn store_far(&mut self, cache: &mut Cache) -> ShortStep
        requires sound { IsSoundParts self.old }
        requires stage { self.old.hand.stage ≡ Stores }
        ensures acts { (g : Given) → IsActed g
            cache.old cache.new (hart_state_of self.old) (hart_state_of self.new) (micro_step result self.new.epoch.over) }
        ensures sound { IsSoundParts self.new }
    {
        let b = self.hand.access.span().first_block();
        match cache.find(b) {
            Some(location) => {
                self.store_at::<()>(cache, location);
                ShortStep::Moved
            }
            None => ShortStep::Missing(b),
        }
    }

    /// Retires an instruction of this effect, which has read this number if it reads.
    #[inline(always)]
    fn retire<N>(&mut self, alone: bool, effect: &Effect, number: u64) -> HartStep
        requires range { IsInRange self.old.geometry }
        requires alone { IsAloneIf alone self.old.cpu }
        requires no_call { effect.now ≢ Environment }
        requires number { (calls : Calls) → effect_finished self.old.cpu effect.now number calls
            ≡ effect_finished self.old.cpu effect.now (number_in effect.now (hart_state_of self.old).bytes) calls }
        requires count { self.old.cpu.count + 1 < 2 ^ 64 }
        requires going { self.old.epoch.over ≡ None }
        ensures hart { (input : List ℕ) → hart_state_of self.new ≡ retired input effect.now (hart_state_of self.old) }
        ensures says { (input : List ℕ) → result ≡ over_or_retired (epoch_retired input effect.now (hart_state_of self.old)).over }
        ensures sound { IsSoundParts self.new }
    {
        self.cpu.finish_alone(alone, effect, number);
        self.epoch.retired_once(is_running(self.cpu.status()));
        self.hand.stage = Stage::Idle;
        self.ended()
    }

    /// How a step ends with which an instruction has ended: the epoch goes on after it, or is over.
    #[inline(always)]
    pub(crate) fn ended(&self) -> HartStep
        ensures { result ≡ over_or_retired self.now.epoch.over }
    {
        match self.epoch.over() {
            None => HartStep::Retired,
            Some(cause) => HartStep::Over(cause),
        }
    }

    /// What the step answers after a micro-step that a function of its own took.
    #[inline(always)]
    pub(crate) fn came(&self, step: ShortStep) -> MicroStep
        ensures { result ≡ micro_step step self.now.epoch.over }
    {
        match step {
            ShortStep::Missing(b) => MicroStep::Missing(b),
            ShortStep::Moved => MicroStep::Taken(HartStep::Moved),
            ShortStep::Waiting => MicroStep::Taken(HartStep::Waiting),
            ShortStep::Ended => MicroStep::Taken(self.ended()),
        }
    }

    /// Takes the next micro-step, if the line of the block that it touches is there, or it touches none.
    #[inline(always)]
    pub fn act<N>(
        &mut self,
        cache: &mut Cache,
        free: u64,
        under_way: bool,
        input: &[u8],
    ) -> MicroStep
        requires sound { IsSoundParts self.old }
        requires count { self.old.cpu.count + 1 < 2 ^ 64 }
        requires going { self.old.epoch.over ≡ None }
        ensures acts { IsActed (given input.now free under_way)
            cache.old cache.new (hart_state_of self.old) (hart_state_of self.new) result }
        ensures sound { IsSoundParts self.new }
    {
        match self.hand.stage {
            Stage::Idle => self.fetch::<N>(false, cache, input),
            Stage::Jumps => {
                let effect = self.hand.jump();
                MicroStep::Taken(self.retire::<N>(false, &effect, 0))
            }
            Stage::Sets => {
                let effect = self.hand.set();
                MicroStep::Taken(self.retire::<N>(false, &effect, 0))
            }
            Stage::Loads => self.load::<N>(cache),
            Stage::Loaded => {
                let effect = self.hand.load();
                let number = self.hand.number();
                MicroStep::Taken(self.retire::<N>(false, &effect, number))
            }
            Stage::Secures => MicroStep::Taken(self.room::<N>(cache, free, under_way)),
            Stage::Stores => self.store::<N>(cache),
            Stage::Stored => {
                let effect = self.hand.store();
                MicroStep::Taken(self.retire::<N>(false, &effect, 0))
            }
            Stage::InPieces => {
                let step = self.act_in_pieces(cache, free, under_way, input);
                self.came(step)
            }
        }
    }

    /// Retires the instruction in hand, if that is its next micro-step and it is in no pieces.
    #[inline(always)]
    fn retire_next<N>(&mut self, alone: bool) -> Option<HartStep>
        requires sound { IsSoundParts self.old }
        requires alone { IsAloneIf alone self.old.cpu }
        requires count { self.old.cpu.count + 1 < 2 ^ 64 }
        requires going { self.old.epoch.over ≡ None }
        ensures acts { IfSome result (λ step. (g : Given) (c : Contents) → IsActed g
            c c (hart_state_of self.old) (hart_state_of self.new) (Taken step)) }
        ensures left { result ≡ None → self.new ≡ self.old }
        ensures sound { IsSoundParts self.new }
    {
        match self.hand.stage {
            Stage::Jumps => {
                let effect = self.hand.jump();
                Some(self.retire::<N>(alone, &effect, 0))
            }
            Stage::Sets => {
                let effect = self.hand.set();
                Some(self.retire::<N>(alone, &effect, 0))
            }
            Stage::Loaded => {
                let effect = self.hand.load();
                let number = self.hand.number();
                Some(self.retire::<N>(alone, &effect, number))
            }
            Stage::Stored => {
                let effect = self.hand.store();
                Some(self.retire::<N>(alone, &effect, 0))
            }
            Stage::Idle | Stage::Loads | Stage::Secures | Stage::Stores | Stage::InPieces => None,
        }
    }

    /// Takes the micro-steps of a load in a row, from the one that reads its bytes on. It answers how many moved it on, and the
    /// step that retired it, if its line is there.
    #[inline(always)]
    fn load_on<N>(&mut self, alone: bool, cache: &mut Cache) -> (u64, Option<HartStep>)
        requires sound { IsSoundParts self.old }
        requires alone { IsAloneIf alone self.old.cpu }
        requires stage { self.old.hand.stage ≡ Loads }
        requires count { self.old.cpu.count + 1 < 2 ^ 64 }
        requires going { self.old.epoch.over ≡ None }
        ensures acts { (g : Given) → ActsAll g
            cache.old (hart_state_of self.old) (moved_then result.0 result.1) cache.new (hart_state_of self.new) }
        ensures few { result.0 ≤ 1 }
        ensures sound { IsSoundParts self.new }
    {
        match self.load::<N>(cache) {
            MicroStep::Taken(_) => (1, self.retire_next::<N>(alone)),
            MicroStep::Missing(_) => (0, None),
        }
    }

    /// Takes the micro-steps of a store in a row, from the one that secures room on. It answers how many moved it on, and the
    /// step that ended the row, if one did.
    #[inline(always)]
    fn store_on<N>(
        &mut self,
        alone: bool,
        cache: &mut Cache,
        free: u64,
        under_way: bool,
    ) -> (u64, Option<HartStep>)
        requires sound { IsSoundParts self.old }
        requires alone { IsAloneIf alone self.old.cpu }
        requires stage { self.old.hand.stage ≡ Secures }
        requires count { self.old.cpu.count + 1 < 2 ^ 64 }
        requires going { self.old.epoch.over ≡ None }
        ensures acts { (input : List ℕ) → ActsAll (given input free under_way)
            cache.old (hart_state_of self.old) (moved_then result.0 result.1) cache.new (hart_state_of self.new) }
        ensures few { result.0 ≤ 2 }
        ensures sound { IsSoundParts self.new }
    {
        match self.room::<N>(cache, free, under_way) {
            HartStep::Moved => match self.store::<N>(cache) {
                MicroStep::Taken(_) => (2, self.retire_next::<N>(alone)),
                MicroStep::Missing(_) => (1, None),
            },
            step => (0, Some(step)),
        }
    }

    /// Takes the micro-steps in a row of an instruction that was fetched, as `act_in_row` answers.
    #[inline(always)]
    fn act_fetched<N>(
        &mut self,
        alone: bool,
        cache: &mut Cache,
        free: u64,
        under_way: bool,
    ) -> (u64, Option<HartStep>)
        requires sound { IsSoundParts self.old }
        requires alone { IsAloneIf alone self.old.cpu }
        requires count { self.old.cpu.count + 1 < 2 ^ 64 }
        requires going { self.old.epoch.over ≡ None }
        ensures acts { (input : List ℕ) → ActsAll (given input free under_way)
            cache.old (hart_state_of self.old) (moved_then result.0 result.1) cache.new (hart_state_of self.new) }
        ensures few { result.0 ≤ 2 }
        ensures sound { IsSoundParts self.new }
    {
        match self.hand.stage {
            Stage::Loads => self.load_on::<N>(alone, cache),
            Stage::Secures => self.store_on::<N>(alone, cache, free, under_way),
            Stage::Idle
            | Stage::Jumps
            | Stage::Sets
            | Stage::Loaded
            | Stage::Stores
            | Stage::Stored
            | Stage::InPieces => (0, self.retire_next::<N>(alone)),
        }
    }

    /// Fetches the next instruction, and takes its other micro-steps in a row, as `act_in_row` answers.
    #[inline(always)]
    fn act_from_fetch<N>(
        &mut self,
        alone: bool,
        cache: &mut Cache,
        free: u64,
        under_way: bool,
        input: &[u8],
    ) -> (u64, Option<HartStep>)
        requires sound { IsSoundParts self.old }
        requires alone { IsAloneIf alone self.old.cpu }
        requires stage { self.old.hand.stage ≡ Idle }
        requires count { self.old.cpu.count + 1 < 2 ^ 64 }
        requires going { self.old.epoch.over ≡ None }
        ensures acts { ActsAll (given input.now free under_way)
            cache.old (hart_state_of self.old) (moved_then result.0 result.1) cache.new (hart_state_of self.new) }
        ensures few { result.0 ≤ 3 }
        ensures left { result.0 ≡ 0 → (result.1 ≡ None) × (hart_state_of self.new ≡ hart_state_of self.old) × (cache.new ≡ cache.old) }
        ensures sound { IsSoundParts self.new }
    {
        match self.fetch::<N>(alone, cache, input) {
            MicroStep::Taken(_) => {
                let (moved, last) = self.act_fetched::<N>(alone, cache, free, under_way);
                (moved + 1, last)
            }
            MicroStep::Missing(_) => (0, None),
        }
    }

    /// Takes the micro-steps of the next instruction in a row, if none is in hand: as long as each moves it on, its line is there,
    /// and it is in no pieces. It answers how many moved it on, and the step that ended the row, if one did that was taken. The
    /// number of a hart that is alone is a constant all through the row.
    #[inline(always)]
    pub fn act_in_row<N>(
        &mut self,
        alone: bool,
        cache: &mut Cache,
        free: u64,
        under_way: bool,
        input: &[u8],
    ) -> (u64, Option<HartStep>)
        requires sound { IsSoundParts self.old }
        requires alone { IsAloneIf alone self.old.cpu }
        requires count { self.old.cpu.count + 1 < 2 ^ 64 }
        requires going { self.old.epoch.over ≡ None }
        ensures acts { ActsAll (given input.now free under_way)
            cache.old (hart_state_of self.old) (moved_then result.0 result.1) cache.new (hart_state_of self.new) }
        ensures few { result.0 ≤ 3 }
        ensures left { result.0 ≡ 0 → (result.1 ≡ None) × (hart_state_of self.new ≡ hart_state_of self.old) × (cache.new ≡ cache.old) }
        ensures sound { IsSoundParts self.new }
    {
        match self.hand.stage {
            Stage::Idle => self.act_from_fetch::<N>(alone, cache, free, under_way, input),
            Stage::Jumps
            | Stage::Sets
            | Stage::Loads
            | Stage::Loaded
            | Stage::Secures
            | Stage::Stores
            | Stage::Stored
            | Stage::InPieces => (0, None),
        }
    }
}
