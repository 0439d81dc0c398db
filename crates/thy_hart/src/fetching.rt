//! How a hart fetches its next instruction: the four bytes at the program counter, from a line of the cache.
#![tactic(auto, unfolding(crate::specs::HartState::fetched_block, crate::specs::Outcomes::fetched, crate::specs::Outcomes::room_secured, crate::specs::Outcomes::room_answer, thy_isa::specs::OnBlocks::effect_in, thy_isa::specs::OnBlocks::cpu_after))]

ghost use Rattle.std.specs.Prelude.{◌≡◌, ℕ, Bool, None, Some, ◌+◌, ◌-◌, ◌<◌, ◌≤◌, Ok};
ghost use Rattle.thy_block.specs.Geometry.{IsInRange, program_size};
ghost use Rattle.thy_cache.specs.Contents.{location_of, read_from};
ghost use Rattle.thy_cache.specs.Flat.{KeepsLines};
ghost use Rattle.thy_block.specs.Spans.{first_block, first_byte};
ghost use Rattle.thy_hart.specs.declared.in_hand.Stage.TheVariants.{Idle};
ghost use Rattle.thy_isa.specs.Processor.{IsAloneIf};
ghost use Rattle.thy_hart.specs.HartState.{secured};
ghost use Rattle.thy_hart.specs.Outcomes.{given};
ghost use Rattle.thy_hart.specs.InHand.{hart_state_of, IsSoundParts};
ghost use Rattle.thy_hart.specs.declared.hand.HartStep.TheVariants.{Moved};
ghost use Rattle.thy_hart.specs.declared.hand.MicroStep.TheVariants.{Taken};
ghost use Rattle.thy_hart.specs.MicroSteps.{IsFetchedSpan, ReadsWord, FetchesIn, IsActed, micro_step};

use crate::hand::{HartStep, MicroStep, ShortStep};
use crate::micro_steps::HartParts;
use thy_block::Span;
use thy_cache::{Cache, LineLocation};
use thy_isa::{Cause, fetch_fault, number, word};

/// A quarter of the numbers of 64 bits.
const QUARTER: u64 = 1 << 62;

/// The word of a span of four bytes within one block, whose line is at this location.
fn fetch_word(cache: &mut Cache, at: Span, location: LineLocation) -> u32
    requires found { location_of cache.old (first_block at) ≡ Some location }
    requires len { at.len ≡ 4 }
    requires whole { first_byte at + 4 ≤ 64 }
    ensures word { ReadsWord cache.old at result }
    ensures cache { cache.new ≡ read_from (first_block at) cache.old }
    ensures lines { KeepsLines cache.old cache.new }
{
    let b = at.first_block();
    let number = word(
        cache.block_in(b, location).bytes(),
        at.first_byte() as usize,
    );
    cache.touch(b, location);
    number
}

impl HartParts {
    /// The four bytes of memory at the program counter, or why no word can be fetched there. One comparison shows that they lie
    /// inside: of the offset with its low two bits in front, which is low only if they are 0. Base and size of program memory are
    /// multiples of four, and an address below the base has a greater offset than its size.
    #[inline(always)]
    fn fetched_span(&self, alone: bool) -> Result<Span, Cause>
        requires range { IsInRange self.now.geometry }
        requires alone { IsAloneIf alone self.now.cpu }
        ensures { IsFetchedSpan self.now.geometry self.now.cpu result }
    {
        let base = self.geometry.numbers().base;
        let words = self.geometry.program_size() / 4;
        let pc = self.cpu.pc(alone);
        let at = pc.wrapping_sub(base);
        let turned = at % 4 * QUARTER + at / 4;
        if turned < words {
            Ok(Span { at, len: 4 })
        } else {
            self.tested_span()
        }
    }

    /// Tests the program counter by all comparisons. An answer of three words would be one in memory, so this is no call.
    #[inline(always)]
    fn tested_span(&self) -> Result<Span, Cause>
        ensures { IsFetchedSpan self.now.geometry self.now.cpu result }
    {
        let base = self.geometry.numbers().base;
        let size = self.geometry.program_size();
        let pc = self.cpu.pc(false);
        match fetch_fault(base, size, pc) {
            Some(cause) => Err(cause),
            None => Ok(Span {
                at: pc - base,
                len: 4,
            }),
        }
    }

    /// Fetches the instruction at the program counter, whose word lies here, in the line at this location.
    #[inline(always)]
    fn fetch_at<N>(
        &mut self,
        alone: bool,
        cache: &mut Cache,
        at: Span,
        location: LineLocation,
        input: &[u8],
    )
        requires range { IsInRange self.old.geometry }
        requires alone { IsAloneIf alone self.old.cpu }
        requires at { IsFetchedSpan self.old.geometry self.old.cpu (Ok at) }
        requires found { location_of cache.old (first_block at) ≡ Some location }
        ensures hart { FetchesIn input.now cache.old (hart_state_of self.old) (hart_state_of self.new) }
        ensures sound { IsSoundParts self.new }
        ensures unsecured { secured (hart_state_of self.new).hand ≡ 0 }
        ensures cache { cache.new ≡ read_from (first_block at) cache.old }
        ensures lines { KeepsLines cache.old cache.new }
    {
        let word = fetch_word(cache, at, location);
        self.begin_word::<N>(alone, word, input);
    }

    /// Fetches the instruction at the program counter.
    #[inline(always)]
    pub(crate) fn fetch<N>(&mut self, alone: bool, cache: &mut Cache, input: &[u8]) -> MicroStep
        requires sound { IsSoundParts self.old }
        requires alone { IsAloneIf alone self.old.cpu }
        requires stage { self.old.hand.stage ≡ Idle }
        ensures acts { (free : ℕ) (under_way : Bool) → IsActed (given input.now free under_way)
            cache.old cache.new (hart_state_of self.old) (hart_state_of self.new) result }
        ensures sound { IsSoundParts self.new }
    {
        match self.fetched_span(alone) {
            Err(cause) => {
                self.begin_trap(cause, input);
                MicroStep::Taken(HartStep::Moved)
            }
            Ok(at) => match cache.latest(at.first_block()) {
                Some(location) => {
                    self.fetch_at::<N>(alone, cache, at, location, input);
                    MicroStep::Taken(HartStep::Moved)
                }
                None => {
                    let step = self.fetch_far(cache, at, input);
                    self.came(step)
                }
            },
        }
    }

    /// Fetches the instruction at the program counter, whose word lies here, from any line.
    #[inline(never)]
    fn fetch_far(&mut self, cache: &mut Cache, at: Span, input: &[u8]) -> ShortStep
        requires sound { IsSoundParts self.old }
        requires stage { self.old.hand.stage ≡ Idle }
        requires at { IsFetchedSpan self.old.geometry self.old.cpu (Ok at) }
        ensures acts { (free : ℕ) (under_way : Bool) → IsActed (given input.now free under_way)
            cache.old cache.new (hart_state_of self.old) (hart_state_of self.new) (micro_step result self.new.epoch.over) }
        ensures sound { IsSoundParts self.new }
    {
        match cache.find(at.first_block()) {
            Some(location) => {
                self.fetch_at::<()>(false, cache, at, location, input);
                ShortStep::Moved
            }
            None => ShortStep::Missing(at.first_block()),
        }
    }
}
