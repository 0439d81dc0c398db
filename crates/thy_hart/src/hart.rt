//! The hart and its calls.
ghost use Rattle.std.specs.Prelude.{◌≡◌, ◌≢◌, ◌⊎◌, None, false, ◌+◌, ◌<◌, ◌≤◌, ◌^◌, IfOk, OnOk, OnErr};
ghost use Rattle.thy_block.specs.Device.{CountsOneFault};
ghost use Rattle.thy_cache.specs.Contents.{dirty_count};
ghost use Rattle.thy_isa.specs.declared.state.Status.TheVariants.{Running};
ghost use Rattle.thy_isa.specs.Step.{cpu_crossed};
ghost use Rattle.thy_isa.specs.Processor.{IsAloneIf};
ghost use Rattle.thy_hart.specs.declared.hand.Hand.TheVariants.{Nothing};
ghost use Rattle.thy_hart.specs.Epoch.{next_epoch};
ghost use Rattle.thy_hart.specs.Bring.{CallsStore};
ghost use Rattle.thy_hart.specs.HartState.{new_hart, next_block, to_secure};
ghost use Rattle.thy_hart.specs.Outcomes.{given};
ghost use Rattle.thy_hart.specs.Moments.{moment, brings_line, IsReady};
ghost use Rattle.thy_hart.specs.OneStep.{IsStep};
ghost use Rattle.thy_hart.specs.Rows.{Takes, moved_then};
ghost use Rattle.thy_block.specs.Store.{Holding};

use crate::EpochState;
use crate::bring::bring;
use crate::hand::{HartStep, MicroStep};
use crate::in_hand::InHand;
use crate::micro_steps::HartParts;
use std::marker::Model;
use thy_block::{BlockStore, Geometry, NvmError};
use thy_cache::Cache;
use thy_isa::{CpuState, DecodedWords, Fronted};

/// The hart in front, of RV64IM, with its epoch and the other hart, if there are two. It executes an instruction in
/// micro-steps.
#[derive(Drop)]
pub struct Hart {
    parts: HartParts,
}

impl Model for Hart {
    ghost use Rattle.thy_hart.specs.HartState.{HartState};
    ghost use Rattle.thy_hart.specs.InHand.{hart_state_of, IsSoundParts};

    ghost Value = { HartState };

    ghost view = { λ h. hart_state_of h.parts };

    ghost invariant = { λ h. IsSoundParts h.parts };
}

impl Hart {
    /// A hart with this processor and no instruction in hand, at the start of an epoch.
    pub fn new(cpu: &CpuState, epoch: u64, geometry: &Geometry) -> Hart
        ensures { result ≡ new_hart geometry.now cpu.now epoch }
    {
        let span = geometry.numbers().epoch;
        Hart {
            parts: HartParts {
                geometry: *geometry,
                cpu: Fronted::of(cpu),
                epoch: EpochState::new(span, epoch),
                hand: InHand::nothing(),
                decoded: DecodedWords::new(),
            },
        }
    }

    /// The processor, as the last instruction that retired left it.
    pub fn cpu(&self) -> CpuState
        ensures { result ≡ self.now.cpu }
    {
        self.parts.cpu.cpu()
    }

    /// The epoch that executes, with its count of instructions.
    pub fn epoch(&self) -> &EpochState
        ensures { result.now ≡ self.now.epoch }
    {
        &self.parts.epoch
    }

    /// The geometry of the hart's machine.
    pub fn geometry(&self) -> &Geometry
        ensures { result.now ≡ self.now.geometry }
    {
        &self.parts.geometry
    }

    /// How many blocks the instruction in hand is to secure room for, 1 or 2, if that is its next micro-step.
    pub fn to_secure(&self) -> Option<u64>
        ensures { result ≡ to_secure self.now.hand }
    {
        self.parts.to_secure()
    }

    /// Begins the next epoch, if this one is over.
    pub fn sealed(&mut self)
        requires over { self.old.epoch.over ≢ None }
        requires number { self.old.epoch.number + 1 < 2 ^ 64 }
        ensures { self.new ≡ record self.old { epoch = next_epoch self.old.epoch } }
    {
        self.parts.epoch.sealed();
    }

    /// Brings the other hart to the front, if there are two, while no instruction is in hand.
    pub fn cross(&mut self)
        requires { self.old.hand ≡ Nothing }
        ensures { self.new ≡ record self.old { cpu = cpu_crossed self.old.cpu } }
    {
        self.parts.cpu.cross();
    }

    /// Takes one step, a cycle. If the step touches a block that is not in the cache, it brings the line nearer and the
    /// hart stays; else it fetches, reads a block, secures room, writes a block, or retires. `free` is the store's
    /// number of free table entries, and `under_way` says whether a checkpoint is under way. A failure is the device's,
    /// and leaves hart and cache as they were.
    ///
    /// No block is written before room is secured for it. The hart waits, or its epoch is over before the instruction,
    /// exactly if free entries are short. A step that brings in no line leaves store and device alone; any other step
    /// calls the store at most once, and if no line is dirty this call is a load.
    pub fn step<N, S: BlockStore<N>>(
        &mut self,
        cache: &mut Cache,
        store: &mut S,
        nvm: &mut N,
        free: u64,
        under_way: bool,
        input: &[u8],
    ) -> Result<HartStep, NvmError>
        requires going { self.old.epoch.over ≡ None }
        requires running { self.old.cpu.status ≡ Running }
        requires count { self.old.cpu.count + 1 < 2 ^ 64 }
        requires ready { IsReady (moment self.old cache.old (S.holding store.old nvm.old)) }
        requires free { free ≡ (S.holding store.old nvm.old).free }
        ensures step { IfOk result (λ step. IsStep (given input.now free under_way)
            (moment self.old cache.old (S.holding store.old nvm.old))
            (moment self.new cache.new (S.holding store.new nvm.new)) step) }

        // A failure leaves hart and cache.
        ensures hart { OnErr result (self.new ≡ self.old) }
        ensures cache { OnErr result (cache.new ≡ cache.old) }

        // A line is brought by a load of its block, if there is room, and else by the store of the line in its way.
        ensures called { let old = moment self.old cache.old (S.holding store.old nvm.old) in
            OnOk result (CallsStore S.loads S.stores (brings_line old) (next_block self.old)
            cache.old cache.new store.old nvm.old store.new nvm.new) }

        // The store is called once at most, not at all if no line is brought, and for a load if no line is dirty.
        ensures untouched { brings_line (moment self.old cache.old (S.holding store.old nvm.old)) ≡ false
            → (store.new ≡ store.old) × (nvm.new ≡ nvm.old) }
        ensures once { ((store.new ≡ store.old) × (nvm.new ≡ nvm.old)) ⊎ S.once store.old nvm.old store.new nvm.new }
        ensures loads { dirty_count cache.old ≡ 0
            → ((store.new ≡ store.old) × (nvm.new ≡ nvm.old)) ⊎ S.loads store.old nvm.old store.new nvm.new }
        ensures stays { S.stays store.old nvm.old store.new nvm.new }
        ensures cause { CountsOneFault result (S.holding store.old nvm.old).faults (S.holding store.new nvm.new).faults }
    {
        match self.parts.act::<(N, S)>(cache, free, under_way, input) {
            MicroStep::Taken(step) => Ok(step),
            MicroStep::Missing(b) => match bring(cache, b, store, nvm) {
                Ok(()) => Ok(HartStep::Moved),
                Err(fault) => Err(fault),
            },
        }
    }

    /// Whether there is no other hart.
    #[inline(always)]
    pub fn is_alone(&self) -> bool
        ensures { IsAloneIf result self.now.cpu }
    {
        self.parts.cpu.is_alone()
    }

    /// Takes the steps of the next instruction in a row, if none is in hand: as far as they bring no line, if it moves at most
    /// 8 bytes within one block. It answers how many moved it on, 3 at most, and the step that ended the row, if one did. It
    /// may take none, and can't fail. There is no other hart if `alone` says so. The type `N` makes a copy of its own for each
    /// caller.
    #[inline(always)]
    pub fn step_on<N>(
        &mut self,
        alone: bool,
        cache: &mut Cache,
        free: u64,
        under_way: bool,
        input: &[u8],
    ) -> (u64, Option<HartStep>)
        requires alone { IsAloneIf alone self.old.cpu }
        requires going { self.old.epoch.over ≡ None }
        requires count { self.old.cpu.count + 1 < 2 ^ 64 }
        ensures takes { (held : Holding) → IsReady (moment self.old cache.old held) → free ≡ held.free
            → Takes (given input.now free under_way) held
            self.old cache.old (moved_then result.0 result.1) self.new cache.new }
        ensures few { result.0 ≤ 3 }
        ensures left { result.0 ≡ 0 → (result.1 ≡ None) × (self.new ≡ self.old) × (cache.new ≡ cache.old) }
    {
        self.parts
            .act_in_row::<N>(alone, cache, free, under_way, input)
    }
}
