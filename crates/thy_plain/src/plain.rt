//! The machine.
ghost use Rattle.std.specs.Prelude.{◌≡◌, true, ◌+◌, ◌<◌, ◌≤◌, ◌^◌, length, IfOk};
ghost use Rattle.thy_block.specs.Bytes.{bytes_of};
ghost use Rattle.thy_block.specs.Geometry.{program_size};
ghost use Rattle.thy_elf.specs.Image.{contents_of};
ghost use Rattle.thy_isa.specs.Step.{cpu_of, fronted, state_of, is_running};
ghost use Rattle.thy_isa.specs.Storable.{IsStorable};
ghost use Rattle.thy_plain.specs.Machine.{in_state, loaded, stepped, stepped_by, after_steps, StopsAt};

use crate::advance::{advance, take_step};
use crate::held::{Held, held_of, mach_state, seat_of};
use crate::setup::Setup;
use crate::start::state_over;
use crate::window::{window_of, words_of};
use std::alloc::{AllocError, Global};
use std::marker::Model;
use thy_block::{Bytes, Geometry};
use thy_elf::Image;
use thy_isa::{CpuState, DecodedWords, MachState, Status, is_running};

/// The plain machine: its processor, memory and console. Contracts see its state, and what stays the same over a run. Only
/// `load`, `in_state` and `state` allocate, and no other call can fail.
#[derive(Drop)]
pub struct Plain {
    state: Held,
    setup: Setup,
    decoded: DecodedWords,
}

impl Model for Plain {
    ghost use Rattle.std.specs.Prelude.{◌≤◌, length};
    ghost use Rattle.thy_block.specs.Bytes.{bytes_of, room_of};
    ghost use Rattle.thy_plain.specs.Held.{IsSeat, state_at};
    ghost use Rattle.thy_plain.specs.Machine.{Machine, setting_of};
    ghost use Rattle.thy_plain.specs.Window.{HasWords, IsWindow};

    ghost Value = { Machine };

    ghost view = { λ p. record { setting = setting_of p.setup; state = state_at 0 p.state } };

    ghost invariant = { λ p. (p.setup.room ≤ room_of p.state.console)
        × IsWindow p.setup.base (length (bytes_of p.state.memory)) p.setup.window
        × HasWords p.setup.base (length (bytes_of p.state.memory)) p.setup.words
        × IsSeat 0 p.state.processor };
}

impl Plain {
    /// A machine at the start of an image's program, which can read this input. Allocates a copy of
    /// the image's memory, and the whole console.
    pub fn load(
        alloc: Global,
        image: &Image,
        geometry: &Geometry,
        input: Bytes,
    ) -> Result<Plain, AllocError>
        requires { length (bytes_of image.now.memory) ≡ program_size geometry.now }
        ensures machine { IfOk result (λ m. m ≡ loaded geometry.now (contents_of image.now) (bytes_of input)) }
        ensures storable { IfOk result (λ m. IsStorable (program_size geometry.now) m.state) }
    {
        let room = geometry.console_room();
        let base = geometry.numbers().base;
        let memory = image.memory.duplicate(alloc)?;
        let console = Bytes::with_room(alloc, room as usize)?;
        let size = memory.len() as u64;
        Ok(Plain {
            state: held_of(state_over(image.entry, image.floor, memory, console, geometry)),
            setup: Setup {
                base,
                input,
                room,
                window: window_of(base, size),
                words: words_of(base, size),
            },
            decoded: DecodedWords::new(),
        })
    }

    /// A machine in a state, which can read this input. Allocates a copy of the state's memory, and the whole console.
    pub fn in_state(
        alloc: Global,
        state: &MachState,
        geometry: &Geometry,
        input: Bytes,
    ) -> Result<Plain, AllocError>
        ensures { IfOk result (λ m. m ≡ in_state geometry.now (state_of state.now) (bytes_of input)) }
    {
        let room = geometry.console_room();
        let base = geometry.numbers().base;
        let memory = state.memory.duplicate(alloc)?;
        let mut console = Bytes::with_room(alloc, room as usize)?;
        console.extend(state.console.as_slice())?;
        let size = memory.len() as u64;
        Ok(Plain {
            state: held_of(MachState {
                pc: state.pc,
                regs: state.regs,
                memory,
                console,
                cursor: state.cursor,
                brk: state.brk,
                floor: state.floor,
                count: state.count,
                status: state.status,
                other: state.other,
            }),
            setup: Setup {
                base,
                input,
                room,
                window: window_of(base, size),
                words: words_of(base, size),
            },
            decoded: DecodedWords::new(),
        })
    }

    /// Takes one step of hart 0. An ended state stays as it is.
    pub fn step(&mut self)
        requires { self.old.state.count < 2 ^ 63 }
        ensures { self.new ≡ stepped self.old }
    {
        take_step(&mut self.state, 0, &self.setup, &mut self.decoded);
    }

    /// Takes one step of a hart, 0 or 1. An ended state stays as it is, and with one hart each step is of that one.
    pub fn step_of(&mut self, hart: u8)
        requires count { self.old.state.count < 2 ^ 63 }
        requires hart { hart ≤ 1 }
        ensures { self.new ≡ stepped_by hart self.old }
    {
        if hart == 0 || self.state.processor.harts() <= hart {
            self.step();
        } else {
            take_step(&mut self.state, hart, &self.setup, &mut self.decoded);
        }
    }

    /// Takes a step of hart 0, while the program runs. It answers whether it still does.
    #[inline(always)]
    #[tactic(auto, unfolding(thy_isa::specs::Step::step))]
    fn advance(&mut self) -> bool
        requires count { self.old.state.count < 2 ^ 63 }
        requires runs { is_running self.old.state.status ≡ true }
        ensures state { self.new ≡ stepped self.old }
        ensures runs { result ≡ is_running self.new.state.status }
    {
        advance(&mut self.state, 0, &self.setup, &mut self.decoded)
    }

    /// Takes steps until the program no longer runs, or `limit` steps are done. Returns how many it took. All are hart 0's. The
    /// count of instructions says how many were taken, so the loop counts nothing but what is left of the limit.
    pub fn run(&mut self, limit: u64) -> u64
        requires { self.old.state.count + limit < 2 ^ 63 }
        ensures stops { StopsAt self.old limit result }
        ensures state { self.new ≡ after_steps result self.old }
    {
        if !self.is_running() {
            return 0;
        }
        let before = self.count();
        for done in 0..limit {
            if !self.advance() {
                let now = self.count();
                return now - before;
            }
        }
        limit
    }

    /// Whether the program runs.
    fn is_running(&self) -> bool
        ensures { result ≡ is_running self.now.state.status }
    {
        is_running(self.status())
    }

    /// Whether the program runs, and how it ended if it does not.
    pub fn status(&self) -> Status
        ensures { result ≡ self.now.state.status }
    {
        self.state.processor.status()
    }

    /// How many steps were taken, including a step that ended with a trap or an exit.
    pub fn count(&self) -> u64
        ensures { result ≡ self.now.state.count }
    {
        self.state.processor.count()
    }

    /// The program counter of a hart, 0 or 1, an address in bytes. With one hart it is that one's.
    pub fn pc(&self, hart: u8) -> u64
        requires { hart ≤ 1 }
        ensures { result ≡ (fronted hart self.now.state).pc }
    {
        let hart = seat_of(&self.state, hart);
        self.state.processor.pc(hart)
    }

    /// The state without its memory and console, with a hart, 0 or 1, in front. With one hart it is that one.
    pub fn cpu(&self, hart: u8) -> CpuState
        requires { hart ≤ 1 }
        ensures { result ≡ cpu_of (fronted hart self.now.state) }
    {
        let hart = seat_of(&self.state, hart);
        self.state
            .processor
            .cpu(hart, self.state.console.len() as u64)
    }

    /// The program memory alone.
    pub fn memory(&self) -> &Bytes
        ensures { bytes_of result.now ≡ self.now.state.memory }
    {
        &self.state.memory
    }

    /// What the program has written to its outputs.
    pub fn console(&self) -> &Bytes
        ensures { bytes_of result.now ≡ self.now.state.console }
    {
        &self.state.console
    }

    /// A copy of the current state, with hart 0 in front.
    ///
    /// # Errors
    /// Memory ran out.
    pub fn state(&self, alloc: Global) -> Result<MachState, AllocError>
        ensures { IfOk result (λ s. state_of s ≡ self.now.state) }
    {
        let memory = self.state.memory.duplicate(alloc)?;
        let console = self.state.console.duplicate(alloc)?;
        Ok(mach_state(&self.state.processor, memory, console))
    }

    /// The current state, with hart 0 in front.
    pub fn into_state(self) -> MachState
        ensures { state_of result ≡ self.state }
    {
        let Plain { state, .. } = self;
        let Held {
            processor,
            memory,
            console,
        } = state;
        mach_state(&processor, memory, console)
    }
}
