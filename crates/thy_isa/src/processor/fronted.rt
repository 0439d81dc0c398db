//! A processor one of whose harts is in front. The harts stay where they are: which is in front is a number.
#![tactic(auto)]

ghost use Rattle.std.specs.Prelude.{◌≡◌, ◌≢◌, ◌+◌, ◌<◌, ◌^◌, true, None};
ghost use Rattle.thy_isa.specs.declared.state.CallState.{CallState as CallsOf};
ghost use Rattle.thy_isa.specs.declared.state.Effect.TheVariants.{Environment};
ghost use Rattle.thy_isa.specs.Step.{AreCallsOf, cpu_crossed, finished, within};
ghost use Rattle.thy_isa.specs.Processor.{IsAloneIf, front_after};

use crate::processor::processor::Processor;
use crate::{CallState, CpuState, Effect, Regs, Status, within};
use std::marker::Model;

/// A processor of one or two harts, one of which is in front. Contracts see the `CpuState` that it stands for.
#[derive(Drop)]
pub struct Fronted {
    processor: Processor,
    /// The number of the hart in front.
    hart: u8,
    console_len: u64,
}

impl Model for Fronted {
    ghost use Rattle.std.specs.Prelude.{◌<◌, ◌≤◌, length};
    ghost use Rattle.thy_isa.specs.declared.state.CpuState.{CpuState as CpuValue};
    ghost use Rattle.thy_isa.specs.Processor.{cpu_at};

    ghost Value = { CpuValue };

    ghost view = { λ f. cpu_at f.hart f.console_len f.processor };

    ghost invariant = { λ f. (f.hart < length f.processor.harts) × (length f.processor.harts ≤ 2) };
}

impl Fronted {
    /// This processor, with its hart in front kept apart.
    pub fn of(cpu: &CpuState) -> Fronted
        ensures { result ≡ cpu.now }
    {
        Fronted {
            processor: Processor::of(cpu),
            hart: 0,
            console_len: cpu.console_len,
        }
    }

    /// The processor as a value.
    pub fn cpu(&self) -> CpuState
        ensures { result ≡ self.now }
    {
        self.processor.cpu(self.hart, self.console_len)
    }

    /// Whether the hart in front is alone.
    #[inline(always)]
    pub fn is_alone(&self) -> bool
        ensures alone { IsAloneIf result self.now }
        ensures beside { self.now.other ≡ None → result ≡ true }
    {
        self.processor.harts() < 2
    }

    /// The program counter of the hart in front, which is alone if `alone` says so.
    #[inline(always)]
    pub fn pc(&self, alone: bool) -> u64
        requires { IsAloneIf alone self.now }
        ensures { result ≡ self.now.pc }
    {
        let hart = seat(alone, self.hart);
        self.processor.pc(hart)
    }

    /// The registers of the hart in front, which is alone if `alone` says so.
    #[inline(always)]
    pub fn regs(&self, alone: bool) -> &Regs
        requires { IsAloneIf alone self.now }
        ensures { result.now ≡ self.now.regs }
    {
        let hart = seat(alone, self.hart);
        self.processor.regs(hart)
    }

    /// The length of the console in bytes.
    pub fn console_len(&self) -> u64
        ensures { result ≡ self.now.console_len }
    {
        self.console_len
    }

    /// How many bytes of the input were read.
    pub fn cursor(&self) -> u64
        ensures { result ≡ self.now.cursor }
    {
        self.processor.cursor()
    }

    /// The program break, an address in bytes.
    pub fn brk(&self) -> u64
        ensures { result ≡ self.now.brk }
    {
        self.processor.brk()
    }

    /// The least address that the break may have.
    pub fn floor(&self) -> u64
        ensures { result ≡ self.now.floor }
    {
        self.processor.floor()
    }

    /// Whether the program runs.
    #[inline(always)]
    pub fn status(&self) -> Status
        ensures { result ≡ self.now.status }
    {
        self.processor.status()
    }

    /// Brings the other hart to the front. With one hart nothing changes.
    #[inline(always)]
    pub fn cross(&mut self)
        ensures { self.new ≡ cpu_crossed self.old }
    {
        self.hart = front_after(self.processor.harts(), self.hart);
    }

    /// The effect as the hart in front has it, as `within` of thy_isa says.
    pub fn within(&self, base: u64, size: u64, effect: Effect) -> Effect
        ensures { result ≡ within base size self.now.other effect }
    {
        match effect {
            Effect::Reserve { .. } | Effect::Conditional { .. } | Effect::Modify { .. } => {
                within(base, size, &self.processor.other(self.hart), effect)
            }
            _ => within(base, size, &None, effect),
        }
    }

    /// Takes an effect of the hart in front that is not an environment call, as `finish_alone` of thy_isa says. The hart is alone
    /// if `alone` says so.
    #[inline(always)]
    pub fn finish_alone(&mut self, alone: bool, effect: &Effect, number: u64)
        requires alone { IsAloneIf alone self.old }
        requires count { self.old.count + 1 < 2 ^ 64 }
        requires no_call { effect.now ≢ Environment }
        ensures { (calls : CallsOf) → self.new ≡ finished self.old effect.now number calls }
    {
        let hart = seat(alone, self.hart);
        self.processor.finish_alone(hart, effect, number);
    }

    /// Takes an effect of the hart in front, as `finish` of thy_isa says.
    pub fn finish(&mut self, effect: &Effect, number: u64, calls: &CallState)
        requires count { self.old.count + 1 < 2 ^ 64 }
        requires calls { AreCallsOf self.old calls.now }
        requires len { calls.now.console_len ≡ self.old.console_len }
        ensures { self.new ≡ finished self.old effect.now number calls.now }
    {
        self.console_len = self.processor.finish(self.hart, effect, number, calls);
    }
}

/// The number of the hart in front: a constant if it is alone.
#[inline(always)]
fn seat(alone: bool, hart: u8) -> u8
    requires { alone ≡ true → hart ≡ 0 }
    ensures { result ≡ hart }
{
    if alone { 0 } else { hart }
}

/// The number of the hart that comes to the front next, of this number of harts.
#[inline(always)]
fn front_after(harts: u8, hart: u8) -> u8
    ensures { result ≡ front_after harts hart }
{
    if harts < 2 {
        hart
    } else if hart == 0 {
        1
    } else {
        0
    }
}
