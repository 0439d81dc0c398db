//! A processor: its harts, which stay where they are whichever takes a step, and what they share.
#![tactic(auto, unfolding(crate::specs::Processor::processor_finished, crate::specs::Processor::processor_served))]

ghost use Rattle.std.specs.Prelude.{◌≡◌, ◌≢◌, ℕ, false, ◌+◌, ◌<◌, ◌≤◌, ◌^◌, length, map, slice_set, take};
ghost use Rattle.thy_isa.specs.declared.state.CallState.{CallState};
ghost use Rattle.thy_isa.specs.declared.state.Effect.TheVariants.{Environment};
ghost use Rattle.thy_isa.specs.Calls.{call_of};
ghost use Rattle.thy_isa.specs.Reservations.{left_by};
ghost use Rattle.thy_isa.specs.Effects.{after};
ghost use Rattle.thy_isa.specs.Extending.{extended};
ghost use Rattle.thy_isa.specs.Regs.{regs_with};
ghost use Rattle.thy_isa.specs.Processor.{hart_at, losing, written_by, with_hart, after_write, retiring, hart_answered, processor_served, processor_finished, len_served, len_after, processor_of, other_of, cpu_at};

use crate::{
    Call, CallState, CpuState, Effect, Extend, OtherHart, Reg, Regs, Reservation, Status, Width,
    after, bytes_in, call, cause_number, extended, left_by, reservation,
};
use std::marker::Model;

/// How many harts a processor has at most.
pub const MOST_HARTS: usize = 2;

/// What a hart has of its own.
#[derive(Clone, Copy, Debug, PartialEq, Eq)]
pub struct HartOf {
    /// The program counter, an address in bytes.
    pub pc: u64,
    pub regs: Regs,
    /// The bytes that the hart has reserved: nothing with one hart.
    pub reserved: Reservation,
}

/// A processor: its harts, and what they share. Contracts see the harts as a list, in which a hart's number is its place.
#[derive(Drop)]
pub struct Processor {
    /// A bank for each hart that there may be; the harts have the first ones.
    banks: [HartOf; MOST_HARTS],
    harts: u8,
    cursor: u64,
    brk: u64,
    floor: u64,
    count: u64,
    status: Status,
}

impl Model for Processor {
    ghost use Rattle.std.specs.Prelude.{ℕ, ◌≡◌, ◌≤◌, length, take};
    ghost use Rattle.thy_isa.specs.Processor.{ProcessorState};

    ghost Value = { ProcessorState };

    ghost view = { λ p. record {
      harts = take p.harts p.banks;
      cursor = p.cursor;
      brk = p.brk;
      floor = p.floor;
      count = p.count;
      status = p.status;
    } };

    ghost invariant = { λ p. p.harts ≤ length p.banks };
}

impl Processor {
    /// How many harts the processor has: 1 or 2.
    pub fn harts(&self) -> u8
        ensures { result ≡ length self.now.harts }
    {
        self.harts
    }

    /// The program counter of a hart.
    #[inline(always)]
    pub fn pc(&self, hart: u8) -> u64
        requires { hart < length self.now.harts }
        ensures { result ≡ (hart_at self.now.harts hart).pc }
    {
        self.banks[hart as usize].pc
    }

    /// The registers of a hart.
    #[inline(always)]
    pub fn regs(&self, hart: u8) -> &Regs
        requires { hart < length self.now.harts }
        ensures { result.now ≡ (hart_at self.now.harts hart).regs }
    {
        &self.banks[hart as usize].regs
    }

    /// Whether the program runs.
    #[inline(always)]
    pub fn status(&self) -> Status
        ensures { result ≡ self.now.status }
    {
        self.status
    }

    /// How many bytes of the input were read.
    pub fn cursor(&self) -> u64
        ensures { result ≡ self.now.cursor }
    {
        self.cursor
    }

    /// The program break, an address in bytes.
    pub fn brk(&self) -> u64
        ensures { result ≡ self.now.brk }
    {
        self.brk
    }

    /// The least address that the break may have.
    pub fn floor(&self) -> u64
        ensures { result ≡ self.now.floor }
    {
        self.floor
    }

    /// How many instructions the harts have retired.
    pub fn count(&self) -> u64
        ensures { result ≡ self.now.count }
    {
        self.count
    }

    /// What a hart has reserved.
    pub fn reserved(&self, hart: u8) -> Reservation
        requires { hart < length self.now.harts }
        ensures { result ≡ (hart_at self.now.harts hart).reserved }
    {
        self.banks[hart as usize].reserved
    }

    /// A hart continues at `pc`.
    #[inline(always)]
    fn jump(&mut self, hart: u8, pc: u64)
        requires { hart < length self.old.harts }
        ensures { self.new ≡ with_hart hart (record (hart_at self.old.harts hart) { pc = pc }) self.old }
    {
        self.banks[hart as usize].pc = pc;
    }

    /// A hart continues at `pc`, with this number in a register.
    #[inline(always)]
    fn set(&mut self, hart: u8, pc: u64, rd: Reg, value: u64)
        requires { hart < length self.old.harts }
        ensures { let x = hart_at self.old.harts hart in
            self.new ≡ with_hart hart (record x { pc = pc; regs = regs_with x.regs rd value }) self.old }
    {
        let bank = &mut self.banks[hart as usize];
        bank.pc = pc;
        bank.regs.set(rd, value);
    }

    /// A hart continues at `pc`, with this number in a register and this reservation.
    #[inline(always)]
    fn set_reserving(&mut self, hart: u8, pc: u64, rd: Reg, value: u64, reserved: Reservation)
        requires { hart < length self.old.harts }
        ensures { let x = hart_at self.old.harts hart in
            self.new ≡ with_hart hart (record { pc = pc; regs = regs_with x.regs rd value; reserved = reserved }) self.old }
    {
        let bank = &mut self.banks[hart as usize];
        bank.pc = pc;
        bank.regs.set(rd, value);
        bank.reserved = reserved;
    }

    /// A hart has written `len` bytes at an address: each other one loses a reservation in their block.
    #[inline(always)]
    fn write_past(&mut self, hart: u8, at: u64, len: u64)
        requires { hart < length self.old.harts }
        ensures processor { self.new ≡ after_write at len hart self.old }
        ensures own { hart_at self.new.harts hart ≡ hart_at self.old.harts hart }
        ensures harts { length self.new.harts ≡ length self.old.harts }
    {
        if self.harts > 1 {
            lose_others(&mut self.banks, hart as usize, at, len);
        }
    }

    /// The instruction of a hart after a call, with the call's result in a0.
    fn answer(&mut self, hart: u8, value: u64)
        requires hart { hart < length self.old.harts }
        requires count { self.old.count + 1 < 2 ^ 64 }
        ensures { self.new ≡ retiring hart (hart_answered (hart_at self.old.harts hart) value) self.old }
    {
        self.set(hart, after(self.pc(hart)), Reg::new(A0), value);
        self.count += 1;
    }

    /// Ends an environment call of a hart. It answers how long the console is then.
    fn serve(&mut self, hart: u8, calls: &CallState) -> u64
        requires hart { hart < length self.old.harts }
        requires count { self.old.count + 1 < 2 ^ 64 }
        requires cursor { calls.now.cursor ≡ self.old.cursor }
        requires room { calls.now.console_len + calls.now.room < 2 ^ 64 }
        ensures processor { self.new ≡ processor_served hart self.old (call_of (hart_at self.old.harts hart).regs calls.now) }
        ensures len { result ≡ len_served calls.now (call_of (hart_at self.old.harts hart).regs calls.now) }
    {
        match call(self.regs(hart), calls) {
            Call::Answer(value) => {
                self.answer(hart, value);
                calls.console_len
            }
            Call::Exit(value) => {
                self.count += 1;
                self.status = Status::Exited(value);
                calls.console_len
            }
            Call::Break(at) => {
                self.answer(hart, at);
                self.brk = at;
                calls.console_len
            }
            Call::Take { at, len } => {
                self.cursor = calls.cursor + len;
                self.write_past(hart, at, len);
                self.answer(hart, len);
                calls.console_len
            }
            Call::Give { len, .. } => {
                self.answer(hart, len);
                calls.console_len + len
            }
        }
    }

    /// Takes an effect of a hart that is not an environment call, memory aside. `number` is what was read if the effect reads.
    #[inline(always)]
    pub fn finish_alone(&mut self, hart: u8, effect: &Effect, number: u64)
        requires hart { hart < length self.old.harts }
        requires count { self.old.count + 1 < 2 ^ 64 }
        requires alone { effect.now ≢ Environment }
        ensures processor { (calls : CallState) → self.new ≡ processor_finished hart self.old effect.now number calls }
    {
        match *effect {
            Effect::Next { pc } => self.jump(hart, pc),
            Effect::Write { pc, width, at, .. } => {
                self.write_past(hart, at, bytes_in(width));
                self.jump(hart, pc);
            }
            Effect::Set { pc, rd, value } => self.set(hart, pc, rd, value),
            Effect::Read {
                pc,
                width,
                extend,
                rd,
                ..
            } => self.set(hart, pc, rd, loaded(width, extend, number)),
            Effect::Reserve { rd, width, pc, at } => {
                let value = extended(width, Extend::Sign, number);
                self.set_reserving(hart, pc, rd, value, reservation(width, at));
            }
            Effect::Conditional {
                rd,
                width,
                pc,
                at,
                ..
            } => {
                self.write_past(hart, at, bytes_in(width));
                self.set_reserving(hart, pc, rd, 0, Reservation::Nothing(0));
            }
            Effect::Fail { rd, pc } => self.set_reserving(hart, pc, rd, 1, Reservation::Nothing(0)),
            Effect::Modify {
                rd,
                width,
                pc,
                at,
                ..
            } => {
                self.write_past(hart, at, bytes_in(width));
                self.set(hart, pc, rd, extended(width, Extend::Sign, number));
            }
            Effect::Environment => unreachable!(),
            Effect::Trap(cause) => self.status = Status::Trapped(cause_number(cause)),
        }
        self.count += 1;
    }

    /// Takes an effect of a hart, memory aside, and answers how long the console is then. `number` is what was read if the
    /// effect reads, and `calls` what an environment call depends on.
    pub fn finish(&mut self, hart: u8, effect: &Effect, number: u64, calls: &CallState) -> u64
        requires hart { hart < length self.old.harts }
        requires count { self.old.count + 1 < 2 ^ 64 }
        requires cursor { calls.now.cursor ≡ self.old.cursor }
        requires room { calls.now.console_len + calls.now.room < 2 ^ 64 }
        ensures processor { self.new ≡ processor_finished hart self.old effect.now number calls.now }
        ensures len { result ≡ len_after (hart_at self.old.harts hart).regs effect.now calls.now }
    {
        match *effect {
            Effect::Environment => self.serve(hart, calls),
            Effect::Next { .. }
            | Effect::Set { .. }
            | Effect::Read { .. }
            | Effect::Write { .. }
            | Effect::Reserve { .. }
            | Effect::Conditional { .. }
            | Effect::Fail { .. }
            | Effect::Modify { .. }
            | Effect::Trap(_) => {
                self.finish_alone(hart, effect, number);
                calls.console_len
            }
        }
    }

    /// The processor of these banks, which shares with its harts what this one does.
    fn over(banks: [HartOf; MOST_HARTS], harts: u8, cpu: &CpuState) -> Processor
        requires { harts ≤ length banks }
        ensures { result ≡ record {
          harts = take harts banks;
          cursor = cpu.now.cursor;
          brk = cpu.now.brk;
          floor = cpu.now.floor;
          count = cpu.now.count;
          status = cpu.now.status;
        } }
    {
        Processor {
            banks,
            harts,
            cursor: cpu.cursor,
            brk: cpu.brk,
            floor: cpu.floor,
            count: cpu.count,
            status: cpu.status,
        }
    }

    /// The processor that this is, but for the length of its console.
    pub fn of(cpu: &CpuState) -> Processor
        ensures processor { result ≡ processor_of cpu.now }
        ensures some { 0 < length result.harts }
        ensures few { length result.harts ≤ 2 }
    {
        let mut first = HartOf {
            pc: cpu.pc,
            regs: cpu.regs,
            reserved: Reservation::Nothing(0),
        };
        match &cpu.other {
            None => Processor::over([first; MOST_HARTS], 1, cpu),
            Some(other) => {
                first.reserved = other.front;
                let mut banks = [first; MOST_HARTS];
                banks[1] = HartOf {
                    pc: other.pc,
                    regs: other.regs,
                    reserved: other.back,
                };
                Processor::over(banks, 2, cpu)
            }
        }
    }

    /// What stands beside a hart of at most two: the other one, with the reservations of both.
    #[inline(always)]
    pub fn other(&self, hart: u8) -> Option<OtherHart>
        requires hart { hart < length self.now.harts }
        requires few { length self.now.harts ≤ 2 }
        ensures { result ≡ other_of hart self.now.harts }
    {
        if self.harts < 2 {
            return None;
        }
        let own = &self.banks[hart as usize];
        let other = &self.banks[if hart == 0 { 1 } else { 0 }];
        Some(OtherHart {
            pc: other.pc,
            regs: other.regs,
            front: own.reserved,
            back: other.reserved,
        })
    }

    /// The processor of at most two harts with this one in front, and with a console of this length.
    pub fn cpu(&self, hart: u8, console_len: u64) -> CpuState
        requires hart { hart < length self.now.harts }
        requires few { length self.now.harts ≤ 2 }
        ensures { result ≡ cpu_at hart console_len self.now }
    {
        CpuState {
            pc: self.pc(hart),
            regs: *self.regs(hart),
            console_len,
            cursor: self.cursor,
            brk: self.brk,
            floor: self.floor,
            count: self.count,
            status: self.status,
            other: self.other(hart),
        }
    }
}

/// What a load makes of the number that it read. Most loads are of 8 bytes, which leave nothing to be filled.
#[inline(always)]
#[tactic(auto, unfolding(crate::specs::Extending::extended))]
fn loaded(width: Width, extend: Extend, number: u64) -> u64
    ensures { result ≡ extended width extend number }
{
    match width {
        Width::Double => number,
        Width::Byte | Width::Half | Width::Word => extended(width, extend, number),
    }
}

/// The register of an environment call's result.
const A0: u8 = 10;

/// Whether these are reserved bytes. Where nothing is reserved, nothing can be lost.
#[inline(always)]
fn is_reserving(reserved: Reservation) -> bool
    ensures { (at len : ℕ) → result ≡ false → left_by at len reserved ≡ reserved }
{
    match reserved {
        Reservation::Nothing(_) => false,
        Reservation::Word(_) | Reservation::Double(_) => true,
    }
}

/// Whether some bank has reserved bytes. If none has, none can lose a reservation.
#[inline(always)]
fn is_some_reserving(banks: &[HartOf; MOST_HARTS]) -> bool
    ensures { (at len : ℕ) → result ≡ false → map (losing at len) banks.now ≡ banks.now }
{
    for k in 0..banks.len() {
        if is_reserving(banks[k].reserved) {
            return true;
        }
    }
    false
}

/// Each bank but one loses a reservation in the block of these bytes. Mostly no bank has reserved any.
#[inline(always)]
fn lose_others(banks: &mut [HartOf; MOST_HARTS], own: usize, at: u64, len: u64)
    requires { own < length banks.old }
    ensures { banks.new ≡ written_by at len own banks.old }
{
    if is_some_reserving(banks) {
        lose_each(banks, own, at, len);
    }
}

/// Each bank but one loses a reservation in the block of these bytes, bank by bank.
#[inline(never)]
fn lose_each(banks: &mut [HartOf; MOST_HARTS], own: usize, at: u64, len: u64)
    requires { own < length banks.old }
    ensures { banks.new ≡ written_by at len own banks.old }
{
    let kept = banks[own].reserved;
    for k in 0..banks.len() {
        banks[k].reserved = left_by(at, len, banks[k].reserved);
    }
    banks[own].reserved = kept;
}
