//! How a hart takes in hand what it has fetched: a jump, a number for a register, a load, a store, or what is rarer.
#![tactic(auto, unfolding(crate::specs::HartState::fetched_block, crate::specs::Outcomes::fetched, crate::specs::Outcomes::room_secured, crate::specs::Outcomes::room_answer, thy_isa::specs::OnBlocks::effect_in, thy_isa::specs::OnBlocks::cpu_after))]

ghost use Rattle.std.specs.Prelude.{◌≡◌, ℕ, List, None, Some, ◌-◌, ◌<◌, ◌^◌, true, IfSome};
ghost use Rattle.thy_block.specs.Geometry.{IsInRange, program_size};
ghost use Rattle.thy_isa.specs.Access.{IsWithin};
ghost use Rattle.thy_isa.specs.declared.state.Effect.TheVariants.{Next, Set, Read, Write, Environment};
ghost use Rattle.thy_isa.specs.Effects.{size_of, word_effect};
ghost use Rattle.thy_isa.specs.Regs.{reg_at};
ghost use Rattle.thy_isa.specs.Step.{within};
ghost use Rattle.thy_block.specs.Inside.{is_inside};
ghost use Rattle.thy_hart.specs.declared.in_hand.Stage.TheVariants.{Loads, Secures};
ghost use Rattle.thy_isa.specs.Processor.{IsAloneIf};
ghost use Rattle.thy_hart.specs.Outcomes.{begun_with};
ghost use Rattle.thy_hart.specs.InHand.{hart_state_of, ArePieces};

use crate::in_hand::{Access, Stage};
use crate::micro_steps::HartParts;
use thy_isa::{Effect, Extend, Found, Reg, Width, after, alu, holds, word, word_effect};

impl HartParts {
    /// Takes a load in hand.
    #[inline(always)]
    fn begin_load(&mut self, rd: Reg, width: Width, extend: Extend, pc: u64, at: u64, input: &[u8])
        requires range { IsInRange self.old.geometry }
        requires inside { IsWithin self.old.geometry.base (program_size self.old.geometry) (Read rd width extend pc at) }
        ensures hart { hart_state_of self.new ≡ begun_with input.now (Read rd width extend pc at) (hart_state_of self.old) }
        ensures pieces { ArePieces self.new.hand }
    {
        match Access::within_block(at - self.geometry.numbers().base, width) {
            Some(access) => self.begin_access::<()>(rd, extend, pc, at, access),
            None => {
                let effect = Effect::Read {
                    rd,
                    width,
                    extend,
                    pc,
                    at,
                };
                self.begin_in_pieces(effect, input);
            }
        }
    }

    /// Takes a store in hand.
    #[inline(always)]
    fn begin_store(&mut self, width: Width, pc: u64, at: u64, value: u64, input: &[u8])
        requires range { IsInRange self.old.geometry }
        requires inside { IsWithin self.old.geometry.base (program_size self.old.geometry) (Write width pc at value) }
        ensures hart { hart_state_of self.new ≡ begun_with input.now (Write width pc at value) (hart_state_of self.old) }
        ensures pieces { ArePieces self.new.hand }
    {
        match Access::within_block(at - self.geometry.numbers().base, width) {
            Some(access) => self.begin_change::<()>(pc, at, value, access),
            None => {
                let effect = Effect::Write {
                    width,
                    pc,
                    at,
                    value,
                };
                self.begin_in_pieces(effect, input);
            }
        }
    }

    /// Takes an effect in hand, and the bytes that it brings along.
    #[inline(always)]
    #[tactic(auto, unfolding(crate::specs::Outcomes::begun, thy_isa::specs::Moves::moves_of, thy_isa::specs::Moves::brings))]
    fn begin(&mut self, effect: Effect, input: &[u8])
        requires range { IsInRange self.old.geometry }
        requires inside { IsWithin self.old.geometry.base (program_size self.old.geometry) effect }
        ensures hart { hart_state_of self.new ≡ begun_with input.now effect (hart_state_of self.old) }
        ensures pieces { ArePieces self.new.hand }
    {
        match effect {
            Effect::Next { pc } => self.begin_jump::<()>(pc),
            Effect::Set { rd, pc, value } => self.begin_set::<()>(rd, pc, value),
            Effect::Read {
                rd,
                width,
                extend,
                pc,
                at,
            } => self.begin_load(rd, width, extend, pc, at, input),
            Effect::Write {
                width,
                pc,
                at,
                value,
            } => self.begin_store(width, pc, at, value, input),
            Effect::Reserve { .. }
            | Effect::Conditional { .. }
            | Effect::Fail { .. }
            | Effect::Modify { .. }
            | Effect::Environment
            | Effect::Trap(_) => self.begin_in_pieces(effect, input),
        }
    }

    /// Takes in hand an instruction that sets a register and continues at `pc`.
    #[inline(always)]
    #[tactic(auto, unfolding(crate::specs::Outcomes::begun, thy_isa::specs::Moves::moves_of, thy_isa::specs::Moves::brings))]
    fn begin_set<N>(&mut self, rd: Reg, pc: u64, value: u64)
        ensures hart { (input : List ℕ) → hart_state_of self.new ≡ begun_with input (Set rd pc value) (hart_state_of self.old) }
        ensures pieces { ArePieces self.new.hand }
    {
        self.hand.rd = rd;
        self.hand.pc = pc;
        self.hand.value = value;
        self.hand.stage = Stage::Sets;
    }

    /// Takes in hand an instruction that does nothing but continue at `pc`.
    #[inline(always)]
    #[tactic(auto, unfolding(crate::specs::Outcomes::begun, thy_isa::specs::Moves::moves_of, thy_isa::specs::Moves::brings))]
    fn begin_jump<N>(&mut self, pc: u64)
        ensures hart { (input : List ℕ) → hart_state_of self.new ≡ begun_with input (Next pc) (hart_state_of self.old) }
        ensures pieces { ArePieces self.new.hand }
    {
        self.hand.pc = pc;
        self.hand.stage = Stage::Jumps;
    }

    /// Takes in hand a load of these bytes, which are at this address.
    #[inline(always)]
    fn begin_access<N>(&mut self, rd: Reg, extend: Extend, pc: u64, at: u64, access: Access)
        requires { access.0 ≡ at - self.old.geometry.base }
        ensures hart { (input : List ℕ) → hart_state_of self.new
            ≡ begun_with input (Read rd access.1 extend pc at) (hart_state_of self.old) }
        ensures pieces { ArePieces self.new.hand }
    {
        self.hand.rd = rd;
        self.hand.extend = extend;
        self.hand.pc = pc;
        self.hand.address = at;
        self.hand.access = access;
        self.hand.stage = Stage::Loads;
    }

    /// Takes in hand a store of these bytes, which are at this address.
    #[inline(always)]
    fn begin_change<N>(&mut self, pc: u64, at: u64, value: u64, access: Access)
        requires { access.0 ≡ at - self.old.geometry.base }
        ensures hart { (input : List ℕ) → hart_state_of self.new
            ≡ begun_with input (Write access.1 pc at value) (hart_state_of self.old) }
        ensures pieces { ArePieces self.new.hand }
    {
        self.hand.pc = pc;
        self.hand.address = at;
        self.hand.access = access;
        self.hand.value = value;
        self.hand.stage = Stage::Secures;
    }

    /// The bytes of a load or a store at an address, if they lie in program memory and in one block. Two comparisons show that:
    /// base and size of program memory are multiples of 64, and an address below the base has a greater offset than its size.
    #[inline(always)]
    fn access_at<N>(&self, at: u64, width: Width) -> Option<Access>
        ensures inside { IfSome result (λ access. is_inside self.now.geometry.base (program_size self.now.geometry) at (size_of width) ≡ true) }
        ensures access { IfSome result (λ access. access ≡ (at - self.now.geometry.base, width)) }
    {
        let offset = at.wrapping_sub(self.geometry.numbers().base);
        if offset < self.geometry.program_size() {
            Access::within_block(offset, width)
        } else {
            None
        }
    }

    /// The number of a register, of a hart that is alone if `alone` says so.
    #[inline(always)]
    fn operand<N>(&self, alone: bool, reg: Reg) -> u64
        requires { IsAloneIf alone self.now.cpu }
        ensures { result ≡ reg_at self.now.cpu.regs reg }
    {
        self.cpu.regs(alone).get(reg)
    }

    /// Takes in hand what a word means that was fetched at the program counter. The most frequent instructions are taken here;
    /// no effect is made of them.
    #[inline(always)]
    #[tactic(auto, unfolding(thy_isa::specs::Found::instr_by, thy_isa::specs::Arith::alu_of, thy_isa::specs::Effects::effect_of, thy_isa::specs::Step::within))]
    pub(crate) fn begin_word<N>(&mut self, alone: bool, word: u32, input: &[u8])
        requires range { IsInRange self.old.geometry }
        requires alone { IsAloneIf alone self.old.cpu }
        ensures hart { let p = self.old.geometry in let cpu = self.old.cpu in
            hart_state_of self.new ≡ begun_with input.now
            (within p.base (program_size p) cpu.other (word_effect word cpu.pc cpu.regs)) (hart_state_of self.old) }
        ensures pieces { ArePieces self.new.hand }
    {
        let pc = self.cpu.pc(alone);
        let found = self.decoded.found(word, pc);
        match *found {
            Found::AddImm { rd, rs1, imm } => {
                let value = self.operand::<N>(alone, rs1).wrapping_add(imm);
                self.begin_set::<N>(rd, after(pc), value);
            }
            Found::SllImm { rd, rs1, imm } => {
                let value = self.operand::<N>(alone, rs1) << (imm & 63);
                self.begin_set::<N>(rd, after(pc), value);
            }
            Found::XorImm { rd, rs1, imm } => {
                let value = self.operand::<N>(alone, rs1) ^ imm;
                self.begin_set::<N>(rd, after(pc), value);
            }
            Found::SrlImm { rd, rs1, imm } => {
                let value = self.operand::<N>(alone, rs1) >> (imm & 63);
                self.begin_set::<N>(rd, after(pc), value);
            }
            Found::OrImm { rd, rs1, imm } => {
                let value = self.operand::<N>(alone, rs1) | imm;
                self.begin_set::<N>(rd, after(pc), value);
            }
            Found::AndImm { rd, rs1, imm } => {
                let value = self.operand::<N>(alone, rs1) & imm;
                self.begin_set::<N>(rd, after(pc), value);
            }
            Found::OpImm { op, rd, rs1, imm } => {
                let value = alu(op, self.operand::<N>(alone, rs1), imm);
                self.begin_set::<N>(rd, after(pc), value);
            }
            Found::Add { rd, rs1, rs2 } => {
                let value = self
                    .operand::<N>(alone, rs1)
                    .wrapping_add(self.operand::<N>(alone, rs2));
                self.begin_set::<N>(rd, after(pc), value);
            }
            Found::Sub { rd, rs1, rs2 } => {
                let value = self
                    .operand::<N>(alone, rs1)
                    .wrapping_sub(self.operand::<N>(alone, rs2));
                self.begin_set::<N>(rd, after(pc), value);
            }
            Found::Sll { rd, rs1, rs2 } => {
                let value = self.operand::<N>(alone, rs1) << (self.operand::<N>(alone, rs2) & 63);
                self.begin_set::<N>(rd, after(pc), value);
            }
            Found::Xor { rd, rs1, rs2 } => {
                let value = self.operand::<N>(alone, rs1) ^ self.operand::<N>(alone, rs2);
                self.begin_set::<N>(rd, after(pc), value);
            }
            Found::Srl { rd, rs1, rs2 } => {
                let value = self.operand::<N>(alone, rs1) >> (self.operand::<N>(alone, rs2) & 63);
                self.begin_set::<N>(rd, after(pc), value);
            }
            Found::Or { rd, rs1, rs2 } => {
                let value = self.operand::<N>(alone, rs1) | self.operand::<N>(alone, rs2);
                self.begin_set::<N>(rd, after(pc), value);
            }
            Found::And { rd, rs1, rs2 } => {
                let value = self.operand::<N>(alone, rs1) & self.operand::<N>(alone, rs2);
                self.begin_set::<N>(rd, after(pc), value);
            }
            Found::Op { op, rd, rs1, rs2 } => {
                let value = alu(
                    op,
                    self.operand::<N>(alone, rs1),
                    self.operand::<N>(alone, rs2),
                );
                self.begin_set::<N>(rd, after(pc), value);
            }
            Found::Load {
                width,
                extend,
                rd,
                rs1,
                imm,
            } => {
                let at = self.operand::<N>(alone, rs1).wrapping_add(imm);
                match self.access_at::<N>(at, width) {
                    Some(access) => self.begin_access::<N>(rd, extend, after(pc), at, access),
                    None => self.begin_rarely(word, input),
                }
            }
            Found::Store {
                width,
                rs1,
                rs2,
                imm,
            } => {
                let at = self.operand::<N>(alone, rs1).wrapping_add(imm);
                let value = self.operand::<N>(alone, rs2);
                match self.access_at::<N>(at, width) {
                    Some(access) => self.begin_change::<N>(after(pc), at, value, access),
                    None => self.begin_rarely(word, input),
                }
            }
            Found::Branch {
                cond,
                rs1,
                rs2,
                imm,
            } => {
                let target = pc.wrapping_add(imm);
                let a = self.operand::<N>(alone, rs1);
                let b = self.operand::<N>(alone, rs2);
                if !holds(cond, a, b) {
                    self.begin_jump::<N>(after(pc));
                } else if target % 4 == 0 {
                    self.begin_jump::<N>(target);
                } else {
                    self.begin_rarely(word, input);
                }
            }
            Found::Lui { rd, imm } => self.begin_set::<N>(rd, after(pc), imm),
            Found::Auipc { rd, imm } => self.begin_set::<N>(rd, after(pc), pc.wrapping_add(imm)),
            Found::Jal { rd, imm } => {
                let target = pc.wrapping_add(imm);
                if target % 4 == 0 {
                    self.begin_set::<N>(rd, target, after(pc));
                } else {
                    self.begin_rarely(word, input);
                }
            }
            Found::Jalr { rd, rs1, imm } => {
                let sum = self.operand::<N>(alone, rs1).wrapping_add(imm);
                let target = sum - sum % 2;
                if target % 4 == 0 {
                    self.begin_set::<N>(rd, target, after(pc));
                } else {
                    self.begin_rarely(word, input);
                }
            }
            Found::Other => self.begin_rarely(word, input),
        }
    }

    /// Takes in hand what any word means, by its effect.
    #[inline(never)]
    fn begin_rarely(&mut self, word: u32, input: &[u8])
        requires range { IsInRange self.old.geometry }
        ensures hart { let p = self.old.geometry in let cpu = self.old.cpu in
            hart_state_of self.new ≡ begun_with input.now
            (within p.base (program_size p) cpu.other (word_effect word cpu.pc cpu.regs)) (hart_state_of self.old) }
        ensures pieces { ArePieces self.new.hand }
    {
        let base = self.geometry.numbers().base;
        let size = self.geometry.program_size();
        let meant = word_effect(word, self.cpu.pc(false), self.cpu.regs(false));
        let effect = self.cpu.within(base, size, meant);
        self.begin(effect, input);
    }
}
