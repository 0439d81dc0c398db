//! The integer registers.
ghost use Rattle.std.specs.Prelude.{ℕ, ◌≡◌, ◌<◌, List, length, replicate};
ghost use Rattle.thy_isa.specs.Regs.{reg_at, regs_with};

use crate::instr::Reg;
use std::marker::Model;

/// The 32 integer registers, each a number of 64 bits. Register 0 reads as 0 whatever is written to it: its number stays 0.
#[derive(Clone, Copy, Debug, PartialEq, Eq)]
pub struct Regs {
    numbers: [u64; 32],
}

impl Model for Regs {
    ghost use Rattle.std.specs.Prelude.{ℕ, ◌≡◌, List, length, slice_index};

    ghost Value = { List ℕ };

    ghost view = { λ r. r.numbers };

    ghost invariant = { λ r. (length r.numbers ≡ 32) × (slice_index r.numbers 0 ≡ 0) };

    ghost inverse = { λ l. record { numbers = l } };
}

impl Regs {
    /// The registers at a program's start: each number is 0.
    pub fn new() -> Regs
        ensures { result ≡ replicate 32 0 }
    {
        Regs { numbers: [0; 32] }
    }

    /// The number of a register; register 0 has 0.
    #[tactic(auto, using(crate::proofs::RegLaws::read_at))]
    pub fn get(&self, reg: Reg) -> u64
        ensures { result ≡ reg_at self.now reg }
    {
        self.numbers[reg.number() as usize]
    }

    /// Sets the number of a register. Register 0 stays 0.
    #[tactic(auto, using(crate::proofs::RegLaws::zero_again, crate::proofs::RegLaws::written_is))]
    pub fn set(&mut self, reg: Reg, value: u64)
        ensures { self.new ≡ regs_with self.old reg value }
    {
        self.numbers[reg.number() as usize] = value;
        self.numbers[0] = 0;
    }
}
