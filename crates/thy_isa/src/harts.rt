//! The other hart in front.

ghost use Rattle.std.specs.Prelude.{◌≡◌};
ghost use Rattle.thy_isa.specs.Step.{exchanged, cpu_crossed};

use crate::regs::Regs;
use crate::state::{CpuState, OtherHart};

/// The hart with this program counter and these registers, as the other one.
fn exchanged(pc: u64, regs: Regs, other: &OtherHart) -> OtherHart
    ensures { result ≡ exchanged pc regs other.now }
{
    OtherHart {
        pc,
        regs,
        front: other.back,
        back: other.front,
    }
}

/// Brings the other hart to the front. With one hart nothing changes.
pub fn cross(cpu: &mut CpuState)
    ensures { cpu.new ≡ cpu_crossed cpu.old }
{
    if let Some(other) = cpu.other {
        cpu.other = Some(exchanged(cpu.pc, cpu.regs, &other));
        cpu.pc = other.pc;
        cpu.regs = other.regs;
    }
}
