//! Devices of four lines, and writes to them.
ghost use Rattle.std.specs.Prelude.{◌≡◌, ◌<◌, false, length, OnOk, []};
ghost use Rattle.thy_block.specs.Device.{IsFramed};
ghost use Rattle.thy_gap.specs.Levelled.{shown};

use std::alloc::Global;
use std::process::Abort;
use thy_base::{Block, Nvm, NvmError, Shape};
use thy_gap::Gap;
use thy_nvm::MemNvm;

/// A device of four lines over a device in memory. A line moves at each barrier after a write.
pub(crate) fn four_lines(rt: &impl Abort, alloc: Global, inner: MemNvm) -> Gap<MemNvm>
    ensures lines { length (⟦<Gap<MemNvm> as Nvm>⟧.device result).image ≡ 4 }
    ensures up { (⟦<Gap<MemNvm> as Nvm>⟧.device result).down ≡ false }
    ensures none { (⟦<Gap<MemNvm> as Nvm>⟧.device result).left ≡ [] }
    ensures room { (⟦<Gap<MemNvm> as Nvm>⟧.device result).left_room ≡ 2 }
{
    let shape = Shape {
        blocks: 4,
        queue: 3,
        cuts: 1,
    };
    let mut gap = Gap::over(inner, 1);
    gap.fit(alloc, &shape, Vec::new(alloc)).expect(rt, "memory");
    gap
}

/// The block of step `i`, 0 to 7: its number, from 1 on, in each byte.
pub(crate) fn block_of(i: u8) -> Block
    requires { i < 8 }
{
    Block([i + 1; 64])
}

/// Step `i`: a write of one line, each in its turn, and a barrier.
pub(crate) fn step<N: Nvm>(nvm: &mut N, i: u8) -> Result<(), NvmError>
    requires step { i < 8 }
    requires lines { length (N.device nvm.old).image ≡ 4 }
    requires up { (N.device nvm.old).down ≡ false }
    ensures up { OnOk result ((N.device nvm.new).down ≡ false) }
    ensures frame { IsFramed (N.device nvm.old) (N.device nvm.new) }
{
    nvm.write((i % 4) as u64, &block_of(i))?;
    nvm.barrier()
}
