//! The state whose memory stands at some places of a file.
ghost use Rattle.std.specs.Prelude.{◌≡◌, ◌+◌, ◌^◌, ◌<◌, ◌≤◌, length, map, IfOk};
ghost use Rattle.thy_block.specs.Device.{block_at};
ghost use Rattle.thy_block.specs.Geometry.{memory_blocks};
ghost use Rattle.thy_isa.specs.OnBlocks.{state_from};
ghost use Rattle.thy_isa.specs.Step.{state_of};
ghost use Rattle.thy_layout.specs.Files.{blocks_of};
ghost use Rattle.thy_layout.specs.Gathered.{AreInside, bytes_at};

use std::alloc::{AllocError, Global};
use thy_block::{BLOCK_SIZE, Bytes, Geometry, PAGE_BLOCKS};
use thy_isa::{CpuState, MachState};

// The bytes of so many blocks from the first of these places of an image on.
fn gathered(
    alloc: Global,
    image: &[u8],
    places: &[u64],
    first: usize,
    count: usize,
) -> Result<Vec<u8>, AllocError>
    requires few { count < 2 ^ 32 }
    requires inside { first + count ≤ length places.now }
    requires places { AreInside (blocks_of image.now) places.now }
    ensures { IfOk result (λ v. v.items ≡ bytes_at (blocks_of image.now) places.now first count) }
{
    let mut bytes = Vec::with_capacity(alloc, BLOCK_SIZE * count)?;
    for k in 0..count {
        let at = BLOCK_SIZE * places[first + k] as usize;
        bytes.extend_from_slice(&image[at..at + BLOCK_SIZE])?;
    }
    Ok(bytes)
}

/// The state of this processor, with memory's blocks at these places of the bytes of an image. Each block is copied once.
pub(crate) fn state_at(
    alloc: Global,
    image: &[u8],
    cpu: CpuState,
    places: &[u64],
    geometry: &Geometry,
) -> Result<MachState, AllocError>
    requires all { length places.now ≡ memory_blocks geometry.now }
    requires inside { AreInside (blocks_of image.now) places.now }
    ensures { IfOk result (λ m.
        state_of m ≡ state_from geometry.now cpu (map (block_at (blocks_of image.now)) places.now)) }
{
    let p = geometry.numbers();
    let program = (PAGE_BLOCKS * (p.pages - p.console)) as usize;
    let memory = gathered(alloc, image, places, 0, program)?;
    let mut console = gathered(
        alloc,
        image,
        places,
        program,
        (PAGE_BLOCKS * p.console) as usize,
    )?;
    console.truncate(cpu.console_len as usize);
    Ok(MachState {
        pc: cpu.pc,
        regs: cpu.regs,
        memory: Bytes::from_vec(memory),
        console: Bytes::from_vec(console),
        cursor: cpu.cursor,
        brk: cpu.brk,
        floor: cpu.floor,
        count: cpu.count,
        status: cpu.status,
        other: cpu.other,
    })
}
