//! The state at which a program starts.
#![tactic(auto, unfolding(crate::specs::Start::start_regs, crate::specs::Start::second_regs))]

ghost use Rattle.std.specs.Prelude.{◌≡◌, [], length};
ghost use Rattle.std.specs.List.{All};
ghost use Rattle.thy_block.specs.Bytes.{bytes_of, room_of};
ghost use Rattle.thy_block.specs.Geometry.{program_size, stack_top};
ghost use Rattle.thy_elf.specs.Image.{contents_of};
ghost use Rattle.thy_isa.specs.Storable.{IsNumber, IsByte, IsStorable};
ghost use Rattle.thy_isa.specs.Step.{state_of};
ghost use Rattle.thy_plain.specs.Start.{start_regs, second_regs, start_other, start_state};

use std::alloc::Global;
use thy_block::{Bytes, Geometry};
use thy_elf::Image;
use thy_isa::{MachState, OtherHart, Reg, Regs, Reservation, Status};

/// The number of the stack pointer.
const SP: u8 = 2;

/// The register that hart 1 has its number in.
const A0: u8 = 10;

/// How many bytes the stack pointer of hart 1 is below the stack pointer of hart 0.
const SECOND_STACK: u64 = 2048;

/// The registers at the start: all 0 but the stack pointer.
fn start_regs(geometry: &Geometry) -> Regs
    ensures regs { result ≡ start_regs geometry.now }
    ensures top { IsNumber (stack_top geometry.now) }
{
    let mut regs = Regs::new();
    regs.set(Reg::new(SP), geometry.stack_top());
    regs
}

/// The registers of hart 1 at the start: all 0 but the stack pointer and its number.
fn second_regs(geometry: &Geometry) -> Regs
    ensures { result ≡ second_regs geometry.now }
{
    let mut regs = Regs::new();
    regs.set(
        Reg::new(SP),
        geometry.stack_top().saturating_sub(SECOND_STACK),
    );
    regs.set(Reg::new(A0), 1);
    regs
}

/// Hart 1 at the start, if there are two.
fn start_other(geometry: &Geometry, entry: u64) -> Option<OtherHart>
    ensures { result ≡ start_other geometry.now entry }
{
    if geometry.numbers().harts == 2 {
        Some(OtherHart {
            pc: entry,
            regs: second_regs(geometry),
            front: Reservation::Nothing(0),
            back: Reservation::Nothing(0),
        })
    } else {
        None
    }
}

/// Recalls that each byte of a list is below 256, as its type says. The call does nothing.
pub fn recall_are_bytes(bytes: &[u8])
    ensures { All IsByte bytes.now }
{
    let _ = bytes;
}

/// The start with this memory and this console, which is empty.
pub(crate) fn state_over(
    entry: u64,
    floor: u64,
    memory: Bytes,
    console: Bytes,
    geometry: &Geometry,
) -> MachState
    requires { bytes_of console ≡ [] }
    ensures state { state_of result ≡ start_state geometry.now (record { entry = entry; floor = floor; memory = bytes_of memory }) }
    ensures storable { IsStorable (length (bytes_of memory)) (state_of result) }
    ensures room { room_of result.console ≡ room_of console }
{
    recall_are_bytes(memory.as_slice());
    MachState {
        pc: entry,
        regs: start_regs(geometry),
        memory,
        console,
        cursor: 0,
        brk: floor,
        floor,
        count: 0,
        status: Status::Running,
        other: start_other(geometry, entry),
    }
}

/// The state at which the program of an image starts, for a machine that keeps memory and console outside the state.
/// It takes the image's memory over, and allocates nothing else.
pub fn start_of(alloc: Global, image: Image, geometry: &Geometry) -> MachState
    requires { length (bytes_of image.memory) ≡ program_size geometry.now }
    ensures state { state_of result ≡ start_state geometry.now (contents_of image) }
    ensures storable { IsStorable (program_size geometry.now) (state_of result) }
{
    state_over(
        image.entry,
        image.floor,
        image.memory,
        Bytes::new(alloc),
        geometry,
    )
}
