//! The state of the machine as a program sees it, and what one instruction does to it.

ghost use Rattle.std.specs.Prelude.{◌≡◌};
ghost use Rattle.thy_isa.specs.Step.{cpu_of, state_of, zero_cpu};

use crate::instr::{Amo, Extend, Reg, Width};
use crate::regs::Regs;
use thy_block::{Bytes, Span};

/// Whether the program runs, and how it ended if it does not.
#[derive(Clone, Copy, Debug, PartialEq, Eq)]
pub enum Status {
    Running,
    /// The program ended by an exit call, with a value of 0 to 255.
    Exited(u64),
    /// The program ended by a trap, with the trap's number, 0 to 7.
    Trapped(u64),
}

/// Why an instruction traps. The variants are in the order of their numbers, 0 to 7, which are the
/// exception codes of the RISC-V privileged architecture. No load or store traps for being misaligned: only an
/// atomic instruction, which one hart alone has not, gives `LoadMisaligned` or `StoreMisaligned`.
#[derive(Clone, Copy, Debug, PartialEq, Eq)]
pub enum Cause {
    FetchMisaligned,
    FetchAccess,
    Illegal,
    Breakpoint,
    LoadMisaligned,
    LoadAccess,
    StoreMisaligned,
    StoreAccess,
}

/// What a hart has reserved: the bytes of its last load-reserved, by their width.
#[derive(Clone, Copy, Debug, PartialEq, Eq)]
pub enum Reservation {
    /// No bytes. The address means nothing: it is 0, unless an image has another with a width of 0.
    Nothing(u64),
    /// The 4 bytes at this address.
    Word(u64),
    /// The 8 bytes at this address.
    Double(u64),
}

/// The hart that is not in front, if there are two, with the reservations of both. The hart in front is the one that
/// `MachState` and `CpuState` give a program counter and registers for: hart 0, but while hart 1 takes a step.
#[derive(Clone, Copy, Debug, PartialEq, Eq)]
pub struct OtherHart {
    /// The program counter of the hart that is not in front, an address in bytes.
    pub pc: u64,
    pub regs: Regs,
    /// The reservation of the hart in front.
    pub front: Reservation,
    /// The reservation of the hart that is not in front.
    pub back: Reservation,
}

/// All that a program sees: registers, memory and what the environment calls keep.
#[derive(Debug, Drop)]
pub struct MachState {
    /// The program counter, an address in bytes.
    pub pc: u64,
    pub regs: Regs,
    /// The program memory alone; its first byte has the address `base` of the configuration.
    pub memory: Bytes,
    /// What the program has written to its outputs.
    pub console: Bytes,
    /// How many bytes of the input were read.
    pub cursor: u64,
    /// The program break, an address in bytes.
    pub brk: u64,
    /// The least address that the break may have.
    pub floor: u64,
    /// How many steps were taken, including a step that ended with a trap or an exit.
    pub count: u64,
    pub status: Status,
    /// The other hart; none if there is one hart.
    pub other: Option<OtherHart>,
}

/// A `MachState` without its memory, and with the length of its console in place of the console.
#[derive(Clone, Copy, Debug, PartialEq, Eq)]
pub struct CpuState {
    pub pc: u64,
    pub regs: Regs,
    /// The length of the console in bytes.
    pub console_len: u64,
    pub cursor: u64,
    pub brk: u64,
    pub floor: u64,
    pub count: u64,
    pub status: Status,
    /// The other hart; none if there is one hart.
    pub other: Option<OtherHart>,
}

impl MachState {
    /// The state without its memory, and with the length of its console.
    pub fn cpu(&self) -> CpuState
        ensures { result ≡ cpu_of (state_of self.now) }
    {
        CpuState {
            pc: self.pc,
            regs: self.regs,
            console_len: self.console.len() as u64,
            cursor: self.cursor,
            brk: self.brk,
            floor: self.floor,
            count: self.count,
            status: self.status,
            other: self.other,
        }
    }
}

impl CpuState {
    /// A processor of one hart whose numbers are all 0 and whose program runs. It stands in for a processor where none is known yet.
    pub fn zero() -> CpuState
        ensures { result ≡ zero_cpu }
    {
        CpuState {
            pc: 0,
            regs: Regs::new(),
            console_len: 0,
            cursor: 0,
            brk: 0,
            floor: 0,
            count: 0,
            status: Status::Running,
            other: None,
        }
    }
}

/// What an environment call depends on in addition to the registers.
#[derive(Clone, Copy, Debug, PartialEq, Eq)]
pub struct CallState {
    /// How many bytes of the input were read.
    pub cursor: u64,
    /// The length of the input in bytes.
    pub input_len: u64,
    /// The length of the console in bytes.
    pub console_len: u64,
    /// How many bytes more the console takes.
    pub room: u64,
    /// The address of the first byte of program memory.
    pub base: u64,
    /// The size of program memory in bytes.
    pub size: u64,
    /// The least address that the break may have.
    pub floor: u64,
    /// The program break, an address in bytes.
    pub brk: u64,
}

/// What an instruction does, given the program counter and the registers. `pc` is the next program
/// counter.
#[derive(Clone, Copy, Debug, PartialEq, Eq)]
pub enum Effect {
    /// Nothing changes but the program counter.
    Next {
        pc: u64,
    },
    /// The value is written to rd.
    Set {
        rd: Reg,
        pc: u64,
        value: u64,
    },
    /// The number of `width` bytes at any address, extended, is written to rd.
    Read {
        rd: Reg,
        width: Width,
        extend: Extend,
        pc: u64,
        at: u64,
    },
    /// The low `width` bytes of the value go to any address.
    Write {
        width: Width,
        pc: u64,
        at: u64,
        value: u64,
    },
    /// The number of `width` bytes at any address, extended by its sign, is written to rd, and the hart reserves these
    /// bytes.
    Reserve {
        rd: Reg,
        width: Width,
        pc: u64,
        at: u64,
    },
    /// The low `width` bytes of the value go to any address, and 0 becomes the number of rd. The hart reserves nothing after it.
    Conditional {
        rd: Reg,
        width: Width,
        pc: u64,
        at: u64,
        value: u64,
    },
    /// 1 becomes the number of rd, and nothing is written. The hart reserves nothing after it.
    Fail {
        rd: Reg,
        pc: u64,
    },
    /// The number of `width` bytes at any address, extended by its sign, is written to rd, and what the operation makes
    /// of it and of the value is written there.
    Modify {
        op: Amo,
        rd: Reg,
        width: Width,
        pc: u64,
        at: u64,
        value: u64,
    },
    /// An environment call is served, which the registers name.
    Environment,
    /// A trap, which ends the program and changes nothing else.
    Trap(Cause),
}

/// What an environment call does. After every call but an exit the program continues, with the call's result in a0.
#[derive(Clone, Copy, Debug, PartialEq, Eq)]
pub enum Call {
    /// Returns this value, and does nothing else.
    Answer(u64),
    /// The program ends with this value of 0 to 255; the program counter and the registers stay.
    Exit(u64),
    /// The break becomes this address, which is the result.
    Break(u64),
    /// The next `len` bytes of the input are copied to the address `at`. The result is `len`, 1 to 64.
    Take { at: u64, len: u64 },
    /// The `len` bytes at the address `at` are added at the end of the console. The result is `len`, 1 to 64.
    Give { at: u64, len: u64 },
}

/// What an instruction or an environment call moves: the bytes that it reads and those that it writes,
/// as spans of the blocks of memory, in which the console follows program memory. A span without bytes
/// means none. Every span has at most 64.
#[derive(Clone, Copy, Debug, PartialEq, Eq)]
pub struct Moves {
    pub from: Span,
    pub to: Span,
}
