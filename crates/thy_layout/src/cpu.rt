//! The record of the processor, the first blocks of a slot. It has forty words: pc, x1 to x31, count, cursor, console
//! length, break, the status's tag and value, epoch, floor. With two harts forty more follow: pc and x1 to x31 of the
//! second hart, width and address of the first one's reservation and of its own, and four zeros.
ghost use Rattle.std.specs.Prelude.{◌≡◌, ◌<◌, length, slice_index, Some};
ghost use Rattle.thy_layout.specs.Cpu.{width_word, place_word, reservation_of, is_width as is_width_of, second_words, cpu_words, cpu_block_of, status_tag, status_value, status_of, is_status as is_status_of};

use thy_block::{Block, block_with};
use thy_isa::{CpuState, OtherHart, Reg, Reservation, Status};

// A status as two words.
fn tag(status: Status) -> u64
    ensures { result ≡ status_tag status }
{
    match status {
        Status::Running => 0,
        Status::Exited(_) => 1,
        Status::Trapped(_) => 2,
    }
}

fn value(status: Status) -> u64
    ensures { result ≡ status_value status }
{
    match status {
        Status::Running => 0,
        Status::Exited(value) => value,
        Status::Trapped(value) => value,
    }
}

// The status of a tag and a value; a tag over 1 is that of a trap.
pub(crate) fn status_from(tag: u64, value: u64) -> Status
    ensures { result ≡ status_of tag value }
{
    match tag {
        0 => Status::Running,
        1 => Status::Exited(value),
        _ => Status::Trapped(value),
    }
}

// Whether a tag and a value are a status: 0 if the program runs, an exit's value up to 255, a trap's
// number up to 7.
pub(crate) fn is_status(tag: u64, value: u64) -> bool
    ensures { result ≡ is_status_of tag value }
{
    match tag {
        0 => value == 0,
        1 => value <= 255,
        2 => value <= 7,
        _ => false,
    }
}

// A reservation as two words, the width of its bytes, which is 0 if there is none, and the address.
fn width(reservation: Reservation) -> u64
    ensures { result ≡ width_word reservation }
{
    match reservation {
        Reservation::Nothing(_) => 0,
        Reservation::Word(_) => 4,
        Reservation::Double(_) => 8,
    }
}

fn place(reservation: Reservation) -> u64
    ensures { result ≡ place_word reservation }
{
    match reservation {
        Reservation::Nothing(at) => at,
        Reservation::Word(at) => at,
        Reservation::Double(at) => at,
    }
}

// The reservation of a width and an address; a width other than 4 and 8 is that of none.
pub(crate) fn reservation_from(width: u64, at: u64) -> Reservation
    ensures { result ≡ reservation_of width at }
{
    match width {
        4 => Reservation::Word(at),
        8 => Reservation::Double(at),
        _ => Reservation::Nothing(at),
    }
}

// Whether a word is the width of a reservation, or says that there is none.
pub(crate) fn is_width(width: u64) -> bool
    ensures { result ≡ is_width_of width }
{
    width == 0 || width == 4 || width == 8
}

// Word i of the forty of the second hart.
fn second_word(other: &OtherHart, i: u64) -> u64
    requires word { i < 40 }
    ensures { result ≡ slice_index (second_words (Some other.now)) i }
{
    match i {
        0 => other.pc,
        32 => width(other.front),
        33 => place(other.front),
        34 => width(other.back),
        35 => place(other.back),
        r => {
            if r < 32 {
                other.regs.get(Reg::new(r as u8))
            } else {
                0
            }
        }
    }
}

// So if there is one; else it is zero.
fn other_word(other: &Option<OtherHart>, i: u64) -> u64
    requires word { i < 40 }
    ensures { result ≡ slice_index (second_words other.now) i }
{
    match other {
        Some(other) => second_word(other, i),
        None => 0,
    }
}

// Word i of the first forty of the record of a processor at an epoch.
fn front_word(cpu: &CpuState, epoch: u64, i: u64) -> u64
    requires word { i < 40 }
    requires regs { length cpu.now.regs ≡ 32 }
    ensures { result ≡ slice_index (cpu_words cpu.now epoch) i }
{
    match i {
        0 => cpu.pc,
        32 => cpu.count,
        33 => cpu.cursor,
        34 => cpu.console_len,
        35 => cpu.brk,
        36 => tag(cpu.status),
        37 => value(cpu.status),
        38 => epoch,
        39 => cpu.floor,
        r => cpu.regs.get(Reg::new(r as u8)),
    }
}

// Word i of the record.
fn cpu_word(cpu: &CpuState, epoch: u64, i: u64) -> u64
    requires word { i < 80 }
    requires regs { length cpu.now.regs ≡ 32 }
    ensures { result ≡ slice_index (cpu_words cpu.now epoch) i }
{
    if i < 40 {
        front_word(cpu, epoch, i)
    } else {
        other_word(&cpu.other, i - 40)
    }
}

/// Block `k` of the processor's record at an epoch: 0 to 4 are the hart in front's, 5 to 9 the other's, zeros if there is
/// none. The processor has 32 registers.
pub fn cpu_block(cpu: &CpuState, epoch: u64, k: u64) -> Block
    requires block { k < 10 }
    requires regs { length cpu.now.regs ≡ 32 }
    ensures { result ≡ cpu_block_of cpu.now epoch k }
{
    let mut words = [0; 8];
    for i in 0..8 {
        words[i] = cpu_word(cpu, epoch, 8 * k + i as u64);
    }
    block_with(&words)
}
