//! The bytes of a slot: the processor's record, with which every slot begins.
ghost use Rattle.std.specs.Prelude.{◌≡◌, ◌+◌, ◌*◌, ◌/◌, ◌<◌, ◌≤◌, ◌∷◌, length};
ghost use Rattle.thy_block.specs.Geometry.{IsInRange};
ghost use Rattle.thy_block.specs.Places.{record_blocks};
ghost use Rattle.thy_layout.specs.Cpu.{record_word, record_words, other_of_record, second_of_record, cpu_of_record, is_second as is_second_of};
ghost use Rattle.thy_layout.specs.Files.{blocks_of};
ghost use Rattle.thy_layout.specs.Slots.{status_fault as fault_of_status, second_fault as fault_of_second, cpu_fault as fault_of_cpu};

use crate::bad_image::BadImage;
use crate::cpu::{is_status, is_width, reservation_from, status_from};
use byteorder::{ByteOrder, LittleEndian};
use thy_block::{BLOCK_SIZE, Geometry};
use thy_isa::{CpuState, OtherHart, Reg, Regs};

/// Word `i`, 64 bits, of the bytes of a slot, lowest byte first. The slot has the word's whole block.
pub fn word_in(slot: &[u8], i: usize) -> u64
    requires { i / 8 < length slot.now / 64 }
    ensures { result ≡ record_word (blocks_of slot.now) i }
{
    LittleEndian::read_u64(&slot[8 * i..])
}

/// How many bytes the processor's record has, with which a slot begins.
pub fn record_size(geometry: &Geometry) -> usize
    ensures size { result ≡ 64 * record_blocks geometry.now }
    ensures in_range { IsInRange geometry.now }
{
    BLOCK_SIZE * geometry.record_blocks() as usize
}

// The registers of a hart in a slot's record; `first` is the word of x1, 1 or 41.
fn regs_in(slot: &[u8], first: usize) -> Regs
    requires first { first < 48 }
    requires inside { (first + 30) / 8 < length slot.now / 64 }
    ensures { result ≡ 0 ∷ record_words (blocks_of slot.now) first 31 }
{
    let mut regs = Regs::new();
    for r in 1..32u8 {
        regs.set(Reg::new(r), word_in(slot, first + r as usize - 1));
    }
    regs
}

// The second hart in a slot's record. A width without meaning reads as no reservation.
#[tactic(auto, unfolding(crate::specs::Cpu::other_of_record))]
fn other_in(slot: &[u8]) -> OtherHart
    requires { 10 ≤ length slot.now / 64 }
    ensures { result ≡ other_of_record (blocks_of slot.now) }
{
    OtherHart {
        pc: word_in(slot, 40),
        regs: regs_in(slot, 41),
        front: reservation_from(word_in(slot, 72), word_in(slot, 73)),
        back: reservation_from(word_in(slot, 74), word_in(slot, 75)),
    }
}

// So if there are two harts.
fn second_in(slot: &[u8], geometry: &Geometry) -> Option<OtherHart>
    requires { record_blocks geometry.now ≤ length slot.now / 64 }
    ensures other { result ≡ second_of_record geometry.now (blocks_of slot.now) }
    ensures in_range { IsInRange geometry.now }
{
    if geometry.numbers().harts == 2 {
        Some(other_in(slot))
    } else {
        None
    }
}

/// The processor's state in the bytes of a slot. A status whose tag is over 1 reads as a trap, a width of a reservation
/// without meaning as no reservation.
#[tactic(auto, unfolding(crate::specs::Cpu::cpu_of_record))]
pub fn cpu_in(slot: &[u8], geometry: &Geometry) -> CpuState
    requires { record_blocks geometry.now ≤ length slot.now / 64 }
    ensures { result ≡ cpu_of_record geometry.now (blocks_of slot.now) }
{
    let other = second_in(slot, geometry);
    CpuState {
        pc: word_in(slot, 0),
        regs: regs_in(slot, 1),
        console_len: word_in(slot, 34),
        cursor: word_in(slot, 33),
        brk: word_in(slot, 35),
        floor: word_in(slot, 39),
        count: word_in(slot, 32),
        status: status_from(word_in(slot, 36), word_in(slot, 37)),
        other,
    }
}

/// The fault of the processor's status, count or console in the bytes of a slot: a status without meaning, a count that is not below the
/// ceiling, or a console longer than its pages.
pub fn status_fault(slot: &[u8], geometry: &Geometry, ceiling: u64) -> Option<BadImage>
    requires { record_blocks geometry.now ≤ length slot.now / 64 }
    ensures { result ≡ fault_of_status geometry.now ceiling (blocks_of slot.now) }
{
    let stands = is_status(word_in(slot, 36), word_in(slot, 37)) && word_in(slot, 32) < ceiling;
    if !stands {
        Some(BadImage::Status)
    } else if word_in(slot, 34) <= geometry.console_room() {
        None
    } else {
        Some(BadImage::ConsoleLength)
    }
}

// Whether the words of the second hart have a meaning: the widths of both reservations, and four zeros.
fn is_second(slot: &[u8]) -> bool
    requires { 10 ≤ length slot.now / 64 }
    ensures { result ≡ is_second_of (blocks_of slot.now) }
{
    let widths = is_width(word_in(slot, 72)) && is_width(word_in(slot, 74));
    let zeros = (word_in(slot, 76) == 0 && word_in(slot, 77) == 0)
        && (word_in(slot, 78) == 0 && word_in(slot, 79) == 0);
    widths && zeros
}

/// The fault of the second hart's words, with two harts: a width of a reservation without meaning, or a word after the
/// reservations that is not zero.
pub fn second_fault(slot: &[u8], geometry: &Geometry) -> Option<BadImage>
    requires { record_blocks geometry.now ≤ length slot.now / 64 }
    ensures { result ≡ fault_of_second geometry.now (blocks_of slot.now) }
{
    if geometry.numbers().harts == 1 || is_second(slot) {
        None
    } else {
        Some(BadImage::Second)
    }
}

/// What is wrong with the processor in these bytes of a slot, apart from its epoch: with the status, the count, the
/// console's length or the second hart. A status may be without meaning, the count of instructions not below the
/// ceiling, the console longer than its pages, and words of the second hart without meaning.
pub fn cpu_fault(slot: &[u8], geometry: &Geometry, ceiling: u64) -> Option<BadImage>
    requires { record_blocks geometry.now ≤ length slot.now / 64 }
    ensures { result ≡ fault_of_cpu geometry.now ceiling (blocks_of slot.now) }
{
    status_fault(slot, geometry, ceiling).or(second_fault(slot, geometry))
}
