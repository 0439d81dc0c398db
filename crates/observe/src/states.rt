//! A state as text.
ghost use Rattle.std.specs.Prelude.{◌≡◌, ◌+◌, ◌-◌, ◌*◌, ◌/◌, ◌^◌, ◌<◌, ◌≤◌, ◌++◌, length, OnOk, option_map, string_bytes};
ghost use Rattle.thy_block.specs.Bytes.{bytes_of};
ghost use Rattle.thy_isa.specs.Step.{state_of};
ghost use Rattle.observe.specs.StateText.{double_row, hart_text, memory_text, numbers_text, other_text, reg_row, reserved_text, rows_from, state_or_none, state_section, state_text, status_text};

use std::alloc::{AllocError, Global};
use thy_isa::{MachState, OtherHart, Reg, Regs, Reservation, Status, Width, number};
use thy_plain::Plain;

/// How many registers there are.
const REGISTERS: u8 = 32;

/// How many bytes a line of memory has.
const DOUBLE: usize = 8;

/// Adds the line of a register.
fn add_reg(alloc: Global, text: &mut String, regs: &Regs, number: u8) -> Result<(), AllocError>
    requires { number < 32 }
    ensures { OnOk result (string_bytes text.new ≡ string_bytes text.old ++ reg_row regs.now number) }
{
    let value = regs.get(Reg::new(number));
    let line = format!(in alloc; "x{number} {value:x}\n")?;
    text.push_str(line.as_str())
}

/// Adds the lines of the registers but x0.
fn add_regs(alloc: Global, text: &mut String, regs: &Regs) -> Result<(), AllocError>
    ensures { OnOk result (string_bytes text.new ≡ string_bytes text.old ++ rows_from (reg_row regs.now) 1 31) }
{
    for number in 1..REGISTERS {
        add_reg(alloc, text, regs, number)?;
    }
    Ok(())
}

/// Adds a hart: its program counter, and its registers.
fn add_hart(
    alloc: Global,
    text: &mut String,
    hart: u8,
    pc: u64,
    regs: &Regs,
) -> Result<(), AllocError>
    ensures { OnOk result (string_bytes text.new ≡ string_bytes text.old ++ hart_text hart pc regs.now) }
{
    let line = format!(in alloc; "hart {hart} {pc:x}\n")?;
    text.push_str(line.as_str())?;
    add_regs(alloc, text, regs)
}

/// Adds what a hart has reserved.
fn add_reserved(
    alloc: Global,
    text: &mut String,
    reservation: Reservation,
) -> Result<(), AllocError>
    ensures { OnOk result (string_bytes text.new ≡ string_bytes text.old ++ reserved_text reservation) }
{
    let line = match reservation {
        Reservation::Nothing(_) => return text.push_str("reserved none\n"),
        Reservation::Word(at) => format!(in alloc; "reserved 4 {at:x}\n")?,
        Reservation::Double(at) => format!(in alloc; "reserved 8 {at:x}\n")?,
    };
    text.push_str(line.as_str())
}

/// Adds what hart 0 has reserved, and hart 1, if there are two harts.
fn add_other(alloc: Global, text: &mut String, other: &Option<OtherHart>) -> Result<(), AllocError>
    ensures { OnOk result (string_bytes text.new ≡ string_bytes text.old ++ other_text other.now) }
{
    let Some(other) = other else {
        return Ok(());
    };
    add_reserved(alloc, text, other.front)?;
    add_hart(alloc, text, 1, other.pc, &other.regs)?;
    add_reserved(alloc, text, other.back)
}

/// Adds the line of eight bytes of memory, unless they are 0.
fn add_double(
    alloc: Global,
    text: &mut String,
    base: u64,
    memory: &[u8],
    i: usize,
) -> Result<(), AllocError>
    requires inside { 8 * i + 8 ≤ length memory.now }
    requires fits { base + length memory.now < 2 ^ 64 }
    ensures { OnOk result (string_bytes text.new ≡ string_bytes text.old ++ double_row base memory.now i) }
{
    let value = number(memory, DOUBLE * i, Width::Double);
    if value == 0 {
        return Ok(());
    }
    let at = base + (DOUBLE * i) as u64;
    let line = format!(in alloc; "{at:x} {value:x}\n")?;
    text.push_str(line.as_str())
}

/// Adds the lines of the bytes of memory that are not 0, eight bytes each.
fn add_doubles(alloc: Global, text: &mut String, base: u64, memory: &[u8]) -> Result<(), AllocError>
    requires { base + length memory.now < 2 ^ 64 }
    ensures { OnOk result (string_bytes text.new
        ≡ string_bytes text.old ++ rows_from (double_row base memory.now) 0 (length memory.now / 8)) }
{
    for i in 0..memory.len() / DOUBLE {
        add_double(alloc, text, base, memory, i)?;
    }
    Ok(())
}

/// Adds memory, whose first byte has this address.
///
/// # Errors
/// Memory ran out, or the addresses are no numbers of 64 bits, which no machine has.
fn add_memory(alloc: Global, text: &mut String, base: u64, memory: &[u8]) -> Result<(), AllocError>
    ensures { OnOk result (string_bytes text.new ≡ string_bytes text.old ++ memory_text base memory.now) }
{
    let length = memory.len() as u64;
    if length > u64::MAX - base {
        return Err(AllocError);
    }
    let line = format!(in alloc; "memory {base:x} {length}\n")?;
    text.push_str(line.as_str())?;
    add_doubles(alloc, text, base, memory)
}

/// Adds whether the program runs, and else how it ended.
fn add_status(alloc: Global, text: &mut String, status: Status) -> Result<(), AllocError>
    ensures { OnOk result (string_bytes text.new ≡ string_bytes text.old ++ status_text status) }
{
    let line = match status {
        Status::Running => return text.push_str("running\n"),
        Status::Exited(value) => format!(in alloc; "exit {value}\n")?,
        Status::Trapped(cause) => format!(in alloc; "trap {cause}\n")?,
    };
    text.push_str(line.as_str())
}

/// Adds the count, the length of the console, what was read of the input, and the break.
fn add_numbers(alloc: Global, text: &mut String, state: &MachState) -> Result<(), AllocError>
    ensures { OnOk result (string_bytes text.new ≡ string_bytes text.old ++ numbers_text (state_of state.now)) }
{
    let line = format!(in alloc;
        "count {}\nconsole {}\ncursor {}\nbreak {:x}\n",
        state.count,
        state.console.len(),
        state.cursor,
        state.brk
    )?;
    text.push_str(line.as_str())
}

/// Adds a state, whose memory has this address.
fn add_state(
    alloc: Global,
    text: &mut String,
    base: u64,
    state: &MachState,
) -> Result<(), AllocError>
    ensures { OnOk result (string_bytes text.new ≡ string_bytes text.old ++ state_text base (state_of state.now)) }
{
    add_status(alloc, text, state.status)?;
    add_numbers(alloc, text, state)?;
    add_hart(alloc, text, 0, state.pc, &state.regs)?;
    add_other(alloc, text, &state.other)?;
    add_memory(alloc, text, base, state.memory.as_slice())
}

/// Adds the machine's state, if there is one.
fn add_state_or_none(
    alloc: Global,
    text: &mut String,
    base: u64,
    plain: &Option<Plain>,
) -> Result<(), AllocError>
    ensures { OnOk result (string_bytes text.new
        ≡ string_bytes text.old ++ state_or_none base (option_map (λ m. m.state) plain.now)) }
{
    match plain {
        None => text.push_str("none\n"),
        Some(plain) => {
            let state = plain.state(alloc)?;
            add_state(alloc, text, base, &state)
        }
    }
}

/// Adds a section: a head line with the number that was asked for, and the machine's state, if there is one.
pub fn add_section(
    alloc: Global,
    text: &mut String,
    head: &str,
    number: u64,
    base: u64,
    plain: &Option<Plain>,
) -> Result<(), AllocError>
    ensures { OnOk result (string_bytes text.new
        ≡ string_bytes text.old ++ state_section head.now number base (option_map (λ m. m.state) plain.now)) }
{
    let line = format!(in alloc; "{head} {number}\n")?;
    text.push_str(line.as_str())?;
    add_state_or_none(alloc, text, base, plain)
}
