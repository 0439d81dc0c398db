//! What a machine is read for: the state that it executes, and the console of its committed checkpoint.
ghost use Rattle.std.specs.Prelude.{◌≡◌, [], IfOk, IfErr, OnOk};
ghost use Rattle.thy_block.specs.Device.{IsFramed};
ghost use Rattle.thy_hart.specs.Laws.{IsSized};
ghost use Rattle.thy_hart.specs.OneStep.{current};
ghost use Rattle.thy_isa.specs.Step.{state_of, state_with};
ghost use Rattle.thy_block.specs.Bytes.{bytes_of};
ghost use Rattle.thy_scheme.specs.Scheme.{CanRun};
ghost use Rattle.thy_computer.specs.Kind.{CanRead, CanSnapshot, SnapshotsStopped, ShowsConsole, LeavesAlonePast, HasFailedToRead};
ghost use Rattle.thy_scheme.specs.Kind.{kind_over};
ghost use Rattle.thy_scheme.specs.Machine.{cpu_fronted, memory_of, processor_of, hart_put_back};
ghost use Rattle.thy_core.specs.MachineParts.{machine_of};
ghost use Rattle.thy_core.specs.Reading.{ReadsBare, ReadsState, ShowsNone};

use crate::parts::MachineParts;
use crate::reading::{MemoryVersion, read_blocks, read_console};
use std::alloc::Global;
use thy_block::{Bytes, Nvm, PAGE_BLOCKS};
use thy_computer::{CoreError, Phase};
use thy_isa::{CpuState, MachState, cross};
use thy_scheme::Scheme;

/// The state that a processor makes with a memory and a console.
fn state_with(cpu: &CpuState, memory: Bytes, console: Bytes) -> MachState
    ensures { state_of result ≡ state_with cpu.now (bytes_of memory) (bytes_of console) }
{
    MachState {
        pc: cpu.pc,
        regs: cpu.regs,
        memory,
        console,
        cursor: cpu.cursor,
        brk: cpu.brk,
        floor: cpu.floor,
        count: cpu.count,
        status: cpu.status,
        other: cpu.other,
    }
}

/// The state of a processor without memory and console.
fn bare(alloc: Global, cpu: &CpuState) -> MachState
    ensures { state_of result ≡ state_with cpu.now [] [] }
{
    state_with(cpu, Bytes::new(alloc), Bytes::new(alloc))
}

/// A processor that has hart 0 in front with this hart there, and one that has this hart there with hart 0.
fn fronted(hart: u8, cpu: &CpuState) -> CpuState
    ensures { result ≡ cpu_fronted hart cpu.now }
{
    let mut fronted = *cpu;
    if hart != 0 {
        cross(&mut fronted);
    }
    fronted
}

/// The processor with hart 0 in front.
pub(crate) fn processor<S>(m: &MachineParts<S>) -> CpuState
    ensures { result ≡ processor_of (machine_of m.now) }
{
    match m.begun {
        None => m.hart.cpu(),
        Some(hart) => fronted(hart, &m.hart.cpu()),
    }
}

/// The state of processor and memory, after the boot, with hart 0 in front.
fn executing<N: Nvm, S: Scheme>(
    alloc: Global,
    m: &MachineParts<S>,
    nvm: &mut N,
) -> Result<MachState, CoreError>
    requires stands { CanRun S.scheme m.now.store.scheme (N.device nvm.old) }
    requires sized { IsSized m.now.hart (memory_of S.scheme (machine_of m.now) (N.device nvm.old)) }
    ensures state { let memory = memory_of S.scheme (machine_of m.now) (N.device nvm.old) in
        IfOk result (λ s. state_of s ≡ current (hart_put_back (machine_of m.now)) memory) }
    ensures same { OnOk result (N.device nvm.new ≡ N.device nvm.old) }
    ensures err { IfErr result (λ e. HasFailedToRead e (N.device nvm.old) (N.device nvm.new)) }
    ensures frame { IsFramed (N.device nvm.old) (N.device nvm.new) }
{
    let numbers = m.hart.geometry().numbers();
    let blocks = PAGE_BLOCKS * (numbers.pages - numbers.console);
    let memory = read_blocks(alloc, m, MemoryVersion::Executing, 0, blocks, nvm)?;
    let console = read_console(
        alloc,
        m,
        MemoryVersion::Executing,
        0,
        m.hart.cpu().console_len,
        nvm,
    )?;
    Ok(state_with(&processor(m), memory, console))
}

/// The state that a machine executes, if no instruction that is under way has written a block. In the boot, and after
/// a step that failed, it has no memory, and nothing is read.
pub(crate) fn snapshot<N: Nvm, S: Scheme>(
    alloc: Global,
    m: &MachineParts<S>,
    nvm: &mut N,
) -> Result<MachState, CoreError>
    requires { CanSnapshot (kind_over S.scheme) (machine_of m.now) (N.device nvm.old) }
    ensures state { ReadsState S.scheme (machine_of m.now) (N.device nvm.old) result }
    ensures bare { ReadsBare (machine_of m.now) result }
    ensures stopped { SnapshotsStopped (kind_over S.scheme) (machine_of m.now) result }
    ensures same { OnOk result (N.device nvm.new ≡ N.device nvm.old) }
    ensures err { IfErr result (λ e. HasFailedToRead e (N.device nvm.old) (N.device nvm.new)) }
    ensures frame { IsFramed (N.device nvm.old) (N.device nvm.new) }
{
    if m.failed {
        return Ok(bare(alloc, &processor(m)));
    }
    match m.phase {
        Phase::Boot => Ok(bare(alloc, &m.hart.cpu())),
        Phase::Run | Phase::Halt => executing(alloc, m, nvm),
    }
}

/// Once the boot is over, the console of the committed checkpoint from byte `from` on; before that no bytes.
pub(crate) fn console<N: Nvm, S: Scheme>(
    alloc: Global,
    m: &MachineParts<S>,
    from: u64,
    nvm: &mut N,
) -> Result<Bytes, CoreError>
    requires { CanRead (kind_over S.scheme) (machine_of m.now) (N.device nvm.old) }
    ensures console { ShowsConsole (kind_over S.scheme) from (machine_of m.now) (N.device nvm.old) result }
    ensures past { LeavesAlonePast (kind_over S.scheme) from (machine_of m.now)
        (N.device nvm.old) (N.device nvm.new) result }
    ensures booting { ShowsNone (machine_of m.now) result }
    ensures same { OnOk result (N.device nvm.new ≡ N.device nvm.old) }
    ensures err { IfErr result (λ e. HasFailedToRead e (N.device nvm.old) (N.device nvm.new)) }
    ensures frame { IsFramed (N.device nvm.old) (N.device nvm.new) }
{
    match m.phase {
        Phase::Boot => Ok(Bytes::new(alloc)),
        Phase::Run | Phase::Halt => {
            read_console(
                alloc,
                m,
                MemoryVersion::Committed,
                from,
                m.consoles.done,
                nvm,
            )
        }
    }
}
