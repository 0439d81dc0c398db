//! A move of one line, on the inner device.
ghost use Rattle.std.specs.Prelude.{◌≡◌, ◌<◌, ◌≤◌, ◌+◌, ◌^◌, length, true, false, OnOk, OnErr, slice_index_or, []};
ghost use Rattle.thy_block.specs.Counts.{next};
ghost use Rattle.thy_block.specs.Device.{IsFramed, CountsFault, block_at};
ghost use Rattle.thy_gap.specs.Lines.{registers_of};
ghost use Rattle.thy_gap.specs.Levelled.{is_plain};
ghost use Rattle.thy_gap.specs.Moving.{put_down, line_moved, with_counts_of};
ghost use Rattle.thy_gap.specs.Failing.{IsAtRest, HasFailedToPut, HasFailedToMove};

use crate::Registers;
use thy_block::{Block, Nvm, NvmError};

/// Writes a block and waits until it has landed.
fn put<N: Nvm>(inner: &mut N, at: u64, block: &Block) -> Result<(), NvmError>
    requires place { at < length (N.device inner.old).image }
    requires up { (N.device inner.old).down ≡ false }
    ensures ok { let n = N.device inner.new in OnOk result (n ≡ with_counts_of n (put_down at block.now (N.device inner.old))) }
    ensures err { OnErr result (HasFailedToPut at block.now (N.device inner.old) (N.device inner.new)) }
    ensures frame { IsFramed (N.device inner.old) (N.device inner.new) }
    ensures cause { CountsFault result (N.device inner.old).faults (N.device inner.new).faults }
    ensures plain { is_plain (N.device inner.new).wear ≡ is_plain (N.device inner.old).wear }
    ensures no_fewer { (N.device inner.old).writes ≤ (N.device inner.new).writes }
    ensures counts { is_plain (N.device inner.old).wear ≡ true → OnOk result ((N.device inner.new).writes ≡ next (N.device inner.old).writes) }
{
    // A count that can be read fits its type, so that the next one is not smaller.
    let _ = inner.writes();
    inner.write(at, block)?;
    let _ = inner.writes();
    inner.barrier()
}

/// Moves one line of a device at rest to the gap. The registers land after its copy.
///
/// # Errors
/// `Failed` if the device fails. A cut then leaves the registers as they were, or moved with the line copied.
pub(crate) fn move_line<N: Nvm>(inner: &mut N, registers: &Registers) -> Result<(), NvmError>
    requires { IsAtRest registers.now (N.device inner.old) }
    ensures ok { let n = N.device inner.new in OnOk result (n ≡ with_counts_of n (line_moved registers.now (N.device inner.old))) }
    ensures err { OnErr result (HasFailedToMove registers.now (N.device inner.old) (N.device inner.new)) }
    ensures frame { IsFramed (N.device inner.old) (N.device inner.new) }
    ensures cause { CountsFault result (N.device inner.old).faults (N.device inner.new).faults }
    ensures plain { is_plain (N.device inner.new).wear ≡ is_plain (N.device inner.old).wear }
    ensures no_fewer { (N.device inner.old).writes ≤ (N.device inner.new).writes }
    ensures counts { is_plain (N.device inner.old).wear ≡ true → OnOk result ((N.device inner.new).writes ≡ next (next (N.device inner.old).writes)) }
{
    let line = inner.read(registers.source())?;
    put(inner, registers.gap, &line)?;
    put(inner, registers.lines + 1, &registers.moved().block())
}

/// The registers of the kept image `i`.
pub(crate) fn registers_kept<N: Nvm>(inner: &N, lines: u64, i: u64) -> Registers
    requires image { i < length (N.device inner.now).left }
    requires place { lines + 1 < length (N.device inner.now).image }
    requires room { lines + 1 < 2 ^ 64 }
    ensures { result ≡ registers_of lines (block_at (slice_index_or (N.device inner.now).left i []) (lines + 1)) }
{
    Registers::of_block(lines, &inner.kept(i, lines + 1))
}
