//! Blocks of memory, read one after the other, without a step.
ghost use Rattle.std.specs.Prelude.{◌≡◌, ◌<◌, ◌≤◌, ◌^◌, ◌++◌, length, take, drop, IfOk, IfErr, OnOk, OnErr};
ghost use Rattle.thy_block.specs.Blocks.{block_bytes};
ghost use Rattle.thy_block.specs.Bytes.{bytes_of};
ghost use Rattle.thy_block.specs.Device.{block_at, HasFailed, IsFramed, CountsFault};
ghost use Rattle.thy_block.specs.Flat.{flat, console_bytes};
ghost use Rattle.thy_computer.specs.Kind.{ReadsNothing, HasFailedToRead};
ghost use Rattle.thy_scheme.specs.Scheme.{CanRun};
ghost use Rattle.thy_scheme.specs.Machine.{memory_of};
ghost use Rattle.thy_core.specs.MachineParts.{machine_of};
ghost use Rattle.thy_core.specs.Reading.{blocks_in, IsRoomy};

use crate::parts::MachineParts;
use std::alloc::Global;
use thy_block::{BLOCK_SIZE, Block, Bytes, Nvm, NvmError};
use thy_computer::CoreError;
use thy_scheme::Scheme;

/// A version of memory.
#[derive(Clone, Copy, Debug, PartialEq, Eq)]
pub(crate) enum MemoryVersion {
    /// The one that the machine executes.
    Executing,
    /// The one of the committed checkpoint.
    Committed,
}

/// Block `b` of memory: its line if the cache has one, else the scheme's.
fn executing_block<N: Nvm, S: Scheme>(
    m: &MachineParts<S>,
    b: u64,
    nvm: &mut N,
) -> Result<Block, NvmError>
    requires { b < length (memory_of S.scheme (machine_of m.now) (N.device nvm.old)) }
    ensures ok { IfOk result (λ block. block ≡ block_at (memory_of S.scheme (machine_of m.now) (N.device nvm.old)) b) }
    ensures same { OnOk result (N.device nvm.new ≡ N.device nvm.old) }
    ensures err { OnErr result (HasFailed (N.device nvm.old) (N.device nvm.new)) }
    ensures frame { IsFramed (N.device nvm.old) (N.device nvm.new) }
    ensures cause { CountsFault result (N.device nvm.old).faults (N.device nvm.new).faults }
{
    match m.cache.peek(b) {
        Some(block) => Ok(block),
        None => m.store.scheme.load(b, nvm),
    }
}

/// Block `b` of a version.
fn block_of<N: Nvm, S: Scheme>(
    m: &MachineParts<S>,
    version: MemoryVersion,
    b: u64,
    nvm: &mut N,
) -> Result<Block, NvmError>
    requires stands { CanRun S.scheme m.now.store.scheme (N.device nvm.old) }
    requires inside { b < length (blocks_in S.scheme version (machine_of m.now) (N.device nvm.old)) }
    ensures ok { IfOk result (λ block. block ≡ block_at (blocks_in S.scheme version (machine_of m.now) (N.device nvm.old)) b) }
    ensures same { OnOk result (N.device nvm.new ≡ N.device nvm.old) }
    ensures err { OnErr result (HasFailed (N.device nvm.old) (N.device nvm.new)) }
    ensures frame { IsFramed (N.device nvm.old) (N.device nvm.new) }
    ensures cause { CountsFault result (N.device nvm.old).faults (N.device nvm.new).faults }
{
    match version {
        MemoryVersion::Executing => executing_block(m, b, nvm),
        MemoryVersion::Committed => m.store.scheme.committed(b, nvm),
    }
}

/// Appends block `b` of a version.
fn read_block<N: Nvm, S: Scheme>(
    bytes: &mut Bytes,
    m: &MachineParts<S>,
    version: MemoryVersion,
    b: u64,
    nvm: &mut N,
) -> Result<(), CoreError>
    requires stands { CanRun S.scheme m.now.store.scheme (N.device nvm.old) }
    requires inside { b < length (blocks_in S.scheme version (machine_of m.now) (N.device nvm.old)) }
    ensures bytes { OnOk result (bytes_of bytes.new
        ≡ bytes_of bytes.old ++ block_bytes (block_at (blocks_in S.scheme version (machine_of m.now) (N.device nvm.old)) b)) }
    ensures same { OnOk result (N.device nvm.new ≡ N.device nvm.old) }
    ensures err { IfErr result (λ e. HasFailedToRead e (N.device nvm.old) (N.device nvm.new)) }
    ensures frame { IsFramed (N.device nvm.old) (N.device nvm.new) }
{
    let block = block_of(m, version, b, nvm)?;
    bytes.extend(block.bytes())?;
    Ok(())
}

/// The bytes of the blocks `first` to before `end` of a version.
pub(crate) fn read_blocks<N: Nvm, S: Scheme>(
    alloc: Global,
    m: &MachineParts<S>,
    version: MemoryVersion,
    first: u64,
    end: u64,
    nvm: &mut N,
) -> Result<Bytes, CoreError>
    requires order { first ≤ end }
    requires few { end < 2 ^ 32 }
    requires stands { CanRun S.scheme m.now.store.scheme (N.device nvm.old) }
    requires inside { end ≤ length (blocks_in S.scheme version (machine_of m.now) (N.device nvm.old)) }
    ensures bytes { IfOk result (λ b. bytes_of b
        ≡ flat (drop first (take end (blocks_in S.scheme version (machine_of m.now) (N.device nvm.old))))) }
    ensures same { OnOk result (N.device nvm.new ≡ N.device nvm.old) }
    ensures err { IfErr result (λ e. HasFailedToRead e (N.device nvm.old) (N.device nvm.new)) }
    ensures frame { IsFramed (N.device nvm.old) (N.device nvm.new) }
{
    let mut bytes = Bytes::with_room(alloc, BLOCK_SIZE * (end - first) as usize)?;
    for i in first..end {
        read_block(&mut bytes, m, version, i, nvm)?;
    }
    Ok(bytes)
}

/// At most `count` bytes from `from` on.
fn part(bytes: &[u8], from: usize, count: usize) -> &[u8]
    ensures { result.now ≡ take count (drop from bytes.now) }
{
    let rest = &bytes[from.min(bytes.len())..];
    &rest[..count.min(rest.len())]
}

/// The console of a version, which has `len` bytes, from byte `from` on. If it has no such byte, nothing is read.
pub(crate) fn read_console<N: Nvm, S: Scheme>(
    alloc: Global,
    m: &MachineParts<S>,
    version: MemoryVersion,
    from: u64,
    len: u64,
    nvm: &mut N,
) -> Result<Bytes, CoreError>
    requires stands { CanRun S.scheme m.now.store.scheme (N.device nvm.old) }
    requires roomy { IsRoomy m.now.hart.geometry len (blocks_in S.scheme version (machine_of m.now) (N.device nvm.old)) }
    ensures console { IfOk result (λ b. bytes_of b ≡ drop from
        (console_bytes m.now.hart.geometry (blocks_in S.scheme version (machine_of m.now) (N.device nvm.old)) len)) }
    ensures past { len ≤ from → ReadsNothing (N.device nvm.old) (N.device nvm.new) result }
    ensures same { OnOk result (N.device nvm.new ≡ N.device nvm.old) }
    ensures err { IfErr result (λ e. HasFailedToRead e (N.device nvm.old) (N.device nvm.new)) }
    ensures frame { IsFramed (N.device nvm.old) (N.device nvm.new) }
{
    if len <= from {
        return Ok(Bytes::new(alloc));
    }
    let base = m.hart.geometry().program_size();
    let first = base + from;
    let end = base + len;
    let size = BLOCK_SIZE as u64;
    let all = read_blocks(alloc, m, version, first / size, end.div_ceil(size), nvm)?;
    let piece = part(
        all.as_slice(),
        (first % size) as usize,
        (len - from) as usize,
    );
    let bytes = Vec::from_slice(alloc, piece)?;
    Ok(Bytes::from_vec(bytes))
}
