//! The move of a block from one place to another.
ghost use Rattle.std.specs.Prelude.{◌≡◌, true, false, OnOk, OnErr};
ghost use Rattle.thy_block.specs.Device.{HasFailed, IsFramed, CountsFault};
ghost use Rattle.thy_table.specs.Places.{in_dram, IsPlace};
ghost use Rattle.thy_table.specs.Devices.{AreSized, devices_of};
ghost use Rattle.thy_control.specs.Moves.{moved, FailsMove};

use thy_block::{Geometry, Nvm, NvmError};
use thy_dram::Dram;
use thy_table::{Place, held_at, is_in_dram, number, read_place, write_place};

/// Reads the block at one place, and writes it at another. A block of the DRAM that goes to the NVM is written from where it
/// stands. If the read or the write failed, the DRAM is as before.
#[inline(always)]
pub(super) fn move_block<N: Nvm>(
    from: Place,
    to: Place,
    geometry: &Geometry,
    nvm: &mut N,
    dram: &mut Dram,
) -> Result<(), NvmError>
    requires from { IsPlace geometry.now from }
    requires to { IsPlace geometry.now to }
    requires sized { AreSized geometry.now (devices_of (N.device nvm.old) dram.old) }
    requires up { (N.device nvm.old).down ≡ false }
    ensures ok { let old = devices_of (N.device nvm.old) dram.old in
        OnOk result (devices_of (N.device nvm.new) dram.new ≡ moved geometry.now from to old) }
    ensures err { let old = devices_of (N.device nvm.old) dram.old in
        OnErr result (FailsMove geometry.now from to old (devices_of (N.device nvm.new) dram.new)) }
    ensures dram { OnErr result (dram.new ≡ dram.old) }
    ensures frame { IsFramed (N.device nvm.old) (N.device nvm.new) }
    ensures cause { CountsFault result (N.device nvm.old).faults (N.device nvm.new).faults }
{
    if is_in_dram(to) {
        return move_by_copy(from, to, geometry, nvm, dram);
    }
    match held_at(from, geometry, dram) {
        Some(block) => nvm.write(number(geometry, to), block),
        None => move_by_copy(from, to, geometry, nvm, dram),
    }
}

/// Reads the block at one place, and writes the copy at another, as `move_block` does.
#[inline(never)]
fn move_by_copy<N: Nvm>(
    from: Place,
    to: Place,
    geometry: &Geometry,
    nvm: &mut N,
    dram: &mut Dram,
) -> Result<(), NvmError>
    requires from { IsPlace geometry.now from }
    requires to { IsPlace geometry.now to }
    requires sized { AreSized geometry.now (devices_of (N.device nvm.old) dram.old) }
    requires up { (N.device nvm.old).down ≡ false }
    ensures ok { let old = devices_of (N.device nvm.old) dram.old in
        OnOk result (devices_of (N.device nvm.new) dram.new ≡ moved geometry.now from to old) }
    ensures err { let old = devices_of (N.device nvm.old) dram.old in
        OnErr result (FailsMove geometry.now from to old (devices_of (N.device nvm.new) dram.new)) }
    ensures dram { OnErr result (dram.new ≡ dram.old) }
    ensures frame { IsFramed (N.device nvm.old) (N.device nvm.new) }
    ensures cause { CountsFault result (N.device nvm.old).faults (N.device nvm.new).faults }
{
    let block = read_place(from, geometry, nvm, dram)?;
    write_place(to, &block, geometry, nvm, dram)
}

/// Reads the block at a place, and writes it at one of the DRAM. Only the read can fail; then the DRAM is as before.
pub(super) fn move_to_dram<N: Nvm>(
    from: Place,
    to: Place,
    geometry: &Geometry,
    nvm: &mut N,
    dram: &mut Dram,
) -> Result<(), NvmError>
    requires from { IsPlace geometry.now from }
    requires to { IsPlace geometry.now to }
    requires target { in_dram to ≡ true }
    requires sized { AreSized geometry.now (devices_of (N.device nvm.old) dram.old) }
    requires up { (N.device nvm.old).down ≡ false }
    ensures ok { let old = devices_of (N.device nvm.old) dram.old in
        OnOk result (devices_of (N.device nvm.new) dram.new ≡ moved geometry.now from to old) }
    ensures same { OnOk result (N.device nvm.new ≡ N.device nvm.old) }
    ensures err { OnErr result (HasFailed (N.device nvm.old) (N.device nvm.new)) }
    ensures side { OnErr result (in_dram from ≡ false) }
    ensures dram { OnErr result (dram.new ≡ dram.old) }
    ensures frame { IsFramed (N.device nvm.old) (N.device nvm.new) }
    ensures cause { CountsFault result (N.device nvm.old).faults (N.device nvm.new).faults }
{
    let block = read_place(from, geometry, nvm, dram)?;
    dram.write(number(geometry, to), &block);
    Ok(())
}
