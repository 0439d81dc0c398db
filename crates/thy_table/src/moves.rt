//! The functions that touch a device at a place.
ghost use Rattle.std.specs.Prelude.{◌≡◌, ◌<◌, true, false, length, OnOk, OnErr, IfOk, IfSome};
ghost use Rattle.thy_block.specs.Device.{block_at, HasFailed, HasFailedToWrite, IsFramed, CountsFault};
ghost use Rattle.thy_block.specs.Places.{dram_blocks};
ghost use Rattle.thy_table.specs.Places.{in_dram, number_of, IsPlace};
ghost use Rattle.thy_table.specs.Devices.{AreSized, devices_of, read_at, written_at};

use crate::{Place, number};
use thy_block::{Block, Geometry, Nvm, NvmError};
use thy_dram::Dram;

/// Whether a place is one of the DRAM.
pub fn is_in_dram(place: Place) -> bool
    ensures { result ≡ in_dram place }
{
    matches!(place, Place::Buffer { .. } | Place::Frame { .. })
}

/// The block at a place, the newest write there included. Only the NVM can fail.
pub fn read_place<N: Nvm>(
    place: Place,
    geometry: &Geometry,
    nvm: &mut N,
    dram: &Dram,
) -> Result<Block, NvmError>
    requires place { IsPlace geometry.now place }
    requires sized { AreSized geometry.now (devices_of (N.device nvm.old) dram.now) }
    requires up { (N.device nvm.old).down ≡ false }
    ensures ok { let devices = devices_of (N.device nvm.old) dram.now in
        IfOk result (λ block. block ≡ read_at geometry.now devices place) }
    ensures same { OnOk result (N.device nvm.new ≡ N.device nvm.old) }
    ensures err { OnErr result (HasFailed (N.device nvm.old) (N.device nvm.new)) }
    ensures side { OnErr result (in_dram place ≡ false) }
    ensures frame { IsFramed (N.device nvm.old) (N.device nvm.new) }
    ensures cause { CountsFault result (N.device nvm.old).faults (N.device nvm.new).faults }
{
    let at = number(geometry, place);
    if is_in_dram(place) {
        Ok(dram.read(at))
    } else {
        nvm.read(at)
    }
}

/// The block at a place of the DRAM, where it stands; None at a place of the NVM, or if the block was not written since power was
/// lost last.
#[inline(always)]
pub fn held_at<'a>(place: Place, geometry: &Geometry, dram: &'a Dram) -> Option<&'a Block>
    requires place { IsPlace geometry.now place }
    requires sized { length dram.now.blocks ≡ dram_blocks geometry.now }
    ensures side { IfSome result (λ block. in_dram place ≡ true) }
    ensures block { IfSome result (λ block. block.now ≡ block_at dram.now.blocks (number_of geometry.now place)) }
{
    if is_in_dram(place) {
        dram.held(number(geometry, place))
    } else {
        None
    }
}

/// Writes a block at a place: queues one write on its device, and leaves the other device as it is. Only the
/// NVM can fail; then the place may hold the block or not.
pub fn write_place<N: Nvm>(
    place: Place,
    block: &Block,
    geometry: &Geometry,
    nvm: &mut N,
    dram: &mut Dram,
) -> Result<(), NvmError>
    requires place { IsPlace geometry.now place }
    requires sized { AreSized geometry.now (devices_of (N.device nvm.old) dram.old) }
    requires up { (N.device nvm.old).down ≡ false }
    ensures ok { let old = devices_of (N.device nvm.old) dram.old in
        OnOk result (devices_of (N.device nvm.new) dram.new ≡ written_at geometry.now place block.now old) }
    ensures err { let at = number_of geometry.now place in
        OnErr result (HasFailedToWrite at block.now (N.device nvm.old) (N.device nvm.new)) }
    ensures side { OnErr result (in_dram place ≡ false) }
    ensures dram { OnErr result (dram.new ≡ dram.old) }
    ensures frame { IsFramed (N.device nvm.old) (N.device nvm.new) }
    ensures cause { CountsFault result (N.device nvm.old).faults (N.device nvm.new).faults }
{
    let at = number(geometry, place);
    if is_in_dram(place) {
        dram.write(at, block);
        Ok(())
    } else {
        nvm.write(at, block)
    }
}
