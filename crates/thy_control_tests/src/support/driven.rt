//! Calls of a controller of the least memory, and of the NVM below it. Each tests what its call requires, and stops the
//! test if that does not hold.
ghost use Rattle.std.specs.Prelude.{◌≡◌, ◌<◌, true, false, length, is_some};
ghost use Rattle.thy_block.specs.Device.{Device};
ghost use Rattle.thy_table.specs.Places.{image_blocks};
ghost use Rattle.thy_control.specs.Copies.{next_copy, after_next_copy};
ghost use Rattle.thy_control.specs.Pages.{next_page, after_next_write};
ghost use Rattle.thy_control_tests.specs.Driven.{Drives};

use std::alloc::Global;
use std::process::Abort;
use thy_base::{Block, Geometry, Nvm, Shape, Stored};
use thy_control::Control;
use thy_dram::Dram;
use thy_table::blocks;

/// A controller of the least memory whose power came on, over an NVM that is made to hold this image.
pub(crate) fn power_on<N: Nvm>(
    rt: &impl Abort,
    alloc: Global,
    geometry: &Geometry,
    nvm: &mut N,
    image: &[Block],
) -> Control
    requires least { geometry.now.pages ≡ 8 }
    requires image { length image.now ≡ image_blocks geometry.now }
    ensures drives { Drives result (N.device nvm.new) }
    ensures idle { result.under_way ≡ false }
{
    let shape = Shape {
        blocks: blocks(geometry),
        queue: 4,
        cuts: 0,
    };
    let start = Vec::from_slice(alloc, image).expect(rt, "memory");
    nvm.fit(alloc, &shape, start).expect(rt, "a device");
    let dram = Dram::new(alloc, geometry.dram_blocks(), 4).expect(rt, "memory");
    Control::new(alloc, geometry, dram).expect(rt, "memory")
}

pub(crate) fn load<N: Nvm>(rt: &impl Abort, control: &Control, nvm: &mut N, b: u64) -> Block
    requires inside { b < 512 }
    requires drives { Drives control.now (N.device nvm.old) }
    ensures { N.device nvm.new ≡ N.device nvm.old }
{
    control.load(b, nvm).expect(rt, "a load")
}

pub(crate) fn committed<N: Nvm>(rt: &impl Abort, control: &Control, nvm: &mut N, b: u64) -> Block
    requires inside { b < 512 }
    requires drives { Drives control.now (N.device nvm.old) }
    ensures { N.device nvm.new ≡ N.device nvm.old }
{
    control.committed(b, nvm).expect(rt, "a load")
}

pub(crate) fn store<N: Nvm>(
    rt: &impl Abort,
    control: &mut Control,
    nvm: &mut N,
    b: u64,
    block: &Block,
) -> Stored
    requires inside { b < 512 }
    requires drives { Drives control.old (N.device nvm.old) }
    ensures drives { Drives control.new (N.device nvm.new) }
    ensures way { control.new.under_way ≡ control.old.under_way }
{
    let free = control.free();
    assert!(rt; free > 0);
    let promoting = control.promoting();
    assert!(rt; !promoting);
    control.store(b, block, nvm).expect(rt, "a store")
}

pub(crate) fn seal(rt: &impl Abort, control: &mut Control)
    requires idle { control.old.under_way ≡ false }
    ensures drives { (n : Device) → Drives control.old n → Drives control.new n }
    ensures way { control.new.under_way ≡ true }
{
    let promoting = control.promoting();
    assert!(rt; !promoting);
    let overlay = control.overlay();
    assert!(rt; !overlay);
    control.seal();
}

pub(crate) fn merge_one(rt: &impl Abort, control: &mut Control)
    requires idle { control.old.under_way ≡ false }
    ensures drives { (n : Device) → Drives control.old n → Drives control.new n }
    ensures idle { control.new.under_way ≡ false }
{
    let overlay = control.overlay();
    assert!(rt; overlay);
    control.merge_one();
}

pub(crate) fn promote_one<N: Nvm>(rt: &impl Abort, control: &mut Control, nvm: &mut N)
    requires { Drives control.old (N.device nvm.old) }
    ensures drives { Drives control.new (N.device nvm.new) }
    ensures way { control.new.under_way ≡ control.old.under_way }
{
    let promoting = control.promoting();
    assert!(rt; promoting);
    control.promote_one(nvm).expect(rt, "a promotion");
}

pub(crate) fn copy_next<N: Nvm>(rt: &impl Abort, control: &mut Control, nvm: &mut N) -> bool
    requires { Drives control.old (N.device nvm.old) }
    ensures drives { Drives control.new (N.device nvm.new) }
    ensures way { control.new.under_way ≡ control.old.under_way }
    ensures more { result ≡ is_some (next_copy control.old) }
    ensures state { control.new ≡ after_next_copy (next_copy control.old) control.old (N.device nvm.old) }
{
    control.copy_next(nvm).expect(rt, "a copy")
}

pub(crate) fn page_next<N: Nvm>(rt: &impl Abort, control: &mut Control, nvm: &mut N) -> bool
    requires { Drives control.old (N.device nvm.old) }
    ensures drives { Drives control.new (N.device nvm.new) }
    ensures way { control.new.under_way ≡ control.old.under_way }
    ensures more { result ≡ is_some (next_page control.old) }
    ensures state { control.new ≡ after_next_write (next_page control.old) control.old (N.device nvm.old) }
{
    control.page_next(nvm).expect(rt, "a write")
}

/// Stops the test if a call returns that there was more.
fn nothing_left(rt: &impl Abort, more: bool)
    ensures { more ≡ false }
{
    assert!(rt; !more);
}

/// Commits a checkpoint of which nothing is left to copy or to write.
pub(crate) fn commit<N: Nvm>(rt: &impl Abort, control: &mut Control, nvm: &mut N)
    requires drives { Drives control.old (N.device nvm.old) }
    requires way { control.old.under_way ≡ true }
    ensures drives { Drives control.new (N.device nvm.new) }
    ensures idle { control.new.under_way ≡ false }
{
    let copied = copy_next(rt, control, nvm);
    nothing_left(rt, copied);
    let written = page_next(rt, control, nvm);
    nothing_left(rt, written);
    control.commit();
}

/// Lets the oldest write that is queued in the DRAM land, if there is one.
pub(crate) fn drain_dram(control: &mut Control)
    ensures drives { (n : Device) → Drives control.old n → Drives control.new n }
    ensures way { control.new.under_way ≡ control.old.under_way }
{
    if control.queued() > 0 {
        control.drain();
    }
}

/// Lets the oldest write that is queued in the NVM land, if there is one.
pub(crate) fn drain_nvm<N: Nvm>(rt: &impl Abort, control: &Control, nvm: &mut N)
    requires { Drives control.now (N.device nvm.old) }
    ensures { Drives control.now (N.device nvm.new) }
{
    if nvm.queued() > 0 {
        nvm.drain().expect(rt, "a drain");
    }
}
