//! The counts of a slot, given to the controller.
ghost use Rattle.std.specs.Prelude.{◌≡◌, ◌*◌, length, replicate, None};
ghost use Rattle.thy_layout.specs.declared.layout_version.LayoutVersion.TheVariants.{VersionTwo};
ghost use Rattle.thy_record.specs.VersionSlots.{blocks_of_slot};
ghost use Rattle.thy_control.specs.Boot.{IsBooting};
ghost use Rattle.thy_layout.specs.Files.{blocks_of};
ghost use Rattle.thy_record.specs.Slots.{counts_in, count_fault};
ghost use Rattle.thy_thynvm_parts.specs.Listed.{with_lasts};

use thy_block::Geometry;
use thy_control::Control;
use thy_layout::LayoutVersion;
use thy_record::listed_count;

/// Takes over the counts of a slot of a version, as counts of the epoch before. Version 1 has none: they stay 0.
pub fn list_counts(slot: &[u8], version: LayoutVersion, geometry: &Geometry, control: &mut Control)
    requires slot { length slot.now ≡ 64 * blocks_of_slot version geometry.now }
    requires geometry { control.old.p ≡ geometry.now }
    requires booting { IsBooting control.old }
    requires none { control.old.counts.lasts ≡ replicate geometry.now.pages 0 }
    requires fine { count_fault version geometry.now (blocks_of slot.now) ≡ None }
    ensures counts { control.new ≡ with_lasts (counts_in version geometry.now (blocks_of slot.now)) control.old }
    ensures booting { IsBooting control.new }
{
    match version {
        LayoutVersion::VersionOne => {}
        LayoutVersion::VersionTwo => list_each(slot, geometry, control),
    }
}

/// Takes over the counts of a slot of version 2, page by page.
fn list_each(slot: &[u8], geometry: &Geometry, control: &mut Control)
    requires slot { length slot.now ≡ 64 * blocks_of_slot VersionTwo geometry.now }
    requires geometry { control.old.p ≡ geometry.now }
    requires booting { IsBooting control.old }
    requires none { control.old.counts.lasts ≡ replicate geometry.now.pages 0 }
    requires fine { count_fault VersionTwo geometry.now (blocks_of slot.now) ≡ None }
    ensures counts { control.new ≡ with_lasts (counts_in VersionTwo geometry.now (blocks_of slot.now)) control.old }
    ensures booting { IsBooting control.new }
{
    let pages = geometry.numbers().pages;
    for page in 0..pages {
        control.list_count(page, listed_count(slot, page, geometry));
    }
}
