//! Laws of the layout, each the contract of a function that does nothing.
ghost use Rattle.thy_images.specs.ShadowFree.{FreeIsNotLooked};
ghost use Rattle.thy_images.specs.ShadowCheckpointParts.{SlotReadsBack, FaultlessIsMap, IssuedDecodes};
ghost use Rattle.thy_images.specs.ShadowTableRefusals.{FoundIsSo, SoIsFound};

/// Processor and map read back from a slot as they were written, without a fault. The map of a slot without a fault
/// lists a page of the pool for each page of memory and for no other, none twice.
pub fn a_slot_reads_back()
    ensures slot { SlotReadsBack }
    ensures map { FaultlessIsMap }
{}

/// A refusal of a map names the first entry that is empty though memory has its page, that lists a page which the pool
/// has not, or that lists one though memory has no such page. If there is none, it names the first that lists what an
/// earlier one does, and that one. A map has no other refusal.
pub fn refusals_name_the_first_entries()
    ensures found { FoundIsSo }
    ensures so { SoIsFound }
{}

/// With the whole slot issued, and under a header without a fault, the next image decodes to the checkpoint and names
/// its map, and all blocks that determine it were issued, except the commit block.
pub fn a_checkpoint_is_issued()
    ensures { IssuedDecodes }
{}

/// The other slot, and pages of the pool that the map does not list, do not decide what an image means.
pub fn free_is_not_looked_at()
    ensures { FreeIsNotLooked }
{}
