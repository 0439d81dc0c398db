//! Laws of the layout, each the contract of a function that does nothing.
ghost use Rattle.thy_images.specs.JournalFree.{FreeIsNotLooked};
ghost use Rattle.thy_images.specs.JournalCheckpointParts.{SlotReadsBack, FaultlessIsTable, IssuedDecodes};
ghost use Rattle.thy_images.specs.JournalTableRefusals.{FoundIsSo, SoIsFound};

/// Processor and table read back from a slot as they were written, without a fault. The table of a slot without a
/// fault lists blocks of memory, none twice.
pub fn a_slot_reads_back()
    ensures slot { SlotReadsBack }
    ensures table { FaultlessIsTable }
{}

/// A refusal of a table names the first entry that lists what memory has not; if there is none, the first that lists
/// what an earlier one does, and that one. A table has no other refusal.
pub fn refusals_name_the_first_entries()
    ensures found { FoundIsSo }
    ensures so { SoIsFound }
{}

/// With the whole slot issued, and under a header without a fault, the next image decodes to the checkpoint and names its
/// table, and all blocks that determine it were issued, except the commit block.
pub fn a_checkpoint_is_issued()
    ensures { IssuedDecodes }
{}

/// The other slot, its journal, and the homes of blocks that the table lists do not decide what an image means.
pub fn free_is_not_looked_at()
    ensures { FreeIsNotLooked }
{}
