//! Laws of the tables, of images and of what leaves them alone, each the contract of a function that does nothing.
ghost use Rattle.thy_layout.specs.BackLaws.{EntriesReadBack};
ghost use Rattle.thy_record.specs.BackLaws.{TablesReadBack};
ghost use Rattle.thy_record.specs.ImageLaws.{FaultlessTables, BlocksHavePlaces, PlacesAreOwn, EntriesAreBlock, SlotReadsBack, WrittenDecodes, DecodedHasTables};
ghost use Rattle.thy_record.specs.Issuing.{ListedHomeIsUnused, PagedHomeIsUnused, EmptyEntryIsUnused, EmptyPageIsUnused, FreeIsNotLooked, PlacedIsMemory, MemoryIsPlaced};
ghost use Rattle.thy_record.specs.Migrated.{AnewMeansTheSame};
ghost use Rattle.thy_record.specs.TableRefusals.{FoundIsSo, SoIsFound};
ghost use Rattle.thy_record.specs.Migration.{MigrationDecodes};
ghost use Rattle.thy_record.specs.ThynvmParts.{IssuedDecodes};

/// Tables are those that a checkpoint may have exactly if no fault is found in them.
pub fn faultless_tables()
    ensures { FaultlessTables }
{}

/// Tables have a refusal exactly if what it says of the entries that it names holds: they are the first for which it
/// holds, and no fault that is tested before is there.
pub fn refusals_name_the_first_entries()
    ensures found { FoundIsSo }
    ensures so { SoIsFound }
{}

/// Each block of memory has a place in the NVM, and no two have the same.
pub fn each_block_has_its_place()
    ensures there { BlocksHavePlaces }
    ensures own { PlacesAreOwn }
{}

/// A block of a table reads back as it was written, entry by entry; and so do both tables from their blocks in a slot,
/// whatever they list and whatever else the slot holds.
pub fn tables_read_back()
    ensures entries { EntriesReadBack }
    ensures tables { TablesReadBack }
{}

/// Eight entries are a block of the tables; and processor, tables and counts read back from a slot as they were written.
pub fn slot_reads_back()
    ensures entries { EntriesAreBlock }
    ensures slot { SlotReadsBack }
{}

/// An image that has a checkpoint's commit block and slot, and a header without a fault, decodes to that checkpoint.
pub fn written_decodes()
    ensures { WrittenDecodes }
{}

/// An image that decodes to a checkpoint has tables that a checkpoint may have.
pub fn decoded_has_tables()
    ensures { DecodedHasTables }
{}

/// A slot of version 1 that is written again in version 2, with zeros after it, means the same: it has the same
/// processor and the same tables, counts of 0, and no fault either.
pub fn a_slot_anew_means_the_same()
    ensures { AnewMeansTheSame }
{}

/// A place that no block of memory stands in: the home of a block that is listed or whose page is, and what an
/// empty entry owns.
pub fn unused_places()
    ensures listed_home { ListedHomeIsUnused }
    ensures paged_home { PagedHomeIsUnused }
    ensures empty_entry { EmptyEntryIsUnused }
    ensures empty_page { EmptyPageIsUnused }
{}

/// What is free for an image's checkpoint is none of the blocks that determine what the image means.
pub fn free_is_not_looked_at()
    ensures { FreeIsNotLooked }
{}

/// Memory, read through tables, is a list of blocks exactly if each of these is at its place by the tables.
pub fn memory_is_read_at_its_places()
    ensures blocks { PlacedIsMemory }
    ensures memory { MemoryIsPlaced }
{}

/// In version 2, with the whole slot issued, and after a header without a fault, whoever wrote it, the next image
/// decodes to the checkpoint and has its tables and counts, and all that determines it was issued.
pub fn thynvm_layouts_are_issued()
    ensures { IssuedDecodes }
{}

/// An image of version 1 is migrated by a slot of version 2 that has the blocks of its own slot, and then zeros. Once
/// that slot was issued, the next image, with the commit block of the same epoch in version 2, decodes to the same
/// checkpoint.
pub fn a_migration_decodes()
    ensures { MigrationDecodes }
{}
