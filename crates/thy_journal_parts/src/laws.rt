//! Laws of the journal, each the contract of a function that does nothing.
ghost use Rattle.thy_scheme_parts.specs.Schemes.{FirstHasRoom, HartIsBarred, NeverMigrates};
ghost use Rattle.thy_journal_parts.specs.Design.{journal_design};
ghost use Rattle.thy_journal_parts.specs.Laws.{BootsAreShort, EntriesAreFree, EpochsAreShort};
ghost use Rattle.thy_journal_parts.specs.Scheme.{journal_scheme};
ghost use Rattle.thy_scheme_parts.specs.AreParts.{AreParts};
ghost use Rattle.thy_scheme.specs.Laws.{IsLawful};

/// The journal is a scheme of lawful parts. The body of a checkpoint is the buffer of each live entry, written to its
/// place in the journal of the epoch's slot. After the commit each goes to its block's home, and after the barrier at the
/// end all entries are free.
pub fn the_journal_is_made_of_parts()
    ensures { AreParts journal_design }
{}

/// The journal is a lawful scheme.
pub fn the_journal_is_lawful()
    ensures { IsLawful journal_scheme }
{}

/// A boot takes at most one action more than the greater of what loading and what restoring takes. A checkpoint takes at
/// most two for each entry of the table, one for each block of the slot, and four more. No boot migrates.
pub fn boots_are_short()
    ensures short { BootsAreShort }
    ensures never { NeverMigrates journal_scheme }
{}

/// The hart waits for each checkpoint, until its journal is applied: nothing overlaps.
pub fn a_checkpoint_bars_the_hart()
    ensures { HartIsBarred journal_scheme }
{}

/// An epoch spends fewer cycles of hart and engine than 17 for each of its instructions, three for each entry of the
/// table, one for each block of a slot, and five more.
pub fn epochs_are_short()
    ensures { EpochsAreShort }
{}

/// While nothing is under way, and nothing was stored since the last seal, every entry is free. So the first
/// instruction of an epoch always has room: none is exhausted before it has retired one.
pub fn an_epoch_begins_with_every_entry_free()
    ensures free { EntriesAreFree }
    ensures room { FirstHasRoom journal_scheme }
{}
