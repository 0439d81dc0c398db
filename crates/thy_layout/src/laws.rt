//! Laws of header, commit block and record, and of what images mean, each the contract of a function that does nothing.
ghost use Rattle.thy_layout.specs.BackLaws.{HeaderReadsBack, CommitReadsBack, OnlyVersionTwo, RecordReadsBack, RecordIsWrittenAgain};
ghost use Rattle.thy_layout.specs.LayoutLaws.{LookedDecides, CopiesLookAlike, ZeroIsNothing, NothingIsZero, WholeDecodes, DecodedIsWhole, NothingIsLooked, CeilingGrows, FilledUpDecodes, FileDecodes};

/// A header reads back as one without a fault, whatever the number of the scheme, and a commit block as one of its epoch.
pub fn header_and_commit_read_back()
    ensures header { HeaderReadsBack }
    ensures commit { CommitReadsBack }
{}

/// If a scheme with this geometry has no version 1, a commit block of that version is refused under each header without a
/// fault.
pub fn version_one_is_refused_if_unknown()
    ensures { OnlyVersionTwo }
{}

/// The blocks of the processor's record read back as they were written: its state and the epoch. The state must have
/// the geometry's number of harts, 32 registers of each, of which register 0 is zero, and numbers of 64 bits.
pub fn record_reads_back()
    ensures { RecordReadsBack }
{}

/// A record without a fault that is read and then written, with its epoch, has the same words, the address of a reservation of no
/// bytes among them.
pub fn a_record_is_written_again()
    ensures { RecordIsWrittenAgain }
{}

/// A copy of an image, at all places that determine what it means, means the same, and the same places determine it. If it has
/// no checkpoint, the commit block is the only one.
pub fn copies_mean_the_same()
    ensures means { LookedDecides }
    ensures looked { CopiesLookAlike }
    ensures nothing { NothingIsLooked }
{}

/// An image means nothing exactly if its commit block is zero, and an epoch and a state exactly if it is whole.
pub fn whole_images_decode()
    ensures zero { ZeroIsNothing }
    ensures nothing { NothingIsZero }
    ensures whole { WholeDecodes }
    ensures decoded { DecodedIsWhole }
{}

/// What decodes with epochs and counts below a ceiling decodes to the same below a higher one.
pub fn ceiling_grows()
    ensures { CeilingGrows }
{}

/// An image that is filled up with zeros to the length of its layout means the same.
pub fn filled_up_decodes()
    ensures { FilledUpDecodes }
{}

/// A file of an image's bytes means what the image does.
pub fn file_decodes()
    ensures { FileDecodes }
{}
