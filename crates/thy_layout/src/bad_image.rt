//! Why an image is refused.
ghost use Rattle.std.specs.Prelude.{◌≡◌};
ghost use Rattle.thy_layout.specs.Refusals.{number_of, name_of};

/// What is wrong with an image. The variants are in the order in which they are tested. Entries of the page table are
/// counted after the block table's entries, if a variant may name either.
#[derive(Clone, Copy, Debug, PartialEq, Eq)]
pub enum BadImage {
    /// No commit block: a file has fewer than 128 bytes. Or the commit block is all zero, where a checkpoint has to be; `check` answers
    /// `Nothing` to such an image.
    Empty,
    /// The header does not begin with the name of image headers.
    Header,
    /// The header has a version that no reader knows.
    Version,
    /// The image was made for another geometry: base, pages, console, the size of a table, the scheme or the number of
    /// harts differs. Or, if the layout asks for it, the image has another length.
    Geometry,
    /// The commit block has another name than the two versions' names, or version 1's name after a header of version 2.
    /// Or its epoch is not below the ceiling, or a word after the epoch is not zero. Or the processor's record is of
    /// another epoch.
    Commit,
    /// The entry of the tables with this number names a block or a page that does not exist.
    TableIndex(u64),
    /// The second of these entries of a table names the block or page that the first one names.
    TableTwice(u64, u64),
    /// The entry of the block table with the first number names a block of the page that the entry with the second number, of the page
    /// table, names.
    BlockUnderPage(u64, u64),
    /// The processor's status or count has no meaning.
    Status,
    /// The console has more bytes than its pages.
    ConsoleLength,
    /// The byte of the counts with this index is past 63, or it is past the last page and not zero.
    Count(u64),
    /// With two harts: the width of a reservation is none of 0, 4 and 8, or a word after the reservations is not zero.
    Second,
}

impl BadImage {
    /// The refusal's number: 1 and more, in the order of the tests.
    pub fn number(&self) -> u64
        ensures { result ≡ number_of self.now }
    {
        match self {
            BadImage::Empty => 1,
            BadImage::Header => 2,
            BadImage::Version => 3,
            BadImage::Geometry => 4,
            BadImage::Commit => 5,
            BadImage::TableIndex(_) => 6,
            BadImage::TableTwice(_, _) => 7,
            BadImage::BlockUnderPage(_, _) => 8,
            BadImage::Status => 9,
            BadImage::ConsoleLength => 10,
            BadImage::Count(_) => 11,
            BadImage::Second => 12,
        }
    }

    /// The refusal's name, as the closing line of a report has it.
    pub fn name(&self) -> &'static str
        ensures { result.now ≡ name_of self.now }
    {
        match self {
            BadImage::Empty => "Empty",
            BadImage::Header => "Header",
            BadImage::Version => "Version",
            BadImage::Geometry => "Geometry",
            BadImage::Commit => "Commit",
            BadImage::TableIndex(_) => "TableIndex",
            BadImage::TableTwice(_, _) => "TableTwice",
            BadImage::BlockUnderPage(_, _) => "BlockUnderPage",
            BadImage::Status => "Status",
            BadImage::ConsoleLength => "ConsoleLength",
            BadImage::Count(_) => "Count",
            BadImage::Second => "Second",
        }
    }
}
