//! The layout versions of a checkpoint.

/// The layout version of a checkpoint in the NVM, as its commit block names it. Docs: docs/FORMATS.md.
#[derive(Clone, Copy, Debug, PartialEq, Eq)]
pub enum LayoutVersion {
    /// Version 1: its slots come before the homes, and have no counts.
    VersionOne,
    /// Version 2: its slots come after everything that version 1 has, and have the counts of pages.
    VersionTwo,
}
