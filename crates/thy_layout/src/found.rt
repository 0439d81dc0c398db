//! What a check of an image finds.

/// What an image without a fault has.
#[derive(Clone, Copy, Debug, PartialEq, Eq)]
pub enum Found {
    /// No checkpoint: the commit block is all zero.
    Nothing,
    /// The checkpoint of this epoch.
    At(u64),
}
