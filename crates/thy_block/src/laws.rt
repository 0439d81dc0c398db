//! Laws, each the contract of a function that does nothing.
ghost use Rattle.thy_block.specs.Laws.{FlatLength, SpansAreRead, SpansAreWritten};

/// Blocks are 64 bytes each. Gathering a span gives the bytes at its place, and scattering bytes over it changes these and
/// no other.
pub fn spans_are_bytes()
    ensures length { FlatLength }
    ensures read { SpansAreRead }
    ensures written { SpansAreWritten }
{}
