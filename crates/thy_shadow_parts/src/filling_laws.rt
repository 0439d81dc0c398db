//! Laws of listing, each the contract of a function that does nothing.
ghost use Rattle.thy_checkpoint.specs.Filling.{IsFilling};
ghost use Rattle.thy_shadow_parts.specs.Filling.{filling_shadow};

/// A boot may list the pool: with the map of a slot listed, each block loads as the image has it; and what a start
/// writes is a checkpoint.
pub fn the_pool_is_listed()
    ensures { IsFilling filling_shadow }
{}
