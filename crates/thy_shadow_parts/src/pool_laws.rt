//! Laws of the pool, each the contract of a function that does nothing.
ghost use Rattle.thy_shadow_parts.specs.Guarded.{PoolHasRoom, TargetsAreFree, TargetsAreLowest};

/// The pool always has a free page for each frame that is not filled. A frame goes to the lowest page that the committed
/// map does not list and to which no lower frame goes.
pub fn frames_go_to_free_pages()
    ensures room { PoolHasRoom }
    ensures free { TargetsAreFree }
    ensures lowest { TargetsAreLowest }
{}
