//! Laws of the engine, each the contract of a function that does nothing.
ghost use Rattle.thy_checkpoint.specs.Cycles.{CyclesAreFew, ItemsCount, ItemsFit};

use crate::items::Checkpoints;

/// Every item takes one of the cycles that a checkpoint has left, at least; and they are few.
pub fn every_item_takes_a_cycle<E: Checkpoints>()
    ensures count { ItemsCount E.filling E.items }
    ensures few { CyclesAreFew E.filling E.items }
{
    E::recall_items();
}

/// Engine and controller belong together after every item.
pub fn items_keep_them_together<E: Checkpoints>()
    ensures { ItemsFit E.filling E.items }
{
    E::recall_items();
}
