//! What is done to every entry of a table, and what is looked for in one.
ghost use Rattle.std.specs.Prelude.{◌≡◌, Bool, Option, Some};

use crate::keyed::Keyed;

/// A rule by which each live entry of a table is changed or freed.
pub trait Rule<E: Keyed> {
    /// What the rule makes of an entry, as contracts say it: None if the entry is cleared.
    ghost gives: { Self → E → Option E };

    /// What the rule makes of an entry: None if the entry is cleared.
    fn apply(&self, entry: &E) -> Option<E>
        ensures { result ≡ gives self.now entry.now };

    /// A rule keeps the number that an entry lists.
    ghost keeps_key: { (rule : Self) (e f : E) → gives rule e ≡ Some f → E.key f ≡ E.key e };
}

/// A test of entries, by which a table is searched.
pub trait Test<E> {
    /// Whether an entry passes, as contracts say it.
    ghost holds: { Self → E → Bool };

    /// Whether an entry passes.
    fn test(&self, entry: &E) -> bool
        ensures { result ≡ holds self.now entry.now };
}
