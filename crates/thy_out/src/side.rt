//! The name of the file that a put makes beside a name.
ghost use Rattle.std.specs.Prelude.{◌≡◌, ◌+◌, ◌<◌, ◌++◌, codes, length, IfSome, IfNone};

use arrayvec::ArrayString;

/// What follows a name in the name of the file that is made beside it.
const SUFFIX: &str = ".thynvm-new";

/// The longest path that the system takes, in bytes.
const LONGEST: usize = 4096;

/// The name of a file that is made beside a name. What takes one can't be handed the name itself.
#[derive(Drop)]
pub(crate) struct Side {
    path: ArrayString<LONGEST>,
}

impl Side {
    /// The name of the file that is made beside this one, unless it is too long.
    pub(crate) fn of(name: &str) -> Option<Side>
        ensures named { IfSome result (λ side. side.path.bytes ≡ name.now ++ codes ".thynvm-new") }
        ensures long { IfNone result (4096 < length name.now + 11) }
    {
        let mut path = ArrayString::new();
        if path.try_push_str(name).is_err() || path.try_push_str(SUFFIX).is_err() {
            return None;
        }
        Some(Side { path })
    }

    /// The name of the file as a path.
    pub(crate) fn as_str(&self) -> &str
        ensures { result.now ≡ self.now.path.bytes }
    {
        self.path.as_str()
    }
}
