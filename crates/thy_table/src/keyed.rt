//! What an entry lists.
ghost use Rattle.std.specs.Prelude.{◌≡◌, ℕ};

/// An entry of a table. It lists one number, such as the number of a block or of a page.
pub trait Keyed: Copy {
    /// The number that an entry lists.
    ghost key: { Self → ℕ };

    /// The number that the entry lists.
    fn key(&self) -> u64
        ensures { result ≡ key self.now };
}
