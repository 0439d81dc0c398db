//! The source of a run's program.

/// The source of a run's program.
#[derive(Clone, Copy)]
pub enum ProgramSource<'a> {
    /// A program file of this name on the shelf.
    File(&'a str),
    /// The program file that is made from this number.
    Made(u64),
    /// A saved image of this name on the shelf.
    Image(&'a str),
}
