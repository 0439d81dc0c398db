//! How events are reported.

/// How the events of a run are reported.
#[derive(Clone, Copy, Debug, PartialEq, Eq)]
pub struct Reporting {
    /// Whether the lines of restarts and ends are followed by digests of memory.
    pub digest: bool,
    /// How many harts there are. With two, the line of an epoch's end has how many instructions each retired.
    pub harts: u64,
}
