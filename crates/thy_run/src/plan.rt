//! What a run is to do.

use thy_base::{Config, Geometry};
use thy_layout::Start;

/// What a run is to do: its program, and how it is run.
#[derive(Debug, Drop)]
pub struct Plan {
    pub config: Config,
    /// The numbers of the configuration, which are in range.
    pub geometry: Geometry,
    /// The state at which the program starts, with its input.
    pub start: Start,
    /// Whether the report has digests of memory.
    pub digest: bool,
}
