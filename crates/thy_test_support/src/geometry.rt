//! Geometries for tests.
ghost use Rattle.std.specs.Prelude.{◌≡◌, IfOk};

use std::alloc::Global;
use thy_base::{Config, ConfigError, Geometry, Parameters};

/// The geometry of numbers that are all in range, and else their first fault.
pub fn geometry_of(alloc: Global, numbers: &Parameters) -> Result<Geometry, ConfigError>
    ensures { IfOk result (λ geometry. geometry ≡ numbers.now) }
{
    let config = Config::of(alloc, numbers);
    Geometry::new(&config)
}
