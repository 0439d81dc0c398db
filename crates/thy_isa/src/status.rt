//! Whether a program runs.
ghost use Rattle.std.specs.Prelude.{◌≡◌};
ghost use Rattle.thy_isa.specs.Step.{is_running};

use crate::state::Status;

/// Whether a program of this status still runs: it has neither exited nor trapped.
pub fn is_running(status: Status) -> bool
    ensures { result ≡ is_running status }
{
    match status {
        Status::Running => true,
        Status::Exited(_) | Status::Trapped(_) => false,
    }
}
