//! Why a boot over a copy is one of the run.
ghost use Rattle.thy_sweep.specs.Trials.{GoesOnOverCopy};

use thy_computer::Computer;

/// A machine whose power comes on over a copy of what a cut may leave is at a moment of the same run, as it is after the cut itself.
pub fn a_run_goes_on_over_a_copy<M: Computer>()
    ensures { GoesOnOverCopy M.kind }
{}
