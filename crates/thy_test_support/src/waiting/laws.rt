//! The law of a scheme that waits, as the contract of a function that does nothing.
ghost use Rattle.thy_scheme.specs.Laws.{IsLawful};
ghost use Rattle.thy_test_support.specs.WaitingScheme.{AppliesNothing, waits_over};

use thy_scheme::Scheme;

/// Over a lawful scheme that applies nothing after its boot, one that waits is lawful. At most three barriers are left,
/// and none while an epoch is sealed or in the boot. While some are left the engine has something to do, and the hart may
/// not run.
pub fn a_scheme_that_waits_is_lawful<S: Scheme>()
    requires { AppliesNothing S.scheme }
    ensures { IsLawful (waits_over S.scheme) }
{}
