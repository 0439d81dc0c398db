//! A law of events, the contract of a function that does nothing.
ghost use Rattle.thy_text.specs.OneHart.{OneHartGoesByCounts};

/// With one hart no turn is listed, and events are lawful exactly if they are by counts alone.
pub fn with_one_hart_events_go_by_counts()
    ensures { OneHartGoesByCounts }
{}
