//! The laws of runs, each as the contract of a function that does nothing.
ghost use Rattle.thy_run.specs.Alike.{TwoRunsAreOne, TwoRunsShowOne};
ghost use Rattle.thy_run.specs.Laws.{OneMoreCutIsSafe, RunKeepsPromise};
ghost use Rattle.thy_run.specs.Progress.{RunIsBusy, RunIsSoonOver, RunNeverRests};
ghost use Rattle.thy_run.specs.Strides.{RunStrides};

use thy_computer::Computer;

/// Whatever the cuts of a run left, its events are lawful, each restart is what the cut before it left, and the cuts are
/// the listed ones. The device is safe for the checkpoints that the events report, was not fitted again, and has room for
/// one more cut. The cycles are bounded, and of two epochs in a row, with no cut between them, one retired an
/// instruction.
pub fn every_run_keeps_its_promise<M: Computer>()
    ensures { RunKeepsPromise M.kind }
{}

/// What one more cut of power leaves of a device that is safe for some checkpoints, is safe for these.
pub fn one_more_cut_is_safe<M: Computer>()
    ensures { OneMoreCutIsSafe M.kind }
{}

/// With one hart a run of a program that ends within k instructions has fewer cycles than the sum of the last listed cut,
/// the longest boot and k times the most for an instruction.
pub fn every_run_is_soon_over<M: Computer>()
    ensures { RunIsSoonOver M.kind }
{}

/// A run has no more cycles than the instructions that it retired since power came on account for. Its boot and its
/// epoch take no more cycles than they may, and it drains queues at most as often as it does anything else.
pub fn every_run_is_busy<M: Computer>()
    ensures { RunIsBusy M.kind }
{}

/// No cycle of a run does nothing.
pub fn no_cycle_of_a_run_rests<M: Computer>()
    ensures { RunNeverRests M.kind }
{}

/// Of two epochs in a row that a run reports, with no power cut between them, at least one retired an instruction.
pub fn every_run_strides<M: Computer>()
    ensures { RunStrides M.kind }
{}

/// Two runs of the same rules are one: from what a run is given and what its cuts left follow machine, device, events and
/// turns after each cycle, if the device says what its barriers write.
pub fn two_runs_are_one<M: Computer>()
    ensures { TwoRunsAreOne M.kind }
{}

/// An observer sees the same cycles in two runs of the same rules: what each cycle did, its stall, and the cuts after it.
pub fn two_runs_show_one<M: Computer>()
    ensures { TwoRunsShowOne M.kind }
{}
