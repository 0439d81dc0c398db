//! Laws of the machine, for every scheme, each the contract of a function that does nothing.
ghost use Rattle.thy_scheme.specs.Failures.{HartFails, FlushFails, PromotionLeaves, EngineLeaves, BootLeaves, DrainFails};
ghost use Rattle.thy_scheme.specs.Rows.{HartSimulates, HartHandsOn, FlushSimulates, MergeSimulates, PromotionSimulates, BootSimulates, SealSimulates, EngineSimulates, NvmDrainSimulates, DramDrainSimulates, BootDrainSimulates, HaltSimulates};
ghost use Rattle.thy_scheme.specs.Runs.{MomentIsSafe, CyclesComeNearer, FreshSimulates, LeftSimulates, MachineIsLawful, LeadsToMoment, SimulatingIsStep, FailingIsSafe};

use crate::Scheme;

/// A step of a hart leads to the next moment: by a step of the view, one action on the NVM or one write of the DRAM, and
/// within bounds. It gets done what it says. It is short of entries only if the blocks that the plain machine's
/// instruction stores to have no room, and it secures an entry for each of them, once.
pub fn the_hart_simulates<S: Scheme>()
    ensures { HartSimulates S.scheme }
{}

/// An instruction that is begun stays its hart's until it is retired or dropped.
pub fn the_hart_hands_on<S: Scheme>()
    ensures { HartHandsOn S.scheme }
{}

/// A step of a flush before a seal leads to the next moment.
pub fn a_flush_simulates<S: Scheme>()
    ensures { FlushSimulates S.scheme }
{}

/// A merge of a block before a seal leads to the next moment.
pub fn a_merge_simulates<S: Scheme>()
    ensures { MergeSimulates S.scheme }
{}

/// A promotion of a block leads to the next moment.
pub fn a_promotion_simulates<S: Scheme>()
    ensures { PromotionSimulates S.scheme }
{}

/// Whatever a power cut leaves at a moment is the committed checkpoint, whole, or the one in doubt.
pub fn a_moment_is_safe<S: Scheme>()
    ensures { MomentIsSafe S.scheme }
{}

/// A cycle of a machine that has not halted decreases the measure, the bound on the cycles left until the next instruction
/// or the end, by one. Only a retired instruction raises it.
pub fn cycles_come_nearer()
    ensures { CyclesComeNearer }
{}

/// A new machine over a fitted device is at a moment of the run that this begins.
pub fn a_fresh_start_simulates<S: Scheme>()
    ensures { FreshSimulates S.scheme }
{}

/// Power that comes on over a device which a cut may have left, also after a step that failed, leads to a moment of the same
/// run, whose view is what the image means.
pub fn power_that_comes_on_simulates<S: Scheme>()
    ensures { LeftSimulates S.scheme }
{}

/// Over a lawful scheme the machine keeps the laws of machines.
pub fn the_machine_is_lawful<S: Scheme>()
    ensures { MachineIsLawful S.scheme }
{}

/// A load or a store of the hart that fails leaves the committed checkpoint, whole, or the sealed one, if that one's commit
/// block was written before.
pub fn the_hart_fails_safely<S: Scheme>()
    ensures { HartFails S.scheme }
{}

/// A store of a line that fails leaves the committed checkpoint, whole, or the sealed one, if that one's commit block was
/// written before.
pub fn a_flush_fails_safely<S: Scheme>()
    ensures { FlushFails S.scheme }
{}

/// A promotion that fails leaves the committed checkpoint, whole, or the sealed one, if that one's commit block was
/// written before.
pub fn a_promotion_fails_safely<S: Scheme>()
    ensures { PromotionLeaves S.scheme }
{}

/// A step of the engine that fails leaves the committed checkpoint, whole, or the sealed one, if that one's commit block
/// was written before or this was its write.
pub fn the_engine_fails_safely<S: Scheme>()
    ensures { EngineLeaves S.scheme }
{}

/// A step of the boot that fails leaves the committed checkpoint, whole, or the one that is loaded, if loading's commit
/// block was written before or this was its write.
pub fn the_boot_fails_safely<S: Scheme>()
    ensures { BootLeaves S.scheme }
{}

/// A drain of the NVM that fails leaves the committed checkpoint, whole, or the sealed one, if that one's commit block
/// was written before.
pub fn a_drain_fails_safely<S: Scheme>()
    ensures { DrainFails S.scheme }
{}

/// A step of the boot leads to the next moment: after its last one the hart is at the checkpoint that was found or
/// loaded.
pub fn the_boot_simulates<S: Scheme>()
    ensures { BootSimulates S.scheme }
{}

/// A seal of an epoch that is over leads to the next moment, at which its checkpoint is under way.
pub fn a_seal_simulates<S: Scheme>()
    ensures { SealSimulates S.scheme }
{}

/// A step of the engine leads to the next moment: with the last one the sealed checkpoint is the committed one.
pub fn the_engine_simulates<S: Scheme>()
    ensures { EngineSimulates S.scheme }
{}

/// A write of the NVM that lands leads to the next moment, in each phase: the view does not change.
pub fn an_nvm_drain_simulates<S: Scheme>()
    ensures { NvmDrainSimulates S.scheme }
{}

/// A write of the DRAM that lands after the boot leads to the next moment.
pub fn a_dram_drain_simulates<S: Scheme>()
    ensures { DramDrainSimulates S.scheme }
{}

/// A write of the DRAM that lands in the boot leads to the next moment.
pub fn a_drain_of_the_boot_simulates<S: Scheme>()
    ensures { BootDrainSimulates S.scheme }
{}

/// A machine that has halted does nothing, and stays at a moment of the run.
pub fn a_halted_cycle_simulates<S: Scheme>()
    ensures { HaltSimulates S.scheme }
{}

/// A cycle that simulates the run along all turns that agree so far leads to a moment, whatever turns are to come.
pub fn a_cycle_leads_to_a_moment<S: Scheme>()
    ensures { LeadsToMoment S.scheme }
{}

/// A cycle that leads to the next moment, at the turn of its pick, and makes exactly what that actor's cycle makes is a step of
/// a machine.
pub fn a_cycle_that_simulates_is_a_step<S: Scheme>()
    ensures { SimulatingIsStep S.scheme }
{}

/// A cycle that fails in its action, at the turn of its pick, leaves the committed checkpoint, whole, or the one in
/// doubt, and a machine of which power can be cut, with the processor where it was.
pub fn a_cycle_that_fails_is_safe<S: Scheme>()
    ensures { FailingIsSafe S.scheme }
{}
