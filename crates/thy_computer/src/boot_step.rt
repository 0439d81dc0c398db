//! What a step of the boot reports.
use thy_isa::CpuState;
use thy_layout::BadImage;

/// What a step of the boot reports.
#[derive(Clone, Copy, Debug, PartialEq, Eq)]
pub enum BootStep {
    /// The boot goes on.
    GoesOn,
    /// The program is loaded, as the checkpoint of epoch 0.
    Loaded,
    /// The checkpoint of this epoch was restored, with this state of the processor.
    Restarted(CpuState, u64),
    /// The image is refused. This comes again at each later step.
    Refused(BadImage),
}
