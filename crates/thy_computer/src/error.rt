//! Why a machine could not be read.

use std::alloc::AllocError;
use thy_block::NvmError;

/// Why a machine could not be read.
#[derive(Clone, Copy, Debug, PartialEq, Eq)]
pub enum CoreError {
    /// The NVM failed.
    Nvm,
    /// Memory ran out.
    Memory(AllocError),
}

impl From<AllocError> for CoreError {
    ghost use Rattle.std.specs.Prelude.{◌≡◌};
    ghost use Rattle.thy_computer.specs.declared.error.CoreError.TheVariants.{Memory};

    ghost from_gives = { λ a e. e ≡ Memory a };

    fn from(error: AllocError) -> Self {
        CoreError::Memory(error)
    }
}

impl From<NvmError> for CoreError {
    ghost use Rattle.std.specs.Prelude.{◌≡◌};
    ghost use Rattle.thy_computer.specs.declared.error.CoreError.TheVariants.{Nvm};

    ghost from_gives = { λ _ e. e ≡ Nvm };

    fn from(_: NvmError) -> Self {
        CoreError::Nvm
    }
}
