//! The non-volatile memory, simulated in the memory of the host. `MemNvm` keeps the laws of the trait `Nvm`, fails
//! exactly at the calls that are listed for it, and its cut leaves exactly the image of its pick. `Overlay` is what a cut
//! leaves of a `MemNvm`, as a device over its image, which is not copied. `ChosenNvm` is for tests: which words its cuts leave is a
//! list.
//!
//! Open specs/Pick.antt first, then specs/DeviceInMemory.antt and src/mem_nvm.rt, and specs/Overlaid.antt. It stands on
//! thy_block and thy_dram. The program and the tests use it; no other crate does, since each is proved for every device.
#![tactic(auto)]

mod call_faults;
mod choices;
mod chosen;
mod kept;
mod mem_nvm;
mod over;
mod overlay;
mod pick;

pub use choices::Choices;
pub use chosen::ChosenNvm;
pub use mem_nvm::MemNvm;
pub use overlay::{Overlay, Spare};
