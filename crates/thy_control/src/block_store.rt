//! The controller as a store of blocks.
use crate::{Control, blocks_are_works};
use thy_block::{Block, BlockStore, Nvm, NvmError, Stored};

/// Blocks of memory, over the controller and the NVM below it; none if the NVM has another size or is down. It is ready
/// while no page is being promoted and the NVM is up, and has room for one store for each free entry of the block
/// table. A copy is owed for each buffer that has still to be copied.
impl<N: Nvm> BlockStore<N> for Control {
    ghost use Rattle.thy_control.specs.Accesses.{LeavesAll, MakesStore};
    ghost use Rattle.thy_control.specs.Holding.{holding_of};
    ghost use Rattle.thy_control.specs.Once.{Once};
    ghost use Rattle.thy_control.specs.Stays.{Stays};
    ghost use Rattle.thy_control.specs.OverCalls.{stays_same, stays_on};

    ghost holding = { λ control nvm. holding_of control (N.device nvm) };

    ghost once = { λ a m b n. Once a (N.device m) b (N.device n) };

    ghost loads = { λ a m b n. LeavesAll a (N.device m) b (N.device n) };

    ghost stores = { λ b block stored a m c n. MakesStore b block stored a (N.device m) c (N.device n) };

    ghost stays = { λ a m b n. Stays a (N.device m) b (N.device n) };

    fn load(&mut self, b: u64, nvm: &mut N) -> Result<Block, NvmError> {
        blocks_are_works();
        Control::load(self, b, nvm)
    }

    fn store(&mut self, b: u64, block: &Block, nvm: &mut N) -> Result<Stored, NvmError> {
        blocks_are_works();
        self.recall_tables();
        Control::store(self, b, block, nvm)
    }

    ghost once_stays = { λ a m b n once. once.stays };

    ghost stays_same = { λ control nvm. stays_same control (N.device nvm) };

    ghost stays_on = { λ a m b n c o first second. stays_on a (N.device m) b (N.device n) c (N.device o) first second };
}
