//! The DRAM below the controller: what is queued there, and what a loss of power leaves.
ghost use Rattle.std.specs.Prelude.{◌≡◌, ◌<◌};
ghost use Rattle.thy_block.specs.Device.{Device};
ghost use Rattle.thy_dram.specs.Contents.{lost};

use super::Control;
use thy_dram::Dram;

impl Control {
    ghost use Rattle.thy_control.specs.Drains.{after_drain, ReadsAlike};
    ghost use Rattle.thy_control.specs.Stays.{Stays};

    /// How many writes are queued in the DRAM.
    pub fn queued(&self) -> u64
        ensures { result ≡ self.now.dram.queued }
    {
        self.dram.queued()
    }

    /// Lets the oldest write that is queued in the DRAM land. Every place of both devices reads as before.
    pub fn drain(&mut self)
        requires { 0 < self.old.dram.queued }
        ensures state { self.new ≡ after_drain self.old }
        ensures reads { ReadsAlike self.old self.new }
        ensures stays { (nvm : Device) → Stays self.old nvm self.new nvm }
    {
        self.drain_one();
    }

    /// Lets the oldest write that is queued in the DRAM land.
    fn drain_one(&mut self)
        requires { 0 < self.old.dram.queued }
        ensures { self.new ≡ after_drain self.old }
    {
        self.dram.drain();
    }

    /// Cuts the power: the tables are lost, and every byte of the DRAM becomes one that the pick draws.
    pub fn cut(self, pick: u64) -> Dram
        ensures { result ≡ lost self.dram pick }
    {
        let mut dram = self.dram;
        dram.cut(pick);
        dram
    }
}
