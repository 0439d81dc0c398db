//! A device whose cuts are given their choices.
ghost use Rattle.std.specs.Prelude.{◌≡◌, ◌<◌, [], true, false, length};
ghost use Rattle.thy_block.specs.Device.{IsCut};
ghost use Rattle.thy_nvm.specs.Chosen.{HasCutAsChosen};
ghost use Rattle.thy_nvm.specs.DeviceInMemory.{fresh_device};
ghost use Rattle.thy_nvm.specs.Pick.{cut_by};

use crate::choices::Choices;
use crate::mem_nvm::MemNvm;
use std::alloc::Global;
use std::marker::Model;
use thy_block::{Block, FitError, Nvm, NvmError, Shape};

/// A device in memory whose blocks may be torn, as `MemNvm::tearing`, but which words a cut leaves is a list and not drawn
/// by the cut's pick. For tests whose cuts are worked out by hand.
#[derive(Drop)]
pub struct ChosenNvm {
    nvm: MemNvm,
    choices: Choices,
}

impl Model for ChosenNvm {
    ghost use Rattle.thy_nvm.specs.Chosen.{Choosing};

    ghost Value = { Choosing };

    ghost view = { λ it. record { nvm = it.nvm; numbers = it.choices } };
}

impl ChosenNvm {
    /// A device without blocks whose cuts leave this. Allocates nothing.
    pub fn new(alloc: Global, choices: Choices) -> ChosenNvm
        ensures { result ≡ record { nvm = fresh_device false [] []; numbers = choices } }
    {
        ChosenNvm {
            nvm: MemNvm::tearing(alloc),
            choices,
        }
    }
}

impl Nvm for ChosenNvm {
    ghost device = { λ it. it.nvm.device };

    fn fit(&mut self, alloc: Global, shape: &Shape, start: Vec<Block>) -> Result<(), FitError> {
        self.nvm.fit(alloc, shape, start)
    }

    fn queued(&self) -> u64 {
        self.nvm.queued()
    }

    fn lands_whole(&self) -> bool {
        self.nvm.lands_whole()
    }

    fn writes(&self) -> u64 {
        self.nvm.writes()
    }

    fn read(&mut self, at: u64) -> Result<Block, NvmError> {
        self.nvm.read(at)
    }

    fn write(&mut self, at: u64, block: &Block) -> Result<(), NvmError> {
        self.nvm.write(at, block)
    }

    fn drain(&mut self) -> Result<(), NvmError> {
        self.nvm.drain()
    }

    fn barrier(&mut self) -> Result<(), NvmError> {
        self.nvm.barrier()
    }

    fn cut(&mut self, pick: u64)
        requires { length self.old.nvm.device.left < self.old.nvm.device.left_room }
        ensures cut { IsCut pick self.old.nvm.device self.new.nvm.device }
        ensures chosen { self.old.nvm.device.whole ≡ false → HasCutAsChosen self.old self.new }
        ensures drawn { self.old.nvm.device.whole ≡ true → self.new ≡ record self.old { nvm = cut_by pick self.old.nvm } }
    {
        if self.nvm.lands_whole() {
            self.nvm.cut(pick)
        } else {
            self.nvm.cut_as_chosen(pick, &mut self.choices)
        }
    }

    fn kept(&self, i: u64, at: u64) -> Block {
        self.nvm.kept(i, at)
    }
}
