//! A machine's numbers in range, and the sizes that follow from them.
ghost use Rattle.std.specs.Prelude.{None, Ok, Option, ◌≡◌, ◌↔◌, ◌+◌, ◌*◌, ◌-◌, ◌<◌, ◌≤◌};
ghost use Rattle.thy_block.specs.Geometry.{IsInRange, geometry_or, memory_blocks, program_size, console_room, stack_top};
ghost use Rattle.thy_block.specs.declared.parameters.Parameters.{Parameters as Numbers};

use crate::Parameters;
use crate::page::{PAGE_BLOCKS, PAGE_SIZE};
use std::marker::Model;

/// What a geometry is made of: the numbers of a machine, and perhaps more values, each with its range.
pub trait Configuration {
    /// A value that is out of its range.
    type Fault;

    /// The numbers of the machine.
    ghost numbers: { Self → Numbers };

    /// Each value is in its range.
    ghost fits: { Self → Type 0 };

    /// The first value that is out of its range, if there is one.
    ghost fault: { Self → Option Self.Fault };

    /// The first value that is out of its range. There is none exactly if each value is in its range.
    fn first_fault(&self) -> Option<Self::Fault>
        ensures fault { result ≡ fault self.now }
        ensures faultless { (fault self.now ≡ None) ↔ fits self.now };

    /// The numbers of the machine, if each value is in its range; then each of these numbers is in its range too.
    fn parameters(&self) -> Parameters
        requires { fault self.now ≡ None }
        ensures numbers { result ≡ numbers self.now }
        ensures in_range { IsInRange result };
}

/// The numbers of a machine, each in its range, and the sizes that follow from them.
#[derive(Clone, Copy, Debug)]
pub struct Geometry {
    numbers: Parameters,
}

impl Model for Geometry {
    ghost use Rattle.thy_block.specs.declared.parameters.Parameters.{Parameters as Numbers};

    ghost Value = { Numbers };

    ghost use Rattle.thy_block.specs.Geometry.{IsInRange};

    ghost view = { λ g. g.numbers };

    ghost invariant = { λ g. IsInRange g.numbers };

    ghost inverse = { λ p. record { numbers = p } };
}

impl Geometry {
    /// The geometry of a configuration, or its first fault: its first value out of its range, in its own order.
    pub fn new<C: Configuration>(config: &C) -> Result<Geometry, C::Fault>
        ensures geometry { result ≡ geometry_or (C.fault config.now) (C.numbers config.now) }

        // So there is a geometry exactly if each value is in its range.
        ensures in_range { (result ≡ Ok (C.numbers config.now)) ↔ C.fits config.now }
    {
        match config.first_fault() {
            Some(fault) => Err(fault),
            None => Ok(Geometry::of(config)),
        }
    }

    /// The geometry of a configuration whose every value is in its range.
    pub fn of<C: Configuration>(config: &C) -> Geometry
        requires { C.fault config.now ≡ None }
        ensures { result ≡ C.numbers config.now }
    {
        Geometry {
            numbers: config.parameters(),
        }
    }

    /// The numbers that the geometry was made from, each in its range.
    pub fn numbers(&self) -> Parameters
        ensures same { result ≡ self.now }
        ensures in_range { IsInRange self.now }
    {
        self.numbers
    }

    /// How many harts there are: 1 or 2.
    pub fn harts(&self) -> u64
        ensures harts { result ≡ self.now.harts }
        ensures in_range { IsInRange self.now }
    {
        self.numbers.harts
    }

    /// How many blocks of 64 bytes memory has, the console's included.
    pub fn memory_blocks(&self) -> u64
        ensures blocks { result ≡ memory_blocks self.now }
        ensures in_range { IsInRange self.now }
    {
        PAGE_BLOCKS * self.numbers.pages
    }

    /// How many bytes of memory the program can address, from `base` on.
    pub fn program_size(&self) -> u64
        ensures size { result ≡ program_size self.now }
        ensures in_range { IsInRange self.now }
    {
        PAGE_SIZE * (self.numbers.pages - self.numbers.console)
    }

    /// How many bytes the console holds.
    pub fn console_room(&self) -> u64
        ensures { result ≡ console_room self.now }
    {
        PAGE_SIZE * self.numbers.console
    }

    /// The stack pointer at the start: 256 bytes below the end of program memory.
    pub fn stack_top(&self) -> u64
        ensures { result ≡ stack_top self.now }
    {
        self.numbers.base + PAGE_SIZE * (self.numbers.pages - self.numbers.console) - 256
    }
}
