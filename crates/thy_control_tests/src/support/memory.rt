//! A controller of the least memory with its engine, and the NVM below both. Each call tests what it requires, and stops
//! the test if that does not hold.
ghost use Rattle.std.specs.Prelude.{◌≡◌, ◌<◌, length, true, false};
ghost use Rattle.thy_table.specs.Places.{image_blocks};
ghost use Rattle.thy_thynvm_parts.specs.Design.{is_promoting};
ghost use Rattle.thy_control_tests.specs.Driven.{Drives};
ghost use Rattle.thy_control_tests.specs.Memory.{HasRoom};

use crate::support::starting::Off;
use std::alloc::Global;
use std::marker::Model;
use std::process::Abort;
use thy_base::{Block, Geometry, Nvm, Parameters, Shape, Stored};
use thy_checkpoint::Engine;
use thy_control::Control;
use thy_dram::Dram;
use thy_layout::{EngineStep, Found};
use thy_nvm::MemNvm;
use thy_record::{check, header_block, state};
use thy_schemes::ThynvmTables;
use thy_table::blocks;
use thy_test_support::{cpu_at, geometry_of};
use thy_thynvm_parts::engine_and_controller_fit;

/// The controller, its engine and the NVM.
#[derive(Drop)]
pub(crate) struct Memory {
    geometry: Geometry,
    control: Control,
    engine: Engine,
    nvm: MemNvm,
    cuts: u64,
}

impl Model for Memory {
    ghost use Rattle.thy_control_tests.specs.Memory.{MemoryParts, IsMemory};

    ghost Value = { MemoryParts };

    ghost view = { λ m. record { p = m.geometry; control = m.control; engine = m.engine; nvm = m.nvm.device; cuts = m.cuts } };

    ghost invariant = { λ m. IsMemory (record { p = m.geometry; control = m.control; engine = m.engine; nvm = m.nvm.device; cuts = m.cuts }) };
}

/// Epochs and counts are below this.
const CEILING: u64 = 1 << 62;

/// Stops the test if a page is being promoted.
fn is_whole(rt: &impl Abort, control: &Control)
    ensures { is_promoting control.now ≡ false }
{
    let promoting = control.promoting();
    assert!(rt; !promoting);
}

/// Stops the test if none is.
fn has_promotion(rt: &impl Abort, control: &Control)
    ensures { is_promoting control.now ≡ true }
{
    let promoting = control.promoting();
    assert!(rt; promoting);
}

/// An NVM that holds the header of a geometry, and else zeros.
fn with_header(rt: &impl Abort, alloc: Global, geometry: &Geometry, cuts: u64) -> MemNvm
    requires least { geometry.now.pages ≡ 8 }
    ensures sized { length result.device.image ≡ image_blocks geometry.now }
    ensures up { result.device.down ≡ false }
    ensures room { HasRoom result.device cuts }
{
    let shape = Shape {
        blocks: blocks(geometry),
        queue: 4,
        cuts,
    };
    let mut nvm = MemNvm::new(alloc);
    let start = Vec::from_slice(alloc, &[header_block(geometry)]).expect(rt, "memory");
    nvm.fit(alloc, &shape, start).expect(rt, "a device");
    nvm
}

impl Memory {
    /// Power came on over an NVM that has the header of this geometry, and no checkpoint.
    pub(crate) fn power_on(rt: &impl Abort, alloc: Global, numbers: &Parameters) -> Memory
        requires least { numbers.now.pages ≡ 8 }
    {
        let geometry = geometry_of(alloc, numbers).expect(rt, "numbers in range");
        let nvm = with_header(rt, alloc, &geometry, 0);
        let dram = Dram::new(alloc, geometry.dram_blocks(), 4).expect(rt, "memory");
        let control = Control::new(alloc, &geometry, dram).expect(rt, "memory");
        Memory::booted(rt, geometry, control, nvm, 0)
    }

    /// A boot has filled this controller: it gets an engine with no checkpoint under way.
    pub(crate) fn booted(
        rt: &impl Abort,
        geometry: Geometry,
        control: Control,
        nvm: MemNvm,
        cuts: u64,
    ) -> Memory
        requires same_p { control.p ≡ geometry }
        requires drives { Drives control nvm.device }
        requires idle { control.under_way ≡ false }
        requires room { HasRoom nvm.device cuts }
    {
        let engine = Engine::new(&geometry);
        control.recall_tables();
        is_whole(rt, &control);
        engine_and_controller_fit();
        Memory {
            geometry,
            control,
            engine,
            nvm,
            cuts,
        }
    }

    pub(crate) fn free(&self) -> u64 {
        self.control.free()
    }

    pub(crate) fn overlay(&self) -> bool {
        self.control.overlay()
    }

    pub(crate) fn promoting(&self) -> bool {
        self.control.promoting()
    }

    pub(crate) fn load(&mut self, rt: &impl Abort, b: u64) -> Block
        requires inside { b < 512 }
    {
        self.control.load(b, &mut self.nvm).expect(rt, "a load")
    }

    pub(crate) fn store(&mut self, rt: &impl Abort, b: u64, block: &Block) -> Stored
        requires inside { b < 512 }
    {
        let free = self.control.free();
        assert!(rt; free > 0);
        let promoting = self.control.promoting();
        assert!(rt; !promoting);
        let stored = self
            .control
            .store(b, block, &mut self.nvm)
            .expect(rt, "a store");
        engine_and_controller_fit();
        self.control.recall_tables();
        is_whole(rt, &self.control);
        stored
    }

    /// Seals the epoch with a processor that retired `count` instructions: its checkpoint begins.
    pub(crate) fn seal(&mut self, rt: &impl Abort, epoch: u64, count: u64) {
        let under_way = self.engine.under_way();
        assert!(rt; !under_way);
        let promoting = self.control.promoting();
        assert!(rt; !promoting);
        let overlay = self.control.overlay();
        assert!(rt; !overlay);
        self.control.seal();
        self.engine.begin(&cpu_at(count), epoch);
        engine_and_controller_fit();
        self.control.recall_tables();
    }

    pub(crate) fn merge_one(&mut self, rt: &impl Abort) {
        let under_way = self.engine.under_way();
        assert!(rt; !under_way);
        let overlay = self.control.overlay();
        assert!(rt; overlay);
        self.control.merge_one();
        engine_and_controller_fit();
        self.control.recall_tables();
        is_whole(rt, &self.control);
    }

    pub(crate) fn promote_one(&mut self, rt: &impl Abort) {
        has_promotion(rt, &self.control);
        self.control
            .promote_one(&mut self.nvm)
            .expect(rt, "a promotion");
        engine_and_controller_fit();
        self.control.recall_tables();
    }

    /// Lets the oldest write that is queued in the NVM land, if there is one.
    pub(crate) fn drain_nvm(&mut self, rt: &impl Abort) {
        if self.nvm.queued() > 0 {
            self.nvm.drain().expect(rt, "a drain");
        }
    }

    /// Lets the oldest write that is queued in the DRAM land, if there is one.
    pub(crate) fn drain_dram(&mut self) {
        if self.control.queued() > 0 {
            self.control.drain();
            self.control.recall_tables();
        }
    }

    /// Cuts the power of both devices with one pick.
    pub(crate) fn cut(self, rt: &impl Abort, pick: u64) -> Off {
        assert!(rt; self.cuts > 0);
        self.control.recall_tables();
        let mut nvm = self.nvm;
        nvm.cut(pick);
        Off {
            geometry: self.geometry,
            dram: self.control.cut(pick),
            nvm,
            cuts: self.cuts - 1,
        }
    }

    /// One action of the engine.
    pub(crate) fn step(&mut self, rt: &impl Abort) -> EngineStep {
        self.engine
            .step::<ThynvmTables, MemNvm>(&mut self.control, &mut self.nvm)
            .expect(rt, "a step")
    }
}

impl Memory {
    /// Block `b` of the checkpoint that the NVM holds, with nothing queued, and its epoch.
    pub(crate) fn decoded(&mut self, rt: &impl Abort, alloc: Global, b: u64) -> (u64, Block) {
        assert!(rt; self.nvm.queued() == 0);
        let image = self.image(rt, alloc);
        let found = check(&image, &self.geometry, CEILING);
        match found {
            Ok(Found::At(epoch)) => {
                let decoded = state(alloc, &image, &self.geometry).expect(rt, "memory");
                (epoch, block_of(rt, decoded.memory.as_slice(), b as usize))
            }
            _ => panic!(rt; "no checkpoint"),
        }
    }

    /// The bytes of the NVM.
    fn image(&mut self, rt: &impl Abort, alloc: Global) -> Vec<u8> {
        let mut image = Vec::new(alloc);
        for at in 0..blocks(&self.geometry) {
            let block = self.read(rt, at);
            image.extend_from_slice(&block.0).expect(rt, "memory");
        }
        image
    }

    /// A block of the NVM.
    fn read(&mut self, rt: &impl Abort, at: u64) -> Block {
        let blocks = blocks(&self.geometry);
        assert!(rt; at < blocks);
        self.nvm.read(at).expect(rt, "a read")
    }
}

/// Block `b` of a memory.
pub(crate) fn block_of(rt: &impl Abort, memory: &[u8], b: usize) -> Block {
    let inside = b < memory.len() / 64;
    assert!(rt; inside);
    let mut block = Block::ZERO;
    block.0.copy_from_slice(&memory[64 * b..64 * b + 64]);
    block
}
