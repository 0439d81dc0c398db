//! The smallest machine, and the plain machine at the start of a program.
ghost use Rattle.std.specs.Prelude.{◌≡◌};
ghost use Rattle.thy_block.specs.Geometry.{program_size};

use std::alloc::Global;
use std::process::Abort;
use thy_base::{Bytes, Geometry};
use thy_plain::Plain;
use thy_test_support::{SMALLEST, geometry_of, image_of};

fn smallest(rt: &impl Abort, alloc: Global) -> Geometry
    ensures { program_size result ≡ 28672 }
{
    geometry_of(alloc, &SMALLEST).expect(rt, "numbers in range")
}

/// The plain machine at the start of a program of these words, with this input.
pub(crate) fn start_with(rt: &impl Abort, alloc: Global, words: &[u32], input: &[u8]) -> Plain
    ensures { result.state.count ≡ 0 }
{
    let image = image_of(alloc, words).expect(rt, "memory");
    let input = Bytes::from_vec(Vec::from_slice(alloc, input).expect(rt, "memory"));
    Plain::load(alloc, &image, &smallest(rt, alloc), input).expect(rt, "memory")
}
