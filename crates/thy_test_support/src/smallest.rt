//! The numbers of the smallest machine, and images for it.
ghost use Rattle.std.specs.Prelude.{◌≡◌, IfOk, length};
ghost use Rattle.thy_block.specs.Bytes.{bytes_of};

use std::alloc::{AllocError, Global};
use thy_base::{Bytes, Parameters, SchemeName};
use thy_elf::Image;

/// The smallest machine: seven pages of program memory from 65536 on, and one of console.
pub const SMALLEST: Parameters = Parameters {
    base: 65536,
    pages: 8,
    console: 1,
    epoch: 10000,
    btt: 8,
    ptt: 8,
    sets: 16,
    ways: 4,
    nvmq: 16,
    dramq: 16,
    high: 22,
    low: 16,
    mix: 0,
    limit: 1000,
    scheme: SchemeName::Thynvm,
    harts: 1,
};

/// An image of words at the base, which is also its start.
pub fn image_of(alloc: Global, words: &[u32]) -> Result<Image, AllocError>
    ensures { IfOk result (λ image. length (bytes_of image.memory) ≡ 28672) }
{
    let mut memory = Vec::new(alloc);
    for word in words {
        memory.extend_from_slice(&word.to_le_bytes())?;
    }
    memory.resize(7 * 4096, 0)?;
    Ok(Image {
        entry: 65536,
        floor: 65552,
        memory: Bytes::from_vec(memory),
    })
}
