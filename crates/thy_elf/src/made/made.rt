//! The file of a made program.
ghost use Rattle.std.specs.Prelude.{◌≡◌, length, IfOk};
ghost use Rattle.thy_block.specs.Bytes.{bytes_of};
ghost use Rattle.thy_elf.specs.MadeFile.{made_file};

use crate::made::one_segment::small_file;
use crate::made::program::words;
use std::alloc::{AllocError, Global};
use thy_block::Bytes;

/// The program file of number n. Allocates it, and its words while it is made.
pub fn file(alloc: Global, n: u64) -> Result<Bytes, AllocError>
    ensures file { IfOk result (λ file. bytes_of file ≡ made_file n) }
    ensures len { IfOk result (λ file. length (bytes_of file) ≡ 24148) }
{
    let words = words(alloc, n)?;
    small_file(alloc, words.as_slice())
}
