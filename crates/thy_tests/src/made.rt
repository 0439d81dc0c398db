//! Made programs: their words, worked out elsewhere, and how they end.
ghost use Rattle.std.specs.Prelude.{◌≡◌, ◌+◌, ◌*◌, ◌≤◌, length};
ghost use Rattle.thy_block.specs.Bytes.{bytes_of};
ghost use Rattle.thy_block.specs.Geometry.{program_size};

use crate::support::expect::{expect, expect_at};
use std::alloc::Global;
use std::process::Abort;
use thy_base::{Bytes, Geometry, Lcg, Parameters};
use thy_elf::made::file;
use thy_elf::read;
use thy_isa::{Status, word};
use thy_plain::Plain;
use thy_test_support::{SMALLEST, geometry_of};

/// The fewest pages that are enough for every made program: 192 of program memory, and one of console.
static ENOUGH: Parameters = Parameters {
    pages: 193,
    ..SMALLEST
};

fn enough(rt: &impl Abort, alloc: Global) -> Geometry
    ensures { program_size result ≡ 786432 }
{
    geometry_of(alloc, &ENOUGH).expect(rt, "numbers in range")
}

/// Word k of the program in a file, after 120 bytes of headers.
fn word_of(file: &Bytes, k: usize) -> u32
    requires { 124 + 4 * k ≤ length (bytes_of file.now) }
{
    word(file.as_slice(), 120 + 4 * k)
}

/// Compares how the program of a number ends on the plain machine.
fn ends(rt: &impl Abort, alloc: Global, n: u64) {
    let file = file(alloc, n).expect(rt, "memory");
    let image = read(alloc, file.as_slice(), 65536, 786432).expect(rt, "an image");
    let mut plain = Plain::load(alloc, &image, &enough(rt, alloc), Bytes::new(alloc)).expect(
        rt, "memory",
    );
    expect_at(rt, plain.run(100_000), 48027, n);
    expect_at(rt, plain.status(), Status::Exited(128), n);
}

#[test]
fn the_first_draw_of_zero_is_a_dense_one(rt: HostRuntime) {
    expect(&rt, Lcg::new(0).next(), 167_951_807);
}

#[test]
fn the_file_of_zero_has_its_words(rt: HostRuntime) {
    let file = file(rt.alloc(), 0).expect(&rt, "memory");
    expect(&rt, file.len(), 24148);
    expect(&rt, word_of(&file, 0), 0x00800393);
    expect(&rt, word_of(&file, 1), 0x0004F337);
    expect(&rt, word_of(&file, 2), 0x5E533423);
    expect(&rt, word_of(&file, 5998), 0x000C3337);
    expect(&rt, word_of(&file, 5999), 0x44533423);
    expect(&rt, word_of(&file, 6000), 0x00128293);
    expect(&rt, word_of(&file, 6001), 0xFFF38393);
    expect(&rt, word_of(&file, 6002), 0x00038463);
    expect(&rt, word_of(&file, 6003), 0xA38FA06F);
    expect(&rt, word_of(&file, 6006), 0x00000073);
}

#[test]
fn the_last_store_is_drawn_from_the_number(rt: HostRuntime) {
    let file = file(rt.alloc(), 4_294_967_295).expect(&rt, "memory");
    expect(&rt, word_of(&file, 5998), 0x000A6337);
    expect(&rt, word_of(&file, 5999), 0x46533023);
}

#[test]
fn made_programs_exit_with_128(rt: HostRuntime) {
    for n in [0, 1, 7, 4_294_967_295] {
        ends(&rt, rt.alloc(), n);
    }
}
