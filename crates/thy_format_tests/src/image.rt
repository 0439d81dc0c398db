//! Images in files, made by hand: what a check and the state of each are.
ghost use Rattle.std.specs.Prelude.{◌≡◌};

use crate::support::expect::{expect, expect_at};
use std::alloc::{AllocError, Global};
use std::process::Abort;
use std::test::Fail;
use thy_base::{BLOCK_SIZE, Geometry, Parameters, SchemeName};
use thy_isa::{MachState, OtherHart, Reg, Regs, Reservation, Status};
use thy_layout::{BadImage, Found, table_block};
use thy_record::{check, header_block, state};
use thy_table::blocks;
use thy_test_support::geometry_of;

/// The smallest machine: 8 pages, one of them the console's, and 8 entries in each table. Its image has 1064 blocks:
/// the header, the commit block, 512 homes from block 16 on, and 8 alternate blocks from block 528 on. The others are 8
/// alternate pages of 64 blocks, from block 536 on, and slots of 8 blocks, from block 1048 and block 1056 on.
const NUMBERS: Parameters = Parameters {
    base: 65536,
    pages: 8,
    console: 1,
    epoch: 1000,
    btt: 8,
    ptt: 8,
    sets: 1,
    ways: 1,
    nvmq: 1,
    dramq: 1,
    high: 8,
    low: 2,
    mix: 0,
    limit: 1000,
    scheme: SchemeName::Thynvm,
    harts: 1,
};

const BLOCKS: usize = 1064;

const CEILING: u64 = 1 << 62;

/// The bytes `THYNCMT1`, with which a commit block of version 1 begins.
const ONE: u64 = 0x3154_4d43_4e59_4854;

/// The bytes `THYNCMT2`, with which one of version 2 does.
const TWO: u64 = 0x3254_4d43_4e59_4854;

/// The first word of slot 1, block 1056.
const SLOT: usize = 8448;

/// The first word of its counts, of which each is a byte.
const COUNTS: usize = SLOT + 56;

fn geometry(rt: &impl Abort, alloc: Global) -> Geometry {
    geometry_of(alloc, &NUMBERS).expect(rt, "numbers in range")
}

/// Writes a word over an image.
fn put(image: &mut [u8], word: usize, value: u64) {
    if word < image.len() / 8 {
        image[8 * word..8 * word + 8].copy_from_slice(&value.to_le_bytes());
    }
}

/// Writes bytes over the start of a block of an image.
fn put_bytes(image: &mut [u8], block: usize, bytes: &[u8]) {
    if block < image.len() / BLOCK_SIZE && bytes.len() <= BLOCK_SIZE {
        image[BLOCK_SIZE * block..BLOCK_SIZE * block + bytes.len()].copy_from_slice(bytes);
    }
}

/// The words that are not zero, except the two names. The header has some, and the commit block its epoch, 3. Slot 1
/// has pc, x1, count, cursor, length of the console, break, epoch and floor. Then come the entries (entry 0 of the
/// block table lists block 5, entry 1 of the page table page 2), and the counts: page 0 has 63, page 7 has 1.
static WORDS: [(usize, u64); 18] = [
    (1, 2),
    (2, 65536),
    (3, 8),
    (4, 1),
    (5, 8),
    (6, 8),
    (9, 3),
    (SLOT, 0x10008),
    (SLOT + 1, 0x101),
    (SLOT + 32, 11),
    (SLOT + 33, 12),
    (SLOT + 34, 2),
    (SLOT + 35, 14),
    (SLOT + 38, 3),
    (SLOT + 39, 15),
    (SLOT + 40, 6),
    (SLOT + 49, 3),
    (COUNTS, 0x0100_0000_0000_003f),
];

/// Writes a checkpoint over zeros: the two names, words, and memory's blocks. Block 0 is at its home, block 5 in
/// alternate block 0 and block 131 in alternate page 1, with something else at the homes of these two. The console's
/// first block, 448, is at its home.
fn fill(bytes: &mut [u8], words: &[(usize, u64)]) {
    put_bytes(bytes, 0, b"THYNHDR1");
    put_bytes(bytes, 1, b"THYNCMT2");
    for (word, value) in words {
        put(bytes, *word, *value);
    }
    put_bytes(bytes, 16, b"first");
    put_bytes(bytes, 16 + 5, b"stale");
    put_bytes(bytes, 528, b"fifth");
    put_bytes(bytes, 16 + 131, b"stale too");
    put_bytes(bytes, 536 + 64 + 3, b"of page two");
    put_bytes(bytes, 16 + 448, b"Hi, stale");
}

/// An image with a checkpoint.
fn image(alloc: Global) -> Result<Vec<u8>, AllocError> {
    let mut image = vec![in alloc; 0u8; BLOCK_SIZE * BLOCKS]?;
    fill(image.as_mut_slice(), &WORDS);
    Ok(image)
}

/// The state of an image in which a checkpoint is found.
fn restored(
    alloc: Global,
    image: &[u8],
    geometry: &Geometry,
) -> Result<Option<MachState>, AllocError> {
    match check(image, geometry, CEILING) {
        Ok(Found::At(_)) => Ok(Some(state(alloc, image, geometry)?)),
        _ => Ok(None),
    }
}

/// Whether bytes begin with others.
fn starts(bytes: &[u8], first: &[u8]) -> bool {
    first.len() <= bytes.len() && &bytes[..first.len()] == first
}

/// Whether a memory has these bytes from block `b` on.
fn has(memory: &[u8], b: usize, bytes: &[u8]) -> bool {
    b < memory.len() / BLOCK_SIZE && starts(&memory[BLOCK_SIZE * b..], bytes)
}

#[test]
fn a_checkpoint_is_read_from_where_its_tables_have_it(rt: HostRuntime) -> Result<(), Fail> {
    let geometry = geometry(&rt, rt.alloc());
    let image = image(rt.alloc())?;
    expect(&rt, check(&image, &geometry, CEILING), Ok(Found::At(3)));
    let state = restored(rt.alloc(), &image, &geometry)?.expect(&rt, "a checkpoint");
    expect(&rt, state.pc, 0x10008);
    expect(&rt, (state.count, state.cursor), (11, 12));
    expect(&rt, (state.brk, state.floor), (14, 15));
    expect(&rt, state.status, Status::Running);
    let memory = state.memory.as_slice();
    expect(&rt, memory.len(), 7 * 4096);
    expect(&rt, has(memory, 0, b"first"), true);
    expect(&rt, has(memory, 5, b"fifth"), true);
    expect(&rt, has(memory, 131, b"of page two"), true);
    expect(&rt, state.console.as_slice() == b"Hi".as_slice(), true);
    Ok(())
}

#[test]
fn a_header_and_a_table_are_their_bytes(rt: HostRuntime) -> Result<(), Fail> {
    let geometry = geometry(&rt, rt.alloc());
    let image = image(rt.alloc())?;
    expect(&rt, starts(&image, &header_block(&geometry).0), true);
    let entries = [Some(5), None, None, None, None, None, None, Some(0)];
    let block = table_block(&entries);
    expect(&rt, starts(&block.0, &[6, 0, 0, 0, 0, 0, 0, 0]), true);
    expect(&rt, starts(&block.0[56..], &[1, 0, 0, 0, 0, 0, 0, 0]), true);
    Ok(())
}

/// The first word of slot 1 of version 1, block 9.
const SLOT_ONE: usize = 72;

/// The image as one of version 1: header, commit block and slot 1 are of that. Slot 1 of version 2 has another epoch.
fn image_one(alloc: Global) -> Result<Vec<u8>, AllocError> {
    let mut image = image(alloc)?;
    let bytes = image.as_mut_slice();
    put(bytes, 1, 1);
    put(bytes, 8, ONE);
    for (word, value) in &WORDS {
        if *word >= SLOT && *word < COUNTS {
            put(bytes, SLOT_ONE + (*word - SLOT), *value);
        }
    }
    put(bytes, SLOT + 38, 7);
    put(bytes, COUNTS, 64);
    Ok(image)
}

/// An image of version 1 has 1048 blocks, or the number of version 2, and nothing between. After a header of version 2
/// it is refused.
#[test]
fn an_image_of_version_1_is_read_from_its_own_slot(rt: HostRuntime) -> Result<(), Fail> {
    let geometry = geometry(&rt, rt.alloc());
    let mut image = image_one(rt.alloc())?;
    for blocks in [1048, BLOCKS] {
        let found = check(front(&image, BLOCK_SIZE * blocks), &geometry, CEILING);
        expect_at(&rt, found, Ok(Found::At(3)), blocks);
    }
    for blocks in [1047, 1049, 1063] {
        let found = check(front(&image, BLOCK_SIZE * blocks), &geometry, CEILING);
        expect_at(&rt, found, Err(BadImage::Geometry), blocks);
    }
    let state = restored(rt.alloc(), &image, &geometry)?.expect(&rt, "a checkpoint");
    expect(&rt, state.pc, 0x10008);
    expect(&rt, (state.count, state.cursor), (11, 12));
    let memory = state.memory.as_slice();
    expect(&rt, has(memory, 5, b"fifth"), true);
    expect(&rt, has(memory, 131, b"of page two"), true);
    put(image.as_mut_slice(), SLOT_ONE + 38, 2);
    let found = check(&image, &geometry, CEILING);
    expect(&rt, found, Err(BadImage::Commit));
    put(image.as_mut_slice(), SLOT_ONE + 38, 3);
    put(image.as_mut_slice(), 1, 2);
    let found = check(&image, &geometry, CEILING);
    expect(&rt, found, Err(BadImage::Commit));
    Ok(())
}

/// The smallest machine with two harts. Header, commit block, homes, alternate blocks and alternate pages stand where
/// they do with one hart, and the slots have 13 blocks, of which two records are ten, from block 1048 and block 1061
/// on: 1074 blocks.
static NUMBERS_OF_TWO: Parameters = Parameters {
    harts: 2,
    ..NUMBERS
};

const BLOCKS_OF_TWO: usize = 1074;

/// The first word of its slot 1, block 1061.
const SLOT_OF_TWO: usize = 8488;

/// The words of an image of two harts: the words of an image of one, except the header's last. After the words of the
/// first hart come the second's: its pc, x1 and x31, width and address of the first hart's reservation, and of its own.
/// Both tables and the counts come after these forty words.
static WORDS_OF_TWO: [(usize, u64); 26] = [
    (1, 2),
    (2, 65536),
    (3, 8),
    (4, 1),
    (5, 8),
    (6, 8),
    (7, 256),
    (9, 3),
    (SLOT_OF_TWO, 0x10008),
    (SLOT_OF_TWO + 1, 0x101),
    (SLOT_OF_TWO + 32, 11),
    (SLOT_OF_TWO + 33, 12),
    (SLOT_OF_TWO + 34, 2),
    (SLOT_OF_TWO + 35, 14),
    (SLOT_OF_TWO + 38, 3),
    (SLOT_OF_TWO + 39, 15),
    (SLOT_OF_TWO + 40, 0x10010),
    (SLOT_OF_TWO + 41, 0x201),
    (SLOT_OF_TWO + 71, 0x21f),
    (SLOT_OF_TWO + 72, 4),
    (SLOT_OF_TWO + 73, 0x11000),
    (SLOT_OF_TWO + 74, 8),
    (SLOT_OF_TWO + 75, 0x11008),
    (SLOT_OF_TWO + 80, 6),
    (SLOT_OF_TWO + 89, 3),
    (SLOT_OF_TWO + 96, 0x0100_0000_0000_003f),
];

fn image_of_two(alloc: Global) -> Result<Vec<u8>, AllocError> {
    let mut image = vec![in alloc; 0u8; BLOCK_SIZE * BLOCKS_OF_TWO]?;
    fill(image.as_mut_slice(), &WORDS_OF_TWO);
    Ok(image)
}

#[test]
fn an_image_of_two_harts_has_both_records(rt: HostRuntime) -> Result<(), Fail> {
    let geometry = geometry_of(rt.alloc(), &NUMBERS_OF_TWO).expect(&rt, "numbers in range");
    expect(&rt, blocks(&geometry), 1074);
    let image = image_of_two(rt.alloc())?;
    expect(&rt, image.len(), 68_736);
    expect(&rt, starts(&image, &header_block(&geometry).0), true);
    expect(&rt, check(&image, &geometry, CEILING), Ok(Found::At(3)));
    let state = restored(rt.alloc(), &image, &geometry)?.expect(&rt, "a checkpoint");
    expect(&rt, (state.pc, state.count), (0x10008, 11));
    let mut regs = Regs::new();
    regs.set(Reg::new(1), 0x201);
    regs.set(Reg::new(31), 0x21f);
    let other = OtherHart {
        pc: 0x10010,
        regs,
        front: Reservation::Word(0x11000),
        back: Reservation::Double(0x11008),
    };
    expect(&rt, state.other, Some(other));
    let memory = state.memory.as_slice();
    expect(&rt, has(memory, 0, b"first"), true);
    expect(&rt, has(memory, 5, b"fifth"), true);
    expect(&rt, has(memory, 131, b"of page two"), true);
    Ok(())
}

/// With two harts there is no image of version 1. The version in its header, the name in its commit block, how many
/// bytes it has, and what it is refused for. Images of the length of version 1 have 1048 blocks.
static NOT_OF_TWO: [(u64, u64, usize, BadImage); 5] = [
    (1, TWO, 68_736, BadImage::Version),
    (1, ONE, 67_072, BadImage::Version),
    (2, ONE, 67_072, BadImage::Geometry),
    (2, TWO, 67_072, BadImage::Geometry),
    (2, ONE, 68_736, BadImage::Commit),
];

#[test]
fn no_image_of_two_harts_is_of_version_1(rt: HostRuntime) -> Result<(), Fail> {
    let geometry = geometry_of(rt.alloc(), &NUMBERS_OF_TWO).expect(&rt, "numbers in range");
    for (row, (version, name, bytes, bad)) in NOT_OF_TWO.iter().enumerate() {
        let mut image = image_of_two(rt.alloc())?;
        put(image.as_mut_slice(), 1, *version);
        put(image.as_mut_slice(), 8, *name);
        let found = check(front(&image, *bytes), &geometry, CEILING);
        expect_at(&rt, found, Err(*bad), row);
    }
    Ok(())
}

/// Two words of the image with other values, and what it is refused for then; the second may be the first.
static REFUSALS: [(usize, u64, usize, u64, BadImage); 41] = [
    (0, 0, 0, 0, BadImage::Header),
    (1, 0, 1, 0, BadImage::Version),
    (1, 1, 2, 0, BadImage::Geometry),
    (1, 3, 2, 0, BadImage::Version),
    (2, 0, 2, 0, BadImage::Geometry),
    (3, 9, 3, 9, BadImage::Geometry),
    (4, 2, 4, 2, BadImage::Geometry),
    (5, 16, 5, 16, BadImage::Geometry),
    (6, 16, 6, 16, BadImage::Geometry),
    (7, 1, 8, 1, BadImage::Geometry),
    (8, 1, 8, 1, BadImage::Commit),
    (8, ONE, 8, ONE, BadImage::Commit),
    (9, CEILING, 9, CEILING, BadImage::Commit),
    (9, 5, 9, 5, BadImage::Commit),
    (10, 1, 10, 1, BadImage::Commit),
    (15, 1, SLOT + 40, 999, BadImage::Commit),
    (SLOT + 38, 2, SLOT + 40, 999, BadImage::Commit),
    (SLOT + 38, 2, SLOT + 32, CEILING, BadImage::Commit),
    (SLOT + 41, 513, SLOT + 43, 6, BadImage::TableIndex(1)),
    (SLOT + 50, 9, SLOT + 43, 6, BadImage::TableIndex(10)),
    (SLOT + 50, 9, SLOT + 41, 513, BadImage::TableIndex(1)),
    (SLOT + 43, 6, SLOT + 44, 6, BadImage::TableTwice(0, 3)),
    (SLOT + 53, 3, SLOT + 53, 3, BadImage::TableTwice(9, 13)),
    (SLOT + 53, 3, SLOT + 43, 6, BadImage::TableTwice(0, 3)),
    (SLOT + 53, 3, SLOT + 41, 132, BadImage::TableTwice(9, 13)),
    (
        SLOT + 44,
        132,
        SLOT + 46,
        129,
        BadImage::BlockUnderPage(4, 1),
    ),
    (SLOT + 48, 1, SLOT + 36, 3, BadImage::BlockUnderPage(0, 0)),
    (SLOT + 36, 3, SLOT + 36, 3, BadImage::Status),
    (SLOT + 37, 1, SLOT + 37, 1, BadImage::Status),
    (SLOT + 36, 1, SLOT + 37, 256, BadImage::Status),
    (SLOT + 36, 2, SLOT + 37, 8, BadImage::Status),
    (SLOT + 32, CEILING, SLOT + 34, 4097, BadImage::Status),
    (SLOT + 34, 4097, SLOT + 34, 4097, BadImage::ConsoleLength),
    (SLOT + 34, u64::MAX, SLOT + 33, 0, BadImage::ConsoleLength),
    (0, 0, SLOT + 34, 4097, BadImage::Header),
    (COUNTS, 64, COUNTS, 64, BadImage::Count(0)),
    (COUNTS, 0x4000, COUNTS, 0x4000, BadImage::Count(1)),
    (COUNTS + 1, 1, COUNTS + 1, 1, BadImage::Count(8)),
    (
        COUNTS + 7,
        1 << 56,
        COUNTS + 7,
        1 << 56,
        BadImage::Count(63),
    ),
    (COUNTS + 1, 1, COUNTS, 1 << 62, BadImage::Count(7)),
    (COUNTS, 64, SLOT + 34, 4097, BadImage::ConsoleLength),
];

#[test]
fn an_image_is_refused_for_its_first_fault(rt: HostRuntime) -> Result<(), Fail> {
    let geometry = geometry(&rt, rt.alloc());
    for (row, (i, value, j, other, bad)) in REFUSALS.iter().enumerate() {
        let mut image = image(rt.alloc())?;
        put(image.as_mut_slice(), *i, *value);
        put(image.as_mut_slice(), *j, *other);
        expect_at(&rt, check(&image, &geometry, CEILING), Err(*bad), row);
    }
    Ok(())
}

/// Two words of the image with other values, with which it is accepted: statuses, also of traps that no step
/// takes, and a record at their bounds.
static BOUNDS: [(usize, u64, usize, u64); 5] = [
    (SLOT + 36, 1, SLOT + 37, 255),
    (SLOT + 36, 2, SLOT + 37, 4),
    (SLOT + 36, 2, SLOT + 37, 6),
    (SLOT + 36, 2, SLOT + 37, 7),
    (SLOT + 32, CEILING - 1, SLOT + 34, 4096),
];

#[test]
fn a_record_at_its_bounds_is_accepted(rt: HostRuntime) -> Result<(), Fail> {
    let geometry = geometry(&rt, rt.alloc());
    for (row, (i, value, j, other)) in BOUNDS.iter().enumerate() {
        let mut image = image(rt.alloc())?;
        put(image.as_mut_slice(), *i, *value);
        put(image.as_mut_slice(), *j, *other);
        let found = check(&image, &geometry, CEILING);
        expect_at(&rt, found, Ok(Found::At(3)), row);
    }
    Ok(())
}

/// The first bytes of others, or all if there are no more.
fn front(bytes: &[u8], len: usize) -> &[u8] {
    if len < bytes.len() {
        &bytes[..len]
    } else {
        bytes
    }
}

/// The first bytes of the image, this many, and what they are refused for.
static LENGTHS: [(usize, BadImage); 4] = [
    (0, BadImage::Empty),
    (127, BadImage::Empty),
    (128, BadImage::Geometry),
    (BLOCK_SIZE * BLOCKS - 1, BadImage::Geometry),
];

#[test]
fn an_image_of_another_length_or_of_nothing_has_no_checkpoint(rt: HostRuntime) -> Result<(), Fail> {
    let geometry = geometry(&rt, rt.alloc());
    let mut image = image(rt.alloc())?;
    for (len, bad) in &LENGTHS {
        expect_at(
            &rt,
            check(front(&image, *len), &geometry, CEILING),
            Err(*bad),
            *len,
        );
    }
    image.push(0)?;
    expect(
        &rt,
        check(&image, &geometry, CEILING),
        Err(BadImage::Geometry),
    );
    put(image.as_mut_slice(), 8, 0);
    put(image.as_mut_slice(), 9, 0);
    expect(&rt, check(&image, &geometry, CEILING), Ok(Found::Nothing));
    Ok(())
}
