//! The tables' results, against a list of three places that was written out by hand.
ghost use Rattle.std.specs.Prelude.{◌≡◌, ◌∷◌, [], length};

use crate::support::expect::expect_at;
use std::process::Abort;
use thy_table::{Btt, BttEntry, Rule, Test, Working};

/// Clears the entry of one block, and stores each other into its buffer.
#[derive(Drop)]
struct StoreBut(u64);

impl Rule<BttEntry> for StoreBut {
    ghost use Rattle.thy_tests.specs.Entries.{stored_but, stored_but-block};

    ghost gives = { λ rule e. stored_but rule.0 e };

    fn apply(&self, entry: &BttEntry) -> Option<BttEntry> {
        if entry.block == self.0 {
            None
        } else {
            Some(BttEntry {
                work: Working::InBuffer,
                ..*entry
            })
        }
    }

    ghost keeps_key = { λ rule e f h. stored_but-block rule.0 e f h };
}

/// The program's version is in its buffer.
#[derive(Drop)]
struct Buffered;

impl Test<BttEntry> for Buffered {
    ghost use Rattle.thy_tests.specs.Entries.{is_in_buffer};

    ghost holds = { λ test e. is_in_buffer e.work };

    fn test(&self, entry: &BttEntry) -> bool {
        match entry.work {
            Working::InBuffer => true,
            Working::NoWork | Working::InNvm => false,
        }
    }
}

/// What is asked of a table of three places for eight blocks.
#[derive(Clone, Copy)]
enum Call {
    Add(u64),
    Put(usize, u64),
    Find(u64),
    Clear(usize),
    Free,
    StoreBut(u64),
    NextBuffered(usize),
}

/// What a call of the table returns.
#[derive(Clone, Copy, Debug, PartialEq)]
enum Answer {
    At(usize),
    Nowhere,
    Count(u64),
    Done,
    Refused,
}

fn at(place: Option<usize>) -> Answer {
    match place {
        Some(place) => Answer::At(place),
        None => Answer::Nowhere,
    }
}

fn add(table: &mut Btt, block: u64) -> Answer
    requires { table.old.numbers ≡ 8 }
    ensures { table.new.numbers ≡ 8 }
{
    match table.find(block) {
        None if block < 8 => at(table.add(BttEntry::new(block))),
        _ => Answer::Refused,
    }
}

fn put(table: &mut Btt, place: usize, block: u64) -> Answer
    requires { table.old.numbers ≡ 8 }
    ensures { table.new.numbers ≡ 8 }
{
    if place >= table.size() || block >= 8 {
        return Answer::Refused;
    }
    match (table.entry(place), table.find(block)) {
        (None, None) => {
            table.put(place, BttEntry::listed(block));
            Answer::Done
        }
        _ => Answer::Refused,
    }
}

fn clear(table: &mut Btt, place: usize) -> Answer
    requires { table.old.numbers ≡ 8 }
    ensures { table.new.numbers ≡ 8 }
{
    if place >= table.size() {
        return Answer::Refused;
    }
    table.clear(place);
    Answer::Done
}

fn ask(table: &mut Btt, call: Call) -> Answer
    requires { table.old.numbers ≡ 8 }
    ensures { table.new.numbers ≡ 8 }
{
    match call {
        Call::Add(block) => add(table, block),
        Call::Put(place, block) => put(table, place, block),
        Call::Find(block) => at(table.find(block)),
        Call::Clear(place) => clear(table, place),
        Call::Free => Answer::Count(table.free()),
        Call::StoreBut(block) => {
            table.map_entries(&StoreBut(block));
            Answer::Done
        }
        Call::NextBuffered(from) => at(table.next(from, &Buffered)),
    }
}

static CALLS: [(Call, Answer); 30] = [
    (Call::Free, Answer::Count(3)),
    (Call::Find(5), Answer::Nowhere),
    (Call::Add(5), Answer::At(0)),
    (Call::Add(2), Answer::At(1)),
    (Call::Add(5), Answer::Refused),
    (Call::Find(5), Answer::At(0)),
    (Call::Find(2), Answer::At(1)),
    (Call::Find(7), Answer::Nowhere),
    (Call::Find(100), Answer::Nowhere),
    (Call::Free, Answer::Count(1)),
    // The entry after the lowest live ones, then the lowest.
    (Call::Clear(0), Answer::Done),
    (Call::Put(2, 7), Answer::Done),
    (Call::Put(2, 6), Answer::Refused),
    (Call::Find(5), Answer::Nowhere),
    (Call::Add(0), Answer::At(0)),
    (Call::Free, Answer::Count(0)),
    (Call::Add(1), Answer::Nowhere),
    (Call::Find(1), Answer::Nowhere),
    (Call::NextBuffered(0), Answer::Nowhere),
    // Block 2 leaves; blocks 0 and 7 are in their buffers.
    (Call::StoreBut(2), Answer::Done),
    (Call::Free, Answer::Count(1)),
    (Call::Find(2), Answer::Nowhere),
    (Call::NextBuffered(0), Answer::At(0)),
    (Call::NextBuffered(1), Answer::At(2)),
    (Call::NextBuffered(3), Answer::Nowhere),
    (Call::Add(3), Answer::At(1)),
    (Call::NextBuffered(1), Answer::At(2)),
    (Call::Clear(2), Answer::Done),
    (Call::Clear(2), Answer::Done),
    (Call::Free, Answer::Count(1)),
];

#[test]
fn a_table_answers_each_call(rt: HostRuntime) {
    let mut table = Btt::new(rt.alloc(), 3, 8).expect(&rt, "memory");
    for (row, asked) in CALLS.iter().enumerate() {
        let (call, want) = *asked;
        expect_at(&rt, ask(&mut table, call), want, row);
    }
}
