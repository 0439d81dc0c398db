//! A shelf in memory.
ghost use Rattle.std.specs.Prelude.{◌≡◌, ◌≢◌, ◌∷◌, ◌↔◌, OnOk, OnErr, IsTrue, Some, None, Err, MatchOption, if◌then◌else◌, is_ok};
ghost use Rattle.std.specs.Bool.{OnTrue};
ghost use Rattle.thy_block.specs.Counts.{Rose};
ghost use Rattle.thy_block.specs.Outside.{Files, Fetched, FetchCounts, KeepsOthers, Holds, PutCounts};
ghost use Rattle.thy_out.specs.Counts.{is_listed};
ghost use Rattle.thy_out.specs.Rack.{stock_of, called, entries, found};

use std::alloc::{AllocError, Global};
use std::marker::Model;
use thy_block::{FetchError, PutError, Shelf};

/// Named files in memory. Contracts know the contents, but not the names under which calls failed. If files have the
/// same name, only the first is seen.
#[derive(Debug, Drop)]
pub struct MemShelf {
    files: Vec<(String, Vec<u8>)>,
    calls: u64,
    failing: Vec<u64>,
    faults: u64,
}

impl Model for MemShelf {
    ghost use Rattle.thy_out.specs.Rack.{Rack, entries};

    ghost Value = { Rack };

    ghost view = { λ s. record { files = entries s.files.items; calls = s.calls; failing = s.failing.items; faults = s.faults } };
}

impl MemShelf {
    /// A shelf with these files. The calls listed in `failing`, counted from 1 over `fetch` and
    /// `put`, change nothing and fail. The number of a call stops at `2^64 - 1`.
    pub fn new(files: Vec<(String, Vec<u8>)>, failing: Vec<u64>) -> MemShelf
        ensures { result ≡ record { files = entries files.items; calls = 0; failing = failing.items; faults = 0 } }
    {
        MemShelf {
            files,
            calls: 0,
            failing,
            faults: 0,
        }
    }
}

/// The bytes of the first file of this name.
fn find<'a>(files: &'a [(String, Vec<u8>)], name: &str) -> Option<&'a [u8]>
    ensures { MatchOption result (found (entries files.now) name.now ≡ None)
        (λ bytes. found (entries files.now) name.now ≡ Some bytes.now) }
{
    for file in files {
        if file.0.as_str() == name {
            return Some(file.1.as_slice());
        }
    }
    None
}

/// A copy of bytes that are at most `limit`.
fn copied(alloc: Global, bytes: &[u8], limit: u64) -> Result<Vec<u8>, FetchError>
    ensures answer { Fetched (Some bytes.now) limit result }
    ensures failed { result ≢ Err FetchError.Failed }
{
    if bytes.len() as u64 > limit {
        return Err(FetchError::TooLong);
    }
    match Vec::from_slice(alloc, bytes) {
        Ok(copy) => Ok(copy),
        Err(error) => Err(FetchError::Memory(error)),
    }
}

/// A copy of what the files have under this name.
fn fetched(
    files: &[(String, Vec<u8>)],
    alloc: Global,
    name: &str,
    limit: u64,
) -> Result<Vec<u8>, FetchError>
    ensures answer { Fetched (found (entries files.now) name.now) limit result }
    ensures failed { result ≢ Err FetchError.Failed }
{
    match find(files, name) {
        Some(bytes) => copied(alloc, bytes, limit),
        None => Err(FetchError::NotThere),
    }
}

/// Inserts a file before the others.
fn put_first(
    files: &mut Vec<(String, Vec<u8>)>,
    alloc: Global,
    name: &str,
    bytes: &[u8],
) -> Result<(), AllocError>
    ensures ok { OnOk result (entries files.new.items ≡ (name.now, bytes.now) ∷ entries files.old.items) }
    ensures err { OnErr result (files.new.items ≡ files.old.items) }
{
    let file = (
        String::from_str(alloc, name)?,
        Vec::from_slice(alloc, bytes)?,
    );
    files.insert(0, file)?;
    Ok(())
}

impl MemShelf {
    /// Counts a call, and returns whether it is to fail.
    fn fails(&mut self) -> bool
        ensures listed { result ≡ is_listed self.old.failing self.old.calls }
        ensures after { self.new ≡ called self.old }
        ensures rose { OnTrue result (Rose self.old.faults self.new.faults) }
    {
        self.calls = self.calls.saturating_add(1);
        let listed = self.failing.contains(&self.calls);
        if listed {
            self.faults = self.faults.saturating_add(1);
        }
        listed
    }
}

impl Shelf for MemShelf {
    ghost stock = { stock_of };

    fn fetch(&mut self, alloc: Global, name: &str, limit: u64) -> Result<Vec<u8>, FetchError>
        ensures keeps { (stock_of self.new).held ≡ (stock_of self.old).held }
        ensures answer { (files : Files) → (stock_of self.old).held ≡ Some files → Fetched (files name.now) limit result }
        ensures faults { FetchCounts name.now (stock_of self.old) (stock_of self.new) result }
        ensures failed { (result ≡ Err FetchError.Failed) ↔ IsTrue (is_listed self.old.failing self.old.calls) }
        ensures after { self.new ≡ called self.old }
    {
        if self.fails() {
            return Err(FetchError::Failed);
        }
        fetched(self.files.as_slice(), alloc, name, limit)
    }

    /// The shelf finds the new file before older ones of its name.
    fn put(&mut self, alloc: Global, name: &str, bytes: &[u8]) -> Result<(), PutError>
        ensures ok { OnOk result (Holds (stock_of self.new) name.now bytes.now) }
        ensures others { KeepsOthers (stock_of self.old) (stock_of self.new) name.now }
        ensures faults { PutCounts name.now (stock_of self.old) (stock_of self.new) result }
        ensures failed { (result ≡ Err PutError.Failed) ↔ IsTrue (is_listed self.old.failing self.old.calls) }
        ensures after { self.new ≡ record (called self.old) {
          files = if is_ok result then (name.now, bytes.now) ∷ self.old.files else self.old.files;
        } }
    {
        if self.fails() {
            return Err(PutError::Failed);
        }
        match put_first(&mut self.files, alloc, name, bytes) {
            Ok(()) => Ok(()),
            Err(error) => Err(PutError::Memory(error)),
        }
    }
}
