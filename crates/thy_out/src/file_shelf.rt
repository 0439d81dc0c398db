//! A shelf over the files of the system.
ghost use Rattle.std.specs.Prelude.{◌≡◌, ◌≢◌, ◌+◌, ◌≤◌, length, Some, Err, IfOk, IfErr, OnOk, IfSome};
ghost use Rattle.std.specs.IoError.{error_kind};
ghost use Rattle.std.specs.Io.KnownBytes.{IsAtEnd};
ghost use Rattle.thy_block.specs.Outside.{Fetched, FetchCounts, PutCounts};
ghost use Rattle.thy_out.specs.Replacing.{counted};
ghost use Rattle.thy_out.specs.Spring.{LosesAtMost, HasCause};
ghost use Rattle.thy_out.specs.Unknown.{unknown, fetch_faults, put_faults};

use crate::counted_reader::CountedReader;
use crate::disk::Disk;
use std::alloc::Global;
use std::fs::Files;
use std::io::{Error, ErrorKind, Read};
use thy_block::{FetchError, PutError, Shelf};

/// The files that the runtime reaches; a name is a path. Its contents are unknown to contracts, since others change
/// them too, so it counts a fault with every answer but bytes and out of memory. The names under which calls failed
/// are unknown too.
#[derive(Drop)]
pub struct FileShelf<R> {
    disk: Disk<R>,
    faults: u64,
}

impl<R: Files> FileShelf<R> {
    /// A shelf of the files that a runtime reaches, of which no call has failed.
    pub fn new(rt: R) -> FileShelf<R>
        ensures { ⟦<FileShelf<R> as Shelf>⟧.stock result ≡ unknown 0 }
    {
        FileShelf {
            disk: Disk::over(rt),
            faults: 0,
        }
    }
}

/// How many bytes one read asks for at most.
const PIECE: u64 = 4096;

/// The bytes that a reader has left, if they are at most `limit`, or `TooLong`. It reads to their end,
/// but no more than one byte past `limit`. It returns `Failed` exactly if a read failed. If it returns no bytes, some
/// may have been read.
pub fn read_within<F: Read>(
    file: &mut CountedReader<F>,
    alloc: Global,
    limit: u64,
) -> Result<Vec<u8>, FetchError>
    ensures within { IfOk result (λ bytes. length bytes.items ≤ limit) }
    ensures answer { IfSome file.old.left (λ there. Fetched (Some there) limit result) }
    ensures there { result ≢ Err FetchError.NotThere }
    ensures end { OnOk result (IsAtEnd file.new.left) }
    ensures most { LosesAtMost (limit + 1) file.old.left file.new.left }
    ensures cause { HasCause result file.old.failures file.new.failures }
{
    let mut bytes = Vec::new(alloc);
    let mut piece = [0; PIECE as usize];
    loop {
        let most = (limit - bytes.len() as u64).min(PIECE - 1) + 1;
        match file.read(&mut piece[..most as usize]) {
            Ok(0) => return Ok(bytes),
            Ok(count) => {
                bytes
                    .extend_from_slice(&piece[..count])
                    .map_err(FetchError::Memory)?;
                if bytes.len() as u64 > limit {
                    return Err(FetchError::TooLong);
                }
            }
            Err(_) => return Err(FetchError::Failed),
        }
    }
}

/// What an error of an open makes of a fetch.
fn not_opened(error: &Error) -> FetchError
    ensures missing { error_kind error.now ≡ ErrorKind.NotFound → result ≡ FetchError.NotThere }
    ensures other { error_kind error.now ≢ ErrorKind.NotFound → result ≡ FetchError.Failed }
{
    if error.kind() == ErrorKind::NotFound {
        FetchError::NotThere
    } else {
        FetchError::Failed
    }
}

/// The bytes of the file at a path, if they are at most `limit`.
fn read_file<R: Files>(
    disk: &Disk<R>,
    alloc: Global,
    path: &str,
    limit: u64,
) -> Result<Vec<u8>, FetchError>
    ensures { IfOk result (λ bytes. length bytes.items ≤ limit) }
{
    match disk.open(path) {
        Ok(file) => read_within(&mut CountedReader::over(file), alloc, limit),
        Err(error) => Err(not_opened(&error)),
    }
}

impl<R: Files> Shelf for FileShelf<R> {
    ghost stock = { λ s. unknown s.faults };

    fn fetch(&mut self, alloc: Global, name: &str, limit: u64) -> Result<Vec<u8>, FetchError>
        ensures within { IfOk result (λ bytes. length bytes.items ≤ limit) }
        ensures faults { FetchCounts name.now (unknown self.old.faults) (unknown self.new.faults) result }
        ensures after { self.new.faults ≡ fetch_faults self.old.faults result }
    {
        match read_file(&self.disk, alloc, name, limit) {
            Ok(bytes) => Ok(bytes),
            Err(FetchError::Memory(error)) => Err(FetchError::Memory(error)),
            Err(error) => {
                self.faults = self.faults.saturating_add(1);
                Err(error)
            }
        }
    }

    /// Replaces the file by a new one beside the name, which is synced and renamed over it, or writes over what is
    /// there. It makes a new file if the name refers to nothing or to a file with no other name, and the system lets a
    /// file be made there.
    fn put(&mut self, _alloc: Global, name: &str, bytes: &[u8]) -> Result<(), PutError>
        ensures faults { PutCounts name.now (unknown self.old.faults) (unknown self.new.faults) result }
        ensures failed { IfErr result (λ e. e ≡ PutError.Failed) }
        ensures after { self.new.faults ≡ put_faults self.old.faults result }
        ensures done { self.new.disk ≡ counted self.old.disk result }
    {
        match self.disk.put(name, bytes) {
            Ok(()) => Ok(()),
            Err(_) => {
                self.faults = self.faults.saturating_add(1);
                Err(PutError::Failed)
            }
        }
    }
}
