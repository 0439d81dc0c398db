//! Puts of the shelf over files: what a name holds before, and which call of the system fails.
use crate::support::expect::{expect, expect_at};
use std::alloc::{Allocator, Global};
use std::fs::{Files, Metadata, OpenFile, OpenOptions, Permissions};
use std::io::{Error, ErrorKind, Read, Seek, SeekFrom, Write};
use std::os::unix::fs::{MetadataExt, PermissionsExt, symlink};
use std::process::Abort;
use std::{fs, io};
use thy_base::{PutError, Shelf};
use thy_out::FileShelf;

/// The bytes that the file of a name has.
fn has(rt: &(impl Abort + Files + Alloc<A = Global>), name: &str, bytes: &[u8]) {
    let there = fs::read(rt, name).expect(rt, "the file");
    expect_at(rt, there.as_slice(), bytes, name);
}

/// Whether a name holds nothing.
fn is_free(rt: &impl Files, name: &str) -> bool {
    fs::symlink_metadata(rt, name).is_err()
}

#[test]
fn a_file_is_replaced_and_keeps_its_mode(rt: HostRuntime) {
    fs::write(&rt, "replaced", b"old bytes").expect(&rt, "the file");
    fs::write(&rt, "replaced.thynvm-new", b"of a put that was killed").expect(&rt, "the file");
    fs::set_permissions(&rt, "replaced", Permissions::from_mode(0o640)).expect(&rt, "the mode");
    let before = fs::metadata(&rt, "replaced").expect(&rt, "the file");
    let mut shelf = FileShelf::new(&rt);
    expect(&rt, shelf.put(rt.alloc(), "replaced", b"new"), Ok(()));
    has(&rt, "replaced", b"new");
    let after = fs::metadata(&rt, "replaced").expect(&rt, "the file");
    expect(&rt, after.mode(), before.mode());
    expect(&rt, after.ino() == before.ino(), false);
    expect(&rt, is_free(&rt, "replaced.thynvm-new"), true);
    fs::remove_file(&rt, "replaced").expect(&rt, "the file");
}

#[test]
fn links_are_written_through(rt: HostRuntime) {
    fs::write(&rt, "linked", b"old bytes").expect(&rt, "the file");
    fs::hard_link(&rt, "linked", "linked too").expect(&rt, "the link");
    symlink(&rt, "linked", "link").expect(&rt, "the link");
    let mut shelf = FileShelf::new(&rt);
    expect(&rt, shelf.put(rt.alloc(), "linked", b"new"), Ok(()));
    has(&rt, "linked too", b"new");
    fs::remove_file(&rt, "linked too").expect(&rt, "the link");
    expect(&rt, shelf.put(rt.alloc(), "link", b"newer"), Ok(()));
    has(&rt, "linked", b"newer");
    let link = fs::symlink_metadata(&rt, "link").expect(&rt, "the link");
    expect(&rt, link.is_symlink(), true);
    expect(&rt, is_free(&rt, "link.thynvm-new"), true);
    fs::remove_file(&rt, "link").expect(&rt, "the link");
    fs::remove_file(&rt, "linked").expect(&rt, "the file");
}

#[test]
fn a_name_beside_which_no_file_can_be_made_is_written_over(rt: HostRuntime) {
    fs::write(&rt, "crowded", b"old bytes").expect(&rt, "the file");
    fs::create_dir(&rt, "crowded.thynvm-new").expect(&rt, "the folder");
    let mut shelf = FileShelf::new(&rt);
    expect(&rt, shelf.put(rt.alloc(), "crowded", b"new"), Ok(()));
    has(&rt, "crowded", b"new");
    fs::remove_dir(&rt, "crowded.thynvm-new").expect(&rt, "the folder");
    fs::remove_file(&rt, "crowded").expect(&rt, "the file");
    let mut long = String::new(rt.alloc());
    for _ in 0..250 {
        long.push('n').expect(&rt, "memory");
    }
    expect(&rt, shelf.put(rt.alloc(), long.as_str(), b"new"), Ok(()));
    has(&rt, long.as_str(), b"new");
    fs::remove_file(&rt, long.as_str()).expect(&rt, "the file");
}

/// A path of this many bytes, an even number, to the file `long`.
fn long_path(rt: &(impl Abort + Alloc<A = Global>), bytes: u64) -> String {
    let mut path = String::new(rt.alloc());
    for _ in 2..bytes / 2 {
        path.push_str("./").expect(rt, "memory");
    }
    path.push_str("long").expect(rt, "memory");
    path
}

#[test]
fn a_file_with_a_long_name_is_replaced_too(rt: HostRuntime) {
    for bytes in [54, 64, 1024, 4084] {
        fs::write(&rt, "long", b"old bytes").expect(&rt, "the file");
        let before = fs::metadata(&rt, "long").expect(&rt, "the file");
        let name = long_path(&rt, bytes);
        let mut shelf = FileShelf::new(&rt);
        expect(&rt, shelf.put(rt.alloc(), name.as_str(), b"new"), Ok(()));
        has(&rt, "long", b"new");
        let after = fs::metadata(&rt, "long").expect(&rt, "the file");
        expect(&rt, after.ino() == before.ino(), false);
        expect(&rt, is_free(&rt, "long.thynvm-new"), true);
    }
    fs::remove_file(&rt, "long").expect(&rt, "the file");
}

/// A call that a put makes on a new file.
#[derive(Clone, Copy, PartialEq, Eq)]
enum Call {
    Make,
    Alike,
    Write,
    Sync,
    Rename,
}

/// What this call returns, if it is the one that fails.
fn answer(call: Call, fails: (Call, ErrorKind)) -> io::Result<()> {
    if call == fails.0 {
        Err(Error::from(fails.1))
    } else {
        Ok(())
    }
}

/// The files of the system, of which one call fails if it is made on a new file.
#[derive(Drop)]
struct Failing<'a, R> {
    rt: &'a R,
    fails: (Call, ErrorKind),
}

/// A file of these; the system's own if none of its calls fail.
#[derive(Drop)]
struct FailingFile<F> {
    file: F,
    fails: Option<(Call, ErrorKind)>,
}

impl<F> FailingFile<F> {
    fn answer(&self, call: Call) -> io::Result<()> {
        match self.fails {
            Some(fails) => answer(call, fails),
            None => Ok(()),
        }
    }
}

impl<'a, R: Files> Files for Failing<'a, R> {
    type File = FailingFile<R::File>;

    type Dir = R::Dir;

    fn open_file(&self, how: &OpenOptions, path: &str) -> io::Result<FailingFile<R::File>> {
        let fails = if how.asks_create_new() {
            answer(Call::Make, self.fails)?;
            Some(self.fails)
        } else {
            None
        };
        let file = self.rt.open_file(how, path)?;
        Ok(FailingFile { file, fails })
    }

    fn open_dir(&self, path: &str) -> io::Result<R::Dir> {
        self.rt.open_dir(path)
    }

    fn metadata(&self, path: &str) -> io::Result<Metadata> {
        self.rt.metadata(path)
    }

    fn symlink_metadata(&self, path: &str) -> io::Result<Metadata> {
        self.rt.symlink_metadata(path)
    }

    fn copy(&self, from: &str, to: &str) -> io::Result<u64> {
        self.rt.copy(from, to)
    }

    fn rename(&self, from: &str, to: &str) -> io::Result<()> {
        answer(Call::Rename, self.fails)?;
        self.rt.rename(from, to)
    }

    fn remove_file(&self, path: &str) -> io::Result<()> {
        self.rt.remove_file(path)
    }

    fn create_dir(&self, path: &str) -> io::Result<()> {
        self.rt.create_dir(path)
    }

    fn remove_dir(&self, path: &str) -> io::Result<()> {
        self.rt.remove_dir(path)
    }

    fn remove_dir_all<B: Allocator>(&self, alloc: B, path: &str) -> io::Result<()> {
        self.rt.remove_dir_all(alloc, path)
    }
}

impl<F: Read> Read for FailingFile<F> {
    fn read(&mut self, buf: &mut [u8]) -> io::Result<usize> {
        self.file.read(buf)
    }
}

impl<F: Write> Write for FailingFile<F> {
    /// Two bytes a call; one that is to fail does so at the last bytes.
    fn write(&mut self, bytes: &[u8]) -> io::Result<usize> {
        if bytes.len() <= 2 {
            self.answer(Call::Write)?;
        }
        let count = bytes.len().min(2);
        self.file.write(&bytes[..count])
    }

    fn flush(&mut self) -> io::Result<()> {
        self.file.flush()
    }
}

impl<F: Seek> Seek for FailingFile<F> {
    fn seek(&mut self, to: SeekFrom) -> io::Result<u64> {
        self.file.seek(to)
    }
}

impl<F: OpenFile> OpenFile for FailingFile<F> {
    fn metadata(&self) -> io::Result<Metadata> {
        self.file.metadata()
    }

    fn set_len(&self, size: u64) -> io::Result<()> {
        self.file.set_len(size)
    }

    fn sync_all(&self) -> io::Result<()> {
        self.answer(Call::Sync)?;
        self.file.sync_all()
    }

    fn sync_data(&self) -> io::Result<()> {
        self.file.sync_data()
    }

    fn set_permissions(&self, perm: Permissions) -> io::Result<()> {
        self.answer(Call::Alike)?;
        self.file.set_permissions(perm)
    }
}

/// The call that fails, how, and whether the name then has the new bytes: if the system does not let a file
/// be made or renamed there, the old one is written over.
static FAILING: [(Call, ErrorKind, bool); 11] = [
    (Call::Make, ErrorKind::StorageFull, false),
    (Call::Make, ErrorKind::QuotaExceeded, false),
    (Call::Make, ErrorKind::PermissionDenied, true),
    (Call::Make, ErrorKind::ReadOnlyFilesystem, true),
    (Call::Alike, ErrorKind::PermissionDenied, true),
    (Call::Write, ErrorKind::StorageFull, false),
    (Call::Sync, ErrorKind::QuotaExceeded, false),
    (Call::Sync, ErrorKind::PermissionDenied, false),
    (Call::Rename, ErrorKind::StorageFull, false),
    (Call::Rename, ErrorKind::QuotaExceeded, false),
    (Call::Rename, ErrorKind::ResourceBusy, true),
];

#[test]
fn a_put_that_fails_leaves_the_file(rt: HostRuntime) {
    for (call, kind, done) in &FAILING {
        fs::write(&rt, "failing", b"old bytes").expect(&rt, "the file");
        let fails = (*call, *kind);
        let mut shelf = FileShelf::new(Failing { rt: &rt, fails });
        let put = shelf.put(rt.alloc(), "failing", b"new");
        if *done {
            expect(&rt, put, Ok(()));
            has(&rt, "failing", b"new");
        } else {
            expect(&rt, put, Err(PutError::Failed));
            has(&rt, "failing", b"old bytes");
        }
        expect(&rt, is_free(&rt, "failing.thynvm-new"), true);
    }
    fs::remove_file(&rt, "failing").expect(&rt, "the file");
}
