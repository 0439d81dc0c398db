//! Shelves and sinks, in memory and over what the system has.
use crate::support::expect::expect;
use std::fs;
use thy_base::{FetchError, PutError, Shelf, Sink, SinkError};
use thy_out::{FileShelf, MemShelf, MemSink, StdSink};

#[test]
fn a_full_sink_takes_what_fits(rt: HostRuntime) {
    let failing = [2].to_vec(rt.alloc()).expect(&rt, "memory");
    let mut sink = MemSink::new(rt.alloc(), 5, failing).expect(&rt, "memory");
    expect(&rt, sink.write(b"abc"), Ok(()));
    expect(&rt, sink.write(b"d"), Err(SinkError::Failed));
    expect(&rt, sink.write(b"def"), Err(SinkError::Failed));
    expect(&rt, sink.taken(), b"abcde".as_slice());
}

/// What is asked of the shelf after "hello" was put as "G", and why it is not given: the fourth call fails.
static KEPT: [(&str, u64, Option<FetchError>); 3] = [
    ("G", 9, Some(FetchError::Failed)),
    ("G", 9, None),
    ("H", 9, Some(FetchError::NotThere)),
];

#[test]
fn a_shelf_in_memory_gives_and_keeps(rt: HostRuntime) {
    let name = String::from_str(rt.alloc(), "F").expect(&rt, "memory");
    let bytes = b"abc".to_vec(rt.alloc()).expect(&rt, "memory");
    let files = Vec::from_array(rt.alloc(), [(name, bytes)]).expect(&rt, "memory");
    let failing = [4].to_vec(rt.alloc()).expect(&rt, "memory");
    let mut shelf = MemShelf::new(files, failing);
    expect(&rt, shelf.fetch(rt.alloc(), "F", 3).err(), None);
    expect(
        &rt,
        shelf.fetch(rt.alloc(), "F", 2).err(),
        Some(FetchError::TooLong),
    );
    expect(&rt, shelf.put(rt.alloc(), "G", b"hello"), Ok(()));
    for (name, limit, want) in &KEPT {
        expect(&rt, shelf.fetch(rt.alloc(), name, *limit).err(), *want);
    }
}

/// Paths, how much of each is asked for, and why it is not given. A folder opens and cannot be read; a
/// path through a file and one with a zero byte cannot be opened, even if the user may do all.
static PATHS: [(&str, u64, Option<FetchError>); 7] = [
    ("no such file", 9, Some(FetchError::NotThere)),
    ("no such folder/file", 9, Some(FetchError::NotThere)),
    (".", 9, Some(FetchError::Failed)),
    ("/dev/null/file", 9, Some(FetchError::Failed)),
    ("a zero byte \0", 9, Some(FetchError::Failed)),
    ("/dev/zero", 5000, Some(FetchError::TooLong)),
    ("/dev/null", 0, None),
];

#[test]
fn a_shelf_of_files_gives_what_the_system_has(rt: HostRuntime) {
    let mut shelf = FileShelf::new(rt);
    for (path, limit, want) in &PATHS {
        expect(&rt, shelf.fetch(rt.alloc(), path, *limit).err(), *want);
    }
    expect(&rt, shelf.put(rt.alloc(), "/dev/null", b"four"), Ok(()));
    let nowhere = shelf.put(rt.alloc(), "no such folder/file", b"four");
    expect(&rt, nowhere, Err(PutError::Failed));
}

#[test]
fn a_file_holds_what_was_put(rt: HostRuntime) {
    let mut shelf = FileShelf::new(rt);
    for bytes in [b"seven bytes".as_slice(), b"four".as_slice()] {
        expect(
            &rt,
            shelf.put(rt.alloc(), "a_file_of_a_test", bytes),
            Ok(()),
        );
        let there = shelf
            .fetch(rt.alloc(), "a_file_of_a_test", 11)
            .expect(&rt, "the file");
        expect(&rt, there.as_slice(), bytes);
    }
    expect(&rt, fs::remove_file(&rt, "a_file_of_a_test").is_ok(), true);
}

#[test]
fn standard_error_takes_a_piece(rt: HostRuntime) {
    let mut sink = StdSink::error(rt.stderr());
    expect(&rt, sink.write(b"a piece\n"), Ok(()));
    let mut other = StdSink::output(rt.stdout());
    expect(&rt, other.write(b""), Ok(()));
}
