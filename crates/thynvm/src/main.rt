//! The program: runs a guest program on the machine, cuts its power as the arguments say, and reports what happens.
//! `main` makes the real shelf, sinks and device, calls `thynvm` of thy_cli with the arguments, and exits with its
//! status.
//!
//! This is the one file, without a contract of its own. It depends on thy_cli, thy_out and thy_nvm; nothing depends on
//! it.
#![tactic(auto)]

use std::alloc::{AllocError, Global};
use std::io::ErrorKind;
use std::process::ExitCode;
use std::rt::Env;
use thy_cli::{Refusal, refuse, thynvm};
use thy_nvm::MemNvm;
use thy_out::{FileShelf, StdSink};

/// The arguments of the command line; none if the system has none to give.
fn words(rt: &(impl Env + Alloc<A = Global>)) -> Result<Vec<String>, AllocError> {
    let alloc = rt.alloc();
    match std::env::args(rt) {
        Ok(args) => args.collect(alloc),
        Err(error) if matches!(error.kind(), ErrorKind::OutOfMemory) => Err(AllocError),
        Err(_) => Ok(Vec::new(alloc)),
    }
}

fn main(rt: HostRuntime) -> ExitCode {
    let alloc = rt.alloc();
    let mut terminal = StdSink::output(rt.stdout());
    let mut report = StdSink::error(rt.stderr());
    let words = match words(&rt) {
        Ok(words) => words,
        Err(error) => {
            return ExitCode::from(refuse(alloc, Refusal::Memory(error), &mut report).status);
        }
    };
    let mut shelf = FileShelf::new(rt);
    let mut nvm = MemNvm::new(alloc);
    let answer = thynvm(
        alloc,
        &words,
        &mut shelf,
        &mut terminal,
        &mut report,
        &mut nvm,
    );
    ExitCode::from(answer.status)
}
