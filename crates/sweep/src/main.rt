//! The program `sweep`: makes a run as thynvm does for `run`, `resume` and `bench`, without cuts, and after each of its cycles lets
//! power come on over copies of what a cut could leave there. It writes text under a name that says to which checkpoints the boots
//! led, how long they took, and what was lost. Each state that is restored is compared with the plain machine's.
//!
//! Open specs/Swept.antt and src/top.rt first, then src/running.rt and src/trying.rt; src/row.rt and src/account.rt make the
//! text. It stands on thy_sweep, thy_files, thy_out, thy_gap and thy_nvm; nothing stands on it.
#![tactic(auto)]

mod account;
mod asked;
mod beside;
mod compared;
mod concluding;
mod naming;
mod row;
mod running;
#[cfg(test)]
mod tests;
mod top;
mod trying;

use crate::asked::take_asked;
use crate::concluding::refuse_asked;
use crate::top::sweep;
use std::alloc::{AllocError, Global};
use std::io::ErrorKind;
use std::process::ExitCode;
use std::rt::Env;
use thy_base::{Sink, WordsError};
use thy_nvm::MemNvm;
use thy_out::{FileShelf, StdSink};
use thy_outcome::{Refusal, refuse};

/// The arguments of the command line; none if the system has none to give.
fn words(rt: &(impl Env + Alloc<A = Global>)) -> Result<Vec<String>, AllocError> {
    let alloc = rt.alloc();
    match std::env::args(rt) {
        Ok(args) => args.collect(alloc),
        Err(error) if matches!(error.kind(), ErrorKind::OutOfMemory) => Err(AllocError),
        Err(_) => Ok(Vec::new(alloc)),
    }
}

/// Refuses the arguments.
fn refused<R: Sink>(alloc: Global, error: WordsError, report: &mut R) -> ExitCode {
    ExitCode::from(refuse(alloc, Refusal::Words(error), report).status)
}

fn main(rt: HostRuntime) -> ExitCode {
    let alloc = rt.alloc();
    let mut terminal = StdSink::output(rt.stdout());
    let mut report = StdSink::error(rt.stderr());
    let mut words = match words(&rt) {
        Ok(words) => words,
        Err(error) => return refused(alloc, WordsError::Memory(error), &mut report),
    };
    if words.len() < 2 {
        return refused(alloc, WordsError::Usage, &mut report);
    }
    let out = words.remove(1);
    let asked = match take_asked(alloc, &mut words) {
        Ok(asked) => asked,
        Err(why) => return ExitCode::from(refuse_asked(alloc, why, &mut report)),
    };
    let mut shelf = FileShelf::new(rt);
    let mut nvm = if asked.torn {
        MemNvm::tearing(alloc)
    } else {
        MemNvm::new(alloc)
    };
    let status = sweep(
        alloc,
        out.as_str(),
        &asked,
        &words,
        &mut shelf,
        &mut terminal,
        &mut report,
        &mut nvm,
    );
    ExitCode::from(status)
}
