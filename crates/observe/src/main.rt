//! The program `observe`: does what thynvm does for `run`, `resume`, `bench` and `plain`, and puts text under a name that
//! says what a run came to: its events with their cycles, the trap, and the totals of the tally; and if it is asked for, how
//! often each program counter retired, the machine's state in a cycle or at a count, the instructions that retired, how many
//! cycles there were of each cause, in all and each time that an epoch was executed, and how many writes each place of the
//! NVM has taken. With `--torn` before the command the run goes over an NVM whose blocks may be torn. With `--accesses` a
//! table of the accesses to the NVM in some cycles is put under a name of its own.
//!
//! Open specs/Observing.antt first, and src/top.rt; src/head.rt and what it uses make what every text begins with, and
//! src/sections.rt, src/counts.rt and src/wear.rt what is added to it. For the table open specs/Tabled.antt and src/tabled.rt,
//! then src/again.rt and src/accesses.rt. `main` makes the real shelf, sinks and devices. It stands on thy_cli, thy_files,
//! thy_execute, thy_observe, thy_plain, thy_out and thy_nvm; nothing stands on it.
#![tactic(auto)]

#[cfg(test)]
mod access_tests;
mod accesses;
mod again;
mod beginning;
mod counts;
mod head;
mod lines;
mod naming;
mod options;
mod sections;
mod states;
mod tabled;
#[cfg(test)]
mod tests;
mod top;
mod totals;
mod traces;
mod trap;
mod wear;
mod whole;

use crate::accesses::take_name;
use crate::options::{refuse_window, refuse_word, take_options};
use crate::tabled::observe_beside;
use std::alloc::{AllocError, Global};
use std::io::ErrorKind;
use std::process::ExitCode;
use std::rt::Env;
use thy_base::{Sink, WordsError};
use thy_cli::{Refusal, refuse};
use thy_nvm::MemNvm;
use thy_observe::{Counting, Listing};
use thy_out::{FileShelf, StdSink};

/// The arguments of the command line; none if the system has none to give.
fn words(rt: &(impl Env + Alloc<A = Global>)) -> Result<Vec<String>, AllocError> {
    let alloc = rt.alloc();
    match std::env::args(rt) {
        Ok(args) => args.collect(alloc),
        Err(error) if matches!(error.kind(), ErrorKind::OutOfMemory) => Err(AllocError),
        Err(_) => Ok(Vec::new(alloc)),
    }
}

/// Refuses the arguments.
fn refused<R: Sink>(alloc: Global, error: WordsError, report: &mut R) -> ExitCode {
    ExitCode::from(refuse(alloc, Refusal::Words(error), report).status)
}

fn main(rt: HostRuntime) -> ExitCode {
    let alloc = rt.alloc();
    let mut terminal = StdSink::output(rt.stdout());
    let mut report = StdSink::error(rt.stderr());
    let mut words = match words(&rt) {
        Ok(words) => words,
        Err(error) => return refused(alloc, WordsError::Memory(error), &mut report),
    };
    if words.len() < 2 {
        return refused(alloc, WordsError::Usage, &mut report);
    }
    let out = words.remove(1);
    let name = take_name(&mut words);
    let options = match take_options(&mut words) {
        Ok(options) => options,
        Err(wish) => return ExitCode::from(refuse_word(wish, &mut report)),
    };
    if let Some(fault) = options.window_fault() {
        return ExitCode::from(refuse_window(alloc, fault, &mut report));
    }
    let device = if options.torn {
        MemNvm::tearing(alloc)
    } else {
        MemNvm::new(alloc)
    };
    let mut shelf = FileShelf::new(rt);
    let mut nvm = Counting::over(alloc, device, options.wear);
    let mut again = Listing::over(alloc, MemNvm::new(alloc));
    let status = observe_beside(
        alloc,
        out.as_str(),
        &name,
        options,
        &words,
        &mut shelf,
        &mut terminal,
        &mut report,
        &mut nvm,
        &mut again,
    );
    ExitCode::from(status)
}
