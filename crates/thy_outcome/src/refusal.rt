//! Why a call begins no run.
ghost use Rattle.std.specs.Prelude.{◌≡◌, []};
ghost use Rattle.thy_text.specs.Closings.{closing_of};
ghost use Rattle.thy_text.specs.History.{of_run};
ghost use Rattle.thy_outcome.specs.Answering.{file_line, Closes};
ghost use Rattle.thy_outcome.specs.Kept.{refused_status, refused_line};

use crate::answer::Answer;
use crate::closing::close;
use std::alloc::{AllocError, Global};
use thy_base::{FetchError, FitError, Sink, WordsError};
use thy_elf::ElfError;
use thy_layout::BadImage;
use thy_text::{Closing, Events, FetchFault, History};

/// Why a call begins no run.
#[derive(Clone, Copy)]
pub enum Refusal<'a> {
    /// The arguments are refused.
    Words(WordsError),
    /// The file of this name could not be read.
    Fetch(&'a str, FetchError),
    /// The file is refused.
    File(ElfError),
    /// The image is refused.
    Image(BadImage),
    /// What the image's program has read of its input is more than the input.
    Input {
        /// How many bytes it has read.
        cursor: u64,
        /// How many the input has.
        length: u64,
    },
    /// The device could not be fitted.
    Device(FitError),
    /// An allocation failed.
    Memory(AllocError),
}

/// The closing line of a file that is refused.
fn file_closing(error: ElfError) -> Closing<'static>
    ensures { closing_of result ≡ file_line error }
{
    let number = u64::from(error.number());
    match error.index() {
        Some(k) => Closing::FileAt(number, error.name(), k),
        None => Closing::File(number, error.name()),
    }
}

/// What is reported of a refusal: the exit status and the closing line.
pub fn report_of_refusal(refusal: Refusal<'_>) -> (u8, Closing<'_>)
    ensures status { result.0 ≡ refused_status refusal.entry }
    ensures line { closing_of result.1 ≡ refused_line refusal.entry }
{
    match refusal {
        Refusal::Words(WordsError::Memory(_))
        | Refusal::Fetch(_, FetchError::Memory(_))
        | Refusal::Device(FitError::Memory(_))
        | Refusal::Memory(_) => (9, Closing::Memory),
        Refusal::Words(WordsError::Usage) => (2, Closing::Usage),
        Refusal::Words(WordsError::Word(field)) => (2, Closing::Word(field)),
        Refusal::Words(WordsError::Value(field, value)) => (2, Closing::Value(field, value)),
        Refusal::Fetch(name, FetchError::Failed) => (3, Closing::Fetch(name, FetchFault::Failed)),
        Refusal::Fetch(name, FetchError::NotThere) => (
            3,
            Closing::Fetch(name, FetchFault::Missing),
        ),
        Refusal::Fetch(name, FetchError::TooLong) => (3, Closing::Fetch(name, FetchFault::TooLong)),
        Refusal::File(error) => match error {
            ElfError::Memory(_) => (9, Closing::Memory),
            _ => (4, file_closing(error)),
        },
        Refusal::Image(bad) => (5, Closing::Image(bad)),
        Refusal::Input { cursor, length } => (10, Closing::Input { cursor, length }),
        Refusal::Device(FitError::Failed) => (7, Closing::Nvm),
    }
}

/// Reports why no run was begun, and returns the result of such a call.
pub fn refuse<R: Sink>(alloc: Global, refusal: Refusal, report: &mut R) -> Answer
    ensures status { result.status ≡ refused_status refusal.entry }
    ensures events { result.events ≡ of_run [] }
    ensures cycles { result.cycles ≡ 0 }
    ensures closes { Closes (refused_line refusal.entry)
        (R.stream report.old) (R.stream report.new) }
{
    let (status, closing) = report_of_refusal(refusal);
    close(closing, report);
    Answer {
        status,
        events: History::of(alloc, Events::new(alloc)),
        cycles: 0,
    }
}
