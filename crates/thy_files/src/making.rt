//! A made program, put on the shelf.
ghost use Rattle.std.specs.Prelude.{◌≡◌, length, IfOk};
ghost use Rattle.thy_block.specs.Device.{Device};
ghost use Rattle.thy_block.specs.Outside.{Stream};
ghost use Rattle.thy_elf.specs.MadeFile.{made_file};
ghost use Rattle.thy_outcome.specs.Answering.{outside, ReportsMade, MakeAnswered};
ghost use Rattle.thy_outcome.specs.Kept.{err_of};
ghost use Rattle.thy_outcome.specs.Saving.{IsPut};

use std::alloc::Global;
use thy_base::{PutError, Shelf, Sink};
use thy_elf::made::file;
use thy_outcome::{Answer, close};
use thy_text::{Closing, Events, History, write_made};

/// Stores the program file that is made from a number under a name, and returns its length, or why it was not put
/// there.
fn put_made<H: Shelf>(
    alloc: Global,
    number: u64,
    name: &str,
    shelf: &mut H,
) -> Result<u64, PutError>
    ensures put { IsPut name.now (made_file number) (H.stock shelf.old) (H.stock shelf.new) (err_of result) }
    ensures length { IfOk result (λ l. l ≡ length (made_file number)) }
{
    let bytes = match file(alloc, number) {
        Ok(bytes) => bytes,
        Err(error) => return Err(PutError::Memory(error)),
    };
    shelf.put(alloc, name, bytes.as_slice())?;
    Ok(bytes.len() as u64)
}

/// Reports that a program file of this length was put, or why it was not; and returns the exit status. If the report
/// refuses the line of a file that was put, the status says so; if it refuses a closing line, the status stays.
fn write_report<R: Sink>(number: u64, name: &str, put: Result<u64, PutError>, report: &mut R) -> u8
    requires { IfOk put (λ l. l ≡ length (made_file number)) }
    ensures { ReportsMade number name.now (err_of put) result
        (R.stream report.old) (R.stream report.new) }
{
    match put {
        Ok(length) => {
            let failed = write_made(number, length, report).is_err();
            if failed { 6 } else { 0 }
        }
        Err(PutError::Failed) => {
            close(Closing::Put(name), report);
            3
        }
        Err(PutError::Memory(_)) => {
            close(Closing::Memory, report);
            9
        }
    }
}

/// Makes the program file of a number, stores it under a name, and says so.
pub fn make<H: Shelf, R: Sink>(
    alloc: Global,
    number: u64,
    name: &str,
    shelf: &mut H,
    report: &mut R,
) -> Answer
    ensures { (n : Device) (t : Stream) →
        let before = outside (H.stock shelf.old) n t (R.stream report.old) in
        let after = outside (H.stock shelf.new) n t (R.stream report.new) in
        MakeAnswered number name.now before after result }
{
    let put = put_made(alloc, number, name, shelf);
    let status = write_report(number, name, put, report);
    Answer {
        status,
        events: History::of(alloc, Events::new(alloc)),
        cycles: 0,
    }
}
