//! From the arguments to what their command leaves.
ghost use Rattle.std.specs.Prelude.{◌≡◌, [], map};
ghost use Rattle.std.specs.String.{string_bytes};
ghost use Rattle.thy_block.specs.declared.parameters.Parameters.{Parameters as Numbers};
ghost use Rattle.thy_outcome.specs.Answering.{around, nvm_of};
ghost use Rattle.thy_outcome.specs.Machines.{by_scheme};
ghost use Rattle.thy_outcome.specs.Watching.{AnswerSeen};
ghost use Rattle.thy_files.specs.Restoring.{ReadsFiles};

use crate::compare;
use std::alloc::Global;
use thy_base::{Command, settings};
use thy_block::{Nvm, SchemeName, Shelf, Sink};
use thy_computer::Computer;
use thy_execute::{plain_file, run_by_scheme};
use thy_files::make;
use thy_outcome::{Answer, ProgramSource, Refusal, refuse};
use thy_run::Observer;

/// Does what the arguments after the program's name ask for, with the machine `A` for `SchemeName::Thynvm`, `B` for
/// `SchemeName::Journal`, and `C` for `SchemeName::Shadow`. Each machine has to read the files of its own scheme alone.
///
/// The result is the command's, or says why the arguments are refused. The observer, which has seen nothing yet, has
/// seen the cycles of the run, or the last state of the plain machine; or nothing, if there is neither. The runs of a
/// comparison it is not shown.
pub fn carry_out<
    A: Computer,
    B: Computer,
    C: Computer,
    H: Shelf,
    T: Sink,
    R: Sink,
    N: Nvm,
    O: Observer,
>(
    alloc: Global,
    words: &[String],
    shelf: &mut H,
    terminal: &mut T,
    report: &mut R,
    nvm: &mut N,
    observer: &mut O,
) -> Answer
    requires thynvm { (p : Numbers) → p.scheme ≡ SchemeName.Thynvm → ReadsFiles A.kind p }
    requires journal { (p : Numbers) → p.scheme ≡ SchemeName.Journal → ReadsFiles B.kind p }
    requires shadow { (p : Numbers) → p.scheme ≡ SchemeName.Shadow → ReadsFiles C.kind p }
    requires unseen { O.has_seen observer.old [] }
    ensures { let before = around (H.stock shelf.old) nvm.old
        (T.stream terminal.old) (R.stream report.old) in
        let after = around (H.stock shelf.new) nvm.new
        (T.stream terminal.new) (R.stream report.new) in
        let nvms = nvm_of N.device in
        let machines = by_scheme A.kind B.kind C.kind in
        let words = map string_bytes words.now in
        AnswerSeen machines nvms O.has_seen O.has_seen_last words before after result observer.new }
{
    match settings(alloc, words) {
        Ok(Command::Run { file, job }) => {
            let source = ProgramSource::File(file.as_str());
            run_by_scheme::<A, B, C, H, T, R, N, O>(
                alloc, source, job, shelf, terminal, report, nvm, observer,
            )
        }
        Ok(Command::Resume { image, job }) => {
            let source = ProgramSource::Image(image.as_str());
            run_by_scheme::<A, B, C, H, T, R, N, O>(
                alloc, source, job, shelf, terminal, report, nvm, observer,
            )
        }
        Ok(Command::Bench { number, job }) => {
            let source = ProgramSource::Made(number);
            run_by_scheme::<A, B, C, H, T, R, N, O>(
                alloc, source, job, shelf, terminal, report, nvm, observer,
            )
        }
        Ok(Command::Compare { file, job }) => {
            let name = file.as_str();
            compare::<A, B, C, H, T, R, N>(alloc, name, job, shelf, terminal, report, nvm)
        }
        Ok(Command::Plain { file, job }) => {
            plain_file(alloc, file.as_str(), job, shelf, terminal, report, observer)
        }
        Ok(Command::Make { number, name }) => make(alloc, number, name.as_str(), shelf, report),
        Err(error) => refuse(alloc, Refusal::Words(error), report),
    }
}
