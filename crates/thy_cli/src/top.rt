//! The top call: from the arguments to the exit status.
ghost use Rattle.std.specs.Prelude.{[], map};
ghost use Rattle.std.specs.String.{string_bytes};
ghost use Rattle.thy_cli.specs.Completing.{Claim};
ghost use Rattle.thy_outcome.specs.Answering.{around, nvm_of};
ghost use Rattle.thy_outcome.specs.Machines.{by_scheme};
ghost use Rattle.thy_cli.specs.Watching.{ClaimSeen};

use std::alloc::Global;
use thy_block::{Nvm, Shelf, Sink};
use thy_commands::carry_out;
use thy_computer::Computer;
use thy_core::Machine;
use thy_outcome::Answer;
use thy_run::{Observer, Silent};
use thy_schemes::{Journal, Shadow, Thynvm};

/// Does what the arguments after the program's name ask for, and keeps the claim of this project (`docs/THEOREM.md`):
/// `run FILE`, `resume IMAGE`, `bench N`, `compare FILE`, `plain FILE` or `make N OUT`, and options.
///
/// `run` runs a program file on the machine, `bench` the one that is made from a number, and `resume` continues from a
/// saved image. With `--scheme` the machine has another scheme of checkpoints. The console's bytes go to `terminal`
/// when their checkpoint is committed or restored, the events' lines and a closing line to `report`; with `--save` what
/// the run leaves on its device is put on the shelf. `compare` runs a file by each scheme in turn, each time over a
/// device that is fitted again, and reports one line for each. `plain` runs a file on the plain machine: the console's
/// bytes go to `terminal` when it stops, the line of its end and a closing line to `report`. `make` stores the program
/// file of a number on the shelf.
///
/// The result has the events (of runs on the machine), the number of done cycles (of `plain`: steps) and the exit
/// status. That is 0 if the program exited, or the file was put, 1 if it trapped, and 2 if the arguments are refused.
/// It is 3 if the file, the image or the input could not be read, or something was not put; 4 if the file is refused,
/// and 5 if the image is. It is 6 if a sink failed, 7 if the device failed, 8 if the limit is reached, 9 if there was
/// not enough memory, and 10 if the image has read more input than there is.
///
/// The contract is the claim of this project, `docs/THEOREM.md`, with each scheme: whatever the device leaves at each
/// cut, the events are lawful, each restart is what the cut before it left, and the device is safe at the end. It is
/// complete, too: if the file or the image is a program that ends, the limit is high enough and nothing fails, the
/// status is this end's, or 9.
pub fn thynvm<H: Shelf, T: Sink, R: Sink, N: Nvm>(
    alloc: Global,
    words: &[String],
    shelf: &mut H,
    terminal: &mut T,
    report: &mut R,
    nvm: &mut N,
) -> Answer
    ensures { let before = around (H.stock shelf.old) nvm.old
        (T.stream terminal.old) (R.stream report.old) in
        let after = around (H.stock shelf.new) nvm.new
        (T.stream terminal.new) (R.stream report.new) in
        let nvms = nvm_of N.device in
        let machines = by_scheme ⟦<Machine<Thynvm> as Computer>⟧.kind
        ⟦<Machine<Journal> as Computer>⟧.kind
        ⟦<Machine<Shadow> as Computer>⟧.kind in
        Claim machines nvms (map string_bytes words.now) before after result }
{
    observed(alloc, words, shelf, terminal, report, nvm, &mut Silent)
}

/// Does what `thynvm` does, and lets an observer, which has seen nothing yet, see each cycle of the run that is done,
/// or the state in which the plain machine stops. The observer changes nothing of what is done.
///
/// The contract is the contract of `thynvm`, and says that the observer has seen the cycles of the run of which it
/// speaks, or the plain machine's last state; or nothing, if there is neither. The runs of a comparison it is not
/// shown.
pub fn observed<H: Shelf, T: Sink, R: Sink, N: Nvm, O: Observer>(
    alloc: Global,
    words: &[String],
    shelf: &mut H,
    terminal: &mut T,
    report: &mut R,
    nvm: &mut N,
    observer: &mut O,
) -> Answer
    requires { O.has_seen observer.old [] }
    ensures { let before = around (H.stock shelf.old) nvm.old
        (T.stream terminal.old) (R.stream report.old) in
        let after = around (H.stock shelf.new) nvm.new
        (T.stream terminal.new) (R.stream report.new) in
        let nvms = nvm_of N.device in
        let machines = by_scheme ⟦<Machine<Thynvm> as Computer>⟧.kind
        ⟦<Machine<Journal> as Computer>⟧.kind
        ⟦<Machine<Shadow> as Computer>⟧.kind in
        let words = map string_bytes words.now in
        ClaimSeen machines nvms O.has_seen O.has_seen_last words before after result observer.new }
{
    carry_out::<Machine<Thynvm>, Machine<Journal>, Machine<Shadow>, H, T, R, N, O>(
        alloc, words, shelf, terminal, report, nvm, observer,
    )
}
