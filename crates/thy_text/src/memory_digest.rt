//! The digest of program memory.
ghost use Rattle.std.specs.Prelude.{◌≡◌};
ghost use Rattle.hex.specs.Hex.{encode_lower};
ghost use Rattle.sha2.specs.Sha256.{sha256};
ghost use Rattle.thy_block.specs.Bytes.{bytes_of};
ghost use Rattle.thy_text.specs.Lines.{memory_line, digest_line};
ghost use Rattle.thy_text.specs.Writing.{Wrote};

use crate::piece::{Piece, write_pieces};
use sha2::{Digest, Sha256};
use thy_base::{Sink, SinkError};
use thy_isa::MachState;

/// The SHA-256 of a state's program memory. Allocates nothing.
pub fn digest(state: &MachState) -> [u8; 32]
    ensures { result ≡ sha256 (bytes_of state.now.memory) }
{
    Sha256::digest(state.memory.as_slice())
}

/// Bytes as hexadecimal digits in lower case.
fn lower_hex(bytes: &[u8; 32]) -> [u8; 64]
    ensures { result ≡ encode_lower bytes.now }
{
    let mut digits = [0; 64];
    match hex::encode_to_slice(bytes, &mut digits) {
        Ok(()) => digits,
        Err(_) => unreachable!(),
    }
}

/// Writes the line of memory's digest.
fn write_memory<R: Sink>(state: &MachState, report: &mut R) -> Result<(), SinkError>
    ensures { Wrote result (R.stream report.old) (R.stream report.new)
        (memory_line (bytes_of state.now.memory)) }
{
    let digits = lower_hex(&digest(state));
    let pieces = [
        Piece::Text("memory "),
        Piece::Digits(&digits),
        Piece::Text("\n"),
    ];
    write_pieces(&pieces, report)
}

/// Writes the line of memory's digest, if digests are reported.
pub(crate) fn write_digest<R: Sink>(
    state: &MachState,
    reported: bool,
    report: &mut R,
) -> Result<(), SinkError>
    ensures { Wrote result (R.stream report.old) (R.stream report.new)
        (digest_line reported (bytes_of state.now.memory)) }
{
    if reported {
        write_memory(state, report)
    } else {
        Ok(())
    }
}
