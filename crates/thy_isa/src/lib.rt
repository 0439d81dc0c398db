//! The instructions of RV64IMA with FENCE.I: what each word means, what each instruction computes, and what one step does to
//! the state of the plain machine. Callers rely on `decode`, `effect`, `call`, `moves` and `finish`, the parts of a step,
//! which equal their specifications, and on `blocks_make_the_step`: done over blocks they are the step over bytes. `decoded`
//! keeps words of instructions with what they mean, and `processor` has a processor as a list of harts: both in another form
//! what is said of one hart in front.
//!
//! Open specs/Step.antt first, then specs/Table.antt, and src/effects.rt. It depends on thy_block; every
//! crate that names a processor or a state depends on it: thy_plain, thy_elf, thy_hart, thy_record, thy_text and all
//! from thy_control on.
#![tactic(auto)]

mod arith;
mod atomics;
mod decoded;
mod decoding;
mod effects;
mod environment;
mod harts;
mod instr;
mod laws;
mod moving;
mod numbers;
mod processor;
mod regs;
mod reserving;
mod state;
mod status;
mod step;

pub use arith::alu;
pub use atomics::modified;
pub use decoded::{DecodedWords, Found, holds};
pub use decoding::{decode, is_legal};
pub use effects::{after, bytes_in, effect, word_effect};
pub use environment::call;
pub use harts::cross;
pub use instr::{Alu, Amo, Cond, Extend, Instr, Reg, Width};
pub use laws::{
    blocks_make_the_step, crossing_changes_places, misaligned_accesses_are_served,
    what_a_step_keeps, what_a_step_of_a_hart_is,
};
pub use moving::{add_number, brought, modified_bytes, moves, number_in};
pub use numbers::{extended, number, word};
pub use processor::{Fronted, HartOf, MOST_HARTS, Processor, a_list_of_harts_is_a_processor};
pub use regs::Regs;
pub use reserving::{front_of, is_reserved, left_by, reservation, reserve, write_past};
pub use state::{
    Call, CallState, Cause, CpuState, Effect, MachState, Moves, OtherHart, Reservation, Status,
};
pub use status::is_running;
pub use step::{cause_number, fetch_fault, finish, finish_alone, within};
