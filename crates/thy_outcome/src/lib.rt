//! What a call answers: its definitions, why none is begun (`Refusal`), the result (`Answer`), and the last lines of a
//! report. In a call in which nothing fails, the result is that of the program's own end:
//! `what_is_answered_is_complete`.
//!
//! What images and files mean, by the scheme that the parameters name, is here too, the one place that knows the
//! layouts of all schemes. `check` and `state` are exactly what the bytes of a file mean (`a_file_is_an_image`,
//! `a_checkpoint_can_begin_a_run`). No image is one of two schemes: `an_image_is_of_one_scheme`.
//!
//! Open specs/Meaning.antt and src/file.rt first, then specs/Orders.antt (`Answered`), specs/Answering.antt,
//! specs/Comparing.antt and specs/Calm.antt, and src/refusal.rt. It depends on thy_run, on thy_record and thy_images, on
//! thy_gap, thy_base, thy_elf, thy_plain and thy_text, and on their dependencies; thy_files, thy_execute, thy_commands and
//! thy_cli depend on it.
#![tactic(auto)]

mod answer;
mod closing;
mod complete_laws;
mod file;
mod image_laws;
mod refusal;
mod source;

pub use answer::{Answer, Ran};
pub use closing::{close, close_stop, stopped};
pub use complete_laws::what_is_answered_is_complete;
pub use file::{check, state};
pub use image_laws::{a_checkpoint_can_begin_a_run, a_file_is_an_image, an_image_is_of_one_scheme};
pub use refusal::{Refusal, refuse, report_of_refusal};
pub use source::ProgramSource;
