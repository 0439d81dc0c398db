//! What a run comes to, cycle by cycle: an observer that counts each kind of cycle, and keeps for each cycle in which events
//! were made its number and how many instructions were retired by then, and what each hart did. It is proved to be the tally
//! of the cycles that it has seen (`Tally`). Two more count the cycles by cause, of the whole run (`Ledger`) and of each
//! stretch of it (`Epochs`), and a device the writes of each place (`Counting`). Another device lists its calls (`Listing`),
//! so that a run which is made over it says which blocks its cycles read and wrote (`list_accesses`). And where a program
//! trapped, and at what (`trap_of`); and how often each program counter retired, the state of the machine in a cycle or at a
//! count, and the instructions themselves, which it finds by executing them again on the plain machine (`count_pcs`,
//! `state_by`, `state_at`, `trace`).
//!
//! Open specs/Kinds.antt first, then specs/EventCycles.antt, specs/Shares.antt and src/tally.rt; for the causes
//! specs/Causes.antt, specs/Epochs.antt and src/ledger.rt; for the program counters specs/Replaying.antt and src/replay.rt,
//! for the states specs/States.antt too, and for the instructions specs/Tracing.antt and src/tracing.rt; for the accesses
//! specs/Accesses.antt and src/accesses.rt. It stands on thy_block, thy_base, thy_isa, thy_plain, thy_layout, thy_computer and
//! thy_run; on it stands the program observe.
#![tactic(auto)]

mod accesses;
mod causes;
mod changes;
mod counting;
mod epochs;
mod event_cycle;
mod kinds;
mod ledger;
mod listing;
mod replay;
mod shares;
mod tally;
mod tracing;
mod trap;
mod watch;

pub use accesses::{Accessed, list_accesses};
pub use causes::{Cause, causes_add_up, causes_agree_with_kinds, what_is_under_way_is_known};
pub use changes::{Change, Changes, Dated};
pub use counting::{Calls, Counting, Counts, wear_adds_up};
pub use epochs::{End, Epochs, Row, epochs_add_up};
pub use event_cycle::{EventCycle, RetiredCount};
pub use kinds::{Kind, kinds_add_up};
pub use ledger::Ledger;
pub use listing::{Call, Listing};
pub use replay::{ReplayError, count_pcs, state_at, state_by, what_is_executed_follows_the_run};
pub use shares::{Share, Shares, shares_add_up};
pub use tally::Tally;
pub use tracing::{Access, Traced, Window, a_trace_without_bounds_lists_all, trace};
pub use trap::{Trap, trap_of};
pub use watch::Watch;
