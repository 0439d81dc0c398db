//! What a scheme of checkpoints is to the machine, and the machine over any scheme, as definitions. Controller,
//! checkpoint engine and boot are one trait, `Scheme`, and each of its calls promises something for the checkpoints of
//! a run. `SchemeStore` makes a scheme the store of blocks for cache and hart.
//!
//! The machine is hart, cache and scheme: what holds of it at every moment of a run, what each cycle makes of it, and
//! the laws by which it is one of the machines that the layers above run. The last of them is `the_machine_is_lawful`.
//!
//! Open specs/Scheme.antt first, then specs/Calls.antt, and src/scheme.rt; of the machine specs/Sound.antt,
//! specs/Rows.antt and src/laws.rt. It depends on thy_hart, thy_cache, thy_computer and their dependencies; thy_core and
//! the crates that make a scheme of its parts depend on it.
#![tactic(auto)]

mod laws;
mod scheme;
mod scheme_store;

pub use laws::{
    a_cycle_leads_to_a_moment, a_cycle_that_fails_is_safe, a_cycle_that_simulates_is_a_step,
    a_drain_fails_safely, a_drain_of_the_boot_simulates, a_dram_drain_simulates,
    a_flush_fails_safely, a_flush_simulates, a_fresh_start_simulates, a_halted_cycle_simulates,
    a_merge_simulates, a_moment_is_safe, a_promotion_fails_safely, a_promotion_simulates,
    a_seal_simulates, an_nvm_drain_simulates, cycles_come_nearer, power_that_comes_on_simulates,
    the_boot_fails_safely, the_boot_simulates, the_engine_fails_safely, the_engine_simulates,
    the_hart_fails_safely, the_hart_hands_on, the_hart_simulates, the_machine_is_lawful,
};
pub use scheme::Scheme;
pub use scheme_store::SchemeStore;
