//! What the machine comes to is what the program means: for every deck without faults, all data and all limits. It holds
//! definitions and laws; no code of it runs.
#![tactic(auto)]

mod laws;

pub use laws::{
    batches_run_by_table, code_of_decks_is_right, code_of_programs_is_right, jobs_run_by_table,
    programs_run_as_they_mean,
};
