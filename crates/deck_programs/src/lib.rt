//! No deck without diagnostics and no job ever goes wrong. It holds definitions and laws; no code of it runs.
#![tactic(auto)]

mod laws;

pub use laws::{
    batches_are_never_wrong, decks_are_never_wrong, jobs_are_never_wrong, jobs_stand_before,
    texts_tell_wrong, trees_of_decks, trees_of_decks_are_placed, trees_of_jobs,
};
