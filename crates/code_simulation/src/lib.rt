//! The code of a phrase does what the phrase does. It holds definitions and their laws; no code of it runs.
#![tactic(auto)]

mod laws;

pub use laws::{code_does_what_the_program_does, code_runs_as_the_program_means};
