//! The code of a phrase, as a function on phrases: how long it is, and that it is fit. It holds definitions and their
//! laws; no code of it runs.
#![tactic(auto)]

mod laws;

pub use laws::{code_is_sized, code_is_well_formed};
