//! What the grammar of the language keeps, and reading tokens by it.
#![tactic(auto)]

mod laws;

pub use laws::{answers, fronts_begin, one_program};
