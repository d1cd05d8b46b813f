//! The records that a running program makes, in room that is taken once.
#![tactic(auto)]

mod fields;
mod records;

pub use records::Records;
