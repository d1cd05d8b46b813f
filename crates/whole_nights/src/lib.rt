//! A night that is cut into parts, run part by part, and joined again is the whole night. It holds definitions and laws; no code of it runs.
#![tactic(auto)]

mod laws;

pub use laws::{
    chains_go_on, chains_open, nights_are_joined, nights_are_whole, openings_are_filed,
    parts_are_batches, parts_are_filed, plans_are_one, plans_are_said,
};
