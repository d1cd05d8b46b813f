//! A night of any length, divided by its accounts and by time: its listing comes from those of the parts.
#![tactic(auto)]

mod laws;

pub use laws::{night_merged, part_listing, window_merged};
