//! A listing taken apart, from its end upwards: into its sections and its closing lines, whatever its jobs print.
#![tactic(auto)]

mod laws;
mod lines;
mod parts;
mod section;
mod sums;

pub use laws::{apart_in_one_way, lines_once};
pub use parts::{Parts, taken_apart};
