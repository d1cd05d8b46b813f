//! Whether the types of a program fit, and the program that it is.
#![tactic(auto)]

mod checking;

pub use checking::{Checked, check};
