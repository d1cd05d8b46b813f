//! What a program prints: the values that it writes, edited into lines.
#![tactic(auto)]

mod fields;
mod laws;
mod printer;
mod widths;

pub use laws::{lines_are_cut, lines_are_never_fewer, lines_fit, lines_stay};
pub use printer::Printer;
pub use widths::Widths;
