//! What is found of every phrase of a program, in the order in which it is gone through, and its faults in the order of the rules.
#![tactic(auto)]

mod blocks;
mod checker;
mod names;
mod program;

pub use program::check_program;
