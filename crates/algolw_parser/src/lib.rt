//! The program that a deck's tokens spell.
#![tactic(auto)]

mod parsing;
mod phrases;

pub use parsing::{Parsed, parse};
