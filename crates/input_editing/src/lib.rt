//! What a program reads: the data cards, and the items on them.
#![tactic(auto)]

mod input;
mod items;
mod laws;

pub use input::Input;
pub use laws::{cards_are_read_whole, scanning_is_exact};
