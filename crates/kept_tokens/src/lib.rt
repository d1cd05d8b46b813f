//! The tokens of a deck, as they are kept from when they are scanned until they are parsed.
#![tactic(auto)]

mod kept;

pub use kept::{KeptToken, TokenSort, first_place};
