//! The tokens of a deck.
#![tactic(auto)]

mod cursor;
mod laws;
mod lexeme;
mod scanning;
mod words;

pub use laws::{decks_are_scanned, faults_mean_it, faults_of_decks, one_reading, tokens_of_decks};
pub use scanning::{Scanned, scan};
