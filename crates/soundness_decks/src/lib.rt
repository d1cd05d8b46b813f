//! Decks whose programs fit, and phrases that don't. It holds tables and laws; no code of it runs.
#![tactic(auto)]

mod laws;

pub use laws::{decks_fit, others_are_refused};
