//! Lists the code of decks: of a job its cards, and the instructions or the diagnostics.
//!
//! It is for those who work at the compiler; `bench/code_listing` is a program of it. What it lists is what `compile_deck` gives,
//! whose contract says that this is the code by the definitions, or the diagnostics that are shown. Proved here is that the
//! listing is safe and ends. How it writes an instruction is tried on decks, whose listings were written by hand from the
//! definitions.
#![tactic(auto)]

mod calls;
mod heads;
mod instructions;
mod listing;
mod texts;

pub use listing::job_listing;
