//! Code as it is made: single instructions, texts and targets, behind those before.
#![tactic(auto)]

mod emitter;
mod operators;
mod passing;
mod texts;

pub use emitter::{Emitter, type_given, variable_type};
pub use operators::deciding;
pub use passing::{Passing, passing_of_name, passing_of_phrase};
pub use texts::{OpenText, reading_of_name, reading_of_subarray};
