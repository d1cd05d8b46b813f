//! What stands outside the cycle of phrases: single tokens, operators, names, types, formals and record classes as they are
//! read, and the making of phrases.
#![tactic(auto)]

pub mod make;
mod operators;
mod parser;
mod stop;
mod types;

pub use operators::Level;
pub use parser::{Parser, inside};
pub use stop::Stop;
