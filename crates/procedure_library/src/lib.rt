//! Libraries of procedures: the tokens that one is read as, its tree, and the program that it makes with a deck.
#![tactic(auto)]

mod composing;
mod laws;
mod library_tree;
mod wrapping;

pub use composing::{as_library, compose};
pub use laws::wrapped_are_ended;
pub use library_tree::LibraryTree;
pub use wrapping::{moved, wrap};
