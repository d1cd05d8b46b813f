//! What checking finds of the phrases of a program, in the order in which it is found, and what it notes of its declarations. A
//! program goes through its phrases in the same order when it gets its numbers, and takes what was found of each.
#![tactic(auto)]

mod classes;
mod finding;
mod findings;
mod names;
mod untaken;

pub use classes::{Field, FoundClass};
pub use finding::Finding;
pub use findings::{Log, statements};
pub use names::name_of;
pub use untaken::Untaken;
