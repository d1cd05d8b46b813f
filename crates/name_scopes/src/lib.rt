//! Scopes in which a name is found fast, and the marks by which most scopes are passed over.
#![tactic(auto)]

mod key;
mod marks;
mod scope;

pub use marks::{EachMark, MARKS, is_marked, mark_of};
pub use scope::Scope;
