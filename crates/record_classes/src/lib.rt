//! The record classes of a program, and the sets of them that its references are to.
#![tactic(auto)]

mod class;
mod class_set;
mod field_name;
mod laws;
mod table;

pub use laws::{classes_are_found, sets_are_numbered};
pub use table::ClassTable;
