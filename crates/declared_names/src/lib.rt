//! What is known of the names of a program, and what each declaration makes known.
#![tactic(auto)]

mod blocks;
mod classes;
mod declarations;
mod innermost;
mod known;
mod path;
mod procedures;
mod standard;

pub use blocks::{
    Bounds, array, bound_verdict, class, declare, declare_labels, names_of_block, no_bounds, simple,
};
pub use declarations::{class_fault, formal_scope, twice};
pub use known::{Declared, Facts, Known, KnownScope, meaning_of, place_of};
pub use path::KnownPath;
pub use procedures::{Head, procedure_verdict, read_head};
