//! The lines of a dump, which shows what is under way where a program stops, and the lines of its source.
#![tactic(auto)]

mod dump;
mod entries;
mod lines;
mod source;

pub use dump::{dump_line, place_line};
pub use entries::{Dimensions, Entry, Shown};
pub use source::source_line;
