//! Where names are declared: the frame of each, and the standard names, which stand around each program. And what was found of
//! a program, in order of place.
#![tactic(auto)]

mod frame;
mod noting;
mod order;
mod standard;

pub use frame::Frame;
pub use noting::{note_control, note_names};
pub use order::{sort_classes, sort_faults, sort_names};
pub use standard::note_standard;
