//! What a run holds, in room that is taken once: cells, what is in scope, and texts under way.
#![tactic(auto)]

mod cells;
mod descriptor;
mod dimension;
mod display;
mod entries;
mod items;
mod shelf;
mod store;

pub use cells::{Bounds, Closed, Part, Procedure, Variable, Wide, Word};
pub use descriptor::Descriptor;
pub use dimension::Dimension;
pub use display::PROGRAM;
pub use entries::{Entry, Frame, Mark, Purpose, Refusal, WidthsSet};
pub use store::Store;
