//! The listing of a batch by the decisions on its jobs, in whatever order the events come: laws alone, over definitions.
#![tactic(auto)]

mod laws;

pub use laws::{batches_come_to_an_end, decisions_give_the_listing, decisions_give_the_sections};
