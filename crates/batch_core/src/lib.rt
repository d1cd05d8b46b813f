//! Who is admitted when: the events of a batch, and how far each brings its jobs.
#![tactic(auto)]

mod admission;
mod event;
mod job;
mod laws;

pub use admission::CoreState;
pub use event::Event;
pub use job::{Claim, Stage};
pub use laws::{
    complete_lists_print_in_order, events_keep, jobs_have_arrived, legal_lists_keep_order,
    money_adds_up, reachable_states_keep, stages_as_listed,
};
