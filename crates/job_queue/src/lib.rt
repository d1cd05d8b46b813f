//! The queue of the jobs that were accepted: tickets in a ring that workers share, and what each thread knows of them.
#![tactic(auto)]

mod book;
mod brand;
mod fresh;
mod laws;
mod passes;
mod queue;
mod rule;
mod ticket;

pub use book::SettleBook;
pub use brand::QueueBrand;
pub use fresh::FreshQueue;
pub use laws::{list_and_queue, taken_are_below};
pub use passes::{PutPass, TakePass};
pub use queue::JobQueue;
pub use rule::{PassView, QueueRule};
pub use ticket::Ticket;
