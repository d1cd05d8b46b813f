//! The workers: threads that take tickets, run their jobs and settle them, and what they bring back.
#![tactic(auto)]

mod caller;
mod end;
mod gathering;
mod pool;
mod staff;
mod working;

pub use caller::{Caller, Turn};
pub use end::WorkEnd;
pub use gathering::{Gathered, gather};
pub use pool::run_pool;
pub use staff::Pooled;
pub use working::work;
