//! The listing of a night from those of its parts, by the night's plan.
#![tactic(auto)]

mod closing;
mod lines;
mod merging;
mod output;
mod parts;
mod plan;
mod reading;
mod shelf;
mod stop;
mod texts;
mod window;

pub use merging::merge_night;
pub use shelf::{Listings, Part, Unfetched};
pub use stop::Stop;
