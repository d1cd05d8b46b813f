// What a listing comes to: a tally of its sections, and the summary of it.
#![tactic(auto)]

mod laws;
mod summary;
mod tally;

pub use laws::{bytes_of_sections, tally_by_sections};
pub use summary::summary_of;
pub use tally::{Entry, Outcome, Tally};
