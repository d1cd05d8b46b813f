// The listing of a batch, made section by section and written piece by piece.
#![tactic(auto)]

mod audit;
mod closing;
mod laws;
mod lines;
mod verdict;
mod writing;

pub use audit::Audit;
pub use batch_summary::{Tally, summary_of};
pub use laws::sections_by_table;
pub use lines::heading;
pub use writing::write_all_of;
