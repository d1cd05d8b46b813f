//! The office of a batch: the jobs that have arrived, what is decided of each, and the results of those that have ended.
#![tactic(auto)]

mod answers;
mod board;
mod brand;
mod laws;
mod office;
mod posting;
mod prospect;
mod register;
mod standing;

pub use answers::{Admitted, ArriveError, Stranger};
pub use brand::OfficeBrand;
pub use laws::answers_are_exact;
pub use office::Office;
pub use standing::Standing;
