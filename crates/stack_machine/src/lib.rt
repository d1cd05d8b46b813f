//! Running code: `Desk`, which holds what a run needs, and `run`.
#![tactic(auto)]

mod desk;
mod dump;
mod running;
mod spelled_rows;

pub use desk::Desk;
pub use joined_rows::Outcome;
pub use machine_rows::Limits;
pub use running::run;
