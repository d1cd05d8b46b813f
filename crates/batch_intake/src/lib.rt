//! A batch as it is read, piece by piece: its accounts, and its jobs as they end.
#![tactic(auto)]

mod halt;
mod intake;
mod reading;

pub use halt::Halt;
pub use intake::Intake;
pub use reading::{Front, read_front};
