//! The top call: what the command words say is done, over any sources of bytes and any sinks.
#![tactic(auto)]

mod accounts;
mod asked;
mod laws;
mod made;
mod orders;
mod run;
mod statement;
mod top;

pub use laws::closed_are_accounts;
pub use top::{Status, run_monitor};
